//! Little-endian words in a list of bytes.
ghost use Rattle.std.specs.Prelude.{◌≡◌, ◌≤◌, ◌+◌, ◌++◌, length, take, drop};
ghost use Rattle.mach_types.specs.Grammar.{word};
ghost use Rattle.mach_types.specs.TextGuards.{word_at};

use byteorder::{ByteOrder, LittleEndian};

/// The word at an offset in bytes. Takes no memory.
pub fn read_word(bytes: &[u8], at: usize) -> u32
    requires { at + 4 ≤ length bytes.now }
    ensures { result ≡ word_at bytes.now at }
{
    LittleEndian::read_u32(&bytes[at..])
}

/// Writes a word at an offset in bytes, and leaves all other bytes. Takes no memory.
pub fn write_word(bytes: &mut [u8], at: usize, value: u32)
    requires { at + 4 ≤ length bytes.old }
    ensures { bytes.new ≡ take at bytes.old ++ word value ++ drop (at + 4) bytes.old }
{
    LittleEndian::write_u32(&mut bytes[at..], value);
}
