//! The room that C gives for a message or a text.
ghost use Rattle.std.specs.Prelude.{◌≡◌, ◌++◌, drop, length, min, if◌then◌else◌, nat_lt};
ghost use Rattle.gelvonds_c_base.specs.Codes.{no_answer, signed};
ghost use Rattle.gelvonds_c_base.specs.Texts.{Puts};

use crate::codes::{NO_ANSWER, SUCCESS};

/// The room, at most what 32 bits tell.
pub fn room_of(places: usize) -> u32
    ensures { result ≡ min places 4294967295 }
{
    u32::try_from(places).unwrap_or(u32::MAX)
}

/// Writes a message, which the kernel gives only where there is room, and its length.
pub fn put_bytes(bytes: &[u8], buffer: &mut [u8], count: &mut usize) -> i32
    ensures code { result ≡ signed (if nat_lt (length buffer.old) (length bytes.now) then no_answer else 0) }
    ensures bytes { buffer.new ≡ (if nat_lt (length buffer.old) (length bytes.now) then buffer.old else bytes.now ++ drop (length bytes.now) buffer.old) }
    ensures length { count.new ≡ length bytes.now }
{
    *count = bytes.len();
    if bytes.len() > buffer.len() {
        return NO_ANSWER;
    }
    buffer[..bytes.len()].copy_from_slice(bytes);
    SUCCESS
}

/// Writes the text and a zero byte where there is room for both, and returns the text's length. Linear in the text.
pub fn put_text(text: &str, room: &mut [u8]) -> usize
    ensures { Puts text.now room.old result room.new }
{
    let bytes = text.as_bytes();
    if bytes.len() < room.len() {
        room[..bytes.len()].copy_from_slice(bytes);
        room[bytes.len()] = 0;
    }
    bytes.len()
}
