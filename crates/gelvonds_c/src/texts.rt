//! Names of codes, and the version, as text for C.
//!
//! An exported function returns no pointer. So each of these writes its text into an array of the caller's.
ghost use Rattle.std.specs.Prelude.{◌<◌, ℕ, List};
ghost use Rattle.std.specs.Int.{w32, cast_unsigned};
ghost use Rattle.gelvonds_c_base.specs.Codes.{IsCalled};
ghost use Rattle.gelvonds_c_base.specs.Texts.{Puts};

use gelvonds_c_base::codes::name_of;
use gelvonds_c_base::put_text;

/// The version of the library, that of the file `VERSION`.
const VERSION: &str = "1.0.0";

/// Writes the C name of a code, with a zero byte behind it, and returns its length.
///
/// The name is at most 39 bytes long. Nothing is written where the room is shorter than the name and its zero
/// byte. A number that is no code has the empty name, so 0 is returned. Takes no memory.
#[unsafe(no_mangle)]
pub extern "C" fn gelvonds_code_name(code: i32, name: &mut [u8]) -> usize
    ensures called { (text : List ℕ) × IsCalled (cast_unsigned w32 code) text × Puts text name.old result name.new }
    ensures short { result < 40 }
{
    put_text(name_of(code.cast_unsigned()), name)
}

/// Writes the library's version, as `1.0.0`, with a zero byte behind it, and returns its length.
///
/// Nothing is written where the room is shorter than both. Takes no memory.
#[unsafe(no_mangle)]
pub extern "C" fn gelvonds_version(version: &mut [u8]) -> usize
    ensures put { Puts VERSION.now version.old result version.new }
    ensures short { result < 40 }
{
    put_text(VERSION, version)
}
