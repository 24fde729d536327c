//! Files read line by line; scripts so, that their text takes no memory.
ghost use Rattle.std.specs.Prelude.{◌≡◌, ◌<◌, ℕ, true, false, Ok, IfOk, IfSome, OnOk, Err, flat_map, length};
ghost use Rattle.std.specs.Io.BufRead.{take_through};
ghost use Rattle.std.specs.Io.KnownBytes.{Consumes, IsAtEnd, Keeps};
ghost use Rattle.mach_run_base.specs.declared.fault.Fault.TheVariants.{BadCall};
ghost use Rattle.mach_run_base.specs.Scripts.{IsScript, IsFirstBadLine, said_script};
ghost use Rattle.tracer_base.specs.Blocks.{said_line};

use crate::fault::Fault;
use crate::script::Script;
use std::alloc::Global;
use std::io;
use std::io::{BufRead, BufReader, ErrorKind, Read};
use tracer_base::{TextFault, split_once};

/// How many bytes of a script or a history are read at once.
pub(crate) const READ_AT_ONCE: usize = 131_072;

/// The script that the file, which has this name, holds from here on.
///
/// `BadCall` comes for the first bad line; what stands behind that line is read too, since
/// a fault of the file is told before it. Memory grows with the calls and the longest line.
pub fn read_script<'a, R: Read>(
    alloc: Global,
    name: &'a str,
    file: &mut R,
) -> Result<Script, Fault<'a>>
    ensures ok { IfOk result (λ script. IsScript (said_script script)
        × IfSome (R.remaining file.old) (λ text. flat_map said_line (said_script script) ≡ text)) }
    ensures line { (n : ℕ) → result ≡ Err (BadCall n) → IfSome (R.remaining file.old) (λ text. IsFirstBadLine text n) }
{
    match BufReader::with_capacity(alloc, READ_AT_ONCE, file) {
        Ok(mut reader) => read_lines(alloc, name, &mut reader),
        Err(_) => Err(Fault::OutOfMemory),
    }
}

/// The script of the lines that are left. Faults are as for [`read_script`].
fn read_lines<'a, B: BufRead>(
    alloc: Global,
    name: &'a str,
    reader: &mut B,
) -> Result<Script, Fault<'a>>
    ensures ok { IfOk result (λ script. IsScript (said_script script)
        × IfSome (B.remaining reader.old) (λ text. flat_map said_line (said_script script) ≡ text)) }
    ensures line { (n : ℕ) → result ≡ Err (BadCall n) → IfSome (B.remaining reader.old) (λ text. IsFirstBadLine text n) }
{
    let mut script = Script::new(alloc);
    let mut line = Vec::new(alloc);
    for number in 1..u64::MAX {
        if next_line(name, reader, &mut line)? == 0 {
            return Ok(script);
        }
        match script.read_line(alloc, line.as_slice()) {
            Ok(()) => {}
            Err(TextFault::Bad) => return Err(bad_line(name, number, reader)),
            Err(TextFault::OutOfMemory) => return Err(Fault::OutOfMemory),
        }
    }
    Err(Fault::CannotRead(name))
}

/// Reads the next line into `line`, with its line feed, and returns its length: 0 at the end.
#[inline(always)]
pub(crate) fn next_line<'a, B: BufRead>(
    name: &'a str,
    reader: &mut B,
    line: &mut Vec<u8>,
) -> Result<usize, Fault<'a>>
    ensures length { IfOk result (λ n. n ≡ length line.new.items) }
    ensures taken { OnOk result (IfSome (B.remaining reader.old) (λ left. line.new.items ≡ take_through 10 left)) }
    ensures left { OnOk result (Consumes (B.remaining reader.old) (B.remaining reader.new) line.new.items) }
    ensures end { IfOk result (λ n. n ≡ 0 → IsAtEnd (B.remaining reader.old)) }
    ensures err { (n : ℕ) → result ≡ Err (BadCall n) → ⊥ }
{
    match take_line(reader, line) {
        Ok(true) => Ok(line.len()),
        Ok(false) => read_line(name, reader, line),
        Err(error) => Err(fault_of(name, error)),
    }
}

/// Moves the next line into `line`, with its line feed, where the reader has it whole at hand; returns
/// whether it has.
///
/// An interrupted read has nothing at hand.
#[inline(always)]
fn take_line<B: BufRead>(reader: &mut B, line: &mut Vec<u8>) -> io::Result<bool>
    ensures some { result ≡ Ok true → 0 < length line.new.items }
    ensures taken { result ≡ Ok true → IfSome (B.remaining reader.old) (λ left. line.new.items ≡ take_through 10 left) }
    ensures left { result ≡ Ok true → Consumes (B.remaining reader.old) (B.remaining reader.new) line.new.items }
    ensures kept { result ≡ Ok false → Keeps (B.remaining reader.old) (B.remaining reader.new) }
{
    line.clear();
    let available = match reader.fill_buf() {
        Ok(available) => available,
        Err(error) => return unless_interrupted(error),
    };
    let Some((text, _)) = split_once(available, b'\n') else {
        return Ok(false);
    };
    let length = text.len() + 1;
    line.extend_from_slice(text)?;
    line.push(b'\n')?;
    reader.consume(length);
    Ok(true)
}

/// That no line is at hand, where the error is that of an interrupted read; else the error.
fn unless_interrupted(error: io::Error) -> io::Result<bool>
    ensures { result ≡ Ok true → ⊥ }
{
    match error.kind() {
        ErrorKind::Interrupted => Ok(false),
        _ => Err(error),
    }
}

/// Reads the next line as [`next_line`] does, with more reads where it takes them.
#[inline(never)]
fn read_line<'a, B: BufRead>(
    name: &'a str,
    reader: &mut B,
    line: &mut Vec<u8>,
) -> Result<usize, Fault<'a>>
    ensures length { IfOk result (λ n. n ≡ length line.new.items) }
    ensures taken { OnOk result (IfSome (B.remaining reader.old) (λ left. line.new.items ≡ take_through 10 left)) }
    ensures left { OnOk result (Consumes (B.remaining reader.old) (B.remaining reader.new) line.new.items) }
    ensures end { IfOk result (λ n. n ≡ 0 → IsAtEnd (B.remaining reader.old)) }
    ensures err { (n : ℕ) → result ≡ Err (BadCall n) → ⊥ }
{
    line.clear();
    match reader.read_until(b'\n', line) {
        Ok(count) => Ok(count),
        Err(error) => Err(fault_of(name, error)),
    }
}

/// That the line of this number is no call, unless what stands behind it can't be read.
fn bad_line<'a, B: BufRead>(name: &'a str, number: u64, reader: &mut B) -> Fault<'a>
    ensures { (n : ℕ) → result ≡ BadCall n → n ≡ number }
{
    match skip_rest(name, reader) {
        Ok(()) => Fault::BadCall(number),
        Err(fault) => fault,
    }
}

/// Reads what is left, for the faults of the file alone.
pub(crate) fn skip_rest<'a, B: BufRead>(name: &'a str, reader: &mut B) -> Result<(), Fault<'a>>
    ensures { (n : ℕ) → result ≡ Err (BadCall n) → ⊥ }
{
    for _ in 0..u64::MAX {
        match reader.skip_until(b'\n') {
            Ok(0) => return Ok(()),
            Ok(_) => {}
            Err(error) => return Err(fault_of(name, error)),
        }
    }
    Err(Fault::CannotRead(name))
}

/// What a fault of the file of this name is told as.
fn fault_of<'a>(name: &'a str, error: io::Error) -> Fault<'a>
    ensures { (n : ℕ) → result ≡ BadCall n → ⊥ }
{
    match error.kind() {
        ErrorKind::OutOfMemory => Fault::OutOfMemory,
        _ => Fault::CannotRead(name),
    }
}
