//! The words of a line, read one after another.
ghost use Rattle.std.specs.Prelude.{◌≡◌, ℕ, ℤ, Bool, List, [], ◌∷◌, ◌++◌, Ok, Some, IfOk, IfSome, IsSome, IfNone, OnErr, IsOk, ◌↔◌, decimal, ◌<◌, ◌^◌, All, IsTrue, IsAscii};
ghost use Rattle.std.specs.Fmt.{signed_decimal};
ghost use Rattle.std.specs.Option.{option_copied};
ghost use Rattle.tracer_base.specs.Numbers.{FitsDelta};
ghost use Rattle.tracer_base.specs.Words.{words, words_left, Lacks, IsRead};
ghost use Rattle.tracer_base.specs.Text.{flag_text, bytes_text, code_text, waited_words, FitsWaited};
ghost use Rattle.tracer_base.specs.Replies.{typed_name_text, FitsTypedName};
ghost use Rattle.mach_types.specs.declared.calls.Waited.{Waited as AnyWaited};

use crate::fault::TextFault;
use crate::hexadecimal::{parse_bytes, parse_code};
use crate::numbers::{parse_i32, parse_u8, parse_u32, parse_u64};
use mach_types::{Bytes, Name, PortId, SetId, TaskId, Waited};
use memchr::memchr;
use std::alloc::Global;
use std::marker::Model;

/// What stands before the first place of the byte, and behind it; `None` where the byte is not there.
#[inline(always)]
pub fn split_once(text: &[u8], byte: u8) -> Option<(&[u8], &[u8])>
    ensures some { IfSome result (λ parts. parts.0.now ++ byte ∷ parts.1.now ≡ text.now) }
    ensures first { IfSome result (λ parts. Lacks byte parts.0.now) }
    ensures none { IfNone result (Lacks byte text.now) }
{
    let end = memchr(byte, text)?;
    Some((&text[..end], &text[end + 1..]))
}

/// The number of one digit or two that is the first word, and what stands behind its space.
#[inline(always)]
fn split_small(text: &[u8]) -> Option<(u32, &[u8])>
    ensures { IfSome result (λ read. (read.0 < 100) × (decimal read.0 ∷ words read.1.now ≡ words text.now)) }
{
    match text {
        [digit @ b'0'..=b'9', b' ', rest @ ..] => Some((u32::from(*digit - b'0'), rest)),
        [tens @ b'1'..=b'9', ones @ b'0'..=b'9', b' ', rest @ ..] => {
            Some((u32::from(*tens - b'0') * 10 + u32::from(*ones - b'0'), rest))
        }
        _ => None,
    }
}

/// The words that are left of a line. They are parted by single spaces, so one may be empty.
#[derive(Drop)]
pub struct Words<'a> {
    rest: Option<&'a [u8]>,
}

impl<'a> Model for Words<'a> {
    ghost Value = { List (List ℕ) };

    ghost view = { λ fields. words_left (option_copied fields.rest) };
}

impl<'a> Words<'a> {
    /// The words of the line.
    pub fn of(line: &'a [u8]) -> Words<'a>
        ensures { result ≡ words line.now }
    {
        Words { rest: Some(line) }
    }

    /// The next word. `Bad` comes where none is left.
    #[inline(always)]
    pub fn word(&mut self) -> Result<&'a [u8], TextFault>
        ensures ok { IfOk result (λ word. word.now ∷ self.new ≡ self.old) }
        ensures err { OnErr result (self.old ≡ []) }
    {
        let Some(line) = self.rest else {
            return Err(TextFault::Bad);
        };
        let Some((word, rest)) = split_once(line, b' ') else {
            self.rest = None;
            return Ok(line);
        };
        self.rest = Some(rest);
        Ok(word)
    }

    /// The next word as the keyword of a call or a reply.
    pub fn keyword(&mut self) -> Result<&'a str, TextFault>
        ensures ok { IfOk result (λ word. word.now ∷ self.new ≡ self.old) }
        ensures read { (word : List ℕ) (behind : List (List ℕ)) → IsAscii word → word ∷ behind ≡ self.old → IsRead result self.new behind }
    {
        match str::from_utf8(self.word()?) {
            Ok(word) => Ok(word),
            Err(_) => Err(TextFault::Bad),
        }
    }

    /// Returns whether no word is left.
    pub fn is_empty(&self) -> bool
        ensures { IsTrue result ↔ (self.now ≡ []) }
    {
        self.rest.is_none()
    }

    /// That no word is left. `Bad` comes where one is.
    #[inline(always)]
    pub fn end(self) -> Result<(), TextFault>
        ensures { IsOk result ↔ (self.entry ≡ []) }
    {
        if self.is_empty() {
            Ok(())
        } else {
            Err(TextFault::Bad)
        }
    }

    /// The next word as a decimal number of 32 bits.
    #[inline(always)]
    pub fn number(&mut self) -> Result<u32, TextFault>
        ensures ok { IfOk result (λ number. decimal number ∷ self.new ≡ self.old) }
        ensures fits { IfOk result (λ number. number < 2 ^ 32) }
        ensures read { (number : ℕ) (behind : List (List ℕ)) → number < 2 ^ 32 → decimal number ∷ behind ≡ self.old
            → IsRead result self.new behind }
    {
        let Some(line) = self.rest else {
            return Err(TextFault::Bad);
        };
        if let Some((number, rest)) = split_small(line) {
            self.rest = Some(rest);
            return Ok(number);
        }
        parse_u32(self.word()?).ok_or(TextFault::Bad)
    }

    /// The next word as a decimal number of 8 bits.
    pub fn small_number(&mut self) -> Result<u8, TextFault>
        ensures ok { IfOk result (λ number. decimal number ∷ self.new ≡ self.old) }
        ensures fits { IfOk result (λ number. number < 2 ^ 8) }
        ensures read { (number : ℕ) (behind : List (List ℕ)) → number < 2 ^ 8 → decimal number ∷ behind ≡ self.old
            → IsRead result self.new behind }
    {
        parse_u8(self.word()?).ok_or(TextFault::Bad)
    }

    /// The next word as a number of 32 bits with a sign: `-` before a number below 0, and no other.
    pub fn delta(&mut self) -> Result<i32, TextFault>
        ensures ok { IfOk result (λ delta. signed_decimal delta ∷ self.new ≡ self.old) }
        ensures fits { IfOk result FitsDelta }
        ensures read { (delta : ℤ) (behind : List (List ℕ)) → FitsDelta delta → signed_decimal delta ∷ behind ≡ self.old
            → IsRead result self.new behind }
    {
        parse_i32(self.word()?).ok_or(TextFault::Bad)
    }

    /// The next word as the number of a task.
    #[inline(always)]
    pub fn task(&mut self) -> Result<TaskId, TextFault>
        ensures ok { IfOk result (λ task. decimal task ∷ self.new ≡ self.old) }
        ensures fits { IfOk result (λ task. task < 2 ^ 32) }
        ensures read { (task : ℕ) (behind : List (List ℕ)) → task < 2 ^ 32 → decimal task ∷ behind ≡ self.old
            → IsRead result self.new behind }
    {
        Ok(TaskId::new(self.number()?))
    }

    /// The next word as a name.
    #[inline(always)]
    pub fn name(&mut self) -> Result<Name, TextFault>
        ensures ok { IfOk result (λ name. decimal name ∷ self.new ≡ self.old) }
        ensures fits { IfOk result (λ name. name < 2 ^ 32) }
        ensures read { (name : ℕ) (behind : List (List ℕ)) → name < 2 ^ 32 → decimal name ∷ behind ≡ self.old
            → IsRead result self.new behind }
    {
        Ok(Name::new(self.number()?))
    }

    /// The next two words as a task and a name of the task's.
    #[inline(always)]
    pub fn task_and_name(&mut self) -> Result<(TaskId, Name), TextFault>
        ensures ok { IfOk result (λ read. decimal read.0 ∷ decimal read.1 ∷ self.new ≡ self.old) }
        ensures fits { IfOk result (λ read. (read.0 < 2 ^ 32) × (read.1 < 2 ^ 32)) }
        ensures read { (task name : ℕ) (behind : List (List ℕ)) → task < 2 ^ 32 → name < 2 ^ 32
            → decimal task ∷ decimal name ∷ behind ≡ self.old → IsRead result self.new behind }
    {
        Ok((self.task()?, self.name()?))
    }

    /// The next three words as a task, a name of the task's, and a number.
    #[inline(always)]
    pub fn task_name_and_number(&mut self) -> Result<(TaskId, Name, u32), TextFault>
        ensures ok { IfOk result (λ read. decimal read.0 ∷ decimal read.1 ∷ decimal read.2 ∷ self.new ≡ self.old) }
        ensures fits { IfOk result (λ read. (read.0 < 2 ^ 32) × (read.1 < 2 ^ 32) × (read.2 < 2 ^ 32)) }
        ensures read { (task name number : ℕ) (behind : List (List ℕ)) → task < 2 ^ 32 → name < 2 ^ 32 → number < 2 ^ 32
            → decimal task ∷ decimal name ∷ decimal number ∷ behind ≡ self.old → IsRead result self.new behind }
    {
        let (task, name) = self.task_and_name()?;
        Ok((task, name, self.number()?))
    }

    /// The next word as a decimal number of 64 bits.
    pub fn identity(&mut self) -> Result<u64, TextFault>
        ensures ok { IfOk result (λ number. decimal number ∷ self.new ≡ self.old) }
        ensures fits { IfOk result (λ number. number < 2 ^ 64) }
        ensures read { (number : ℕ) (behind : List (List ℕ)) → number < 2 ^ 64 → decimal number ∷ behind ≡ self.old
            → IsRead result self.new behind }
    {
        parse_u64(self.word()?).ok_or(TextFault::Bad)
    }

    /// The next two words as what a receive waited for: `p` and a port's identity, or `s` and a set's.
    pub fn waited(&mut self) -> Result<Waited, TextFault>
        ensures ok { IfOk result (λ waited. waited_words waited ++ self.new ≡ self.old) }
        ensures fits { IfOk result FitsWaited }
        ensures read { (waited : AnyWaited) (behind : List (List ℕ)) → FitsWaited waited → waited_words waited ++ behind ≡ self.old
            → IsRead result self.new behind }
    {
        match self.word()? {
            b"p" => Ok(Waited::Port(PortId::new(self.identity()?))),
            b"s" => Ok(Waited::Set(SetId::new(self.identity()?))),
            _ => Err(TextFault::Bad),
        }
    }

    /// The next word as a yes, `1`, or a no, `0`.
    #[inline(always)]
    pub fn flag(&mut self) -> Result<bool, TextFault>
        ensures ok { IfOk result (λ flag. flag_text flag ∷ self.new ≡ self.old) }
        ensures read { (flag : Bool) (behind : List (List ℕ)) → flag_text flag ∷ behind ≡ self.old
            → IsRead result self.new behind }
    {
        match self.word()? {
            b"0" => Ok(false),
            b"1" => Ok(true),
            _ => Err(TextFault::Bad),
        }
    }

    /// The next word as a code or a type, eight hexadecimal digits.
    pub fn code(&mut self) -> Result<u32, TextFault>
        ensures ok { IfOk result (λ code. code_text code ∷ self.new ≡ self.old) }
        ensures fits { IfOk result (λ code. code < 2 ^ 32) }
        ensures read { (code : ℕ) (behind : List (List ℕ)) → code < 2 ^ 32 → code_text code ∷ behind ≡ self.old
            → IsRead result self.new behind }
    {
        parse_code(self.word()?).ok_or(TextFault::Bad)
    }

    /// The next word as a name, a colon and the name's type.
    pub fn typed_name(&mut self) -> Result<(Name, u32), TextFault>
        ensures ok { IfOk result (λ entry. typed_name_text entry ∷ self.new ≡ self.old) }
        ensures fits { IfOk result FitsTypedName }
        ensures read { (entry : ℕ × ℕ) (behind : List (List ℕ)) → FitsTypedName entry → typed_name_text entry ∷ behind ≡ self.old
            → IsRead result self.new behind }
    {
        parse_typed_name(self.word()?).ok_or(TextFault::Bad)
    }

    /// The next word as bytes in hexadecimal, `-` for none.
    pub fn bytes(&mut self, alloc: Global) -> Result<Bytes, TextFault>
        ensures ok { IfOk result (λ bytes. bytes_text bytes ∷ self.new ≡ self.old) }
        ensures fits { IfOk result (λ bytes. All (λ byte. byte < 256) bytes) }
        ensures read { (bytes : List ℕ) (behind : List (List ℕ)) → All (λ byte. byte < 256) bytes → bytes_text bytes ∷ behind ≡ self.old
            → IsRead result self.new behind }
    {
        parse_bytes(alloc, self.word()?)
    }
}

/// The name and its type that the text spells, with a colon between them.
fn parse_typed_name(text: &[u8]) -> Option<(Name, u32)>
    ensures spelled { IfSome result (λ entry. typed_name_text entry ≡ text.now) }
    ensures fits { IfSome result FitsTypedName }
    ensures each { (entry : ℕ × ℕ) → FitsTypedName entry → typed_name_text entry ≡ text.now → IsSome result }
{
    let (name, bits) = split_once(text, b':')?;
    Some((Name::new(parse_u32(name)?), parse_code(bits)?))
}
