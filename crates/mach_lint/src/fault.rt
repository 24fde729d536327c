//! The faults of a line.

/// Why a line is bad. Columns and words count from 1.
#[derive(Clone, Copy)]
pub enum Fault<'a> {
    /// The line is empty.
    Empty,
    /// A carriage return stands at this column.
    CarriageReturn(usize),
    /// A tab stands at this column.
    Tab(usize),
    /// The line is a comment.
    Comment,
    /// A space stands before the first word.
    SpaceBefore,
    /// A space stands after the last word.
    SpaceBehind,
    /// Two spaces stand at this column.
    TwoSpaces(usize),
    /// This column has this byte, which isn't printable ASCII.
    NoText(usize, u8),
    /// The line has no line feed.
    NoLineFeed,
    /// The word of this number is no call; the last field is a call that differs little from it.
    NoCall(usize, &'a [u8], Option<&'static str>),
    /// The word of this number is no reply; the last field is a reply that differs little from it.
    NoReply(usize, &'a [u8], Option<&'static str>),
    /// The call or reply takes these arguments, and the line has so many.
    Arguments(&'a [u8], &'static str, usize),
    /// The word of this number isn't the argument that belongs there.
    Word(usize, WordFault<'a>),
    /// A block has this number, and not 1 to 64.
    ThreadNumber(u32),
    /// The block of this number began in this line already.
    ThreadTwice(u32, u64),
    /// The line isn't the heading of a history.
    Heading,
    /// No arrow stands between a call and its reply.
    NoArrow,
    /// The line has more than one arrow.
    TwoArrows,
    /// No call follows the caller.
    CallWanted,
    /// The word of this number is `norecord`: the call wasn't made.
    NoRecord(usize),
    /// The call is this word, which scripts have and histories don't.
    ScriptLine(&'a [u8]),
    /// The line is bad, and no other fault was found.
    Other,
}

/// A word that isn't the argument that belongs there.
#[derive(Clone, Copy)]
pub struct WordFault<'a> {
    /// The argument, as the usage names it.
    pub argument: &'static str,
    /// The word.
    pub word: &'a [u8],
    /// Its fault.
    pub fault: NumberFault,
}

/// Why a word isn't an argument. Digits count from 1.
#[derive(Clone, Copy)]
pub enum NumberFault {
    /// The word is the name in C of this number.
    InC(u32),
    /// The number has a minus, which only `DELTA` may have.
    Minus,
    /// The number has a plus.
    Plus,
    /// The number is hexadecimal; its value, if it fits 64 bits.
    Hexadecimal(Option<u64>),
    /// The number has a leading zero; its value, if it fits 64 bits.
    LeadingZero(Option<u64>),
    /// The word is no number.
    NoNumber,
    /// The number is greater than this.
    TooGreat(u64),
    /// The word is `-0`.
    MinusZero,
    /// The number is less than the least `DELTA`.
    TooSmall,
    /// The word is neither `0` nor `1`.
    NoFlag,
    /// The word is neither `p` nor `s`.
    NoKind,
    /// The word has so many digits, which aren't whole bytes.
    OddDigits(usize),
    /// The bytes begin with `0x`.
    Prefix,
    /// This digit, in upper case, is the word's digit of this number.
    Capital(u8, usize),
    /// This byte, which is no digit, stands at the digit of this number.
    NoDigit(u8, usize),
    /// The word isn't eight lower-case hexadecimal digits.
    NoCode,
    /// The word isn't a name, a colon and a type.
    NoTypedName,
}
