//! Reads what a call is to answer.
use crate::reader::Reader;
use crate::syntax::{
    Answer, Call, FieldIs, NameCall, Notice, ReceivedMessage, ReceivedRight, SaidName, SaidNumber,
    Told,
};
use mach_say_words::{
    Cause, Fault, Field, Kind, NoticeWord, Vocabulary, Word, find_code, find_field, find_kind,
    find_notice, find_type,
};
use mach_types::Reply;
use text_reader::read_reply;
use tracer_base::TextFault;

/// Reads what the call is to answer.
pub(crate) fn read_answer<'a>(reader: &mut Reader<'a>, call: &Call<'a>) -> Answer<'a> {
    match take_code(reader) {
        Some(0) => Answer::Success,
        Some(code) => Answer::Code(code),
        None => answer_to(reader, call),
    }
}

/// Reads what the call is to answer, which is no code.
fn answer_to<'a>(reader: &mut Reader<'a>, call: &Call<'a>) -> Answer<'a> {
    match call {
        Call::Raw(_) => reply(reader),
        Call::Receive(_, _) => received(reader),
        Call::Named(_, call) => of_name(reader, *call),
        Call::Names => Answer::Names(names(reader)),
        Call::Notify(_) | Call::Forget(_) => previous(reader),
        _ => no_answer(reader),
    }
}

/// Reads what a call with one name is to answer.
fn of_name<'a>(reader: &mut Reader<'a>, call: NameCall) -> Answer<'a> {
    match call {
        NameCall::GetRefs(_) => Answer::Refs(reader.number()),
        NameCall::NameType => Answer::Type(name_type(reader)),
        NameCall::ReceiveStatus => Answer::Fields(fields(reader)),
        NameCall::Members => Answer::Members(members(reader)),
        _ => no_answer(reader),
    }
}

/// Notes that the call answers a code alone.
fn no_answer<'a>(reader: &mut Reader<'a>) -> Answer<'a> {
    let word = reader.word("a code");
    reader.fail(Fault::At(word.column, Cause::NoAnswer(word.text)));
    Answer::Success
}

/// Reads a code, if the next word is to be one.
fn take_code(reader: &mut Reader<'_>) -> Option<u32> {
    let word = reader.line.peek()?;
    if !word.text.starts_with(b"KERN_") && !word.text.starts_with(b"MACH_") {
        return None;
    }
    match find_code(word.text) {
        Some(code) => {
            let _ = reader.line.next();
            Some(code)
        }
        None => {
            reader.fail_unknown(&word, Vocabulary::Code);
            Some(0)
        }
    }
}

/// Reads a reply's own text.
fn reply<'a>(reader: &mut Reader<'a>) -> Answer<'a> {
    let text = reader.line.before_arrow();
    match read_reply(reader.alloc, text.text) {
        Ok(reply) => Answer::Reply(reply),
        Err(fault) => {
            reader.fail_text(fault, &text, Cause::NoReply(text.text));
            Answer::Success
        }
    }
}

/// Reads what a receive is to answer.
fn received<'a>(reader: &mut Reader<'a>) -> Answer<'a> {
    if reader.take("empty") {
        Answer::Empty
    } else if reader.take("waits") {
        Answer::Waits
    } else if reader.take("too-large") {
        Answer::TooLarge(reader.number())
    } else if reader.take("notice") {
        Answer::Notice(notice(reader))
    } else {
        Answer::Message(message(reader))
    }
}

/// Reads `MESSAGE [at NAME] [answer WORD] { with KIND WORD { , WORD } }`.
fn message<'a>(reader: &mut Reader<'a>) -> ReceivedMessage<'a> {
    let message = reader.new_word("a message");
    let at = at(reader);
    let answer = answer(reader);
    let with = with(reader);
    ReceivedMessage {
        message,
        at,
        answer,
        with,
    }
}

/// Reads `[at NAME]`.
fn at<'a>(reader: &mut Reader<'a>) -> Option<SaidName<'a>> {
    let is_said = reader.take("at");
    name_if(reader, is_said)
}

/// Reads `[answer WORD]`.
fn answer<'a>(reader: &mut Reader<'a>) -> Option<Word<'a>> {
    let is_said = reader.take("answer");
    word_if(reader, is_said)
}

/// Reads `{ with KIND WORD { , WORD } }`.
fn with<'a>(reader: &mut Reader<'a>) -> Vec<ReceivedRight<'a>> {
    let mut all = Vec::new(reader.alloc);
    for _ in 0..u32::MAX {
        if !reader.take("with") {
            break;
        }
        let kind = received_kind(reader);
        received_rights(reader, kind, &mut all);
    }
    all
}

/// Reads `WORD { , WORD }`.
fn received_rights<'a>(reader: &mut Reader<'a>, kind: Kind, all: &mut Vec<ReceivedRight<'a>>) {
    for _ in 0..u32::MAX {
        let word = reader.new_word("a word");
        reader.push(all, ReceivedRight { kind, word });
        if !reader.take(",") {
            break;
        }
    }
}

/// Reads the word of a kind of right.
fn received_kind(reader: &mut Reader<'_>) -> Kind {
    let word = reader.word("a kind of right");
    match find_kind(word.text) {
        Some(kind) => kind,
        None => {
            reader.fail_unknown(&word, Vocabulary::Kind);
            Kind::Send
        }
    }
}

/// Reads `NOTICE [NAME or NUMBER or WORD] [at NAME]`.
fn notice<'a>(reader: &mut Reader<'a>) -> Notice<'a> {
    let told = told(reader);
    let at = at(reader);
    Notice { told, at }
}

/// Reads `NOTICE [NAME or NUMBER or WORD]`.
fn told<'a>(reader: &mut Reader<'a>) -> Told<'a> {
    let word = notice_word(reader);
    let has_more = reader.has_more() && !reader.is_at("at");
    match word {
        NoticeWord::PortDeleted => Told::PortDeleted(name_if(reader, has_more)),
        NoticeWord::DeadName => Told::DeadName(name_if(reader, has_more)),
        NoticeWord::SendOnce => Told::SendOnce,
        NoticeWord::PortDestroyed => Told::PortDestroyed(word_if(reader, has_more)),
        NoticeWord::NoSenders => Told::NoSenders(number_if(reader, has_more)),
    }
}

/// Reads the word of a notice.
fn notice_word(reader: &mut Reader<'_>) -> NoticeWord {
    let word = reader.word("a notice");
    match find_notice(word.text) {
        Some(notice) => notice,
        None => {
            reader.fail_unknown(&word, Vocabulary::Notice);
            NoticeWord::SendOnce
        }
    }
}

/// Reads a name if there is one.
fn name_if<'a>(reader: &mut Reader<'a>, is_there: bool) -> Option<SaidName<'a>> {
    if is_there { Some(reader.name()) } else { None }
}

/// Reads a word if there is one.
fn word_if<'a>(reader: &mut Reader<'a>, is_there: bool) -> Option<Word<'a>> {
    if is_there {
        Some(reader.new_word("a word"))
    } else {
        None
    }
}

/// Reads a number if there is one.
fn number_if(reader: &mut Reader<'_>, is_there: bool) -> Option<u32> {
    if is_there {
        Some(reader.number())
    } else {
        None
    }
}

/// Reads `TYPE { + TYPE }`, and returns its bits.
fn name_type(reader: &mut Reader<'_>) -> u32 {
    let mut bits = 0;
    for _ in 0..u32::MAX {
        bits |= type_bit(reader);
        if !reader.take("+") {
            break;
        }
    }
    bits
}

/// Reads the word of a part of a type, and returns its bit.
fn type_bit(reader: &mut Reader<'_>) -> u32 {
    let word = reader.word("a type");
    match find_type(word.text) {
        Some(bit) => bit,
        None => {
            reader.fail_unknown(&word, Vocabulary::Type);
            0
        }
    }
}

/// Reads `FIELD NUMBER { FIELD NUMBER }`.
fn fields<'a>(reader: &mut Reader<'a>) -> Vec<FieldIs<'a>> {
    let mut all = Vec::new(reader.alloc);
    for _ in 0..u32::MAX {
        let field = field_is(reader);
        reader.push(&mut all, field);
        if !reader.has_more() {
            break;
        }
    }
    all
}

/// Reads `FIELD NUMBER`.
fn field_is<'a>(reader: &mut Reader<'a>) -> FieldIs<'a> {
    let word = reader.word("a field");
    let field = field_of(reader, &word);
    let value = value(reader, field);
    FieldIs {
        word,
        field,
        value,
        expected: reader.line.since(&word),
    }
}

/// Returns the field that the word names.
fn field_of<'a>(reader: &mut Reader<'a>, word: &Word<'a>) -> Field {
    match find_field(word.text) {
        Some(field) => field,
        None => {
            reader.fail_unknown(word, Vocabulary::Field);
            Field::Seqno
        }
    }
}

/// Reads the value of the field.
fn value<'a>(reader: &mut Reader<'a>, field: Field) -> SaidNumber<'a> {
    match field {
        Field::Set if reader.take("none") => SaidNumber::Number(0),
        Field::Set => SaidNumber::Name(reader.name()),
        _ => SaidNumber::Number(reader.number()),
    }
}

/// Reads `none` or names.
fn members<'a>(reader: &mut Reader<'a>) -> Vec<SaidName<'a>> {
    let mut all = Vec::new(reader.alloc);
    if !reader.take("none") {
        add_members(reader, &mut all);
    }
    all
}

/// Reads names.
fn add_members<'a>(reader: &mut Reader<'a>, all: &mut Vec<SaidName<'a>>) {
    for _ in 0..u32::MAX {
        let name = reader.name();
        reader.push(all, name);
        if !reader.has_more() {
            break;
        }
    }
}

/// Reads `none` or how many names there are.
fn names(reader: &mut Reader<'_>) -> u32 {
    if reader.take("none") {
        0
    } else {
        reader.number()
    }
}

/// Reads `previous WORD` or `previous none`.
fn previous<'a>(reader: &mut Reader<'a>) -> Answer<'a> {
    reader.expect("previous");
    if reader.take("none") {
        Answer::NoPrevious
    } else {
        Answer::Previous(reader.new_word("a word"))
    }
}
