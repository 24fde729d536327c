//! Reads calls.
use crate::reader::Reader;
use crate::syntax::{
    Buffer, Call, CountOf, Forget, Give, Make, NameCall, NamedRight, Notify, Receiver, SaidName,
    Send, SentRights, Under,
};
use mach_say_words::{CallWord, Cause, Vocabulary, Word, find_call};
use mach_types::Right;
use text_reader::read_call as read_script_call;

/// For how many bytes there is room where nothing is said.
const ROOM: u32 = 256;

/// Reads the rest of a call with this first word.
pub(crate) fn read_call<'a>(reader: &mut Reader<'a>, word: &Word<'a>) -> Call<'a> {
    match find_call(word.text) {
        Some(call) => call_of(reader, call),
        None => {
            reader.fail_unknown(word, Vocabulary::Call);
            Call::Names
        }
    }
}

/// Reads the rest of a call with this first word.
fn call_of<'a>(reader: &mut Reader<'a>, word: CallWord) -> Call<'a> {
    match word {
        CallWord::Port => make(reader, Right::Receive),
        CallWord::Set => make(reader, Right::PortSet),
        CallWord::Dead => make(reader, Right::DeadName),
        CallWord::Give => give(reader),
        CallWord::Send => send(reader),
        CallWord::Receive => receive(reader),
        CallWord::Wake => wake(reader),
        CallWord::Move => move_call(reader),
        CallWord::Add => add(reader),
        CallWord::Remove => remove(reader),
        CallWord::Notify => notify(reader),
        CallWord::Forget => forget(reader),
        CallWord::Raw => raw(reader),
        CallWord::Names => Call::Names,
        CallWord::End => Call::End,
        _ => name_call(reader, word),
    }
}

/// Reads a call that has one name.
fn name_call<'a>(reader: &mut Reader<'a>, word: CallWord) -> Call<'a> {
    let name = reader.name();
    let call = rest_of_name_call(reader, word);
    Call::Named(name, call)
}

/// Reads what stands behind the name of a call that has one name.
fn rest_of_name_call(reader: &mut Reader<'_>, word: CallWord) -> NameCall {
    match word {
        CallWord::Members => NameCall::Members,
        CallWord::Drop => NameCall::Deallocate,
        CallWord::Destroy => NameCall::Destroy,
        CallWord::Type => NameCall::NameType,
        CallWord::Refs => NameCall::GetRefs(reader.right()),
        CallWord::Change => change(reader),
        CallWord::Limit => NameCall::SetCount(CountOf::Limit, reader.number()),
        CallWord::Count => NameCall::SetCount(CountOf::MakeSend, reader.number()),
        CallWord::Seqno => NameCall::SetCount(CountOf::Seqno, reader.number()),
        CallWord::Rename => rename(reader),
        _ => NameCall::ReceiveStatus,
    }
}

/// Reads `RIGHT by DELTA`.
fn change(reader: &mut Reader<'_>) -> NameCall {
    let right = reader.right();
    reader.expect("by");
    NameCall::ModRefs(right, reader.delta())
}

/// Reads `to NUMBER`.
fn rename(reader: &mut Reader<'_>) -> NameCall {
    reader.expect("to");
    NameCall::Rename(reader.number())
}

/// Reads `WORD [as NUMBER]`.
fn make<'a>(reader: &mut Reader<'a>, right: Right) -> Call<'a> {
    let word = reader.new_word("a word");
    let chosen = chosen(reader);
    Call::Make(Make {
        right,
        word,
        chosen,
    })
}

/// Reads `[as NUMBER]`.
fn chosen(reader: &mut Reader<'_>) -> Option<u32> {
    if reader.take("as") {
        Some(reader.number())
    } else {
        None
    }
}

/// Reads `DISP NAME to TASK [as WORD or NUMBER]`.
fn give<'a>(reader: &mut Reader<'a>) -> Call<'a> {
    let right = reader.named_right();
    reader.expect("to");
    let to = reader.word("a task");
    let under = under(reader);
    Call::Give(Give { right, to, under })
}

/// Reads `[as WORD or NUMBER]`.
fn under<'a>(reader: &mut Reader<'a>) -> Under<'a> {
    if !reader.take("as") {
        return Under::Same;
    }
    match reader.line.peek() {
        Some(word) if is_digit(word.text) => Under::Number(reader.number()),
        _ => Under::Word(reader.new_word("a word or a number")),
    }
}

/// Whether the text begins with a digit.
fn is_digit(text: &[u8]) -> bool {
    match text {
        [first, ..] => first.is_ascii_digit(),
        [] => false,
    }
}

/// Reads `MESSAGE by DISP NAME [answer DISP NAME] { with DISP NAME { , NAME } }`.
fn send<'a>(reader: &mut Reader<'a>) -> Call<'a> {
    let message = reader.word("a message");
    reader.expect("by");
    let destination = reader.named_right();
    let answer = answer(reader);
    let with = with(reader);
    Call::Send(Send {
        message,
        destination,
        answer,
        with,
    })
}

/// Reads `[answer DISP NAME]`.
fn answer<'a>(reader: &mut Reader<'a>) -> Option<NamedRight<'a>> {
    if reader.take("answer") {
        Some(reader.named_right())
    } else {
        None
    }
}

/// Reads `{ with DISP NAME { , NAME } }`.
fn with<'a>(reader: &mut Reader<'a>) -> Vec<SentRights<'a>> {
    let mut all = Vec::new(reader.alloc);
    for _ in 0..u32::MAX {
        if !reader.take("with") {
            break;
        }
        let rights = sent_rights(reader);
        reader.push(&mut all, rights);
    }
    all
}

/// Reads `DISP NAME { , NAME }`.
fn sent_rights<'a>(reader: &mut Reader<'a>) -> SentRights<'a> {
    let first = reader.named_right();
    let names = names(reader, first.name);
    SentRights {
        disposition: first.disposition,
        names,
    }
}

/// Reads `{ , NAME }`, and returns the names with the first.
fn names<'a>(reader: &mut Reader<'a>, first: SaidName<'a>) -> Vec<SaidName<'a>> {
    let mut names = Vec::new(reader.alloc);
    reader.push(&mut names, first);
    for _ in 0..u32::MAX {
        if !reader.take(",") {
            break;
        }
        let name = reader.name();
        reader.push(&mut names, name);
    }
    names
}

/// Reads `on NAME [room NUMBER] [keep]`.
fn receive<'a>(reader: &mut Reader<'a>) -> Call<'a> {
    reader.expect("on");
    let name = reader.name();
    let buffer = buffer(reader);
    Call::Receive(Receiver::Name(name), buffer)
}

/// Reads `[room NUMBER] [keep]` of `wake`.
fn wake<'a>(reader: &mut Reader<'a>) -> Call<'a> {
    let buffer = buffer(reader);
    Call::Receive(Receiver::Waited, buffer)
}

/// Reads `[room NUMBER] [keep]`.
fn buffer(reader: &mut Reader<'_>) -> Buffer {
    let room = room(reader);
    let keep = reader.take("keep");
    Buffer { room, keep }
}

/// Reads `[room NUMBER]`.
fn room(reader: &mut Reader<'_>) -> u32 {
    if reader.take("room") {
        reader.number()
    } else {
        ROOM
    }
}

/// Reads `NAME into NAME` or `NAME out`.
fn move_call<'a>(reader: &mut Reader<'a>) -> Call<'a> {
    let member = reader.name();
    let set = new_set(reader);
    Call::Move(member, set)
}

/// Reads `into NAME` or `out`.
fn new_set<'a>(reader: &mut Reader<'a>) -> Option<SaidName<'a>> {
    if reader.take("out") {
        return None;
    }
    reader.expect("into");
    Some(reader.name())
}

/// Reads `NAME to NAME`.
fn add<'a>(reader: &mut Reader<'a>) -> Call<'a> {
    let member = reader.name();
    reader.expect("to");
    let set = reader.name();
    Call::Add(member, set)
}

/// Reads `NAME from NAME`.
fn remove<'a>(reader: &mut Reader<'a>) -> Call<'a> {
    let member = reader.name();
    reader.expect("from");
    let set = reader.name();
    Call::Remove(member, set)
}

/// Reads `VARIANT of NAME by DISP NAME [sync NUMBER]`.
fn notify<'a>(reader: &mut Reader<'a>) -> Call<'a> {
    let variant = reader.variant();
    reader.expect("of");
    let of = reader.name();
    reader.expect("by");
    let by = reader.named_right();
    let sync = sync(reader);
    Call::Notify(Notify {
        variant,
        of,
        by,
        sync,
    })
}

/// Reads `[sync NUMBER]`.
fn sync(reader: &mut Reader<'_>) -> u32 {
    if reader.take("sync") {
        reader.number()
    } else {
        0
    }
}

/// Reads `VARIANT of NAME`.
fn forget<'a>(reader: &mut Reader<'a>) -> Call<'a> {
    let variant = reader.variant();
    reader.expect("of");
    let of = reader.name();
    Call::Forget(Forget { variant, of })
}

/// Reads a line of a script.
fn raw<'a>(reader: &mut Reader<'a>) -> Call<'a> {
    let text = reader.line.before_arrow();
    match read_script_call(reader.alloc, text.text) {
        Ok(event) => Call::Raw(event),
        Err(fault) => {
            reader.fail_text(fault, &text, Cause::NoCall(text.text));
            Call::Names
        }
    }
}
