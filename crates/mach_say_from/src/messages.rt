//! Messages in the words of the notation.
use crate::kinds::{disposition_word, kind_word};
use crate::label::Label;
use crate::teller::Teller;
use crate::words::Declared;
use mach_say_words::{BodyRights, CarriedRight, TOLD_AT, has_data, right_at, write_sent};
use mach_types::{Disposition, Name, TaskId};
use mach_words::{Text, notice_word, word_at};
use message_codec::{
    PortRight, Received, ReceivedBody, ReceivedItem, ReceivedItems, ReceivedPorts, SendHeader,
    read_received,
};
use std::alloc::Global;

/// How many rights a message can have at most.
const MOST_RIGHTS: usize = 65_536;

/// The parts of a message that a storyboard can send.
#[derive(Drop)]
struct Parts {
    header: SendHeader,
    rights: Vec<BodyRights>,
    data: Vec<u8>,
}

impl Teller {
    /// Writes `send`; `None` if the notation has no such message. The statement of a new message goes to `out`.
    pub(crate) fn send(
        &mut self,
        task: TaskId,
        bytes: &[u8],
        line: &mut Text,
        out: &mut Text,
    ) -> Option<()> {
        let parts = parts_of(self.alloc, bytes)?;
        let word = self.declare(parts.header.id, parts.data.as_slice(), out)?;
        self.write_send(task, &word, &parts, line);
        Some(())
    }

    /// Returns the word of the message with this id and data. If no message has the id, writes the statement of a new one.
    /// `None` if the message with the id has other data.
    fn declare(&mut self, id: u32, data: &[u8], out: &mut Text) -> Option<Label> {
        if let Some(message) = self.table.message(id) {
            return word_if(message, data);
        }
        let mut label = Text::new(self.alloc);
        self.labels.write_id(id, &mut label);
        let label = self.table.label(&label);
        let word = self.table.free_message(&label);
        write_declared(&word, id, data, out);
        self.add_message(id, word, data);
        Some(word)
    }

    /// Adds a message with this word.
    fn add_message(&mut self, id: u32, word: Label, data: &[u8]) {
        let mut copy = Vec::new(self.alloc);
        if copy.extend_from_slice(data).is_err() {
            self.table.lack_word();
        }
        let data = copy;
        self.table.add_message(Declared { id, word, data });
    }

    /// Writes `send MESSAGE by DISP NAME answer DISP NAME with DISP NAME, NAME ..`.
    fn write_send(&self, task: TaskId, word: &Label, parts: &Parts, line: &mut Text) {
        line.words("send ");
        line.plain(word.text());
        self.right(" by ", task, &parts.header.destination, line);
        if let Some(reply) = &parts.header.reply {
            self.right(" answer ", task, reply, line);
        }
        for rights in parts.rights.as_slice() {
            self.rights(task, rights, line);
        }
    }

    /// Writes words, a disposition and a name.
    fn right(&self, words: &str, task: TaskId, right: &PortRight, line: &mut Text) {
        line.words(words);
        line.words(word_of(right.disposition));
        line.words(" ");
        self.name(task, right.name, line);
    }

    /// Writes `with DISP NAME, NAME ..`.
    fn rights(&self, task: TaskId, rights: &BodyRights, line: &mut Text) {
        line.words(" with ");
        line.words(word_of(rights.disposition));
        let mut blank = " ";
        for name in rights.names.as_slice() {
            line.words(blank);
            self.name(task, *name, line);
            blank = ", ";
        }
    }

    /// Writes the message that a task received, and gives words to its rights; `None` if the notation has no such message.
    pub(crate) fn received(&mut self, task: TaskId, bytes: &[u8], line: &mut Text) -> Option<()> {
        let Some(message) = read_received(bytes) else {
            return None;
        };
        if self.table.message(message.header.id).is_none() {
            return self.notice(task, &message, bytes, line);
        }
        let word = self.word_with(&message)?;
        self.write_received(task, &message, &word, line);
        Some(())
    }

    /// Returns the word of a message that was received; `None` if it has other data, or a right of an unknown kind.
    fn word_with(&self, message: &Received<'_>) -> Option<Label> {
        let declared = self.table.message(message.header.id)?;
        if has_data(&message.body, declared.data.as_slice()) && have_kinds(&message.body) {
            return Some(declared.word);
        }
        None
    }

    /// Writes the message with this word, and gives words to its rights.
    fn write_received(
        &mut self,
        task: TaskId,
        message: &Received<'_>,
        word: &Label,
        line: &mut Text,
    ) {
        line.plain(word.text());
        line.words(" at ");
        self.name(task, message.header.local, line);
        if message.header.remote_kind != 0 {
            line.words(" answer ");
            self.new_right(task, message.header.remote, line);
        }
        self.carried(task, &message.body, line);
    }

    /// Writes `with KIND WORD` for each right of a body.
    fn carried(&mut self, task: TaskId, body: &ReceivedBody<'_>, line: &mut Text) {
        for number in 0..MOST_RIGHTS {
            let Some(right) = right_at(body, number) else {
                return;
            };
            line.words(" with ");
            line.words(kind_word(right.kind).unwrap_or("send"));
            line.words(" ");
            self.new_right(task, right.name, line);
        }
    }

    /// Gives a word to a right that a task got, and writes the word.
    pub(crate) fn new_right(&mut self, task: TaskId, name: Name, line: &mut Text) {
        let word = self.new_word(task, name);
        line.plain(word.text());
        self.bind(task, word, name);
    }

    /// Writes a notice; `None` if the message is none.
    fn notice(
        &mut self,
        task: TaskId,
        message: &Received<'_>,
        bytes: &[u8],
        line: &mut Text,
    ) -> Option<()> {
        let notice = notice_word(message.header.id)?;
        line.words("notice ");
        line.words(notice);
        if let Some(told) = word_at(bytes, TOLD_AT) {
            self.told(task, message.header.id, told, line);
        }
        line.words(" at ");
        self.name(task, message.header.local, line);
        Some(())
    }

    /// Writes what a notice with this id tells: a name, a count or a right.
    fn told(&mut self, task: TaskId, id: u32, told: u32, line: &mut Text) {
        match id {
            65 | 72 => {
                line.words(" ");
                self.name(task, Name::new(told), line);
            }
            69 => {
                line.words(" ");
                self.new_right(task, Name::new(told), line);
            }
            70 => line.around(" ", told, ""),
            _ => {}
        }
    }
}

/// Returns the message's word, if this is its data.
fn word_if(message: &Declared, data: &[u8]) -> Option<Label> {
    if message.data.as_slice() == data {
        return Some(message.word);
    }
    None
}

/// Returns the word of a disposition.
fn word_of(disposition: Disposition) -> &'static str {
    disposition_word(u32::from(disposition.number())).unwrap_or("")
}

/// Whether all rights of the body have kinds that the notation has words for.
fn have_kinds(body: &ReceivedBody<'_>) -> bool {
    for number in 0..MOST_RIGHTS {
        match right_at(body, number) {
            Some(CarriedRight { kind, .. }) if kind_word(kind).is_none() => return false,
            Some(_) => {}
            None => return true,
        }
    }
    true
}

/// Writes the statement of a message: its word, its id, and its data in quotes.
fn write_declared(word: &Label, id: u32, data: &[u8], out: &mut Text) {
    out.words("message ");
    out.plain(word.text());
    out.around(" = id ", id, "");
    if !data.is_empty() {
        out.words(" \"");
        for byte in data {
            write_byte(*byte, out);
        }
        out.words("\"");
    }
    out.words("\n");
}

/// Writes a byte of a text in quotes.
fn write_byte(byte: u8, out: &mut Text) {
    match byte {
        b'"' => out.words("\\\""),
        b'\\' => out.words("\\\\"),
        32..=126 => out.plain(&[byte]),
        _ => {
            out.words("\\x");
            out.hexadecimal(byte);
        }
    }
}

/// Returns the parts of a message; `None` if a storyboard can't send just these bytes, or if out of memory.
fn parts_of(alloc: Global, bytes: &[u8]) -> Option<Parts> {
    let Some(message) = read_received(bytes) else {
        return None;
    };
    let parts = parts_in(alloc, &message)?;
    if are_written_so(alloc, &parts, bytes) {
        return Some(parts);
    }
    None
}

/// Returns the parts of a message that was read.
fn parts_in(alloc: Global, message: &Received<'_>) -> Option<Parts> {
    let header = header_of(message)?;
    body_of(alloc, header, &message.body)
}

/// Whether the parts are written as these bytes.
fn are_written_so(alloc: Global, parts: &Parts, bytes: &[u8]) -> bool {
    let rights = parts.rights.as_slice();
    match write_sent(alloc, &parts.header, rights, parts.data.as_slice()) {
        Ok(same) => same.as_slice() == bytes,
        Err(_) => false,
    }
}

/// Returns the parts of a message with this body.
fn body_of(alloc: Global, header: SendHeader, body: &ReceivedBody<'_>) -> Option<Parts> {
    let mut rights = Vec::new(alloc);
    let mut data = Vec::new(alloc);
    match body {
        ReceivedBody::Raw(bytes) => append(bytes, &mut data)?,
        ReceivedBody::Items(items) => add_items(alloc, *items, &mut rights, &mut data)?,
    }
    Some(Parts {
        header,
        rights,
        data,
    })
}

/// Appends the bytes; `None` if out of memory.
fn append(bytes: &[u8], data: &mut Vec<u8>) -> Option<()> {
    match data.extend_from_slice(bytes) {
        Ok(()) => Some(()),
        Err(_) => None,
    }
}

/// Returns the header of a message that is sent.
fn header_of(message: &Received<'_>) -> Option<SendHeader> {
    let destination = right_of(message.header.remote_kind, message.header.remote)?;
    let reply = match message.header.local_kind {
        0 => None,
        kind => Some(right_of(kind, message.header.local)?),
    };
    Some(SendHeader {
        destination,
        reply,
        id: message.header.id,
    })
}

/// Returns the name under the disposition of this number.
fn right_of(number: u8, name: Name) -> Option<PortRight> {
    let disposition = Disposition::from_number(u32::from(number))?;
    Some(PortRight { disposition, name })
}

/// Appends the rights and the data of items; `None` if the data isn't whole words, or if out of memory.
fn add_items(
    alloc: Global,
    items: ReceivedItems<'_>,
    rights: &mut Vec<BodyRights>,
    data: &mut Vec<u8>,
) -> Option<()> {
    for item in items {
        match item {
            ReceivedItem::Ports(ports) => add_rights(alloc, &ports, rights)?,
            ReceivedItem::Data(found) if found.bytes.len() % 4 == 0 => append(found.bytes, data)?,
            ReceivedItem::Data(_) => return None,
        }
    }
    Some(())
}

/// Appends the rights of an item; `None` if they have no disposition, or if out of memory.
fn add_rights(
    alloc: Global,
    ports: &ReceivedPorts<'_>,
    rights: &mut Vec<BodyRights>,
) -> Option<()> {
    let some = rights_of(alloc, ports)?;
    match rights.push(some) {
        Ok(()) => Some(()),
        Err(_) => None,
    }
}

/// Returns the rights of an item.
fn rights_of(alloc: Global, ports: &ReceivedPorts<'_>) -> Option<BodyRights> {
    let disposition = Disposition::from_number(u32::from(ports.kind))?;
    let mut names = Vec::new(alloc);
    for number in 0..ports.len() {
        if names.push(ports.get(number)?).is_err() {
            return None;
        }
    }
    Some(BodyRights { disposition, names })
}
