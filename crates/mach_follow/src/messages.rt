//! Messages in words.
use crate::follower::Follower;
use crate::names::Names;
use mach_types::{Name, TaskId};
use mach_words::{
    Labels, Phrase, Text, is_notice, kind_word, message_fault, notice_word, word_at, write_data,
    write_right_name,
};
use message_codec::{
    Received, ReceivedBody, ReceivedData, ReceivedItem, ReceivedPorts, read_received,
};

/// Writes the id, the destination, the reply right and the rights of a message that is sent. Bytes that are no message
/// are only counted.
pub(crate) fn describe_sent(names: &Names<'_, '_>, bytes: &[u8], out: &mut Text) {
    match sendable(bytes) {
        Some(message) => describe_going(names, &message, out),
        None => out.phrase(&Phrase::one("send ", bytes.len() as u64, " bytes")),
    }
}

/// Reads the bytes, if they are a message that can be sent.
fn sendable(bytes: &[u8]) -> Option<Received<'_>> {
    if message_fault(bytes).is_some() {
        return None;
    }
    read_received(bytes)
}

/// Writes the id, the destination, the reply right and the rights of a message.
fn describe_going(names: &Names<'_, '_>, message: &Received<'_>, out: &mut Text) {
    names.labels.write_id(message.header.id, out);
    out.words(" to ");
    names.write(message.header.remote, out);
    if message.header.local_kind != 0 {
        out.words(", answer ");
        names.write(message.header.local, out);
    }
    describe_body(names, &message.body, out);
}

/// Writes the id, the port, the reply right and the rights of a received message.
pub(crate) fn describe_received(names: &Names<'_, '_>, bytes: &[u8], out: &mut Text) {
    match read_received(bytes) {
        Some(message) => describe_come(names, &message, out),
        None => out.phrase(&Phrase::one("receives ", bytes.len() as u64, " bytes")),
    }
}

/// Writes the id, the port, the reply right and the rights of a received message.
fn describe_come(names: &Names<'_, '_>, message: &Received<'_>, out: &mut Text) {
    write_kind(names.labels, message, out);
    out.words(" from ");
    names.write(message.header.local, out);
    if message.header.remote_kind != 0 {
        out.words(", answer ");
        names.write(message.header.remote, out);
    }
    describe_body(names, &message.body, out);
    if is_told(message) {
        describe_told(names, message, out);
    }
}

/// Whether a received message has the form of a notice: it came by a send-once right and has no reply right, and its id
/// and length are a notice's.
fn is_told(message: &Received<'_>) -> bool {
    message.header.local_kind == 18
        && message.header.remote_kind == 0
        && is_notice(message.header.id)
        && (message.header.size == 24 || message.header.size == 32)
}

/// Writes the label of a received message's id, or the word of a notice.
fn write_kind(labels: &Labels, message: &Received<'_>, out: &mut Text) {
    match notice_word(message.header.id) {
        Some(word) if is_told(message) => out.words(word),
        _ => labels.write_id(message.header.id, out),
    }
}

/// Writes the number or name that a notice has, if it has one and that is no right.
fn describe_told(names: &Names<'_, '_>, message: &Received<'_>, out: &mut Text) {
    let ReceivedBody::Raw(body) = &message.body else {
        return;
    };
    let Some(word) = word_at(body, 4) else {
        return;
    };
    if message.header.id == 70 {
        out.around(": make-send count ", word, "");
    } else {
        out.words(": name ");
        names.write(Name::new(word), out);
    }
}

/// Writes the rights of a body, with `, with` before each.
fn describe_body(names: &Names<'_, '_>, body: &ReceivedBody<'_>, out: &mut Text) {
    let ReceivedBody::Items(items) = body else {
        return;
    };
    for item in *items {
        if let ReceivedItem::Ports(ports) = &item {
            describe_ports(names, ports, out);
        }
    }
}

/// Writes the rights of an item, with `, with` before each.
fn describe_ports(names: &Names<'_, '_>, ports: &ReceivedPorts<'_>, out: &mut Text) {
    for index in 0..ports.len() {
        if let Some(name) = ports.get(index) {
            out.words(", with ");
            describe_right(names, (ports.kind, name), out);
        }
    }
}

/// Writes a right of a body: its kind, and its name. `null` and `dead` have no kind.
fn describe_right(names: &Names<'_, '_>, right: (u8, Name), out: &mut Text) {
    match right.1.number() {
        0 => out.words("null"),
        0xffff_ffff => out.words("dead"),
        _ => {
            out.words(sent_word(right.0));
            out.words(" ");
            names.write(right.1, out);
        }
    }
}

/// Returns the word for the right that a disposition makes, or for the kind of a received right.
fn sent_word(number: u8) -> &'static str {
    match number {
        16 => "receive",
        17 | 19 | 20 => "send",
        _ => "once",
    }
}

// ---- a message's parts, a line each

/// The lines below an entry: one for each part of its message.
#[derive(Clone, Copy)]
pub struct Parts {
    /// The entry's number, with which each line begins.
    pub number: u64,
    /// The task that sent or received the message.
    pub task: TaskId,
    /// Whether it was received.
    pub is_received: bool,
}

impl Parts {
    /// Writes a line for each right and each item of data of the message. A notice without a right has only the line of
    /// the right by which it came. Bytes that are no message have no lines. Call it before the entry of a send is
    /// replayed, or after that of a receive. Linear in the message.
    pub fn write(&self, follower: &Follower, labels: &Labels, bytes: &[u8], out: &mut Text) {
        let names = Names {
            follower,
            labels,
            task: self.task,
        };
        let Some(message) = read_received(bytes) else {
            return;
        };
        if self.is_received {
            self.write_come(&names, &message, out);
        } else {
            self.write_going(&names, &message, out);
        }
    }

    /// Writes the lines of a sent message.
    fn write_going(&self, names: &Names<'_, '_>, message: &Received<'_>, out: &mut Text) {
        let header = &message.header;
        self.write_right(
            names,
            "destination",
            (header.remote_kind, header.remote),
            out,
        );
        if header.local_kind != 0 {
            self.write_right(names, "answer", (header.local_kind, header.local), out);
        }
        self.write_body(names, &message.body, out);
    }

    /// Writes the lines of a received message.
    fn write_come(&self, names: &Names<'_, '_>, message: &Received<'_>, out: &mut Text) {
        let header = &message.header;
        self.write_right(names, "came by", (header.local_kind, header.local), out);
        if header.remote_kind != 0 {
            self.write_right(names, "answer", (header.remote_kind, header.remote), out);
        }
        if !is_told(message) || header.id == 69 {
            self.write_body(names, &message.body, out);
        }
    }

    /// Writes the lines of a body.
    fn write_body(&self, names: &Names<'_, '_>, body: &ReceivedBody<'_>, out: &mut Text) {
        let items = match body {
            ReceivedBody::Raw(bytes) => {
                self.write_raw(bytes, out);
                return;
            }
            ReceivedBody::Items(items) => items,
        };
        for item in *items {
            match &item {
                ReceivedItem::Ports(ports) => self.write_ports(names, ports, out),
                ReceivedItem::Data(data) => self.write_item(data, out),
            }
        }
    }

    /// Writes a line for each right of an item.
    fn write_ports(&self, names: &Names<'_, '_>, ports: &ReceivedPorts<'_>, out: &mut Text) {
        for index in 0..ports.len() {
            if let Some(name) = ports.get(index) {
                self.write_right(names, "with", (ports.kind, name), out);
            }
        }
    }

    /// Writes the line of a right: its part, its name, its disposition or kind, and the port.
    fn write_right(&self, names: &Names<'_, '_>, part: &str, right: (u8, Name), out: &mut Text) {
        out.line_below(self.number);
        out.wide(part, 13);
        write_name_column(right.1, out);
        write_kind_column(self.is_received, u32::from(right.0), out);
        names.write_thing(right.1, out);
        out.words("\n");
    }

    /// Writes the line of a raw body, unless it is empty.
    fn write_raw(&self, bytes: &[u8], out: &mut Text) {
        if bytes.is_empty() {
            return;
        }
        out.line_below(self.number);
        out.words("data                    ");
        write_length(bytes.len(), out);
        write_data(bytes, out);
        out.words("\n");
    }

    /// Writes the line of an item of data.
    fn write_item(&self, data: &ReceivedData<'_>, out: &mut Text) {
        out.line_below(self.number);
        out.words("data                    ");
        if data.size == 8 {
            write_length(data.bytes.len(), out);
        } else {
            out.phrase(&Phrase::two(
                "",
                u64::from(data.number),
                " x ",
                u64::from(data.size),
                " bits ",
            ));
        }
        write_data(data.bytes, out);
        out.words("\n");
    }
}

/// Writes a name, and spaces up to a column.
fn write_name_column(name: Name, out: &mut Text) {
    let end = out.len().saturating_add(10);
    match name.number() {
        0xffff_ffff => out.words("DEAD"),
        number => out.number(u64::from(number)),
    }
    out.fill(end);
    out.words(" ");
}

/// Writes the kind of a received right or the disposition of a sent one, and spaces up to a column.
fn write_kind_column(is_received: bool, number: u32, out: &mut Text) {
    let end = out.len().saturating_add(15);
    if is_received {
        out.words(kind_word(number));
    } else {
        write_right_name(number, out);
    }
    out.fill(end);
    out.words(" ");
}

/// Writes the number of bytes, and spaces up to a column.
fn write_length(length: usize, out: &mut Text) {
    let end = out.len().saturating_add(if length < 100 { 15 } else { 0 });
    out.phrase(&Phrase::one("", length as u64, " bytes"));
    out.fill(end);
    out.words(" ");
}
