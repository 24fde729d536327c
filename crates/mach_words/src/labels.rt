//! Labels: words that a user gives to tasks, ports, sets, message ids and callers.
use crate::text::Text;
use mach_types::{PortId, SetId, TaskId};
use number_map::NumberMap;
use std::alloc::{AllocError, Global};
use tracer_base::Words;

/// How many bytes the longest label has.
const LONGEST: usize = 24;

/// A label: letters, digits, `-` and `_`.
#[derive(Clone, Copy)]
struct Label {
    // How many of the bytes are the label's.
    length: usize,
    bytes: [u8; LONGEST],
}

/// The label of the thing of this number.
#[derive(Clone, Copy)]
struct Labelled {
    number: u64,
    label: Label,
}

/// Why a line of labels was refused.
#[derive(Clone, Copy)]
pub enum LabelFault {
    /// The line is empty.
    Empty,
    /// The first word isn't what labels are for.
    NoKind,
    /// The second word isn't a number, or isn't there.
    NoNumber,
    /// There is no third word.
    NoWord,
    /// There is a fourth word.
    TooMany,
    /// The label is too long.
    TooLong,
    /// The label doesn't begin with a letter.
    NoLetter,
    /// The label has a byte that no label has.
    NoLabelByte,
    /// The line names something that has a label already.
    Twice,
    /// Out of memory.
    OutOfMemory,
}

impl LabelFault {
    /// Returns the fault in words. Constant time.
    pub fn words(self) -> &'static str {
        match self {
            LabelFault::Empty => "the line is empty",
            LabelFault::NoKind => {
                "the first word is not 'task', 'port', 'set', 'id' or 'caller'"
            }
            LabelFault::NoNumber => {
                "the second word is no number from 0 to 18446744073709551615"
            }
            LabelFault::NoWord => "there is no word behind the number",
            LabelFault::TooMany => { "there is more behind the third word; a label has no space" }
            LabelFault::TooLong => "the label has more than 24 letters",
            LabelFault::NoLetter => "the label does not begin with a letter",
            LabelFault::NoLabelByte => {
                "the label has something else than letters, digits, '-' and '_'"
            }
            LabelFault::Twice => "this has a label already",
            LabelFault::OutOfMemory => "out of memory",
        }
    }
}

impl From<AllocError> for LabelFault {
    fn from(_error: AllocError) -> LabelFault {
        LabelFault::OutOfMemory
    }
}

/// The labels of things of one kind, by their numbers, and once more in the order of their lines.
#[derive(Drop)]
struct Table {
    labels: NumberMap<Label>,
    list: Vec<Labelled>,
}

impl Table {
    /// Makes an empty table. Takes no memory.
    fn new(alloc: Global) -> Table {
        Table {
            labels: NumberMap::new(alloc),
            list: Vec::new(alloc),
        }
    }

    /// Enters a label. Returns `Twice` if its number has one, or `OutOfMemory`.
    fn enter(&mut self, labelled: Labelled) -> Result<(), LabelFault> {
        if self.labels.get(labelled.number).is_some() {
            return Err(LabelFault::Twice);
        }
        self.labels.reserve(1)?;
        self.labels.insert(labelled.number, labelled.label);
        match self.list.push(labelled) {
            Ok(()) => Ok(()),
            Err(_) => Err(LabelFault::OutOfMemory),
        }
    }

    /// Returns the number of the first thing that has this label.
    fn number_of(&self, label: &[u8]) -> Option<u64> {
        for labelled in self.list.as_slice() {
            if word_of(&labelled.label) == label {
                return Some(labelled.number);
            }
        }
        None
    }

    /// Writes the label of this number, or the prefix and the number if it has none.
    fn write(&self, number: u64, prefix: &str, out: &mut Text) {
        match self.labels.get(number) {
            Some(label) => out.plain(word_of(&label)),
            None => {
                out.words(prefix);
                out.number(number);
            }
        }
    }
}

/// Labels, each under what it names.
#[derive(Drop)]
pub struct Labels {
    tasks: Table,
    ports: Table,
    sets: Table,
    ids: Table,
    callers: Table,
}

impl Labels {
    /// Makes an empty table. Takes no memory.
    pub fn new(alloc: Global) -> Labels {
        Labels {
            tasks: Table::new(alloc),
            ports: Table::new(alloc),
            sets: Table::new(alloc),
            ids: Table::new(alloc),
            callers: Table::new(alloc),
        }
    }

    /// Reads a line, without its line feed, and enters its label. The line is `task N WORD`, or has `port`, `set`, `id`
    /// or `caller` in the place of `task`. N is a number of up to 64 bits. WORD has 1 to 24 letters, digits, `-` and `_`,
    /// and begins with a letter.
    ///
    /// Returns `Twice` if N has a label of this kind, `OutOfMemory`, and for any other line its first fault. After
    /// `OutOfMemory` the table is of no further use; other errors enter nothing. Linear in the line.
    pub fn read_line(&mut self, line: &[u8]) -> Result<(), LabelFault> {
        if line.is_empty() {
            return Err(LabelFault::Empty);
        }
        let mut words = Words::of(line);
        let Ok(kind) = words.word() else {
            return Err(LabelFault::NoKind);
        };
        match self.table(kind) {
            Some(table) => table.enter(labelled_of(words)?),
            None => Err(LabelFault::NoKind),
        }
    }

    /// Returns the number of the first task that has this label; `None` if none has. Linear in the labels of tasks.
    pub fn task_named(&self, label: &[u8]) -> Option<u64> {
        self.tasks.number_of(label)
    }

    /// Returns the identity of the first port that has this label; `None` if none has. Linear in the labels of ports.
    pub fn port_named(&self, label: &[u8]) -> Option<u64> {
        self.ports.number_of(label)
    }

    /// Returns the table of the kind that the word names.
    fn table(&mut self, kind: &[u8]) -> Option<&mut Table> {
        match kind {
            b"task" => Some(&mut self.tasks),
            b"port" => Some(&mut self.ports),
            b"set" => Some(&mut self.sets),
            b"id" => Some(&mut self.ids),
            b"caller" => Some(&mut self.callers),
            _ => None,
        }
    }

    /// Writes a task's label, or `T` and its number if it has none. Constant time.
    pub fn write_task(&self, task: TaskId, out: &mut Text) {
        self.tasks.write(u64::from(task.number()), "T", out);
    }

    /// Writes a port's label, or `p` and its identity. Constant time.
    pub fn write_port(&self, port: PortId, out: &mut Text) {
        self.ports.write(port.number(), "p", out);
    }

    /// Writes a set's label, or `s` and its identity. Constant time.
    pub fn write_set(&self, set: SetId, out: &mut Text) {
        self.sets.write(set.number(), "s", out);
    }

    /// Writes the label of a message id, or `id` and the number. Constant time.
    pub fn write_id(&self, id: u32, out: &mut Text) {
        self.ids.write(u64::from(id), "id ", out);
    }

    /// Writes who made a call: the caller's label, or the task's label or number. A caller other than 0 without a label
    /// adds a slash and its number. Constant time.
    pub fn write_caller(&self, caller: u64, task: TaskId, out: &mut Text) {
        match self.callers.labels.get(caller) {
            Some(label) => out.plain(word_of(&label)),
            None => self.write_unlabelled(caller, task, out),
        }
    }

    /// Writes a caller without a label.
    fn write_unlabelled(&self, caller: u64, task: TaskId, out: &mut Text) {
        self.write_task(task, out);
        if caller != 0 {
            out.words("/");
            out.number(caller);
        }
    }
}

/// Reads the words behind the kind: a number and a label.
fn labelled_of(mut words: Words<'_>) -> Result<Labelled, LabelFault> {
    let Ok(number) = words.identity() else {
        return Err(LabelFault::NoNumber);
    };
    let Ok(word) = words.word() else {
        return Err(LabelFault::NoWord);
    };
    if words.end().is_err() {
        return Err(LabelFault::TooMany);
    }
    let label = label_of(word)?;
    Ok(Labelled { number, label })
}

/// Whether a label may have the byte.
fn is_label_byte(byte: u8) -> bool {
    byte.is_ascii_alphanumeric() || byte == b'-' || byte == b'_'
}

/// Returns the word as a label: 1 to 24 letters, digits, `-` and `_`, the first a letter. Other words are errors.
fn label_of(word: &[u8]) -> Result<Label, LabelFault> {
    match word.first() {
        Some(first) if first.is_ascii_alphabetic() => {}
        _ => return Err(LabelFault::NoLetter),
    }
    if !word.iter().all(|byte| is_label_byte(*byte)) {
        return Err(LabelFault::NoLabelByte);
    }
    if word.len() > LONGEST {
        return Err(LabelFault::TooLong);
    }
    Ok(copied(word))
}

/// Returns the word as a label. It has at most 24 bytes.
fn copied(word: &[u8]) -> Label {
    let mut bytes = [0; LONGEST];
    for (place, byte) in word.iter().enumerate() {
        if let Some(slot) = bytes.get_mut(place) {
            *slot = *byte;
        }
    }
    Label {
        length: word.len(),
        bytes,
    }
}

/// Returns the label's word.
fn word_of(label: &Label) -> &[u8] {
    label
        .bytes
        .get(..label.length)
        .unwrap_or(label.bytes.as_slice())
}
