//! A chart as data, and how entries are added to it.
use crate::hops::{Hop, Place, Way, root_holder};
use crate::rows::{Mark, Row, is_look, mark_of};
use crate::waits::Waits;
use kernel_lock::Entry;
use mach_fates::{Come, Ends, Fates, Origin};
use mach_follow::{Follower, describe_after, write_answer};
use mach_types::{Disposition, Event, PortId, Reply, TaskId};
use mach_words::{Labels, Text, kind_word, notice_word, task_of};
use std::alloc::{AllocError, Global};

/// How many columns a line of a cause has at most.
const WIDTH: usize = 62;
/// The notices, in the order in which an entry lists them.
const NOTICES: &[u32] = &[72, 70, 65, 69, 71];

/// An entry that was replayed.
#[derive(Clone, Copy)]
pub struct Told<'a> {
    /// Has made the entry's call.
    pub follower: &'a Follower,
    /// Has followed its messages.
    pub fates: &'a Fates,
    /// The labels.
    pub labels: &'a Labels,
    /// The entry's number, from 1.
    pub number: u64,
    /// The entry.
    pub entry: &'a Entry,
    /// Whether the chart has rows for the entry.
    pub is_shown: bool,
    /// The call, as it was described before it was made.
    pub call: &'a Text,
    /// Why the call was refused, or nothing.
    pub why: &'a Text,
    /// The port for which the call hands over a right, if it does.
    pub handed: Option<PortId>,
    /// The allocator.
    pub alloc: Global,
}

impl<'a> Told<'a> {
    /// Whether the entry only looks, and isn't refused. Constant time.
    pub fn is_look(&self) -> bool {
        is_look(self.entry)
    }

    /// Returns the number of the task whose lifeline the entry is at.
    pub(crate) fn task(&self) -> u32 {
        match &self.entry.reply {
            Reply::Task(made) => made.number(),
            _ => task_of(&self.entry.event)
                .unwrap_or(TaskId::new(0))
                .number(),
        }
    }

    /// Returns a row of the entry with this mark.
    pub(crate) fn row(&self, mark: Mark) -> Row {
        Row::new(self.number, mark, self.task(), self.entry.caller)
    }
}

/// From which row to which a task is there.
#[derive(Clone, Copy)]
pub struct Span {
    /// The first row of its lifeline.
    pub from: usize,
    /// The row behind the last.
    pub to: usize,
    /// Whether a row is about it.
    pub is_drawn: bool,
}

/// A chart as data: its rows, with their comments, and the hops of messages.
///
/// It takes some 100 bytes and its comment for a row, and at most 100 bytes for a message.
pub struct Chart {
    pub(crate) rows: Vec<Row>,
    pub(crate) hops: Vec<Hop>,
    // By the numbers of the messages.
    pub(crate) places: Vec<Place>,
    // By the numbers of the tasks.
    pub(crate) spans: Vec<Span>,
    // The comments of all rows, one behind another.
    pub(crate) comments: Text,
    pub(crate) ends: Ends,
    pub(crate) waits: Waits,
    // A text that is put together.
    scratch: Text,
}

/// Drops the rows and what was noted for them. It is written out, so that it is proved here alone, and not in each crate that drops one.
impl Drop for Chart {
    fn drop(self) {
        let Chart {
            rows: _,
            hops: _,
            places: _,
            spans: _,
            comments: _,
            ends: _,
            waits: _,
            scratch: _,
        } = self;
    }
}

impl Chart {
    /// Has no row. Takes no memory.
    pub fn new(alloc: Global) -> Chart {
        Chart {
            rows: Vec::new(alloc),
            hops: Vec::new(alloc),
            places: Vec::new(alloc),
            spans: Vec::new(alloc),
            comments: Text::new(alloc),
            ends: Ends::new(alloc),
            waits: Waits::new(alloc),
            scratch: Text::new(alloc),
        }
    }

    /// Adds an entry, and follows its messages. Call it for each entry of a history, in order, also if it isn't shown.
    ///
    /// Returns `AllocError` if out of memory; the chart is then of no further use. Linear in the entry, in what its step did
    /// to messages, and in the queues that went along with a receive right.
    pub fn add(&mut self, told: &Told<'_>) -> Result<(), AllocError> {
        self.ends.note(told.fates, told.entry, told.number)?;
        self.note_task(told)?;
        self.add_first(told)?;
        self.note_taken(told)?;
        self.place_all(told)?;
        self.note_sent(told)?;
        self.add_why(told)?;
        self.add_deaths(told)?;
        self.note_lost(told)?;
        self.note_notices(told)?;
        self.note_moves(told)
    }

    /// Notes that the entry makes or ends a task.
    fn note_task(&mut self, told: &Told<'_>) -> Result<(), AllocError> {
        let at = self.rows.len();
        if let Reply::Task(_) = &told.entry.reply {
            self.spans.push(Span {
                from: at,
                to: usize::MAX,
                is_drawn: false,
            })?;
        }
        if mark_of(told.entry) == Mark::Ended {
            if let Some(span) = self.spans.get_mut(told.task() as usize) {
                span.to = at.saturating_add(usize::from(told.is_shown));
            }
        }
        Ok(())
    }

    /// Adds the entry's first row, if it is shown, and notes who waits.
    fn add_first(&mut self, told: &Told<'_>) -> Result<(), AllocError> {
        let place = if told.is_shown {
            Some(self.rows.len())
        } else {
            None
        };
        match self.waits.note(told.entry, place)? {
            Some(before) if told.is_shown => self.wait_from(before),
            _ => {}
        }
        if told.is_shown {
            self.write_first(told);
            let mut row = first_row(told);
            row.reply_start = self.comments.len();
            if row.mark == Mark::Refused {
                self.write_reply(told);
            }
            self.push(row)?;
        }
        Ok(())
    }

    /// Notes that the caller of this row waits from it on.
    pub(crate) fn wait_from(&mut self, row: usize) {
        if let Some(row) = self.rows.get_mut(row) {
            row.is_waiting = true;
        }
    }

    /// Adds a row, whose comment was appended to the comments.
    pub(crate) fn push(&mut self, mut row: Row) -> Result<(), AllocError> {
        row.comment_end = self.comments.len();
        if row.mark != Mark::Refused {
            row.reply_start = row.comment_end;
        }
        self.rows.push(row)?;
        Ok(())
    }

    /// Appends the comment of the entry's first row: the caller, the call, and what its reply says beside the mark.
    fn write_first(&mut self, told: &Told<'_>) {
        let entry = told.entry;
        if let Some(task) = task_of(&entry.event) {
            told.labels
                .write_caller(entry.caller, task, &mut self.comments);
            self.comments.words(": ");
        }
        describe_after(
            told.follower,
            told.labels,
            entry,
            told.call,
            &mut self.comments,
        );
        if told.is_look() {
            self.comments.words(" ");
            self.write_reply(told);
        }
    }

    /// Appends the reply in words, without its mark.
    fn write_reply(&mut self, told: &Told<'_>) {
        self.scratch.clear();
        write_answer(
            told.follower,
            told.labels,
            told.entry,
            TaskId::new(told.task()),
            &mut self.scratch,
        );
        if let Ok(reply) = self.scratch.whole() {
            self.comments.plain(reply.get(2..).unwrap_or(&[]));
        }
    }

    /// Notes that the step took a message from its queue.
    fn note_taken(&mut self, told: &Told<'_>) -> Result<(), AllocError> {
        let Some(taken) = told.fates.taken() else {
            return Ok(());
        };
        self.name_last(told, &taken.origin, (taken.port, taken.place));
        self.leave(&taken.origin, told.is_shown)
    }

    /// Notes beside whose lifelines the messages are that came. They are numbered in this order.
    fn place_all(&mut self, told: &Told<'_>) -> Result<(), AllocError> {
        for come in told.fates.effects().came.as_slice() {
            let task = match root_holder(told.follower.tables(), PortId::new(come.port)) {
                Some(task) => task.number(),
                None => 0,
            };
            self.places.push(Place {
                task,
                lane: 0,
                is_drawn: false,
                is_notice: come.origin.is_notice,
                is_early: false,
            })?;
        }
        Ok(())
    }

    /// Notes that the step sent a message.
    fn note_sent(&mut self, told: &Told<'_>) -> Result<(), AllocError> {
        for come in told.fates.effects().came.as_slice() {
            if !come.origin.is_notice {
                self.name_last(told, &come.origin, (come.port, come.place));
                self.enter(&come.origin, told.is_shown)?;
            }
        }
        Ok(())
    }

    /// Notes of the last row, if the entry is shown, which message it is about, and its port and place.
    pub(crate) fn name_last(
        &mut self,
        told: &Told<'_>,
        origin: &Origin,
        (port, place): (u64, u64),
    ) {
        if !told.is_shown {
            return;
        }
        if let Some(row) = self.rows.last_mut() {
            row.id = origin.id;
            row.is_notice = origin.is_notice;
            row.serial = origin.serial;
            row.port = Some(port);
            row.place = place;
        }
    }

    /// Notes that a message goes into a queue, in the last row if the entry is shown.
    fn enter(&mut self, origin: &Origin, is_shown: bool) -> Result<(), AllocError> {
        match self.place(origin.serial) {
            Some(place) => self.hop(origin.serial, place.task, Way::In, is_shown),
            None => Ok(()),
        }
    }

    /// Notes that a message leaves its queue, in the last row if the entry is shown.
    pub(crate) fn leave(&mut self, origin: &Origin, is_shown: bool) -> Result<(), AllocError> {
        match self.place(origin.serial) {
            Some(place) => self.hop(origin.serial, place.task, Way::Out, is_shown),
            None => Ok(()),
        }
    }

    /// Returns where the message of this number is; `None` if there is none. Constant time.
    pub fn place(&self, serial: u64) -> Option<Place> {
        let index = usize::try_from(serial).ok()?;
        self.places.get(index).copied()
    }

    /// Adds a hop, in the last row if that shows it.
    pub(crate) fn hop(
        &mut self,
        serial: u64,
        task: u32,
        way: Way,
        is_shown: bool,
    ) -> Result<(), AllocError> {
        let row = self.rows.len().saturating_sub(usize::from(is_shown));
        self.hops.push(Hop {
            serial,
            task,
            way,
            lane: 0,
            row,
            is_shown,
        })?;
        if is_shown {
            self.draw(serial);
        }
        Ok(())
    }

    /// Notes that a row shows a hop of the message.
    fn draw(&mut self, serial: u64) {
        let Ok(index) = usize::try_from(serial) else {
            return;
        };
        if let Some(place) = self.places.get_mut(index) {
            place.is_drawn = true;
        }
    }

    /// Adds rows for the lines of the cause, if the entry is shown.
    fn add_why(&mut self, told: &Told<'_>) -> Result<(), AllocError> {
        if !told.is_shown {
            return Ok(());
        }
        let mut rest = told.why.whole()?;
        for _ in 0..rest.len() {
            let Some((line, behind)) = cut_line(rest) else {
                break;
            };
            self.comments.plain(line);
            self.push(told.row(Mark::Why))?;
            rest = behind;
        }
        Ok(())
    }

    /// Adds rows for the ports that died, if the entry is shown.
    fn add_deaths(&mut self, told: &Told<'_>) -> Result<(), AllocError> {
        if !told.is_shown {
            return Ok(());
        }
        for port in told.fates.effects().died.as_slice() {
            self.comments.words("port ");
            told.labels.write_port(*port, &mut self.comments);
            self.comments.words(" dies");
            let mut row = told.row(Mark::Died);
            row.port = Some(port.number());
            self.push(row)?;
        }
        Ok(())
    }

    /// Notes the messages that were destroyed with their ports.
    fn note_lost(&mut self, told: &Told<'_>) -> Result<(), AllocError> {
        let effects = told.fates.effects();
        if told.is_shown && !effects.lost.as_slice().is_empty() {
            self.comments.words("destroyed with it: ");
            for (place, lost) in effects.lost.as_slice().iter().enumerate() {
                if place != 0 {
                    self.comments.words(", ");
                }
                write_title(&lost.origin, told.labels, &mut self.comments);
            }
            self.push(told.row(Mark::Lost))?;
        }
        for lost in effects.lost.as_slice() {
            self.leave(&lost.origin, told.is_shown)?;
        }
        Ok(())
    }

    /// Notes the notices of the step, a kind after another.
    fn note_notices(&mut self, told: &Told<'_>) -> Result<(), AllocError> {
        for id in NOTICES {
            for come in told.fates.effects().came.as_slice() {
                if come.origin.is_notice && come.origin.id == *id {
                    self.note_notice(told, come)?;
                }
            }
        }
        Ok(())
    }

    /// Notes a notice.
    fn note_notice(&mut self, told: &Told<'_>, come: &Come) -> Result<(), AllocError> {
        if told.is_shown {
            self.comments.words("notice ");
            write_title(&come.origin, told.labels, &mut self.comments);
            self.comments.words(" to ");
            told.labels
                .write_port(PortId::new(come.port), &mut self.comments);
            self.push(told.row(Mark::Told))?;
            self.name_last(told, &come.origin, (come.port, come.place));
        }
        self.enter(&come.origin, told.is_shown)
    }
}

/// Writes what a message is called.
pub(crate) fn write_title(origin: &Origin, labels: &Labels, out: &mut Text) {
    write_name(origin.id, origin.is_notice, labels, out);
}

/// Writes what a message with this id is called, or a notice. Constant time.
pub fn write_name(id: u32, is_notice: bool, labels: &Labels, out: &mut Text) {
    match notice_word(id) {
        Some(word) if is_notice => out.words(word),
        _ => labels.write_id(id, out),
    }
}

/// Returns the entry's first row.
fn first_row(told: &Told<'_>) -> Row {
    let mut row = told.row(mark_of(told.entry));
    if row.mark != Mark::Handed {
        return row;
    }
    row.port = match told.handed {
        Some(port) => Some(port.number()),
        None => None,
    };
    match &told.entry.event {
        Event::InsertRight(task, _, from, _, given) => {
            row.task = from.number();
            row.other = task.number();
            row.id = kind_of(*given);
        }
        Event::ExtractRight(_, _, given, to) => {
            row.other = to.number();
            row.id = kind_of(*given);
        }
        _ => {}
    }
    row
}

/// Returns the kind of right that a disposition of this number gives.
fn kind_of(given: u32) -> u32 {
    match Disposition::from_number(given) {
        Some(disposition) => u32::from(disposition.kind_number()),
        None => 0,
    }
}

/// Splits off a line of at most 62 bytes, at the last space if there is one; `None` if nothing is left.
fn cut_line(text: &[u8]) -> Option<(&[u8], &[u8])> {
    if text.is_empty() {
        return None;
    }
    if text.len() <= WIDTH {
        return Some((text, &[]));
    }
    let mut end = WIDTH;
    for place in 1..WIDTH + 1 {
        if text.get(place) == Some(&b' ') {
            end = place;
        }
    }
    let line = text.get(..end)?;
    let behind = text.get(end..)?;
    match behind {
        [b' ', rest @ ..] => Some((line, rest)),
        _ => Some((line, behind)),
    }
}
