//! Reads a chart, and notes what its layout finds out.
use crate::chart::{Chart, Span};
use crate::hops::Hop;
use crate::rows::{Mark, Row};
use mach_fates::End;
use std::alloc::{AllocError, Global};

/// A caller that acts on a task.
#[derive(Clone, Copy, PartialEq, Eq)]
pub struct Caller {
    /// The task's number.
    pub task: u32,
    /// The caller's number.
    pub caller: u64,
}

/// How many callers are told apart.
const MOST_CALLERS: usize = 256;

impl Chart {
    /// Returns the rows. Constant time.
    pub fn rows(&self) -> &[Row] {
        self.rows.as_slice()
    }

    /// Returns the hops, in the order in which they happened. Constant time.
    pub fn hops(&self) -> &[Hop] {
        self.hops.as_slice()
    }

    /// Returns from where to where each task is there, by its number. Constant time.
    pub fn spans(&self) -> &[Span] {
        self.spans.as_slice()
    }

    /// Returns what became of a row's message; `None` if the row has none. Constant time.
    pub fn end_of(&self, row: &Row) -> Option<End> {
        self.ends.get(row.port?, row.place)
    }

    /// Notes, at the end of the history, who waits until then, and which tasks rows are about. Linear in rows and hops.
    pub fn settle(&mut self) {
        self.end_waits();
        self.find_tasks();
    }

    /// Notes which callers wait until the end of the history.
    fn end_waits(&mut self) {
        for index in 0..self.rows.len() {
            let Some(row) = self.rows.get(index).copied() else {
                break;
            };
            if matches!(row.mark, Mark::Empty | Mark::Refused)
                && self.waits.last(row.caller, row.task) == Some(index)
            {
                self.wait_from(index);
            }
        }
    }

    /// Notes which tasks rows are about.
    fn find_tasks(&mut self) {
        for index in 0..self.rows.len() {
            if let Some(row) = self.rows.get(index).copied() {
                self.find_task(row.task);
                self.find_task(row.other);
            }
        }
        for index in 0..self.hops.len() {
            if let Some(hop) = self.hops.get(index).copied() {
                if self.is_drawn(hop.serial) {
                    self.find_task(hop.task);
                }
            }
        }
    }

    /// Notes that a row is about the task of this number.
    fn find_task(&mut self, task: u32) {
        if let Some(span) = self.spans.get_mut(task as usize) {
            span.is_drawn = true;
        }
    }

    /// Returns the callers of the rows, each once, and at most 256.
    ///
    /// Returns `AllocError` if out of memory. Linear in the rows, for each in these callers.
    pub fn callers(&self, alloc: Global) -> Result<Vec<Caller>, AllocError> {
        let mut callers = Vec::new(alloc);
        for row in self.rows.as_slice() {
            if row.is_first() && row.mark != Mark::Made && row.mark != Mark::Handed {
                add_caller(row, &mut callers)?;
            }
        }
        Ok(callers)
    }

    /// Whether the message of this number is drawn. Constant time.
    pub fn is_drawn(&self, serial: u64) -> bool {
        match self.place(serial) {
            Some(place) => place.is_drawn,
            None => false,
        }
    }

    /// Keeps the lane of the hop at this index, and of its message from there on. Constant time.
    pub fn set_lane(&mut self, index: usize, lane: usize) {
        let Some(hop) = self.hops.get_mut(index) else {
            return;
        };
        hop.lane = lane;
        let Ok(serial) = usize::try_from(hop.serial) else {
            return;
        };
        if let Some(place) = self.places.get_mut(serial) {
            place.lane = lane;
        }
    }

    /// Whether the task of this number has its lifeline in the row of this index. Constant time.
    pub fn is_alive(&self, task: u32, index: usize) -> bool {
        match self.spans.get(task as usize) {
            Some(span) => span.from <= index && index < span.to,
            None => false,
        }
    }

    /// Returns the comment of the row of this index, without its reply. Constant time.
    ///
    /// Returns `AllocError` if a part was left out for want of memory.
    pub fn comment(&self, index: usize) -> Result<&[u8], AllocError> {
        let comments = self.comments.whole()?;
        let Some(row) = self.rows.get(index) else {
            return Ok(&[]);
        };
        let start = self.start_of(index);
        Ok(comments.get(start..row.reply_start).unwrap_or(&[]))
    }

    /// Returns the reply of the row of this index, if it is refused, and otherwise nothing. Constant time.
    ///
    /// Returns `AllocError` if a part was left out for want of memory.
    pub fn reply(&self, index: usize) -> Result<&[u8], AllocError> {
        let comments = self.comments.whole()?;
        let Some(row) = self.rows.get(index) else {
            return Ok(&[]);
        };
        Ok(
            comments
                .get(row.reply_start..row.comment_end)
                .unwrap_or(&[]),
        )
    }

    /// Returns how many bytes the comments have before a row's.
    fn start_of(&self, index: usize) -> usize {
        let Some(before) = index.checked_sub(1) else {
            return 0;
        };
        match self.rows.get(before) {
            Some(row) => row.comment_end,
            None => 0,
        }
    }
}

/// Adds a row's caller, unless it is there.
fn add_caller(row: &Row, callers: &mut Vec<Caller>) -> Result<(), AllocError> {
    let caller = Caller {
        task: row.task,
        caller: row.caller,
    };
    if callers.len() < MOST_CALLERS && !callers.as_slice().iter().any(|other| *other == caller) {
        callers.push(caller)?;
    }
    Ok(())
}
