//! Lifelines, callers that wait, and messages in queues.
use crate::painter::Painter;
use crate::places::{FOOT, at};
use mach_chart::Lifeline;
use mach_chart_base::{Hop, Mark, Way};
use mach_xml::{Drawing, Size};
use std::alloc::{AllocError, Global};

/// A message that goes into a lane, before it leaves it.
#[derive(Clone, Copy)]
struct Queued {
    hop: Option<Hop>,
    is_notice: bool,
}

impl<'a> Painter<'a> {
    /// Draws the lifelines.
    pub(crate) fn draw_lifelines(&self, drawing: &mut Drawing) {
        for (index, lifeline) in self.layout.each_lifeline().iter().enumerate() {
            if let Some(span) = self.chart.spans().get(lifeline.task as usize) {
                if span.from < self.grid.rows.count {
                    let x = self.grid.lifeline(index);
                    let from = match self.first_of(lifeline, index) {
                        Some(first) => self.grid.rows.middle(first),
                        None => self.begin_of(lifeline.task, span.from),
                    };
                    let to = self.end_of(lifeline.task, span.to);
                    drawing.line("life", at(x, from), at(x, to));
                }
            }
        }
    }

    /// Returns the first row of a block's lifeline, which has this index. `None` for other lifelines, and if the chart doesn't
    /// show the first entry.
    fn first_of(&self, lifeline: &Lifeline, index: usize) -> Option<usize> {
        let number = self.chart.rows().first()?.number;
        if lifeline.caller == 0 || number != 1 {
            return None;
        }
        for place in 0..self.chart.rows().len() {
            let row = self.chart.rows().get(place).copied()?;
            if row.is_first() && self.layout.lifeline(row.task, row.caller) == Some(index) {
                return Some(place);
            }
        }
        None
    }

    /// Returns where the lifelines of a task begin whose first row this is: at the row's mark if the row makes it.
    fn begin_of(&self, task: u32, first: usize) -> u32 {
        match self.chart.rows().get(first) {
            Some(row) if row.mark == Mark::Made && row.task == task => self.grid.rows.middle(first),
            _ => self.top_of(first),
        }
    }

    /// Returns where the lifelines of a task end: at the mark of the last row if that ends it.
    fn end_of(&self, task: u32, behind: usize) -> u32 {
        let last = behind.saturating_sub(1);
        match self.chart.rows().get(last) {
            Some(row) if row.mark == Mark::Ended && row.task == task => self.grid.rows.middle(last),
            _ => self.top_of(behind),
        }
    }

    /// Draws a box on the lifeline of each caller that waits, from its call to its next.
    pub(crate) fn draw_waits(
        &self,
        alloc: Global,
        drawing: &mut Drawing,
    ) -> Result<(), AllocError> {
        let mut waiting = Vec::new(alloc);
        for _ in self.layout.each_lifeline() {
            waiting.push(None)?;
        }
        for index in 0..self.chart.rows().len() {
            let Some(row) = self.chart.rows().get(index).copied() else {
                break;
            };
            let Some(lifeline) = self.layout.lifeline(row.task, row.caller) else {
                continue;
            };
            if let Some(since) = waiting.get_mut(lifeline) {
                if row.is_first() {
                    if let Some(first) = *since {
                        self.draw_wait(lifeline, first, self.grid.rows.middle(index), drawing);
                    }
                    *since = if row.is_waiting { Some(index) } else { None };
                }
            }
        }
        for (lifeline, since) in waiting.as_slice().iter().enumerate() {
            if let Some(first) = *since {
                let end = self.grid.rows.bottom().saturating_add(FOOT);
                self.draw_wait(lifeline, first, end, drawing);
            }
        }
        Ok(())
    }

    /// Draws a box on a lifeline from a row to a place below.
    fn draw_wait(&self, lifeline: usize, first: usize, to: u32, drawing: &mut Drawing) {
        let from = self.grid.rows.middle(first).saturating_add(50);
        let corner = at(self.grid.lifeline(lifeline).saturating_sub(40), from);
        let size = Size {
            width: 80,
            height: to.saturating_sub(50).saturating_sub(from),
        };
        drawing.rect("wait", corner, size);
    }

    /// Draws a bar for each message, from where it goes into a lane to where it leaves it.
    pub(crate) fn draw_bars(&self, alloc: Global, drawing: &mut Drawing) -> Result<(), AllocError> {
        let mut queued = self.messages(alloc)?;
        for hop in self.chart.hops() {
            let Some(message) = queued.get_mut(hop.serial as usize) else {
                continue;
            };
            match (hop.way, message.hop) {
                (Way::Out, Some(before)) => {
                    self.draw_bar(&before, self.height_of(hop), message.is_notice, drawing);
                    message.hop = None;
                }
                (Way::In, _) if self.chart.is_drawn(hop.serial) => {
                    message.hop = Some(*hop);
                }
                _ => {}
            }
        }
        for message in queued.as_slice() {
            if let Some(hop) = message.hop {
                self.draw_bar(&hop, self.grid.rows.bottom(), message.is_notice, drawing);
            }
        }
        Ok(())
    }

    /// Returns the messages by their numbers, and which are notices.
    fn messages(&self, alloc: Global) -> Result<Vec<Queued>, AllocError> {
        let mut queued = Vec::new(alloc);
        for hop in self.chart.hops() {
            for serial in queued.len()..(hop.serial as usize).saturating_add(1) {
                queued.push(Queued {
                    hop: None,
                    is_notice: self.is_notice(serial as u64),
                })?;
            }
        }
        Ok(queued)
    }

    /// Whether the message of this number is a notice.
    fn is_notice(&self, serial: u64) -> bool {
        match self.chart.place(serial) {
            Some(place) => place.is_notice,
            None => false,
        }
    }

    /// Draws the bar of a message that goes into a lane by this hop, to a place below.
    fn draw_bar(&self, hop: &Hop, to: u32, is_notice: bool, drawing: &mut Drawing) {
        let x = self.grid.lane(self.layout, hop);
        let from = self.height_of(hop).saturating_sub(8);
        let class = if is_notice { "queue-note" } else { "queue" };
        drawing.line(class, at(x, from), at(x, to.saturating_add(8)));
    }

    /// Returns the place of a hop from the top.
    fn height_of(&self, hop: &Hop) -> u32 {
        if hop.is_shown {
            self.grid.rows.middle(hop.row)
        } else {
            self.top_of(hop.row)
        }
    }
}
