//! Charts as sequence diagrams of Mermaid.
use crate::layout::{Layout, write_label};
use mach_chart_base::{Chart, Mark, Row, write_name};
use mach_fates::End;
use mach_types::PortId;
use mach_words::{Labels, Text};
use std::alloc::AllocError;

/// A chart that is written in Mermaid's notation.
#[derive(Clone, Copy)]
pub struct Mermaid<'a> {
    /// The chart.
    pub chart: &'a Chart,
    /// Its layout.
    pub layout: &'a Layout,
    /// The labels.
    pub labels: &'a Labels,
}

impl<'a> Mermaid<'a> {
    /// Writes the first line, the title if there is one, and a participant for each lifeline. Linear in the lifelines.
    pub fn write_head(&self, title: Option<&str>, out: &mut Text) {
        out.words("sequenceDiagram");
        if let Some(title) = title {
            out.words("\n    title ");
            write_safe(title.as_bytes(), out);
        }
        for lifeline in self.layout.lifelines.as_slice() {
            out.words("\n    participant ");
            self.write_id(lifeline.task, lifeline.caller, out);
            out.words(" as ");
            self.layout.write_name(lifeline, self.labels, out);
        }
    }

    /// Writes the row of this index, without a line feed at its end: a row of a cause goes on in the line before it.
    ///
    /// Returns `AllocError` if the chart lacks a part for want of memory. Linear in the row's comment and in the lifelines.
    pub fn write_row(&self, index: usize, out: &mut Text) -> Result<(), AllocError> {
        let Some(row) = self.chart.rows().get(index).copied() else {
            return Ok(());
        };
        match row.mark {
            Mark::Why => {
                out.words("<br/>");
                self.write_comment(index, &row, out)
            }
            Mark::Sent | Mark::Told => {
                self.write_arrow(&row, out);
                Ok(())
            }
            Mark::Handed if row.task != row.other => {
                self.begin(&row, out);
                out.words("-->>");
                self.write_id(row.other, 0, out);
                self.write_number(&row, out);
                write_label(&row, self.labels, out);
                Ok(())
            }
            _ => self.write_note(index, &row, out),
        }
    }

    /// Begins a line of the row's caller.
    fn begin(&self, row: &Row, out: &mut Text) {
        out.words("\n    ");
        self.write_id(row.task, row.caller, out);
    }

    /// Writes a note over the row's lifeline.
    fn write_note(&self, index: usize, row: &Row, out: &mut Text) -> Result<(), AllocError> {
        out.words("\n    Note over ");
        self.write_id(row.task, row.caller, out);
        self.write_number(row, out);
        self.write_comment(index, row, out)
    }

    /// Writes the arrow of a message, to its receiver or to where it was last, and what became of it.
    fn write_arrow(&self, row: &Row, out: &mut Text) {
        self.begin(row, out);
        let end = self.chart.end_of(row);
        out.words(arrow_of(row.mark, end));
        self.write_target(row, end, out);
        self.write_number(row, out);
        write_name(row.id, row.is_notice, self.labels, out);
        out.words(" to ");
        if let Some(port) = row.port {
            self.labels.write_port(PortId::new(port), out);
        }
        write_end(end, out);
    }

    /// Writes the participant to which a message goes.
    fn write_target(&self, row: &Row, end: Option<End>, out: &mut Text) {
        match (end, self.chart.place(row.serial)) {
            (Some(End::Received(_, receiver)), _) => {
                self.write_id(receiver.task, receiver.caller, out)
            }
            (_, Some(place)) => self.write_id(place.task, 0, out),
            (_, None) => self.write_id(row.task, row.caller, out),
        }
    }

    /// Writes the participant of a task and a caller.
    fn write_id(&self, task: u32, caller: u64, out: &mut Text) {
        out.around("T", task, "");
        if !self.layout.has_blocks(task) {
            return;
        }
        if let Some(index) = self.layout.lifeline(task, caller) {
            if let Some(lifeline) = self.layout.lifelines.get(index) {
                out.words("C");
                out.number(lifeline.caller);
            }
        }
    }

    /// Writes the number of the row's entry, behind a colon.
    fn write_number(&self, row: &Row, out: &mut Text) {
        out.words(": ");
        out.number(row.number);
        out.words(" ");
    }

    /// Writes the comment of a row.
    fn write_comment(&self, index: usize, row: &Row, out: &mut Text) -> Result<(), AllocError> {
        write_safe(self.chart.comment(index)?, out);
        match row.mark {
            Mark::Refused => {
                out.words(if row.is_waiting { " ◌ waits, " } else { " ✗ " });
                write_safe(self.chart.reply(index)?, out);
            }
            Mark::Empty if row.is_waiting => out.words(" ◌ waits"),
            Mark::Empty => out.words(" ◌ no message"),
            _ => {}
        }
        Ok(())
    }
}

/// Returns the arrow of a message: in dashes for a notice, with a cross at its end if the message is destroyed.
fn arrow_of(mark: Mark, end: Option<End>) -> &'static str {
    let is_lost = matches!(end, Some(End::TooLong(_) | End::Died(_)));
    match (mark == Mark::Told, is_lost) {
        (false, false) => "-)",
        (false, true) => "-x",
        (true, false) => "--)",
        (true, true) => "--x",
    }
}

/// Writes what became of a message.
fn write_end(end: Option<End>, out: &mut Text) {
    let entry = match end {
        Some(End::Received(entry, _)) => {
            out.words(", received in ");
            entry
        }
        Some(End::TooLong(entry)) => {
            out.words(", destroyed as too long in ");
            entry
        }
        Some(End::Died(entry)) => {
            out.words(", destroyed with its port in ");
            entry
        }
        _ => {
            out.words(", never received");
            return;
        }
    };
    out.number(entry);
}

/// Writes printable ASCII, with the two bytes that end a text in Mermaid's notation as entities.
fn write_safe(bytes: &[u8], out: &mut Text) {
    for byte in bytes {
        match *byte {
            b'#' => out.words("#35;"),
            b';' => out.words("#59;"),
            byte => out.plain(&[byte]),
        }
    }
}
