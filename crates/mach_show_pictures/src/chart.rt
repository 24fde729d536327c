//! The job `chart`: draws a history.

use crate::source::Source;
use kernel_lock::Entry;
use mach_causes::{explain, write_cause};
use mach_chart::{Layout, MOST_LIFELINES, Mermaid, Pen};
use mach_chart_base::{Chart, Told, handed_port};
use mach_fates::Fates;
use mach_follow::{Answered, Follower, describe_before, is_answer_about, is_call_about};
use mach_picture::{Part, Picture, Scheme, draw_chart, write_svg};
use mach_show_base::{Done, Fault, Output, Shown, TOO_MANY, bad_line, next_line};
use mach_types::{Event, PortId, Profile, Reply};
use mach_words::{Labels, Text};
use mach_xml::Drawing;
use std::alloc::AllocError;
use std::io::{BufReader, Read, Write};
use tracer::{behind_heading, first_line};
use tracer_base::TextFault;

/// How many rows a chart has at most, unless the first or the last entry is named.
const MOST_ROWS: usize = 10_000;

/// The form of a chart.
#[derive(Clone, Copy)]
pub enum Form {
    /// Rows of a terminal.
    Terminal,
    /// Mermaid's notation.
    Mermaid,
    /// SVG, in these colours.
    Svg(Scheme),
}

/// How a chart is drawn.
#[derive(Clone, Copy)]
pub struct Style<'a> {
    /// Whether it has calls that only look.
    pub has_looks: bool,
    /// In which form it is written.
    pub form: Form,
    /// Its title.
    pub title: Option<&'a str>,
}

/// Draws the history that the reader has.
///
/// Returns the faults of a history, `TooLong` for a chart of more than 10,000 rows without a window, `TooWide` for more than
/// 64 lifelines, and those of the output. Makes the calls once, and takes memory for the chart.
pub fn show_chart<'a, R: Read>(
    shown: &Shown<'a, '_>,
    style: &Style<'a>,
    reader: &mut BufReader<&mut R>,
    line: &mut Vec<u8>,
    out: &mut Output,
) -> Result<Done, Fault<'a>> {
    next_line(shown.name, reader, line, out)?;
    let Some((profile, _)) = behind_heading(line.as_slice()) else {
        return Err(Fault::NoHistory);
    };
    let asked = Asked {
        source: Source::of(shown),
        style: *style,
    };
    draw_entries(&asked, profile, reader, line, out)
}

/// The chart that is asked for.
#[derive(Clone, Copy)]
pub(crate) struct Asked<'a> {
    pub(crate) source: Source<'a>,
    pub(crate) style: Style<'a>,
}

/// Draws the entries of a history of this profile. It owns the drawer, and does nothing else.
fn draw_entries<'a, R: Read>(
    asked: &Asked<'a>,
    profile: Profile,
    reader: &mut BufReader<&mut R>,
    line: &mut Vec<u8>,
    out: &mut Output,
) -> Result<Done, Fault<'a>> {
    let mut drawer = Drawer::new(asked, profile);
    drawer.draw(reader, line, out)
}

/// Follows a history, and draws it.
#[derive(Drop)]
pub(crate) struct Drawer<'a> {
    pub(crate) shown: Source<'a>,
    style: Style<'a>,
    pub(crate) follower: Follower,
    pub(crate) fates: Fates,
    pub(crate) chart: Chart,
    // The call, before it is made, and why it was refused.
    call: Text,
    why: Text,
}

/// An entry that is to be added.
#[derive(Clone, Copy)]
struct Added<'a> {
    number: u64,
    entry: &'a Entry,
    is_shown: bool,
    handed: Option<PortId>,
}

impl<'a> Drawer<'a> {
    /// Stands at the beginning of a history of this profile. Takes no memory.
    pub(crate) fn new(asked: &Asked<'a>, profile: Profile) -> Drawer<'a> {
        Drawer {
            shown: asked.source,
            style: asked.style,
            follower: Follower::new(asked.source.alloc, profile),
            fates: Fates::new(asked.source.alloc),
            chart: Chart::new(asked.source.alloc),
            call: Text::new(asked.source.alloc),
            why: Text::new(asked.source.alloc),
        }
    }

    /// Reads all entries, and draws them.
    fn draw<R: Read>(
        &mut self,
        reader: &mut BufReader<&mut R>,
        line: &mut Vec<u8>,
        out: &mut Output,
    ) -> Result<Done, Fault<'a>> {
        let entries = self.read(reader, line, out)?;
        self.write(entries, out)
    }

    /// Reads all entries, and returns how many there are.
    fn read<R: Read>(
        &mut self,
        reader: &mut BufReader<&mut R>,
        line: &mut Vec<u8>,
        out: &mut Output,
    ) -> Result<u64, Fault<'a>> {
        for number in 1..u64::MAX - 1 {
            if next_line(self.shown.name, reader, line, out)? == 0 {
                return Ok(number.saturating_sub(1));
            }
            self.follow(number, line.as_slice())?;
        }
        Err(Fault::CannotRead(self.shown.name, TOO_MANY))
    }

    /// Makes the call of the entry of this number, whose line this is, and adds it to the chart.
    fn follow(&mut self, number: u64, line: &[u8]) -> Result<(), Fault<'static>> {
        match first_line(self.shown.alloc, line) {
            Ok((entry, _)) => self.follow_entry(number, &entry),
            Err(TextFault::Bad) => Err(bad_line(number.saturating_add(1), line)),
            Err(TextFault::OutOfMemory) => Err(Fault::OutOfMemory),
        }
    }

    /// Makes the entry's call, and adds the entry to the chart.
    pub(crate) fn follow_entry(
        &mut self,
        number: u64,
        entry: &Entry,
    ) -> Result<(), Fault<'static>> {
        let may_show = self.shown.filter.shows(number, entry);
        let is_called = may_show && self.is_call_shown(entry);
        self.describe(entry, may_show)?;
        let handed = handed_port(&self.follower, &entry.event);
        if !self.is_confirmed(number, entry)? {
            return Err(Fault::NotConfirmed(number));
        }
        let is_shown = may_show && (is_called || self.is_answer_shown(entry));
        self.add(&Added {
            number,
            entry,
            is_shown,
            handed,
        })
    }

    /// Makes the entry's call, and returns whether the kernel's reply is that of the entry.
    fn is_confirmed(&mut self, number: u64, entry: &Entry) -> Result<bool, AllocError> {
        let answered = self.fates.replay(&mut self.follower, entry, number)?;
        Ok(matches!(answered, Answered::AsSaid))
    }

    /// Adds an entry to the chart.
    fn add(&mut self, added: &Added<'_>) -> Result<(), Fault<'static>> {
        let mut told = Told {
            follower: &self.follower,
            fates: &self.fates,
            labels: self.shown.labels,
            number: added.number,
            entry: added.entry,
            is_shown: added.is_shown,
            call: &self.call,
            why: &self.why,
            handed: added.handed,
            alloc: self.shown.alloc,
        };
        if told.is_look() && !self.style.has_looks {
            told.is_shown = false;
        }
        self.chart.add(&told)?;
        Ok(())
    }

    /// Describes the entry's call, which isn't made yet, and why it was refused.
    fn describe(&mut self, entry: &Entry, may_show: bool) -> Result<(), Fault<'static>> {
        self.call.clear();
        self.why.clear();
        if !may_show {
            return Ok(());
        }
        describe_before(
            &self.follower,
            self.shown.labels,
            &entry.event,
            &mut self.call,
        );
        match (&entry.event, &entry.reply) {
            (_, Reply::Code(code)) if *code != 0 => self.write_why(entry, *code),
            (
                Event::Receive(_, _, room, _) | Event::ReceiveAgain(_, _, room, _),
                Reply::TooLarge(length),
            ) => {
                self.why
                    .around("the message has ", *length, " bytes, and ROOM is ");
                self.why.around("", *room, "");
                Ok(())
            }
            _ => Ok(()),
        }
    }

    /// Writes why the call is refused with the code.
    fn write_why(&mut self, entry: &Entry, code: u32) -> Result<(), Fault<'static>> {
        match explain(self.shown.alloc, &self.follower, &entry.event, code) {
            Ok(Some(cause)) => {
                write_cause(&cause, self.shown.labels, &mut self.why);
                Ok(())
            }
            Ok(None) => Ok(()),
            Err(_) => Err(Fault::OutOfMemory),
        }
    }

    /// Whether the entry is shown for its call, which isn't made yet.
    fn is_call_shown(&self, entry: &Entry) -> bool {
        match self.shown.filter.port {
            Some(port) => is_call_about(&self.follower, &entry.event, PortId::new(port)),
            None => true,
        }
    }

    /// Whether the entry is shown for its reply.
    fn is_answer_shown(&self, entry: &Entry) -> bool {
        match self.shown.filter.port {
            Some(port) => is_answer_about(&self.follower, entry, PortId::new(port)),
            None => true,
        }
    }

    /// Draws what waits in queues before the first row, if all entries of a window are shown.
    pub(crate) fn draw_early(&mut self) -> Result<(), AllocError> {
        let filter = self.shown.filter;
        if filter.task.is_some() || filter.port.is_some() || filter.refused {
            return Ok(());
        }
        self.chart.draw_early(self.shown.alloc)
    }

    /// Writes the chart of a history of so many entries.
    fn write(&mut self, entries: u64, out: &mut Output) -> Result<Done, Fault<'a>> {
        let filter = self.shown.filter;
        let has_window = filter.from > 0 || filter.to < u64::MAX;
        if self.chart.rows().is_empty() {
            return Ok(Done::Unseen(entries));
        }
        if self.chart.rows().len() > MOST_ROWS && !has_window {
            return Err(Fault::TooLong(entries));
        }
        self.draw_early()?;
        let mut layout = Layout::new(self.shown.alloc, &mut self.chart, self.shown.labels)?;
        if layout.lifelines() > MOST_LIFELINES {
            return Err(Fault::TooWide(layout.lifelines() as u64));
        }
        match self.style.form {
            Form::Terminal => self.write_rows(&mut layout, out)?,
            Form::Mermaid => self.write_mermaid(&layout, out)?,
            Form::Svg(scheme) => self.write_picture(&layout, scheme, out)?,
        }
        Ok(Done::Well)
    }

    /// Writes the chart for a terminal.
    fn write_rows(&mut self, layout: &mut Layout, out: &mut Output) -> Result<(), Fault<'a>> {
        let mut pen = Pen::new(self.shown.alloc);
        self.call.clear();
        if let Some(title) = self.style.title {
            self.call.plain(title.as_bytes());
            self.call.words("\n\n");
        }
        for index in 0..self.chart.rows().len() {
            pen.write_row(
                &self.chart,
                layout,
                self.shown.labels,
                index,
                &mut self.call,
            )?;
            out.write_all(self.call.whole()?)?;
            self.call.clear();
        }
        Ok(())
    }

    /// Returns the chart as SVG.
    fn picture(&self, layout: &Layout, scheme: Scheme) -> Result<Vec<u8>, AllocError> {
        let picture = picture_of(
            &self.chart,
            layout,
            self.shown.labels,
            self.style.title,
            (scheme, Part::Whole),
        );
        write_svg(self.shown.alloc, &picture)
    }

    /// Draws a part of the chart for a page.
    pub(crate) fn draw_part(&self, layout: &Layout, part: Part) -> Result<Drawing, AllocError> {
        let picture = picture_of(
            &self.chart,
            layout,
            self.shown.labels,
            self.style.title,
            (Scheme::Both, part),
        );
        draw_chart(self.shown.alloc, &picture)
    }

    /// Writes the chart as SVG.
    fn write_picture(
        &self,
        layout: &Layout,
        scheme: Scheme,
        out: &mut Output,
    ) -> Result<(), Fault<'a>> {
        let text = self.picture(layout, scheme)?;
        out.write_all(text.as_slice())?;
        out.write_all(b"\n")?;
        Ok(())
    }

    /// Writes the chart in Mermaid's notation.
    fn write_mermaid(&mut self, layout: &Layout, out: &mut Output) -> Result<(), Fault<'a>> {
        let mermaid = Mermaid {
            chart: &self.chart,
            layout,
            labels: self.shown.labels,
        };
        self.call.clear();
        mermaid.write_head(self.style.title, &mut self.call);
        for index in 0..self.chart.rows().len() {
            mermaid.write_row(index, &mut self.call)?;
            out.write_all(self.call.whole()?)?;
            self.call.clear();
        }
        out.write_all(b"\n")?;
        Ok(())
    }
}

/// Returns what of a chart is drawn, with this title and in these colours.
fn picture_of<'x>(
    chart: &'x Chart,
    layout: &'x Layout,
    labels: &'x Labels,
    title: Option<&'x str>,
    (scheme, part): (Scheme, Part),
) -> Picture<'x> {
    Picture {
        chart,
        layout,
        labels,
        title,
        scheme,
        part,
    }
}
