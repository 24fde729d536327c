//! Draws a chart.
use crate::grid::Grid;
use crate::places::{LETTER, ROW, TOP, at, fit, wide};
use crate::style::Scheme;
use mach_chart::Layout;
use mach_chart_base::{Chart, Hop, Mark, Row};
use mach_words::{Labels, Text};
use mach_xml::{Drawing, Fit, Point, Size, Time};
use std::alloc::{AllocError, Global};

/// What of a chart is drawn.
#[derive(Clone, Copy, PartialEq, Eq)]
pub enum Part {
    /// All, at least 1,280 pixels wide.
    Whole,
    /// The rows, for a page: each row has the number of its entry, and there are two rectangles of the classes `pick` and
    /// `veil`, which have no height. At least 690 pixels wide, without rules and names.
    Rows,
    /// The names of the lifelines over these rows.
    Names,
}

/// A chart that is to be drawn.
#[derive(Clone, Copy)]
pub struct Picture<'a> {
    /// The chart.
    pub chart: &'a Chart,
    /// Its layout.
    pub layout: &'a Layout,
    /// The labels.
    pub labels: &'a Labels,
    /// Its title, if it has one.
    pub title: Option<&'a str>,
    /// Its colours, if it is drawn whole.
    pub scheme: Scheme,
    /// What is drawn.
    pub part: Part,
}

/// Draws a chart on its grid.
#[derive(Clone, Copy)]
pub(crate) struct Painter<'a> {
    pub(crate) part: Part,
    pub(crate) chart: &'a Chart,
    pub(crate) layout: &'a Layout,
    pub(crate) labels: &'a Labels,
    pub(crate) grid: &'a Grid,
}

/// A row that is drawn.
#[derive(Clone, Copy)]
pub(crate) struct Drawn<'a> {
    pub(crate) row: Row,
    pub(crate) index: usize,
    /// The hops that the row shows.
    pub(crate) hops: &'a [Hop],
    /// The place of its mark.
    pub(crate) mark: Point,
}

/// Draws a chart, or a part of it. Returns `AllocError` if out of memory. Linear in the rows and hops, for each in the
/// lifelines, and in the comments.
pub fn draw_chart(alloc: Global, picture: &Picture<'_>) -> Result<Drawing, AllocError> {
    let grid = Grid::new(alloc, picture)?;
    let painter = Painter {
        part: picture.part,
        chart: picture.chart,
        layout: picture.layout,
        labels: picture.labels,
        grid: &grid,
    };
    let mut scratch = Text::new(alloc);
    if picture.part == Part::Names {
        return painter.draw_only_names(alloc, &mut scratch);
    }
    let rules = match picture.part {
        Part::Whole => picture.scheme.rules(),
        _ => "",
    };
    let mut drawing = Drawing::new(alloc, grid.size, rules);
    painter.draw_back(&mut drawing);
    painter.draw_lifelines(&mut drawing);
    painter.draw_waits(alloc, &mut drawing)?;
    painter.draw_bars(alloc, &mut drawing)?;
    let title = picture.title.unwrap_or("message sequence chart");
    drawing.end_group("ground", title.as_bytes());
    painter.draw_rows(&mut drawing, &mut scratch)?;
    if picture.part == Part::Whole {
        painter.draw_names(&mut drawing, &mut scratch)?;
        drawing.end_group("names", b"tasks");
    } else {
        drawing.rect("veil", at(0, TOP), painter.row_of_no_height());
        drawing.end_group("later", b"");
    }
    Ok(drawing)
}

impl<'a> Painter<'a> {
    /// Draws the ground, and a band behind every second entry.
    fn draw_back(&self, drawing: &mut Drawing) {
        if self.part == Part::Whole {
            drawing.rect("back", at(0, 0), self.grid.size);
        }
        let mut is_odd = false;
        let mut first = 0;
        for index in 0..self.chart.rows().len() {
            if self.begins_entry(index) {
                is_odd = !is_odd;
                first = index;
            }
            if is_odd && self.begins_entry(index.saturating_add(1)) {
                let top = self.grid.rows.top(first);
                let bottom = self.grid.rows.top(index).saturating_add(ROW);
                let size = Size {
                    width: self.grid.size.width,
                    height: bottom.saturating_sub(top),
                };
                drawing.rect("band", at(0, top), size);
            }
        }
        if self.part == Part::Rows {
            drawing.rect("pick", at(0, TOP), self.row_of_no_height());
        }
    }

    /// Returns the size of a row that can't be seen.
    fn row_of_no_height(&self) -> Size {
        Size {
            width: self.grid.size.width,
            height: 0,
        }
    }

    /// Draws the names of the lifelines alone.
    fn draw_only_names(&self, alloc: Global, scratch: &mut Text) -> Result<Drawing, AllocError> {
        let size = Size {
            width: self.grid.size.width,
            height: TOP.saturating_sub(10),
        };
        let mut drawing = Drawing::new(alloc, size, "");
        self.draw_names(&mut drawing, scratch)?;
        drawing.end_group("names", b"tasks");
        Ok(drawing)
    }

    /// Whether the row at this index is the first of an entry, or none has the index.
    pub(crate) fn begins_entry(&self, index: usize) -> bool {
        match self.chart.rows().get(index).copied() {
            Some(row) => row.is_first(),
            None => true,
        }
    }

    /// Draws the marks, arrows and comments of all rows, a group a row.
    fn draw_rows(&self, drawing: &mut Drawing, scratch: &mut Text) -> Result<(), AllocError> {
        let mut first_hop = 0;
        let mut is_odd = false;
        for index in 0..self.chart.rows().len() {
            let Some(row) = self.chart.rows().get(index).copied() else {
                break;
            };
            is_odd ^= row.is_first();
            let hops = self.hops_of(index, &mut first_hop);
            let drawn = Drawn {
                row,
                index,
                hops,
                mark: self.mark_of(&row, index),
            };
            self.draw_mark(&drawn, drawing, scratch)?;
            self.draw_stem(&drawn, drawing);
            self.draw_number(&drawn, drawing, scratch)?;
            self.draw_comment(&drawn, drawing)?;
            self.write_title(&drawn, scratch)?;
            let time = match self.part {
                Part::Rows => Time::Entry(row.number),
                _ => Time::Always,
            };
            let class = if is_odd { "odd" } else { "even" };
            drawing.end_group_of(class, time, scratch.whole()?);
        }
        Ok(())
    }

    /// Returns the place of a row's mark.
    fn mark_of(&self, row: &Row, index: usize) -> Point {
        let lifeline = self.layout.lifeline(row.task, row.caller).unwrap_or(0);
        at(self.grid.lifeline(lifeline), self.grid.rows.middle(index))
    }

    /// Returns the hops that the row at this index shows, and passes them and those before.
    fn hops_of(&self, index: usize, first_hop: &mut usize) -> &'a [Hop] {
        let hops = self.chart.hops();
        let mut from = *first_hop;
        for place in from..hops.len() {
            match hops.get(place) {
                Some(hop) if hop.row < index || !hop.is_shown => {
                    from = place.saturating_add(1);
                }
                _ => break,
            }
        }
        let mut to = from;
        for place in from..hops.len() {
            match hops.get(place) {
                Some(hop) if hop.is_shown && hop.row == index => {
                    to = place.saturating_add(1);
                }
                _ => break,
            }
        }
        *first_hop = to;
        hops.get(from..to).unwrap_or(&[])
    }

    /// Draws a dotted line from the first row of an entry to the last notice of its step.
    fn draw_stem(&self, drawn: &Drawn<'_>, drawing: &mut Drawing) {
        if !drawn.row.is_first() {
            return;
        }
        let mut last = drawn.index;
        for index in drawn.index.saturating_add(1)..self.chart.rows().len() {
            match self.chart.rows().get(index).copied() {
                Some(row) if row.mark == Mark::Told => {
                    last = index;
                }
                Some(row) if !row.is_first() => {}
                _ => break,
            }
        }
        if last > drawn.index {
            let from = at(drawn.mark.x, drawn.mark.y.saturating_add(80));
            drawing.line("stem", from, at(drawn.mark.x, self.grid.rows.middle(last)));
        }
    }

    /// Writes the number of an entry beside its first row.
    fn draw_number(
        &self,
        drawn: &Drawn<'_>,
        drawing: &mut Drawing,
        scratch: &mut Text,
    ) -> Result<(), AllocError> {
        if !drawn.row.is_first() {
            return Ok(());
        }
        scratch.clear();
        scratch.number(drawn.row.number);
        let number = scratch.whole()?;
        let x = 400u32.saturating_sub(wide(number.len(), LETTER));
        drawing.letters(
            "dim",
            at(x, drawn.mark.y.saturating_add(40)),
            number,
            NUMBERS,
        );
        Ok(())
    }

    /// Writes the comment of a row, and the code of a refusal, which is never cut.
    fn draw_comment(&self, drawn: &Drawn<'_>, drawing: &mut Drawing) -> Result<(), AllocError> {
        let comment = self.chart.comment(drawn.index)?;
        let reply = self.chart.reply(drawn.index)?;
        let is_first = drawn.row.is_first();
        let x = self
            .grid
            .comments
            .saturating_add(if is_first { 0 } else { 140 });
        let y = drawn.mark.y.saturating_add(40);
        let end = self.grid.size.width.saturating_sub(100);
        let tail = wide(reply.len(), LETTER).saturating_add(if reply.is_empty() { 0 } else { 240 });
        let most = fit(x.saturating_add(tail), end, LETTER);
        let is_dim = !is_first || drawn.row.mark == Mark::Looked;
        let class = if is_dim { "dim" } else { "plain" };
        drawing.letters(
            class,
            at(x, y),
            comment,
            Fit {
                most,
                pitch: LETTER,
            },
        );
        if !reply.is_empty() {
            let behind = x.saturating_add(wide(comment.len().min(most), LETTER));
            draw_cross(drawing, at(behind.saturating_add(120), drawn.mark.y), 35);
            let most = fit(behind.saturating_add(220), end, LETTER);
            drawing.letters(
                "code",
                at(behind.saturating_add(220), y),
                reply,
                Fit {
                    most,
                    pitch: LETTER,
                },
            );
        }
        Ok(())
    }

    /// Writes what a reader who points at a row is told.
    fn write_title(&self, drawn: &Drawn<'_>, out: &mut Text) -> Result<(), AllocError> {
        let comment = self.chart.comment(drawn.index)?;
        let reply = self.chart.reply(drawn.index)?;
        out.clear();
        out.words("entry ");
        out.number(drawn.row.number);
        out.words(": ");
        out.plain(comment);
        if !reply.is_empty() {
            out.words(" ! ");
            out.plain(reply);
        }
        Ok(())
    }

    /// Returns the place of the top of a row, or of the picture's if it is the first.
    pub(crate) fn top_of(&self, index: usize) -> u32 {
        if index == 0 {
            return TOP;
        }
        if index >= self.grid.rows.count {
            return self.grid.rows.bottom();
        }
        self.grid.rows.top(index)
    }
}

/// How an entry's number fits.
const NUMBERS: Fit = Fit {
    most: 20,
    pitch: LETTER,
};

/// Draws a cross about a place. It reaches so far to each side.
pub(crate) fn draw_cross(drawing: &mut Drawing, center: Point, reach: u32) {
    draw_cross_of("cross", drawing, center, reach);
}

/// Draws a cross of this class.
pub(crate) fn draw_cross_of(class: &'static str, drawing: &mut Drawing, center: Point, reach: u32) {
    let left = center.x.saturating_sub(reach);
    let right = center.x.saturating_add(reach);
    let top = center.y.saturating_sub(reach);
    let bottom = center.y.saturating_add(reach);
    drawing.line(class, at(left, top), at(right, bottom));
    drawing.line(class, at(right, top), at(left, bottom));
}
