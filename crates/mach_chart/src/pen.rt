//! Draws a chart for a terminal, row by row.
use crate::cells::Cell;
use crate::drawing::Canvas;
use crate::layout::{Layout, digits_of, write_label};
use mach_chart_base::{Chart, Hop, Mark, Row, Way, write_name};
use mach_words::{Labels, Text};
use std::alloc::{AllocError, Global};

/// After how many rows the names stand again.
const NAMES_EVERY: usize = 40;

/// Draws the rows of a chart, one after another.
#[derive(Drop)]
pub struct Pen {
    canvas: Canvas,
    label: Text,
    // The index of the row's first hop.
    first_hop: usize,
}

/// A row that is drawn.
#[derive(Clone, Copy)]
struct Drawn<'a> {
    labels: &'a Labels,
    row: Row,
    // The hops that the row shows.
    hops: &'a [Hop],
    // The place of its lifeline.
    at: usize,
}

impl Pen {
    /// Stands at the first row. Takes no memory.
    pub fn new(alloc: Global) -> Pen {
        Pen {
            canvas: Canvas::new(alloc),
            label: Text::new(alloc),
            first_hop: 0,
        }
    }

    /// Writes the next row, which has this index. Every 40 rows the names of the lifelines stand before it.
    ///
    /// Returns `AllocError` if out of memory. Linear in the width of the chart and in the hops of the row.
    pub fn write_row(
        &mut self,
        chart: &Chart,
        layout: &mut Layout,
        labels: &Labels,
        index: usize,
        out: &mut Text,
    ) -> Result<(), AllocError> {
        let Some(row) = chart.rows().get(index).copied() else {
            return Ok(());
        };
        if index % NAMES_EVERY == 0 {
            self.write_names(layout, labels, out)?;
        }
        self.hop_unseen(chart, layout, index);
        let hops = self.hops_of(chart, index);
        self.begin(chart, layout, &row, index)?;
        let drawn = Drawn {
            labels,
            row,
            hops,
            at: layout.place_of(&row),
        };
        self.draw(layout, &drawn)?;
        layout.end_row(&row, hops);
        self.first_hop = self.first_hop.saturating_add(hops.len());
        write_number(layout, &row, out);
        self.write_cells(out);
        write_comment(chart, index, &row, out)
    }

    /// Passes the hops that come before the row, in entries that aren't shown.
    fn hop_unseen(&mut self, chart: &Chart, layout: &mut Layout, index: usize) {
        for at in self.first_hop..chart.hops().len() {
            match chart.hops().get(at) {
                Some(hop) if !hop.is_shown && hop.row <= index => {
                    if chart.is_drawn(hop.serial) {
                        layout.note_hop(hop);
                    }
                    self.first_hop = at.saturating_add(1);
                }
                _ => break,
            }
        }
    }

    /// Returns the hops that the row shows.
    fn hops_of<'a>(&self, chart: &'a Chart, index: usize) -> &'a [Hop] {
        let mut end = self.first_hop;
        for at in self.first_hop..chart.hops().len() {
            match chart.hops().get(at) {
                Some(hop) if hop.is_shown && hop.row == index => {
                    end = at.saturating_add(1);
                }
                _ => break,
            }
        }
        chart.hops().get(self.first_hop..end).unwrap_or(&[])
    }

    /// Draws the lifelines and lanes of a row.
    fn begin(
        &mut self,
        chart: &Chart,
        layout: &mut Layout,
        row: &Row,
        index: usize,
    ) -> Result<(), AllocError> {
        if row.is_first() {
            layout.set_waiting(row, false);
        }
        self.canvas.clear(layout.width)?;
        for lifeline in layout.lifelines.as_slice() {
            if chart.is_alive(lifeline.task, index) {
                let cell = if lifeline.is_waiting {
                    Cell::Waiting
                } else {
                    Cell::Life
                };
                self.canvas.put(lifeline.at, cell);
            }
        }
        self.draw_lanes(layout);
        Ok(())
    }

    /// Draws the lanes that have a message.
    fn draw_lanes(&mut self, layout: &Layout) {
        for column in layout.columns.as_slice() {
            for lane in 0..column.lanes {
                if column.busy.is_used(lane) {
                    self.canvas.put(column.lane_at(lane), Cell::Lane);
                }
            }
        }
    }

    /// Draws the mark of a row.
    fn draw(&mut self, layout: &Layout, drawn: &Drawn<'_>) -> Result<(), AllocError> {
        match drawn.row.mark {
            Mark::Sent => self.draw_in(layout, drawn, Cell::Message),
            Mark::Told => self.draw_in(layout, drawn, Cell::Notice),
            Mark::Received => self.draw_out(layout, drawn),
            Mark::Handed => self.draw_handed(layout, drawn),
            Mark::Moved => {
                self.draw_along(layout, drawn.hops);
                Ok(())
            }
            Mark::Why => Ok(()),
            mark => {
                self.draw_crosses(layout, drawn.hops);
                if let Some(cell) = cell_of(mark, drawn.row.is_waiting) {
                    self.canvas.put(drawn.at, cell);
                }
                Ok(())
            }
        }
    }

    /// Draws a message that goes into a queue.
    fn draw_in(
        &mut self,
        layout: &Layout,
        drawn: &Drawn<'_>,
        arrow: Cell,
    ) -> Result<(), AllocError> {
        let Some(to) = layout.place_of_hop(drawn.hops.first()) else {
            return Ok(());
        };
        let is_right = to > drawn.at;
        self.canvas.run(drawn.at, to, arrow);
        self.canvas.put(
            drawn.at,
            if is_right {
                Cell::ToRight
            } else {
                Cell::ToLeft
            },
        );
        self.canvas.put(
            to,
            if is_right {
                Cell::InFromLeft
            } else {
                Cell::InFromRight
            },
        );
        self.write_on(drawn, to)
    }

    /// Writes the label of a row's arrow, which goes to this place.
    fn write_on(&mut self, drawn: &Drawn<'_>, to: usize) -> Result<(), AllocError> {
        self.label.clear();
        write_label(&drawn.row, drawn.labels, &mut self.label);
        self.canvas.label(drawn.at, to, self.label.whole()?);
        Ok(())
    }

    /// Draws a message that goes from a queue to its receiver.
    fn draw_out(&mut self, layout: &Layout, drawn: &Drawn<'_>) -> Result<(), AllocError> {
        let Some(from) = layout.place_of_hop(drawn.hops.first()) else {
            return Ok(());
        };
        self.canvas.run(drawn.at, from, Cell::Message);
        self.canvas.put(from, Cell::OutToLeft);
        self.canvas.put(drawn.at.saturating_add(1), Cell::Taken);
        self.label.clear();
        write_name(
            drawn.row.id,
            drawn.row.is_notice,
            drawn.labels,
            &mut self.label,
        );
        let short = cut(self.label.whole()?, layout.gap.saturating_sub(4));
        self.canvas.letters_if_blank(from.saturating_add(2), short);
        Ok(())
    }

    /// Draws a right that is handed to another task.
    fn draw_handed(&mut self, layout: &Layout, drawn: &Drawn<'_>) -> Result<(), AllocError> {
        let from = layout.place_of_task(drawn.row.task);
        let to = layout.place_of_task(drawn.row.other);
        self.canvas.put(from, Cell::From);
        if from == to {
            return Ok(());
        }
        self.canvas.run(from, to, Cell::Handed);
        if to > from {
            self.canvas.put(to.saturating_sub(1), Cell::HandedRight);
        } else {
            self.canvas.put(to.saturating_add(1), Cell::HandedLeft);
        }
        self.label.clear();
        write_label(&drawn.row, drawn.labels, &mut self.label);
        self.canvas.label(from, to, self.label.whole()?);
        Ok(())
    }

    /// Draws messages that go along to another task's lanes: each leaves a lane in one hop, and goes into one in the next. The
    /// ends of all come after their arrows, so that none is drawn over.
    fn draw_along(&mut self, layout: &Layout, hops: &[Hop]) {
        for place in 0..hops.len() {
            if let Some((from, to)) = move_at(layout, hops, place) {
                self.canvas.run(from, to, Cell::Along);
            }
        }
        for place in 0..hops.len() {
            if let Some((from, to)) = move_at(layout, hops, place) {
                self.draw_ends(from, to);
            }
        }
    }

    /// Draws the ends of the arrow of a message that goes along from a lane to another.
    fn draw_ends(&mut self, from: usize, to: usize) {
        if to > from {
            self.canvas.put(from, Cell::AlongOutRight);
            self.canvas.put(to, Cell::AlongInLeft);
        } else {
            self.canvas.put(from, Cell::AlongOutLeft);
            self.canvas.put(to, Cell::AlongInRight);
        }
    }

    /// Draws a cross for each message that is destroyed.
    fn draw_crosses(&mut self, layout: &Layout, hops: &[Hop]) {
        for hop in hops {
            if let Some(at) = layout.place_of_hop(Some(hop)) {
                self.canvas.put(at, Cell::Refused);
            }
        }
    }

    /// Writes the cells.
    fn write_cells(&self, out: &mut Text) {
        for cell in self.canvas.cells.as_slice() {
            cell.write(out);
        }
    }

    /// Writes the names of the lifelines in a line, each over the middle of its lifeline.
    fn write_names(
        &mut self,
        layout: &Layout,
        labels: &Labels,
        out: &mut Text,
    ) -> Result<(), AllocError> {
        let margin = out
            .len()
            .saturating_add(layout.number_width)
            .saturating_add(1);
        for lifeline in layout.lifelines.as_slice() {
            self.label.clear();
            layout.write_name(lifeline, labels, &mut self.label);
            let name = cut(self.label.whole()?, layout.longest_name(lifeline));
            let at = margin.saturating_add(lifeline.at);
            fill_to(at.saturating_sub(name.len() / 2), out);
            out.plain(name);
        }
        out.words("\n");
        Ok(())
    }
}

/// Returns the lanes from which and to which a message goes along, if the hop at this place leaves a lane.
fn move_at(layout: &Layout, hops: &[Hop], place: usize) -> Option<(usize, usize)> {
    let hop = hops.get(place)?;
    if hop.way != Way::Out {
        return None;
    }
    let from = layout.place_of_hop(Some(hop))?;
    let to = layout.place_of_hop(hops.get(place.saturating_add(1)))?;
    Some((from, to))
}

/// Returns the first bytes of a name, at most so many.
fn cut(name: &[u8], most: usize) -> &[u8] {
    name.get(..most).unwrap_or(name)
}

/// Appends spaces up to this length.
fn fill_to(end: usize, out: &mut Text) {
    for _ in out.len()..end {
        out.words(" ");
    }
}

/// Returns the cell of a mark at a lifeline. A caller that waits from the row on has that of a receive that found no message.
fn cell_of(mark: Mark, is_waiting: bool) -> Option<Cell> {
    match mark {
        Mark::Refused if is_waiting => Some(Cell::Empty),
        Mark::Made => Some(Cell::Made),
        Mark::Called => Some(Cell::Called),
        Mark::Looked => Some(Cell::Looked),
        Mark::Refused => Some(Cell::Refused),
        Mark::Empty => Some(Cell::Empty),
        Mark::Ended => Some(Cell::Ended),
        Mark::Died => Some(Cell::Died),
        _ => None,
    }
}

/// Writes the number of a row's entry, or spaces if it isn't the first row.
fn write_number(layout: &Layout, row: &Row, out: &mut Text) {
    let digits = if row.is_first() {
        digits_of(row.number)
    } else {
        0
    };
    fill_to(
        out.len()
            .saturating_add(layout.number_width)
            .saturating_sub(digits),
        out,
    );
    if row.is_first() {
        out.number(row.number);
    }
    out.words(" ");
}

impl Layout {
    /// Returns the place of a row's lifeline.
    fn place_of(&self, row: &Row) -> usize {
        match self.lifeline(row.task, row.caller) {
            Some(index) => self.place_at(index),
            None => 0,
        }
    }

    /// Returns the place of the lifeline at this index.
    fn place_at(&self, index: usize) -> usize {
        match self.lifelines.get(index) {
            Some(lifeline) => lifeline.at,
            None => 0,
        }
    }

    /// Returns the place of a task's first lifeline.
    fn place_of_task(&self, task: u32) -> usize {
        match self.column(task) {
            Some(column) => self.place_at(column.first),
            None => 0,
        }
    }

    /// Returns the place of the lane of a hop.
    fn place_of_hop(&self, hop: Option<&Hop>) -> Option<usize> {
        let hop = hop?;
        let column = self.column(hop.task)?;
        Some(column.lane_at(hop.lane))
    }

    /// Notes a hop at its lane.
    fn note_hop(&mut self, hop: &Hop) {
        if let Some(column) = self.column_mut(hop.task) {
            column.busy.note(hop.lane, hop.way);
        }
    }

    /// Notes whether the caller of a row waits.
    fn set_waiting(&mut self, row: &Row, is_waiting: bool) {
        let Some(index) = self.lifeline(row.task, row.caller) else {
            return;
        };
        if let Some(lifeline) = self.lifelines.get_mut(index) {
            lifeline.is_waiting = is_waiting;
        }
    }

    /// Notes the hops of a row, and whether its caller waits from it on.
    fn end_row(&mut self, row: &Row, hops: &[Hop]) {
        for hop in hops {
            self.note_hop(hop);
        }
        if row.is_waiting {
            self.set_waiting(row, true);
        }
    }
}

/// Writes the comment of a row, and ends the line.
fn write_comment(chart: &Chart, index: usize, row: &Row, out: &mut Text) -> Result<(), AllocError> {
    out.words(if row.is_first() { "  " } else { "    " });
    out.plain(chart.comment(index)?);
    match row.mark {
        Mark::Refused => {
            out.words(if row.is_waiting {
                "  ◌ waits, "
            } else {
                "  ✗ "
            });
            out.plain(chart.reply(index)?);
        }
        Mark::Empty if row.is_waiting => out.words("  ◌ waits"),
        Mark::Empty => out.words("  ◌ no message"),
        _ => {}
    }
    out.words("\n");
    Ok(())
}
