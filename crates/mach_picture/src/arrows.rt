//! The marks and arrows of rows.
use crate::painter::{Drawn, Painter, draw_cross, draw_cross_of};
use crate::places::{SMALL, at, fit, wide};
use crate::survey::write_beside;
use mach_chart::write_label;
use mach_chart_base::{Mark, Way};
use mach_words::Text;
use mach_xml::{Drawing, Fit, Point, Size};
use std::alloc::AllocError;

/// How many letters stand beside a lane or a lifeline at most.
const BESIDE: usize = 24;
/// The least place of a label.
const LEFT: u32 = 440;

impl<'a> Painter<'a> {
    /// Draws the mark of a row.
    pub(crate) fn draw_mark(
        &self,
        drawn: &Drawn<'_>,
        drawing: &mut Drawing,
        scratch: &mut Text,
    ) -> Result<(), AllocError> {
        match drawn.row.mark {
            Mark::Sent | Mark::Told => self.draw_sent(drawn, drawing, scratch),
            Mark::Received => self.draw_received(drawn, drawing, scratch),
            Mark::Handed => self.draw_handed(drawn, drawing, scratch),
            Mark::Moved => {
                self.draw_moved(drawn, drawing);
                Ok(())
            }
            Mark::Why => Ok(()),
            mark => {
                self.draw_lost(drawn, drawing);
                draw_sign(mark, drawn.mark, drawing);
                let apart = if mark == Mark::Empty { 90 } else { 120 };
                self.draw_beside(drawn, drawn.mark.x.saturating_add(apart), drawing, scratch)
            }
        }
    }

    /// Draws a message that goes into a queue.
    fn draw_sent(
        &self,
        drawn: &Drawn<'_>,
        drawing: &mut Drawing,
        scratch: &mut Text,
    ) -> Result<(), AllocError> {
        let Some(hop) = drawn.hops.first() else {
            return Ok(());
        };
        let is_notice = drawn.row.is_notice;
        let to = self.grid.lane(self.layout, hop);
        drawing.line(
            if is_notice { "note" } else { "message" },
            drawn.mark,
            at(to, drawn.mark.y),
        );
        drawing.circle(if is_notice { "dot-note" } else { "dot" }, drawn.mark, 30);
        self.draw_label(drawn, to, drawing, scratch)
    }

    /// Writes the label of a row's arrow, which goes to this place: beside the sender, over the line, or beyond a short line.
    fn draw_label(
        &self,
        drawn: &Drawn<'_>,
        to: u32,
        drawing: &mut Drawing,
        scratch: &mut Text,
    ) -> Result<(), AllocError> {
        scratch.clear();
        write_label(&drawn.row, self.labels, scratch);
        let label = scratch.whole()?;
        let end = self.grid.comments.saturating_sub(80);
        let most = fit(LEFT, end, SMALL);
        let length = wide(label.len().min(most), SMALL);
        let from = drawn.mark.x;
        let is_long = to.max(from).saturating_sub(to.min(from)) > length.saturating_add(160);
        let x = if !is_long {
            to.max(from).saturating_add(80)
        } else if to > from {
            from.saturating_add(80)
        } else {
            from.saturating_sub(80).saturating_sub(length)
        };
        let x = x.min(end.saturating_sub(length)).max(LEFT);
        let y = drawn.mark.y.saturating_sub(40);
        let class = match drawn.row.mark {
            Mark::Sent => "on",
            Mark::Told => "on-note",
            _ => "on-dim",
        };
        drawing.label(class, at(x, y), label, Fit { most, pitch: SMALL });
        Ok(())
    }

    /// Draws a message that goes from a queue to its receiver.
    fn draw_received(
        &self,
        drawn: &Drawn<'_>,
        drawing: &mut Drawing,
        scratch: &mut Text,
    ) -> Result<(), AllocError> {
        let Some(hop) = drawn.hops.first() else {
            return Ok(());
        };
        let is_notice = drawn.row.is_notice;
        let from = self.grid.lane(self.layout, hop);
        let Point { x, y } = drawn.mark;
        drawing.line(
            if is_notice { "note" } else { "message" },
            at(from, y),
            at(x.saturating_add(70), y),
        );
        let back = x.saturating_add(90);
        let corners = [
            drawn.mark,
            at(back, y.saturating_sub(45)),
            at(back, y.saturating_add(45)),
        ];
        drawing.triangle(if is_notice { "dot-note" } else { "dot" }, corners);
        self.draw_beside(drawn, from.saturating_add(80), drawing, scratch)
    }

    /// Writes what stands beside a row's lane or lifeline, if anything does.
    fn draw_beside(
        &self,
        drawn: &Drawn<'_>,
        from: u32,
        drawing: &mut Drawing,
        scratch: &mut Text,
    ) -> Result<(), AllocError> {
        scratch.clear();
        write_beside(&drawn.row, self.labels, scratch);
        let name = scratch.whole()?;
        let class = if drawn.row.is_notice {
            "on-note"
        } else {
            "on-dim"
        };
        let end = self.grid.comments.saturating_sub(80);
        let most = fit(from, end, SMALL).min(BESIDE);
        let y = drawn.mark.y.saturating_add(40);
        drawing.letters(class, at(from, y), name, Fit { most, pitch: SMALL });
        Ok(())
    }

    /// Draws a right that is handed to another task.
    fn draw_handed(
        &self,
        drawn: &Drawn<'_>,
        drawing: &mut Drawing,
        scratch: &mut Text,
    ) -> Result<(), AllocError> {
        let from = self.place_of_task(drawn.row.task);
        let to = self.place_of_task(drawn.row.other);
        let y = drawn.mark.y;
        if from != to {
            drawing.line("give", at(from, y), at(to, y));
            let back = if to > from {
                to.saturating_sub(80)
            } else {
                to.saturating_add(80)
            };
            let corners = [
                at(to, y),
                at(back, y.saturating_sub(40)),
                at(back, y.saturating_add(40)),
            ];
            drawing.triangle("hollow", corners);
        }
        drawing.circle("hollow", at(from, y), 30);
        let mut placed = *drawn;
        placed.mark.x = from;
        self.draw_label(&placed, to, drawing, scratch)
    }

    /// Returns the place of a task's first lifeline.
    fn place_of_task(&self, task: u32) -> u32 {
        match self.layout.column_index(task) {
            Some(index) => match self.layout.columns().get(index) {
                Some(column) => self.grid.lifeline(column.first),
                None => 0,
            },
            None => 0,
        }
    }

    /// Draws messages that go along to another task's lanes: each leaves a lane in one hop, and goes into one in the next.
    fn draw_moved(&self, drawn: &Drawn<'_>, drawing: &mut Drawing) {
        let mut before = None;
        for hop in drawn.hops {
            let x = self.grid.lane(self.layout, hop);
            match (hop.way, before) {
                (Way::In, Some(from)) => {
                    drawing.line("queue", at(from, drawn.mark.y), at(x, drawn.mark.y));
                    before = None;
                }
                (Way::Out, _) => {
                    before = Some(x);
                }
                _ => {}
            }
        }
    }

    /// Draws a cross for each message that is destroyed in a row.
    fn draw_lost(&self, drawn: &Drawn<'_>, drawing: &mut Drawing) {
        for hop in drawn.hops {
            draw_cross(
                drawing,
                at(self.grid.lane(self.layout, hop), drawn.mark.y),
                50,
            );
        }
    }
}

/// Draws the sign of a mark at a lifeline.
fn draw_sign(mark: Mark, place: Point, drawing: &mut Drawing) {
    match mark {
        Mark::Made => {
            let left = at(place.x.saturating_sub(70), place.y);
            drawing.line("end", left, at(place.x.saturating_add(70), place.y));
        }
        Mark::Called => drawing.circle("dot", place, 35),
        Mark::Looked => drawing.circle("ring", place, 25),
        Mark::Empty => drawing.circle("ring", place, 40),
        Mark::Refused => draw_cross(drawing, place, 50),
        Mark::Ended => draw_cross_of("end", drawing, place, 70),
        Mark::Died => {
            let corner = at(place.x.saturating_sub(70), place.y.saturating_sub(70));
            let size = Size {
                width: 140,
                height: 140,
            };
            drawing.rect("box", corner, size);
            draw_cross(drawing, place, 45);
        }
        _ => {}
    }
}
