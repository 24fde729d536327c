//! Draws the lines from names and messages to ports.
use crate::paint::Painter;
use crate::places::{PORT_LEFT, TASK_LEFT, TASK_WIDTH, at};
use mach_scene_base::{Frame, PORT_WIDTH, Row, Spot, Thing, Tied};
use mach_xml::{Drawing, Point, Size};

impl<'a> Painter<'a> {
    /// Draws the lines that leave a thing.
    pub(crate) fn draw_lines(&self, spot: Spot, thing: &Thing, drawing: &mut Drawing) {
        match (spot, thing) {
            (Spot::Row(task, row), Thing::Name(name)) => {
                self.draw_edge((task, row), name, drawing);
            }
            (Spot::Port(port), Thing::Port(frame)) => self.draw_requests(port, frame, drawing),
            (Spot::Message(..), _) => {}
            (Spot::Right(port, _), Thing::Right(tied)) => self.draw_right(port, tied, drawing),
            _ => {}
        }
    }

    /// Returns the top of the port of this identity, if it has a place.
    fn top_of(&self, identity: u64) -> Option<u32> {
        let first = self.scene.ports().first()?.identity;
        let number = usize::try_from(identity.checked_sub(first)?).ok()?;
        self.scene.ports().get(number)?;
        Some(self.plan.port(number))
    }

    /// Draws the line from a name to its port, and that of its request.
    fn draw_edge(&self, (task, row): (usize, usize), name: &Row, drawing: &mut Drawing) {
        let y = self.plan.row(task, row);
        let x = TASK_LEFT.saturating_add(TASK_WIDTH);
        if name.kind.has_port() {
            if let Some(top) = self.top_of(name.about) {
                let from = at(x, y.saturating_sub(40));
                if name.kind.receives() {
                    let to = at(PORT_LEFT, top.saturating_add(120));
                    drawing.curve(name.kind.line(), bend(from, to, 600));
                    let corner = at(to.x.saturating_sub(35), to.y.saturating_sub(35));
                    let size = Size {
                        width: 70,
                        height: 70,
                    };
                    drawing.rect("dot", corner, size);
                } else {
                    let turn = u32::try_from(task % 4).unwrap_or(0);
                    let to = at(
                        PORT_LEFT,
                        top.saturating_add(300)
                            .saturating_add(turn.saturating_mul(50)),
                    );
                    let short = at(to.x.saturating_sub(80), to.y);
                    drawing.curve(name.kind.line(), bend(from, short, 600));
                    drawing.triangle("dot", head(to, short.x, 40));
                }
            }
        }
        if let Some(told) = name.told {
            if let Some(top) = self.top_of(told) {
                let from = at(x, y.saturating_sub(10));
                let to = at(PORT_LEFT, top.saturating_add(500));
                let short = at(to.x.saturating_sub(70), to.y);
                drawing.curve("asked", bend(from, short, 500));
                drawing.triangle("dot-note", head(to, short.x, 30));
            }
        }
    }

    /// Draws the lines of a port's requests.
    fn draw_requests(&self, port: usize, frame: &Frame, drawing: &mut Drawing) {
        for told in [frame.no_senders, frame.port_destroyed] {
            if let Some(told) = told {
                if let Some(top) = self.top_of(told) {
                    let x = PORT_LEFT.saturating_add(PORT_WIDTH);
                    let from = at(x, self.plan.port(port).saturating_add(120));
                    let to = at(x, top.saturating_add(80));
                    draw_gutter("asked", "dot-note", (from, to, 340), drawing);
                }
            }
        }
    }

    /// Draws the line from the foot of a message to the port of a right that it carries.
    fn draw_right(&self, port: usize, tied: &Tied, drawing: &mut Drawing) {
        let Some(top) = self.top_of(tied.port) else {
            return;
        };
        let from = self.plan.port(port);
        let class = tied.kind.line();
        let x = PORT_LEFT.saturating_add(tied.left);
        let level = from
            .saturating_add(590)
            .saturating_add(tied.line.saturating_mul(25));
        let edge = PORT_LEFT.saturating_add(PORT_WIDTH);
        drawing.line(class, at(x, from.saturating_add(560)), at(x, level));
        drawing.line(class, at(x, level), at(edge, level));
        let to = at(
            edge,
            top.saturating_add(140)
                .saturating_add(tied.way.saturating_mul(90)),
        );
        draw_gutter(class, "dot", (at(edge, level), to, 460), drawing);
    }
}

/// Returns a curve that leaves a place to the right, and comes to another from the left.
fn bend(from: Point, to: Point, reach: u32) -> [Point; 4] {
    [
        from,
        at(from.x.saturating_add(reach), from.y),
        at(to.x.saturating_sub(reach), to.y),
        to,
    ]
}

/// Draws a curve through the gutter at the right, and the head of its arrow.
fn draw_gutter(
    class: &'static str,
    head_class: &'static str,
    (from, to, reach): (Point, Point, u32),
    drawing: &mut Drawing,
) {
    let end = at(to.x.saturating_add(70), to.y);
    drawing.curve(
        class,
        [
            from,
            at(from.x.saturating_add(reach), from.y),
            at(to.x.saturating_add(reach), to.y),
            end,
        ],
    );
    drawing.triangle(head_class, head(to, end.x, 35));
}

/// Returns the head of an arrow: its tip, and the place and half the length of its back.
fn head(tip: Point, back: u32, half: u32) -> [Point; 3] {
    [
        tip,
        at(back, tip.y.saturating_sub(half)),
        at(back, tip.y.saturating_add(half)),
    ]
}
