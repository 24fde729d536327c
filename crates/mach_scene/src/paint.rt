//! Draws tasks, names, ports and queues.
use crate::places::{
    HEAD, LETTER, PORT_HEIGHT, PORT_LEFT, Plan, TASK_LEFT, TASK_WIDTH, at, fit, wide,
};
use mach_scene_base::{
    Chip, Frame, Kind, LETTERS, MOST_ROWS, PORT_WIDTH, Place, Row, Run, SMALL, Scene, Spot, Thing,
    write_title,
};
use mach_types::{PortId, SetId, TaskId};
use mach_words::{Labels, Text};
use mach_xml::{Drawing, Fit, Size, Time};
use std::alloc::{AllocError, Global};

/// Which states a drawing shows.
#[derive(Clone, Copy)]
pub enum Shown {
    /// The state of this index, from 0 in the order in which they were noted.
    One(u64),
    /// All, each thing with the numbers of the entries for which it holds. The first state is that after the entry of this
    /// number.
    All(u64),
}

/// What is drawn upon what: boxes, lines, letters.
#[derive(Clone, Copy, PartialEq, Eq)]
pub(crate) enum Layer {
    Boxes,
    Lines,
    Letters,
}

const LAYERS: &[Layer] = &[Layer::Boxes, Layer::Lines, Layer::Letters];

/// Draws a scene.
#[derive(Clone, Copy)]
pub(crate) struct Painter<'a> {
    pub(crate) scene: &'a Scene,
    pub(crate) plan: &'a Plan,
    pub(crate) labels: &'a Labels,
}

/// Draws one state of the scene, or all. `style` are the rules of a scheme, or nothing for a part of a page.
///
/// Returns `AllocError` if out of memory. Linear in the places, in the changes of what stands there, and in the drawing.
pub fn draw_scene(
    alloc: Global,
    scene: &Scene,
    labels: &Labels,
    shown: Shown,
    style: &'static str,
) -> Result<Drawing, AllocError> {
    let mut text = Text::new(alloc);
    let digits = digits_of(scene, &mut text)?;
    let plan = Plan::of(alloc, scene, digits)?;
    let mut drawing = Drawing::new(alloc, plan.size, style);
    drawing.rect("back", at(0, 0), plan.size);
    drawing.end_group("ground", b"tasks, names, ports and queues");
    let painter = Painter {
        scene,
        plan: &plan,
        labels,
    };
    for layer in LAYERS {
        for place in scene.places() {
            painter.draw_place(*layer, place, shown, &mut drawing, &mut text)?;
        }
    }
    Ok(drawing)
}

/// Returns how many digits the longest name has.
fn digits_of(scene: &Scene, text: &mut Text) -> Result<usize, AllocError> {
    let mut greatest = 0;
    for place in scene.places() {
        for run in place.runs.as_slice() {
            if let Thing::Name(row) = run.thing {
                greatest = row.name.max(greatest);
            }
        }
    }
    text.clear();
    text.number(u64::from(greatest));
    Ok(text.whole()?.len())
}

impl<'a> Painter<'a> {
    /// Draws what stands at a place in the states that are shown.
    fn draw_place(
        &self,
        layer: Layer,
        place: &Place,
        shown: Shown,
        drawing: &mut Drawing,
        text: &mut Text,
    ) -> Result<(), AllocError> {
        let mut from: u64 = 0;
        for run in place.runs.as_slice() {
            let to = from.saturating_add(run.count);
            match shown {
                Shown::One(state) if from <= state && state < to => {
                    self.draw_run(
                        layer,
                        (place.spot, run),
                        ("thing", Time::Always),
                        drawing,
                        text,
                    )?;
                }
                Shown::One(_) => {}
                Shown::All(first) => {
                    let time = Time::Entries(first.saturating_add(from), first.saturating_add(to));
                    let class = if to < self.scene.states() {
                        "thing off"
                    } else {
                        "thing"
                    };
                    self.draw_run(layer, (place.spot, run), (class, time), drawing, text)?;
                }
            }
            from = to;
        }
        Ok(())
    }

    /// Draws a thing, as a group.
    fn draw_run(
        &self,
        layer: Layer,
        (spot, run): (Spot, &Run),
        (class, time): (&'static str, Time),
        drawing: &mut Drawing,
        text: &mut Text,
    ) -> Result<(), AllocError> {
        let before = drawing.len();
        match layer {
            Layer::Boxes => self.draw_box(spot, &run.thing, drawing, text)?,
            Layer::Lines => self.draw_lines(spot, &run.thing, drawing),
            Layer::Letters => self.draw_letters(spot, &run.thing, drawing, text)?,
        }
        if drawing.len() > before {
            text.clear();
            if let Thing::Message(chip) = &run.thing {
                write_title(chip.id, chip.is_notice, self.labels, text);
                text.words(", entry ");
                text.number(chip.entry);
            }
            drawing.end_group_of(class, time, text.whole()?);
        }
        Ok(())
    }

    /// Draws the box of a task or a port.
    fn draw_box(
        &self,
        spot: Spot,
        thing: &Thing,
        drawing: &mut Drawing,
        text: &mut Text,
    ) -> Result<(), AllocError> {
        match (spot, thing) {
            (Spot::Task(task), Thing::Task(is_empty, hidden)) => {
                self.draw_task(task, (*is_empty, *hidden), drawing, text)
            }
            (Spot::Task(task), Thing::Ended) => self.draw_ended(task, drawing, text),
            (Spot::Port(port), Thing::Port(frame)) => self.draw_port(port, frame, drawing, text),
            (Spot::Port(port), Thing::Dead) => self.draw_dead(port, drawing, text),
            _ => Ok(()),
        }
    }

    /// Draws a row of a task, or a message.
    fn draw_letters(
        &self,
        spot: Spot,
        thing: &Thing,
        drawing: &mut Drawing,
        text: &mut Text,
    ) -> Result<(), AllocError> {
        match (spot, thing) {
            (Spot::Row(task, row), Thing::Name(name)) => {
                self.draw_name((task, row), name, drawing, text)
            }
            (Spot::Message(port, _), Thing::Message(chip)) => {
                self.draw_chip(port, chip, drawing, text)
            }
            (Spot::Message(port, _), Thing::More(count, left)) => {
                text.clear();
                text.words("+");
                text.number(*count);
                let y = self.plan.port(port).saturating_add(520);
                let letters = text.whole()?;
                let fits = Fit {
                    most: 12,
                    pitch: SMALL,
                };
                drawing.letters(
                    "small",
                    at(PORT_LEFT.saturating_add(*left), y),
                    letters,
                    fits,
                );
                Ok(())
            }
            _ => Ok(()),
        }
    }

    /// Draws a live task.
    fn draw_task(
        &self,
        task: usize,
        (is_empty, hidden): (bool, u64),
        drawing: &mut Drawing,
        text: &mut Text,
    ) -> Result<(), AllocError> {
        let (top, height) = self.plan.task(task);
        let size = Size {
            width: TASK_WIDTH,
            height,
        };
        drawing.rect("task", at(TASK_LEFT, top), size);
        let head = Size {
            width: TASK_WIDTH.saturating_sub(20),
            height: 210,
        };
        drawing.rect(
            "head",
            at(TASK_LEFT.saturating_add(10), top.saturating_add(10)),
            head,
        );
        self.write_task(task, text);
        let x = TASK_LEFT.saturating_add(80);
        let name = text.whole()?;
        drawing.letters("name", at(x, top.saturating_add(160)), name, letters(28));
        if is_empty {
            let place = at(x.saturating_add(20), top.saturating_add(HEAD + 130));
            drawing.letters("small-dim", place, b"no names", small(20));
        }
        if hidden > 0 {
            self.draw_hidden(task, hidden, drawing, text)?;
        }
        Ok(())
    }

    /// Writes how many names of a task aren't drawn.
    fn draw_hidden(
        &self,
        task: usize,
        hidden: u64,
        drawing: &mut Drawing,
        text: &mut Text,
    ) -> Result<(), AllocError> {
        text.clear();
        text.number(hidden);
        text.words(" more");
        let x = TASK_LEFT
            .saturating_add(self.plan.names)
            .saturating_add(100);
        let place = at(x, self.plan.row(task, MOST_ROWS));
        drawing.letters("dim", place, text.whole()?, letters(20));
        Ok(())
    }

    /// Draws a task that has ended.
    fn draw_ended(
        &self,
        task: usize,
        drawing: &mut Drawing,
        text: &mut Text,
    ) -> Result<(), AllocError> {
        let (top, _) = self.plan.task(task);
        self.write_task(task, text);
        text.words(" has ended");
        let size = Size {
            width: TASK_WIDTH,
            height: 240,
        };
        drawing.rect("gone", at(TASK_LEFT, top), size);
        let place = at(TASK_LEFT.saturating_add(80), top.saturating_add(160));
        drawing.letters("dim", place, text.whole()?, letters(26));
        let x = TASK_LEFT.saturating_add(TASK_WIDTH).saturating_sub(120);
        draw_cross("end", drawing, (x, top.saturating_add(120)));
        Ok(())
    }

    /// Writes the name of a task.
    fn write_task(&self, task: usize, text: &mut Text) {
        text.clear();
        let number = u32::try_from(task).unwrap_or(u32::MAX);
        self.labels.write_task(TaskId::new(number), text);
    }

    /// Draws a name of a task.
    fn draw_name(
        &self,
        (task, row): (usize, usize),
        name: &Row,
        drawing: &mut Drawing,
        text: &mut Text,
    ) -> Result<(), AllocError> {
        let y = self.plan.row(task, row);
        let edge = TASK_LEFT.saturating_add(self.plan.names);
        text.clear();
        text.number(u64::from(name.name));
        let digits = text.whole()?;
        let x = edge.saturating_sub(wide(digits.len(), LETTER));
        drawing.letters("dim", at(x, y), digits, letters(10));
        self.write_standing(name, text);
        let x = edge.saturating_add(100);
        let end = TASK_LEFT.saturating_add(TASK_WIDTH);
        let most = fit(x, end.saturating_sub(40), LETTER);
        let class = if name.kind == Kind::Dead {
            "code"
        } else {
            "plain"
        };
        drawing.letters(class, at(x, y), text.whole()?, letters(most));
        if name.told.is_some() {
            let place = at(end.saturating_add(60), y.saturating_add(30));
            drawing.letters("on-note", place, b"dead-name", small(9));
        }
        Ok(())
    }

    /// Writes what a name stands for.
    fn write_standing(&self, name: &Row, text: &mut Text) {
        text.clear();
        text.words(name.kind.word());
        if name.kind != Kind::Dead {
            text.words(" ");
        }
        match name.kind {
            Kind::Dead => {}
            Kind::Set => self.labels.write_set(SetId::new(name.about), text),
            _ => self.labels.write_port(PortId::new(name.about), text),
        }
        if name.references != 1 {
            text.around(" x", name.references, "");
        }
    }

    /// Draws a live port.
    fn draw_port(
        &self,
        port: usize,
        frame: &Frame,
        drawing: &mut Drawing,
        text: &mut Text,
    ) -> Result<(), AllocError> {
        let top = self.plan.port(port);
        let size = Size {
            width: PORT_WIDTH,
            height: PORT_HEIGHT,
        };
        drawing.rect("port", at(PORT_LEFT, top), size);
        self.write_port(port, text);
        let x = PORT_LEFT.saturating_add(120);
        let name = text.whole()?;
        let taken = name.len().min(16).saturating_add(1);
        drawing.letters("name", at(x, top.saturating_add(160)), name, letters(16));
        write_counts(frame, text);
        let end = PORT_LEFT.saturating_add(PORT_WIDTH).saturating_sub(80);
        let place = at(x, top.saturating_add(310));
        drawing.letters("small-dim", place, text.whole()?, small(fit(x, end, SMALL)));
        self.write_circumstances(frame, text);
        let most = fit(x.saturating_add(wide(taken, LETTER)), end, SMALL);
        let words = text.whole()?;
        let x = end.saturating_sub(wide(words.len().min(most), SMALL));
        drawing.letters(
            "small-dim",
            at(x, top.saturating_add(160)),
            words,
            small(most),
        );
        Ok(())
    }

    /// Writes the set that a port is in, whether a message carries it, and its requests.
    fn write_circumstances(&self, frame: &Frame, text: &mut Text) {
        text.clear();
        if frame.is_carried {
            text.words("in a message");
        }
        if let Some(set) = frame.set {
            part(text);
            text.words("in set ");
            self.labels.write_set(SetId::new(set), text);
            if frame.more_sets > 0 {
                text.words(" and ");
                text.number(frame.more_sets);
                text.words(" more");
            }
        }
        for (word, told) in [
            ("no-senders:", frame.no_senders),
            ("port-destroyed:", frame.port_destroyed),
        ] {
            if let Some(told) = told {
                part(text);
                text.words(word);
                self.labels.write_port(PortId::new(told), text);
            }
        }
    }

    /// Writes the name of a port.
    fn write_port(&self, port: usize, text: &mut Text) {
        text.clear();
        if let Some(places) = self.scene.ports().get(port) {
            self.labels.write_port(PortId::new(places.identity), text);
        }
    }

    /// Draws a dead port.
    fn draw_dead(
        &self,
        port: usize,
        drawing: &mut Drawing,
        text: &mut Text,
    ) -> Result<(), AllocError> {
        let top = self.plan.port(port);
        self.write_port(port, text);
        text.words(" is dead");
        let size = Size {
            width: PORT_WIDTH,
            height: 240,
        };
        drawing.rect("gone-port", at(PORT_LEFT, top), size);
        let place = at(PORT_LEFT.saturating_add(120), top.saturating_add(160));
        drawing.letters("dim", place, text.whole()?, letters(23));
        let x = PORT_LEFT.saturating_add(PORT_WIDTH).saturating_sub(140);
        draw_cross("cross", drawing, (x, top.saturating_add(120)));
        Ok(())
    }

    /// Draws a queued message.
    fn draw_chip(
        &self,
        port: usize,
        chip: &Chip,
        drawing: &mut Drawing,
        text: &mut Text,
    ) -> Result<(), AllocError> {
        let top = self.plan.port(port);
        text.clear();
        write_title(chip.id, chip.is_notice, self.labels, text);
        let name = text.whole()?;
        let x = PORT_LEFT.saturating_add(chip.left);
        let size = Size {
            width: wide(name.len().min(LETTERS), SMALL).saturating_add(100),
            height: 170,
        };
        let (class, letters) = if chip.is_notice {
            ("chip-note", "small-note")
        } else {
            ("chip", "small-ink")
        };
        drawing.rect(class, at(x, top.saturating_add(390)), size);
        let place = at(x.saturating_add(50), top.saturating_add(515));
        drawing.letters(letters, place, name, small(LETTERS));
        Ok(())
    }
}

/// Writes a space behind what a text has. None may stand first or last: browsers don't draw it, but its width is stated.
fn part(text: &mut Text) {
    if text.len() > 0 {
        text.words(" ");
    }
}

/// Writes the counts of a port.
fn write_counts(frame: &Frame, text: &mut Text) {
    text.clear();
    text.words("queue ");
    text.number(frame.queued);
    text.around("/", frame.limit, " made ");
    text.around("", frame.made, " next ");
    text.around("", frame.next, "");
}

/// Draws a cross about a place.
fn draw_cross(class: &'static str, drawing: &mut Drawing, (x, y): (u32, u32)) {
    let left = x.saturating_sub(50);
    let right = x.saturating_add(50);
    let top = y.saturating_sub(50);
    let bottom = y.saturating_add(50);
    drawing.line(class, at(left, top), at(right, bottom));
    drawing.line(class, at(right, top), at(left, bottom));
}

/// Returns how at most so many letters fit.
fn letters(most: usize) -> Fit {
    Fit {
        most,
        pitch: LETTER,
    }
}

/// Returns how at most so many small letters fit.
fn small(most: usize) -> Fit {
    Fit { most, pitch: SMALL }
}
