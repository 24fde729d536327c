//! Drawings.
ghost use Rattle.std.specs.Prelude.{OnOk, codes};
ghost use Rattle.mach_xml.specs.Elements.{Adds, IsContent, IsElement, IsTag};

use crate::attributes::{Attribute, Point, Value};
use crate::characters::{ARROW, CUT, write_text};
use crate::elements::{write_end, write_tag, write_texted};
use crate::names::Tag;
use crate::shapes::{Form, Letters, Shape, Size, class_of, pixels, write_shapes};
use std::alloc::{AllocError, Global};

/// The entries that a group is about.
#[derive(Clone, Copy)]
pub enum Time {
    /// It is always shown.
    Always,
    /// It shows the entry of this number.
    Entry(u64),
    /// It holds from the entry of this number up to that before the second.
    Entries(u64, u64),
}

/// Shapes that belong together, and what a reader who points at them is told.
#[derive(Clone, Copy)]
struct Group {
    class: &'static str,
    time: Time,
    title: Letters,
    // The place behind its last shape.
    end: usize,
}

/// How letters fit into a drawing.
#[derive(Clone, Copy)]
pub struct Fit {
    /// How many there are at most.
    pub most: usize,
    /// How wide each is, in tenths of a pixel.
    pub pitch: u32,
}

/// A drawing: groups of shapes, one upon another.
///
/// The methods that add to it return no error. A part for which there is no memory is left out, and [`Drawing::write`] fails
/// from then on. Each takes constant time, or time linear in its letters.
#[derive(Drop)]
pub struct Drawing {
    size: Size,
    style: &'static str,
    shapes: Vec<Shape>,
    groups: Vec<Group>,
    // The letters of all shapes and titles.
    letters: Vec<u8>,
    // Whether a part was left out.
    lacks_part: bool,
}

impl Drawing {
    /// Has no shape. Takes no memory.
    pub fn new(alloc: Global, size: Size, style: &'static str) -> Drawing {
        Drawing {
            size,
            style,
            shapes: Vec::new(alloc),
            groups: Vec::new(alloc),
            letters: Vec::new(alloc),
            lacks_part: false,
        }
    }

    /// Returns how many shapes it has. Constant time.
    pub fn len(&self) -> usize {
        self.shapes.len()
    }

    /// Ends a group: the shapes that were added since the last belong to it. Its class names rules of the style.
    pub fn end_group(&mut self, class: &'static str, title: &[u8]) {
        self.end_group_of(class, Time::Always, title);
    }

    /// Ends a group that is about entries.
    pub fn end_group_of(&mut self, class: &'static str, time: Time, title: &[u8]) {
        let title = self.add_letters(title, title.len(), 0);
        let group = Group {
            class,
            time,
            title,
            end: self.shapes.len(),
        };
        if self.groups.push(group).is_err() {
            self.lacks_part = true;
        }
    }

    /// Adds a line between two places.
    pub fn line(&mut self, class: &'static str, from: Point, to: Point) {
        self.add(class, Form::Line(from, to));
    }

    /// Adds a rectangle from its upper left corner.
    pub fn rect(&mut self, class: &'static str, corner: Point, size: Size) {
        self.add(class, Form::Rect(corner, size));
    }

    /// Adds a circle about a place. The radius is in tenths of a pixel.
    pub fn circle(&mut self, class: &'static str, center: Point, radius: u32) {
        self.add(class, Form::Circle(center, radius));
    }

    /// Adds a triangle.
    pub fn triangle(&mut self, class: &'static str, corners: [Point; 3]) {
        self.add(class, Form::Triangle(corners));
    }

    /// Adds a curve from the first place to the last, bent by the two between.
    pub fn curve(&mut self, class: &'static str, points: [Point; 4]) {
        self.add(class, Form::Curve(points));
    }

    /// Adds letters from a place on, the left end of their base line. If there are more than fit, they are cut, and an
    /// ellipsis is the last.
    pub fn letters(&mut self, class: &'static str, at: Point, letters: &[u8], fit: Fit) {
        if letters.is_empty() || fit.most == 0 {
            return;
        }
        let letters = self.add_letters(letters, fit.most, fit.pitch);
        self.add(class, Form::Letters(at, letters));
    }

    /// Adds a label, as letters. Each `>` is drawn as an arrow.
    pub fn label(&mut self, class: &'static str, at: Point, label: &[u8], fit: Fit) {
        let from = self.letters.len();
        self.letters(class, at, label, fit);
        for place in from..self.letters.len() {
            if let Some(letter) = self.letters.get_mut(place) {
                if *letter == b'>' {
                    *letter = ARROW;
                }
            }
        }
    }

    /// Adds a shape.
    fn add(&mut self, class: &'static str, form: Form) {
        if self.shapes.push(Shape { class, form }).is_err() {
            self.lacks_part = true;
        }
    }

    /// Adds letters to those of all shapes, cut to so many.
    fn add_letters(&mut self, letters: &[u8], most: usize, pitch: u32) -> Letters {
        let from = self.letters.len();
        let is_cut = letters.len() > most;
        let kept = if is_cut {
            letters.get(..most.saturating_sub(1)).unwrap_or(letters)
        } else {
            letters
        };
        self.keep(kept);
        if is_cut {
            self.keep(&[CUT]);
        }
        Letters {
            from,
            to: self.letters.len(),
            width: width_of(letters.len().min(most), pitch),
        }
    }

    /// Keeps letters.
    fn keep(&mut self, letters: &[u8]) {
        if self.letters.extend_from_slice(letters).is_err() {
            self.lacks_part = true;
        }
    }

    /// Appends the drawing to `out` as SVG. What is appended is an XML element.
    ///
    /// Returns `AllocError` if a part was left out, or out of memory for `out`, which then has a part of it. Linear in the
    /// drawing.
    pub fn write(&self, out: &mut Vec<u8>) -> Result<(), AllocError>
        ensures { OnOk result (Adds IsElement out.old.items out.new.items) }
    {
        if self.lacks_part {
            return Err(AllocError);
        }
        let last = Point {
            x: self.size.width,
            y: self.size.height,
        };
        let attributes = [
            Attribute {
                name: "xmlns",
                value: Value::Words("http://www.w3.org/2000/svg"),
            },
            pixels("width", self.size.width),
            pixels("height", self.size.height),
            Attribute {
                name: "viewBox",
                value: Value::Corners(last),
            },
            Attribute {
                name: "role",
                value: Value::Words("img"),
            },
        ];
        write_tag("svg", &attributes, ">", out)?;
        write_texted(Tag::Style, &[], self.style.as_bytes(), out)?;
        self.write_groups(out)?;
        write_end("svg", out)?;
        Ok(())
    }

    /// Appends the groups, each in a line.
    fn write_groups(&self, out: &mut Vec<u8>) -> Result<(), AllocError>
        ensures { OnOk result (Adds IsContent out.old.items out.new.items) }
    {
        let mut first = 0;
        for group in self.groups.as_slice() {
            let shapes = self.shapes.get(first..group.end).unwrap_or(&[]);
            write_text(&[b'\n'], out)?;
            self.write_group(group, shapes, out)?;
            first = group.end;
        }
        Ok(())
    }

    /// Appends a group, whose shapes these are.
    fn write_group(
        &self,
        group: &Group,
        shapes: &[Shape],
        out: &mut Vec<u8>,
    ) -> Result<(), AllocError>
        ensures { OnOk result (Adds IsElement out.old.items out.new.items) }
    {
        let letters = self.letters.as_slice();
        group.write_tag(out)?;
        write_texted(Tag::Title, &[], group.title.among(letters), out)?;
        write_shapes(shapes, letters, out)?;
        write_end("g", out)?;
        Ok(())
    }
}

impl Group {
    /// Appends the group's tag, with the entries that it is about.
    fn write_tag(&self, out: &mut Vec<u8>) -> Result<(), AllocError>
        ensures { OnOk result (Adds (IsTag (codes "g") (codes ">")) out.old.items out.new.items) }
    {
        let class = class_of(self.class);
        match self.time {
            Time::Always => write_tag("g", &[class], ">", out)?,
            Time::Entry(number) => {
                write_tag("g", &[class, number_of("data-n", number)], ">", out)?;
            }
            Time::Entries(from, to) => {
                let attributes = [class, number_of("data-a", from), number_of("data-z", to)];
                write_tag("g", &attributes, ">", out)?;
            }
        }
        Ok(())
    }
}

/// Returns an attribute for a number.
fn number_of<'a>(name: &'static str, number: u64) -> Attribute<'a> {
    Attribute {
        name,
        value: Value::Number(number),
    }
}

/// Returns how wide so many letters are.
fn width_of(count: usize, pitch: u32) -> u32 {
    u32::try_from(count)
        .unwrap_or(u32::MAX)
        .saturating_mul(pitch)
}
