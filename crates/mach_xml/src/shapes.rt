//! Shapes of drawings.
ghost use Rattle.std.specs.Prelude.{OnOk};
ghost use Rattle.mach_xml.specs.Elements.{Adds, IsContent, IsElement};

use crate::attributes::{Attribute, Point, Value};
use crate::elements::{write_empty, write_texted};
use crate::names::Tag;
use std::alloc::AllocError;

/// A shape. Its class names the rules of the style that hold for it.
#[derive(Clone, Copy)]
pub(crate) struct Shape {
    pub(crate) class: &'static str,
    pub(crate) form: Form,
}

/// The form of a shape. Lengths are tenths of a pixel.
#[derive(Clone, Copy)]
pub(crate) enum Form {
    /// A line between two places.
    Line(Point, Point),
    /// A rectangle from its upper left corner.
    Rect(Point, Size),
    /// A circle about a place, with this radius.
    Circle(Point, u32),
    /// A triangle.
    Triangle([Point; 3]),
    /// A curve from the first place to the last, bent by the two between.
    Curve([Point; 4]),
    /// Letters from a place on.
    Letters(Point, Letters),
}

/// The size of a rectangle, in tenths of a pixel.
#[derive(Clone, Copy)]
pub struct Size {
    /// From left to right.
    pub width: u32,
    /// From the top down.
    pub height: u32,
}

/// Letters of a drawing.
#[derive(Clone, Copy)]
pub(crate) struct Letters {
    /// The place of the first among all letters of the drawing.
    pub(crate) from: usize,
    /// The place behind the last.
    pub(crate) to: usize,
    /// How wide they are, in tenths of a pixel.
    pub(crate) width: u32,
}

impl Letters {
    /// Returns the letters out of all those of a drawing.
    pub(crate) fn among<'a>(&self, letters: &'a [u8]) -> &'a [u8] {
        letters.get(self.from..self.to).unwrap_or(&[])
    }
}

/// Returns the attribute for a class.
pub(crate) fn class_of<'a>(class: &'static str) -> Attribute<'a> {
    Attribute {
        name: "class",
        value: Value::Words(class),
    }
}

/// Returns an attribute for tenths of a pixel.
pub(crate) fn pixels<'a>(name: &'static str, tenths: u32) -> Attribute<'a> {
    Attribute {
        name,
        value: Value::Tenths(tenths),
    }
}

impl Shape {
    /// Appends the shape as an element. The letters are all those of the drawing.
    fn write(&self, letters: &[u8], out: &mut Vec<u8>) -> Result<(), AllocError>
        ensures { OnOk result (Adds IsElement out.old.items out.new.items) }
    {
        let class = class_of(self.class);
        match &self.form {
            Form::Line(from, to) => write_line(class, *from, *to, out),
            Form::Rect(corner, size) => write_rect(class, *corner, *size, out),
            Form::Circle(center, radius) => write_circle(class, *center, *radius, out),
            Form::Triangle(corners) => write_triangle(class, corners, out),
            Form::Curve(points) => write_curve(class, points, out),
            Form::Letters(at, run) => write_letters(
                class,
                *at,
                (run.among(letters), run.width),
                out,
            ),
        }
    }
}

/// Appends a line.
fn write_line(
    class: Attribute<'_>,
    from: Point,
    to: Point,
    out: &mut Vec<u8>,
) -> Result<(), AllocError>
    ensures { OnOk result (Adds IsElement out.old.items out.new.items) }
{
    let attributes = [
        class,
        pixels("x1", from.x),
        pixels("y1", from.y),
        pixels("x2", to.x),
        pixels("y2", to.y),
    ];
    write_empty(Tag::Line, &attributes, out)
}

/// Appends a rectangle.
fn write_rect(
    class: Attribute<'_>,
    corner: Point,
    size: Size,
    out: &mut Vec<u8>,
) -> Result<(), AllocError>
    ensures { OnOk result (Adds IsElement out.old.items out.new.items) }
{
    let attributes = [
        class,
        pixels("x", corner.x),
        pixels("y", corner.y),
        pixels("width", size.width),
        pixels("height", size.height),
    ];
    write_empty(Tag::Rect, &attributes, out)
}

/// Appends a circle.
fn write_circle(
    class: Attribute<'_>,
    center: Point,
    radius: u32,
    out: &mut Vec<u8>,
) -> Result<(), AllocError>
    ensures { OnOk result (Adds IsElement out.old.items out.new.items) }
{
    let attributes = [
        class,
        pixels("cx", center.x),
        pixels("cy", center.y),
        pixels("r", radius),
    ];
    write_empty(Tag::Circle, &attributes, out)
}

/// Appends a triangle.
fn write_triangle(
    class: Attribute<'_>,
    corners: &[Point; 3],
    out: &mut Vec<u8>,
) -> Result<(), AllocError>
    ensures { OnOk result (Adds IsElement out.old.items out.new.items) }
{
    let attributes = [
        class,
        Attribute {
            name: "points",
            value: Value::Points(corners),
        },
    ];
    write_empty(Tag::Polygon, &attributes, out)
}

/// Appends a curve.
fn write_curve(
    class: Attribute<'_>,
    points: &[Point; 4],
    out: &mut Vec<u8>,
) -> Result<(), AllocError>
    ensures { OnOk result (Adds IsElement out.old.items out.new.items) }
{
    let attributes = [
        class,
        Attribute {
            name: "d",
            value: Value::Curve(points),
        },
    ];
    write_empty(Tag::Path, &attributes, out)
}

/// Appends letters, which are so wide.
fn write_letters(
    class: Attribute<'_>,
    at: Point,
    run: (&[u8], u32),
    out: &mut Vec<u8>,
) -> Result<(), AllocError>
    ensures { OnOk result (Adds IsElement out.old.items out.new.items) }
{
    let (letters, width) = run;
    let attributes = [
        class,
        pixels("x", at.x),
        pixels("y", at.y),
        pixels("textLength", width),
        Attribute {
            name: "lengthAdjust",
            value: Value::Words("spacingAndGlyphs"),
        },
    ];
    write_texted(Tag::Text, &attributes, letters, out)
}

/// Appends shapes. The letters are all those of the drawing.
pub(crate) fn write_shapes(
    shapes: &[Shape],
    letters: &[u8],
    out: &mut Vec<u8>,
) -> Result<(), AllocError>
    ensures { OnOk result (Adds IsContent out.old.items out.new.items) }
{
    for shape in shapes {
        shape.write(letters, out)?;
    }
    Ok(())
}
