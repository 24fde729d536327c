//! Attributes of tags.
ghost use Rattle.std.specs.Prelude.{◌≡◌, Contains, false, map, true, OnOk};
ghost use Rattle.mach_xml.specs.Characters.{IsText};
ghost use Rattle.mach_xml.specs.Names.{IsName};
ghost use Rattle.mach_xml.specs.Elements.{Adds, HasAttributes, IsAttribute};
ghost use Rattle.mach_xml.specs.declared.attributes.Attribute.{Attribute};

use crate::characters::{write_byte, write_text};
use crate::names::is_name;
use std::alloc::AllocError;

/// A place in a drawing, in tenths of a pixel from the left and from the top.
#[derive(Clone, Copy)]
pub struct Point {
    /// From the left.
    pub x: u32,
    /// From the top.
    pub y: u32,
}

/// The value of an attribute.
#[derive(Clone, Copy)]
pub enum Value<'a> {
    /// Words.
    Words(&'a str),
    /// Tenths of a pixel, written in pixels.
    Tenths(u32),
    /// A number.
    Number(u64),
    /// Places, written in pixels.
    Points(&'a [Point]),
    /// A curve from a place to the last, bent by the two between.
    Curve(&'a [Point; 4]),
    /// The corners of a rectangle from the upper left of the drawing, written in pixels.
    Corners(Point),
}

/// An attribute of a tag.
#[derive(Clone, Copy)]
pub struct Attribute<'a> {
    /// Its name. If that is no name, the attribute is left out.
    pub name: &'static str,
    /// Its value.
    pub value: Value<'a>,
}

/// How many bytes two places have at most. A place has a space, two numbers of nine digits, each with a point and a digit,
/// and a comma.
const LONGEST: usize = 48;

/// Characters of numbers, put down from the last to the first.
#[derive(Drop)]
struct Digits {
    bytes: [u8; LONGEST],
    // The place of the first.
    first: usize,
}

impl Digits {
    /// Has none.
    fn new() -> Digits {
        Digits {
            bytes: [b'0'; LONGEST],
            first: LONGEST,
        }
    }

    /// Puts a byte before the others, if there is room.
    fn push(&mut self, byte: u8) {
        let first = self.first.saturating_sub(1);
        if let Some(place) = self.bytes.get_mut(first) {
            *place = byte;
        }
        self.first = first;
    }

    /// Puts a number in decimal before the others.
    fn push_number(&mut self, number: u64) {
        let mut rest = number;
        for _ in 0..LONGEST {
            self.push(b'0' + (rest % 10) as u8);
            rest /= 10;
            if rest == 0 {
                break;
            }
        }
    }

    /// Puts tenths of a pixel before the others, in pixels.
    fn push_tenths(&mut self, tenths: u32) {
        if tenths % 10 != 0 {
            self.push_number(u64::from(tenths % 10));
            self.push(b'.');
        }
        self.push_number(u64::from(tenths / 10));
    }

    /// Puts a place before the others, and a space before it.
    fn push_point(&mut self, point: &Point) {
        self.push_tenths(point.y);
        self.push(b',');
        self.push_tenths(point.x);
        self.push(b' ');
    }

    /// Returns the characters.
    fn shown(&self) -> &[u8] {
        self.bytes.get(self.first..).unwrap_or(&[])
    }
}

/// Appends a number in decimal.
fn write_number(number: u64, out: &mut Vec<u8>) -> Result<(), AllocError>
    ensures { OnOk result (Adds IsText out.old.items out.new.items) }
{
    let mut digits = Digits::new();
    digits.push_number(number);
    write_text(digits.shown(), out)
}

/// Appends tenths of a pixel, in pixels.
fn write_tenths(tenths: u32, out: &mut Vec<u8>) -> Result<(), AllocError>
    ensures { OnOk result (Adds IsText out.old.items out.new.items) }
{
    let mut digits = Digits::new();
    digits.push_tenths(tenths);
    write_text(digits.shown(), out)
}

/// Appends a place, and a space before it.
fn write_point(point: &Point, out: &mut Vec<u8>) -> Result<(), AllocError>
    ensures { OnOk result (Adds IsText out.old.items out.new.items) }
{
    let mut digits = Digits::new();
    digits.push_point(point);
    write_text(digits.shown(), out)
}

/// Appends the place at the upper left of the drawing, and another.
fn write_corners(last: &Point, out: &mut Vec<u8>) -> Result<(), AllocError>
    ensures { OnOk result (Adds IsText out.old.items out.new.items) }
{
    let mut digits = Digits::new();
    digits.push_point(last);
    digits.push_point(&Point { x: 0, y: 0 });
    write_text(digits.shown(), out)
}

/// Appends places.
fn write_points(points: &[Point], out: &mut Vec<u8>) -> Result<(), AllocError>
    ensures { OnOk result (Adds IsText out.old.items out.new.items) }
{
    for point in points {
        write_point(point, out)?;
    }
    Ok(())
}

/// Appends a letter of a curve, and places.
fn write_stretch(letter: u8, points: &[Point], out: &mut Vec<u8>) -> Result<(), AllocError>
    ensures { OnOk result (Adds IsText out.old.items out.new.items) }
{
    write_byte(letter, out)?;
    write_points(points, out)?;
    Ok(())
}

/// Appends a curve from the first of four places to the last.
fn write_curve(points: &[Point; 4], out: &mut Vec<u8>) -> Result<(), AllocError>
    ensures { OnOk result (Adds IsText out.old.items out.new.items) }
{
    write_stretch(b'M', &points[..1], out)?;
    write_stretch(b'C', &points[1..], out)?;
    Ok(())
}

/// Appends the value of an attribute.
fn write_value(value: &Value<'_>, out: &mut Vec<u8>) -> Result<(), AllocError>
    ensures { OnOk result (Adds IsText out.old.items out.new.items) }
{
    match value {
        Value::Words(words) => write_text(words.as_bytes(), out),
        Value::Tenths(tenths) => write_tenths(*tenths, out),
        Value::Number(number) => write_number(*number, out),
        Value::Points(points) => write_points(points, out),
        Value::Curve(points) => write_curve(points, out),
        Value::Corners(last) => write_corners(last, out),
    }
}

/// Appends an attribute, with a space before it.
fn write_attribute(attribute: &Attribute<'_>, out: &mut Vec<u8>) -> Result<(), AllocError>
    ensures { OnOk result (Adds (IsAttribute attribute.now.name.now) out.old.items out.new.items) }
{
    out.push(b' ')?;
    out.extend_from_slice(attribute.name.as_bytes())?;
    out.extend_from_slice("=\"".as_bytes())?;
    write_value(&attribute.value, out)?;
    out.push(b'"')?;
    Ok(())
}

/// Whether one of the attributes has the name.
fn has_name(attributes: &[Attribute<'_>], name: &str) -> bool
    ensures { result ≡ false → Contains (map (λ (a : Attribute). a.name.now) attributes.now) name.now → ⊥ }
{
    for attribute in attributes {
        if attribute.name == name {
            return true;
        }
    }
    false
}

/// Whether an attribute of this name may stand behind these.
fn may_follow(before: &[Attribute<'_>], name: &str) -> bool
    ensures named { result ≡ true → IsName name.now }
    ensures new { result ≡ true → Contains (map (λ (a : Attribute). a.name.now) before.now) name.now → ⊥ }
{
    is_name(name.as_bytes()) && !has_name(before, name)
}

/// Appends the attributes of a tag, each with a space before it. One whose name is no name, or whose name one before it
/// has, is left out.
pub(crate) fn write_attributes(
    attributes: &[Attribute<'_>],
    out: &mut Vec<u8>,
) -> Result<(), AllocError>
    ensures { OnOk result (Adds HasAttributes out.old.items out.new.items) }
{
    for (place, attribute) in attributes.iter().enumerate() {
        if may_follow(&attributes[..place], attribute.name) {
            write_attribute(attribute, out)?;
        }
    }
    Ok(())
}
