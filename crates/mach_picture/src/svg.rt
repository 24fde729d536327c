//! Writes a chart as SVG.
ghost use Rattle.std.specs.Prelude.{IfOk};
ghost use Rattle.mach_xml.specs.Elements.{IsElement};

use crate::painter::{Picture, draw_chart};
use std::alloc::{AllocError, Global};

/// Returns a chart that is laid out as the text of an SVG file, which is an XML element. It is 1,280 pixels wide, or wider if
/// its columns need that.
///
/// Returns `AllocError` if out of memory. Time is linear in the rows and hops, for each in the lifelines, and in the comments.
/// Memory is linear in the text.
pub fn write_svg(alloc: Global, picture: &Picture<'_>) -> Result<Vec<u8>, AllocError>
    ensures { IfOk result (λ text. IsElement text.items) }
{
    let drawing = draw_chart(alloc, picture)?;
    let mut text = Vec::new(alloc);
    drawing.write(&mut text)?;
    Ok(text)
}
