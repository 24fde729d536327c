//! Tags and elements.
ghost use Rattle.std.specs.Prelude.{◌≡◌, ◌++◌, OnOk};
ghost use Rattle.mach_xml.specs.Elements.{Adds, IsElement, IsTag, end_tag};

use crate::attributes::{Attribute, write_attributes};
use crate::characters::write_text;
use crate::names::Tag;
use std::alloc::AllocError;

/// Appends a tag of this name. `end` is `>`, or `/>` if the element has no content. An attribute whose name is no name, or
/// stands twice, is left out.
///
/// Returns `AllocError` if out of memory; `out` then has a part of it. Linear in the attributes, for each in those before it.
pub fn write_tag(
    name: &str,
    attributes: &[Attribute<'_>],
    end: &str,
    out: &mut Vec<u8>,
) -> Result<(), AllocError>
    ensures { OnOk result (Adds (IsTag name.now end.now) out.old.items out.new.items) }
{
    out.push(b'<')?;
    out.extend_from_slice(name.as_bytes())?;
    write_attributes(attributes, out)?;
    out.extend_from_slice(end.as_bytes())?;
    Ok(())
}

/// Appends an end tag of this name. Returns `AllocError` if out of memory; `out` then has a part of it.
pub fn write_end(name: &str, out: &mut Vec<u8>) -> Result<(), AllocError>
    ensures { OnOk result (out.new.items ≡ out.old.items ++ end_tag name.now) }
{
    out.extend_from_slice("</".as_bytes())?;
    out.extend_from_slice(name.as_bytes())?;
    out.extend_from_slice(">".as_bytes())?;
    Ok(())
}

/// Appends an element without content. Errors and cost are those of [`write_tag`].
pub fn write_empty(
    tag: Tag,
    attributes: &[Attribute<'_>],
    out: &mut Vec<u8>,
) -> Result<(), AllocError>
    ensures { OnOk result (Adds IsElement out.old.items out.new.items) }
{
    let name = tag.name();
    write_tag(name, attributes, "/>", out)?;
    Ok(())
}

/// Appends an element whose content is text. Errors are those of [`write_tag`]. Linear in the text, and as [`write_tag`].
pub fn write_texted(
    tag: Tag,
    attributes: &[Attribute<'_>],
    text: &[u8],
    out: &mut Vec<u8>,
) -> Result<(), AllocError>
    ensures { OnOk result (Adds IsElement out.old.items out.new.items) }
{
    let name = tag.name();
    write_tag(name, attributes, ">", out)?;
    write_text(text, out)?;
    write_end(name, out)?;
    Ok(())
}
