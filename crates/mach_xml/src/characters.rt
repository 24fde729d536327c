//! Characters of text and of the values of attributes.
ghost use Rattle.std.specs.Prelude.{MatchOption, OnOk};
ghost use Rattle.mach_xml.specs.Characters.{IsBare, IsReference, IsText};
ghost use Rattle.mach_xml.specs.Elements.{Adds};

use std::alloc::AllocError;

/// Stands for an arrow to the right in letters of a drawing.
pub(crate) const ARROW: u8 = 1;
/// Stands for an ellipsis in letters of a drawing.
pub(crate) const CUT: u8 = 2;

/// Returns the reference that is written for a byte, unless it stands for itself. A byte that is no line
/// feed and isn't printable ASCII becomes a full stop.
fn reference_for(byte: u8) -> Option<&'static str>
    ensures { MatchOption result (IsBare byte) (λ name. IsReference name.now) }
{
    match byte {
        b'"' => Some("&quot;"),
        b'&' => Some("&amp;"),
        b'<' => Some("&lt;"),
        b'>' => Some("&gt;"),
        ARROW => Some("&#8594;"),
        CUT => Some("&#8230;"),
        b'\n' => None,
        32..=126 => None,
        _ => Some("&#46;"),
    }
}

/// Appends a byte as text.
pub(crate) fn write_byte(byte: u8, out: &mut Vec<u8>) -> Result<(), AllocError>
    ensures { OnOk result (Adds IsText out.old.items out.new.items) }
{
    match reference_for(byte) {
        Some(name) => out.extend_from_slice(name.as_bytes())?,
        None => out.push(byte)?,
    }
    Ok(())
}

/// Appends bytes as text: markup is escaped, and a byte that is no line feed and isn't printable ASCII becomes a full stop.
///
/// Returns `AllocError` if out of memory; `out` then has a part of it. Linear in the bytes.
pub fn write_text(bytes: &[u8], out: &mut Vec<u8>) -> Result<(), AllocError>
    ensures { OnOk result (Adds IsText out.old.items out.new.items) }
{
    for byte in bytes {
        write_byte(*byte, out)?;
    }
    Ok(())
}
