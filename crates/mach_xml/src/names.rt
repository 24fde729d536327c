//! Names of elements and of attributes.
ghost use Rattle.std.specs.Prelude.{◌≡◌};
ghost use Rattle.mach_xml.specs.Names.{IsName, is_letter, is_name_byte, is_name};
ghost use Rattle.std.specs.List.{list_all};

/// The name of an element.
#[derive(Clone, Copy)]
pub enum Tag {
    /// Rules of how things look.
    Style,
    /// What a reader who points at something is told, or a page's title.
    Title,
    /// A line.
    Line,
    /// A rectangle.
    Rect,
    /// A circle.
    Circle,
    /// A triangle.
    Polygon,
    /// A curve.
    Path,
    /// Letters.
    Text,
    /// What a browser is told about a page.
    Meta,
    /// A heading.
    Heading,
    /// A button.
    Button,
    /// A slider.
    Input,
    /// Words in a line.
    Span,
    /// A part of a page.
    Division,
    /// Lines as they are.
    Lines,
    /// A script.
    Script,
}

impl Tag {
    /// Returns the name as it is written. Constant time.
    pub fn name(self) -> &'static str
        ensures { IsName result.now }
    {
        match self {
            Tag::Style => "style",
            Tag::Title => "title",
            Tag::Line => "line",
            Tag::Rect => "rect",
            Tag::Circle => "circle",
            Tag::Polygon => "polygon",
            Tag::Path => "path",
            Tag::Text => "text",
            Tag::Meta => "meta",
            Tag::Heading => "h1",
            Tag::Button => "button",
            Tag::Input => "input",
            Tag::Span => "span",
            Tag::Division => "div",
            Tag::Lines => "pre",
            Tag::Script => "script",
        }
    }
}

/// Whether the byte is an ASCII letter.
fn is_letter(byte: u8) -> bool
    ensures { result ≡ is_letter byte }
{
    (65 <= byte && byte <= 90) || (97 <= byte && byte <= 122)
}

/// Whether the byte may stand in a name.
fn is_name_byte(byte: u8) -> bool
    ensures { result ≡ is_name_byte byte }
{
    is_letter(byte) || (48 <= byte && byte <= 57) || byte == b'-'
}

/// Whether each of the bytes may stand in a name. Linear in them.
fn are_name_bytes(bytes: &[u8]) -> bool
    ensures { result ≡ list_all is_name_byte bytes.now }
{
    bytes.iter().all(|byte| is_name_byte(*byte))
}

/// Whether the bytes are a name: a letter, and letters, digits and `-` behind it. Linear in them.
pub(crate) fn is_name(bytes: &[u8]) -> bool
    ensures { result ≡ is_name bytes.now }
{
    match bytes.split_first() {
        Some((first, rest)) => is_letter(*first) && are_name_bytes(rest),
        None => false,
    }
}
