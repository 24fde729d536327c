//! The cells of a row.
use mach_words::Text;

/// A cell of a row: what is drawn at one place.
#[derive(Clone, Copy)]
pub(crate) enum Cell {
    Blank,
    /// A lifeline, and one whose caller waits.
    Life,
    Waiting,
    /// A lane with a message.
    Lane,
    /// A lifeline and a lane that an arrow crosses.
    CrossedLife,
    CrossedLane,
    /// Arrows: a message, a notice, a right that is handed on, a queue that goes along.
    Message,
    Notice,
    Handed,
    Along,
    /// Ends of arrows at a lifeline.
    ToRight,
    ToLeft,
    Taken,
    From,
    HandedRight,
    HandedLeft,
    /// Ends of arrows at a lane: into it from the left and the right, and out of it to the left; then those of queues that
    /// go along.
    InFromLeft,
    InFromRight,
    OutToLeft,
    AlongOutLeft,
    AlongOutRight,
    AlongInLeft,
    AlongInRight,
    /// Marks of calls.
    Made,
    Called,
    Looked,
    Refused,
    Empty,
    Ended,
    Died,
    /// The arrow between a message and its port, a cut label, and any other byte of a label.
    To,
    Cut,
    Letter(u8),
}

impl Cell {
    /// Writes the cell.
    pub(crate) fn write(self, out: &mut Text) {
        match self {
            Cell::Letter(byte) => out.plain(&[byte]),
            _ => out.words(self.line()),
        }
    }

    /// Returns the glyph of a line or of an end of an arrow.
    fn line(self) -> &'static str {
        match self {
            Cell::Blank => " ",
            Cell::Life => "│",
            Cell::Waiting => "┊",
            Cell::Lane => "║",
            Cell::CrossedLife => "┼",
            Cell::CrossedLane => "╫",
            Cell::Message => "─",
            Cell::Notice => "╌",
            Cell::Handed => "┄",
            Cell::Along => "═",
            Cell::ToRight => "├",
            Cell::ToLeft => "┤",
            Cell::Taken => "◀",
            Cell::HandedRight => "▷",
            Cell::HandedLeft => "◁",
            Cell::InFromLeft => "╖",
            Cell::InFromRight => "╓",
            _ => self.mark(),
        }
    }

    /// Returns the glyph of a mark.
    fn mark(self) -> &'static str {
        match self {
            Cell::OutToLeft => "╜",
            Cell::AlongOutLeft => "╝",
            Cell::AlongOutRight => "╚",
            Cell::AlongInLeft => "╗",
            Cell::AlongInRight => "╔",
            Cell::From => "○",
            Cell::Made => "┬",
            Cell::Called => "●",
            Cell::Looked => "·",
            Cell::Refused => "✗",
            Cell::Empty => "◌",
            Cell::Ended => "╳",
            Cell::Died => "☒",
            Cell::To => "→",
            Cell::Cut => "…",
            _ => " ",
        }
    }

    /// Returns the cell where an arrow of this kind crosses it.
    pub(crate) fn crossed(self, arrow: Cell) -> Cell {
        match self {
            Cell::Life | Cell::Waiting | Cell::CrossedLife => Cell::CrossedLife,
            Cell::Lane | Cell::CrossedLane => Cell::CrossedLane,
            _ => arrow,
        }
    }
}
