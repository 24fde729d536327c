//! Places by rows and columns.
use mach_xml::Point;

/// The place of the first row's top.
pub(crate) const TOP: u32 = 340;
/// How far rows are apart.
pub(crate) const ROW: u32 = 240;
/// From a row's top to its middle.
pub(crate) const MIDDLE: u32 = 150;
/// The room for names between rows.
const NAMES: u32 = 260;
/// The margin below the last row.
pub(crate) const FOOT: u32 = 80;
/// How wide a letter is, and a small one.
pub(crate) const LETTER: u32 = 72;

pub(crate) const SMALL: u32 = 66;

/// Returns a place.
pub(crate) fn at(x: u32, y: u32) -> Point {
    Point { x, y }
}

/// Returns how wide so many letters are, each this wide.
pub(crate) fn wide(count: usize, letter: u32) -> u32 {
    u32::try_from(count)
        .unwrap_or(u32::MAX)
        .saturating_mul(letter)
}

/// Returns how many letters fit between two places, each this wide.
pub(crate) fn fit(from: u32, to: u32, letter: u32) -> usize {
    if letter == 0 {
        return 0;
    }
    (to.saturating_sub(from) / letter) as usize
}

/// Where rows are, from the top down.
#[derive(Clone, Copy)]
pub(crate) struct Rows {
    /// How many there are.
    pub(crate) count: usize,
    /// After how many the names stand again.
    pub(crate) every: usize,
}

/// After how many rows the names stand again, if there are many more.
const NAMES_EVERY: usize = 30;

impl Rows {
    /// Returns the places of so many rows, between which names stand again or not.
    pub(crate) fn new(count: usize, has_names: bool) -> Rows {
        let every = if has_names && count > NAMES_EVERY + 10 {
            NAMES_EVERY
        } else {
            usize::MAX
        };
        Rows { count, every }
    }

    /// Returns the place of a row's top.
    pub(crate) fn top(&self, row: usize) -> u32 {
        let names = if self.every == 0 { 0 } else { row / self.every };
        TOP.saturating_add(wide(row, ROW))
            .saturating_add(wide(names, NAMES))
    }

    /// Returns the place of a row's middle.
    pub(crate) fn middle(&self, row: usize) -> u32 {
        self.top(row).saturating_add(MIDDLE)
    }

    /// Whether names stand before a row, other than the first.
    pub(crate) fn has_names(&self, row: usize) -> bool {
        row > 0 && self.every != 0 && row % self.every == 0
    }

    /// Returns the place below the last row.
    pub(crate) fn bottom(&self) -> u32 {
        match self.count.checked_sub(1) {
            Some(last) => self.top(last).saturating_add(ROW),
            None => TOP,
        }
    }
}
