//! Draws the cells of a row.
use crate::cells::Cell;
use std::alloc::{AllocError, Global};

/// The cells of a row.
#[derive(Drop)]
pub(crate) struct Canvas {
    pub(crate) cells: Vec<Cell>,
}

/// Some cells, one beside another.
#[derive(Clone, Copy)]
struct Stretch {
    from: usize,
    length: usize,
}

impl Canvas {
    /// Has no cell. Takes no memory.
    pub(crate) fn new(alloc: Global) -> Canvas {
        Canvas {
            cells: Vec::new(alloc),
        }
    }

    /// Has so many blank cells.
    pub(crate) fn clear(&mut self, width: usize) -> Result<(), AllocError> {
        self.cells.clear();
        for _ in 0..width {
            self.cells.push(Cell::Blank)?;
        }
        Ok(())
    }

    /// Sets the cell at a place.
    pub(crate) fn put(&mut self, at: usize, cell: Cell) {
        if let Some(place) = self.cells.get_mut(at) {
            *place = cell;
        }
    }

    /// Draws an arrow between two places, and crosses what is there.
    pub(crate) fn run(&mut self, one: usize, other: usize, arrow: Cell) {
        for at in one.min(other).saturating_add(1)..one.max(other) {
            if let Some(place) = self.cells.get_mut(at) {
                *place = place.crossed(arrow);
            }
        }
    }

    /// Writes a label upon the arrow between two places, in the widest stretch that crosses nothing. Cuts it if the stretch
    /// is shorter, and leaves it out if there are less than three cells.
    pub(crate) fn label(&mut self, one: usize, other: usize, label: &[u8]) {
        let from = one.min(other).saturating_add(2);
        let to = one.max(other).saturating_sub(1);
        let stretch = self.widest(from, to);
        if stretch.length < 3 {
            return;
        }
        let spare = stretch.length.saturating_sub(label.len());
        let start = stretch.from.saturating_add(spare / 2);
        if label.len() <= stretch.length {
            self.letters(start, label);
        } else {
            let last = stretch.length.saturating_sub(1);
            self.letters(start, label.get(..last).unwrap_or(label));
            self.put(start.saturating_add(last), Cell::Cut);
        }
    }

    /// Returns the widest stretch from a place up to before another that crosses nothing, the first of several.
    fn widest(&self, from: usize, to: usize) -> Stretch {
        let mut best = Stretch { from, length: 0 };
        let mut now = Stretch { from, length: 0 };
        for at in from..to {
            match self.cells.get(at) {
                Some(Cell::CrossedLife | Cell::CrossedLane) | None => {
                    now = Stretch {
                        from: at.saturating_add(1),
                        length: 0,
                    };
                }
                Some(_) => {
                    now.length = now.length.saturating_add(1);
                }
            }
            if now.length > best.length {
                best = now;
            }
        }
        best
    }

    /// Writes letters from a place on.
    pub(crate) fn letters(&mut self, from: usize, letters: &[u8]) {
        for (place, byte) in letters.iter().enumerate() {
            let cell = match *byte {
                b'>' => Cell::To,
                byte => Cell::Letter(byte),
            };
            self.put(from.saturating_add(place), cell);
        }
    }

    /// Writes letters from a place on, if all cells there are blank.
    pub(crate) fn letters_if_blank(&mut self, from: usize, letters: &[u8]) {
        for place in 0..letters.len() {
            if !matches!(
                self.cells.get(from.saturating_add(place)),
                Some(Cell::Blank)
            ) {
                return;
            }
        }
        self.letters(from, letters);
    }
}
