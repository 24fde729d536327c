//! Messages that wait in a queue before the first row of a window.
use crate::chart::Chart;
use crate::hops::{Hop, Way};
use std::alloc::{AllocError, Global};

/// How many such messages are drawn beside a task: as many as it has lanes.
const MOST_EARLY: usize = 8;

impl Chart {
    /// Draws, of the messages that were queued before the first row, the first 8 beside each task, though no row is about
    /// them. Call it where the rows are those of all entries from one to another.
    ///
    /// Returns `AllocError` if out of memory. Linear in the hops, the messages and the tasks.
    pub fn draw_early(&mut self, alloc: Global) -> Result<(), AllocError> {
        for index in 0..self.hops.len() {
            if let Some(hop) = self.hops.get(index).copied() {
                self.note_early(&hop);
            }
        }
        let mut counts = Vec::new(alloc);
        counts.resize(self.spans.len(), 0)?;
        self.draw_first(counts.as_mut_slice());
        Ok(())
    }

    /// Notes whether the message waits behind a hop that comes before the first row.
    fn note_early(&mut self, hop: &Hop) {
        if hop.row > 0 || hop.is_shown {
            return;
        }
        let Ok(index) = usize::try_from(hop.serial) else {
            return;
        };
        if let Some(place) = self.places.get_mut(index) {
            place.is_early = hop.way == Way::In;
        }
    }

    /// Draws the first of these messages beside each task, and counts them by task.
    fn draw_first(&mut self, counts: &mut [usize]) {
        for index in 0..self.places.len() {
            if let Some(place) = self.places.get_mut(index) {
                if let (true, Some(count)) = (place.is_early, counts.get_mut(place.task as usize)) {
                    place.is_drawn = place.is_drawn || *count < MOST_EARLY;
                    *count = count.saturating_add(1);
                }
            }
        }
    }
}
