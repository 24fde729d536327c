//! The lanes of queues.
use crate::layout::{Column, Layout};
use mach_chart_base::{Chart, Hop, Way};

/// How many lanes a task has at most. Other messages share the last.
pub(crate) const LANES: usize = 8;

/// How many messages each lane of a task has.
#[derive(Clone, Copy)]
pub(crate) struct Lanes {
    counts: [u32; LANES],
}

impl Lanes {
    /// Has no message.
    pub(crate) fn new() -> Lanes {
        Lanes { counts: [0; LANES] }
    }

    /// Returns the first lane without a message, or the last lane.
    pub(crate) fn free(&self) -> usize {
        for (lane, count) in self.counts.iter().enumerate() {
            if *count == 0 {
                return lane;
            }
        }
        LANES - 1
    }

    /// Whether a lane has a message.
    pub(crate) fn is_used(&self, lane: usize) -> bool {
        match self.counts.get(lane) {
            Some(count) => *count != 0,
            None => false,
        }
    }

    /// Notes that a message goes into a lane, or leaves it.
    pub(crate) fn note(&mut self, lane: usize, way: Way) {
        if let Some(count) = self.counts.get_mut(lane) {
            *count = match way {
                Way::In => count.saturating_add(1),
                Way::Out => count.saturating_sub(1),
            };
        }
    }
}

impl Layout {
    /// Gives each message of the chart a lane, lowest first. A lane is free again in the row in which its message leaves.
    pub(crate) fn give_lanes(&mut self, chart: &mut Chart) {
        for index in 0..chart.hops().len() {
            if let Some(hop) = chart.hops().get(index).copied() {
                if chart.is_drawn(hop.serial) {
                    let lane = self.lane_for(chart, &hop);
                    chart.set_lane(index, lane);
                }
            }
        }
        self.clear_lanes();
    }

    /// Returns the lane of a hop, and notes it at its column.
    fn lane_for(&mut self, chart: &Chart, hop: &Hop) -> usize {
        let kept = match chart.place(hop.serial) {
            Some(place) => place.lane,
            None => 0,
        };
        let Some(column) = self.column_mut(hop.task) else {
            return kept;
        };
        let lane = match hop.way {
            Way::In => column.busy.free(),
            Way::Out => kept,
        };
        column.take(lane, hop.way);
        lane
    }
}

impl Column {
    /// Notes that a message goes into a lane, or leaves it.
    fn take(&mut self, lane: usize, way: Way) {
        self.busy.note(lane, way);
        if self.lanes <= lane {
            self.lanes = lane.saturating_add(1);
        }
    }
}
