//! The places of columns, from the left.
use crate::painter::{Part, Picture};
use crate::places::{FOOT, LETTER, Rows, SMALL, wide};
use crate::survey::Survey;
use mach_chart::{Column, Layout};
use mach_chart_base::Hop;
use mach_xml::Size;
use std::alloc::{AllocError, Global};

/// The place of the first lifeline.
const FIRST: u32 = 780;
/// How far the lifelines of a task are apart.
const LIFELINES: u32 = 780;
/// From a task's last lifeline to its first lane.
const LANE: u32 = 150;
/// How far lanes are apart, and if a task has many.
const LANES: u32 = 130;

const MANY_LANES: u32 = 90;
/// How wide a picture is at least, and the rows of a page.
const WIDTH: u32 = 12_800;

const PAGE: u32 = 6_900;
/// The room for comments, if there is none to spare.
const COMMENTS: u32 = 3_300;
/// The least and greatest distance from a task's last lane to the next task.
const LEAST_GAP: u32 = 960;

const GREATEST_LABEL: u32 = 2_000;

const GREATEST_GAP: u32 = 2_500;

/// Where the lifelines and lanes of a chart are, and its comments.
#[derive(Drop)]
pub(crate) struct Grid {
    pub(crate) rows: Rows,
    // By the indices of lifelines.
    lifelines: Vec<u32>,
    // Of each column, the place of its first lane.
    lanes: Vec<u32>,
    lane_step: u32,
    // From a task's last lane to the next task.
    gap: u32,
    /// Where the comments begin.
    pub(crate) comments: u32,
    /// The size of the picture.
    pub(crate) size: Size,
}

impl Grid {
    /// Lays a grid over a chart. Returns `AllocError` if out of memory. Linear in the chart.
    pub(crate) fn new(alloc: Global, picture: &Picture<'_>) -> Result<Grid, AllocError> {
        let Picture { chart, layout, .. } = *picture;
        let survey = Survey::of(alloc, chart, picture.labels)?;
        let is_whole = picture.part == Part::Whole;
        let mut grid = Grid {
            rows: Rows::new(chart.rows().len(), is_whole),
            lifelines: Vec::new(alloc),
            lanes: Vec::new(alloc),
            lane_step: lane_step(layout.columns()),
            gap: LEAST_GAP,
            comments: 0,
            size: Size {
                width: if is_whole { WIDTH } else { PAGE },
                height: 0,
            },
        };
        grid.size.height = grid.rows.bottom().saturating_add(FOOT);
        grid.set_gap(layout.columns(), &survey);
        grid.place(layout.columns(), &survey)?;
        Ok(grid)
    }

    /// Sets the gap: enough for the longest label, and more if the comments leave room.
    fn set_gap(&mut self, columns: &[Column], survey: &Survey) {
        let need = wide(survey.label, SMALL).saturating_add(260);
        let need = need.min(GREATEST_LABEL).max(LEAST_GAP);
        let mut taken = FIRST.saturating_add(160).saturating_add(tail_of(survey));
        for column in columns {
            taken = taken.saturating_add(self.width_of(column));
        }
        taken = taken.saturating_add(wide(survey.comment, LETTER));
        let spare = self.size.width.saturating_sub(taken);
        let gaps = u32::try_from(columns.len().saturating_sub(1)).unwrap_or(u32::MAX);
        let even = if gaps == 0 { spare } else { spare / gaps };
        self.gap = need.max(even.min(GREATEST_GAP));
    }

    /// Returns how wide the lifelines and lanes of a column are.
    fn width_of(&self, column: &Column) -> u32 {
        wide(column.lifelines.saturating_sub(1), LIFELINES)
            .saturating_add(LANE)
            .saturating_add(wide(column.lanes.saturating_sub(1), self.lane_step))
    }

    /// Gives each column its place.
    fn place(&mut self, columns: &[Column], survey: &Survey) -> Result<(), AllocError> {
        let mut x = FIRST;
        let mut last = FIRST;
        for column in columns {
            for number in 0..column.lifelines {
                self.lifelines
                    .push(x.saturating_add(wide(number, LIFELINES)))?;
            }
            let base = x.saturating_add(wide(column.lifelines.saturating_sub(1), LIFELINES));
            self.lanes.push(base.saturating_add(LANE))?;
            last = x.saturating_add(self.width_of(column));
            x = last.saturating_add(self.gap);
        }
        self.comments = last.saturating_add(tail_of(survey));
        let needed = wide(survey.comment, LETTER)
            .saturating_add(160)
            .min(COMMENTS);
        self.size.width = self.size.width.max(self.comments.saturating_add(needed));
        Ok(())
    }

    /// Returns the place of the lifeline at this index.
    pub(crate) fn lifeline(&self, index: usize) -> u32 {
        self.lifelines.get(index).copied().unwrap_or(FIRST)
    }

    /// Returns the place of the lane of a hop.
    pub(crate) fn lane(&self, layout: &Layout, hop: &Hop) -> u32 {
        let index = layout.column_index(hop.task).unwrap_or(0);
        let first = self.lanes.get(index).copied().unwrap_or(FIRST);
        first.saturating_add(wide(hop.lane, self.lane_step))
    }

    /// Returns how many letters the name of a lifeline of this column has at most.
    pub(crate) fn name_room(&self, column: &Column) -> usize {
        if column.lifelines > 1 {
            return 10;
        }
        let room = self.gap.saturating_add(LANE) / LETTER;
        (room as usize).saturating_sub(1).min(20)
    }
}

/// Returns how far lanes are apart.
fn lane_step(columns: &[Column]) -> u32 {
    for column in columns {
        if column.lanes > 4 {
            return MANY_LANES;
        }
    }
    LANES
}

/// Returns the room from the last lane to the comments.
fn tail_of(survey: &Survey) -> u32 {
    wide(survey.name.min(24), SMALL).saturating_add(220)
}
