//! The columns and lifelines of a chart.
use crate::lanes::Lanes;
use mach_chart_base::{Caller, Chart, Mark, Row, write_name};
use mach_types::{PortId, TaskId};
use mach_words::{Labels, Text, kind_word};
use std::alloc::{AllocError, Global};

/// How many lifelines a layout has at most.
pub const MOST_LIFELINES: usize = 64;
/// How far the lifelines of a task are apart.
pub(crate) const LIFELINES: usize = 12;
/// The least and greatest distance from a task's last lane to the next task.
const LEAST_GAP: usize = 12;

const GREATEST_GAP: usize = 26;

/// A lifeline.
#[derive(Clone, Copy)]
pub struct Lifeline {
    /// The number of its task.
    pub task: u32,
    /// The number of its caller.
    pub caller: u64,
    /// Its place in a row.
    pub(crate) at: usize,
    /// Whether its caller waits.
    pub(crate) is_waiting: bool,
}

/// A task's column: its lifelines, then its lanes.
#[derive(Clone, Copy)]
pub struct Column {
    /// The task's number.
    pub task: u32,
    /// The index of its first lifeline.
    pub first: usize,
    /// How many lifelines it has.
    pub lifelines: usize,
    /// How many lanes it has.
    pub lanes: usize,
    /// The place of its last lifeline in a row.
    pub(crate) base: usize,
    /// How many messages its lanes have.
    pub(crate) busy: Lanes,
}

impl Column {
    /// Returns the place of a lane in a row.
    pub(crate) fn lane_at(&self, lane: usize) -> usize {
        self.base
            .saturating_add(2)
            .saturating_add(lane.saturating_mul(2))
    }
}

/// The columns, lifelines and lanes of a chart.
#[derive(Drop)]
pub struct Layout {
    pub(crate) columns: Vec<Column>,
    pub(crate) lifelines: Vec<Lifeline>,
    // From a task's last lane to the next task.
    pub(crate) gap: usize,
    // How many cells a row has.
    pub(crate) width: usize,
    // How many letters the longest name of a column has.
    name_width: usize,
    // How many columns the number of an entry has.
    pub(crate) number_width: usize,
}

impl Layout {
    /// Lays out a chart to which each entry of its history was added, and gives its messages their lanes. A chart with more
    /// than [`MOST_LIFELINES`] isn't laid out, and can't be drawn.
    ///
    /// Returns `AllocError` if out of memory. Linear in the tasks ever made and in the rows.
    pub fn new(alloc: Global, chart: &mut Chart, labels: &Labels) -> Result<Layout, AllocError> {
        let mut layout = Layout {
            columns: Vec::new(alloc),
            lifelines: Vec::new(alloc),
            gap: LEAST_GAP,
            width: 0,
            name_width: 0,
            number_width: 5,
        };
        layout.fill(alloc, chart, labels)?;
        Ok(layout)
    }

    /// Makes the columns of a chart.
    fn fill(
        &mut self,
        alloc: Global,
        chart: &mut Chart,
        labels: &Labels,
    ) -> Result<(), AllocError> {
        chart.settle();
        let callers = chart.callers(alloc)?;
        self.add_columns(chart, callers.as_slice())?;
        if self.lifelines.len() > MOST_LIFELINES {
            return Ok(());
        }
        self.give_lanes(chart);
        self.widen(alloc, chart, labels)?;
        self.set_places();
        Ok(())
    }

    /// Returns the columns of the tasks, from the left. Constant time.
    pub fn columns(&self) -> &[Column] {
        self.columns.as_slice()
    }

    /// Returns the lifelines, from the left. Constant time.
    pub fn each_lifeline(&self) -> &[Lifeline] {
        self.lifelines.as_slice()
    }

    /// Returns how many lifelines there are. Constant time.
    pub fn lifelines(&self) -> usize {
        self.lifelines.len()
    }

    /// Adds a column for each task that a row is about.
    fn add_columns(&mut self, chart: &Chart, callers: &[Caller]) -> Result<(), AllocError> {
        for (number, span) in chart.spans().iter().enumerate() {
            if span.is_drawn {
                if let Ok(task) = u32::try_from(number) {
                    self.add_column(task, callers)?;
                }
            }
        }
        Ok(())
    }

    /// Adds the column of a task.
    fn add_column(&mut self, task: u32, callers: &[Caller]) -> Result<(), AllocError> {
        let first = self.lifelines.len();
        self.add_lifelines(task, callers)?;
        self.columns.push(Column {
            task,
            first,
            lifelines: self.lifelines.len().saturating_sub(first),
            lanes: 0,
            base: 0,
            busy: Lanes::new(),
        })?;
        Ok(())
    }

    /// Adds the lifelines of a task: one for each caller if two or more blocks act on it, otherwise one.
    fn add_lifelines(&mut self, task: u32, callers: &[Caller]) -> Result<(), AllocError> {
        if count_blocks(task, callers) < 2 {
            return self.add_lifeline(Caller { task, caller: 0 });
        }
        let mut next = least_from(task, 0, callers);
        for _ in 0..callers.len() {
            let Some(caller) = next else {
                break;
            };
            self.add_lifeline(Caller { task, caller })?;
            next = least_from(task, caller.saturating_add(1), callers);
        }
        Ok(())
    }

    /// Adds a lifeline.
    fn add_lifeline(&mut self, caller: Caller) -> Result<(), AllocError> {
        self.lifelines.push(Lifeline {
            task: caller.task,
            caller: caller.caller,
            at: 0,
            is_waiting: false,
        })?;
        Ok(())
    }

    /// Sets the gap by the longest label and the longest name of a column, so that none is cut but by the greatest gap.
    fn widen(&mut self, alloc: Global, chart: &Chart, labels: &Labels) -> Result<(), AllocError> {
        let mut label = Text::new(alloc);
        let mut longest = 8;
        for row in chart.rows() {
            label.clear();
            write_label(row, labels, &mut label);
            longest = longest.max(width_of(row, &label));
        }
        for column in self.columns.as_slice() {
            label.clear();
            labels.write_task(TaskId::new(column.task), &mut label);
            self.name_width = self.name_width.max(label.len());
        }
        self.gap = longest
            .saturating_add(5)
            .max(self.name_width.saturating_add(1))
            .max(LEAST_GAP)
            .min(GREATEST_GAP);
        if let Some(row) = chart.rows().last() {
            self.number_width = digits_of(row.number).max(5);
        }
        Ok(())
    }

    /// Gives each lifeline its place in a row, from the left.
    fn set_places(&mut self) {
        // The first name is centred on the first lifeline.
        let half = self.name_width / 2;
        let mut at = half.saturating_sub(self.number_width).max(2);
        for column in self.columns.as_mut_slice() {
            column.base = place_lifelines(self.lifelines.as_mut_slice(), column, at);
            at = column
                .base
                .saturating_add(column.lanes.saturating_mul(2))
                .saturating_add(self.gap);
        }
        self.width = at.saturating_sub(self.gap).saturating_add(6);
    }

    /// Returns the index of the column of the task of this number; `None` if it has none. Linear in the columns.
    pub fn column_index(&self, task: u32) -> Option<usize> {
        for (index, column) in self.columns.as_slice().iter().enumerate() {
            if column.task == task {
                return Some(index);
            }
        }
        None
    }

    /// Returns the column of the task of this number.
    pub(crate) fn column(&self, task: u32) -> Option<Column> {
        self.columns.get(self.column_index(task)?).copied()
    }

    /// Returns the column of the task of this number, to change.
    pub(crate) fn column_mut(&mut self, task: u32) -> Option<&mut Column> {
        let index = self.column_index(task)?;
        self.columns.get_mut(index)
    }

    /// Returns the index of the lifeline of a task and a caller: the task's first, if the caller has none.
    /// `None` if the task has no column. Linear in the columns and in the task's lifelines.
    pub fn lifeline(&self, task: u32, caller: u64) -> Option<usize> {
        let column = self.column(task)?;
        for index in column.first..column.first.saturating_add(column.lifelines) {
            if let Some(lifeline) = self.lifelines.get(index) {
                if lifeline.caller == caller {
                    return Some(index);
                }
            }
        }
        Some(column.first)
    }

    /// Whether a task has a lifeline for each of its blocks.
    pub(crate) fn has_blocks(&self, task: u32) -> bool {
        match self.column(task) {
            Some(column) => column.lifelines > 1,
            None => false,
        }
    }

    /// Writes the name of a lifeline: its task, or its caller if the task has several.
    pub(crate) fn write_name(&self, lifeline: &Lifeline, labels: &Labels, out: &mut Text) {
        let task = TaskId::new(lifeline.task);
        if self.has_blocks(lifeline.task) {
            labels.write_caller(lifeline.caller, task, out);
        } else {
            labels.write_task(task, out);
        }
    }

    /// Returns how many letters of a lifeline's name have room over it.
    pub(crate) fn longest_name(&self, lifeline: &Lifeline) -> usize {
        if self.has_blocks(lifeline.task) {
            return LIFELINES.saturating_sub(1);
        }
        self.gap.saturating_sub(1)
    }

    /// Empties all lanes.
    pub(crate) fn clear_lanes(&mut self) {
        for column in self.columns.as_mut_slice() {
            column.busy = Lanes::new();
        }
    }
}

/// Gives the lifelines of a column their places from this one on, and returns the last.
fn place_lifelines(lifelines: &mut [Lifeline], column: &Column, from: usize) -> usize {
    let mut at = from;
    for number in 0..column.lifelines {
        at = from.saturating_add(number.saturating_mul(LIFELINES));
        if let Some(lifeline) = lifelines.get_mut(column.first.saturating_add(number)) {
            lifeline.at = at;
        }
    }
    at
}

/// Returns how many blocks act on the task.
fn count_blocks(task: u32, callers: &[Caller]) -> usize {
    let mut count: usize = 0;
    for caller in callers {
        if caller.task == task && caller.caller != 0 {
            count = count.saturating_add(1);
        }
    }
    count
}

/// Returns the task's least caller from this number on.
fn least_from(task: u32, from: u64, callers: &[Caller]) -> Option<u64> {
    let mut least = None;
    for caller in callers {
        if caller.task == task && caller.caller >= from {
            least = match least {
                Some(other) if other <= caller.caller => Some(other),
                _ => Some(caller.caller),
            };
        }
    }
    least
}

/// Writes the label of a row's arrow, if it has one: the message and its port, or the right that is handed on.
/// Constant time.
pub fn write_label(row: &Row, labels: &Labels, out: &mut Text) {
    match row.mark {
        Mark::Sent | Mark::Told => {
            write_name(row.id, row.is_notice, labels, out);
            out.words(">");
            if let Some(port) = row.port {
                labels.write_port(PortId::new(port), out);
            }
        }
        Mark::Handed => {
            out.words(kind_word(row.id));
            match row.port {
                Some(port) => {
                    out.words(" ");
                    labels.write_port(PortId::new(port), out);
                }
                None => out.words(" dead"),
            }
        }
        _ => {}
    }
}

/// Returns how many cells a row's label takes. A right that is handed on has two more, for the head of its arrow.
fn width_of(row: &Row, label: &Text) -> usize {
    if row.mark == Mark::Handed {
        return label.len().saturating_add(2);
    }
    label.len()
}

/// Returns how many digits the number has in decimal.
pub(crate) fn digits_of(number: u64) -> usize {
    let mut rest = number;
    let mut digits: usize = 1;
    for _ in 0..20 {
        if rest < 10 {
            break;
        }
        rest /= 10;
        digits = digits.saturating_add(1);
    }
    digits
}
