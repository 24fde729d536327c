//! The names of lifelines.
use crate::painter::Painter;
use crate::places::{LETTER, at, wide};
use mach_types::TaskId;
use mach_words::Text;
use mach_xml::{Drawing, Fit};
use std::alloc::AllocError;

impl<'a> Painter<'a> {
    /// Writes the names of the lifelines at the top, and again between rows.
    pub(crate) fn draw_names(
        &self,
        drawing: &mut Drawing,
        scratch: &mut Text,
    ) -> Result<(), AllocError> {
        self.draw_names_at(None, drawing, scratch)?;
        for index in 0..self.chart.rows().len() {
            if self.grid.rows.has_names(index) {
                self.draw_names_at(Some(index), drawing, scratch)?;
            }
        }
        Ok(())
    }

    /// Writes the names of the lifelines before a row, or at the top.
    fn draw_names_at(
        &self,
        row: Option<usize>,
        drawing: &mut Drawing,
        scratch: &mut Text,
    ) -> Result<(), AllocError> {
        let y = match row {
            Some(row) => self.grid.rows.top(row).saturating_sub(80),
            None => 220,
        };
        for column in self.layout.columns() {
            if row.is_some_and(|row| !self.chart.is_alive(column.task, row)) {
                continue;
            }
            for index in column.first..column.first.saturating_add(column.lifelines) {
                self.write_name(column.lifelines > 1, index, scratch);
                let name = scratch.whole()?;
                let most = self.grid.name_room(column);
                let half = wide(name.len().min(most), LETTER) / 2;
                let x = self.grid.lifeline(index).saturating_sub(half);
                drawing.letters(
                    "name",
                    at(x, y),
                    name,
                    Fit {
                        most,
                        pitch: LETTER,
                    },
                );
            }
        }
        Ok(())
    }

    /// Writes the name of the lifeline at this index: that of its caller if its task has several.
    fn write_name(&self, has_callers: bool, index: usize, out: &mut Text) {
        out.clear();
        let Some(lifeline) = self.layout.each_lifeline().get(index) else {
            return;
        };
        let task = TaskId::new(lifeline.task);
        if has_callers {
            self.labels.write_caller(lifeline.caller, task, out);
        } else {
            self.labels.write_task(task, out);
        }
    }
}
