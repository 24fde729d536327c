//! What is longest in a chart.
use mach_chart::write_label;
use mach_chart_base::{Chart, Mark, Row, write_name};
use mach_types::PortId;
use mach_words::{Labels, Text};
use std::alloc::{AllocError, Global};

/// How many letters a label has that isn't the message's.
const NO_MESSAGE: usize = 10;

/// How many letters the longest parts of a chart have.
#[derive(Clone, Copy)]
pub(crate) struct Survey {
    /// The label of an arrow.
    pub(crate) label: usize,
    /// What stands beside a lane or a lifeline.
    pub(crate) name: usize,
    /// The comment of a row.
    pub(crate) comment: usize,
}

impl Survey {
    /// Looks over a chart. Returns `AllocError` if out of memory. Linear in the chart.
    pub(crate) fn of(alloc: Global, chart: &Chart, labels: &Labels) -> Result<Survey, AllocError> {
        let mut survey = Survey {
            label: 6,
            name: 4,
            comment: 20,
        };
        let mut text = Text::new(alloc);
        for index in 0..chart.rows().len() {
            if let Some(row) = chart.rows().get(index) {
                survey.note_label(&row, labels, &mut text)?;
                survey.note_name(&row, labels, &mut text)?;
                survey.note_comment(chart, index)?;
            }
        }
        Ok(survey)
    }

    /// Notes the label of a row's arrow.
    fn note_label(
        &mut self,
        row: &Row,
        labels: &Labels,
        text: &mut Text,
    ) -> Result<(), AllocError> {
        text.clear();
        write_label(row, labels, text);
        self.label = self.label.max(text.whole()?.len());
        if row.mark == Mark::Handed {
            self.name = self.name.max(text.len());
        }
        Ok(())
    }

    /// Notes what stands beside a row's lane or lifeline.
    fn note_name(&mut self, row: &Row, labels: &Labels, text: &mut Text) -> Result<(), AllocError> {
        text.clear();
        write_beside(row, labels, text);
        self.name = self.name.max(text.whole()?.len());
        Ok(())
    }

    /// Notes the comment of the row at this index.
    fn note_comment(&mut self, chart: &Chart, index: usize) -> Result<(), AllocError> {
        let comment = chart.comment(index)?;
        let reply = chart.reply(index)?;
        let length = comment
            .len()
            .saturating_add(reply.len())
            .saturating_add(NO_MESSAGE);
        self.comment = self.comment.max(length);
        Ok(())
    }
}

/// Writes what stands beside a row's lane or lifeline, if anything does.
pub(crate) fn write_beside(row: &Row, labels: &Labels, out: &mut Text) {
    match row.mark {
        Mark::Received => write_name(row.id, row.is_notice, labels, out),
        Mark::Empty if row.is_waiting => out.words("waits"),
        Mark::Empty => out.words("no message"),
        Mark::Died => {
            if let Some(port) = row.port {
                labels.write_port(PortId::new(port), out);
            }
        }
        _ => {}
    }
}
