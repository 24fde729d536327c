//! Queues that go along with a receive right.
use crate::chart::{Chart, Told, write_title};
use crate::hops::{Way, root_holder};
use crate::rows::Mark;
use mach_fates::Origin;
use mach_types::{Event, PortId};
use std::alloc::AllocError;

impl Chart {
    /// Notes the queued messages that went to another task with the receive rights of their ports.
    pub(crate) fn note_moves(&mut self, told: &Told<'_>) -> Result<(), AllocError> {
        for port in told.fates.effects().carried.as_slice() {
            self.move_queues(told, *port)?;
        }
        match &told.entry.event {
            Event::InsertRight(_, _, _, _, 16) | Event::ExtractRight(_, _, 16, _) => {
                if let Some(port) = told.handed {
                    self.move_queues(told, port)?;
                }
                Ok(())
            }
            _ => Ok(()),
        }
    }

    /// Moves the queue of a port to the task that holds it now, and the queues of the ports whose receive rights lie there.
    fn move_queues(&mut self, told: &Told<'_>, port: PortId) -> Result<(), AllocError> {
        let Some(task) = root_holder(told.follower.tables(), port) else {
            return Ok(());
        };
        let mut ports = Vec::new(told.alloc);
        ports.push(port)?;
        for place in 0..told.follower.tables().count_ports() {
            let Some(port) = ports.as_slice().get(place).copied() else {
                break;
            };
            self.move_queue(told, port, task.number())?;
            add_carried(told, port, &mut ports)?;
        }
        Ok(())
    }

    /// Moves the queue of a port to the task of this number, in a row of its own if the entry is shown.
    fn move_queue(&mut self, told: &Told<'_>, port: PortId, task: u32) -> Result<(), AllocError> {
        let Some(origins) = told.fates.origins(port) else {
            return Ok(());
        };
        let mut count: usize = 0;
        for origin in origins.iter() {
            if self.is_elsewhere(origin, task) {
                self.write_moved(told, port, origin, count);
                count = count.saturating_add(1);
            }
        }
        if count == 0 {
            return Ok(());
        }
        if told.is_shown {
            self.push(told.row(Mark::Moved))?;
        }
        for origin in origins.iter() {
            if self.is_elsewhere(origin, task) {
                self.move_message(origin, task, told.is_shown)?;
            }
        }
        Ok(())
    }

    /// Whether a message is beside another task's lifelines.
    fn is_elsewhere(&self, origin: &Origin, task: u32) -> bool {
        match self.place(origin.serial) {
            Some(place) => place.task != task,
            None => false,
        }
    }

    /// Appends to the comments that the message goes along, if the entry is shown. So many went before it.
    fn write_moved(&mut self, told: &Told<'_>, port: PortId, origin: &Origin, count: usize) {
        if !told.is_shown {
            return;
        }
        if count == 0 {
            self.comments.words("the queue of ");
            told.labels.write_port(port, &mut self.comments);
            self.comments.words(" goes along: ");
        } else {
            self.comments.words(", ");
        }
        write_title(origin, told.labels, &mut self.comments);
    }

    /// Moves a message to the task of this number, in the last row if it is shown.
    fn move_message(
        &mut self,
        origin: &Origin,
        task: u32,
        is_shown: bool,
    ) -> Result<(), AllocError> {
        self.leave(origin, is_shown)?;
        if let Ok(index) = usize::try_from(origin.serial) {
            if let Some(place) = self.places.get_mut(index) {
                place.task = task;
            }
        }
        self.hop(origin.serial, task, Way::In, is_shown)
    }
}

/// Adds the ports whose receive rights the messages of a port carry.
fn add_carried(told: &Told<'_>, port: PortId, ports: &mut Vec<PortId>) -> Result<(), AllocError> {
    let Some(queue) = told.follower.tables().queue(port) else {
        return Ok(());
    };
    for queued in queue.iter() {
        for place in 0..queued.count_rights() {
            if let Some(carried) = queued.receive_at(place) {
                ports.push(carried)?;
            }
        }
    }
    Ok(())
}
