//! The messages of a queue that are drawn.
use crate::reading::{port_of, write_title};
use crate::scene::State;
use crate::thing::{Chip, Kind, Thing, Tied};
use copyin_base::{Carried, Mark, Queued};
use mach_fates::Origin;
use mach_words::Text;
use std::alloc::{AllocError, Global};

/// How many letters of a message's name are drawn.
pub const LETTERS: usize = 10;
/// How wide a small letter is, in tenths of a pixel.
pub const SMALL: u32 = 66;
/// How wide a port is, in tenths of a pixel.
pub const PORT_WIDTH: u32 = 2_080;
/// From the left of a port to its queue.
const LEFT_OF_QUEUE: u32 = 120;
/// The margin of a message beside its name, on both sides together.
const MARGIN: u32 = 100;
/// How far messages are apart.
const APART: u32 = 50;

/// What of a queue is drawn.
#[derive(Drop)]
pub(crate) struct Queue {
    /// The messages.
    pub(crate) messages: Vec<Thing>,
    /// The rights that leave them.
    pub(crate) rights: Vec<Thing>,
    text: Text,
}

/// Where a message stands.
#[derive(Clone, Copy)]
struct Stand {
    // From the left of its port.
    left: u32,
    // How wide it is.
    width: u32,
    // Its number among all messages.
    serial: u64,
}

impl Queue {
    /// Has none. Takes no memory.
    pub(crate) fn new(alloc: Global) -> Queue {
        Queue {
            messages: Vec::new(alloc),
            rights: Vec::new(alloc),
            text: Text::new(alloc),
        }
    }

    /// Reads the messages of a port for which there is room.
    pub(crate) fn read(&mut self, state: &State<'_>, identity: u64) -> Result<(), AllocError> {
        self.messages.clear();
        self.rights.clear();
        let Some(queue) = state.follower.tables().queue(port_of(identity)) else {
            return Ok(());
        };
        let Some(origins) = state.fates.origins(port_of(identity)) else {
            return Ok(());
        };
        let mut origins = origins.iter();
        let mut left = LEFT_OF_QUEUE;
        let mut rest = queue.len();
        for queued in queue.iter() {
            let Some(origin) = origins.next() else {
                break;
            };
            let width = self.width_of(state, origin)?;
            if !has_room(left.saturating_add(width), rest) {
                self.messages.push(Thing::More(rest as u64, left))?;
                break;
            }
            self.add(origin, left)?;
            let serial = origin.serial;
            self.add_rights(
                state,
                queued,
                &Stand {
                    left,
                    width,
                    serial,
                },
            )?;
            left = left.saturating_add(width).saturating_add(APART);
            rest = rest.saturating_sub(1);
        }
        Ok(())
    }

    /// Returns how wide a message is.
    fn width_of(&mut self, state: &State<'_>, origin: &Origin) -> Result<u32, AllocError> {
        self.text.clear();
        write_title(origin.id, origin.is_notice, state.labels, &mut self.text);
        let letters = self.text.whole()?.len().min(LETTERS);
        Ok(
            (letters as u32)
                .saturating_mul(SMALL)
                .saturating_add(MARGIN),
        )
    }

    /// Adds a message.
    fn add(&mut self, origin: &Origin, left: u32) -> Result<(), AllocError> {
        self.messages.push(Thing::Message(Chip {
            id: origin.id,
            is_notice: origin.is_notice,
            entry: origin.entry,
            left,
        }))?;
        Ok(())
    }

    /// Adds the rights that a message carries.
    fn add_rights(
        &mut self,
        state: &State<'_>,
        queued: &Queued,
        stand: &Stand,
    ) -> Result<(), AllocError> {
        let mut turn = 0;
        if let Some(reply) = queued.reply() {
            self.add_right(state, &reply, turn, stand)?;
            turn = 1;
        }
        for place in 0..queued.count_rights() {
            if let Some(right) = queued.right_at(place) {
                self.add_right(state, &right, turn, stand)?;
                turn = turn.saturating_add(1);
            }
        }
        Ok(())
    }

    /// Adds a right that a message carries, if its port lives.
    fn add_right(
        &mut self,
        state: &State<'_>,
        right: &Carried,
        turn: u32,
        stand: &Stand,
    ) -> Result<(), AllocError> {
        let Mark::Port(port) = right.mark else {
            return Ok(());
        };
        if !state.follower.tables().has_port(port) {
            return Ok(());
        }
        let middle = stand.left.saturating_add(stand.width / 2);
        let line = u32::try_from(self.rights.len()).unwrap_or(0);
        self.rights.push(Thing::Right(Tied {
            kind: Kind::of_number(u32::from(right.given.kind_number())),
            port: port.number(),
            left: middle.saturating_add(turn.min(8).saturating_mul(40)),
            line: line % 4,
            way: (stand.serial % 5) as u32,
        }))?;
        Ok(())
    }
}

/// Whether a message that ends here has room in its port. If others follow, they need room for their number.
fn has_room(end: u32, rest: usize) -> bool {
    let margin = if rest > 1 { 300 } else { 60 };
    end <= PORT_WIDTH.saturating_sub(margin)
}
