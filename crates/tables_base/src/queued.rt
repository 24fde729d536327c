//! What lies in a queue.
ghost use Rattle.std.specs.Prelude.{◌≡◌, ℕ, ◌+◌, true, length, slice_get, IfOk, OnErr};
ghost use Rattle.std.specs.Option.{option_and_then, option_to_list};
ghost use Rattle.tables_base.specs.Kept.{receive_of, IsMessageOf, Keeps, Makes};
ghost use Rattle.tables_base.specs.Queued.{notice_kept, notice_of};
ghost use Rattle.mach_model.specs.Notices.{notice_message};

use crate::message::{Carried, Message};
use crate::notice::Notice;
use mach_types::PortId;
use port::Message as InSlot;
use std::alloc::{AllocError, Global};
use std::marker::Model;

/// What lies in a slot.
#[derive(Drop)]
pub enum Slot {
    /// A message that a task sent.
    Sent(Message),
    /// A notice, whose bytes are made when it is received.
    Told(Notice),
}

/// What lies in a queue: a message that was sent, or a notice.
#[derive(Drop)]
pub struct Queued {
    /// Which of them it is.
    pub slot: Slot,
}

impl Model for Queued {
    ghost use Rattle.tables_base.specs.Kept.{Kept, kept_code};
    ghost use Rattle.tables_base.specs.contracts.message.Carried as carried;
    ghost use Rattle.tables_base.specs.Queued.{kept_in};

    ghost Value = { Kept };

    ghost coded = { kept_code carried.the_row.coded };

    ghost view = { λ q. kept_in q.slot };
}

impl Queued {
    /// A message that was sent.
    pub fn sent(message: Message) -> Queued
        ensures { result ≡ message }
    {
        Queued {
            slot: Slot::Sent(message),
        }
    }

    /// A notice. Takes no memory.
    pub fn told(notice: Notice) -> Queued
        ensures value { result ≡ notice_kept notice }
        ensures keeps { (port : ℕ) → Keeps port result (notice_message port (notice_of notice)) }
    {
        Queued {
            slot: Slot::Told(notice),
        }
    }

    /// How many bytes it has when it is received.
    pub fn len(&self) -> usize
        ensures { result ≡ length self.now.bytes }
    {
        match &self.slot {
            Slot::Sent(message) => message.bytes.len(),
            Slot::Told(notice) => notice.len(),
        }
    }

    /// How many rights its body carries.
    pub fn count_rights(&self) -> usize
        ensures { result ≡ length self.now.rights }
    {
        match &self.slot {
            Slot::Sent(message) => message.rights().as_slice().len(),
            Slot::Told(notice) => usize::from(notice.carried().is_some()),
        }
    }

    /// How many rights it carries, with the reply right.
    pub fn count_carried(&self) -> usize
        ensures { result ≡ length (option_to_list self.now.reply) + length self.now.rights }
    {
        match &self.slot {
            Slot::Sent(message) => {
                let body = message.rights().as_slice().len();
                body + usize::from(message.reply().is_some())
            }
            Slot::Told(notice) => usize::from(notice.carried().is_some()),
        }
    }

    /// The reply right, if it has one.
    pub fn reply(&self) -> Option<Carried>
        ensures { result ≡ self.now.reply }
    {
        match &self.slot {
            Slot::Sent(message) => message.reply(),
            Slot::Told(_) => None,
        }
    }

    /// The right at this place among the rights of its body, if there is one.
    pub fn right_at(&self, place: usize) -> Option<Carried>
        ensures { result ≡ slice_get self.now.rights place }
    {
        match &self.slot {
            Slot::Sent(message) => message.rights().as_slice().get(place).copied(),
            Slot::Told(notice) if place == 0 => notice.carried(),
            Slot::Told(_) => None,
        }
    }

    /// The port whose receive right is at this place among the rights of its body, if there is one.
    pub fn receive_at(&self, place: usize) -> Option<PortId>
        ensures { result ≡ option_and_then (λ c. receive_of c) (slice_get self.now.rights place) }
    {
        let carried = match &self.slot {
            Slot::Sent(message) => *message.rights().as_slice().get(place)?,
            Slot::Told(notice) if place == 0 => notice.carried()?,
            Slot::Told(_) => return None,
        };
        carried.receive_port()
    }

    /// Returns whether it is sent to a send-once right, as a notice does.
    pub fn by_once(&self) -> bool
        ensures { result ≡ self.now.by_once }
    {
        match &self.slot {
            Slot::Sent(message) => message.by_once(),
            Slot::Told(_) => true,
        }
    }

    /// The message that a notice is, made now. None where a message was sent, which takes no memory.
    ///
    /// An error means that memory for a notice was refused.
    pub fn make(&self, alloc: Global) -> Result<Option<Message>, AllocError>
        ensures made { IfOk result (λ made. Makes self.now made) }
        ensures told { OnErr result (self.now.told ≡ true) }
    {
        match &self.slot {
            Slot::Sent(message) => {
                // Of its fields it is seen that it is no notice.
                let _ = &message.bytes;
                Ok(None)
            }
            Slot::Told(notice) => {
                let message = notice.message(alloc)?;
                Ok(Some(message))
            }
        }
    }

    /// The message that it is, where [`Queued::make`] made this of it. Takes no memory.
    pub fn into_message(self, made: Option<Message>) -> Message
        requires { Makes self made }
        ensures { IsMessageOf self result }
    {
        match self.slot {
            Slot::Sent(message) => message,
            Slot::Told(_) => made.unwrap(),
        }
    }
}

impl InSlot for Queued {
    /// A notice of nothing.
    fn blank(_alloc: Global) -> Queued {
        Queued::told(Notice::SendOnce)
    }
}
