//! A notice that the kernel sends, and the message that it is.
ghost use Rattle.std.specs.Prelude.{◌≡◌, ◌++◌, true, replicate, length, IfOk};
ghost use Rattle.mach_model.specs.Notices.{notice_id};
ghost use Rattle.tables_base.specs.Kept.{IsMessageOf};
ghost use Rattle.tables_base.specs.Queued.{notice_of, item_words, item_text, carried_with, notice_kept, is_carrying};

use crate::envelope::Envelope;
use crate::message::{Carried, Mark, Message};
use mach_types::{Disposition, Name, PortId};
use std::alloc::{AllocError, Global};
use type_descriptor::write_word;

// The descriptors of an item of one name, one receive right, and one number, in the short form.
const NAME_ITEM: u32 = 0x1001_200f;

const RECEIVE_ITEM: u32 = 0x1001_2010;

const NUMBER_ITEM: u32 = 0x1001_2002;

/// A notice: what became of a name, a port or a right (IPC Interface, notifications).
#[derive(Clone, Copy, Debug, PartialEq, Eq)]
pub enum Notice {
    /// The name that a request was made on is no name any more.
    PortDeleted(Name),
    /// The port would have died; its receive right comes with the notice.
    PortDestroyed(PortId),
    /// The port has no send rights any more, and so many were made.
    NoSenders(u32),
    /// A send-once right went unused.
    SendOnce,
    /// The port of the name died.
    DeadName(Name),
}

impl Notice {
    /// Its number: the id of the message that it is.
    pub fn id(&self) -> u32
        ensures { result ≡ notice_id (notice_of self.now) }
    {
        match self {
            Notice::PortDeleted(_) => 65,
            Notice::PortDestroyed(_) => 69,
            Notice::NoSenders(_) => 70,
            Notice::SendOnce => 71,
            Notice::DeadName(_) => 72,
        }
    }

    /// The right that it carries, if it does.
    pub fn carried(&self) -> Option<Carried>
        ensures { result ≡ carried_with self.now }
    {
        match self {
            Notice::PortDestroyed(port) => Some(Carried {
                given: Disposition::MoveReceive,
                mark: Mark::Port(*port),
            }),
            _ => None,
        }
    }

    // The descriptor and the word of its item.
    fn words(&self) -> Option<(u32, u32)>
        ensures { result ≡ item_words self.now }
    {
        match self {
            Notice::PortDeleted(name) | Notice::DeadName(name) => Some((NAME_ITEM, name.number())),
            Notice::PortDestroyed(_) => Some((RECEIVE_ITEM, 0)),
            Notice::NoSenders(number) => Some((NUMBER_ITEM, *number)),
            Notice::SendOnce => None,
        }
    }

    // What is known of the message beside its bytes.
    fn envelope(&self) -> Envelope
        ensures { result ≡ record { id = notice_id (notice_of self.now); is_complex = is_carrying (carried_with self.now); by_once = true; in_body = is_carrying (carried_with self.now); right = carried_with self.now } }
    {
        match self.carried() {
            Some(carried) => Envelope::with_body_right(self.id(), true, carried),
            None => Envelope::new(self.id(), false, true, None),
        }
    }

    /// How many bytes it has.
    pub fn len(&self) -> usize
        ensures { result ≡ length (notice_kept self.now).bytes }
    {
        match self {
            Notice::SendOnce => 24,
            _ => 32,
        }
    }

    /// The message that it is. Its header is written when it is received.
    ///
    /// An error means that memory was refused.
    pub fn message(&self, alloc: Global) -> Result<Message, AllocError>
        ensures { IfOk result (λ message. IsMessageOf (notice_kept self.now) message) }
    {
        Ok(Message {
            bytes: item_bytes(alloc, self.words())?,
            envelope: self.envelope(),
            carried: None,
        })
    }
}

// 24 bytes for a header, and the words of an item.
fn item_bytes(alloc: Global, words: Option<(u32, u32)>) -> Result<Vec<u8>, AllocError>
    ensures { IfOk result (λ bytes. bytes.items ≡ replicate 24 0 ++ item_text words) }
{
    let Some((descriptor, word)) = words else {
        return Vec::from_slice(alloc, &[0; 24]);
    };
    let mut bytes = [0; 32];
    write_word(&mut bytes, 24, descriptor);
    write_word(&mut bytes, 28, word);
    Vec::from_slice(alloc, &bytes)
}
