//! A message that was sent, as it lies in a queue.
ghost use Rattle.std.specs.Prelude.{◌≡◌, [], IfOk, IsOk};
ghost use Rattle.tables_base.specs.Kept.{receive_of};
ghost use Rattle.tables_base.specs.Carrying.{spans_in, rights_in, rights_of};

use crate::envelope::Envelope;
use mach_types::{Disposition, PortId};
use message_codec::Span;
use smallvec::SmallVec;
use std::alloc::{AllocError, Global};
use std::boxed::Box;
use std::marker::Model;

/// What stands in a right's place in a queued message.
#[derive(Clone, Copy, Debug, PartialEq, Eq)]
pub enum Mark {
    /// No right: the word was 0.
    Null,
    /// A right for the port.
    Port(PortId),
    /// A right for a port that was dead when the message was sent.
    Dead,
}

/// A right in a queued message.
#[derive(Clone, Copy, Debug, PartialEq, Eq)]
pub struct Carried {
    /// The disposition under which it was sent.
    pub given: Disposition,
    /// What it is a right for.
    pub mark: Mark,
}

impl Carried {
    /// The port whose receive right it is, if it is one.
    pub fn receive_port(&self) -> Option<PortId>
        ensures { result ≡ receive_of self.now }
    {
        match (self.given, self.mark) {
            (Disposition::MoveReceive, Mark::Port(port)) => Some(port),
            _ => None,
        }
    }
}

impl Default for Carried {
    /// No right: an unused place in a list of rights, whose bytes are all zero.
    fn default() -> Carried {
        Carried {
            given: Disposition::MoveReceive,
            mark: Mark::Null,
        }
    }
}

/// How many rights of a body, and spans of their words, need no allocation of their own.
const INLINE_RIGHTS: usize = 2;

/// What a message's body carries beside its bytes, except for a right that lies in its envelope: its rights,
/// and where their words stand.
#[derive(Drop)]
pub struct CarriedRights {
    /// Where the port words of the body stand.
    pub spans: SmallVec<Span, INLINE_RIGHTS>,
    /// The rights of the body's port words, from the front.
    pub rights: SmallVec<Carried, INLINE_RIGHTS>,
}

impl CarriedRights {
    /// Keeps these, if there are any: most messages carry none, and need no memory for it.
    ///
    /// An error means that memory was refused.
    pub fn of(
        alloc: Global,
        spans: &[Span],
        rights: &[Carried],
    ) -> Result<Option<Box<CarriedRights>>, AllocError>
        ensures spans { IfOk result (λ carried. spans_in carried ≡ spans.now) }
        ensures rights { IfOk result (λ carried. rights_in carried ≡ rights.now) }
        ensures none { spans.now ≡ [] → rights.now ≡ [] → IsOk result }
    {
        if spans.is_empty() && rights.is_empty() {
            return Ok(None);
        }
        let carried = CarriedRights {
            spans: SmallVec::from_slice(alloc, spans)?,
            rights: SmallVec::from_slice(alloc, rights)?,
        };
        let carried = Box::new(alloc, carried)?;
        Ok(Some(carried))
    }
}

/// The rights of a message's body, from the front.
#[derive(Clone, Copy)]
pub enum BodyRights<'a> {
    /// One that lies in its envelope.
    One([Carried; 1]),
    /// Those of a list, which may have none.
    Listed(&'a [Carried]),
}

impl BodyRights<'_> {
    /// The rights, to read.
    #[inline(always)]
    pub fn as_slice(&self) -> &[Carried]
        ensures { result.now ≡ rights_of self.now }
    {
        match self {
            BodyRights::One(one) => one,
            BodyRights::Listed(rights) => rights,
        }
    }
}

/// A message: its bytes as they were sent, and what it carries beside them.
#[derive(Drop)]
pub struct Message {
    /// All its bytes, 24 to 65,536.
    pub bytes: Vec<u8>,
    /// Its id, what kind of message it is, and one right: the reply right, or the only one of its body.
    pub envelope: Envelope,
    /// The rights of its body, and where their words stand, where none of the body's lies in the envelope. A
    /// message that has none of these is small in its queue.
    pub carried: Option<Box<CarriedRights>>,
}

impl Model for Message {
    ghost use Rattle.std.specs.Prelude.{false};
    ghost use Rattle.tables_base.specs.Kept.{Kept, kept_code};
    ghost use Rattle.tables_base.specs.Carrying.{reply_held, spans_held, rights_held};
    ghost use Rattle.tables_base.specs.contracts.message.Carried as right;

    ghost Value = { Kept };

    ghost coded = { kept_code right.the_row.coded };

    ghost view = { λ m. record {
      bytes = m.bytes.items;
      id = m.envelope.id;
      is_complex = m.envelope.is_complex;
      spans = spans_held m.envelope.in_body m.envelope.right m.carried;
      by_once = m.envelope.by_once;
      reply = reply_held m.envelope.in_body m.envelope.right;
      rights = rights_held m.envelope.in_body m.envelope.right m.carried;
      told = false;
    } };
}

impl Message {
    /// Returns whether it is sent to a send-once right, and not to a send right.
    #[inline(always)]
    pub fn by_once(&self) -> bool
        ensures { result ≡ self.now.by_once }
    {
        self.envelope.by_once()
    }

    /// The reply right.
    #[inline(always)]
    pub fn reply(&self) -> Option<Carried>
        ensures { result ≡ self.now.reply }
    {
        if self.envelope.is_in_body() {
            None
        } else {
            self.envelope.right()
        }
    }

    /// The rights of the body's port words, from the front.
    #[inline(always)]
    pub fn rights(&self) -> BodyRights<'_>
        ensures { rights_of result ≡ self.now.rights }
    {
        if self.envelope.is_in_body() {
            return match self.envelope.right() {
                Some(carried) => BodyRights::One([carried]),
                None => BodyRights::Listed(&[]),
            };
        }
        match &self.carried {
            Some(carried) => BodyRights::Listed(carried.rights.as_slice()),
            None => BodyRights::Listed(&[]),
        }
    }
}
