//! What is known of a message beside its bytes and a list of rights.
ghost use Rattle.std.specs.Prelude.{◌≡◌, Some, true, false};
ghost use Rattle.tables_base.specs.Envelope.{is_in_body, right_held};

use crate::message::{Carried, Mark};
use mach_types::{Disposition, PortId};
use std::marker::Model;
use std::mem;

// What stands in the place of the one right that may lie here, and whether it is the right to answer with
// or the body's.
#[derive(Clone, Copy, Debug, PartialEq, Eq)]
enum HeldKind {
    // None lies here.
    Absent,
    ReplyNull,
    ReplyPort,
    ReplyDead,
    BodyNull,
    BodyPort,
    BodyDead,
}

/// A message's id, its kind and one right, in 16 bytes. The right is the reply right, or the only right of a
/// body that is one short-form item of one port word and nothing else.
#[derive(Drop)]
pub struct Envelope {
    id: u32,
    is_complex: bool,
    by_once: bool,
    // The right: as an optional `Carried` it would take 32 bytes.
    kind: HeldKind,
    given: Disposition,
    port: PortId,
}

// It is moved with its message, into a queue and out of it.
const _: () = prove!(mem::size_of::<Envelope>() == 16);

impl Model for Envelope {
    ghost use Rattle.tables_base.specs.contracts.message.Carried as right;
    ghost use Rattle.tables_base.specs.Envelope.{EnvelopeView, envelope_code, is_in_body, right_held};

    ghost Value = { EnvelopeView };

    ghost coded = { envelope_code right.the_row.coded };

    ghost view = { λ e. record { id = e.id; is_complex = e.is_complex; by_once = e.by_once; in_body = is_in_body e.kind; right = right_held e.kind e.given e.port } };
}

// How a right to answer with is kept, if there is one.
#[inline(always)]
fn reply_parts(reply: Option<Carried>) -> (HeldKind, Disposition, PortId)
    ensures place { is_in_body result.0 ≡ false }
    ensures right { right_held result.0 result.1 result.2 ≡ reply }
{
    let Some(Carried { given, mark }) = reply else {
        return (HeldKind::Absent, Disposition::MoveSend, PortId::new(0));
    };
    match mark {
        Mark::Null => (HeldKind::ReplyNull, given, PortId::new(0)),
        Mark::Port(port) => (HeldKind::ReplyPort, given, port),
        Mark::Dead => (HeldKind::ReplyDead, given, PortId::new(0)),
    }
}

// How the only right of a body is kept.
#[inline(always)]
fn body_parts(carried: Carried) -> (HeldKind, Disposition, PortId)
    ensures place { is_in_body result.0 ≡ true }
    ensures right { right_held result.0 result.1 result.2 ≡ Some carried }
{
    let Carried { given, mark } = carried;
    match mark {
        Mark::Null => (HeldKind::BodyNull, given, PortId::new(0)),
        Mark::Port(port) => (HeldKind::BodyPort, given, port),
        Mark::Dead => (HeldKind::BodyDead, given, PortId::new(0)),
    }
}

impl Envelope {
    /// Of a message with this id and this reply right. `is_complex`: whether its body is a list of items;
    /// `by_once`: whether it is sent to a send-once right, and not to a send right. Constant time.
    #[inline(always)]
    pub fn new(id: u32, is_complex: bool, by_once: bool, reply: Option<Carried>) -> Envelope
        ensures { result ≡ record { id = id; is_complex = is_complex; by_once = by_once; in_body = false; right = reply } }
    {
        let (kind, given, port) = reply_parts(reply);
        Envelope {
            id,
            is_complex,
            by_once,
            kind,
            given,
            port,
        }
    }

    /// Of a message with this id that has no reply right, and whose body is one item of this right alone, in
    /// the short form. `by_once`: whether it is sent to a send-once right, and not to a send right. Constant
    /// time.
    #[inline(always)]
    pub fn with_body_right(id: u32, by_once: bool, carried: Carried) -> Envelope
        ensures { result ≡ record { id = id; is_complex = true; by_once = by_once; in_body = true; right = Some carried } }
    {
        let (kind, given, port) = body_parts(carried);
        Envelope {
            id,
            is_complex: true,
            by_once,
            kind,
            given,
            port,
        }
    }

    /// The message's id. Constant time.
    #[inline(always)]
    pub fn id(&self) -> u32
        ensures { result ≡ self.now.id }
    {
        self.id
    }

    /// Returns whether its body is a list of items. Constant time.
    #[inline(always)]
    pub fn is_complex(&self) -> bool
        ensures { result ≡ self.now.is_complex }
    {
        self.is_complex
    }

    /// Returns whether it is sent to a send-once right, and not to a send right. Constant time.
    #[inline(always)]
    pub fn by_once(&self) -> bool
        ensures { result ≡ self.now.by_once }
    {
        self.by_once
    }

    /// Returns whether the right that lies here is the body's, and not the reply right. Constant time.
    #[inline(always)]
    pub fn is_in_body(&self) -> bool
        ensures { result ≡ self.now.in_body }
    {
        match self.kind {
            HeldKind::BodyNull | HeldKind::BodyPort | HeldKind::BodyDead => true,
            HeldKind::Absent | HeldKind::ReplyNull | HeldKind::ReplyPort | HeldKind::ReplyDead =>
                false,
        }
    }

    /// The right that lies here, if one does: the reply right, or the body's. Constant time.
    #[inline(always)]
    pub fn right(&self) -> Option<Carried>
        ensures { result ≡ self.now.right }
    {
        let mark = match self.kind {
            HeldKind::Absent => return None,
            HeldKind::ReplyNull | HeldKind::BodyNull => Mark::Null,
            HeldKind::ReplyPort | HeldKind::BodyPort => Mark::Port(self.port),
            HeldKind::ReplyDead | HeldKind::BodyDead => Mark::Dead,
        };
        Some(Carried {
            given: self.given,
            mark,
        })
    }
}
