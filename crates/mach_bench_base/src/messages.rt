//! The messages of workloads and worlds.
use crate::calls::{COMPLEX, Label, MAKE_SEND, MOVE_RECEIVE, Round};
use mach_types::Bytes;
use std::alloc::{AllocError, Global};

/// How many words a header is.
const HEADER: u32 = 6;
/// Where in a received message the name of its reply right is, or 0: bytes from the start.
const REPLY_AT: usize = 8;
/// Where in a message the name of its body's first right is, if that right is in an item of its own.
const RIGHT_AT: usize = 28;
/// The word before an item of one send right, made.
const ONE_RIGHT: u32 = 0x1001_2000 | MAKE_SEND;
/// The word before an item of 64.
const MANY_RIGHTS: u32 = 0x1040_2000 | MAKE_SEND;
/// The word before an item of one receive right.
const RECEIVE_RIGHT: u32 = 0x1001_2000 | MOVE_RECEIVE;

/// What stands behind the header of a message.
#[derive(Clone, Copy)]
pub enum Body {
    /// So many words that are 0.
    Zeros(u32),
    /// So many rights from under 1 on, in an item each.
    Items(u32),
    /// 64 rights from under 1 on, in one item.
    Together,
    /// The receive right under the name.
    Moved(Label),
}

impl Body {
    /// How many words it is.
    fn length(self) -> u32 {
        match self {
            Body::Zeros(length) => length,
            Body::Items(count) => count.wrapping_mul(2),
            Body::Together => 65,
            Body::Moved(_) => 2,
        }
    }

    /// The word of this number, from 0, in this round.
    fn word(self, index: u32, round: Round) -> u32 {
        match self {
            Body::Zeros(_) => 0,
            Body::Items(_) if index % 2 == 0 => ONE_RIGHT,
            Body::Items(_) => round.name(index / 2 + 1).number(),
            Body::Together if index == 0 => MANY_RIGHTS,
            Body::Together => round.name(index).number(),
            Body::Moved(_) if index == 0 => RECEIVE_RIGHT,
            Body::Moved(label) => label.name(round).number(),
        }
    }
}

/// A message, whose size, sequence number and id are 0.
#[derive(Clone, Copy)]
pub struct Message {
    /// The bits of the header.
    pub bits: u32,
    /// The name of the destination.
    pub to: Label,
    /// The name of the reply, or 0.
    pub reply: u32,
    /// What stands behind the header.
    pub body: Body,
}

impl Message {
    /// The bytes of the message in this round.
    pub fn bytes(self, alloc: Global, round: Round) -> Result<Bytes, AllocError> {
        let mut text = Vec::new(alloc);
        for index in 0..HEADER.saturating_add(self.body.length()) {
            text.extend_from_slice(&self.word(index, round).to_le_bytes())?;
        }
        Ok(Bytes::from_vec(text))
    }

    /// The word of this number, from 0.
    fn word(self, index: u32, round: Round) -> u32 {
        match index {
            0 => self.bits,
            2 => self.to.name(round).number(),
            3 => round.name(self.reply).number(),
            1 | 4 | 5 => 0,
            _ => self.body.word(index.wrapping_sub(HEADER), round),
        }
    }
}

/// The name of a received message's reply right; if it has none, of the first right in its body.
pub(crate) fn name_in_message(bytes: &[u8]) -> Option<u32> {
    let reply = word_at(bytes, REPLY_AT)?;
    if reply != 0 {
        return Some(reply);
    }
    let bits = word_at(bytes, 0)?;
    if bits & COMPLEX == 0 {
        return None;
    }
    word_at(bytes, RIGHT_AT)
}

/// The word that begins at this byte, if the message is that long.
fn word_at(bytes: &[u8], start: usize) -> Option<u32> {
    let word = bytes.get(start..start.saturating_add(4))?;
    let word = <[u8; 4]>::try_from(word).ok()?;
    Some(u32::from_le_bytes(word))
}
