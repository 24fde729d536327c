//! Where the port words of a message stand.
ghost use Rattle.std.specs.Prelude.{◌≡◌};

use crate::header::HEADER_BYTES;
use smallvec::SmallVec;
use std::marker::Model;

/// How many items with port words are kept without an allocation.
pub(crate) const INLINE_SPANS: usize = 8;

/// Where an item's port words stand, and what its descriptor says of them.
#[derive(Clone, Copy, Debug, Default, PartialEq, Eq)]
pub struct Span {
    /// The offset of the item's descriptor in the message, in bytes.
    pub at: u32,
    /// Whether the descriptor is in the long form.
    pub long: bool,
    /// The disposition of each word, 16 to 21.
    pub disposition: u8,
    /// How many words there are: at most 16,384, as a message has no more bytes than 65,536.
    pub number: u16,
}

impl Span {
    ghost use Rattle.message_codec.specs.Short.{one_word_span};
    ghost use Rattle.message_codec.specs.Spans.{kind_place, words_place};

    /// The span of the port word of a body that is one word in the short form and nothing else.
    pub fn of_one_word(disposition: u8) -> Span
        ensures { result ≡ one_word_span disposition }
    {
        Span {
            at: HEADER_BYTES as u32,
            long: false,
            disposition,
            number: 1,
        }
    }

    /// The offset of the byte that says the disposition.
    pub(crate) fn kind_at(&self) -> usize
        ensures { result ≡ kind_place self.now }
    {
        self.at as usize + if self.long { 4 } else { 0 }
    }

    /// The offset of the first word in the message, in bytes; the others follow it.
    pub fn words_at(&self) -> usize
        ensures { result ≡ words_place self.now }
    {
        self.at as usize + if self.long { 12 } else { 4 }
    }
}

/// The port words of a message, item by item from the front. Items of plain data have none.
#[derive(Debug, Drop)]
pub struct Spans {
    spans: SmallVec<Span, 8>,
}

impl Model for Spans {
    ghost use Rattle.std.specs.Prelude.{List};
    ghost use Rattle.message_codec.specs.declared.spans.Span.{Span};

    ghost Value = { List Span };

    ghost view = { λ a. a.spans.items };
}

impl Spans {
    ghost use Rattle.std.specs.Prelude.{◌≡◌};

    /// These spans. Takes no memory.
    pub fn from_small_vec(spans: SmallVec<Span, 8>) -> Spans
        ensures { result ≡ spans.items }
    {
        Spans { spans }
    }

    /// The spans, to read.
    pub fn as_slice(&self) -> &[Span]
        ensures { result.now ≡ self.now }
    {
        self.spans.as_slice()
    }
}
