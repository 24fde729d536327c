//! The port words of a message.
ghost use Rattle.std.specs.Prelude.{◌≡◌, ℕ, ◌+◌, ◌*◌, ◌<◌, ◌≤◌, ◌++◌, List, length, IfOk, OnOk, OnErr};
ghost use Rattle.smallvec.specs.SmallVec.{small_vec_len, HasRoomFor};
ghost use Rattle.mach_types.specs.Grammar.{WireBody};
ghost use Rattle.message_codec.specs.Received.{IsLaidOut};
ghost use Rattle.message_codec.specs.Spans.{words_place, word_count};
ghost use Rattle.message_codec.specs.Words.{body_words, inline_words, named, StandsAt};

use crate::spans::Span;
use mach_types::Name;
use smallvec::SmallVec;
use std::alloc::{AllocError, Global};
use type_descriptor::read_word;

/// How many port words of a body are kept without an allocation.
pub const INLINE_WORDS: usize = 4;

/// A port word as it was sent.
#[derive(Clone, Copy, Debug, PartialEq, Eq)]
pub struct PortWord {
    /// The disposition of its item, 16 to 21; of a header's word, 17 to 21.
    pub disposition: u8,
    /// The sender's name of the right.
    pub name: Name,
}

impl Default for PortWord {
    /// No word: an unused place in a list of words.
    fn default() -> PortWord {
        PortWord {
            disposition: 0,
            name: Name::null(),
        }
    }
}

// How many words the items have. An error means that it is no number of the processor's.
fn count_words(spans: &[Span]) -> Result<usize, AllocError>
    ensures ok { IfOk result (λ count. count ≡ word_count spans.now) }
    ensures err { OnErr result (inline_words < word_count spans.now) }
{
    let mut count: usize = 0;
    for span in spans {
        let Some(more) = count.checked_add(span.number as usize) else {
            return Err(AllocError);
        };
        count = more;
    }
    Ok(count)
}

// Adds the words of one item, for which there is room.
fn read_words(words: &mut SmallVec<PortWord, INLINE_WORDS>, bytes: &[u8], span: &Span)
    requires within { words_place span.now + 4 * span.now.number ≤ length bytes.now }
    requires room { HasRoomFor words.old span.now.number }
    ensures words { (names : List ℕ) → StandsAt bytes.now (words_place span.now) names → length names ≡ span.now.number
        → words.new.items ≡ words.old.items ++ named span.now.disposition names }
    ensures len { small_vec_len words.new ≡ small_vec_len words.old + span.now.number }
    ensures capacity { words.new.capacity ≡ words.old.capacity }
{
    let disposition = span.disposition;
    let start = span.words_at();
    for index in 0..span.number as usize {
        let name = Name::new(read_word(bytes, start + 4 * index));
        words.push_reserved(PortWord { disposition, name });
    }
}

/// The port words of a message's body, from the front, each with the disposition of its item. Linear in
/// their number.
///
/// Up to [`INLINE_WORDS`] take no memory. An error means that it was refused for more.
pub fn port_words(
    alloc: Global,
    bytes: &[u8],
    spans: &[Span],
) -> Result<SmallVec<PortWord, INLINE_WORDS>, AllocError>
    requires laid_out { (written : WireBody) × IsLaidOut bytes.now spans.now written }
    ensures ok { IfOk result (λ words. (written : WireBody) → IsLaidOut bytes.now spans.now written → words.items ≡ body_words written) }
    ensures err { OnErr result ((written : WireBody) → IsLaidOut bytes.now spans.now written → inline_words < length (body_words written)) }
{
    let mut words = SmallVec::with_capacity(alloc, count_words(spans)?)?;
    for span in spans {
        read_words(&mut words, bytes, span);
    }
    Ok(words)
}
