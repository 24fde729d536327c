//! Writing what a receiver gets.
ghost use Rattle.std.specs.Prelude.{◌≡◌, ◌+◌, ◌*◌, ◌^◌, ◌<◌, ◌≤◌, ◌++◌, List, length, take, drop, All};
ghost use Rattle.mach_types.specs.Grammar.{WireBody, body_text, words_text};
ghost use Rattle.message_codec.specs.Received.{header_text, received_body, received_kind, IsLaidOut};
ghost use Rattle.message_codec.specs.Spans.{words_place, word_count, SpansFit};
ghost use Rattle.message_codec.specs.Putting.{with_span, with_spans};

use crate::header::{Header, put_header};
use crate::spans::Span;
use mach_types::{Disposition, Name};
use type_descriptor::write_word;

/// The number that stands for the kind of right that was sent under a disposition.
fn kind_received(disposition: u8) -> u8
    ensures { result ≡ received_kind disposition }
{
    match Disposition::from_number(u32::from(disposition)) {
        Some(given) => given.kind_number(),
        None => disposition,
    }
}

/// Writes names as words, from an offset on.
pub(crate) fn put_names(bytes: &mut [u8], at: usize, names: &[Name])
    requires { at + 4 * length names.now ≤ length bytes.old }
    ensures bytes { bytes.new ≡ take at bytes.old ++ words_text names.now ++ drop (at + 4 * length names.now) bytes.old }
    ensures words { All (λ w. w < 2 ^ 32) names.now }
{
    let mut next = at;
    for name in names {
        write_word(bytes, next, name.number());
        next += 4;
    }
}

/// Writes the kind and the words of one item over what was sent.
fn put_span(bytes: &mut [u8], span: &Span, names: &[Name])
    requires room { words_place span.now + 4 * length names.now ≤ length bytes.old }
    ensures { bytes.new ≡ with_span span.now names.now bytes.old }
{
    bytes[span.kind_at()] = kind_received(span.disposition);
    put_names(bytes, span.words_at(), names);
}

/// Writes the kinds and the words of all items.
#[inline(always)]
fn put_spans(bytes: &mut [u8], spans: &[Span], names: &[Name])
    requires room { SpansFit (length bytes.old) spans.now }
    requires named { length names.now ≡ word_count spans.now }
    ensures { bytes.new ≡ with_spans spans.now names.now bytes.old }
{
    let mut names = names;
    for span in spans {
        let (front, rest) = names.split_at(span.number as usize);
        put_span(bytes, span, front);
        names = rest;
    }
}

/// Makes the bytes of a sent message those that a receiver gets (IPC Interface, `mach_msg`). It writes the
/// six words of the header, the kind of each item with port words, and these words. `names` has one name for
/// each word, from the front. All other bytes stay as they were sent. Takes no memory, and time that grows
/// with the number of items and words.
#[inline(always)]
pub fn put_received(bytes: &mut [u8], spans: &[Span], header: &Header, names: &[Name])
    requires laid_out { (written : WireBody) × IsLaidOut bytes.old spans.now written }
    requires named { length names.now ≡ word_count spans.now }
    ensures { (written : WireBody) → IsLaidOut bytes.old spans.now written
        → bytes.new ≡ header_text header.now ++ body_text (received_body written names.now) }
{
    put_header(bytes, header);
    put_spans(bytes, spans, names);
}
