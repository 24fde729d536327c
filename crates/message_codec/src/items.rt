//! The items of a body.
ghost use Rattle.std.specs.Prelude.{◌≡◌, ◌+◌, ◌-◌, ◌%◌, ◌^◌, ◌<◌, ◌≤◌, ◌⊎◌, ◌++◌, [], length, drop, IfOk, IfErr, OnOk, OnErr, IsSome};
ghost use Rattle.std.specs.Option.{option_to_list};
ghost use Rattle.smallvec.specs.SmallVec.{small_vec_len};
ghost use Rattle.mach_types.specs.declared.codes.MsgReturn.TheVariants.{SendNoBuffer};
ghost use Rattle.mach_types.specs.Grammar.{NamesPorts};
ghost use Rattle.mach_types.specs.Numbers.{most_bytes};
ghost use Rattle.mach_types.specs.Codes.{msg_number};
ghost use Rattle.mach_types.specs.TextGuards.{ItemRefuses, ItemsRefuse, data_length};
ghost use Rattle.type_descriptor.specs.Describes.{Describes, form_of, form_length};
ghost use Rattle.message_codec.specs.Reading.{DescriptorSpan, ReadsItem, ReadsItems, HasMany};
ghost use Rattle.message_codec.specs.Spans.{inline_spans};

use crate::header::HEADER_BYTES;
use crate::spans::Span;
use mach_types::MsgReturn;
use smallvec::SmallVec;
use std::alloc::AllocError;
use type_descriptor::{Descriptor, data_len, descriptor_len, read_descriptor};

/// An item that was read.
#[derive(Clone, Copy)]
pub(crate) struct Item {
    /// Its port words, if it has any.
    pub(crate) span: Option<Span>,
    /// The offset of what follows it, in bytes.
    pub(crate) end: usize,
}

/// The span of the item with this descriptor at this offset, if it has port words.
fn span_of(descriptor: &Descriptor, at: u32) -> Option<Span>
    requires name { descriptor.now.name < 256 }
    requires few { NamesPorts descriptor.now.name → descriptor.now.number < 2 ^ 16 }
    ensures { DescriptorSpan descriptor.now at result }
{
    if !(16..=21).contains(&descriptor.name) {
        return None;
    }
    Some(Span {
        at,
        long: descriptor.long,
        disposition: descriptor.name as u8,
        number: descriptor.number as u16,
    })
}

/// The item at an offset, where some bytes are left.
pub(crate) fn read_item(bytes: &[u8], at: usize) -> Result<Item, MsgReturn>
    requires more { at < length bytes.now }
    requires whole { (length bytes.now - at) % 4 ≡ 0 }
    requires fits { length bytes.now ≤ most_bytes }
    ensures ok { IfOk result (λ item. ReadsItem bytes.now at item.span item.end) }
    ensures err { IfErr result (λ code. ItemRefuses (drop at bytes.now) (msg_number code)) }
{
    let descriptor = read_descriptor(bytes, at)?;
    let start = at + descriptor_len(&descriptor);
    let data = data_len(&descriptor);
    if ((bytes.len() - start) as u64) < data {
        return Err(MsgReturn::SendMsgTooSmall);
    }
    Ok(Item {
        span: span_of(&descriptor, at as u32),
        end: start + (data as usize + 3) / 4 * 4,
    })
}

/// Adds the span of an item that has one.
fn keep(spans: &mut SmallVec<Span, 8>, span: Option<Span>) -> Result<(), AllocError>
    ensures ok { OnOk result (spans.new.items ≡ spans.old.items ++ option_to_list span) }
    ensures err { OnErr result ((spans.old.capacity ≤ small_vec_len spans.old) × IsSome span) }
    ensures capacity { spans.old.capacity ≤ spans.new.capacity }
{
    if let Some(span) = span {
        spans.push(span)?;
    }
    Ok(())
}

/// Puts the spans of all items into a list that has none. The whole body is judged before want of
/// memory.
pub(crate) fn read_spans(spans: &mut SmallVec<Span, 8>, bytes: &[u8]) -> Result<(), MsgReturn>
    requires none { spans.old.items ≡ [] }
    requires inline { spans.old.capacity ≡ inline_spans }
    requires room { 24 ≤ length bytes.now }
    requires whole { length bytes.now % 4 ≡ 0 }
    requires fits { length bytes.now ≤ most_bytes }
    ensures ok { OnOk result (ReadsItems bytes.now spans.new.items) }
    ensures err { IfErr result (λ code. ItemsRefuse (drop 24 bytes.now) (msg_number code)
        ⊎ (code ≡ SendNoBuffer) × HasMany bytes.now) }
{
    let mut lacks_memory = false;
    let mut at = HEADER_BYTES;
    while at < bytes.len() {
        let item = read_item(bytes, at)?;
        if keep(spans, item.span).is_err() {
            lacks_memory = true;
        }
        at = item.end;
    }
    if lacks_memory {
        return Err(MsgReturn::SendNoBuffer);
    }
    Ok(())
}
