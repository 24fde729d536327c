//! Looks at messages that were received.
ghost use Rattle.std.specs.Prelude.{◌≡◌, ℕ, ◌++◌, List, All, Some, IfErr, IfOk, IfSome, IsTrue, slice_get};
ghost use Rattle.mach_types.specs.Grammar.{IsWire, IsWireBody, Wire, WireBody, wires_text};
ghost use Rattle.message_codec.specs.ReceivedShows.{BodyShows, ItemShows};
ghost use Rattle.mach_say_words.specs.declared.vocabulary.Kind.{Kind as AnyKind};
ghost use Rattle.mach_say_words.specs.Numbers.{kind_number};
ghost use Rattle.mach_say_words.specs.Bodies.{data_of, item_data, item_kinds, items_data, items_kinds, kinds_of};

use crate::vocabulary::Kind;
use mach_types::Name;
use message_codec::{ReceivedBody, ReceivedItem, ReceivedItems};

/// More than a message has items: each has four bytes, of 65,536.
const MOST_ITEMS: u32 = 65_536;

/// A right that came with a message.
#[derive(Clone, Copy)]
pub struct CarriedRight {
    /// The number of its kind: 16 to 18.
    pub kind: u8,
    /// Its name.
    pub name: Name,
}

/// Whether the body's data is this: its bytes, or those of its items of data one behind another. Linear in the body.
pub fn has_data(body: &ReceivedBody<'_>, wanted: &[u8]) -> bool
    ensures { IsTrue result → (written : WireBody) → IsWireBody written → BodyShows body.now written → data_of written ≡ wanted.now }
{
    match body {
        ReceivedBody::Raw(bytes) => *bytes == wanted,
        ReceivedBody::Items(items) => have_data(*items, wanted),
    }
}

/// Whether the items' data is this.
fn have_data(items: ReceivedItems<'_>, wanted: &[u8]) -> bool
    ensures { IsTrue result → (xs : List Wire) → All IsWire xs → items.entry.bytes.now ≡ wires_text xs → items_data xs ≡ wanted.now }
{
    let mut left = items;
    let mut rest = wanted;
    for _ in 0..MOST_ITEMS {
        match left.next() {
            Some(item) => match behind(&item, rest) {
                Some(behind) => rest = behind,
                None => return false,
            },
            None => return rest.is_empty(),
        }
    }
    false
}

/// Returns what stands behind the item's data; `None` if something else begins with it.
fn behind<'a>(item: &ReceivedItem<'_>, data: &'a [u8]) -> Option<&'a [u8]>
    ensures { IfSome result (λ left. (x : Wire) → ItemShows item.now x → item_data x ++ left.now ≡ data.now) }
{
    match item {
        ReceivedItem::Data(own) => strip(own.bytes, data),
        ReceivedItem::Ports(_) => Some(data),
    }
}

/// Returns what stands behind the start of the data; `None` if the data begins otherwise.
fn strip<'a>(start: &[u8], data: &'a [u8]) -> Option<&'a [u8]>
    ensures { IfSome result (λ rest. start.now ++ rest.now ≡ data.now) }
{
    if data.len() < start.len() {
        return None;
    }
    let (front, rest) = data.split_at(start.len());
    if front == start { Some(rest) } else { None }
}

/// Whether the first rights of the body have these kinds. The time is the product of the rights and the kinds.
pub(crate) fn has_kinds(body: &ReceivedBody<'_>, wanted: &[Kind]) -> bool
    ensures { IsTrue result → (written : WireBody) → IsWireBody written → BodyShows body.now written
        → (n : ℕ) (kind : AnyKind) → slice_get wanted.now n ≡ Some kind → slice_get (kinds_of written) n ≡ Some (kind_number kind) }
{
    for (place, kind) in wanted.iter().enumerate() {
        if !has_kind(body, place, *kind) {
            return false;
        }
    }
    true
}

/// Whether the right of this number in the body has this kind.
fn has_kind(body: &ReceivedBody<'_>, number: usize, kind: Kind) -> bool
    ensures { IsTrue result → (written : WireBody) → IsWireBody written → BodyShows body.now written → slice_get (kinds_of written) number ≡ Some (kind_number kind) }
{
    match right_at(body, number) {
        Some(right) => right.kind == kind.number(),
        None => false,
    }
}

/// Returns the right of this number in the body, from 0; `None` if it has fewer. Linear in the body.
pub fn right_at(body: &ReceivedBody<'_>, number: usize) -> Option<CarriedRight>
    ensures { IfSome result (λ right. (written : WireBody) → IsWireBody written → BodyShows body.now written → slice_get (kinds_of written) number ≡ Some right.kind) }
{
    match body {
        ReceivedBody::Raw(_) => None,
        ReceivedBody::Items(items) => item_right_at(*items, number),
    }
}

/// Returns the right of this number in the items, from 0.
fn item_right_at(items: ReceivedItems<'_>, number: usize) -> Option<CarriedRight>
    ensures { IfSome result (λ right. (xs : List Wire) → All IsWire xs → items.entry.bytes.now ≡ wires_text xs → slice_get (items_kinds xs) number ≡ Some right.kind) }
{
    let mut left = items;
    let mut number = number;
    for _ in 0..MOST_ITEMS {
        match find_right(&left.next()?, number) {
            Ok(right) => return Some(right),
            Err(behind) => number = behind,
        }
    }
    None
}

/// Returns the right of this number in the item, from 0; its number behind the item's rights if it isn't one of them.
fn find_right(item: &ReceivedItem<'_>, number: usize) -> Result<CarriedRight, usize>
    ensures found { IfOk result (λ right. (x : Wire) → IsWire x → ItemShows item.now x → (ks : List ℕ) → slice_get (item_kinds x ++ ks) number ≡ Some right.kind) }
    ensures behind { IfErr result (λ behind. (x : Wire) → IsWire x → ItemShows item.now x → (ks : List ℕ) → slice_get (item_kinds x ++ ks) number ≡ slice_get ks behind) }
{
    let ReceivedItem::Ports(ports) = item else {
        return Err(number);
    };
    match ports.get(number) {
        Some(name) => Ok(CarriedRight {
            kind: ports.kind,
            name,
        }),
        None => Err(number.saturating_sub(ports.len())),
    }
}
