//! A port that was found, and its record's place.
ghost use Rattle.std.specs.Prelude.{◌≡◌, ℕ, Some, None, IfSome, IfNone, is_some, true};
ghost use Rattle.std.specs.FinMap as map;
ghost use Rattle.slab.specs.Slab.{get};
ghost use Rattle.port_base.specs.declared.Record.{Record as AnyRecord};

use crate::Message;
use mach_types::PortId;
use number_map::NumberMap;
use port_base::Record;
use slab::Slab;

/// A place where no record lies.
pub const NOWHERE: usize = usize::MAX;

/// A port, and the place where its record lay when it was found. A call by it looks the port up only where
/// another record lies there now, or none: what it does depends on the port alone.
///
/// Who hands it on twice takes it apart first, since Rattle's borrow checker covers no struct that is passed by
/// value twice.
#[derive(Clone, Copy, Debug, PartialEq, Eq)]
pub struct Found {
    /// The port.
    pub port: PortId,
    /// The place of its record.
    pub place: usize,
}

impl Found {
    /// The port, which wasn't found yet: a call by this looks it up. Constant time.
    pub fn of(port: PortId) -> Found
        ensures { result.port ≡ port }
    {
        Found {
            port,
            place: NOWHERE,
        }
    }
}

// Whether the port's record lies at the place.
#[inline(always)]
fn lies_there<M: Message>(records: &Slab<Record<M>>, found: Found) -> bool
    ensures { result ≡ true → (r : AnyRecord M) × (get records.now found.place ≡ Some r) × (r.id ≡ found.port) }
{
    let Found { port, place } = found;
    match records.get(place) {
        Some(record) => record.id.number() == port.number(),
        None => false,
    }
}

// The key of a port's record, if the port is there.
#[inline(always)]
pub(crate) fn key_near<M: Message>(
    records: &Slab<Record<M>>,
    by_id: &NumberMap<u32>,
    found: Found,
) -> Option<usize>
    requires { (key : ℕ) (r : AnyRecord M) → get records.now key ≡ Some r → map.get by_id.now.map r.id ≡ Some key }
    ensures { result ≡ map.get by_id.now.map found.port }
{
    let Found { port, place } = found;
    if lies_there(records, found) {
        return Some(place);
    }
    match by_id.get(port.number()) {
        Some(key) => Some(key as usize),
        None => None,
    }
}

// The record of a port, if the port is there.
#[inline(always)]
pub(crate) fn record_near<'a, M: Message>(
    records: &'a Slab<Record<M>>,
    by_id: &NumberMap<u32>,
    found: Found,
) -> Option<&'a Record<M>>
    requires held { (key : ℕ) (r : AnyRecord M) → get records.now key ≡ Some r → map.get by_id.now.map r.id ≡ Some key }
    requires found { (id key : ℕ) → map.get by_id.now.map id ≡ Some key → is_some (get records.now key) ≡ true }
    ensures some { IfSome result (λ r. (key : ℕ) × (map.get by_id.now.map found.port ≡ Some key) × (get records.now key ≡ Some r.now)) }
    ensures none { IfNone result (map.get by_id.now.map found.port ≡ None) }
{
    let Found { port, place } = found;
    if let Some(record) = records.get(place) {
        if record.id.number() == port.number() {
            return Some(record);
        }
    }
    let key = by_id.get(port.number())?;
    Some(&records[key as usize])
}

// The key of the record of a port that is there.
#[inline(always)]
pub(crate) fn key_there<M: Message>(
    records: &Slab<Record<M>>,
    by_id: &NumberMap<u32>,
    found: Found,
) -> usize
    requires indexed { (key : ℕ) (r : AnyRecord M) → get records.now key ≡ Some r → map.get by_id.now.map r.id ≡ Some key }
    requires there { map.contains_key by_id.now.map found.port ≡ true }
    ensures { map.get by_id.now.map found.port ≡ Some result }
{
    let Found { port, place } = found;
    if lies_there(records, found) {
        return place;
    }
    by_id.value(port.number()) as usize
}
