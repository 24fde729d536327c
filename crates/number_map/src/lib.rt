//! A map from numbers to small values. A key is found, put in, changed and taken out in constant
//! time, whatever the keys are, and only [`NumberMap::reserve`] takes memory.
//!
//! The keys lie in a row, each in the tree of its hash. Where there are as many trees as keys, most
//! trees have one node or two. The hash is known, so that many keys may be chosen that lie in one tree.
//! But below a node all keys whose next bit is 0 hang on one link, and the others on the other, from the
//! lowest bit on. So no tree is deeper than a key has bits: a look-up reads 66 nodes at most. The place of
//! the key that was last put in, or found below another, is looked at before its tree is walked, so that a
//! key that is looked up again is found at once. Each node knows the one above it, so that a removal walks
//! to no link: it only follows links down to a leaf, which takes the key's place.
//!
//! Beside a value of four-byte words a key takes 24 to 28 bytes, or 22 to 24 where 1,024 keys or more
//! fit, and so does room for one.
#![tactic(auto)]

ghost use Rattle.std.specs.Prelude.{◌≡◌, ◌≢◌, ℕ, suc, ◌+◌, ◌-◌, ◌*◌, ◌^◌, ◌<◌, ◌≤◌, List, max, true, length, slice_index_or, min, false, Some, None, IsOk, OnOk, OnErr};
ghost use Rattle.std.specs.Borrow.{sem};
ghost use Rattle.std.specs.FinMap as map;
ghost use Rattle.std.specs.Vec.{vec_capacity};
ghost use Rattle.number_map.specs.Kept.{slot as slot_for, below, key_at, link_at, above_at, out_at, head_at, IsWay, IsTurnedBelow, IsCut, IsLed, IsLedBelow, IsHung, AreHung, IsLeafBelow, IsPlanted, IsIndexed, HasKey, IsUnique, entries_of, SameEntries, IsRaised, IsMoved, IsTakenOut, IsWhole, IsReplanted};

use std::alloc::{AllocError, Global};
use std::cell::Cell;
use std::marker::Model;
use std::mem;

// A link is a place and 1, or 0 where it leads nowhere, so that as many nodes have links.
const MOST_NODES: usize = 0xFFFF_FFFF;

// Where so many nodes fit, half as many trees do: what the heads take is halved, for half a step more.
const MANY_NODES: usize = 1024;

// Memory for more than so many times the nodes that are wanted is given back, but for twice these.
const MOST_TIMES: usize = 4;

// Memory is asked for so many nodes at least.
const LEAST_NODES: usize = 4;

// A place that no node has.
const NOWHERE: usize = usize::MAX;

// How many numbers half a key can be.
const HALF: u64 = 1 << 32;

// A key in two halves, so that a node needs no more alignment than its value.
#[derive(Clone, Copy)]
struct Key {
    low: u32,
    high: u32,
}

impl Model for Key {
    ghost use Rattle.std.specs.Prelude.{ℕ, ◌+◌, ◌*◌, ◌/◌, ◌%◌, ◌^◌, ◌<◌};
    ghost use Rattle.number_map.specs.Halves.{same_halves};

    ghost Value = { ℕ };

    ghost view = { λ a. a.high * 2 ^ 32 + a.low };

    ghost invariant = { λ a. a.low < 2 ^ 32 };

    ghost inverse = { λ n. record { low = n % 2 ^ 32; high = n / 2 ^ 32 } };

    ghost inverse_ok = { λ a h. same_halves (λ low high. record { low = low; high = high }) a.low a.high h };
}

impl Key {
    fn of(number: u64) -> Key
        ensures { result ≡ number }
    {
        Key {
            low: (number % HALF) as u32,
            high: (number / HALF) as u32,
        }
    }

    fn number(self) -> u64
        ensures { result ≡ self }
    {
        u64::from(self.high) * HALF + u64::from(self.low)
    }
}

// A key with its value. Of the nodes below it in its tree those whose next bit is 0 hang on its first
// link, the others on its second. `above` is the place of the node whose link leads here and 1, or 0 where
// a head leads here.
#[derive(Clone, Copy)]
struct Node<V: Copy> {
    key: Key,
    value: V,
    links: [u32; 2],
    above: u32,
}

// A key, a value of four words, two links and the way up, with nothing between.
const _: () = prove!(mem::size_of::<Node<[u32; 4]>>() == 36);

/// Values under numbers, and room for so many keys to come. Without room nothing is allocated.
#[derive(Drop)]
pub struct NumberMap<V: Copy> {
    nodes: Vec<Node<V>>,
    // The first node of each tree lies at its head less 1, if its head is not 0.
    heads: Vec<u32>,
    room: u32,
    // Where the key lies that was last put in, or found below the first node of its tree; no more than a guess.
    last: Cell<u32>,
}

// The tree of a key. The factor spreads keys that are given one by one, each second of them or each
// sixteenth, and as well keys that differ in their upper halves alone: where there are as many keys as
// trees, mostly half a key or less stands before another. A factor below 2^31, and a turn in place of
// a shift, take the fewest instructions.
fn slot_of(key: u64, slots: usize) -> usize
    requires { 0 < slots }
    ensures value { result ≡ slot_for key slots }
    ensures few { result < slots }
{
    key.wrapping_mul(0x7A2A_1191).rotate_right(31) as usize & (slots - 1)
}

// Where the key lies. The first node of its tree is looked at, then the node at the place `hint`, and then
// the way down the tree. Where it is found there, `last` says so: so a key that is asked for again is found
// at once, however deep it lies.
#[inline(always)]
fn find<V: Copy>(
    nodes: &[Node<V>],
    heads: &[u32],
    hint: usize,
    last: &Cell<u32>,
    key: u64,
) -> Option<usize>
    requires { IsIndexed nodes.now heads.now }
    ensures found { (x : ℕ) → result ≡ Some x → HasKey nodes.now key x }
    ensures missing { result ≡ None → (x : ℕ) → HasKey nodes.now key x → ⊥ }
{
    if heads.is_empty() {
        return None;
    }
    let first = heads[slot_of(key, heads.len())] as usize;
    if first == 0 {
        return None;
    }
    let root = &nodes[first - 1];
    if root.key.number() == key {
        return Some(first - 1);
    }
    if hint < nodes.len() && nodes[hint].key.number() == key {
        return Some(hint);
    }
    let mut link = root.links[(key % 2) as usize];
    let mut bits = key / 2;
    while link > 0 {
        let place = link - 1;
        let node = &nodes[place as usize];
        if node.key.number() == key {
            last.set(place);
            return Some(place as usize);
        }
        link = node.links[(bits % 2) as usize];
        bits /= 2;
    }
    None
}

// Where a key lies that is there, looked for as in `find`.
#[inline(always)]
fn find_there<V: Copy>(nodes: &[Node<V>], heads: &[u32], last: &Cell<u32>, key: u64) -> usize
    requires indexed { IsIndexed nodes.now heads.now }
    requires there { (x : ℕ) × HasKey nodes.now key x }
    ensures { HasKey nodes.now key result }
{
    let first = heads[slot_of(key, heads.len())] as usize - 1;
    let root = &nodes[first];
    if root.key.number() == key {
        return first;
    }
    let hint = last.get() as usize;
    if hint < nodes.len() && nodes[hint].key.number() == key {
        return hint;
    }
    let mut place = root.links[(key % 2) as usize] - 1;
    let mut bits = key / 2;
    while nodes[place as usize].key.number() != key {
        place = nodes[place as usize].links[(bits % 2) as usize] - 1;
        bits /= 2;
    }
    last.set(place);
    place as usize
}

// One link of a node leads there from now on.
fn turn_link<V: Copy>(node: &mut Node<V>, side: usize, to: u32)
    requires { side < 2 }
    ensures here { slice_index_or node.new.links side 0 ≡ to }
    ensures others { (i : ℕ) → i ≢ side → slice_index_or node.new.links i 0 ≡ slice_index_or node.old.links i 0 }
    ensures key { node.new.key ≡ node.old.key }
    ensures value { node.new.value ≡ node.old.value }
    ensures above { node.new.above ≡ node.old.above }
{
    node.links[side] = to;
}

// The node that a link leads to hangs on another from now on.
fn hang<V: Copy>(nodes: &mut [Node<V>], link: u32, above: u32)
    requires some { 0 < link }
    requires inside { link ≤ length nodes.old }
    ensures { IsHung nodes.old nodes.new link above }
{
    nodes[link as usize - 1].above = above;
}

// Leads the link that leads nowhere, on the way to the key from the first node of its tree, to a node.
fn lead_below<V: Copy>(nodes: &mut [Node<V>], first: u32, key: u64, to: u32)
    requires some { 0 < first }
    requires inside { first ≤ length nodes.old }
    requires way { IsWay nodes.old first key }
    requires to { (0 < to) × (to ≤ length nodes.old) }
    ensures led { IsLedBelow nodes.old nodes.new first key to }
    ensures entries { SameEntries nodes.old nodes.new }
{
    let mut above = first;
    let mut bits = key;
    let mut link = nodes[above as usize - 1].links[(bits % 2) as usize];
    while link > 0 {
        above = link;
        bits /= 2;
        link = nodes[above as usize - 1].links[(bits % 2) as usize];
    }
    turn_link(&mut nodes[above as usize - 1], (bits % 2) as usize, to);
    hang(nodes, to, above);
}

// Leads the link that leads nowhere, on the way to the key from its head, to a node.
#[inline(always)]
fn lead<V: Copy>(nodes: &mut [Node<V>], heads: &mut [u32], key: u64, to: u32)
    requires some { 0 < length heads.old }
    requires way { IsWay nodes.old (head_at heads.old key) key }
    requires to { (0 < to) × (to ≤ length nodes.old) }
    requires above { above_at nodes.old to ≡ 0 }
    ensures led { IsLed (length heads.old) (out_at nodes.old heads.old) (out_at nodes.new heads.new) (above_at nodes.old) (above_at nodes.new) key to }
    ensures entries { SameEntries nodes.old nodes.new }
    ensures heads { length heads.new ≡ length heads.old }
{
    let slot = slot_of(key, heads.len());
    let head = heads[slot];
    if head == 0 {
        heads[slot] = to;
    } else {
        lead_below(nodes, head, key, to);
    }
}

// Whether there is no node below this one.
fn is_leaf<V: Copy>(node: &Node<V>) -> bool
    ensures { result ≡ true → (i : ℕ) → slice_index_or node.now.links i 0 ≡ 0 }
{
    node.links[0] == 0 && node.links[1] == 0
}

// A link of the node that leads somewhere, if one does.
fn link_below<V: Copy>(node: &Node<V>) -> u32
    ensures leads { result ≡ below node.now.links }
    ensures none { result ≡ 0 → (i : ℕ) → slice_index_or node.now.links i 0 ≡ 0 }
{
    if node.links[1] > 0 {
        return node.links[1];
    }
    node.links[0]
}

// A leaf below the node, or the node itself, where that is one.
fn leaf_below<V: Copy>(nodes: &[Node<V>], place: usize) -> usize
    requires place { place < length nodes.now }
    requires indexed { (heads : List ℕ) × IsIndexed nodes.now heads }
    ensures { IsLeafBelow nodes.now place result }
{
    let mut leaf = place;
    let mut link = link_below(&nodes[leaf]);
    while link > 0 {
        leaf = link as usize - 1;
        link = link_below(&nodes[leaf]);
    }
    leaf
}

// Which link of a node leads to a place, where one does.
fn side_to<V: Copy>(node: &Node<V>, place: usize) -> usize
    requires leads { (i : ℕ) × (i < 2) × (slice_index_or node.now.links i 0 ≡ suc place) }
    requires few { place + 1 < 2 ^ 32 }
    ensures few { result < 2 }
    ensures leads { slice_index_or node.now.links result 0 ≡ suc place }
{
    if node.links[0] as usize == place + 1 {
        return 0;
    }
    1
}

// The link of the node above that leads to a place leads elsewhere from now on.
fn turn_below<V: Copy>(nodes: &mut [Node<V>], above: usize, place: usize, to: u32)
    requires above { above < length nodes.old }
    requires leads { (i : ℕ) × (i < 2) × (link_at nodes.old above i ≡ suc place) }
    requires few { place + 1 < 2 ^ 32 }
    ensures { IsTurnedBelow nodes.old nodes.new above (suc place) to }
{
    let node = &mut nodes[above];
    let side = side_to(node, place);
    turn_link(node, side, to);
}

// The link that leads to a node, whose key this is, leads elsewhere from now on.
#[inline(always)]
fn turn<V: Copy>(nodes: &mut [Node<V>], heads: &mut [u32], key: u64, place: usize, to: u32)
    requires place { place < length nodes.old }
    requires planted { (hole : ℕ) × (suc place ≢ hole) × IsPlanted nodes.old heads.old (length nodes.old) hole }
    requires key { key_at nodes.old (suc place) ≡ key }
    requires few { length nodes.old < 2 ^ 32 }
    ensures { IsCut nodes.old nodes.new heads.old heads.new place to }
{
    let above = nodes[place].above as usize;
    if above > 0 {
        turn_below(nodes, above - 1, place, to);
    } else {
        let slot = slot_of(key, heads.len());
        heads[slot] = to;
    }
}

// Takes a leaf below the node out of its tree, and puts its entry in the node's place. Returns where the
// leaf was.
#[inline(never)]
fn raise_leaf<V: Copy>(nodes: &mut [Node<V>], heads: &mut [u32], place: usize) -> usize
    requires place { place < length nodes.old }
    requires indexed { IsIndexed nodes.old heads.old }
    requires few { length nodes.old < 2 ^ 32 }
    ensures planted { IsPlanted nodes.new heads.new (length nodes.new) (suc result) }
    ensures raised { IsRaised nodes.old nodes.new place result }
    ensures heads { length heads.new ≡ length heads.old }
{
    let leaf = leaf_below(nodes, place);
    let Node { key, value, .. } = nodes[leaf];
    turn(nodes, heads, key.number(), leaf, 0);
    let Node { links, above, .. } = nodes[place];
    nodes[place] = Node {
        key,
        value,
        links,
        above,
    };
    leaf
}

// Takes an entry out of its tree: its node, if that is a leaf, or else a leaf below it, whose entry then
// stands in its place. Returns the place that no link leads to.
#[inline(always)]
fn cut_out<V: Copy>(nodes: &mut [Node<V>], heads: &mut [u32], key: u64, place: usize) -> usize
    requires place { place < length nodes.old }
    requires key { key_at nodes.old (suc place) ≡ key }
    requires indexed { IsIndexed nodes.old heads.old }
    requires few { length nodes.old < 2 ^ 32 }
    ensures planted { IsPlanted nodes.new heads.new (length nodes.new) (suc result) }
    ensures raised { IsRaised nodes.old nodes.new place result }
    ensures heads { length heads.new ≡ length heads.old }
{
    if is_leaf(&nodes[place]) {
        turn(nodes, heads, key, place, 0);
        return place;
    }
    raise_leaf(nodes, heads, place)
}

// What a link leads to, if it leads somewhere, hangs on a node from now on.
fn hang_any<V: Copy>(nodes: &mut [Node<V>], link: u32, above: u32)
    requires { link ≤ length nodes.old }
    ensures { IsHung nodes.old nodes.new link above }
{
    if link > 0 {
        hang(nodes, link, above);
    }
}

// What hangs on a node hangs on another from now on.
fn hang_below<V: Copy>(nodes: &mut [Node<V>], place: usize, above: u32)
    requires place { place < length nodes.old }
    requires inside { (i : ℕ) → link_at nodes.old place i ≤ length nodes.old }
    ensures { AreHung nodes.old nodes.new place above }
{
    let links = nodes[place].links;
    hang_any(nodes, links[0], above);
    hang_any(nodes, links[1], above);
}

// Moves the last node to a place that no link leads to.
#[inline(always)]
fn close<V: Copy>(nodes: &mut Vec<Node<V>>, heads: &mut Vec<u32>, hole: usize)
    requires hole { hole < length nodes.old.items }
    requires planted { IsPlanted nodes.old.items heads.old.items (length nodes.old.items) (suc hole) }
    requires few { length nodes.old.items < 2 ^ 32 }
    ensures indexed { IsIndexed nodes.new.items heads.new.items }
    ensures moved { IsMoved nodes.old.items nodes.new.items hole }
    ensures heads { length heads.new.items ≡ length heads.old.items }
    ensures capacity { vec_capacity nodes.new ≡ vec_capacity nodes.old }
{
    let end = nodes.len();
    if hole + 1 >= end {
        nodes.pop();
        return;
    }
    let key = nodes[end - 1].key.number();
    let to = (hole + 1) as u32;
    let row = nodes.as_mut_slice();
    turn(row, heads.as_mut_slice(), key, end - 1, to);
    hang_below(row, end - 1, to);
    row[hole] = row[end - 1];
    nodes.pop();
}

// Takes an entry out of the row.
#[inline(always)]
fn take_out<V: Copy>(nodes: &mut Vec<Node<V>>, heads: &mut Vec<u32>, key: u64, place: usize)
    requires place { place < length nodes.old.items }
    requires key { key_at nodes.old.items (suc place) ≡ key }
    requires indexed { IsIndexed nodes.old.items heads.old.items }
    requires few { length nodes.old.items < 2 ^ 32 }
    ensures indexed { IsIndexed nodes.new.items heads.new.items }
    ensures nodes { IsTakenOut nodes.old.items nodes.new.items place }
    ensures heads { length heads.new.items ≡ length heads.old.items }
    ensures capacity { vec_capacity nodes.new ≡ vec_capacity nodes.old }
{
    let hole = cut_out(nodes.as_mut_slice(), heads.as_mut_slice(), key, place);
    close(nodes, heads, hole);
}

// Puts each node in its tree, where all heads are empty.
fn link_all<V: Copy>(nodes: &mut [Node<V>], heads: &mut [u32])
    requires some { 0 < length heads.old }
    requires empty { (c : ℕ) → slice_index_or heads.old c 0 ≡ 0 }
    requires few { length nodes.old < 2 ^ 32 }
    requires unique { IsUnique (entries_of nodes.old) }
    requires short { (v : ℕ) → key_at nodes.old v < 2 ^ 64 }
    ensures indexed { IsIndexed nodes.new heads.new }
    ensures entries { SameEntries nodes.old nodes.new }
    ensures heads { length heads.new ≡ length heads.old }
{
    for place in 0..nodes.len() {
        let Node { key, value, .. } = nodes[place];
        nodes[place] = Node {
            key,
            value,
            links: [0, 0],
            above: 0,
        };
        lead(nodes, heads, key.number(), (place + 1) as u32);
    }
}

// Makes so many heads, all empty.
fn make_slots(heads: &mut Vec<u32>, slots: usize) -> Result<(), AllocError>
    ensures len { OnOk result (length heads.new.items ≡ slots) }
    ensures empty { OnOk result ((c : ℕ) → slice_index_or heads.new.items c 0 ≡ 0) }
    ensures err { OnErr result (heads.new.items ≡ heads.old.items) }
{
    let mut made = Vec::new(*heads.allocator());
    made.resize(slots, 0)?;
    *heads = made;
    Ok(())
}

// How many trees are enough for so many nodes.
fn trees_for(capacity: usize) -> usize
    ensures some { 0 < capacity → 0 < result }
    ensures enough { capacity ≤ 2 * result + 1 }
    ensures few { result ≤ capacity }
{
    if capacity < MANY_NODES {
        return capacity;
    }
    capacity / 2
}

// Makes room for so many nodes, of which not all fit: for twice the nodes that fit, where that is enough, and for
// four at least.
#[inline(never)]
fn enlarge<V: Copy>(nodes: &mut Vec<Node<V>>, wanted: usize) -> Result<(), AllocError>
    requires more { vec_capacity nodes.old < wanted }
    requires few { wanted < 2 ^ 32 }
    ensures same { nodes.new.items ≡ nodes.old.items }
    ensures fits { OnOk result (wanted ≤ vec_capacity nodes.new) }
    ensures twice { OnOk result (2 * vec_capacity nodes.old ≤ vec_capacity nodes.new) }
    ensures kept { vec_capacity nodes.old ≤ vec_capacity nodes.new }
    ensures few { vec_capacity nodes.new ≤ max 4 (2 * wanted) }
{
    let most = wanted.max(nodes.capacity() * 2).max(LEAST_NODES);
    nodes.reserve_exact(most - nodes.len())
}

// Makes so many trees or some more, and puts each node in its own.
#[inline(never)]
fn make_trees<V: Copy>(
    nodes: &mut [Node<V>],
    heads: &mut Vec<u32>,
    trees: usize,
) -> Result<(), AllocError>
    requires whole { IsWhole nodes.old heads.old.items }
    requires some { 0 < trees }
    ensures replanted { IsReplanted nodes.old nodes.new heads.old.items heads.new.items (2 * trees) }
    ensures enough { OnOk result (trees ≤ length heads.new.items) }
    ensures few { OnOk result (length heads.new.items ≤ 2 * trees) }
{
    let slots = trees.checked_next_power_of_two().ok_or(AllocError)?;
    make_slots(heads, slots)?;
    link_all(nodes, heads.as_mut_slice());
    Ok(())
}

// Makes trees for so many nodes, and gives back the memory beyond that of these. An error means that memory was
// refused for them: what is kept then is seen to be too much again.
#[inline(never)]
fn narrow<V: Copy>(
    nodes: &mut Vec<Node<V>>,
    heads: &mut Vec<u32>,
    most: usize,
) -> Result<(), AllocError>
    requires whole { IsWhole nodes.old.items heads.old.items }
    requires some { 0 < most }
    ensures replanted { IsReplanted nodes.old.items nodes.new.items heads.old.items heads.new.items (2 * most) }
    ensures enough { min most (vec_capacity nodes.old) ≤ vec_capacity nodes.new }
    ensures few { OnOk result (vec_capacity nodes.new ≤ most) }
    ensures trees { OnOk result (length heads.new.items ≤ 2 * most) }
    ensures fewer { vec_capacity nodes.new ≤ vec_capacity nodes.old }
{
    make_trees(nodes.as_mut_slice(), heads, trees_for(most))?;
    nodes.shrink_to(most);
    if nodes.capacity() > most {
        return Err(AllocError);
    }
    Ok(())
}

// Gives back what is far more than the nodes that are wanted need. An error means that memory was refused
// for fewer.
#[inline(always)]
fn give_back<V: Copy>(
    nodes: &mut Vec<Node<V>>,
    heads: &mut Vec<u32>,
    wanted: usize,
) -> Result<(), AllocError>
    requires whole { IsWhole nodes.old.items heads.old.items }
    requires some { 0 < wanted }
    requires fits { wanted ≤ vec_capacity nodes.old }
    ensures replanted { IsReplanted nodes.old.items nodes.new.items heads.old.items heads.new.items (2 * vec_capacity nodes.new) }
    ensures fits { wanted ≤ vec_capacity nodes.new }
    ensures few { OnOk result (vec_capacity nodes.new ≤ max 1024 (4 * wanted + 3)) }
    ensures fewer { vec_capacity nodes.new ≤ vec_capacity nodes.old }
{
    let capacity = nodes.capacity();
    if capacity < MANY_NODES || wanted >= capacity / MOST_TIMES {
        return Ok(());
    }
    narrow(nodes, heads, wanted * 2)
}

// Makes room for so many nodes, or gives back what is far more.
#[inline(always)]
fn resize<V: Copy>(
    nodes: &mut Vec<Node<V>>,
    heads: &mut Vec<u32>,
    wanted: usize,
) -> Result<(), AllocError>
    requires whole { IsWhole nodes.old.items heads.old.items }
    requires some { 0 < wanted }
    requires few { wanted < 2 ^ 32 }
    ensures replanted { IsReplanted nodes.old.items nodes.new.items heads.old.items heads.new.items (2 * vec_capacity nodes.new) }
    ensures fits { OnOk result (wanted ≤ vec_capacity nodes.new) }
    ensures kept { min wanted (vec_capacity nodes.old) ≤ vec_capacity nodes.new }
    ensures few { OnOk result (vec_capacity nodes.new ≤ max 1024 (4 * wanted + 3)) }
    ensures grows { vec_capacity nodes.new ≤ max (vec_capacity nodes.old) (max 4 (2 * wanted)) }
{
    if nodes.capacity() < wanted {
        return enlarge(nodes, wanted);
    }
    give_back(nodes, heads, wanted)
}

// Makes room for so many more nodes, and trees enough for those that fit. Gives back what is far more than
// the nodes with these need.
#[inline(always)]
fn make_room<V: Copy>(
    nodes: &mut Vec<Node<V>>,
    heads: &mut Vec<u32>,
    additional: usize,
) -> Result<(), AllocError>
    requires whole { IsWhole nodes.old.items heads.old.items }
    requires some { 0 < additional }
    requires few { length nodes.old.items + additional < 2 ^ 32 }
    ensures replanted { IsReplanted nodes.old.items nodes.new.items heads.old.items heads.new.items (2 * vec_capacity nodes.new) }
    ensures fits { OnOk result (length nodes.old.items + additional ≤ vec_capacity nodes.new) }
    ensures kept { min (length nodes.old.items + additional) (vec_capacity nodes.old) ≤ vec_capacity nodes.new }
    ensures few { OnOk result (vec_capacity nodes.new ≤ max 1024 (4 * (length nodes.old.items + additional) + 3)) }
    ensures grows { vec_capacity nodes.new ≤ max (vec_capacity nodes.old) (max 4 (2 * (length nodes.old.items + additional))) }
    ensures enough { OnOk result (vec_capacity nodes.new ≤ 2 * length heads.new.items + 1) }
    ensures some { OnOk result (0 < length heads.new.items) }
{
    resize(nodes, heads, nodes.len() + additional)?;
    let trees = trees_for(nodes.capacity());
    if heads.len() < trees {
        return make_trees(nodes.as_mut_slice(), heads, trees);
    }
    Ok(())
}

impl<V: Copy> Model for NumberMap<V> {
    ghost use Rattle.number_map.specs.Maps.{MapView, map_code};

    ghost Value = { MapView V };

    ghost coded = { map_code V.code };

    ghost use Rattle.std.specs.FinMap as map;
    ghost use Rattle.std.specs.Vec.{vec_capacity};
    ghost use Rattle.number_map.specs.Kept.{IsKept, entries_of};

    ghost view = { λ a. record { map = map.from_entries (entries_of a.nodes.items); room = a.room } };

    ghost invariant = { λ a. IsKept a.nodes.items a.heads.items (vec_capacity a.nodes) a.room };
}

impl<V: Copy> NumberMap<V> {
    ghost use Rattle.number_map.specs.Lends.{lends_value};

    /// No keys, and room for none. Allocates nothing; constant time.
    pub fn new(alloc: Global) -> NumberMap<V>
        ensures { result ≡ record { map = map.empty; room = 0 } }
    {
        NumberMap {
            nodes: Vec::new(alloc),
            heads: Vec::new(alloc),
            room: 0,
            last: Cell::new(0),
        }
    }

    /// How many keys there are. Constant time.
    pub fn len(&self) -> usize
        ensures { result ≡ map.len self.now.map }
    {
        self.nodes.len()
    }

    /// How many more keys can be put in. Constant time.
    pub fn room(&self) -> usize
        ensures { result ≡ self.now.room }
    {
        self.room as usize
    }

    /// The value under the key, if it is there. Constant time: reads 66 nodes at most.
    pub fn get(&self, key: u64) -> Option<V>
        ensures { result ≡ map.get self.now.map key }
    {
        let hint = self.last.get() as usize;
        let place = find(&self.nodes, &self.heads, hint, &self.last, key)?;
        Some(self.nodes[place].value)
    }

    /// As [`NumberMap::get`], for one of many keys that are each looked up once: it takes no place among
    /// those that are found at once.
    #[inline(always)]
    pub fn get_once(&self, key: u64) -> Option<V>
        ensures { result ≡ map.get self.now.map key }
    {
        let last = Cell::new(0);
        let place = find(&self.nodes, &self.heads, NOWHERE, &last, key)?;
        Some(self.nodes[place].value)
    }

    /// Makes room for at least so many more keys. Constant time where there is room for them. Else at most
    /// linear in the number of keys, as all may move to another place: for each key 64 nodes are read at
    /// most.
    ///
    /// Where there is memory for 1,024 keys or more, and for more than four times the keys with that room,
    /// what is beyond twice these is given back.
    ///
    /// An error means that memory was refused, for more keys or for the smaller table, or that there would be
    /// more than 4,294,967,295 keys; all is then as before. It never comes where there is room already. Nothing
    /// else here takes memory.
    pub fn reserve(&mut self, additional: usize) -> Result<(), AllocError>
        ensures ok { OnOk result (self.new ≡ record self.old { room = max self.old.room additional }) }
        ensures err { OnErr result (self.new ≡ self.old) }
        ensures had_room { additional ≤ self.old.room → IsOk result }
    {
        if additional > self.room as usize {
            if additional > MOST_NODES - self.nodes.len() {
                return Err(AllocError);
            }
            make_room(&mut self.nodes, &mut self.heads, additional)?;
            self.room = additional as u32;
        }
        Ok(())
    }

    /// Puts a new key in, for which there is room. Constant time: reads 64 nodes at most.
    pub fn insert(&mut self, key: u64, value: V)
        requires absent { map.get self.old.map key ≡ None }
        requires room { 0 < self.old.room }
        ensures { self.new ≡ record { map = map.insert self.old.map key value; room = self.old.room - 1 } }
    {
        self.nodes.push_reserved(Node {
            key: Key::of(key),
            value,
            links: [0, 0],
            above: 0,
        });
        let link = self.nodes.len() as u32;
        self.last.set(link - 1);
        lead(
            self.nodes.as_mut_slice(),
            self.heads.as_mut_slice(),
            key,
            link,
        );
        self.room -= 1;
    }

    /// Puts another value under a key that is there. Constant time: reads 66 nodes at most.
    pub fn set(&mut self, key: u64, value: V)
        requires { map.contains_key self.old.map key ≡ true }
        ensures { self.new ≡ record self.old { map = map.insert self.old.map key value } }
    {
        let place = find_there(&self.nodes, &self.heads, &self.last, key);
        self.nodes[place].value = value;
    }

    /// The value under a key that is there. Constant time: reads 66 nodes at most.
    #[inline(always)]
    pub fn value(&self, key: u64) -> V
        requires { map.contains_key self.now.map key ≡ true }
        ensures { map.get self.now.map key ≡ Some result }
    {
        let place = find_there(&self.nodes, &self.heads, &self.last, key);
        self.nodes[place].value
    }

    /// The value under a key that is there, for writing. Takes no memory; constant time:
    /// reads 66 nodes at most.
    pub fn value_mut(&mut self, key: u64) -> &mut V
        requires { map.contains_key self.old.map key ≡ true }
        ensures* writes_back { sem 𝓛 (lends_value V.row self.entry key result) }
        ensures value { map.get self.old.map key ≡ Some result.now }
    {
        let place = find_there(&self.nodes, &self.heads, &self.last, key);
        &mut self.nodes[place].value
    }

    /// Takes a key out, if it is there, and returns its value. The room for new keys stays as it was.
    /// Constant time: reads or changes 70 nodes at most.
    #[inline(always)]
    pub fn remove(&mut self, key: u64) -> Option<V>
        ensures value { result ≡ map.get self.old.map key }
        ensures after { self.new ≡ record self.old { map = map.remove self.old.map key } }
    {
        let hint = self.last.get() as usize;
        let place = find(&self.nodes, &self.heads, hint, &self.last, key)?;
        let value = self.nodes[place].value;
        take_out(&mut self.nodes, &mut self.heads, key, place);
        Some(value)
    }

    /// Takes a key out that is there. The room for new keys stays as it was. Constant time: reads or
    /// changes 70 nodes at most.
    #[inline(always)]
    pub fn remove_there(&mut self, key: u64)
        requires { map.contains_key self.old.map key ≡ true }
        ensures { self.new ≡ record self.old { map = map.remove self.old.map key } }
    {
        let place = find_there(&self.nodes, &self.heads, &self.last, key);
        take_out(&mut self.nodes, &mut self.heads, key, place);
    }

    /// Takes a key out that is there, and keeps its place as room for another. Constant time: reads or
    /// changes 70 nodes at most.
    #[inline(always)]
    pub fn release(&mut self, key: u64)
        requires { map.contains_key self.old.map key ≡ true }
        ensures { self.new ≡ record { map = map.remove self.old.map key; room = self.old.room + 1 } }
    {
        let place = find_there(&self.nodes, &self.heads, &self.last, key);
        take_out(&mut self.nodes, &mut self.heads, key, place);
        self.room += 1;
    }
}
