//! Message slots: the nodes of linked lists, which move between the queues and the spare ones.
ghost use Rattle.std.specs.Prelude.{◌≡◌, ◌+◌, ◌<◌, ◌^◌, ◌++◌, ◌∷◌, [], length, IfOk};

use crate::Message;
use std::alloc::{AllocError, Global};
use std::collections::LinkedList;
use std::mem;

/// So many slots that no message is in.
pub fn blank_slots<M: Message>(number: usize, alloc: Global) -> Result<LinkedList<M>, AllocError>
    ensures { IfOk result (λ slots. length slots ≡ number) }
{
    let mut slots = LinkedList::new(alloc);
    for _ in 0..number {
        slots.push_back(M::blank(alloc))?;
    }
    Ok(slots)
}

// Moves the first node of a list that has more to the end of another.
#[inline(never)]
fn move_first_of_many<M: Drop>(from: &mut LinkedList<M>, to: &mut LinkedList<M>)
    requires some { 0 < length from.old }
    requires fit { length from.old + length to.old < 2 ^ 63 }
    ensures { (m : M) × (from.old ≡ m ∷ from.new) × (to.new ≡ to.old ++ m ∷ []) }
{
    let mut first = from.split_off(1).unwrap();
    mem::swap(from, &mut first);
    to.append(&mut first).unwrap();
    // It is empty now, so nothing is dropped.
    mem::forget(first);
}

// Moves the first node of a list to the end of another. The only one moves with its whole list, which
// takes least.
#[inline(always)]
pub(crate) fn move_first<M: Drop>(from: &mut LinkedList<M>, to: &mut LinkedList<M>)
    requires some { 0 < length from.old }
    requires fit { length from.old + length to.old < 2 ^ 63 }
    ensures { (m : M) × (from.old ≡ m ∷ from.new) × (to.new ≡ to.old ++ m ∷ []) }
{
    if from.len() == 1 {
        to.append(from).unwrap();
    } else {
        move_first_of_many(from, to);
    }
}

// Puts a message at the end of a queue, in a spare node.
#[inline(always)]
pub(crate) fn push<M: Drop>(queue: &mut LinkedList<M>, spare: &mut LinkedList<M>, message: M)
    requires some { 0 < length spare.old }
    requires fit { length queue.old + length spare.old < 2 ^ 63 }
    ensures queue { queue.new ≡ queue.old ++ message ∷ [] }
    ensures spare { length spare.new + 1 ≡ length spare.old }
{
    *spare.front_mut().unwrap() = message;
    move_first(spare, queue);
}

/// Takes the message at the front of a queue that has one, and moves its node to the spare ones.
#[inline(always)]
pub fn pop<M: Drop>(queue: &mut LinkedList<M>, spare: &mut LinkedList<M>, blank: M) -> M
    requires some { 0 < length queue.old }
    requires fit { length queue.old + length spare.old < 2 ^ 63 }
    ensures queue { queue.old ≡ result ∷ queue.new }
    ensures spare { length spare.new ≡ length spare.old + 1 }
{
    move_first(queue, spare);
    mem::replace(spare.back_mut().unwrap(), blank)
}
