//! The entries of a history, where they are kept.
ghost use Rattle.std.specs.Prelude.{◌≡◌, ◌<◌, ◌≤◌, ◌+◌, ◌*◌, [], ◌∷◌, ◌++◌, true, false, IfOk, IfErr, OnOk, length, max};
ghost use Rattle.std.specs.Vec.{vec_capacity};
ghost use Rattle.mach_types.specs.declared.calls.Reply.{Reply};
ghost use Rattle.kernel_core.specs.Bounds.{IsWithin};
ghost use Rattle.kernel_lock.specs.Replays.{kept_of};
ghost use Rattle.kernel_record.specs.Room.{HasRoom, IsUnused};

use crate::entry::Entry;
use kernel_record::Room;
use mach_types::{Event, Reply};
use std::alloc::{AllocError, Global};

// Memory is asked for so many entries at least.
const LEAST_ENTRIES: usize = 4;

/// All entries, oldest first; where they aren't kept there is none, and no memory for one.
#[derive(Drop)]
pub(crate) struct Entries {
    keeps: bool,
    list: Vec<Entry>,
    ghost bare: { keeps ≡ false → vec_capacity list ≡ 0 },
}

impl Entries {
    /// No entry as yet. Takes no memory.
    pub(crate) fn new(alloc: Global, keeps: bool) -> Entries
        ensures { (result.keeps ≡ keeps) × (result.list.items ≡ []) }
    {
        Entries {
            keeps,
            list: Vec::new(alloc),
        }
    }

    pub(crate) fn as_slice(&self) -> &[Entry]
        ensures { result.now ≡ self.now.list.items }
    {
        self.list.as_slice()
    }

    /// Room for one entry more, of this event with a reply that has no more than so many bytes, names or members.
    /// Where entries aren't kept it takes no memory, and there is no error. An error leaves the entries as they were.
    pub(crate) fn make_room(
        &mut self,
        alloc: Global,
        event: &Event,
        most: usize,
    ) -> Result<Room, AllocError>
        ensures same { (self.new.keeps ≡ self.old.keeps) × (self.new.list.items ≡ self.old.list.items) }
        ensures kept { IfErr result (λ _. self.old.keeps ≡ true) }
        ensures unused { IfOk result IsUnused }
        ensures place { IfOk result (λ _. self.old.keeps ≡ true → length self.new.list.items < vec_capacity self.new.list) }
        ensures few { vec_capacity self.new.list ≤ max (vec_capacity self.old.list) (2 * length self.old.list.items + 4) }
        ensures room { IfOk result (λ room. self.old.keeps ≡ true → (reply : Reply) → IsWithin event.now most reply → HasRoom room reply) }
    {
        if !self.keeps {
            return Ok(Room::none(alloc));
        }
        let room = Room::of(alloc, event, most)?;
        make_place(&mut self.list)?;
        Ok(room)
    }

    /// One entry more, as the last; its reply comes back, of which the entry that is kept has a copy. Takes no memory.
    pub(crate) fn add(&mut self, room: Room, entry: Entry) -> Reply
        requires unused { IsUnused room }
        requires place { self.old.keeps ≡ true → length self.old.list.items < vec_capacity self.old.list }
        requires room { self.old.keeps ≡ true → HasRoom room entry.reply }
        ensures same { self.new.keeps ≡ self.old.keeps }
        ensures added { self.new.list.items ≡ self.old.list.items ++ kept_of self.old.keeps (entry ∷ []) }
        ensures reply { result ≡ entry.reply }
    {
        let Entry {
            caller,
            event,
            reply,
        } = entry;
        if self.keeps {
            let copy = room.copy(&reply);
            let entry = Entry {
                caller,
                event,
                reply: copy,
            };
            let Ok(()) = self.list.push(entry) else {
                unreachable!()
            };
        }
        reply
    }
}

// A place for one entry more. Where there is none, memory for twice the entries is asked for.
fn make_place(list: &mut Vec<Entry>) -> Result<(), AllocError>
    ensures same { list.new.items ≡ list.old.items }
    ensures place { OnOk result (length list.new.items < vec_capacity list.new) }
    ensures few { vec_capacity list.new ≤ max (vec_capacity list.old) (2 * length list.old.items + 4) }
{
    let length = list.len();
    if length < list.capacity() {
        return Ok(());
    }
    list.reserve_exact(length.max(LEAST_ENTRIES))
}
