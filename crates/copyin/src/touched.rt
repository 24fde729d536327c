//! A task's names while a message is judged: what is left under those that were touched.
ghost use Rattle.std.specs.Prelude.{◌≡◌, ◌+◌, ◌≤◌, OnOk, OnErr};
ghost use Rattle.std.specs.FinMap as map;
ghost use Rattle.arrayvec.specs.ArrayVec.{array_vec_len};
ghost use Rattle.name_space.specs.Names.{Names};
ghost use Rattle.copyin.specs.Overlays.{IsFull, Overlays, puts};
ghost use Rattle.copyin_base.specs.Worlds.{put};

use arrayvec::ArrayVec;
use copyin_base::TaskNames;
use mach_types::Name;
use name_space::Entry;
use std::alloc::{AllocError, Global};
use std::collections::BTreeMap;

// How many are kept without an allocation: the destination's, the reply's and those of the words of a
// body that are.
const INLINE_TOUCHED: usize = 6;

// What is left under a name; nothing, where it is no name any more.
#[derive(Clone, Copy, Default)]
pub(crate) struct Touch {
    pub(crate) name: u32,
    pub(crate) left: Option<Entry>,
}

/// The names that were touched: the first few, and over them those that came later.
#[derive(Drop)]
pub(crate) struct Touched {
    pub(crate) few: ArrayVec<Touch, INLINE_TOUCHED>,
    pub(crate) many: BTreeMap<u32, Option<Entry>>,
}

// What stands under the name after the first few: what the last of them left that touched it.
#[inline(always)]
fn after_few(space: &TaskNames<'_>, few: &[Touch], name: Name) -> Option<Entry>
    ensures { result ≡ map.get (puts space.now.names few.now) name }
{
    let mut earlier = few;
    while let Some((last, rest)) = earlier.split_last() {
        if last.name == name.number() {
            return last.left;
        }
        earlier = rest;
    }
    space.lookup(name)
}

impl Touched {
    /// One name, under which that is left. Takes no memory.
    pub(crate) fn first(alloc: Global, name: Name, left: Option<Entry>) -> Touched
        ensures names { (names : Names) → Overlays result names (put names name left) }
        ensures one { array_vec_len result.few ≡ 1 }
    {
        let mut few = ArrayVec::new();
        few.push(Touch {
            name: name.number(),
            left,
        });
        Touched {
            few,
            many: BTreeMap::new(alloc),
        }
    }

    /// What is under the name now.
    #[inline(always)]
    pub(crate) fn standing(&self, space: &TaskNames<'_>, name: Name) -> Option<Entry>
        ensures { (now : Names) → Overlays self.now space.now.names now → result ≡ map.get now name }
    {
        match self.many.get(&name.number()) {
            Some(entry) => *entry,
            None => after_few(space, self.few.as_slice(), name),
        }
    }

    /// Puts what is left under a name over what stood there.
    pub(crate) fn put(&mut self, name: Name, left: Option<Entry>) -> Result<(), AllocError>
        ensures ok { OnOk result ((names now : Names) → Overlays self.old names now → Overlays self.new names (put now name left)) }
        ensures err { OnErr result (IsFull self.old) }
        ensures few { array_vec_len self.new.few ≤ array_vec_len self.old.few + 1 }
    {
        let name = name.number();
        if !self.few.is_full() {
            self.few.push(Touch { name, left });
            return Ok(());
        }
        self.many.insert(name, left)?;
        Ok(())
    }
}
