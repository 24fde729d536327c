//! One place, in which the kernel lies while nobody has it. Which board it is tied to, and whether it keeps
//! entries, is fixed when the place is made.
ghost use Rattle.std.specs.Prelude.{◌≡◌, [], ◌∷◌, None, Some, IfOk, IfSome};
ghost use Rattle.kernel_lock.specs.Berth.{IsLike};

use crate::lock::LockedKernel;
use atomic_table::{Play, Seat, Table, TableRule};
use std::alloc::{AllocError, Global};
use std::snapshot::Snapshot;

type Content = Option<LockedKernel>;

/// The kernel that lay here first.
type Key = Snapshot<LockedKernel>;

/// A kernel that lies here is like the first one: tied to the same board, and keeping entries as that one did.
pub struct Moored;

impl TableRule<Content, Key, Key> for Moored {
    ghost use Rattle.kernel_lock.specs.Berth.{IsMoored};

    ghost holds = { λ key s. IsMoored key.value s };

    ghost first = { λ key. key };
}

pub struct Take;

impl Play<Content, Key> for Take {
    ghost use Rattle.kernel_lock.specs.Berth.{Takes};

    ghost then = { λ s v found w. Takes v.0.value found w.1 };
}

pub struct Give;

impl Play<Content, Key> for Give {
    ghost then = { λ s v found w. Unit {0} };
}

pub(crate) type Hand = Seat<Content, Key>;

/// To contracts it is the kernel that lay here first.
#[derive(Drop)]
pub struct Berth {
    table: Table<Content, Key, Key, Moored, Global>,
    ghost sizes: { (table.shared.table_id.words ≡ 1) × (table.shared.table_id.slots ≡ 1) },
}

impl Berth {
    pub(crate) fn new(alloc: Global, kernel: LockedKernel) -> Result<Berth, AllocError>
        ensures { IfOk result (λ b. b.table.shared.key.value ≡ kernel) }
    {
        let key = Snapshot::of(&kernel);
        let slots = home_of(alloc, kernel)?;
        match Table::new(alloc, &[1], slots, &key) {
            Ok((table, _)) => Ok(Berth { table }),
            Err(_) => Err(AllocError),
        }
    }

    /// The kernel, if it lies here.
    pub(crate) fn take(&self) -> Option<(LockedKernel, Hand)>
        ensures { IfSome result (λ r. IsLike self.now.table.shared.key.value r.0 × (r.1.table_id ≡ self.now.table.shared.table_id) × (r.1.me.1 ≡ (0, None) ∷ [])) }
    {
        let shared = &self.table.shared;
        let (found, mut hand) = shared.swap_new_seat::<Take>(0, 0);
        if found == 0 {
            return None;
        }
        let Some(kernel) = shared.exchange(&mut hand, 0, None) else {
            unreachable!()
        };
        Some((kernel, hand))
    }

    pub(crate) fn put(&self, mut hand: Hand, kernel: LockedKernel)
        requires hand { (hand.table_id ≡ self.now.table.shared.table_id) × (hand.me.1 ≡ (0, None) ∷ []) }
        requires kernel { IsLike self.now.table.shared.key.value kernel }
    {
        let shared = &self.table.shared;
        let _ = shared.exchange(&mut hand, 0, Some(kernel));
        shared.store::<Give>(&mut hand, 0, 1);
    }
}

/// The one slot, with the kernel in it.
fn home_of(alloc: Global, kernel: LockedKernel) -> Result<Vec<Content>, AllocError>
    ensures { IfOk result (λ slots. slots.items ≡ Some kernel ∷ []) }
{
    let mut slots = Vec::with_capacity(alloc, 1)?;
    let Ok(()) = slots.push(Some(kernel)) else {
        unreachable!()
    };
    Ok(slots)
}
