//! The word that all threads share, and the seats of those who step on it.
ghost use Rattle.std.specs.Prelude.{◌≡◌, ◌<◌, ◌^◌, [], ◌∷◌, ◌++◌, length, IfOk};
ghost use Rattle.kernel_lock.specs.History.{Legal, StartsWith, calls_by};
ghost use Rattle.kernel_lock.specs.Views.{desk_view, pass_view};

use crate::entry::Entry;
use atomic_table::{Join, Play, Seat, Split, Table, TableRule};
use mach_types::Profile;
use std::alloc::{AllocError, Global};
use std::collections::LinkedList;
use std::marker::Model;

/// What a seat knows. No value of it is made.
pub struct View {
    pub desk: bool,
    pub made: u64,
    pub calls: bool,
    pub caller: u64,
    pub mine: LinkedList<Entry>,
    pub seen: LinkedList<Entry>,
    pub told: LinkedList<Entry>,
    pub knows: bool,
    pub profile: Profile,
    pub told_profile: Profile,
}

pub struct Law;

impl TableRule<Entry, View, Profile> for Law {
    ghost use Rattle.std.specs.Prelude.{[]};
    ghost use Rattle.kernel_lock.specs.Views.{desk_view};
    ghost use Rattle.kernel_lock.specs.Table.{Kept};

    ghost holds = { Kept };

    ghost first = { λ profile. desk_view profile [] 0 };
}

pub struct Look;

impl Play<Entry, View> for Look {
    ghost use Rattle.kernel_lock.specs.Table.{Looks};

    ghost then = { Looks };
}

pub struct Confirm;

impl Play<Entry, View> for Confirm {
    ghost use Rattle.kernel_lock.specs.Table.{Confirms};

    ghost then = { Confirms };
}

pub struct Publish;

impl Play<Entry, View> for Publish {
    ghost use Rattle.kernel_lock.specs.Table.{Publishes};

    ghost then = { Publishes };
}

/// All that a seat knows goes to a new one.
pub struct Leave;

impl Split<View> for Leave {
    ghost use Rattle.kernel_lock.specs.Views.{nobody};

    ghost left = { λ v. nobody };

    ghost right = { λ v. v };
}

/// The lock's seat takes a pass in.
pub struct TakeIn;

impl Join<View> for TakeIn {
    ghost use Rattle.kernel_lock.specs.Views.{taken_in, nobody};

    ghost both = { taken_in };

    ghost spent = { nobody };
}

/// The lock's seat gives the pass back.
pub struct GiveBack;

impl Split<View> for GiveBack {
    ghost use Rattle.kernel_lock.specs.Views.{desk_of, pass_of};

    ghost left = { desk_of };

    ghost right = { pass_of };
}

/// The lock's seat makes a pass.
pub struct NewPass;

impl Split<View> for NewPass {
    ghost use Rattle.kernel_lock.specs.Views.{desk_with_one_more, new_pass};

    ghost left = { desk_with_one_more };

    ghost right = { new_pass };
}

/// A watch that has seen nothing.
pub struct NewWatch;

impl Split<View> for NewWatch {
    ghost use Rattle.kernel_lock.specs.Views.{new_watch};

    ghost left = { λ v. v };

    ghost right = { new_watch };
}

/// A copy of what a seat has seen, and a watch that is told of it.
pub struct Tell;

impl Split<View> for Tell {
    ghost use Rattle.kernel_lock.specs.Views.{copy_of};

    ghost left = { λ v. v };

    ghost right = { copy_of };
}

impl Join<View> for Tell {
    ghost use Rattle.kernel_lock.specs.Views.{informed, nobody};

    ghost both = { informed };

    ghost spent = { nobody };
}

pub type Row = Table<Entry, View, Profile, Law, Global>;

pub type Place = Seat<Entry, View>;

/// The length of the one history, for all threads to read.
///
/// To contracts it is which board it is.
#[derive(Drop)]
pub struct Board {
    pub(crate) table: Row,
}

impl Model for Board {
    ghost use Rattle.std.specs.Prelude.{◌≡◌};
    ghost use Rattle.atomic_table.specs.Seated.{TableId};

    ghost Value = { TableId };

    ghost view = { λ b. b.table.shared.table_id };

    ghost invariant = { λ b. b.table.shared.table_id.words ≡ 1 };
}

/// A reader of the history's length, which has seen a beginning of the history.
///
/// To contracts it is its board, the profile of the history, and what it has seen.
#[derive(Drop)]
pub struct Watch {
    pub(crate) seat: Place,
}

impl Model for Watch {
    ghost use Rattle.std.specs.Prelude.{◌≡◌, []};
    ghost use Rattle.kernel_lock.specs.History.{Watched};
    ghost use Rattle.kernel_lock.specs.Views.{watch_view};

    ghost Value = { Watched };

    ghost view = { λ w. record { table = w.seat.table_id; profile = w.seat.me.0.profile; log = w.seat.me.0.seen } };

    ghost invariant = { λ w. w.seat.me ≡ (watch_view w.seat.me.0.profile w.seat.me.0.seen, []) };
}

impl Board {
    // The board of a kernel of this profile, and the lock's seat.
    pub(crate) fn open(alloc: Global, profile: Profile) -> Result<(Board, Place), AllocError>
        ensures { IfOk result (λ r. (r.1.table_id ≡ r.0) × (r.1.me ≡ (desk_view profile [] 0, []))) }
    {
        let (table, desk) = Row::of_words(alloc, &[0], &profile)?;
        Ok((Board { table }, desk))
    }

    // The lock's seat takes the pass in, publishes its call and gives it back.
    pub(crate) fn publish(&self, desk: &mut Place, pass: &mut Place, count: u64, entry: &Entry)
        requires desk { (desk.old.table_id ≡ self.now) × (desk.old.me ≡ (desk_view desk.old.me.0.profile desk.old.me.0.seen desk.old.me.0.made, [])) }
        requires pass { (pass.old.table_id ≡ self.now) × (pass.old.me ≡ (pass_view pass.old.me.0.profile entry.now.caller pass.old.me.0.mine pass.old.me.0.seen, [])) }
        requires count { length desk.old.me.0.seen ≡ count }
        requires room { count < 2 ^ 63 }
        requires legal { Legal desk.old.me.0.profile (desk.old.me.0.seen ++ entry.now ∷ []) }
        ensures desk { (desk.new.table_id ≡ self.now) × (desk.new.me ≡ (desk_view desk.old.me.0.profile (desk.old.me.0.seen ++ entry.now ∷ []) desk.old.me.0.made, [])) }
        ensures pass { (pass.new.table_id ≡ self.now)
            × (pass.new.me ≡ (pass_view pass.old.me.0.profile entry.now.caller (pass.old.me.0.mine ++ entry.now ∷ []) (desk.old.me.0.seen ++ entry.now ∷ []), [])) }
        ensures profile { pass.old.me.0.profile ≡ desk.old.me.0.profile }
        ensures seen { StartsWith desk.old.me.0.seen pass.old.me.0.seen }
        ensures mine { calls_by entry.now.caller desk.old.me.0.seen ≡ pass.old.me.0.mine }
        ensures made { entry.now.caller < desk.old.me.0.made }
        ensures room { length desk.old.me.0.seen < 2 ^ 63 }
    {
        let shared = &self.table.shared;
        let before = shared.split_seat::<Leave>(pass);
        shared.join_seat::<TakeIn>(desk, before);
        shared.compare_exchange_with::<Publish>(desk, 0, count, count + 1, entry);
        *pass = shared.split_seat::<GiveBack>(desk);
    }

    // The lock's seat takes the pass in, looks, and gives it back: the pass has then seen the whole history.
    pub(crate) fn show(&self, desk: &mut Place, pass: &mut Place)
        requires desk { (desk.old.table_id ≡ self.now) × (desk.old.me ≡ (desk_view desk.old.me.0.profile desk.old.me.0.seen desk.old.me.0.made, [])) }
        requires pass { (pass.old.table_id ≡ self.now) × (pass.old.me ≡ (pass_view pass.old.me.0.profile pass.old.me.0.caller pass.old.me.0.mine pass.old.me.0.seen, [])) }
        ensures desk { (desk.new.table_id ≡ self.now) × (desk.new.me ≡ desk.old.me) }
        ensures pass { (pass.new.table_id ≡ self.now) × (pass.new.me ≡ (pass_view pass.old.me.0.profile pass.old.me.0.caller pass.old.me.0.mine desk.old.me.0.seen, [])) }
        ensures profile { pass.old.me.0.profile ≡ desk.old.me.0.profile }
        ensures seen { StartsWith desk.old.me.0.seen pass.old.me.0.seen }
        ensures mine { calls_by pass.old.me.0.caller desk.old.me.0.seen ≡ pass.old.me.0.mine }
    {
        let shared = &self.table.shared;
        let before = shared.split_seat::<Leave>(pass);
        shared.join_seat::<TakeIn>(desk, before);
        shared.load::<Confirm>(desk, 0);
        *pass = shared.split_seat::<GiveBack>(desk);
    }

    /// How many calls the history has. The watch has then seen so much of it, and never less than before.
    /// Waits for nobody, and takes no memory.
    pub fn events(&self, watch: &mut Watch) -> u64
        requires { watch.old.table ≡ self.now }
        ensures table { watch.new.table ≡ self.now }
        ensures profile { watch.new.profile ≡ watch.old.profile }
        ensures length { result ≡ length watch.new.log }
        ensures legal { Legal watch.new.profile watch.new.log }
        ensures begins { StartsWith watch.new.log watch.old.log }
    {
        self.table.shared.load::<Look>(&mut watch.seat, 0)
    }
}
