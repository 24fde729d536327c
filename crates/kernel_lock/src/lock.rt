//! The kernel behind its lock, with its history.
ghost use Rattle.std.specs.Prelude.{◌≡◌, ◌≢◌, ◌+◌, ◌<◌, ◌≤◌, ◌^◌, ℕ, true, false, [], ◌∷◌, length, None, IfOk, IfErr, slice_index_or, slice_set};
ghost use Rattle.mach_types.specs.declared.calls.Reply.{Reply as AnyReply};
ghost use Rattle.mach_types.specs.declared.profiles.Profile.TheVariants.{One};
ghost use Rattle.mach_model.specs.State.{opening_in};
ghost use Rattle.copyin_base.specs.Shows.{Shows};
ghost use Rattle.kernel_change.specs.Changing.{few};
ghost use Rattle.kernel_core.specs.Touching.{Touches};
ghost use Rattle.kernel_lock.specs.History.{Legal, StartsWith, Stepped, Called, calls_by};
ghost use Rattle.kernel_lock.specs.Berth.{IsLike};
ghost use Rattle.kernel_lock.specs.Replays.{Replays, IsSameButPasses, IsNewPass, kept_of};
ghost use Rattle.kernel_lock.specs.Views.{desk_view};

use crate::berth::{Berth, Hand};
use crate::board::{Board, Look, NewPass, NewWatch, Place, Tell, Watch};
use crate::entries::Entries;
use crate::entry::Entry;
use kernel_core::Kernel;
use mach_types::{Event, Profile, Reply, Touched};
use std::alloc::{AllocError, Global};
use std::marker::Model;
use std::sync::{Mutex, MutexGuard, Wait};
use std::thread;

/// How many calls a history has at most. No memory holds so many entries; only one whose entries aren't kept could
/// come to it.
const MOST_CALLS: u64 = 1 << 63;

/// A caller: its number, how many of its calls were recorded, which ports and sets the last of them may have
/// changed, and what it has seen of the history.
///
/// It is used with the [`Shared`] that made it and with that one's board: `requires` ask for it. To contracts
/// it is its board, the profile of the history, its number and what it has seen.
#[derive(Drop)]
pub struct Pass {
    caller: u64,
    count: u64,
    touched: Touched,
    seat: Place,
}

impl Model for Pass {
    ghost use Rattle.std.specs.Prelude.{◌≡◌, [], length};
    ghost use Rattle.kernel_lock.specs.History.{Known, calls_by};
    ghost use Rattle.kernel_lock.specs.Views.{pass_view};

    ghost Value = { Known };

    ghost view = { λ p. record { table = p.seat.table_id; profile = p.seat.me.0.profile; caller = p.caller; seen = p.seat.me.0.seen; touched = p.touched } };

    ghost invariant = { λ p. (p.seat.me ≡ (pass_view p.seat.me.0.profile p.caller (calls_by p.caller p.seat.me.0.seen) p.seat.me.0.seen, []))
        × (p.count ≡ length (calls_by p.caller p.seat.me.0.seen)) };
}

/// The kernel, with the history that led to it, and with the count of each caller's calls.
///
/// The type keeps two facts. The history's events and replies are a run of the machine by the kernel's
/// profile, to a state that this kernel shows. Each count is that of the caller's entries. The entries
/// themselves are kept, or they aren't, from the first call on. To contracts it is its board, the profile,
/// the history, whether its entries are kept, how many passes were made, and the kernel's tables and turns.
#[derive(Drop)]
pub struct LockedKernel {
    alloc: Global,
    kernel: Kernel,
    entries: Entries,
    events: u64,
    counts: Vec<u64>,
    seat: Place,
}

impl Model for LockedKernel {
    ghost use Rattle.std.specs.Prelude.{◌≡◌, [], length};
    ghost use Rattle.kernel_lock.specs.History.{CountsFit};
    ghost use Rattle.kernel_lock.specs.Replays.{Stored, stored_code, Replays, kept_of};
    ghost use Rattle.atomic_table.specs.Seated.{table_id_coded};
    ghost use Rattle.mach_types.specs.contracts.profiles.Profile as profile_of;
    ghost use Rattle.kernel_lock.specs.contracts.entry.Entry as entry;
    ghost use Rattle.kernel_core.specs.contracts.kernel.Kernel as machine;
    ghost use Rattle.kernel_lock.specs.Views.{desk_view};

    ghost Value = { Stored };

    ghost coded = { stored_code table_id_coded profile_of.the_row.coded entry.the_row.coded machine.the_row.coded };

    ghost view = { λ k. record { table = k.seat.table_id; profile = k.seat.me.0.profile; log = k.seat.me.0.seen; keeps = k.entries.keeps; passes = length k.counts.items; kernel = k.kernel } };

    ghost invariant = { λ k. Replays k.seat.me.0.profile k.seat.me.0.seen k.kernel × CountsFit k.counts.items k.seat.me.0.seen
        × (k.seat.me ≡ (desk_view k.seat.me.0.profile k.seat.me.0.seen (length k.counts.items), []))
        × (k.events ≡ length k.seat.me.0.seen) × (k.entries.list.items ≡ kept_of k.entries.keeps k.seat.me.0.seen) };
}

impl LockedKernel {
    // A kernel of this profile in which nothing was made yet, with the empty history and no callers. Takes no memory.
    fn new(alloc: Global, seat: Place, profile: Profile, keeps: bool) -> LockedKernel
        requires seat { seat.me ≡ (desk_view profile [] 0, []) }
        ensures tied { result.table ≡ seat.table_id }
        ensures of_profile { result.profile ≡ profile }
        ensures keeps { result.keeps ≡ keeps }
        ensures empty { result.log ≡ [] }
        ensures none { result.passes ≡ 0 }
        ensures opening { Shows result.kernel.tables (opening_in profile) }
    {
        LockedKernel {
            alloc,
            kernel: Kernel::with_profile(alloc, profile),
            entries: Entries::new(alloc, keeps),
            events: 0,
            counts: Vec::new(alloc),
            seat,
        }
    }

    /// The history's entries, oldest first; none where they aren't kept. The history is a run by the kernel's profile,
    /// to a state that the kernel shows. Constant time.
    pub fn entries(&self) -> &[Entry]
        ensures stored { result.now ≡ kept_of self.now.keeps self.now.log }
        ensures replays { Replays self.now.profile self.now.log self.now.kernel }
    {
        self.entries.as_slice()
    }

    /// How many calls the history has, whether its entries are kept or not. Constant time.
    pub fn events(&self) -> u64
        ensures { result ≡ length self.now.log }
    {
        self.events
    }

    /// How many passes were made. No other caller has a call in the history. Constant time.
    pub fn passes(&self) -> u64
        ensures count { result ≡ self.now.passes }
        ensures others { (c : ℕ) → self.now.passes ≤ c → calls_by c self.now.log ≡ [] }
    {
        self.counts.len() as u64
    }

    /// Makes one call of the pass's caller, whole, and puts it at the end of the history as it was answered.
    ///
    /// The history's growths come first: the entry's place, and room for a copy of the reply, as much as
    /// [`Kernel::reply_bound`] tells of the event. Where one is refused the answer is `NoRecord`, and nothing has
    /// happened: the kernel, its history and the pass are as before. Where entries aren't kept the history has no
    /// growth, and each call is recorded. No call is where the history has 2^63 of them. Waits for nobody.
    ///
    /// A recorded call leaves in the pass what [`Kernel::touched`] then returns ([`Pass::touched`]).
    pub fn step_locked(&mut self, board: &Board, pass: &mut Pass, event: Event) -> Reply
        requires { (self.old.table ≡ board.now) × (pass.old.table ≡ board.now) }
        ensures tied { (self.new.table ≡ board.now) × (pass.new.table ≡ board.now) }
        ensures step { Stepped self.old.log self.new.log pass.old pass.new event result }
        ensures same { self.new.keeps ≡ self.old.keeps }
        ensures profile { (self.new.profile ≡ self.old.profile) × (result ≢ AnyReply.NoRecord → pass.old.profile ≡ self.old.profile) }
        ensures passes { self.new.passes ≡ self.old.passes }
        ensures unmade { result ≡ AnyReply.NoRecord → self.new ≡ self.old }
        ensures recorded { self.old.keeps ≡ false → length self.old.log < 2 ^ 63 → result ≢ AnyReply.NoRecord }
        ensures full { 2 ^ 63 ≤ length self.old.log → result ≡ AnyReply.NoRecord }
        ensures touches { result ≢ AnyReply.NoRecord → Touches self.old.kernel.tables event result self.new.kernel.tables pass.new.touched }
        ensures left { result ≢ AnyReply.NoRecord → pass.new.touched ≡ self.new.kernel.touched }
    {
        if self.events >= MOST_CALLS {
            return Reply::NoRecord;
        }
        let most = self.kernel.reply_bound(&event);
        let Ok(room) = self.entries.make_room(self.alloc, &event, most) else {
            return Reply::NoRecord;
        };
        let reply = self.kernel.step(&event);
        pass.touched = self.kernel.touched();
        let entry = Entry {
            caller: pass.caller,
            event,
            reply,
        };
        board.publish(&mut self.seat, &mut pass.seat, self.events, &entry);
        self.events += 1;
        pass.count += 1;
        count_one(&mut self.counts, pass.caller);
        self.entries.add(room, entry)
    }

    fn new_pass(&mut self, board: &Board) -> Result<Pass, AllocError>
        requires { self.old.table ≡ board.now }
        ensures same { IsSameButPasses self.old self.new }
        ensures new { IfOk result (λ p. IsNewPass self.old p × (self.new.passes ≡ self.old.passes + 1)) }
        ensures none { IfErr result (λ _. self.new.passes ≡ self.old.passes) }
    {
        let caller = self.counts.len() as u64;
        self.counts.push(0)?;
        let seat = board.table.shared.split_seat::<NewPass>(&mut self.seat);
        Ok(Pass {
            caller,
            count: 0,
            touched: Touched::Few([None, None, None, None]),
            seat,
        })
    }

    /// Makes the pass see the whole history. Its own calls there are those that it had seen. Waits for nobody, and takes
    /// no memory.
    pub fn show(&mut self, board: &Board, pass: &mut Pass)
        requires { (self.old.table ≡ board.now) × (pass.old.table ≡ board.now) }
        ensures same { self.new ≡ self.old }
        ensures tied { pass.new.table ≡ board.now }
        ensures profile { (pass.new.profile ≡ self.old.profile) × (pass.old.profile ≡ self.old.profile) }
        ensures caller { pass.new.caller ≡ pass.old.caller }
        ensures touched { pass.new.touched ≡ pass.old.touched }
        ensures whole { pass.new.seen ≡ self.old.log }
        ensures begins { StartsWith self.old.log pass.old.seen }
        ensures own { calls_by pass.old.caller self.old.log ≡ calls_by pass.old.caller pass.old.seen }
    {
        board.show(&mut self.seat, &mut pass.seat);
    }

    fn new_watch(&mut self, board: &Board) -> Watch
        requires { self.old.table ≡ board.now }
        ensures same { self.new ≡ self.old }
        ensures new { (result.table ≡ board.now) × (result.profile ≡ self.old.profile) × (result.log ≡ []) }
    {
        let seat = board.table.shared.split_seat::<NewWatch>(&mut self.seat);
        Watch { seat }
    }
}

/// A kernel behind its lock, for many threads, and the board beside it.
///
/// To contracts it is which board that is, the kernel's profile, and whether the history's entries are kept.
pub struct Shared {
    gate: Mutex<()>,
    berth: Berth,
    board: Board,
}

/// Drops the kernel with its history. It is written out, so that it is proved here alone, and not in each crate that drops one.
impl Drop for Shared {
    fn drop(self) {
        let Shared {
            gate: _,
            berth: _,
            board: _,
        } = self;
    }
}

impl Model for Shared {
    ghost use Rattle.std.specs.Prelude.{◌≡◌};
    ghost use Rattle.kernel_lock.specs.Replays.{SharedView};

    ghost Value = { SharedView };

    ghost view = { λ s. record { table = s.board; profile = s.berth.table.shared.key.value.profile; keeps = s.berth.table.shared.key.value.keeps } };

    ghost invariant = { λ s. s.berth.table.shared.key.value.table ≡ s.board };
}

/// The kernel, while this thread has it; dropping it gives the kernel back.
///
/// It gives no `&mut LockedKernel`, so that no other kernel can be put in its place.
pub struct Held<'a> {
    kernel: LockedKernel,
    hand: Hand,
    berth: &'a Berth,
    gate: MutexGuard<'a, ()>,
    ghost hand_is: { (hand.table_id ≡ berth.now.table.shared.table_id) × (hand.me.1 ≡ (0, None) ∷ []) },
    ghost tied: { IsLike berth.now.table.shared.key.value kernel },
}

impl<'a> Drop for Held<'a> {
    fn drop(self) {
        let Self {
            kernel,
            hand,
            berth,
            gate,
        } = self;
        berth.put(hand, kernel);
        drop(gate);
    }
}

impl<'a> Held<'a> {
    /// The history's entries, as [`LockedKernel::entries`] gives them: all of them where its [`Shared`] keeps them.
    pub fn entries(&self) -> &[Entry]
        ensures stored { result.now ≡ kept_of self.now.kernel.keeps self.now.kernel.log }
        ensures replays { Replays self.now.kernel.profile self.now.kernel.log self.now.kernel.kernel }
    {
        self.kernel.entries()
    }

    /// How many calls the history has, as [`LockedKernel::events`] tells.
    pub fn events(&self) -> u64
        ensures { result ≡ length self.now.kernel.log }
    {
        self.kernel.events()
    }

    /// How many passes were made, as [`LockedKernel::passes`] tells.
    pub fn passes(&self) -> u64
        ensures count { result ≡ self.now.kernel.passes }
        ensures others { (c : ℕ) → self.now.kernel.passes ≤ c → calls_by c self.now.kernel.log ≡ [] }
    {
        self.kernel.passes()
    }

    /// One call, as [`LockedKernel::step_locked`] makes it.
    pub fn step_locked(&mut self, board: &Board, pass: &mut Pass, event: Event) -> Reply
        requires { (self.old.kernel.table ≡ board.now) × (pass.old.table ≡ board.now) }
        ensures tied { (self.new.kernel.table ≡ board.now) × (pass.new.table ≡ board.now) }
        ensures step { Stepped self.old.kernel.log self.new.kernel.log pass.old pass.new event result }
        ensures same { self.new.kernel.keeps ≡ self.old.kernel.keeps }
        ensures profile { (self.new.kernel.profile ≡ self.old.kernel.profile) × (result ≢ AnyReply.NoRecord → pass.old.profile ≡ self.old.kernel.profile) }
        ensures passes { self.new.kernel.passes ≡ self.old.kernel.passes }
        ensures unmade { result ≡ AnyReply.NoRecord → self.new.kernel ≡ self.old.kernel }
        ensures recorded { self.old.kernel.keeps ≡ false → length self.old.kernel.log < 2 ^ 63 → result ≢ AnyReply.NoRecord }
        ensures full { 2 ^ 63 ≤ length self.old.kernel.log → result ≡ AnyReply.NoRecord }
        ensures touches { result ≢ AnyReply.NoRecord → Touches self.old.kernel.kernel.tables event result self.new.kernel.kernel.tables pass.new.touched }
        ensures left { result ≢ AnyReply.NoRecord → pass.new.touched ≡ self.new.kernel.kernel.touched }
    {
        self.kernel.step_locked(board, pass, event)
    }

    /// A new caller, which has seen nothing. Its number is how many passes were made before. An error means that memory
    /// for its count was refused, and there is no new caller.
    pub fn pass(&mut self, board: &Board) -> Result<Pass, AllocError>
        requires { self.old.kernel.table ≡ board.now }
        ensures same { IsSameButPasses self.old.kernel self.new.kernel }
        ensures new { IfOk result (λ p. IsNewPass self.old.kernel p × (self.new.kernel.passes ≡ self.old.kernel.passes + 1)) }
        ensures none { IfErr result (λ _. self.new.kernel.passes ≡ self.old.kernel.passes) }
    {
        self.kernel.new_pass(board)
    }

    /// Makes the pass see the whole history, as [`LockedKernel::show`] does.
    pub fn show(&mut self, board: &Board, pass: &mut Pass)
        requires { (self.old.kernel.table ≡ board.now) × (pass.old.table ≡ board.now) }
        ensures same { self.new.kernel ≡ self.old.kernel }
        ensures tied { pass.new.table ≡ board.now }
        ensures profile { (pass.new.profile ≡ self.old.kernel.profile) × (pass.old.profile ≡ self.old.kernel.profile) }
        ensures caller { pass.new.caller ≡ pass.old.caller }
        ensures touched { pass.new.touched ≡ pass.old.touched }
        ensures whole { pass.new.seen ≡ self.old.kernel.log }
        ensures begins { StartsWith self.old.kernel.log pass.old.seen }
        ensures own { calls_by pass.old.caller self.old.kernel.log ≡ calls_by pass.old.caller pass.old.seen }
    {
        self.kernel.show(board, pass);
    }

    fn new_watch(&mut self, board: &Board) -> Watch
        requires { self.old.kernel.table ≡ board.now }
        ensures same { self.new.kernel ≡ self.old.kernel }
        ensures new { (result.table ≡ board.now) × (result.profile ≡ self.old.kernel.profile) × (result.log ≡ []) }
    {
        self.kernel.new_watch(board)
    }
}

impl Shared {
    /// A kernel of the first profile: [`Shared::with_profile`].
    pub fn new(alloc: Global) -> Result<Shared, AllocError>
        ensures { IfOk result (λ s. (s.profile ≡ One) × (s.keeps ≡ true)) }
    {
        Shared::with_profile(alloc, Profile::One)
    }

    /// A kernel of the first profile, whose entries won't be kept: [`Shared::with_profile_without_entries`].
    pub fn without_entries(alloc: Global) -> Result<Shared, AllocError>
        ensures { IfOk result (λ s. (s.profile ≡ One) × (s.keeps ≡ false)) }
    {
        Shared::with_profile_without_entries(alloc, Profile::One)
    }

    /// A kernel of this profile in which nothing was made yet, with the empty history, whose entries will be kept. An
    /// error means that memory for its board or its place was refused.
    pub fn with_profile(alloc: Global, profile: Profile) -> Result<Shared, AllocError>
        ensures { IfOk result (λ s. (s.profile ≡ profile) × (s.keeps ≡ true)) }
    {
        Shared::keeping(alloc, profile, true)
    }

    /// The same, but that the history's entries won't be kept: [`Held::entries`] is empty, and a call takes no memory
    /// for its entry. [`Held::events`], [`Board::events`] and [`Pass::tell`] work as for any kernel.
    pub fn with_profile_without_entries(
        alloc: Global,
        profile: Profile,
    ) -> Result<Shared, AllocError>
        ensures { IfOk result (λ s. (s.profile ≡ profile) × (s.keeps ≡ false)) }
    {
        Shared::keeping(alloc, profile, false)
    }

    fn keeping(alloc: Global, profile: Profile, keeps: bool) -> Result<Shared, AllocError>
        ensures { IfOk result (λ s. (s.profile ≡ profile) × (s.keeps ≡ keeps)) }
    {
        let (board, desk) = Board::open(alloc, profile)?;
        let berth = Berth::new(alloc, LockedKernel::new(alloc, desk, profile, keeps))?;
        Ok(Shared {
            gate: Mutex::new(()),
            berth,
            board,
        })
    }

    /// The kernel, as soon as no other thread has it. May wait; takes no memory.
    pub fn lock<R: Wait>(&self, rt: &R) -> Held<'_>
        ensures tied { result.kernel.table ≡ self.entry.now.table }
        ensures profile { result.kernel.profile ≡ self.entry.now.profile }
        ensures keeps { result.kernel.keeps ≡ self.entry.now.keeps }
    {
        let gate = self.gate.lock(rt);
        for _ in rt.forever() {
            if let Some((kernel, hand)) = self.berth.take() {
                return Held {
                    kernel,
                    hand,
                    berth: &self.berth,
                    gate,
                };
            }
            thread::yield_now();
        }
        unreachable!()
    }

    /// The same, as soon as the history has a place for one more call. Waits for ever where it has 2^63 of them.
    fn lock_to_call<R: Wait>(&self, rt: &R) -> Held<'_>
        ensures tied { result.kernel.table ≡ self.entry.now.table }
        ensures profile { result.kernel.profile ≡ self.entry.now.profile }
        ensures keeps { result.kernel.keeps ≡ self.entry.now.keeps }
        ensures place { length result.kernel.log < 2 ^ 63 }
    {
        for _ in rt.forever() {
            let held = self.lock(rt);
            if held.events() < MOST_CALLS {
                return held;
            }
            drop(held);
            thread::yield_now();
        }
        unreachable!()
    }

    /// The board on which the history's length stands.
    pub fn board(&self) -> &Board
        ensures { result.now ≡ self.now.table }
    {
        &self.board
    }

    /// A new caller, which has seen nothing; callers are numbered from 0. May wait. An error means that
    /// memory for its count was refused, and there is no new caller.
    pub fn pass<R: Wait>(&self, rt: &R) -> Result<Pass, AllocError>
        ensures { IfOk result (λ p. (p.table ≡ self.now.table) × (p.profile ≡ self.now.profile) × (p.seen ≡ []) × (p.touched ≡ few None None)) }
    {
        self.lock(rt).pass(&self.board)
    }

    /// A new watch, which has seen nothing. May wait; takes no memory.
    pub fn watch<R: Wait>(&self, rt: &R) -> Watch
        ensures { (result.table ≡ self.now.table) × (result.profile ≡ self.now.profile) × (result.log ≡ []) }
    {
        self.lock(rt).new_watch(&self.board)
    }

    /// Makes one call under the lock, as [`LockedKernel::step_locked`] does. May wait, and does so for ever where the
    /// history has 2^63 calls. Where entries aren't kept each call is recorded.
    #[tactic(auto, using(crate::proofs::Lists::called_of))]
    pub fn call<R: Wait>(&self, rt: &R, pass: &mut Pass, event: Event) -> Reply
        requires { pass.old.table ≡ self.now.table }
        ensures tied { pass.new.table ≡ self.now.table }
        ensures call { Called pass.old pass.new event result }
        ensures recorded { self.now.keeps ≡ false → result ≢ AnyReply.NoRecord }
    {
        self.lock_to_call(rt).step_locked(&self.board, pass, event)
    }
}

impl Pass {
    /// Returns which ports and sets the last recorded call of this pass may have changed: what
    /// [`Kernel::touched`] returned right after its step. None before the first recorded call. Constant time.
    pub fn touched(&self) -> Touched
        ensures { result ≡ self.now.touched }
    {
        self.touched
    }

    /// Makes a watch see what the pass has seen. Waits for nobody, and takes no memory.
    pub fn tell(&mut self, board: &Board, watch: &mut Watch)
        requires { (self.old.table ≡ board.now) × (watch.old.table ≡ board.now) }
        ensures same { self.new ≡ self.old }
        ensures tied { watch.new.table ≡ board.now }
        ensures profile { (watch.new.profile ≡ watch.old.profile) × (self.old.profile ≡ watch.old.profile) }
        ensures told { StartsWith watch.new.log self.old.seen }
        ensures begins { StartsWith watch.new.log watch.old.log }
        ensures legal { Legal watch.new.profile watch.new.log }
    {
        let shared = &board.table.shared;
        let copy = shared.split_seat::<Tell>(&mut self.seat);
        shared.join_seat::<Tell>(&mut watch.seat, copy);
        shared.load::<Look>(&mut watch.seat, 0);
    }
}

// One call more of this caller.
fn count_one(counts: &mut Vec<u64>, caller: u64)
    requires inside { caller < length counts.old.items }
    requires small { slice_index_or counts.old.items caller 0 < 2 ^ 63 }
    ensures { counts.new.items ≡ slice_set counts.old.items caller (slice_index_or counts.old.items caller 0 + 1) }
{
    let at = caller as usize;
    let count = counts[at];
    counts[at] = count + 1;
}
