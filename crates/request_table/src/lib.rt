//! Dead-name requests: who is told once the port under a name is dead, one request at most for each
//! name of a task.
//!
//! A request is found by its name, and the requests on a port's names stand in a list. They leave in
//! any order, and only [`Requests::reserve`] takes memory.
//!
//! A request whose name went is kept until it is told: it stands on no name then, and is not room for
//! another yet.
#![tactic(auto)]

mod tables;

ghost use Rattle.std.specs.Prelude.{◌≡◌, ℕ, ◌+◌, ◌<◌, ◌≤◌, ◌^◌, ◌↔◌, ◌∷◌, [], max, length, Some, None, IsOk, IfSome, IfNone, IsTrue, OnOk, OnErr, slice_get};
ghost use Rattle.std.specs.Option.{option_and_then};
ghost use Rattle.std.specs.FinMap as map;
ghost use Rattle.std.specs.Vec.{vec_capacity};
ghost use Rattle.member_lists.specs.Chains.{times};
ghost use Rattle.request_table.specs.Requests.{name_key};
ghost use Rattle.request_table.specs.Kept.{IsTaken};

use mach_types::{Name, PortId, TaskId};
use member_lists::Lists;
use number_map::NumberMap;
use std::alloc::{AllocError, Global};
use std::collections::VecDeque;
use std::marker::Model;
pub use tables::RequestTables;

/// A request: once the port that a name stands for is dead, its task is told.
#[derive(Clone, Copy, Debug, PartialEq, Eq)]
pub struct Request {
    /// The task whose name it is.
    pub task: TaskId,
    /// The name.
    pub name: Name,
    /// The port that the name stands for.
    pub port: PortId,
    /// The port to which the notice goes.
    pub notify: PortId,
}

// A request, and the item of its port's list that stands for it.
#[derive(Clone, Copy)]
struct Entry {
    request: Request,
    item: usize,
}

/// Requests by name, and the names of each port. Without room nothing is allocated.
#[derive(Drop)]
pub struct Requests {
    by_name: NumberMap<Entry>,
    by_port: Lists,
    // The number of the name that each item stands for.
    keys: Vec<u64>,
    // The items below `fresh` that stand for none.
    free: Vec<usize>,
    fresh: usize,
    // Those whose names went. Each of them keeps a place of `by_name` as room.
    went: VecDeque<Request>,
}

impl Model for Requests {
    ghost use Rattle.request_table.specs.Requests.{RequestsView, requests_code};
    ghost use Rattle.request_table.specs.contracts.Request as request;

    ghost Value = { RequestsView };

    ghost coded = { requests_code request.the_row.coded };

    ghost use Rattle.std.specs.Prelude.{length, ◌-◌};
    ghost use Rattle.std.specs.Vec.{vec_capacity};
    ghost use Rattle.std.specs.VecDeque.{deque_capacity};
    ghost use Rattle.request_table.specs.Kept.{requests_of, names_at, IsWhole};

    ghost view = { λ a. record {
      requests = requests_of a.by_name.map;
      names = names_at a.keys.items a.by_port.lists;
      room = a.by_name.room - length a.went.items;
      went = a.went.items;
    } };

    ghost invariant = { λ a. IsWhole a.by_name a.by_port a.keys.items a.free.items (vec_capacity a.free) a.fresh a.went.items (deque_capacity a.went) };
}

// The number of a task's name, which is less than 2^32.
fn key_of(task: TaskId, name: Name) -> u64
    ensures key { result ≡ name_key task name }
    ensures small { name < 2 ^ 32 }
{
    task.number() as u64 * (1 << 32) + name.number() as u64
}

// Makes the row so long, where it is shorter.
fn grow(keys: &mut Vec<u64>, len: usize) -> Result<(), AllocError>
    ensures stays { (x : ℕ) → x < length keys.old.items → slice_get keys.new.items x ≡ slice_get keys.old.items x }
    ensures longer { length keys.old.items ≤ length keys.new.items }
    ensures ok { OnOk result (len ≤ length keys.new.items) }
{
    if len > keys.len() {
        keys.resize(len, 0)?;
    }
    Ok(())
}

// An item that stands for no request: one of the free ones, or, where there is none, a fresh one.
fn take_item(free: &mut Vec<usize>, fresh: &mut usize) -> usize
    requires once { (x : ℕ) → times x free.old.items ≤ 1 }
    requires below { (x : ℕ) → 0 < times x free.old.items → x < fresh.old }
    requires fits { length free.old.items ≡ 0 → fresh.old + 1 < 2 ^ 64 }
    ensures taken { IsTaken free.old.items free.new.items fresh.old fresh.new result }
    ensures capacity { vec_capacity free.new ≡ vec_capacity free.old }
{
    if let Some(item) = free.pop() {
        return item;
    }
    let item = *fresh;
    *fresh += 1;
    item
}

impl Requests {
    ghost use Rattle.request_table.specs.Requests.{no_requests, with_request, without_request, with_name_gone, without_first_went, names_of, key_of as key_in, IsOn, NoneOn};
    ghost use Rattle.request_table.specs.declared.Request.{Request as AnyRequest};

    /// No requests, and room for none. Allocates nothing; constant time.
    pub fn new(alloc: Global) -> Requests
        ensures { result ≡ no_requests }
    {
        Requests {
            by_name: NumberMap::new(alloc),
            by_port: Lists::new(alloc),
            keys: Vec::new(alloc),
            free: Vec::new(alloc),
            fresh: 0,
            went: VecDeque::new(alloc),
        }
    }

    /// Returns whether there are none: none that stands, and none whose name went. Constant time.
    pub fn is_empty(&self) -> bool
        ensures { IsTrue result ↔ ((self.now.requests ≡ map.empty) × (self.now.went ≡ [])) }
    {
        self.by_name.len() == 0 && self.went.is_empty()
    }

    /// How many more requests can be put in. Constant time.
    pub fn room(&self) -> usize
        ensures { result ≡ self.now.room }
    {
        self.by_name.room() - self.went.len()
    }

    /// Makes room for at least so many more requests. Constant time where there is room for them. Else at
    /// most linear in the number of requests and of those to come, as all may move to a larger place.
    ///
    /// An error means that memory was refused; all is then as before. It never comes where there is room
    /// already. Nothing else here takes memory.
    pub fn reserve(&mut self, additional: usize) -> Result<(), AllocError>
        ensures ok { OnOk result (self.new ≡ record self.old { room = max self.old.room additional }) }
        ensures err { OnErr result (self.new ≡ self.old) }
        ensures had_room { additional ≤ self.old.room → IsOk result }
    {
        if additional > self.room() {
            let room = additional.checked_add(self.went.len()).ok_or(AllocError)?;
            let items = room.checked_add(self.by_name.len()).ok_or(AllocError)?;
            grow(&mut self.keys, items)?;
            self.free.reserve(items)?;
            self.went.reserve(items)?;
            self.by_port.reserve(items)?;
            self.by_name.reserve(room)?;
        }
        Ok(())
    }

    /// The request on a task's name, if there is one. Constant time.
    pub fn get(&self, task: TaskId, name: Name) -> Option<Request>
        ensures kept { result ≡ map.get self.now.requests (name_key task name) }
        ensures own { IfSome result (λ r. (r.task ≡ task) × (r.name ≡ name)) }
    {
        let entry = self.by_name.get(key_of(task, name))?;
        Some(entry.request)
    }

    /// Puts a request in, on a name that has none, where there is room: its name is then the last of
    /// its port's. Constant time.
    pub fn insert(&mut self, request: Request)
        requires absent { map.get self.old.requests (key_in request) ≡ None }
        requires room { 0 < self.old.room }
        ensures { self.new ≡ with_request self.old request }
    {
        let key = key_of(request.task, request.name);
        let item = take_item(&mut self.free, &mut self.fresh);
        self.keys[item] = key;
        self.by_port.push(request.port.number(), item);
        self.by_name.insert(key, Entry { request, item });
    }

    /// Takes the request on a task's name out, if there is one, and answers it; its place is room for
    /// another. `None` leaves all as it was. Constant time.
    pub fn remove(&mut self, task: TaskId, name: Name) -> Option<Request>
        ensures kept { result ≡ map.get self.old.requests (name_key task name) }
        ensures own { IfSome result (λ r. (r.task ≡ task) × (r.name ≡ name)) }
        ensures some { IfSome result (λ r. self.new ≡ without_request self.old r) }
        ensures none { IfNone result (self.new ≡ self.old) }
    {
        let key = key_of(task, name);
        let Entry { request, item } = self.by_name.get(key)?;
        self.by_name.release(key);
        self.by_port.remove(request.port.number(), item);
        self.free.push_reserved(item);
        Some(request)
    }

    /// A task's name goes: the request on it stands no more, and is the last of those whose names went.
    /// Its place is not room for another yet, till [`Requests::take_went`] answers it; where there is no
    /// request, nothing changes. Constant time.
    pub fn leave(&mut self, task: TaskId, name: Name)
        ensures there { (r : AnyRequest) → map.get self.old.requests (name_key task name) ≡ Some r → self.new ≡ with_name_gone self.old r }
        ensures absent { map.get self.old.requests (name_key task name) ≡ None → self.new ≡ self.old }
    {
        if let Some(request) = self.remove(task, name) {
            self.went.push_back_reserved(request);
        }
    }

    /// The first of the requests whose names went, if there is one. Constant time.
    pub fn first_went(&self) -> Option<Request>
        ensures { result ≡ slice_get self.now.went 0 }
    {
        self.went.front().copied()
    }

    /// Takes out the first of the requests whose names went, if there is one, and returns it; its place is
    /// room for another. `None` leaves all as it was. Constant time.
    pub fn take_went(&mut self) -> Option<Request>
        ensures some { IfSome result (λ r. (self.old.went ≡ r ∷ self.new.went) × (self.new ≡ without_first_went self.old)) }
        ensures none { IfNone result ((self.old.went ≡ []) × (self.new ≡ self.old)) }
    {
        self.went.pop_front()
    }

    /// Puts the request on one name of a task on another, which has none; where there is no such
    /// request, nothing changes. It is then the last of its port's, as one that was taken out and put
    /// in again. Constant time.
    pub fn rename(&mut self, task: TaskId, from: Name, to: Name)
        requires { map.get self.old.requests (name_key task to) ≡ None }
        ensures there { (r : AnyRequest) → map.get self.old.requests (name_key task from) ≡ Some r → self.new ≡ with_request (without_request self.old r) (record r { name = to }) }
        ensures absent { map.get self.old.requests (name_key task from) ≡ None → self.new ≡ self.old }
    {
        if let Some(request) = self.remove(task, from) {
            self.insert(Request {
                name: to,
                ..request
            });
        }
    }

    /// The first request on a name of this port, if there is one: of those that are there, the one that
    /// came first. Constant time.
    pub fn first_of(&self, port: PortId) -> Option<Request>
        ensures first { result ≡ option_and_then (λ k. map.get self.now.requests k) (slice_get (names_of self.now port) 0) }
        ensures some { IfSome result (λ r. IsOn self.now port r) }
        ensures none { IfNone result (NoneOn self.now port) }
    {
        let item = self.by_port.first(port.number())?;
        let entry = self.by_name.get(self.keys[item]).unwrap();
        Some(entry.request)
    }
}
