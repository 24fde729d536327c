//! Requests for notices.
ghost use Rattle.std.specs.Prelude.{◌≡◌, ◌↔◌, ◌<◌, [], IfNone, IfSome, IsOk, IsTrue, None, OnErr, OnOk, slice_get};
ghost use Rattle.std.specs.Option.{option_and_then};
ghost use Rattle.std.specs.FinMap as map;
ghost use Rattle.request_table.specs.Requests.{IsOn, NoneOn, key_of as key_in, name_key, names_of};
ghost use Rattle.request_table.specs.Tables.{request_moved, request_left};
ghost use Rattle.copyin_base.specs.Asking.{HasNone, port_taken, with_no_senders, with_on_name, with_port_destroyed, with_room_no_senders, with_room_on_name, with_room_port_destroyed};
ghost use Rattle.copyin_base.specs.Leaving.{TakesWent, without_no_senders, without_on_name, without_port_destroyed};

use crate::world::World;
use mach_types::{Name, PortId, TaskId};
use number_map::NumberMap;
use request_table::Request;
use std::alloc::AllocError;

// Takes a notify port away, if one is kept for the port; its place stays.
fn take_port(map: &mut NumberMap<PortId>, port: PortId)
    ensures { map.new ≡ port_taken map.old port }
{
    if map.get(port.number()).is_some() {
        map.release(port.number());
    }
}

impl World {
    /// The notify port of the port's request to be told of no senders, if it stands. Constant time.
    #[inline(always)]
    pub fn find_no_senders(&self, port: PortId) -> Option<PortId>
        ensures { result ≡ map.get self.now.requests.no_senders.map port }
    {
        self.requests.no_senders.get(port.number())
    }

    /// The notify port of the port's request to be sent away, if it stands. Constant time.
    #[inline(always)]
    pub fn find_port_destroyed(&self, port: PortId) -> Option<PortId>
        ensures { result ≡ map.get self.now.requests.port_destroyed.map port }
    {
        self.requests.port_destroyed.get(port.number())
    }

    /// The request on the task's name, if one stands. Constant time.
    #[inline(always)]
    pub fn find_on_name(&self, task: TaskId, name: Name) -> Option<Request>
        ensures { result ≡ map.get self.now.requests.names.requests (name_key task name) }
    {
        self.requests.names.get(task, name)
    }

    /// The first of the requests on the port's names, if there is one. Constant time.
    #[inline(always)]
    pub fn first_on_names(&self, port: PortId) -> Option<Request>
        ensures first { result ≡ option_and_then (λ k. map.get self.now.requests.names.requests k) (slice_get (names_of self.now.requests.names port) 0) }
        ensures some { IfSome result (λ r. IsOn self.now.requests.names port r) }
        ensures none { IfNone result (NoneOn self.now.requests.names port) }
    {
        self.requests.names.first_of(port)
    }

    /// The first of the requests whose names went, if there is one. Constant time.
    #[inline(always)]
    pub fn first_went(&self) -> Option<Request>
        ensures { result ≡ slice_get self.now.requests.names.went 0 }
    {
        self.requests.names.first_went()
    }

    /// Returns whether no request stands, and none waits whose name went. Constant time.
    #[inline(always)]
    pub fn has_no_requests(&self) -> bool
        ensures { IsTrue result ↔ HasNone self.now.requests }
    {
        if !self.requests.names.is_empty() {
            return false;
        }
        if self.requests.no_senders.len() > 0 {
            return false;
        }
        self.requests.port_destroyed.len() == 0
    }

    /// Makes room for a request to be told of no senders. Constant time, but where memory is taken.
    ///
    /// An error means that there was no room and memory was refused; all is then as before.
    #[inline(always)]
    pub fn reserve_no_senders(&mut self) -> Result<(), AllocError>
        ensures ok { OnOk result (self.new ≡ with_room_no_senders self.old) }
        ensures err { OnErr result (self.new ≡ self.old) }
        ensures had_room { 0 < self.old.requests.no_senders.room → IsOk result }
    {
        self.requests.no_senders.reserve(1)
    }

    /// Makes room for a request to be sent away. Constant time, but where memory is taken.
    ///
    /// An error means that there was no room and memory was refused; all is then as before.
    #[inline(always)]
    pub fn reserve_port_destroyed(&mut self) -> Result<(), AllocError>
        ensures ok { OnOk result (self.new ≡ with_room_port_destroyed self.old) }
        ensures err { OnErr result (self.new ≡ self.old) }
        ensures had_room { 0 < self.old.requests.port_destroyed.room → IsOk result }
    {
        self.requests.port_destroyed.reserve(1)
    }

    /// Makes room for a request on a name. Constant time, but where memory is taken.
    ///
    /// An error means that there was no room and memory was refused; all is then as before.
    #[inline(always)]
    pub fn reserve_on_name(&mut self) -> Result<(), AllocError>
        ensures ok { OnOk result (self.new ≡ with_room_on_name self.old) }
        ensures err { OnErr result (self.new ≡ self.old) }
        ensures had_room { 0 < self.old.requests.names.room → IsOk result }
    {
        self.requests.names.reserve(1)
    }

    /// Keeps a request to be told of no senders of the port, where none stands and room was made. Takes no
    /// memory. Constant time.
    #[inline(always)]
    pub fn keep_no_senders(&mut self, port: PortId, notify: PortId)
        requires absent { map.get self.old.requests.no_senders.map port ≡ None }
        requires room { 0 < self.old.requests.no_senders.room }
        ensures { self.new ≡ with_no_senders self.old port notify }
    {
        self.requests.no_senders.insert(port.number(), notify);
    }

    /// Keeps a request that the port be sent away, where none stands and room was made. Takes no memory.
    /// Constant time.
    #[inline(always)]
    pub fn keep_port_destroyed(&mut self, port: PortId, notify: PortId)
        requires absent { map.get self.old.requests.port_destroyed.map port ≡ None }
        requires room { 0 < self.old.requests.port_destroyed.room }
        ensures { self.new ≡ with_port_destroyed self.old port notify }
    {
        self.requests.port_destroyed.insert(port.number(), notify);
    }

    /// Keeps a request on a name, where none stands and room was made. Takes no memory. Constant time.
    #[inline(always)]
    pub fn keep_on_name(&mut self, request: Request)
        requires absent { map.get self.old.requests.names.requests (key_in request) ≡ None }
        requires room { 0 < self.old.requests.names.room }
        ensures { self.new ≡ with_on_name self.old request }
    {
        self.requests.names.insert(request);
    }

    /// The port's request to be told of no senders ends, if it stands; its place is room for another. Takes no
    /// memory. Constant time.
    #[inline(always)]
    pub fn end_no_senders(&mut self, port: PortId)
        ensures { self.new ≡ record self.old { requests = record self.old.requests { no_senders = port_taken self.old.requests.no_senders port } } }
    {
        take_port(&mut self.requests.no_senders, port);
    }

    /// The port's request to be sent away ends, if it stands; its place is room for another. Takes no memory.
    /// Constant time.
    #[inline(always)]
    pub fn end_port_destroyed(&mut self, port: PortId)
        ensures { self.new ≡ record self.old { requests = record self.old.requests { port_destroyed = port_taken self.old.requests.port_destroyed port } } }
    {
        take_port(&mut self.requests.port_destroyed, port);
    }

    /// The request on a task's name, if there is one, goes along to another name, which has none. Takes no
    /// memory. Constant time.
    pub fn move_on_name(&mut self, task: TaskId, from: Name, to: Name)
        requires { map.get self.old.requests.names.requests (name_key task to) ≡ None }
        ensures { self.new ≡ record self.old { requests = request_moved self.old.requests task from to } }
    {
        self.requests.rename(task, from, to);
    }

    /// The port's request to be told of no senders ends, if it stands. Returns its notify port. Takes no
    /// memory. Constant time.
    #[inline(always)]
    pub fn take_no_senders(&mut self, port: PortId) -> Option<PortId>
        ensures notify { result ≡ map.get self.old.requests.no_senders.map port }
        ensures ended { self.new ≡ without_no_senders self.old port }
    {
        self.requests.no_senders.remove(port.number())
    }

    /// The port's request to be sent away ends, if it stands. Returns its notify port. Takes no memory.
    /// Constant time.
    #[inline(always)]
    pub fn take_port_destroyed(&mut self, port: PortId) -> Option<PortId>
        ensures notify { result ≡ map.get self.old.requests.port_destroyed.map port }
        ensures ended { self.new ≡ without_port_destroyed self.old port }
    {
        self.requests.port_destroyed.remove(port.number())
    }

    /// The request on the task's name ends, if one stands, and is returned; its place is room for another.
    /// Takes no memory. Constant time.
    #[inline(always)]
    pub fn take_on_name(&mut self, task: TaskId, name: Name) -> Option<Request>
        ensures request { result ≡ map.get self.old.requests.names.requests (name_key task name) }
        ensures some { IfSome result (λ r. self.new ≡ without_on_name self.old r) }
        ensures none { IfNone result (self.new ≡ self.old) }
    {
        self.requests.names.remove(task, name)
    }

    /// Takes out the first of the requests whose names went, if there is one; its place is room for another.
    /// Takes no memory. Constant time.
    #[inline(always)]
    pub fn take_went(&mut self) -> Option<Request>
        ensures some { IfSome result (λ r. TakesWent self.old r self.new) }
        ensures none { IfNone result ((self.old.requests.names.went ≡ []) × (self.new ≡ self.old)) }
    {
        self.requests.names.take_went()
    }

    /// The task's name goes, or is about to: the request on it, if there is one, ends, and is the last of
    /// those whose right waits to pay. Takes no memory. Constant time.
    #[inline(always)]
    pub fn leave_name(&mut self, task: TaskId, name: Name)
        ensures { self.new ≡ record self.old { requests = request_left self.old.requests task name } }
    {
        self.requests.leave(task, name);
    }
}
