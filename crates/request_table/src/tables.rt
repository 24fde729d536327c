//! All requests for notices.
ghost use Rattle.std.specs.Prelude.{◌≡◌, None};
ghost use Rattle.std.specs.FinMap as map;
ghost use Rattle.request_table.specs.Requests.{name_key};
ghost use Rattle.request_table.specs.Tables.{request_moved};

use crate::{Request, Requests};
use mach_types::{Name, PortId, TaskId};
use number_map::NumberMap;
use std::alloc::Global;
use std::marker::Model;

/// The requests for notices that stand, each with its notify port (Port Manipulation Interface,
/// `mach_port_request_notification`).
///
/// A notify port may have died: it is then in no table of ports.
#[derive(Drop)]
pub struct RequestTables {
    /// Those for the death of a name's port, by names and by ports.
    pub names: Requests,
    /// The notify ports of those for no senders, by ports.
    pub no_senders: NumberMap<PortId>,
    /// The notify ports of those for a port's receive right, by ports.
    pub port_destroyed: NumberMap<PortId>,
}

impl Model for RequestTables {
    ghost use Rattle.mach_types.specs.contracts.identities.PortId as port_id;
    ghost use Rattle.request_table.specs.contracts.Request as request;
    ghost use Rattle.request_table.specs.Tables.{RequestTablesView, request_tables_code};

    ghost Value = { RequestTablesView };

    ghost coded = { request_tables_code request.the_row.coded port_id.the_row.coded };

    ghost view = { λ a. record { names = a.names; no_senders = a.no_senders; port_destroyed = a.port_destroyed } };
}

impl RequestTables {
    ghost use Rattle.std.specs.Prelude.{◌≡◌};
    ghost use Rattle.request_table.specs.Tables.{none_requested, request_left, request_moved};

    /// No requests. Takes no memory.
    pub fn new(alloc: Global) -> RequestTables
        ensures { result ≡ none_requested }
    {
        RequestTables {
            names: Requests::new(alloc),
            no_senders: NumberMap::new(alloc),
            port_destroyed: NumberMap::new(alloc),
        }
    }

    /// The task's name goes: the request on it, if there is one, ends, and is the last of those whose
    /// right waits to pay. Takes no memory. Constant time.
    pub fn leave(&mut self, task: TaskId, name: Name)
        ensures { self.new ≡ request_left self.old task name }
    {
        if !self.names.is_empty() {
            self.names.leave(task, name);
        }
    }

    /// The request on a task's name, if there is one, goes along to another name, which has none. Takes no
    /// memory. Constant time.
    pub fn rename(&mut self, task: TaskId, from: Name, to: Name)
        requires { map.get self.old.names.requests (name_key task to) ≡ None }
        ensures { self.new ≡ request_moved self.old task from to }
    {
        if !self.names.is_empty() {
            self.names.rename(task, from, to);
        }
    }
}
