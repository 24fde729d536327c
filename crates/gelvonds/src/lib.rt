//! Mach 3 port IPC for a program that builds on it: a kernel, its calls, and messages.
//!
//! [`Kernel`] is one kernel: tasks, their names, ports and queued messages. It has a method for each call of a
//! task, in Mach's order of arguments.
//! [`messages::write_message`] makes a message of its fields, and [`messages::read_received`] reads one:
//!
//! ```text
//! let mut kernel = Kernel::new(alloc);
//! let (server, client) = (kernel.create_task()?, kernel.create_task()?);
//! let service = kernel.allocate(server, Right::Receive)?;
//! let made = PortRight { disposition: Disposition::MakeSend, name: service };
//! kernel.insert_right(client, Name::new(1), server, made)?;
//! let destination = PortRight { disposition: Disposition::CopySend, name: Name::new(1) };
//! let header = SendHeader { destination, reply: None, id: 7 };
//! let bytes = write_message(alloc, &header, &SendBody::Raw(b"ping"))?;
//! kernel.send(client, Bytes::from_vec(bytes))?;
//! let receipt = kernel.receive(server, service, 4096, false)?;
//! ```
//!
//! `docs/EMBEDDING.md` has that program, whole, and goes over it.
//!
//! # Profiles
//! [`Kernel::new`] and [`run`] make a kernel of [`Profile::One`]: a fresh name is the least number, from 1, that the
//! task doesn't use. [`Kernel::with_profile`], [`run_with`] and `Shared::with_profile` of [`threads`] take the profile.
//! In [`Profile::Two`] a fresh name is the least unused index from 1, times 256, plus in its low 8 bits how many fresh
//! names the task was given at this index before, modulo 256. So a name that was given up doesn't come back at once as
//! another right. [`Profile::Three`] is the second with ports that may be in several sets:
//! [`Kernel::insert_member`] puts a port into a set beside those that it is in.
//!
//! # What is promised
//! Each method makes one step of the machine of `mach_model`, on the event of its arguments. Its result is the
//! reply of that step. `specs/Results` says which reply each `Ok` and each `Err` stands for, and `specs/Steps` what
//! a step promises. An `Err` is a code by which the machine refuses the call, never that of success, and leaves the
//! state. No reply of another kind can come. [`run_with`] makes a list of calls, and all that `mach_laws`'
//! `Headline` says is true of them.
//!
//! # Threads
//! Nothing here but [`threads`] takes a lock or waits, and a kernel may be moved from thread to thread. Use
//! [`threads`] for one kernel that many threads use, with its history and message calls that wait.
//!
//! # Memory
//! A kernel takes memory from the global allocator as its tables grow, and gives it back when it is dropped. Names,
//! ports and messages that are gone leave their places for later ones. A call that is out of memory returns its code
//! for that; no call aborts. The calls that take none say so.
#![tactic(auto)]

mod kernel;
pub mod messages;
mod notification;
mod results;
pub mod threads;

pub use kernel::{Kernel, run, run_with};
pub use mach_types::{
    Bytes, Code, Disposition, Event, KernReturn, MsgReturn, Name, NameList, NameTypes, PortId,
    Profile, Reply, Right, SetId, Status, TaskId, Touched, Waited, limits,
};
pub use message_codec::PortRight;
pub use notification::{Notification, NotificationRequest};
pub use results::{ExtractedRight, Receipt, SendError};
