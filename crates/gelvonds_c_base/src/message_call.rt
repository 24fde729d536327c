//! A message call between its tries.
ghost use Rattle.std.specs.Prelude.{◌≡◌, ◌↔◌, ◌⊎◌, IsTrue, MatchOption};
ghost use Rattle.mach_types.specs.Bits.{rcv_msg_option, rcv_timeout_option, send_timeout_option};
ghost use Rattle.gelvonds_c_base.specs.MessageCalls.{AreOptions, IsNoCall, IsReceipt, ahead, done, first_try, has, nowhere, opened, to_receive, to_receive_again, to_send, told};

use crate::waited::{NOWHERE, WaitedFor, waited_before};
use mach_types::{Event, Name, TaskId};

const SEND: u32 = 0x1;

const RECEIVE: u32 = 0x2;

const SEND_TIMEOUT: u32 = 0x10;

const RECEIVE_TIMEOUT: u32 = 0x100;

const RECEIVE_LARGE: u32 = 0x800;

/// All options that a call may have, but for those of interruption.
const ALL: u32 = 0x913;

/// The options but `MACH_SEND_INTERRUPT` and `MACH_RCV_INTERRUPT`, which interrupt nothing.
const BUT_INTERRUPTS: u32 = 0xffff_fbbf;

/// The call has ended.
const DONE: u32 = 0;

/// The queue is full: the next try sends again.
const TO_SEND: u32 = 1;

/// The message is sent: the next try receives.
const TO_RECEIVE: u32 = 2;

/// There was no message: the next try receives from what the one before named.
const TO_RECEIVE_AGAIN: u32 = 3;

/// A message call that may have tries to come.
#[repr(C)]
#[derive(Clone, Copy)]
pub struct MessageCall {
    /// Which try comes next, or 0 for none.
    pub state: u32,
    /// The task that sends and receives.
    pub task: u32,
    /// The name that is received from.
    pub name: u32,
    /// The options, but for those of interruption.
    pub options: u32,
    /// How many bytes were received, or are needed; else 0.
    pub length: usize,
    /// What the call waits for, or the kind 0.
    pub waited: WaitedFor,
}

impl MessageCall {
    /// A call with its first try ahead: a send that is asked for, or else a receipt that is. Options of interruption
    /// are left out.
    pub fn opened(task: u32, name: u32, options: u32) -> MessageCall
        ensures { result ≡ opened task name (told options) }
    {
        let options = options & BUT_INTERRUPTS;
        MessageCall {
            state: first_try(options),
            task,
            name,
            options,
            length: 0,
            waited: NOWHERE,
        }
    }

    /// Returns whether it has no other option than those that a message call may have.
    pub fn has_lawful_options(&self) -> bool
        ensures { IsTrue result ↔ AreOptions self.now.options }
    {
        self.options & ALL == self.options
    }

    /// Returns whether no try is ahead.
    pub fn has_ended(&self) -> bool
        ensures { IsTrue result ↔ (self.now.state ≡ done) }
    {
        self.state == DONE
    }

    /// Returns whether a send is ahead.
    pub fn is_to_send(&self) -> bool
        ensures { IsTrue result ↔ (self.now.state ≡ to_send) }
    {
        self.state == TO_SEND
    }

    /// Returns the event of the next try, where that is a receipt into so much room.
    pub fn receipt(&self, room: u32) -> Option<Event>
        ensures { MatchOption result ((self.now.state ≡ to_send) ⊎ IsNoCall self.now) (λ event. IsReceipt self.now room event) }
    {
        let task = TaskId::new(self.task);
        let large = has(self.options, RECEIVE_LARGE);
        match self.state {
            TO_RECEIVE => Some(Event::Receive(task, Name::new(self.name), room, large)),
            TO_RECEIVE_AGAIN => match waited_before(&self.waited) {
                Some(before) => Some(Event::ReceiveAgain(task, before, room, large)),
                None => None,
            },
            _ => None,
        }
    }

    /// Returns whether a full queue ends the call.
    pub fn sends_once(&self) -> bool
        ensures { result ≡ has self.now.options send_timeout_option }
    {
        has(self.options, SEND_TIMEOUT)
    }

    /// Returns whether a receipt is asked for.
    pub fn receives(&self) -> bool
        ensures { result ≡ has self.now.options rcv_msg_option }
    {
        has(self.options, RECEIVE)
    }

    /// Returns whether it ends where no message is there.
    pub fn receives_once(&self) -> bool
        ensures { result ≡ has self.now.options rcv_timeout_option }
    {
        has(self.options, RECEIVE_TIMEOUT)
    }

    /// The call has ended: so many bytes were received, or are needed.
    pub fn end(&mut self, length: usize)
        ensures { self.new ≡ ahead self.old done nowhere length }
    {
        self.set(DONE, NOWHERE, length);
    }

    /// The queue of this port is full: the next try sends again.
    pub fn wait_for_room(&mut self, port: WaitedFor)
        ensures { self.new ≡ ahead self.old to_send port 0 }
    {
        self.set(TO_SEND, port, 0);
    }

    /// The message is sent: the next try receives.
    pub fn go_on_to_receive(&mut self)
        ensures { self.new ≡ ahead self.old to_receive nowhere 0 }
    {
        self.set(TO_RECEIVE, NOWHERE, 0);
    }

    /// No message is there: the next try receives from this.
    pub fn wait_for_message(&mut self, from: WaitedFor)
        ensures { self.new ≡ ahead self.old to_receive_again from 0 }
    {
        self.set(TO_RECEIVE_AGAIN, from, 0);
    }

    fn set(&mut self, state: u32, waited: WaitedFor, length: usize)
        ensures { self.new ≡ ahead self.old state waited length }
    {
        self.state = state;
        self.waited = waited;
        self.length = length;
    }
}

/// Whether the option is among these.
fn has(options: u32, option: u32) -> bool
    ensures { result ≡ has options option }
{
    options & option == option
}

/// The first try: of a send that is asked for, or else of a receipt that is.
fn first_try(options: u32) -> u32
    ensures { result ≡ first_try options }
{
    if has(options, SEND) {
        TO_SEND
    } else if has(options, RECEIVE) {
        TO_RECEIVE
    } else {
        DONE
    }
}
