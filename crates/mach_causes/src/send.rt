//! Finds why a send is refused.
use crate::hand::{absent, standing_under};
use mach_causes_base::{Cause, Part, Reason, Wanted, suffices};
use mach_follow::{Follower, Place, Standing};
use mach_types::{MsgReturn, Name, PortId, TaskId};
use mach_words::message_fault;
use message_codec::{Received, ReceivedBody, ReceivedItem, ReceivedPorts, read_received};
use number_map::NumberMap;
use port::Holder;
use std::alloc::{AllocError, Global};

/// What an earlier word of a message left of a name from which it moved a right.
#[derive(Clone, Copy)]
enum Left {
    /// Nothing.
    Nothing,
    /// The name stands for this.
    Standing(Standing),
}

/// A port word of a message: its part, its name and its disposition.
#[derive(Clone, Copy)]
struct Word {
    part: Part,
    place: Place,
    kind: u8,
}

/// The words of a message that were judged so far.
#[derive(Drop)]
struct Judged {
    task: TaskId,
    left: NumberMap<Left>,
    words: u32,
    fault: Option<Cause>,
    // The ports whose receive rights the message moves, each with the sender's name.
    moved: NumberMap<Name>,
}

/// Finds why a message of these bytes is refused with this code. Errors are those of [`explain`](crate::explain).
pub(crate) fn explain_send(
    alloc: Global,
    follower: &Follower,
    task: TaskId,
    bytes: &[u8],
    code: u32,
) -> Result<Option<Cause>, AllocError> {
    if let Some(fault) = message_fault(bytes) {
        return Ok(Some(about(Part::Call, Reason::Message(fault))));
    }
    let Some(message) = read_received(bytes) else {
        return Ok(None);
    };
    let mut judged = Judged {
        task,
        left: NumberMap::new(alloc),
        words: 0,
        fault: None,
        moved: NumberMap::new(alloc),
    };
    judged.judge(follower, &message)?;
    if judged.fault.is_some() {
        return Ok(judged.fault);
    }
    let place = judged.place(message.header.remote);
    Ok(explain_later(follower, &judged, &place, code))
}

/// Returns the reason as the cause of this part of the call.
fn about(part: Part, reason: Reason) -> Cause {
    Cause { part, reason }
}

/// Finds why a message isn't sent though its rights are all there.
fn explain_later(
    follower: &Follower,
    judged: &Judged,
    destination: &Place,
    code: u32,
) -> Option<Cause> {
    let port = standing_under(follower, destination)?.right_port()?;
    let reason = match MsgReturn::from_number(code)? {
        MsgReturn::SendInvalidRight => explain_loop(follower, judged, port)?,
        MsgReturn::SendTimedOut => explain_full(follower, port)?,
        MsgReturn::SendNoBuffer => Reason::NoBuffer,
        _ => return None,
    };
    Some(about(Part::Call, reason))
}

/// Returns that the destination's queue is full.
fn explain_full(follower: &Follower, port: PortId) -> Option<Reason> {
    let tables = follower.tables();
    match tables.find_attributes(port) {
        Some(attributes) => {
            let queued = u32::try_from(tables.queued(port)).ok()?;
            Some(Reason::Full(port, queued, attributes.limit))
        }
        None => None,
    }
}

/// Finds the loop of queues that the message would close: the first port on the way from its destination whose receive
/// right it carries.
fn explain_loop(follower: &Follower, judged: &Judged, destination: PortId) -> Option<Reason> {
    if let Some(place) = judged.carries(destination) {
        return Some(Reason::OwnDestination(place, destination));
    }
    let mut at = destination;
    for _ in 0..follower.tables().count_ports() {
        let carrier = carrier_of(follower, at)?;
        if let Some(place) = judged.carries(carrier) {
            return Some(Reason::Loop(place, carrier, destination));
        }
        at = carrier;
    }
    None
}

/// Returns the port in whose queue this port's receive right lies; `None` if it lies in none.
fn carrier_of(follower: &Follower, port: PortId) -> Option<PortId> {
    match follower.tables().find_attributes(port) {
        Some(attributes) => match &attributes.holder {
            Holder::QueueOf(queue) => Some(*queue),
            _ => None,
        },
        None => None,
    }
}

impl Judged {
    /// Returns the sender's name of the port, if the message carries its receive right.
    fn carries(&self, port: PortId) -> Option<Place> {
        let name = self.moved.get(port.number())?;
        Some(self.place(name))
    }

    /// Judges the message's rights in order, up to the first that isn't there. Each takes from what those before it left.
    fn judge(&mut self, follower: &Follower, message: &Received<'_>) -> Result<(), AllocError> {
        let header = &message.header;
        self.judge_destination(follower, header.remote, header.remote_kind)?;
        if header.local_kind != 0 {
            self.judge_word(follower, Part::Answer, header.local, header.local_kind)?;
        }
        let ReceivedBody::Items(items) = &message.body else {
            return Ok(());
        };
        for item in *items {
            if let ReceivedItem::Ports(ports) = &item {
                self.judge_ports(follower, ports)?;
            }
        }
        Ok(())
    }

    /// Judges the port words of an item.
    fn judge_ports(
        &mut self,
        follower: &Follower,
        ports: &ReceivedPorts<'_>,
    ) -> Result<(), AllocError> {
        for index in 0..ports.len() {
            self.words = self.words.saturating_add(1);
            if let Some(name) = ports.get(index) {
                let part = Part::Word(self.words);
                self.judge_word(follower, part, name, ports.kind)?;
            }
        }
        Ok(())
    }

    /// Judges the destination, which must not be dead.
    fn judge_destination(
        &mut self,
        follower: &Follower,
        name: Name,
        kind: u8,
    ) -> Result<(), AllocError> {
        if !name.is_usable() {
            self.fault = Some(about(Part::Destination, Reason::NoName(name)));
            return Ok(());
        }
        let place = self.place(name);
        if let Some(Standing::DeadName(_)) = standing_under(follower, &place) {
            self.fault = Some(about(Part::Destination, Reason::Dead(place)));
            return Ok(());
        }
        self.judge_word(follower, Part::Destination, name, kind)
    }

    /// Returns the sender and its name as one.
    fn place(&self, name: Name) -> Place {
        Place {
            task: self.task,
            name,
        }
    }

    /// Judges a word of the message, unless an earlier one wasn't there.
    fn judge_word(
        &mut self,
        follower: &Follower,
        part: Part,
        name: Name,
        kind: u8,
    ) -> Result<(), AllocError> {
        if self.fault.is_some() || !name.is_usable() {
            return Ok(());
        }
        let place = self.place(name);
        let word = Word { part, place, kind };
        let Some(standing) = standing_under(follower, &place) else {
            self.fault = Some(about(part, reason_absent(follower, &place)));
            return Ok(());
        };
        match self.left.get(u64::from(name.number())) {
            Some(left) => self.judge_left(&word, &standing, left),
            None => self.judge_standing(&word, &standing),
        }
    }

    /// Judges a word from whose name no earlier one moved a right. The name stands for this.
    fn judge_standing(&mut self, word: &Word, standing: &Standing) -> Result<(), AllocError> {
        match reason_of(word, standing) {
            Some(reason) => {
                self.fault = Some(about(word.part, reason));
                Ok(())
            }
            None => self.take(word.place.name, standing, word.kind),
        }
    }

    /// Judges a word from whose name an earlier one moved a right, and left this. The name stands for the standing.
    fn judge_left(
        &mut self,
        word: &Word,
        standing: &Standing,
        left: Left,
    ) -> Result<(), AllocError> {
        if let Left::Standing(left) = left {
            if reason_of(word, &left).is_none() {
                return self.take(word.place.name, &left, word.kind);
            }
        }
        let reason = match reason_of(word, standing) {
            Some(reason) => reason,
            None => Reason::TakenBefore(word.place, *standing),
        };
        self.fault = Some(about(word.part, reason));
        Ok(())
    }

    /// Takes the word's right from the name.
    fn take(&mut self, name: Name, standing: &Standing, kind: u8) -> Result<(), AllocError> {
        let left = match kind {
            16 => without_receive(standing),
            17 | 18 => one_less(standing),
            _ => return Ok(()),
        };
        if kind == 16 {
            if let Some(port) = standing.receive_port() {
                enter(&mut self.moved, port.number(), name)?;
            }
        }
        enter(&mut self.left, u64::from(name.number()), left)
    }
}

/// Puts the value under the number, in the place of the value there.
fn enter<V: Copy>(table: &mut NumberMap<V>, number: u64, value: V) -> Result<(), AllocError> {
    if table.get(number).is_some() {
        table.set(number, value);
        return Ok(());
    }
    table.reserve(1)?;
    table.insert(number, value);
    Ok(())
}

/// Returns that the task has no such name.
fn reason_absent(follower: &Follower, place: &Place) -> Reason {
    match absent(follower, place) {
        Some(reason) => reason,
        None => Reason::Absent(*place, None),
    }
}

/// Returns why what a name stands for isn't what the word's disposition takes; `None` if it is.
fn reason_of(word: &Word, standing: &Standing) -> Option<Reason> {
    if matches!(standing, Standing::DeadName(_)) {
        if 17 <= word.kind && word.kind <= 19 {
            return None;
        }
        return Some(Reason::Dead(word.place));
    }
    let wanted = Wanted::Disposition(u32::from(word.kind));
    if suffices(standing, wanted) {
        return None;
    }
    Some(Reason::Lacks(word.place, *standing, wanted))
}

/// Returns what is left once the receive right moved.
fn without_receive(standing: &Standing) -> Left {
    match standing {
        Standing::ReceiveAndSend(port, references) => {
            Left::Standing(Standing::Send(*port, *references))
        }
        _ => Left::Nothing,
    }
}

/// Returns what is left once one reference, or a send-once right, moved.
fn one_less(standing: &Standing) -> Left {
    match standing {
        Standing::Send(port, references) => match references.sub(1) {
            Some(fewer) => Left::Standing(Standing::Send(*port, fewer)),
            None => Left::Nothing,
        },
        Standing::ReceiveAndSend(port, references) => match references.sub(1) {
            Some(fewer) => Left::Standing(Standing::ReceiveAndSend(*port, fewer)),
            None => Left::Standing(Standing::Receive(*port)),
        },
        Standing::DeadName(references) => match references.sub(1) {
            Some(fewer) => Left::Standing(Standing::DeadName(fewer)),
            None => Left::Nothing,
        },
        _ => Left::Nothing,
    }
}
