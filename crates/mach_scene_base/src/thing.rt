//! What may stand at a place of the picture.

/// What a name or a right is.
#[derive(Clone, Copy, PartialEq, Eq)]
pub enum Kind {
    /// A receive right.
    Receive,
    /// Send rights.
    Send,
    /// A receive right and send rights.
    Both,
    /// A send-once right.
    Once,
    /// A dead name.
    Dead,
    /// A port set.
    Set,
}

/// A name of a task.
#[derive(Clone, Copy)]
pub struct Row {
    /// The name.
    pub name: u32,
    /// What it stands for.
    pub kind: Kind,
    /// The identity of its port or set. A dead name has 0.
    pub about: u64,
    /// Its references to send rights or to a dead name, otherwise 1.
    pub references: u32,
    /// The live port that its dead-name request tells.
    pub told: Option<u64>,
}

/// A live port, without its queue.
#[derive(Clone, Copy)]
pub struct Frame {
    /// How many messages are queued.
    pub queued: u64,
    /// How many may be queued.
    pub limit: u32,
    /// The make-send count.
    pub made: u32,
    /// The sequence number of the next message.
    pub next: u32,
    /// The set that the port is in; the first of them, where it is in several.
    pub set: Option<u64>,
    /// In how many sets it is beside the first.
    pub more_sets: u64,
    /// Whether a message carries its receive right.
    pub is_carried: bool,
    /// The live port that the no-senders request tells.
    pub no_senders: Option<u64>,
    /// The live port that the port-destroyed request tells.
    pub port_destroyed: Option<u64>,
}

/// A queued message.
#[derive(Clone, Copy)]
pub struct Chip {
    /// Its id.
    pub id: u32,
    /// Whether the kernel told it.
    pub is_notice: bool,
    /// The entry that queued it.
    pub entry: u64,
    /// How far it is from the left of its port, in tenths of a pixel.
    pub left: u32,
}

/// A right that a queued message carries.
#[derive(Clone, Copy)]
pub struct Tied {
    /// What it is.
    pub kind: Kind,
    /// The identity of its port, which lives.
    pub port: u64,
    /// How far it leaves the foot of its message from the left of the message's port, in tenths of a pixel.
    pub left: u32,
    /// Its number among the rights that leave this port's queue.
    pub line: u32,
    /// Which of the ways into its port it takes.
    pub way: u32,
}

/// What stands at a place.
#[derive(Clone, Copy)]
pub enum Thing {
    /// Nothing.
    Nothing,
    /// A live task, and how many of its names aren't drawn. `true` if it has no names.
    Task(bool, u64),
    /// A task that has ended.
    Ended,
    /// A name of a task.
    Name(Row),
    /// A live port.
    Port(Frame),
    /// A dead port.
    Dead,
    /// A queued message.
    Message(Chip),
    /// So many more messages, so far from the left of their port.
    More(u64, u32),
    /// A right that a message carries.
    Right(Tied),
}

impl Kind {
    /// Returns what a right of this number is.
    pub(crate) fn of_number(number: u32) -> Kind {
        match number {
            16 => Kind::Receive,
            17 => Kind::Send,
            _ => Kind::Once,
        }
    }

    /// Returns the word for it. Constant time.
    pub fn word(self) -> &'static str {
        match self {
            Kind::Receive => "receive",
            Kind::Send => "send",
            Kind::Both => "receive+send",
            Kind::Once => "once",
            Kind::Dead => "dead",
            Kind::Set => "set",
        }
    }

    /// Returns the class of its line. Constant time.
    pub fn line(self) -> &'static str {
        match self {
            Kind::Receive | Kind::Both => "wide",
            Kind::Once => "once",
            _ => "thin",
        }
    }

    /// Whether it has a receive right. Constant time.
    pub fn receives(self) -> bool {
        matches!(self, Kind::Receive | Kind::Both)
    }

    /// Whether it has a port. Constant time.
    pub fn has_port(self) -> bool {
        !matches!(self, Kind::Dead | Kind::Set)
    }
}
