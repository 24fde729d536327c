//! Messages as bytes: made of their fields to be sent, and read after a receipt.
//!
//! [`write_message`] makes the bytes of a message, which a send takes, or says by which code a send of those
//! fields would be refused. [`read_received`] reads the bytes of a receipt into a header and raw bytes, or
//! items of data and of names, and copies none of the data. What is written and received is read as it was
//! written, except for the names, which are the receiver's.
ghost use Rattle.std.specs.Prelude.{◌≡◌};
ghost use Rattle.gelvonds.specs.Results.{unwritten};

use mach_types::{Code, MsgReturn};
pub use message_codec::{
    PortRight, Received, ReceivedBody, ReceivedData, ReceivedHeader, ReceivedItem, ReceivedItems,
    ReceivedPorts, SendBody, SendHeader, SendItem, WriteError, read_received, write_message,
};

/// The code that a send would give for why a message was not made: that of its fault, or `SendNoBuffer` when
/// out of memory.
pub fn unwritten_code(error: WriteError) -> Code
    ensures { result ≡ unwritten error }
{
    match error {
        WriteError::Refused(code) => Code::Message(code),
        WriteError::OutOfMemory => Code::Message(MsgReturn::SendNoBuffer),
    }
}
