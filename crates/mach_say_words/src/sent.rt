//! Messages that storyboards send.
use mach_types::{Disposition, Name};
use message_codec::{SendBody, SendHeader, SendItem, WriteError, write_message};
use std::alloc::Global;

/// The type of 8-bit data in a message.
const DATA_TYPE: u8 = 8;
/// How many bits an element of data has.
const DATA_BITS: u16 = 8;

/// Rights of a body under one disposition.
#[derive(Drop)]
pub struct BodyRights {
    /// The disposition.
    pub disposition: Disposition,
    /// The sender's names: at least one.
    pub names: Vec<Name>,
}

/// Writes the message that a storyboard sends. Without rights in its body the data is raw. With rights each list of them is
/// an item, and the data is an item of bytes behind them, if there is any.
///
/// Returns `Refused` if no message has these parts, and `OutOfMemory`. Linear in the message.
pub fn write_sent(
    alloc: Global,
    header: &SendHeader,
    rights: &[BodyRights],
    bytes: &[u8],
) -> Result<Vec<u8>, WriteError> {
    if rights.is_empty() {
        return write_message(alloc, header, &SendBody::Raw(bytes));
    }
    let mut items = Vec::new(alloc);
    for one in rights {
        let item = SendItem::Ports(one.disposition, one.names.as_slice());
        if items.push(item).is_err() {
            return Err(WriteError::OutOfMemory);
        }
    }
    let data = SendItem::Data(DATA_TYPE, DATA_BITS, bytes);
    if !bytes.is_empty() && items.push(data).is_err() {
        return Err(WriteError::OutOfMemory);
    }
    write_message(alloc, header, &SendBody::Items(items.as_slice()))
}
