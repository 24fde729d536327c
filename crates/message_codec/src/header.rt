//! The header of a message.
ghost use Rattle.std.specs.Prelude.{◌≡◌, ◌≢◌, ◌/◌, ◌%◌, ◌^◌, ◌≤◌, ◌⊎◌, ◌↔◌, ◌++◌, length, drop, IfOk, IfErr, OnOk, IsTrue};
ghost use Rattle.mach_types.specs.Guards.{FirstIs, NoneHolds};
ghost use Rattle.mach_types.specs.Codes.{msg_number};
ghost use Rattle.mach_types.specs.TextGuards.{BadHeader, IsSendable, header_guards, is_bit};
ghost use Rattle.message_codec.specs.Received.{header_text};
ghost use Rattle.message_codec.specs.Putting.{WordsFit};

use mach_types::bits::COMPLEX;
use mach_types::limits::MOST_BYTES;
use mach_types::{MsgReturn, Name};
use type_descriptor::{read_word, write_word};

/// The bytes of a header.
pub(crate) const HEADER_BYTES: usize = 24;

/// The six words of a header, as they are written when a message is received.
#[derive(Clone, Copy, Debug, PartialEq, Eq)]
pub struct Header {
    /// The kind of the remote right in the low 8 bits, and that of the local right in the next 8. With
    /// `MACH_MSGH_BITS_COMPLEX`, 0x80000000, where the body is a list of items.
    pub bits: u32,
    /// The length of the whole message in bytes.
    pub size: u32,
    /// The name of the reply right, or 0.
    pub remote: Name,
    /// The name of the port received from.
    pub local: Name,
    /// The message's number in its port's order, modulo 2^32.
    pub sequence: u32,
    /// The sender's id.
    pub id: u32,
}

/// Returns whether a disposition may stand in a header.
fn is_sendable(disposition: u8) -> bool
    ensures { IsTrue result ↔ IsSendable disposition }
{
    (17..=21).contains(&disposition)
}

/// The disposition of the destination: the low 8 bits.
pub(crate) fn remote_kind(bits: u32) -> u8
    ensures { result ≡ bits % 2 ^ 8 }
{
    (bits % 0x100) as u8
}

/// The disposition of the reply right: the next 8 bits.
pub(crate) fn local_kind(bits: u32) -> u8
    ensures { result ≡ bits / 2 ^ 8 % 2 ^ 8 }
{
    (bits / 0x100 % 0x100) as u8
}

/// Returns whether the body is a list of items.
pub(crate) fn is_complex(bits: u32) -> bool
    ensures { IsTrue result ↔ is_bit bits 31 }
{
    bits / COMPLEX == 1
}

/// Returns whether no message has these bits with this local port.
pub(crate) fn is_bad_header(bits: u32, local: u32) -> bool
    ensures { IsTrue result ↔ BadHeader bits local }
{
    let reply = local_kind(bits);
    bits / 0x1_0000 % 0x8000 != 0
        || !is_sendable(remote_kind(bits))
        || (reply != 0 && !is_sendable(reply))
        || (reply == 0 && local != 0)
}

/// Judges the header, and the length of the whole.
pub(crate) fn check_header(bytes: &[u8]) -> Result<(), MsgReturn>
    ensures ok { OnOk result (NoneHolds (header_guards bytes.now)) }
    ensures err { IfErr result (λ code. FirstIs (header_guards bytes.now) (msg_number code)) }
{
    if bytes.len() < HEADER_BYTES || bytes.len() % 4 != 0 {
        return Err(MsgReturn::SendMsgTooSmall);
    }
    if bytes.len() > MOST_BYTES {
        return Err(MsgReturn::SendInvalidData);
    }
    if is_bad_header(read_word(bytes, 0), read_word(bytes, 12)) {
        return Err(MsgReturn::SendInvalidHeader);
    }
    Ok(())
}

/// Writes the six words over the first 24 bytes.
pub(crate) fn put_header(bytes: &mut [u8], header: &Header)
    requires { 24 ≤ length bytes.old }
    ensures bytes { bytes.new ≡ header_text header.now ++ drop 24 bytes.old }
    ensures words { WordsFit header.now }
{
    write_word(bytes, 0, header.bits);
    write_word(bytes, 4, header.size);
    write_word(bytes, 8, header.remote.number());
    write_word(bytes, 12, header.local.number());
    write_word(bytes, 16, header.sequence);
    write_word(bytes, 20, header.id);
}
