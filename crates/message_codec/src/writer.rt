//! Making a message that is to be sent, from its fields.
ghost use Rattle.std.specs.Prelude.{◌≡◌, ◌+◌, ◌-◌, ◌%◌, ◌<◌, ◌≤◌, ◌^◌, ◌++◌, ◌↔◌, length, take, replicate, All, IsTrue, IfOk, IfErr, OnOk, map};
ghost use Rattle.mach_types.specs.Grammar.{IsWire, IsWireBody, body_text, wire_text};
ghost use Rattle.mach_types.specs.Guards.{NoneHolds};
ghost use Rattle.mach_types.specs.Numbers.{most_bytes};
ghost use Rattle.mach_types.specs.Rights.{disposition_number};
ghost use Rattle.type_descriptor.specs.Describes.{form_of};
ghost use Rattle.message_codec.specs.declared.writer.SendHeader.{SendHeader as AnySendHeader};
ghost use Rattle.message_codec.specs.declared.writer.WriteError.TheVariants.{OutOfMemory};
ghost use Rattle.message_codec.specs.Received.{header_text};
ghost use Rattle.message_codec.specs.Putting.{WordsFit};
ghost use Rattle.message_codec.specs.Writing.{AreItems, HasWords, IsData, IsItem, IsLength, IsWritten, WriteFails, data_wire, element_number, field_guards, form_for, item_wire, items_text, port_wire, with_text, written_body, written_length};

use crate::header::{HEADER_BYTES, Header, is_bad_header, put_header};
use crate::received::put_names;
use mach_types::bits::COMPLEX;
use mach_types::limits::MOST_BYTES;
use mach_types::{Disposition, MsgReturn, Name};
use std::alloc::Global;
use type_descriptor::{Descriptor, descriptor_len, write_descriptor};

/// A right that a header names.
#[derive(Clone, Copy, Debug, PartialEq, Eq)]
pub struct PortRight {
    /// What becomes of the right.
    pub disposition: Disposition,
    /// The sender's name of it.
    pub name: Name,
}

/// What stands in front of a message that is to be sent.
#[derive(Clone, Copy, Debug, PartialEq, Eq)]
pub struct SendHeader {
    /// The destination.
    pub destination: PortRight,
    /// The reply right, if there is one.
    pub reply: Option<PortRight>,
    /// The id.
    pub id: u32,
}

/// An item of a message that is to be sent.
#[derive(Clone, Copy, Debug)]
pub enum SendItem<'a> {
    /// Elements of this type, each of so many bits, which are these bytes. The type is none of 16 to 21,
    /// which are the dispositions of rights, and the bytes are just as many as some number of elements
    /// takes.
    Data(u8, u16, &'a [u8]),
    /// The sender's names of rights under one disposition.
    Ports(Disposition, &'a [Name]),
}

/// The body of a message that is to be sent.
#[derive(Clone, Copy, Debug)]
pub enum SendBody<'a> {
    /// Bytes, a multiple of 4.
    Raw(&'a [u8]),
    /// A list of items.
    Items(&'a [SendItem<'a>]),
}

/// Why a message was not made.
#[derive(Clone, Copy, Debug, PartialEq, Eq)]
pub enum WriteError {
    /// No message has these fields. A send of their text would be answered by this code.
    Refused(MsgReturn),
    /// Memory was refused.
    OutOfMemory,
}

/// How many elements of so many bits take so many bytes.
fn element_count(size: u16, len: usize) -> u32
    requires { len ≤ most_bytes }
    ensures { result ≡ element_number size len }
{
    if size == 0 {
        return 0;
    }
    (len * 8 / size as usize) as u32
}

/// The descriptor with these fields, in the short form where they fit.
fn descriptor_for(name: u8, size: u16, number: u32) -> Descriptor
    ensures name { result.name ≡ name }
    ensures size { result.size ≡ size }
    ensures number { result.number ≡ number }
    ensures form { form_of result.long ≡ form_for size number }
{
    Descriptor {
        name: u16::from(name),
        size,
        number,
        long: size >= 0x100 || number >= 0x1000,
    }
}

/// The descriptor of data.
fn data_descriptor(name: u8, size: u16, elements: &[u8]) -> Descriptor
    requires { length elements.now ≤ most_bytes }
    ensures name { result.name ≡ name }
    ensures size { result.size ≡ size }
    ensures number { result.number ≡ element_number size (length elements.now) }
    ensures form { form_of result.long ≡ form_for size (element_number size (length elements.now)) }
{
    descriptor_for(name, size, element_count(size, elements.len()))
}

/// The descriptor of port words.
fn port_descriptor(disposition: Disposition, names: &[Name]) -> Descriptor
    requires { length names.now ≤ most_bytes }
    ensures name { result.name ≡ disposition_number disposition }
    ensures size { result.size ≡ 32 }
    ensures number { result.number ≡ length names.now }
    ensures form { form_of result.long ≡ form_for 32 (length names.now) }
{
    descriptor_for(disposition.number(), 32, names.len() as u32)
}

/// Returns whether data can be an item: its type is no disposition, and its bytes are whole elements.
fn is_data(name: u8, size: u16, elements: &[u8]) -> bool
    requires { length elements.now ≤ most_bytes }
    ensures { IsTrue result ↔ IsData name size elements.now }
{
    let number = element_count(size, elements.len());
    !(16..=21).contains(&name) && (number as usize * size as usize + 7) / 8 == elements.len()
}

/// Returns whether an item has a text.
fn is_item(item: &SendItem<'_>) -> bool
    requires { length (wire_text (item_wire item.now)) ≤ most_bytes }
    ensures { IsTrue result ↔ IsItem item.now }
{
    match item {
        SendItem::Data(name, size, elements) => is_data(*name, *size, elements),
        SendItem::Ports(_, _) => true,
    }
}

/// Returns whether all items have texts.
fn are_items(items: &[SendItem<'_>]) -> bool
    requires { length (items_text items.now) ≤ most_bytes }
    ensures { IsTrue result ↔ All IsItem items.now }
{
    for item in items {
        if !is_item(item) {
            return false;
        }
    }
    true
}

/// How many bytes an item of data takes, or any number that is too many where a message has not so many.
fn data_item_len(name: u8, size: u16, elements: &[u8]) -> usize
    ensures told { IsLength result (length (wire_text (data_wire name size elements.now))) }
    ensures bound { result < 2 ^ 20 }
{
    if elements.len() > MOST_BYTES {
        return MOST_BYTES + 1;
    }
    descriptor_len(&data_descriptor(name, size, elements)) + (elements.len() + 3) / 4 * 4
}

/// How many bytes an item of port words takes, or any number that is too many.
fn port_item_len(disposition: Disposition, names: &[Name]) -> usize
    ensures told { IsLength result (length (wire_text (port_wire (disposition_number disposition) names.now))) }
    ensures bound { result < 2 ^ 20 }
{
    if names.len() > MOST_BYTES {
        return MOST_BYTES + 1;
    }
    descriptor_len(&port_descriptor(disposition, names)) + names.len() * 4
}

/// How many bytes an item takes, or any number that is too many.
fn item_len(item: &SendItem<'_>) -> usize
    ensures told { IsLength result (length (wire_text (item_wire item.now))) }
    ensures bound { result < 2 ^ 20 }
{
    match item {
        SendItem::Data(name, size, elements) => data_item_len(*name, *size, elements),
        SendItem::Ports(disposition, names) => port_item_len(*disposition, names),
    }
}

/// How many bytes a message with these items has, or any number that is too many.
fn items_len(items: &[SendItem<'_>]) -> usize
    ensures told { IsLength result (24 + length (items_text items.now)) }
    ensures bound { result < 2 ^ 21 }
{
    let mut len = HEADER_BYTES;
    for item in items {
        if len <= MOST_BYTES {
            len += item_len(item);
        }
    }
    len
}

/// How many bytes a message with this body has, or any number that is too many.
fn message_len(body: &SendBody<'_>) -> usize
    ensures told { IsLength result (written_length body.now) }
    ensures bound { result < 2 ^ 21 }
{
    match body {
        SendBody::Raw(bytes) => {
            if bytes.len() > MOST_BYTES {
                return MOST_BYTES + 1;
            }
            HEADER_BYTES + bytes.len()
        }
        SendBody::Items(items) => items_len(items),
    }
}

/// Returns whether a body takes whole words.
fn is_whole(body: &SendBody<'_>) -> bool
    ensures { IsTrue result ↔ (written_length body.now % 4 ≡ 0) }
{
    match body {
        SendBody::Raw(bytes) => bytes.len() % 4 == 0,
        SendBody::Items(_) => true,
    }
}

/// Returns whether a body has a text.
fn is_body(body: &SendBody<'_>) -> bool
    requires { written_length body.now ≤ most_bytes }
    ensures { IsTrue result ↔ AreItems body.now }
{
    match body {
        SendBody::Raw(_) => true,
        SendBody::Items(items) => are_items(items),
    }
}

/// The header's words, for a message of so many bytes.
fn header_words(header: &SendHeader, body: &SendBody<'_>, len: u32) -> Header
    ensures words { HasWords result header.now body.now }
    ensures size { result.size ≡ len }
{
    let (kind, local) = match header.reply {
        Some(reply) => (u32::from(reply.disposition.number()), reply.name),
        None => (0, Name::null()),
    };
    let complex = match body {
        SendBody::Raw(_) => 0,
        SendBody::Items(_) => COMPLEX,
    };
    Header {
        bits: u32::from(header.destination.disposition.number()) + kind * 0x100 + complex,
        size: len,
        remote: header.destination.name,
        local,
        sequence: 0,
        id: header.id,
    }
}

/// Judges the fields, of which a text would have so many bytes.
fn check_fields(header: &Header, body: &SendBody<'_>, len: usize) -> Result<(), WriteError>
    requires { IsLength len (written_length body.now) }
    ensures ok { OnOk result ((h : AnySendHeader) → HasWords header.now h body.now → NoneHolds (field_guards h body.now)) }
    ensures items { OnOk result (AreItems body.now) }
    ensures err { IfErr result (λ e. (h : AnySendHeader) → HasWords header.now h body.now → WriteFails h body.now e) }
{
    if !is_whole(body) {
        return Err(WriteError::Refused(MsgReturn::SendMsgTooSmall));
    }
    if len > MOST_BYTES {
        return Err(WriteError::Refused(MsgReturn::SendInvalidData));
    }
    if is_bad_header(header.bits, header.local.number()) {
        return Err(WriteError::Refused(MsgReturn::SendInvalidHeader));
    }
    if !is_body(body) {
        return Err(WriteError::Refused(MsgReturn::SendInvalidType));
    }
    Ok(())
}

/// Writes bytes over those from an offset on.
fn put_bytes(bytes: &mut [u8], at: usize, elements: &[u8])
    requires { at + length elements.now ≤ length bytes.old }
    ensures { bytes.new ≡ with_text at elements.now bytes.old }
{
    bytes[at..at + elements.len()].copy_from_slice(elements);
}

/// Writes zeros from an offset on, up to another.
fn put_zeros(bytes: &mut [u8], at: usize, end: usize)
    requires order { at ≤ end }
    requires room { end ≤ length bytes.old }
    ensures { bytes.new ≡ with_text at (replicate (end - at) 0) bytes.old }
{
    bytes[at..end].fill(0);
}

/// Writes data with its descriptor, and zeros up to a whole word. Tells where it ends.
fn put_data(bytes: &mut [u8], at: usize, name: u8, size: u16, elements: &[u8]) -> usize
    requires lawful { IsData name size elements.now }
    requires room { at + length (wire_text (data_wire name size elements.now)) ≤ length bytes.old }
    requires small { length bytes.old ≤ most_bytes }
    ensures bytes { bytes.new ≡ with_text at (wire_text (data_wire name size elements.now)) bytes.old }
    ensures end { result ≡ at + length (wire_text (data_wire name size elements.now)) }
    ensures fits { IsWire (data_wire name size elements.now) }
{
    let descriptor = data_descriptor(name, size, elements);
    let start = at + descriptor_len(&descriptor);
    let end = start + (elements.len() + 3) / 4 * 4;
    write_descriptor(&descriptor, bytes, at);
    put_bytes(bytes, start, elements);
    put_zeros(bytes, start + elements.len(), end);
    end
}

/// Writes port words with their descriptor. Tells where they end.
fn put_ports(bytes: &mut [u8], at: usize, disposition: Disposition, names: &[Name]) -> usize
    requires room { at + length (wire_text (port_wire (disposition_number disposition) names.now)) ≤ length bytes.old }
    requires small { length bytes.old ≤ most_bytes }
    ensures bytes { bytes.new ≡ with_text at (wire_text (port_wire (disposition_number disposition) names.now)) bytes.old }
    ensures end { result ≡ at + length (wire_text (port_wire (disposition_number disposition) names.now)) }
    ensures fits { IsWire (port_wire (disposition_number disposition) names.now) }
{
    let descriptor = port_descriptor(disposition, names);
    let start = at + descriptor_len(&descriptor);
    write_descriptor(&descriptor, bytes, at);
    put_names(bytes, start, names);
    start + names.len() * 4
}

/// Writes an item. Tells where it ends.
fn put_item(bytes: &mut [u8], at: usize, item: &SendItem<'_>) -> usize
    requires lawful { IsItem item.now }
    requires room { at + length (wire_text (item_wire item.now)) ≤ length bytes.old }
    requires small { length bytes.old ≤ most_bytes }
    ensures bytes { bytes.new ≡ with_text at (wire_text (item_wire item.now)) bytes.old }
    ensures end { result ≡ at + length (wire_text (item_wire item.now)) }
    ensures fits { IsWire (item_wire item.now) }
{
    match item {
        SendItem::Data(name, size, elements) => put_data(bytes, at, *name, *size, elements),
        SendItem::Ports(disposition, names) => put_ports(bytes, at, *disposition, names),
    }
}

/// Writes items one after another behind the header.
fn put_items(bytes: &mut [u8], items: &[SendItem<'_>])
    requires lawful { All IsItem items.now }
    requires room { 24 + length (items_text items.now) ≡ length bytes.old }
    requires small { length bytes.old ≤ most_bytes }
    ensures bytes { bytes.new ≡ take 24 bytes.old ++ items_text items.now }
    ensures fits { All IsWire (map item_wire items.now) }
{
    let mut at = HEADER_BYTES;
    for item in items {
        at = put_item(bytes, at, item);
    }
}

/// Writes a body behind the header.
fn put_body(bytes: &mut [u8], body: &SendBody<'_>)
    requires lawful { AreItems body.now }
    requires room { written_length body.now ≡ length bytes.old }
    requires small { length bytes.old ≤ most_bytes }
    requires whole { length bytes.old % 4 ≡ 0 }
    ensures bytes { bytes.new ≡ take 24 bytes.old ++ body_text (written_body body.now) }
    ensures fits { IsWireBody (written_body body.now) }
{
    match body {
        SendBody::Raw(raw) => put_bytes(bytes, HEADER_BYTES, raw),
        SendBody::Items(items) => put_items(bytes, items),
    }
}

/// Writes a whole message.
fn put_message(bytes: &mut [u8], words: &Header, body: &SendBody<'_>)
    requires lawful { AreItems body.now }
    requires room { written_length body.now ≡ length bytes.old }
    requires small { length bytes.old ≤ most_bytes }
    requires whole { length bytes.old % 4 ≡ 0 }
    ensures bytes { bytes.new ≡ header_text words.now ++ body_text (written_body body.now) }
    ensures words { WordsFit words.now }
    ensures fits { IsWireBody (written_body body.now) }
{
    put_header(bytes, words);
    put_body(bytes, body);
}

/// So many bytes.
fn zeros(alloc: Global, len: usize) -> Result<Vec<u8>, WriteError>
    ensures ok { IfOk result (λ bytes. length bytes.items ≡ len) }
    ensures err { IfErr result (λ e. e ≡ OutOfMemory) }
{
    match vec![in alloc; 0; len] {
        Ok(bytes) => Ok(bytes),
        Err(_) => Err(WriteError::OutOfMemory),
    }
}

/// The bytes of the message with these fields, to be sent (IPC Interface, `mach_msg`). Each descriptor
/// is short where its fields fit, data is padded with zeros, the size word is the number of bytes and
/// the sequence number is 0. One piece of memory is taken, for just the bytes.
///
/// # Errors
/// The first of these faults gives the code; [`WriteError::OutOfMemory`] comes where there is none.
/// - [`MsgReturn::SendMsgTooSmall`]: raw bytes that are no multiple of 4.
/// - [`MsgReturn::SendInvalidData`]: more than 65,536 bytes.
/// - [`MsgReturn::SendInvalidHeader`]: [`Disposition::MoveReceive`] for the destination or the reply.
/// - [`MsgReturn::SendInvalidType`]: an item that has no text: data whose type is 16 to 21, or whose
///   bytes are not just those that some number of elements takes.
pub fn write_message(
    alloc: Global,
    header: &SendHeader,
    body: &SendBody<'_>,
) -> Result<Vec<u8>, WriteError>
    ensures ok { IfOk result (λ bytes. IsWritten bytes.items header.now body.now) }
    ensures err { IfErr result (λ e. WriteFails header.now body.now e) }
{
    let len = message_len(body);
    let words = header_words(header, body, len as u32);
    check_fields(&words, body, len)?;
    let mut bytes = zeros(alloc, len)?;
    put_message(&mut bytes, &words, body);
    Ok(bytes)
}
