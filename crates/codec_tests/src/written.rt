//! Messages made from their fields, and read into them.
use mach_types::{Disposition, MsgReturn, Name};
use message_codec::{
    PortRight, Received, ReceivedBody, ReceivedHeader, ReceivedItem, ReceivedItems, SendBody,
    SendHeader, SendItem, WriteError, parse, read_received, write_message,
};
use std::alloc::Global;

/// To the port under 1, by a send right that is made, with this reply and the id 7.
fn with_reply(reply: Option<PortRight>) -> SendHeader {
    SendHeader {
        destination: PortRight {
            disposition: Disposition::MakeSend,
            name: Name::new(1),
        },
        reply,
        id: 7,
    }
}

fn once(name: u32) -> Option<PortRight> {
    Some(PortRight {
        disposition: Disposition::MakeSendOnce,
        name: Name::new(name),
    })
}

fn is_written(alloc: Global, header: &SendHeader, body: &SendBody<'_>, bytes: &[u8]) -> bool {
    match write_message(alloc, header, body) {
        Ok(written) => written.as_slice() == bytes && parse(alloc, &written).is_ok(),
        Err(_) => false,
    }
}

fn refused(alloc: Global, body: &SendBody<'_>) -> Option<WriteError> {
    write_message(alloc, &with_reply(None), body).err()
}

#[test]
fn writes_raw_bytes(rt: HostRuntime) {
    let bytes = [
        0x14, 0x15, 0, 0, 0x1c, 0, 0, 0, 1, 0, 0, 0, 9, 0, 0, 0, 0, 0, 0, 0, 7, 0, 0, 0, 1, 2, 3, 4,
    ];
    let body = SendBody::Raw(&[1, 2, 3, 4]);
    assert!(rt; is_written(rt.alloc(), &with_reply(once(9)), &body, &bytes));
}

#[test]
fn writes_items(rt: HostRuntime) {
    let bytes = [
        0x14, 0, 0, 0x80, 0x3c, 0, 0, 0, 1, 0, 0, 0, 0, 0, 0, 0, 0, 0, 0, 0, 7, 0, 0, 0, 0x14,
        0x20, 2, 0x10, 0, 0, 0, 0, 0xff, 0xff, 0xff, 0xff, 8, 8, 5, 0x10, 1, 2, 3, 4, 5, 0, 0, 0,
        0, 0, 0, 0x30, 9, 0, 0, 1, 0, 0, 0, 0,
    ];
    let names = [Name::null(), Name::dead()];
    let items = [
        SendItem::Ports(Disposition::MakeSend, &names),
        SendItem::Data(8, 8, &[1, 2, 3, 4, 5]),
        SendItem::Data(9, 256, &[]),
    ];
    let body = SendBody::Items(&items);
    assert!(rt; is_written(rt.alloc(), &with_reply(None), &body, &bytes));
}

#[test]
fn refuses_what_no_message_can_be(rt: HostRuntime) {
    let ports = [SendItem::Data(17, 32, &[1, 2, 3, 4])];
    let parts = [SendItem::Data(8, 16, &[1, 2, 3])];
    let told = Some(WriteError::Refused(MsgReturn::SendInvalidType));
    assert!(rt; refused(rt.alloc(), &SendBody::Items(&ports)) == told);
    assert!(rt; refused(rt.alloc(), &SendBody::Items(&parts)) == told);
    let small = Some(WriteError::Refused(MsgReturn::SendMsgTooSmall));
    assert!(rt; refused(rt.alloc(), &SendBody::Raw(&[1, 2, 3])) == small);
}

// A message as its receiver gets it: two port words, five bytes and two words of data in a long form.
const RECEIVED: [u8; 72] = [
    0x12, 0x11, 0, 0x80, 0x48, 0, 0, 0, 3, 0, 0, 0, 4, 0, 0, 0, 5, 0, 0, 0, 7, 0, 0, 0, 0x11, 0x20,
    2, 0x10, 0, 0, 0, 0, 9, 0, 0, 0, 8, 8, 5, 0x10, 1, 2, 3, 4, 5, 0xaa, 0xbb, 0xcc, 0, 0, 0, 0x30,
    2, 0, 0x20, 0, 2, 0, 0, 0, 1, 0, 0, 0, 2, 0, 0, 0, 8, 8, 0, 0x10,
];

fn has_header(message: &Received<'_>) -> bool {
    let header = message.header;
    header
        == ReceivedHeader {
            remote_kind: 18,
            local_kind: 17,
            size: 72,
            remote: Name::new(3),
            local: Name::new(4),
            sequence: 5,
            id: 7,
        }
}

fn is_data(item: Option<ReceivedItem<'_>>, fields: (u8, u16, u32), bytes: &[u8]) -> bool {
    match item {
        Some(ReceivedItem::Data(data)) => {
            (data.type_name, data.size, data.number) == fields && data.bytes == bytes
        }
        _ => false,
    }
}

fn are_ports(item: Option<ReceivedItem<'_>>) -> bool {
    match item {
        Some(ReceivedItem::Ports(ports)) => {
            ports.kind == 17
                && ports.len() == 2
                && ports.get(0) == Some(Name::null())
                && ports.get(1) == Some(Name::new(9))
                && ports.get(2).is_none()
        }
        _ => false,
    }
}

fn are_all(mut items: ReceivedItems<'_>) -> bool {
    are_ports(items.next())
        && is_data(items.next(), (8, 8, 5), &[1, 2, 3, 4, 5])
        && is_data(items.next(), (2, 32, 2), &[1, 0, 0, 0, 2, 0, 0, 0])
        && is_data(items.next(), (8, 8, 0), &[])
        && items.next().is_none()
}

fn has_items(message: Received<'_>) -> bool {
    match message.body {
        ReceivedBody::Items(items) => are_all(items),
        ReceivedBody::Raw(_) => false,
    }
}

#[test]
fn reads_what_was_received(rt: HostRuntime) {
    let read = match read_received(&RECEIVED) {
        Some(message) => has_header(&message) && has_items(message),
        None => false,
    };
    assert!(rt; read);
}

#[test]
fn reads_no_broken_message(rt: HostRuntime) {
    assert!(rt; read_received(&RECEIVED[..68]).is_some());
    assert!(rt; read_received(&RECEIVED[..64]).is_none());
    assert!(rt; read_received(&RECEIVED[..20]).is_none());
    assert!(rt; read_received(&[0xff; 24]).is_none());
}
