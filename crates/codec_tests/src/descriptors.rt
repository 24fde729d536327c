//! Descriptors read and written.
use mach_types::MsgReturn;
use type_descriptor::{Descriptor, data_len, descriptor_len, read_descriptor, write_descriptor};

// A short and a long descriptor, behind a byte of another.
const BYTES: [u8; 17] = [
    0xff, 0x14, 0x20, 2, 0x10, 0, 0, 0, 0x30, 8, 0, 4, 0, 1, 0, 0, 0,
];

const SHORT: Descriptor = Descriptor {
    name: 20,
    size: 32,
    number: 2,
    long: false,
};

const LONG: Descriptor = Descriptor {
    name: 8,
    size: 4,
    number: 1,
    long: true,
};

fn are_read() -> bool {
    read_descriptor(&BYTES, 1) == Ok(SHORT)
        && read_descriptor(&BYTES, 5) == Ok(LONG)
        && descriptor_len(&SHORT) == 4
        && descriptor_len(&LONG) == 12
        && data_len(&SHORT) == 8
        && data_len(&LONG) == 1
}

#[test]
fn reads_and_writes_descriptors(rt: HostRuntime) {
    let mut written = [0xff_u8; 17];
    write_descriptor(&SHORT, &mut written, 1);
    write_descriptor(&LONG, &mut written, 5);
    assert!(rt; are_read() && written == BYTES);
}

// Bytes that are too few for their descriptor, and those that are none.
const SHORT_BYTES: [&[u8]; 3] = [
    &[8, 8, 0],
    &[0, 0, 0, 0x20],
    &[0, 0, 0, 0x30, 8, 0, 8, 0, 1, 0, 0],
];

const BAD_BYTES: [&[u8]; 6] = [
    &[8, 8, 0, 0],
    &[8, 8, 0, 0x50],
    &[8, 8, 0, 0x90],
    &[0x11, 8, 1, 0x10],
    &[0, 0, 1, 0x30, 8, 0, 8, 0, 1, 0, 0, 0],
    &[0, 0, 0, 0x30, 0, 1, 8, 0, 0, 0, 0, 0],
];

fn are_refused(table: &[&[u8]], code: MsgReturn) -> bool {
    for bytes in table {
        if read_descriptor(bytes, 0) != Err(code) {
            return false;
        }
    }
    true
}

#[test]
fn refuses_descriptors(rt: HostRuntime) {
    assert!(rt; are_refused(&SHORT_BYTES, MsgReturn::SendMsgTooSmall));
    assert!(rt; are_refused(&BAD_BYTES, MsgReturn::SendInvalidType));
    assert!(rt; read_descriptor(&[8, 8, 0, 0x10], 5) == Err(MsgReturn::SendMsgTooSmall));
}
