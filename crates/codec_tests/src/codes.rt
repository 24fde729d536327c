//! Names that are printed.
use mach_types::{Disposition, KernReturn, MsgReturn, Right};
use std::alloc::Global;
use std::fmt;
use text_reader::ScriptFault;
use tracer_base::TextFault;

fn is_printed<T: fmt::Display>(alloc: Global, value: &T, text: &str) -> bool {
    match value.to_string(alloc) {
        Ok(printed) => printed.as_str() == text,
        Err(_) => false,
    }
}

fn are_printed<T: fmt::Display>(alloc: Global, table: &[(T, &str)]) -> bool {
    for (value, text) in table {
        if !is_printed(alloc, value, text) {
            return false;
        }
    }
    true
}

const KERNEL_CODES: [(KernReturn, &str); 14] = [
    (KernReturn::Success, "KERN_SUCCESS"),
    (KernReturn::NoSpace, "KERN_NO_SPACE"),
    (KernReturn::InvalidArgument, "KERN_INVALID_ARGUMENT"),
    (KernReturn::ResourceShortage, "KERN_RESOURCE_SHORTAGE"),
    (KernReturn::AlreadyInSet, "KERN_ALREADY_IN_SET"),
    (KernReturn::NotInSet, "KERN_NOT_IN_SET"),
    (KernReturn::NameExists, "KERN_NAME_EXISTS"),
    (KernReturn::InvalidName, "KERN_INVALID_NAME"),
    (KernReturn::InvalidTask, "KERN_INVALID_TASK"),
    (KernReturn::InvalidRight, "KERN_INVALID_RIGHT"),
    (KernReturn::InvalidValue, "KERN_INVALID_VALUE"),
    (KernReturn::UrefsOverflow, "KERN_UREFS_OVERFLOW"),
    (KernReturn::InvalidCapability, "KERN_INVALID_CAPABILITY"),
    (KernReturn::RightExists, "KERN_RIGHT_EXISTS"),
];

const SEND_CODES: [(MsgReturn, &str); 10] = [
    (MsgReturn::Success, "MACH_MSG_SUCCESS"),
    (MsgReturn::SendInvalidData, "MACH_SEND_INVALID_DATA"),
    (MsgReturn::SendInvalidDest, "MACH_SEND_INVALID_DEST"),
    (MsgReturn::SendTimedOut, "MACH_SEND_TIMED_OUT"),
    (MsgReturn::SendMsgTooSmall, "MACH_SEND_MSG_TOO_SMALL"),
    (MsgReturn::SendInvalidReply, "MACH_SEND_INVALID_REPLY"),
    (MsgReturn::SendInvalidRight, "MACH_SEND_INVALID_RIGHT"),
    (MsgReturn::SendNoBuffer, "MACH_SEND_NO_BUFFER"),
    (MsgReturn::SendInvalidType, "MACH_SEND_INVALID_TYPE"),
    (MsgReturn::SendInvalidHeader, "MACH_SEND_INVALID_HEADER"),
];

const RECEIVE_CODES: [(MsgReturn, &str); 8] = [
    (MsgReturn::ReceiveInvalidName, "MACH_RCV_INVALID_NAME"),
    (MsgReturn::ReceiveTimedOut, "MACH_RCV_TIMED_OUT"),
    (MsgReturn::ReceiveTooLarge, "MACH_RCV_TOO_LARGE"),
    (MsgReturn::ReceivePortChanged, "MACH_RCV_PORT_CHANGED"),
    (MsgReturn::ReceivePortDied, "MACH_RCV_PORT_DIED"),
    (MsgReturn::ReceiveInSet, "MACH_RCV_IN_SET"),
    (
        MsgReturn::ReceiveBodyErrorMemory,
        "MACH_RCV_BODY_ERROR|MACH_MSG_IPC_KERNEL",
    ),
    (
        MsgReturn::ReceiveBodyErrorNames,
        "MACH_RCV_BODY_ERROR|MACH_MSG_IPC_SPACE",
    ),
];

const RIGHTS: [(Right, &str); 5] = [
    (Right::Send, "MACH_PORT_RIGHT_SEND"),
    (Right::Receive, "MACH_PORT_RIGHT_RECEIVE"),
    (Right::SendOnce, "MACH_PORT_RIGHT_SEND_ONCE"),
    (Right::PortSet, "MACH_PORT_RIGHT_PORT_SET"),
    (Right::DeadName, "MACH_PORT_RIGHT_DEAD_NAME"),
];

const DISPOSITIONS: [(Disposition, &str); 6] = [
    (Disposition::MoveReceive, "MACH_MSG_TYPE_MOVE_RECEIVE"),
    (Disposition::MoveSend, "MACH_MSG_TYPE_MOVE_SEND"),
    (Disposition::MoveSendOnce, "MACH_MSG_TYPE_MOVE_SEND_ONCE"),
    (Disposition::CopySend, "MACH_MSG_TYPE_COPY_SEND"),
    (Disposition::MakeSend, "MACH_MSG_TYPE_MAKE_SEND"),
    (Disposition::MakeSendOnce, "MACH_MSG_TYPE_MAKE_SEND_ONCE"),
];

const FAULTS: [(ScriptFault, &str); 2] = [
    (ScriptFault::BadCall(12), "line 12: bad call"),
    (ScriptFault::OutOfMemory, "out of memory"),
];

fn codes_are_printed(alloc: Global) -> bool {
    are_printed(alloc, &KERNEL_CODES)
        && are_printed(alloc, &SEND_CODES)
        && are_printed(alloc, &RECEIVE_CODES)
}

#[test]
fn codes_and_rights_are_printed_by_name(rt: HostRuntime) {
    assert!(rt; codes_are_printed(rt.alloc()) && are_printed(rt.alloc(), &RIGHTS));
    assert!(rt; are_printed(rt.alloc(), &DISPOSITIONS));
}

#[test]
fn faults_have_texts(rt: HostRuntime) {
    assert!(rt; are_printed(rt.alloc(), &FAULTS));
    assert!(rt; is_printed(rt.alloc(), &TextFault::Bad, "bad text"));
}
