//! Calls and replies as text, compared and copied.
use mach_types::{
    Bytes, Event, Name, NameList, NameTypes, PortId, Reply, SetId, Status, TaskId, Waited,
};
use std::alloc::Global;
use text_reader::{ScriptFault, read_call, read_reply, read_script};
use tracer_base::{TextFault, write_call, write_reply};

fn reads_as(alloc: Global, line: &str, call: Event) -> bool {
    match read_call(alloc, line.as_bytes()) {
        Ok(read) => read == call,
        Err(_) => false,
    }
}

fn rights_are_read(alloc: Global) -> bool {
    let (from, to, name) = (TaskId::new(1), TaskId::new(3), Name::new(2));
    let insert = Event::InsertRight(from, name, to, Name::new(4), u32::MAX);
    let extract = Event::ExtractRight(from, name, 21, to);
    reads_as(alloc, "insert 1 2 3 4 4294967295", insert)
        && reads_as(alloc, "extract 1 2 21 3", extract)
}

fn are_one_call(alloc: Global, line: &str, other: &str) -> bool {
    match read_call(alloc, line.as_bytes()) {
        Ok(call) => reads_as(alloc, other, call),
        Err(_) => false,
    }
}

#[test]
fn calls_differ_where_one_field_does(rt: HostRuntime) {
    assert!(rt; rights_are_read(rt.alloc()) && !are_one_call(rt.alloc(), "names 1", "task"));
    assert!(rt; are_one_call(rt.alloc(), "send 1 0102", "send 1 0102"));
    assert!(rt; !are_one_call(rt.alloc(), "send 1 0102", "send 1 0103"));
}

fn is_written(alloc: Global, call: &Event, line: &str) -> bool {
    let mut page = Vec::new(alloc);
    write_call(call, &mut page).is_ok() && page.as_slice() == line.as_bytes()
}

fn is_copied<T: Clone + PartialEq + Drop>(value: &T) -> bool {
    match value.clone() {
        Ok(copy) => copy == *value,
        Err(_) => false,
    }
}

/// Returns whether the line is the text of what it reads as, and that is equal to its copy.
fn reads_back(alloc: Global, line: &str) -> bool {
    match read_call(alloc, line.as_bytes()) {
        Ok(call) => is_copied(&call) && is_written(alloc, &call, line),
        Err(_) => false,
    }
}

// Lines of every call, parted by bars.
const LINES: &str = "\
    task|alloc 0 4294967295|allocname 1 4 9|dealloc 1 4294967295|destroy 65535 7|\
    modrefs 1 2 3 0|modrefs 1 2 3 7|modrefs 1 2 3 -1|modrefs 1 2 3 -10|\
    modrefs 1 2 3 2147483647|modrefs 1 2 3 -2147483648|refs 1 4294967295 3|\
    type 4294967295 0|names 3|rename 1 2 3|status 1 2|qlimit 1 2 17|mscount 1 2 4294967295|\
    seqno 1 2 0|insert 1 2 3 4 4294967295|extract 1 2 21 3|move 1 2 0|members 1 3|send 0 -|\
    insmember 1 2 4294967295|exmember 4294967295 2 0|\
    send 4294967295 00ff9a|recv 1 2 65536 1|recv 1 2 0 0|\
    again 1 p 18446744073709551615 24 0|again 1 s 0 65536 1|end 4294967295|\
    notify 1 2 70 3 4 21|notify 0 1 72 4294967295 0 0";

#[test]
fn calls_read_back_as_they_were_written(rt: HostRuntime) {
    for line in LINES.split('|') {
        assert!(rt; reads_back(rt.alloc(), line), "at {line}");
    }
}

// Lines that are no call, parted by bars.
const BAD_LINES: &str = "\
    tasks| | task||Task|task |task 0|task\r|task\t|alloc|alloc 0|alloc 0 |alloc  0 1|\
    alloc 0  1|alloc 0 1 |alloc 0 1 2|alloc 00 1|alloc 0 01|alloc +0 1|alloc -0 1|\
    alloc 0 4294967296|alloc 0 18446744073709551616|alloc 0 99999999999999999999999999|\
    alloc 0x0 1|alloc a 1|alloc 0 1.|alloc 0 \u{661}|allocname 0 1|allocname 0 1 2 3|\
    allocname 0 1 4294967296|alloc name 0 1 2|dealloc 0|dealloc 0 1 1|deallocate 0 1|\
    destroy 0|destroy 0 1 |modrefs 0 1 0|modrefs 0 1 0 -0|modrefs 0 1 0 +1|\
    modrefs 0 1 0 --1|modrefs 0 1 0 -+1|modrefs 0 1 0 -|modrefs 0 1 0 01|\
    modrefs 0 1 0 -01|modrefs 0 1 0 2147483648|modrefs 0 1 0 -2147483649|\
    modrefs 0 1 0 -18446744073709551617|modrefs 0 1 0 - 1|modrefs 0 1 -1 1|\
    modrefs 0 1 0 1 1|names|names 0 1|name 0|rename 0 1|rename 0 1 2 3|rename 0 1 -2|\
    status 0|status 0 -1|status 0 1 1|qlimit 0 1|qlimit 0 1 05|qlimit 0 1 -5|\
    qlimit 0 1 4294967296|mscount 0 1|mscount 0 1 00|seqno 0 1|seqno 0 1 1 1|\
    seqno 0 1 4294967296|send 0|send 0 |send 0 1|send 0 0A|send 0 0g|send 0 --|\
    send 0 00 00|send 0 0|send 0 -00|send - -|send 0 000|recv 0 1 24|recv 0 1 24 2|\
    recv 0 1 24 00|recv 0 1 24 -|recv 0 1 24 0 0|recv 0 1 4294967296 0|insert|\
    insert 0 1 0 1|insert 0 1 0 1 20 0|insert 0 1 0 1  20|insert 0 1 0 1 4294967296|\
    insert 0 1 4294967296 1 20|insert 0 1 0 1 -1|Insert 0 1 0 1 20|extract 0 1 20|\
    extract 0 1 20 0 0|extract 0 1 0x14 0|extract 0 1 20 4294967296|refs 0 1|\
    refs 0 1 4294967296|refs 0 1 0 0|refs 0 1 00|ref 0 1 0|type 0|type 0 1 0|type 0 1 |\
    types 0 1|move 0 1|move 0 1 -|move 0 1 2 3|members 0|members 0 1 2|again 0 p 0 24|\
    insmember 0 1|insmember 0 1 -|insmember 0 1 2 3|insmember 0 1 4294967296|insmembers 0 1 2|\
    exmember 0 1|exmember 0 1 02|exmember 0 1 2 3|exmember 0 4294967296 1|exmembers 0 1 2|\
    again 0 q 0 24 0|again 0 port 0 24 0|again 0 p 18446744073709551616 24 0|\
    again 0 s 00 24 0|again 0 0 24 0|again 0 s 0 24 0 0|end|end 00|end 0 0|end -|notify 0 1 69 0 0|\
    notify 0 1 69 0 0 18 0|notify 0 1 069 0 0 18|notify 0 1 -69 0 0 18|notify 0 -2 69 0 0 18|\
    notify 0 1 69 -1 0 18|notify 0 1 69 0 0 4294967296|notify 0 1 69  0 0 18|thread 1|\
    mach-history 1|#|task\0|\u{e9}";

fn is_named(alloc: Global, line: &str) -> bool {
    match format!(in alloc; "task\n{line}\nnot this\n") {
        Ok(script) => calls_in(alloc, script.as_str()) == Err(ScriptFault::BadCall(2)),
        Err(_) => false,
    }
}

fn is_no_call(alloc: Global, line: &str) -> bool {
    read_call(alloc, line.as_bytes()).err() == Some(TextFault::Bad)
}

#[test]
fn names_the_bad_line(rt: HostRuntime) {
    for line in BAD_LINES.split('|') {
        assert!(rt;
            is_no_call(rt.alloc(), line) && is_named(rt.alloc(), line),
            "at {line:?}"
        );
    }
}

// Scripts with how many calls they have, or the line that is none.
const SCRIPTS: [(&str, Result<usize, ScriptFault>); 4] = [
    ("task\ntask", Err(ScriptFault::BadCall(2))),
    ("\n", Err(ScriptFault::BadCall(1))),
    ("task\nnames 0\n", Ok(2)),
    ("", Ok(0)),
];

fn calls_in(alloc: Global, script: &str) -> Result<usize, ScriptFault> {
    let calls = read_script(alloc, script.as_bytes())?;
    Ok(calls.len())
}

#[test]
fn the_last_line_needs_its_line_feed(rt: HostRuntime) {
    for (script, told) in &SCRIPTS {
        assert!(rt; calls_in(rt.alloc(), script) == *told);
    }
}

fn is_read(alloc: Global, reply: &Reply, text: &str) -> bool {
    match read_reply(alloc, text.as_bytes()) {
        Ok(read) => read == *reply,
        Err(_) => false,
    }
}

fn are_one_reply(alloc: Global, text: &str, other: &str) -> bool {
    match read_reply(alloc, text.as_bytes()) {
        Ok(reply) => is_read(alloc, &reply, other),
        Err(_) => false,
    }
}

#[test]
fn replies_differ_where_one_field_does(rt: HostRuntime) {
    assert!(rt; are_one_reply(rt.alloc(), "members 7", "members 7"));
    assert!(rt; !are_one_reply(rt.alloc(), "members 7", "members"));
    assert!(rt; !are_one_reply(rt.alloc(), "names 7:00020000", "names 7:00010000"));
    assert!(rt; !are_one_reply(rt.alloc(), "empty p 0", "members"));
}

fn is_reply_written(alloc: Global, reply: &Reply, text: &str) -> bool {
    let mut page = Vec::new(alloc);
    write_reply(reply, &mut page).is_ok() && page.as_slice() == text.as_bytes()
}

/// Returns whether the reply is equal to its copy, and written as this text, which reads as the reply.
fn is_told(alloc: Global, reply: Reply, text: &str) -> bool {
    is_copied(&reply) && is_reply_written(alloc, &reply, text) && is_read(alloc, &reply, text)
}

fn numbers_are_told(alloc: Global) -> bool {
    is_told(alloc, Reply::Code(0x1000_480c), "code 1000480c")
        && is_told(alloc, Reply::Code(0), "code 00000000")
        && is_told(alloc, Reply::Refs(10), "refs 10")
        && is_told(alloc, Reply::NameType(0x8002_0000), "type 80020000")
        && is_told(alloc, Reply::TooLarge(65536), "toolarge 65536")
        && is_told(alloc, Reply::NoRecord, "norecord")
}

fn names_are_told(alloc: Global) -> bool {
    is_told(alloc, Reply::Task(TaskId::new(65535)), "task 65535")
        && is_told(alloc, Reply::Name(Name::new(u32::MAX)), "name 4294967295")
        && is_told(alloc, Reply::Right(Name::new(7), 17), "right 7 17")
        && is_told(alloc, Reply::Previous(Name::new(0)), "previous 0")
}

fn waiting_is_told(alloc: Global) -> bool {
    let port = Waited::Port(PortId::new(u64::MAX));
    let set = Waited::Set(SetId::new(1));
    is_told(alloc, Reply::Empty(port), "empty p 18446744073709551615")
        && is_told(alloc, Reply::Empty(set), "empty s 1")
}

fn status_is_told(alloc: Global) -> bool {
    let status = Status {
        set: Name::new(1),
        sequence: 2,
        make_send: 3,
        limit: 4,
        queued: 5,
        send_once: 6,
        has_send: 7,
        port_destroyed: 8,
        no_senders: u32::MAX,
    };
    is_told(
        alloc,
        Reply::Status(status),
        "status 1 2 3 4 5 6 7 8 4294967295",
    )
}

fn types_are_told(alloc: Global, names: &[(Name, u32)], text: &str) -> bool {
    match Vec::from_slice(alloc, names) {
        Ok(names) => is_told(alloc, Reply::Names(NameTypes::from_vec(names)), text),
        Err(_) => false,
    }
}

fn members_are_told(alloc: Global, names: &[Name], text: &str) -> bool {
    match Vec::from_slice(alloc, names) {
        Ok(names) => is_told(alloc, Reply::Members(NameList::from_vec(names)), text),
        Err(_) => false,
    }
}

fn message_is_told(alloc: Global, bytes: &[u8], text: &str) -> bool {
    match Vec::from_slice(alloc, bytes) {
        Ok(bytes) => is_told(alloc, Reply::Message(Bytes::from_vec(bytes)), text),
        Err(_) => false,
    }
}

fn lists_are_told(alloc: Global) -> bool {
    let types = [(Name::new(3), 0x10000), (Name::new(10), 0x8010_0000)];
    types_are_told(alloc, &types, "names 3:00010000 10:80100000")
        && types_are_told(alloc, &[], "names")
        && members_are_told(alloc, &[Name::new(2), Name::new(12)], "members 2 12")
        && members_are_told(alloc, &[], "members")
        && message_is_told(alloc, &[0x00, 0x9a, 0xff], "message 009aff")
        && message_is_told(alloc, &[], "message -")
}

#[test]
fn replies_are_written_and_read_back(rt: HostRuntime) {
    assert!(rt; numbers_are_told(rt.alloc()) && names_are_told(rt.alloc()));
    assert!(rt; waiting_is_told(rt.alloc()) && status_is_told(rt.alloc()));
    assert!(rt; lists_are_told(rt.alloc()));
}

// Texts that are no reply, parted by bars.
const BAD_REPLIES: &str = "\
    code| ||code 0|code 0000000|code 000000000|code 0000000A|code 0000000g|\
    code 00000000 |Code 00000000|task|task -1|task 4294967296|name 01|refs 1 1|type 1|\
    names |names 3|names 3:|names :00010000|names 3:1|names 3:0001000|names 3:000100000|\
    names 3:00010000 |names 3 00010000|names 4294967296:00010000|status 1 2 3 4 5 6 7 8|\
    status 1 2 3 4 5 6 7 8 9 10|status 1 2 3 4 5 6 7 8 4294967296|members 1 -|\
    members  1|right 7|right 7 256|right 7 17 0|previous|message|message 0|message 0A|\
    message - -|empty p|empty q 0|empty p 18446744073709551616|empty s 0 0|toolarge 00|\
    norecord 0|norecords|norecord\n|\u{e9}";

fn is_no_reply(alloc: Global, text: &[u8]) -> bool {
    read_reply(alloc, text).err() == Some(TextFault::Bad)
}

#[test]
fn refuses_what_is_no_reply(rt: HostRuntime) {
    assert!(rt; is_no_reply(rt.alloc(), b"task\xff 0"));
    for line in BAD_REPLIES.split('|') {
        assert!(rt; is_no_reply(rt.alloc(), line.as_bytes()), "at {line:?}");
    }
}
