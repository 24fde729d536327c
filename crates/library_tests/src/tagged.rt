use tagged_names::TaggedNames;

// Puts a value under a fresh name, which is counted.
fn put(names: &mut TaggedNames<u32>) -> u32 {
    if names.reserve(1).is_err() || names.room() == 0 || names.len() >= 65_535 {
        return 0;
    }
    let name = names.fresh();
    names.insert_fresh(name, 1);
    name
}

// Puts a value under the name for which a place is kept.
fn put_kept(names: &mut TaggedNames<u32>, name: u32, value: u32) -> bool {
    if !names.keeps(name) || names.get(name).is_some() || names.len() >= 65_535 {
        return false;
    }
    names.insert(name, value);
    true
}

// Puts a value under a name of the caller's.
fn choose(names: &mut TaggedNames<u32>, name: u32, value: u32) -> bool {
    names.keep(name).is_ok() && put_kept(names, name, value)
}

fn worked(names: &mut TaggedNames<u32>) -> bool {
    put(names) == 256
        && put(names) == 512
        && names.remove(512) == Some(1)
        && put(names) == 513
        && choose(names, 700, 7)
        && names.remove(513) == Some(1)
        && names.get(700) == Some(7)
        && put(names) == 768
        && names.remove(700) == Some(7)
        && put(names) == 514
        && names.next(1) == Some(256)
        && names.next(257) == Some(514)
        && names.next(515) == Some(768)
        && names.next(769).is_none()
}

#[test]
fn names_are_given_as_worked(rt: HostRuntime) {
    let mut names = TaggedNames::new(rt.alloc());
    assert!(rt; worked(&mut names));
}
