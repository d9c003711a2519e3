//! The same scripts on both stores: the same answers, and the bytes of each.
use crate::memory::{Placed, THREE, entry};
use crate::script::{Script, Step, append, clear, drop_entry, read, read_absent};
use std::process::Abort;
use std::test::Fail;
use values::refusal::Refusal;

// Runs a script on both stores, each with room for three entries.
fn on_both<R: Abort + AllocGlobal>(
    rt: &R,
    steps: &[Step],
    slots: &[Placed],
    log: &[Placed],
) -> Result<(), Fail> {
    Script::new(THREE, steps, slots).on_slots(rt)?;
    Script::new(THREE, steps, log).on_log(rt)
}

#[test]
fn a_new_store_is_zeroed(rt: HostRuntime) -> Result<(), Fail> {
    on_both(&rt, &[], &[], &[])
}

#[test]
fn a_store_over_an_older_one(rt: HostRuntime) -> Result<(), Fail> {
    let mut bytes = THREE.lent(rt.alloc())?;
    let steps = [append(8, 64), append(9, 64)];
    let entries = [entry(0, 8, 64), entry(69, 9, 64)];
    let filled = Script::new(THREE, &steps, &entries);
    let steps = [read_absent(8)];
    let empty = Script::new(THREE, &steps, &[]);
    filled.on_slots_over(&rt, bytes.as_mut_slice())?;
    empty.on_log_over(&rt, bytes.as_mut_slice())?;
    filled.on_log_over(&rt, bytes.as_mut_slice())?;
    empty.on_slots_over(&rt, bytes.as_mut_slice())?;
    let steps = [append(1, 2)];
    let entries = [entry(0, 1, 2)];
    let again = Script::new(THREE, &steps, &entries);
    again.on_slots_over(&rt, bytes.as_mut_slice())?;
    again.on_log_over(&rt, bytes.as_mut_slice())
}

#[test]
fn filled_until_full(rt: HostRuntime) -> Result<(), Fail> {
    let steps = [
        append(1, 64),
        append(2, 1),
        append(3, 10),
        append(4, 1).refused(Refusal::StoreFull),
        read(1, 64),
        read(2, 1),
        read(3, 10),
        read_absent(4),
    ];
    let slots = [entry(0, 1, 64), entry(69, 2, 1), entry(138, 3, 10)];
    let log = [entry(0, 1, 64), entry(69, 2, 1), entry(75, 3, 10)];
    on_both(&rt, &steps, &slots, &log)
}

#[test]
fn refilled_after_drops(rt: HostRuntime) -> Result<(), Fail> {
    let steps = [
        append(1, 64),
        append(2, 1),
        append(3, 10),
        drop_entry(2),
        read_absent(2),
        append(4, 7),
        append(5, 64).refused(Refusal::StoreFull),
        drop_entry(1),
        append(5, 64),
        append(6, 1).refused(Refusal::StoreFull),
        read(3, 10),
        read(4, 7),
        read(5, 64),
    ];
    let slots = [entry(0, 5, 64), entry(69, 4, 7), entry(138, 3, 10)];
    let log = [entry(0, 3, 10), entry(15, 4, 7), entry(27, 5, 64)];
    on_both(&rt, &steps, &slots, &log)
}

#[test]
fn cleared_in_the_middle(rt: HostRuntime) -> Result<(), Fail> {
    let steps = [
        append(1, 64),
        append(7, 64),
        drop_entry(1),
        clear(),
        read_absent(7),
        append(0, 1).refused(Refusal::EntryNotAboveLast),
        append(1, 3),
        append(2, 4),
        read(1, 3),
    ];
    let slots = [entry(0, 1, 3), entry(69, 2, 4)];
    let log = [entry(0, 1, 3), entry(8, 2, 4)];
    on_both(&rt, &steps, &slots, &log)
}

#[test]
fn cleared_when_full(rt: HostRuntime) -> Result<(), Fail> {
    let steps = [
        append(1, 64),
        append(2, 64),
        append(3, 64),
        append(4, 64).refused(Refusal::StoreFull),
        clear(),
        clear(),
    ];
    on_both(&rt, &steps, &[], &[])
}

#[test]
fn the_greatest_number(rt: HostRuntime) -> Result<(), Fail> {
    let steps = [
        append(1, 2),
        append(u32::MAX - 1, 2),
        append(u32::MAX, 2),
        drop_entry(1),
        append(u32::MAX, 2).refused(Refusal::EntryNotAboveLast),
        append(u32::MAX - 1, 2).refused(Refusal::EntryNotAboveLast),
        read(u32::MAX, 2),
        drop_entry(u32::MAX - 1),
        read(u32::MAX, 2),
    ];
    let slots = [entry(138, u32::MAX, 2)];
    let log = [entry(0, u32::MAX, 2)];
    on_both(&rt, &steps, &slots, &log)
}
