//! Calls that are refused, and by which refusal, on both stores.
use crate::memory::{THREE, entry};
use crate::script::{Script, append, clear, drop_entry, read, read_absent, read_short};
use std::test::Fail;
use values::refusal::Refusal;

#[test]
fn lengths(rt: HostRuntime) -> Result<(), Fail> {
    let steps = [
        append(1, 0).refused(Refusal::InvalidLength),
        append(1, 65).refused(Refusal::InvalidLength),
        append(1, 256).refused(Refusal::InvalidLength),
        append(1, 257).refused(Refusal::InvalidLength),
        append(1, 320).refused(Refusal::InvalidLength),
        append(1, 64),
    ];
    Script::new(THREE, &steps, &[entry(0, 1, 64)]).on_both(&rt)
}

#[test]
fn numbers(rt: HostRuntime) -> Result<(), Fail> {
    let steps = [
        append(0, 1).refused(Refusal::EntryNotAboveLast),
        append(5, 8),
        append(5, 1).refused(Refusal::EntryNotAboveLast),
        append(4, 1).refused(Refusal::EntryNotAboveLast),
        append(0, 1).refused(Refusal::EntryNotAboveLast),
        append(6, 1),
        drop_entry(6),
        append(6, 1).refused(Refusal::EntryNotAboveLast),
        append(5, 1).refused(Refusal::EntryNotAboveLast),
        read(5, 8),
    ];
    Script::new(THREE, &steps, &[entry(0, 5, 8)]).on_both(&rt)
}

#[test]
fn a_refused_number_is_not_spent(rt: HostRuntime) -> Result<(), Fail> {
    let steps = [
        append(9, 0).refused(Refusal::InvalidLength),
        append(7, 64),
        append(8, 64),
        append(9, 64),
        append(12, 1).refused(Refusal::StoreFull),
        drop_entry(8),
        drop_entry(9),
        append(11, 1),
        drop_entry(11),
        append(12, 1),
        drop_entry(12),
    ];
    Script::new(THREE, &steps, &[entry(0, 7, 64)]).on_both(&rt)
}

#[test]
fn the_first_that_applies(rt: HostRuntime) -> Result<(), Fail> {
    let steps = [
        append(0, 0).refused(Refusal::InvalidLength),
        append(1, 64),
        append(1, 65).refused(Refusal::InvalidLength),
        append(2, 64),
        append(3, 64),
        append(3, 0).refused(Refusal::InvalidLength),
        append(4, 65).refused(Refusal::InvalidLength),
        append(3, 64).refused(Refusal::EntryNotAboveLast),
        append(4, 64).refused(Refusal::StoreFull),
        read_short(9),
        read_short(3),
        read_absent(9),
    ];
    let entries = [entry(0, 1, 64), entry(69, 2, 64), entry(138, 3, 64)];
    Script::new(THREE, &steps, &entries).on_both(&rt)
}

#[test]
fn entries_that_are_not_there(rt: HostRuntime) -> Result<(), Fail> {
    let steps = [
        read_absent(0),
        read_absent(1),
        drop_entry(0).refused(Refusal::NoSuchEntry),
        drop_entry(1).refused(Refusal::NoSuchEntry),
        append(2, 6),
        read_absent(0),
        drop_entry(0).refused(Refusal::NoSuchEntry),
        drop_entry(1).refused(Refusal::NoSuchEntry),
        drop_entry(3).refused(Refusal::NoSuchEntry),
        drop_entry(u32::MAX).refused(Refusal::NoSuchEntry),
        append(3, 6),
        drop_entry(3),
        drop_entry(3).refused(Refusal::NoSuchEntry),
        read_absent(3),
        read(2, 6),
        clear(),
        read_absent(2),
        drop_entry(2).refused(Refusal::NoSuchEntry),
    ];
    Script::new(THREE, &steps, &[]).on_both(&rt)
}
