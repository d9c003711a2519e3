//! Which slots the entries of a slot store take.
use crate::memory::{FOUR, THREE, entry};
use crate::script::{Script, append, drop_entry, read};
use slot_store::slots::SlotStore;
use std::test::Fail;
use stores::store::Store;
use values::refusal::Refusal;

#[test]
fn slots_byte_for_byte(rt: HostRuntime) -> Result<(), Fail> {
    let mut bytes = [0xCDu8; 140];
    let mut store = SlotStore::new(&mut bytes);
    store.append(1, b"abc")?;
    assert!(rt;
        store
            .bytes()
            .starts_with(b"\x00\x00\x00\x01\x03abc\x00\x00")
    );
    store.append(0x0102_0304, b"z")?;
    let second = store.bytes().get(69..);
    assert!(rt; second.is_some_and(|slot| slot.starts_with(b"\x01\x02\x03\x04\x01z\x00\x00")));
    assert!(rt; store.bytes().ends_with(b"\x00\x00\xCD\xCD"));
    store.drop_entry(1)?;
    assert!(rt;
        store
            .bytes()
            .starts_with(b"\x00\x00\x00\x00\x00\x00\x00\x00")
    );
    store.append(u32::MAX, b"\x00\xFF")?;
    assert!(rt;
        store
            .bytes()
            .starts_with(b"\xFF\xFF\xFF\xFF\x02\x00\xFF\x00")
    );
    Ok(())
}

#[test]
fn slots_going_round(rt: HostRuntime) -> Result<(), Fail> {
    let steps = [
        append(1, 3),
        append(2, 3),
        append(3, 3),
        drop_entry(1),
        drop_entry(2),
        append(4, 5),
        append(5, 6),
        read(3, 3),
        read(4, 5),
        read(5, 6),
    ];
    let entries = [entry(0, 4, 5), entry(69, 5, 6), entry(138, 3, 3)];
    Script::new(THREE, &steps, &entries).on_slots(&rt)
}

#[test]
fn slots_above_before_slots_below(rt: HostRuntime) -> Result<(), Fail> {
    let steps = [
        append(1, 3),
        append(2, 3),
        append(3, 3),
        drop_entry(2),
        append(4, 5),
        read(4, 5),
    ];
    let entries = [entry(0, 1, 3), entry(138, 3, 3), entry(207, 4, 5)];
    Script::new(FOUR, &steps, &entries).on_slots(&rt)
}

#[test]
fn slots_that_are_passed_over(rt: HostRuntime) -> Result<(), Fail> {
    let steps = [
        append(1, 3),
        append(2, 3),
        append(3, 3),
        append(4, 3),
        drop_entry(1),
        drop_entry(3),
        append(5, 9),
        append(6, 9),
        append(7, 9).refused(Refusal::StoreFull),
        read(2, 3),
        read(4, 3),
        read(5, 9),
        read(6, 9),
    ];
    let entries = [
        entry(0, 5, 9),
        entry(69, 2, 3),
        entry(138, 6, 9),
        entry(207, 4, 3),
    ];
    Script::new(FOUR, &steps, &entries).on_slots(&rt)
}

#[test]
fn the_slot_filled_last_is_left(rt: HostRuntime) -> Result<(), Fail> {
    let steps = [
        append(1, 3),
        append(2, 64),
        drop_entry(2),
        append(3, 3),
        drop_entry(3),
        append(4, 1),
    ];
    let entries = [entry(0, 1, 3), entry(69, 4, 1)];
    // Slot 2 was filled last, and slot 0 is taken.
    Script::new(THREE, &steps, &entries).on_slots(&rt)
}
