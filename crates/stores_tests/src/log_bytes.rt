//! Where the entries of a packed log lie.
use crate::memory::{Placed, THREE, entry};
use crate::script::{Script, append, drop_entry, read, read_absent};
use packed_log::log::PackedLog;
use std::process::Abort;
use std::test::Fail;
use stores::store::Store;

#[test]
fn a_log_byte_for_byte(rt: HostRuntime) -> Result<(), Fail> {
    let mut bytes = [0xCDu8; 140];
    let mut store = PackedLog::new(&mut bytes);
    store.append(1, b"abc")?;
    assert!(rt;
        store
            .bytes()
            .starts_with(b"\x00\x00\x00\x01\x03abc\x00\x00")
    );
    store.append(0x0102_0304, b"z")?;
    assert!(rt;
        store
            .bytes()
            .starts_with(b"\x00\x00\x00\x01\x03abc\x01\x02\x03\x04\x01z\x00\x00")
    );
    store.drop_entry(1)?;
    assert!(rt;
        store.bytes().starts_with(b"\x01\x02\x03\x04\x01z\x00\x00\x00\x00\x00\x00\x00\x00\x00")
    );
    store.append(u32::MAX, b"\x00\xFF")?;
    assert!(rt;
        store
            .bytes()
            .starts_with(b"\x01\x02\x03\x04\x01z\xFF\xFF\xFF\xFF\x02\x00\xFF\x00")
    );
    assert!(rt; store.bytes().ends_with(b"\x00\x00\xCD\xCD"));
    Ok(())
}

// Drops one of three entries.
fn after_drop<R: Abort + AllocGlobal>(rt: &R, number: u32, entries: &[Placed]) -> Result<(), Fail> {
    let steps = [
        append(1, 3),
        append(2, 5),
        append(3, 2),
        drop_entry(number),
        read_absent(number),
    ];
    Script::new(THREE, &steps, entries).on_log(rt)
}

#[test]
fn later_entries_move_down(rt: HostRuntime) -> Result<(), Fail> {
    after_drop(&rt, 1, &[entry(0, 2, 5), entry(10, 3, 2)])?;
    after_drop(&rt, 2, &[entry(0, 1, 3), entry(8, 3, 2)])?;
    after_drop(&rt, 3, &[entry(0, 1, 3), entry(8, 2, 5)])
}

#[test]
fn every_entry_dropped(rt: HostRuntime) -> Result<(), Fail> {
    let steps = [
        append(1, 64),
        append(2, 64),
        append(3, 64),
        drop_entry(2),
        drop_entry(3),
        drop_entry(1),
    ];
    Script::new(THREE, &steps, &[]).on_log(&rt)?;
    let steps = [append(8, 1), drop_entry(8), append(9, 4)];
    Script::new(THREE, &steps, &[entry(0, 9, 4)]).on_log(&rt)
}

#[test]
fn a_log_of_the_longest_entries(rt: HostRuntime) -> Result<(), Fail> {
    let steps = [
        append(10, 64),
        append(20, 64),
        append(30, 64),
        drop_entry(20),
        append(40, 63),
        read(10, 64),
        read(30, 64),
        read(40, 63),
    ];
    let entries = [entry(0, 10, 64), entry(69, 30, 64), entry(138, 40, 63)];
    Script::new(THREE, &steps, &entries).on_log(&rt)
}
