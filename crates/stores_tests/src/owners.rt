//! Stores that an owner holds by value.
use crate::owner::Owner;
use packed_log::log::PackedLog;
use slot_store::slots::SlotStore;
use std::process::Abort;
use std::test::Fail;
use stores::store::Store;
use values::refusal::Refusal;

// Two blocks fill a store with room for two, and are read back.
fn fill_and_read<S: Store + Drop>(rt: &impl Abort, store: S) -> Result<(), Fail> {
    let mut owner = Owner::new(store);
    let mut buffer = [0u8; 64];
    assert_eq!(rt; owner.free(), 2);
    assert_eq!(rt; owner.add(b"Hei"), Ok(1));
    assert_eq!(rt; owner.add(b""), Err(Refusal::InvalidLength));
    assert_eq!(rt; owner.add(b"Hallo"), Ok(2));
    assert_eq!(rt; owner.free(), 0);
    assert_eq!(rt; owner.add(b"Salut"), Err(Refusal::StoreFull));
    assert_eq!(rt; owner.read(2, &mut buffer)?, 5);
    assert!(rt; buffer.starts_with(b"Hallo\x00"));
    Ok(())
}

// A test for each store, so that a failure names the store.

#[test]
fn an_owner_of_slots(rt: HostRuntime) -> Result<(), Fail> {
    let mut bytes = [0u8; 138];
    fill_and_read(&rt, SlotStore::new(&mut bytes))
}

#[test]
fn an_owner_of_a_log(rt: HostRuntime) -> Result<(), Fail> {
    let mut bytes = [0u8; 138];
    fill_and_read(&rt, PackedLog::new(&mut bytes))
}
