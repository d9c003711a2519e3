//! Memory of every kind of length, on both stores.
use crate::memory::{Memory, Placed, entry};
use crate::script::{Script, Step, append, clear, drop_entry, read, read_absent, read_short};
use std::alloc::{AllocError, Global};
use std::iter::once;
use std::process::Abort;
use std::test::Fail;
use values::refusal::Refusal;

// Bytes that have no room for an entry.
fn no_room<R: Abort + AllocGlobal>(rt: &R, length: usize) -> Result<(), Fail> {
    let memory = Memory {
        length,
        capacity: 0,
        room: 0,
    };
    let steps = [
        append(1, 0).refused(Refusal::InvalidLength),
        append(0, 1).refused(Refusal::EntryNotAboveLast),
        append(1, 1).refused(Refusal::StoreFull),
        read_short(1),
        read_absent(1),
        drop_entry(1).refused(Refusal::NoSuchEntry),
        clear(),
        append(1, 64).refused(Refusal::StoreFull),
    ];
    Script::new(memory, &steps, &[]).on_both(rt)
}

#[test]
fn room_for_none(rt: HostRuntime) -> Result<(), Fail> {
    no_room(&rt, 0)?;
    no_room(&rt, 1)?;
    no_room(&rt, 68)
}

// Bytes that have room for one entry.
fn one_room<R: Abort + AllocGlobal>(rt: &R, length: usize) -> Result<(), Fail> {
    let memory = Memory {
        length,
        capacity: 1,
        room: 69,
    };
    let steps = [
        append(1, 1),
        append(2, 1).refused(Refusal::StoreFull),
        drop_entry(1),
        append(2, 64),
        append(3, 1).refused(Refusal::StoreFull),
        read(2, 64),
    ];
    Script::new(memory, &steps, &[entry(0, 2, 64)]).on_both(rt)
}

#[test]
fn room_for_one(rt: HostRuntime) -> Result<(), Fail> {
    one_room(&rt, 69)?;
    one_room(&rt, 70)?;
    one_room(&rt, 137)
}

#[test]
fn room_for_two(rt: HostRuntime) -> Result<(), Fail> {
    let memory = Memory {
        length: 138,
        capacity: 2,
        room: 138,
    };
    let steps = [
        append(1, 64),
        append(2, 64),
        append(3, 64).refused(Refusal::StoreFull),
        read(1, 64),
        read(2, 64),
    ];
    Script::new(memory, &steps, &[entry(0, 1, 64), entry(69, 2, 64)]).on_both(&rt)
}

#[test]
fn room_near_the_most(rt: HostRuntime) -> Result<(), Fail> {
    let one_byte_less = Memory {
        length: 282_623,
        capacity: 4095,
        room: 282_555,
    };
    Script::new(one_byte_less, &[], &[]).on_both(&rt)?;
    let exact = Memory {
        length: 282_624,
        capacity: 4096,
        room: 282_624,
    };
    Script::new(exact, &[], &[]).on_both(&rt)
}

// More bytes than the largest store has room for: 4098 entries would fit.
const LARGE: Memory = Memory {
    length: 282_800,
    capacity: 4096,
    room: 282_624,
};

// The lengths of the blocks in the largest store: 1 to 64 bytes.
fn varied(number: u32) -> usize {
    (number % 64) as usize + 1
}

// Fills the largest store, reads some of it, and takes its first entry out for another one.
fn filling(heap: Global) -> Result<Vec<Step>, AllocError> {
    let mut steps: Vec<Step> = (1..4097u32)
        .map(|number| append(number, varied(number)))
        .collect(heap)?;
    steps.extend_from_slice(&[
        append(4097, 1).refused(Refusal::StoreFull),
        read(1, 2),
        read(63, 64),
        read(2048, 1),
        read(4095, 64),
        read(4096, 1),
        read_absent(4097),
        drop_entry(1),
        append(4097, 33),
        append(4098, 1).refused(Refusal::StoreFull),
        read(2, 3),
        read(4096, 1),
        read(4097, 33),
    ])?;
    Ok(steps)
}

#[test]
fn the_most_slots(rt: HostRuntime) -> Result<(), Fail> {
    let steps = filling(rt.alloc())?;
    let others = (1..4096u32).map(|slot| entry(slot as usize * 69, slot + 1, varied(slot + 1)));
    let entries: Vec<Placed> = once(entry(0, 4097, 33)).chain(others).collect(rt.alloc())?;
    Script::new(LARGE, steps.as_slice(), entries.as_slice()).on_slots(&rt)
}

#[test]
fn the_most_in_a_log(rt: HostRuntime) -> Result<(), Fail> {
    let steps = filling(rt.alloc())?;
    let mut entries = Vec::new(rt.alloc());
    let mut at: usize = 0;
    // A loop: each entry begins where the one before it ends, and a fold would carry the list too.
    for number in 2..4097u32 {
        entries.push(entry(at, number, varied(number)))?;
        at = at.saturating_add(5).saturating_add(varied(number));
    }
    entries.push(entry(at, 4097, 33))?;
    Script::new(LARGE, steps.as_slice(), entries.as_slice()).on_log(&rt)
}
