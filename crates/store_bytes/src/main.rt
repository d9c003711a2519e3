//! Shows what a slot store and a packed log leave in their memory, call by call: the bytes in rows of
//! 23, a third of a slot, without the rows that are all zero.
#![tactic(auto)]

mod row;

use packed_log::log::PackedLog;
use row::{ROW_LENGTH, Row};
use slot_store::slots::SlotStore;
use std::{fmt, io};
use stores::store::Store;

// Room for three entries, and two bytes that no store touches.
const MEMORY: usize = 3 * 69 + 2;

// The rows of the memory that are not all zero, each behind the place of its first byte.
fn show_memory(rt: &impl Print, memory: &[u8]) -> io::Result<()> {
    for (turn, bytes) in memory.chunks(ROW_LENGTH).enumerate() {
        let row = Row { bytes };
        let place = turn.saturating_mul(ROW_LENGTH);
        if !row.is_zero() {
            println!(rt; "  {place:>3} {row}")?;
        }
    }
    Ok(())
}

/// A call on a store.
#[derive(Clone, Copy)]
enum Call<'a> {
    Append(u32, &'a [u8]),
    Drop(u32),
}

impl fmt::Display for Call<'_> {
    fn fmt<W: fmt::Write>(&self, f: &mut fmt::Formatter<W>) -> fmt::Result {
        match *self {
            Call::Append(number, _) => write!(f, "append {number}"),
            Call::Drop(number) => write!(f, "drop {number}"),
        }
    }
}

/// A store whose memory can be shown.
// Not in `stores`, whose interface knows no bytes. The tests of the stores have the same.
trait Shown: Store {
    fn memory(&self) -> &[u8];
}

impl Shown for SlotStore<'_> {
    fn memory(&self) -> &[u8] {
        self.bytes()
    }
}

impl Shown for PackedLog<'_> {
    fn memory(&self) -> &[u8] {
        self.bytes()
    }
}

// Makes each call, and shows what was asked and answered and the memory afterwards.
fn show_calls<S: Shown>(rt: &impl Print, store: &mut S, calls: &[Call<'_>]) -> io::Result<()> {
    show_memory(rt, store.memory())?;
    for call in calls {
        let answer = match *call {
            Call::Append(number, block) => store.append(number, block),
            Call::Drop(number) => store.drop_entry(number),
        };
        match answer {
            Ok(()) => println!(rt; "{call}")?,
            Err(refusal) => println!(rt; "{call}: refused {refusal}")?,
        }
        show_memory(rt, store.memory())?;
    }
    Ok(())
}

fn show_slots(rt: &impl Print) -> io::Result<()> {
    println!(rt; "a new slot store")?;
    let calls = [
        Call::Append(1, b"Hei"),
        Call::Append(2, b"Hallo"),
        Call::Append(3, b"Salut"),
        Call::Append(4, b"Ciao"),
        Call::Drop(2),
        Call::Append(4, b"Ciao"),
    ];
    show_calls(rt, &mut SlotStore::new(&mut [0xEEu8; MEMORY]), &calls)
}

fn show_log(rt: &impl Print) -> io::Result<()> {
    println!(rt; "a new packed log")?;
    let calls = [
        Call::Append(1, b"Hei"),
        Call::Append(2, b"Hallo"),
        Call::Append(3, b"Salut"),
        Call::Drop(2),
        Call::Append(4, b"Ciao"),
    ];
    show_calls(rt, &mut PackedLog::new(&mut [0xEEu8; MEMORY]), &calls)
}

fn main(rt: HostRuntime) -> io::Result<()> {
    show_slots(&rt)?;
    show_log(&rt)
}
