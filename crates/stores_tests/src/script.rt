//! Scripts of calls with their answers, and what performs them on a store.
use crate::memory::{Memory, Placed, block_byte, block_of, first_difference};
use packed_log::log::PackedLog;
use slot_store::slots::SlotStore;
use std::fmt;
use std::process::Abort;
use std::test::Fail;
use stores::store::Store;
use values::refusal::Refusal;

// What a buffer holds before a read.
const UNREAD: u8 = 0xEE;

#[derive(Clone, Copy)]
enum Call {
    Append { number: u32, length: usize },
    Read { number: u32, length: usize },
    ReadShort { number: u32 },
    DropEntry { number: u32 },
    Clear,
}

/// A call, and how it is to be refused, if it is.
#[derive(Clone, Copy)]
pub struct Step {
    call: Call,
    refusal: Option<Refusal>,
}

impl Step {
    fn new(call: Call) -> Step {
        Step {
            call,
            refusal: None,
        }
    }

    /// The same call, which is to be refused.
    pub fn refused(self, refusal: Refusal) -> Step {
        Step {
            refusal: Some(refusal),
            ..self
        }
    }
}

/// Appends a block of this length.
pub fn append(number: u32, length: usize) -> Step {
    Step::new(Call::Append { number, length })
}

/// Reads an entry whose block has this length.
pub fn read(number: u32, length: usize) -> Step {
    Step::new(Call::Read { number, length })
}

/// Reads an entry that is not there.
pub fn read_absent(number: u32) -> Step {
    read(number, 0).refused(Refusal::NoSuchEntry)
}

/// Reads into a buffer of 63 bytes, which is too short for any entry.
pub fn read_short(number: u32) -> Step {
    Step::new(Call::ReadShort { number }).refused(Refusal::BufferTooShort)
}

pub fn drop_entry(number: u32) -> Step {
    Step::new(Call::DropEntry { number })
}

pub fn clear() -> Step {
    Step::new(Call::Clear)
}

/// Where in a script a check stands.
#[derive(Clone, Copy)]
struct At<'a> {
    store: &'a str,
    step: usize,
}

impl fmt::Display for At<'_> {
    fn fmt<W: fmt::Write>(&self, f: &mut fmt::Formatter<W>) -> fmt::Result {
        write!(f, "{}, step {}, counted from 0", self.store, self.step)
    }
}

/// A store whose lent bytes can be looked at.
// Not in `stores`, whose interface knows no bytes; for three lines a crate of its own is no plainer.
pub trait Bytes {
    fn seen(&self) -> &[u8];
}

impl Bytes for SlotStore<'_> {
    fn seen(&self) -> &[u8] {
        self.bytes()
    }
}

impl Bytes for PackedLog<'_> {
    fn seen(&self) -> &[u8] {
        self.bytes()
    }
}

// Whether a buffer holds the block of an entry at its front and is untouched behind it.
fn holds_block(buffer: &[u8], number: u32, length: usize) -> bool {
    buffer.iter().enumerate().all(|(place, byte)| {
        let expected = if place < length {
            block_byte(number, place)
        } else {
            UNREAD
        };
        *byte == expected
    })
}

// The runtime, the store and the place in the script stay three parameters here and below: the store
// is lent in two ways, and a struct of them would be built anew for each step.

// Reads into a buffer: a block of this length at its front, or where the read is refused nothing.
fn read_into<S: Store, R: Abort>(
    rt: &R,
    store: &S,
    at: At<'_>,
    number: u32,
    answer: Result<usize, Refusal>,
    buffer: &mut [u8],
) {
    buffer.fill(UNREAD);
    assert_eq!(rt; store.read(number, buffer), answer, "{at}");
    assert!(rt;
        holds_block(buffer, number, answer.unwrap_or(0)),
        "what the buffer holds: {at}"
    );
}

// Makes the call and checks its answer.
fn make_call<S: Store, R: Abort + AllocGlobal>(
    rt: &R,
    store: &mut S,
    at: At<'_>,
    step: Step,
) -> Result<(), Fail> {
    let answer = step.refusal.map_or(Ok(()), Err);
    match step.call {
        Call::Append { number, length } => {
            let block = block_of(rt.alloc(), number, length)?;
            assert_eq!(rt; store.append(number, block.as_slice()), answer, "{at}");
        }
        Call::Read { number, length } => {
            let answer = answer.map(|()| length);
            read_into(rt, store, at, number, answer, &mut [0u8; 64]);
            read_into(rt, store, at, number, answer, &mut [0u8; 70]);
        }
        Call::ReadShort { number } => {
            read_into(rt, store, at, number, answer.map(|()| 0), &mut [0u8; 63]);
        }
        Call::DropEntry { number } => {
            assert_eq!(rt; store.drop_entry(number), answer, "{at}");
        }
        Call::Clear => {
            store.clear();
            assert_eq!(rt; store.held(), 0, "{at}");
        }
    }
    Ok(())
}

// Makes a call that is to be refused, and checks that it alters nothing.
fn refused_call<S: Store + Bytes, R: Abort + AllocGlobal>(
    rt: &R,
    store: &mut S,
    at: At<'_>,
    step: Step,
) -> Result<(), Fail> {
    let before = store.seen().to_vec(rt.alloc())?;
    let held = store.held();
    make_call(rt, store, at, step)?;
    assert_eq!(rt;
        first_difference(store.seen(), before.as_slice()),
        None,
        "a refusal wrote: {at}"
    );
    assert_eq!(rt; store.held(), held, "{at}");
    Ok(())
}

/// Calls on a new store over such memory, and where the entries lie in the end.
#[derive(Clone, Copy)]
pub struct Script<'a> {
    memory: Memory,
    steps: &'a [Step],
    entries: &'a [Placed],
}

impl<'a> Script<'a> {
    pub fn new(memory: Memory, steps: &'a [Step], entries: &'a [Placed]) -> Script<'a> {
        Script {
            memory,
            steps,
            entries,
        }
    }

    // Performs every step, and then checks where the entries lie.
    fn run<S: Store + Bytes, R: Abort + AllocGlobal>(
        self,
        rt: &R,
        name: &str,
        store: &mut S,
    ) -> Result<(), Fail> {
        assert_eq!(rt; store.capacity(), self.memory.capacity, "{name}");
        assert_eq!(rt; store.held(), 0, "{name}");
        for (place, step) in self.steps.iter().enumerate() {
            let at = At {
                store: name,
                step: place,
            };
            match step.refusal {
                Some(_) => refused_call(rt, store, at, *step)?,
                None => make_call(rt, store, at, *step)?,
            }
        }
        let expected = self.memory.with(rt.alloc(), self.entries)?;
        assert_eq!(rt;
            first_difference(store.seen(), expected.as_slice()),
            None,
            "the first byte that is not as expected {name}"
        );
        assert_eq!(rt; store.held(), self.entries.len(), "{name}");
        Ok(())
    }

    // A pair of calls for each store: a generic one would have to take the type of a store over bytes
    // that live only inside it.

    /// Runs on a slot store over these bytes.
    pub fn on_slots_over<R: Abort + AllocGlobal>(
        self,
        rt: &R,
        bytes: &mut [u8],
    ) -> Result<(), Fail> {
        self.run(rt, "in slots", &mut SlotStore::new(bytes))
    }

    /// Runs on a packed log over these bytes.
    pub fn on_log_over<R: Abort + AllocGlobal>(self, rt: &R, bytes: &mut [u8]) -> Result<(), Fail> {
        self.run(rt, "in a log", &mut PackedLog::new(bytes))
    }

    /// Runs on a slot store over bytes with old contents.
    pub fn on_slots<R: Abort + AllocGlobal>(self, rt: &R) -> Result<(), Fail> {
        let mut bytes = self.memory.lent(rt.alloc())?;
        self.on_slots_over(rt, bytes.as_mut_slice())
    }

    /// Runs on a packed log over bytes with old contents.
    pub fn on_log<R: Abort + AllocGlobal>(self, rt: &R) -> Result<(), Fail> {
        let mut bytes = self.memory.lent(rt.alloc())?;
        self.on_log_over(rt, bytes.as_mut_slice())
    }

    /// Runs on both stores. The entries come to lie at the same places in both.
    pub fn on_both<R: Abort + AllocGlobal>(self, rt: &R) -> Result<(), Fail> {
        self.on_slots(rt)?;
        self.on_log(rt)
    }
}
