//! The memory that a store is to leave, written down by where its entries lie.
use std::alloc::{AllocError, Global};

/// What lent bytes hold before a store is made over them.
pub const FILLER: u8 = 0xAB;

/// Bytes to lend, and what a store makes of them.
#[derive(Clone, Copy)]
pub struct Memory {
    /// How many bytes are lent.
    pub length: usize,
    /// How many entries they have room for.
    pub capacity: usize,
    /// How many bytes from the front on a store may touch.
    pub room: usize,
}

/// Room for three entries, and five bytes behind.
pub const THREE: Memory = Memory {
    length: 212,
    capacity: 3,
    room: 207,
};

/// Room for four entries, and one byte behind.
pub const FOUR: Memory = Memory {
    length: 277,
    capacity: 4,
    room: 276,
};

/// An entry by its first byte, its number and the length of its block.
#[derive(Clone, Copy)]
pub struct Placed {
    at: usize,
    number: u32,
    length: usize,
}

pub fn entry(at: usize, number: u32, length: usize) -> Placed {
    Placed { at, number, length }
}

/// The byte at this place of the block that the scripts give an entry.
pub fn block_byte(number: u32, place: usize) -> u8 {
    let sum = u64::from(number).wrapping_mul(7).wrapping_add(place as u64);
    (sum & 0xff) as u8
}

/// The block that the scripts give an entry.
pub fn block_of(heap: Global, number: u32, length: usize) -> Result<Vec<u8>, AllocError> {
    (0..length)
        .map(|place| block_byte(number, place))
        .collect(heap)
}

// Adds the header and the block of an entry.
fn lay(heap: Global, bytes: &mut Vec<u8>, entry: Placed) -> Result<(), AllocError> {
    let block = block_of(heap, entry.number, entry.length)?;
    bytes.extend_from_slice(&entry.number.to_be_bytes())?;
    bytes.push((entry.length & 0xff) as u8)?;
    bytes.extend_from_slice(block.as_slice())
}

impl Memory {
    /// The bytes to lend, with old contents.
    pub fn lent(self, heap: Global) -> Result<Vec<u8>, AllocError> {
        vec![in heap; FILLER; self.length]
    }

    /// The lent bytes with these entries, which are given by rising place: zeros between and behind
    /// them, and the old contents behind the room.
    pub fn with(self, heap: Global, entries: &[Placed]) -> Result<Vec<u8>, AllocError> {
        let mut bytes = Vec::new(heap);
        for entry in entries {
            bytes.resize(entry.at.max(bytes.len()), 0)?;
            lay(heap, &mut bytes, *entry)?;
        }
        bytes.resize(self.room.max(bytes.len()), 0)?;
        bytes.resize(self.length.max(bytes.len()), FILLER)?;
        Ok(bytes)
    }
}

/// The first place at which bytes differ, or none where they are the same.
pub fn first_difference(left: &[u8], right: &[u8]) -> Option<usize> {
    let common = left.len().min(right.len());
    let differs = left.iter().zip(right).position(|(l, r)| l != r);
    let longer = (left.len() != right.len()).then_some(common);
    differs.or(longer)
}
