//! Offsets: the places of blocks.
ghost use Rattle.keys.specs.Offsets.{offset_order};
ghost use Rattle.std.proofs.Common.{rules};

use crate::key::Key;
use crate::order::Ordered;

/// The place of a block: a file and a block number. Offsets stand in order of their files,
/// and within a file in order of their block numbers.
#[derive(Clone, Copy, PartialEq, Eq, PartialOrd, Ord, Debug)]
pub struct Offset {
    pub file: u16,
    pub block: u8,
}

impl Ordered for Offset {
    ghost order = { offset_order };

    ghost compares = { Prim.search rules };

    ghost lawful = { Prim.search rules };
}

/// An offset leads to the number of the store entry that holds its block.
impl Key for Offset {
    type Value = u32;
}
