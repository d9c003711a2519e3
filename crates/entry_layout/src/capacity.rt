//! How many entries fit into bytes.
ghost use Rattle.std.specs.Prelude.{◌≡◌};
ghost use Rattle.entry_layout.specs.Layout.{capacity_of};

use values::block::MAX_BLOCK_LENGTH;

/// The most entries that a store has room for.
pub const MAX_CAPACITY: usize = 4096;

/// The bytes of a number.
pub const NUMBER_LENGTH: usize = 4;

/// The bytes before a block: those of its number, and one for its length.
pub const HEADER_LENGTH: usize = NUMBER_LENGTH + 1;

/// The most bytes that an entry takes.
pub const MAX_ENTRY_LENGTH: usize = HEADER_LENGTH + MAX_BLOCK_LENGTH;

/// How many entries of any length fit into so many bytes, at most [`MAX_CAPACITY`].
pub fn capacity_of(length: usize) -> usize
    ensures { result ≡ capacity_of length }
{
    (length / MAX_ENTRY_LENGTH).min(MAX_CAPACITY)
}
