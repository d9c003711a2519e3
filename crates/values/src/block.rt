//! The blocks of a file, by number.
ghost use Rattle.std.specs.Prelude.{◌≡◌, ◌≤◌};
ghost use Rattle.values.specs.Answers.{answer};
ghost use Rattle.values.specs.Blocks.{block_number_at};

use crate::refusal::Refusal;

/// The largest block number.
pub const MAX_BLOCK_NUMBER: u8 = 63;

/// The most bytes that a block has.
pub const MAX_BLOCK_LENGTH: usize = 64;

/// The place of a block in its file, from 0 to [`MAX_BLOCK_NUMBER`].
#[derive(Clone, Copy, PartialEq, Eq, PartialOrd, Ord, Debug)]
pub struct BlockNumber {
    value: u8,
    ghost within: { value ≤ 63 },
}

impl BlockNumber {
    /// The block's number.
    pub fn number(self) -> u8
        ensures { result ≡ self.value }
    {
        self.value
    }
}

// As in `Moment`: no shared function would make it shorter.
impl TryFrom<u32> for BlockNumber {
    type Error = Refusal;

    ghost try_from_gives = { λ value r. answer (λ b. b.value) r ≡ block_number_at value };

    fn try_from(value: u32) -> Result<BlockNumber, Refusal> {
        if value > u32::from(MAX_BLOCK_NUMBER) {
            return Err(Refusal::BlockNumberTooLarge);
        }
        Ok(BlockNumber { value: value as u8 })
    }
}
