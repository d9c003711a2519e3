//! Which appends a store accepts.
ghost use Rattle.std.specs.Prelude.{◌≡◌};
ghost use Rattle.values.specs.Answers.{answer};
ghost use Rattle.stores.specs.Calls.{admission};

use values::block::MAX_BLOCK_LENGTH;
use values::refusal::Refusal;

/// Where a store stands, as far as appending goes.
#[derive(Clone, Copy, PartialEq, Eq, Debug)]
pub struct Standing {
    /// How many entries it holds.
    pub held: usize,
    /// The last number accepted.
    pub last: u32,
    /// How many entries it has room for.
    pub capacity: usize,
}

impl Standing {
    /// Turns an append down where its length, its number or the store's room does not allow it.
    pub fn admit(self, number: u32, block: &[u8]) -> Result<(), Refusal>
        ensures { answer (λ u. u) result ≡ admission number block.now self.held self.last self.capacity }
    {
        if block.is_empty() || block.len() > MAX_BLOCK_LENGTH {
            return Err(Refusal::InvalidLength);
        }
        if number <= self.last {
            return Err(Refusal::EntryNotAboveLast);
        }
        if self.held >= self.capacity {
            return Err(Refusal::StoreFull);
        }
        Ok(())
    }
}
