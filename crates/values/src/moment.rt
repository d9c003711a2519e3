//! Moments: the points of a project's history.
ghost use Rattle.std.specs.Prelude.{◌≡◌, ◌≤◌};
ghost use Rattle.std.specs.Option.{option_map};
ghost use Rattle.values.specs.Answers.{answer};
ghost use Rattle.values.specs.Moments.{moment_at, moment_after};

use crate::refusal::Refusal;

/// The number of the last moment that there is.
pub const LAST: u32 = 1_048_575;

/// A point of a project's history, from 0 to [`LAST`].
// A ghost field and no model: proofs of other crates read the limit off any moment.
#[derive(Clone, Copy, PartialEq, Eq, PartialOrd, Ord, Debug)]
pub struct Moment {
    value: u32,
    ghost within: { value ≤ 1048575 },
}

impl Moment {
    /// The moment at which every vault begins.
    pub const ZERO: Moment = Moment { value: 0 };

    /// The moment's number.
    pub fn number(self) -> u32
        ensures { result ≡ self.value }
    {
        self.value
    }

    /// The moment one later, unless this is the last.
    pub fn next(self) -> Option<Moment>
        ensures { option_map (λ m. m.value) result ≡ moment_after self.value }
    {
        Moment::try_from(self.value + 1).ok()
    }
}

// Four numbers are checked against a limit, here and in `BlockNumber`, `Window` and `Halving`: with a
// limit, a refusal and a type of its own each, a function for all of them would make none shorter.

/// The moment with this number.
impl TryFrom<u32> for Moment {
    type Error = Refusal;

    ghost try_from_gives = { λ value r. answer (λ m. m.value) r ≡ moment_at value };

    fn try_from(value: u32) -> Result<Moment, Refusal> {
        if value > LAST {
            return Err(Refusal::BeyondLimit);
        }
        Ok(Moment { value })
    }
}
