//! The policy that thins by halves.
ghost use Rattle.std.specs.Prelude.{◌≡◌, ◌<◌, ◌≤◌};
ghost use Rattle.values.specs.Answers.{answer};
ghost use Rattle.policies.specs.Kept.{kept_by_halving};
ghost use Rattle.policies.specs.Settings.{halving_setting};
ghost use Rattle.policies.specs.Halving.{candidate, limit_of};
ghost use Rattle.std.proofs.Common.{rules};

use crate::policy::Policy;
use values::moment::Moment;
use values::refusal::Refusal;

/// The largest reach that a halving policy takes.
pub const MAX_REACH: u32 = 1024;

// 2 to the power of 20 is above the last moment, so each moment but 0 has fewer zero bits at its end.
const MOMENT_BITS: u32 = 20;

/// Keeps moment 0, and any other moment for as long as its last bits allow: twice as long
/// for each zero bit at the low end of its number.
#[derive(Clone, Copy, PartialEq, Eq, Debug)]
pub struct Halving {
    reach: u32,
    ghost within: { reach ≤ 1024 },
}

impl Halving {
    // As in `Moment`: no shared function would make it shorter.

    /// The policy that keeps odd moments until they are `reach` moments old.
    pub fn new(reach: u32) -> Result<Halving, Refusal>
        ensures { answer (λ h. h.reach) result ≡ halving_setting reach }
    {
        if reach > MAX_REACH {
            return Err(Refusal::BeyondLimit);
        }
        Ok(Halving { reach })
    }

    /// How old an odd moment may be and still be kept.
    pub fn reach(self) -> u32
        ensures { result ≡ self.reach }
    {
        self.reach
    }

    /// How old a moment may be and still be kept: the reach, doubled for each zero bit at the low
    /// end of the moment's number. None for moment 0, which is always kept.
    pub fn limit(self, t: Moment) -> Option<u32>
        ensures { result ≡ limit_of self.reach t.value }
    {
        if t == Moment::ZERO {
            return None;
        }
        Some(self.reach << t.number().trailing_zeros())
    }

    // The first multiple of two to the power `zeros` that is not below `from` and that the
    // policy keeps for being such a multiple.
    fn first_multiple(self, zeros: u32, from: Moment, present: Moment) -> u32
        requires { zeros < 20 }
        ensures { result ≡ candidate self.reach zeros from.value present.value }
    {
        let oldest = present.number().saturating_sub(self.reach << zeros);
        from.number().max(oldest).next_multiple_of(1 << zeros)
    }
}

impl Policy for Halving {
    ghost kept = { λ h. kept_by_halving h.reach };

    ghost present = { Prim.search rules };

    ghost lasting = { Prim.search rules };

    ghost bounded = { Prim.search rules };

    fn keeps(&self, t: Moment, present: Moment) -> bool {
        t <= present
            && self
                .limit(t)
                .is_none_or(|limit| present.number() - t.number() <= limit)
    }

    fn first_kept(&self, from: Moment, present: Moment) -> Option<Moment> {
        if from > present {
            return None;
        }
        if from == Moment::ZERO {
            return Some(from);
        }
        let first = (0..MOMENT_BITS)
            .map(|zeros| self.first_multiple(zeros, from, present))
            .fold(present.number(), u32::min);
        Moment::try_from(first).ok()
    }
}
