//! The policy that keeps the newest moments.
ghost use Rattle.std.specs.Prelude.{◌≡◌, ◌≤◌};
ghost use Rattle.values.specs.Answers.{answer};
ghost use Rattle.policies.specs.Kept.{kept_by_window};
ghost use Rattle.policies.specs.Settings.{window_setting};
ghost use Rattle.std.proofs.Common.{rules};

use crate::policy::Policy;
use values::moment::{LAST, Moment};
use values::refusal::Refusal;

/// Keeps the present moment and a number of moments before it.
#[derive(Clone, Copy, PartialEq, Eq, Debug)]
pub struct Window {
    length: u32,
    ghost within: { length ≤ 1048575 },
}

impl Window {
    // As in `Moment`: no shared function would make it shorter.

    /// The window that keeps `length` moments before the present one.
    pub fn new(length: u32) -> Result<Window, Refusal>
        ensures { answer (λ w. w.length) result ≡ window_setting length }
    {
        if length > LAST {
            return Err(Refusal::BeyondLimit);
        }
        Ok(Window { length })
    }

    /// How many moments are kept before the present one.
    pub fn length(self) -> u32
        ensures { result ≡ self.length }
    {
        self.length
    }
}

impl Policy for Window {
    ghost kept = { λ w. kept_by_window w.length };

    ghost present = { Prim.search rules };

    ghost lasting = { Prim.search rules };

    ghost bounded = { Prim.search rules };

    fn keeps(&self, t: Moment, present: Moment) -> bool {
        t <= present && present.number() - t.number() <= self.length
    }

    fn first_kept(&self, from: Moment, present: Moment) -> Option<Moment> {
        if from > present {
            return None;
        }
        let oldest = present.number().saturating_sub(self.length);
        Moment::try_from(from.number().max(oldest)).ok()
    }
}
