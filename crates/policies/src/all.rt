//! The policy that gives nothing up.
ghost use Rattle.policies.specs.Kept.{kept_by_all};
ghost use Rattle.std.proofs.Common.{rules};

use crate::policy::Policy;
use values::moment::Moment;

/// Keeps every moment up to the present one.
#[derive(Clone, Copy, PartialEq, Eq, Debug)]
pub struct All;

impl Policy for All {
    ghost kept = { λ _. kept_by_all };

    ghost present = { Prim.search rules };

    ghost lasting = { Prim.search rules };

    ghost bounded = { Prim.search rules };

    fn keeps(&self, t: Moment, present: Moment) -> bool {
        t <= present
    }

    fn first_kept(&self, from: Moment, present: Moment) -> Option<Moment> {
        (from <= present).then_some(from)
    }
}
