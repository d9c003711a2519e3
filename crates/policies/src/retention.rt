//! Any of the policies, chosen while the program runs.
ghost use Rattle.policies.specs.Retentions.{kept_by};
ghost use Rattle.std.proofs.Common.{rules};

use crate::all::All;
use crate::halving::Halving;
use crate::policy::Policy;
use crate::window::Window;
use std::fmt;
use values::moment::Moment;

/// A policy of any kind.
// The kinds are closed and nothing lies on a heap, so this is an enum. A `&dyn Policy` would not
// shorten its methods: a function may not hand one out, so each would keep its three arms.
#[derive(Clone, Copy, PartialEq, Eq, Debug)]
pub enum Retention {
    All,
    Window(Window),
    Halving(Halving),
}

impl Policy for Retention {
    ghost kept = { kept_by };

    ghost present = { Prim.search rules };

    ghost lasting = { Prim.search rules };

    ghost bounded = { Prim.search rules };

    fn keeps(&self, t: Moment, present: Moment) -> bool {
        match *self {
            Retention::All => All.keeps(t, present),
            Retention::Window(window) => window.keeps(t, present),
            Retention::Halving(halving) => halving.keeps(t, present),
        }
    }

    fn first_kept(&self, from: Moment, present: Moment) -> Option<Moment> {
        match *self {
            Retention::All => All.first_kept(from, present),
            Retention::Window(window) => window.first_kept(from, present),
            Retention::Halving(halving) => halving.first_kept(from, present),
        }
    }
}

/// Shows the policy and its setting, as `halving:2`.
impl fmt::Display for Retention {
    fn fmt<W: fmt::Write>(&self, f: &mut fmt::Formatter<W>) -> fmt::Result {
        match *self {
            Retention::All => f.write_str("all"),
            Retention::Window(window) => write!(f, "window:{}", window.length()),
            Retention::Halving(halving) => write!(f, "halving:{}", halving.reach()),
        }
    }
}
