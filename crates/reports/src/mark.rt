//! The marks of a picture.
ghost use Rattle.std.specs.Prelude.{◌≡◌};
ghost use Rattle.reports.specs.Marks.{mark_of};

use std::fmt;

/// Whether all, some or none of the moments of a stretch are kept.
#[derive(Clone, Copy, PartialEq, Eq, Debug)]
pub enum Mark {
    AllKept,
    SomeKept,
    NoneKept,
}

impl Mark {
    /// The mark of so many moments, of which so many are kept.
    pub fn new(kept: u32, moments: u32) -> Mark
        ensures { result ≡ mark_of kept moments }
    {
        if kept == 0 {
            return Mark::NoneKept;
        }
        if kept == moments {
            return Mark::AllKept;
        }
        Mark::SomeKept
    }
}

impl fmt::Display for Mark {
    fn fmt<W: fmt::Write>(&self, f: &mut fmt::Formatter<W>) -> fmt::Result {
        f.write_str(match self {
            Mark::AllKept => "#",
            Mark::SomeKept => "+",
            Mark::NoneKept => ".",
        })
    }
}
