//! Stretches of moments, their parts, and how a picture marks them.
ghost use Rattle.std.specs.Prelude.{◌≡◌, ◌+◌, ◌-◌, ◌≤◌};
ghost use Rattle.std.specs.Option.{option_map};
ghost use Rattle.reports.specs.Counts.{count_kept};
ghost use Rattle.reports.specs.Marks.{stretch_mark};
ghost use Rattle.reports.specs.Stretches.{stretch_between, column_width, column_of, ages_of, ColumnsHoldEachOnce, RowsHoldEachOnce};

use crate::mark::Mark;
use policies::policy::Policy;
use values::moment::Moment;

/// One or more moments, from a first to a last.
#[derive(Clone, Copy)]
pub struct Stretch {
    first: Moment,
    last: Moment,
    ghost ordered: { first.value ≤ last.value },
}

impl Stretch {
    /// All moments up to one.
    pub fn up_to(last: Moment) -> Stretch
        ensures first { result.first.value ≡ 0 }
        ensures last { result.last.value ≡ last.value }
    {
        Stretch {
            first: Moment::ZERO,
            last,
        }
    }

    // The moments from one number to another, or none where the numbers give no stretch.
    fn between(first: u32, last: u32) -> Option<Stretch>
        ensures { option_map (λ s. (s.first.value, s.last.value)) result ≡ stretch_between first last }
    {
        if first > last {
            return None;
        }
        let last = Moment::try_from(last).ok()?;
        let first = Moment::try_from(first).ok()?;
        Some(Stretch { first, last })
    }

    /// The moments whose ages at `present` stand in one row of a table: age 0 in row 0, and ages
    /// from 2^(row - 1) to 2^row - 1 in each later row. None where no moment is that old.
    pub fn ages(row: u32, present: Moment) -> Option<Stretch>
        ensures { option_map (λ s. (s.first.value, s.last.value)) result ≡ ages_of row present.value }
    {
        if row == 0 {
            return Some(Stretch {
                first: present,
                last: present,
            });
        }
        let youngest = 1u32.checked_shl(row - 1)?;
        let last = present.number().checked_sub(youngest)?;
        let oldest = 2 * youngest - 1;
        Stretch::between(present.number().saturating_sub(oldest), last)
    }

    /// The age of its last moment, 0 where that is above `present`.
    pub fn youngest(self, present: Moment) -> u32
        ensures { result ≡ present.value - self.last.value }
    {
        present.number().saturating_sub(self.last.number())
    }

    /// The age of its first moment, 0 where that is above `present`.
    pub fn oldest(self, present: Moment) -> u32
        ensures { result ≡ present.value - self.first.value }
    {
        present.number().saturating_sub(self.first.number())
    }

    /// How many moments the stretch has.
    pub fn moments(self) -> u32
        ensures { result ≡ self.last.value + 1 - self.first.value }
    {
        self.last.number() - self.first.number() + 1
    }

    /// How many moments stand in each column, where the stretch is drawn in at most so many.
    pub fn column_width(self, columns: u32) -> u32
        ensures { result ≡ column_width columns self.first.value self.last.value }
    {
        self.moments().div_ceil(columns.max(1))
    }

    /// The moments in one column, counted from 0, or none where the columns before it hold all.
    pub fn column(self, index: u32, columns: u32) -> Option<Stretch>
        ensures { option_map (λ s. (s.first.value, s.last.value)) result ≡ column_of index columns self.first.value self.last.value }
    {
        let width = self.column_width(columns);
        let first = self
            .first
            .number()
            .saturating_add(index.saturating_mul(width));
        let last = self.last.number().min(first.saturating_add(width - 1));
        Stretch::between(first, last)
    }

    // The policy and the present moment stay two parameters here and below, as `Policy` takes them:
    // a struct of the two would only be taken apart again.

    /// How many of its moments the policy keeps at `present`.
    pub fn kept<P: Policy>(self, policy: &P, present: Moment) -> u32
        ensures { result ≡ count_kept (λ t. P.Policy.kept policy.now t present.value) self.first.value self.last.value }
    {
        // Not `..=`: the library has no lemma on what a chain over it gives. And a sum of ones, not
        // `filter(..).count()`: that searches for each kept moment anew, which takes several times as
        // long where most are kept.
        let numbers = self.first.number()..self.last.number() + 1;
        numbers
            .map(|number| {
                let kept = Moment::try_from(number).is_ok_and(|t| policy.keeps(t, present));
                u32::from(kept)
            })
            .sum()
    }

    /// How many of its moments the policy does not keep at `present`.
    pub fn given_up<P: Policy>(self, policy: &P, present: Moment) -> u32
        ensures { result ≡ self.last.value + 1 - self.first.value - count_kept (λ t. P.Policy.kept policy.now t present.value) self.first.value self.last.value }
    {
        self.moments().saturating_sub(self.kept(policy, present))
    }

    /// How a picture of what the policy keeps at `present` marks the stretch.
    pub fn mark<P: Policy>(self, policy: &P, present: Moment) -> Mark
        ensures { result ≡ stretch_mark (λ t. P.Policy.kept policy.now t present.value) self.first.value self.last.value }
    {
        Mark::new(self.kept(policy, present), self.moments())
    }
}

/// States that a picture leaves no moment out and shows none twice: each stands in exactly one
/// column, and in exactly one row of the table of ages.
pub fn pictures_show_each_moment_once()
    ensures columns { ColumnsHoldEachOnce }
    ensures rows { RowsHoldEachOnce }
{}
