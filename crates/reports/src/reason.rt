//! Why a policy keeps a moment or gives it up.
ghost use Rattle.std.specs.Prelude.{◌≡◌};
ghost use Rattle.policies.specs.Retentions.{kept_by};
ghost use Rattle.reports.specs.Grounds.{grounds_of, kept_on};

use policies::retention::Retention;
use std::fmt;
use values::moment::Moment;

/// What decides whether a moment is kept.
#[derive(Clone, Copy, PartialEq, Eq, Debug)]
pub enum Grounds {
    /// The moment is above the present one.
    AfterNow,
    /// Everything up to the present is kept.
    KeepsAll,
    /// Moment 0 is always kept.
    KeepsZero,
    /// A window keeps ages up to its length.
    WithinWindow {
        age: u32,
        length: u32,
    },
    /// Halving keeps ages up to a limit: its reach, doubled for each zero bit at the low end
    /// of the moment's number.
    WithinReach {
        age: u32,
        reach: u32,
        zeros: u32,
        limit: u32,
    },
}

impl Grounds {
    /// The grounds of a policy's verdict on a moment.
    pub fn new(retention: Retention, t: Moment, present: Moment) -> Grounds
        ensures grounds { result ≡ grounds_of retention t.value present.value }
        ensures verdict { kept_on result ≡ kept_by retention t.value present.value }
    {
        if t > present {
            return Grounds::AfterNow;
        }
        let age = present.number() - t.number();
        match retention {
            Retention::All => Grounds::KeepsAll,
            Retention::Window(window) => Grounds::WithinWindow {
                age,
                length: window.length(),
            },
            Retention::Halving(halving) => match halving.limit(t) {
                Some(limit) => Grounds::WithinReach {
                    age,
                    reach: halving.reach(),
                    zeros: t.number().trailing_zeros(),
                    limit,
                },
                None => Grounds::KeepsZero,
            },
        }
    }

    /// Whether the moment is kept on these grounds.
    pub fn keep(self) -> bool
        ensures { result ≡ kept_on self }
    {
        match self {
            Grounds::AfterNow => false,
            Grounds::KeepsAll | Grounds::KeepsZero => true,
            Grounds::WithinWindow { age, length } => age <= length,
            Grounds::WithinReach { age, limit, .. } => age <= limit,
        }
    }
}

/// A sentence that says whether a moment is kept and why, as
/// `12 is given up: 40 - 12 = 28 is above 2 x 2^2 = 8`.
#[derive(Clone, Copy)]
pub struct Reason {
    moment: Moment,
    present: Moment,
    grounds: Grounds,
}

impl Reason {
    /// Why the policy keeps or gives up the moment `t` at `present`.
    pub fn new(retention: Retention, t: Moment, present: Moment) -> Reason
        ensures moment { result.moment.value ≡ t.value }
        ensures present { result.present.value ≡ present.value }
        ensures grounds { result.grounds ≡ grounds_of retention t.value present.value }
    {
        Reason {
            moment: t,
            present,
            grounds: Grounds::new(retention, t, present),
        }
    }
}

impl fmt::Display for Reason {
    fn fmt<W: fmt::Write>(&self, f: &mut fmt::Formatter<W>) -> fmt::Result {
        let t = self.moment.number();
        let present = self.present.number();
        let kept = self.grounds.keep();
        let verdict = if kept { "kept" } else { "given up" };
        let stands = if kept { "at most" } else { "above" };
        match self.grounds {
            Grounds::AfterNow => write!(f, "{t} is not kept: it comes after now, {present}"),
            Grounds::KeepsAll => write!(f, "{t} is {verdict}: every moment up to now is"),
            Grounds::KeepsZero => write!(f, "{t} is {verdict}: halving always keeps moment 0"),
            Grounds::WithinWindow { age, length } => {
                write!(
                    f,
                    "{t} is {verdict}: {present} - {t} = {age} is {stands} {length}"
                )
            }
            Grounds::WithinReach {
                age,
                reach,
                zeros,
                limit,
            } => {
                write!(
                    f,
                    "{t} is {verdict}: {present} - {t} = {age} is {stands} {reach} x 2^{zeros} = {limit}"
                )
            }
        }
    }
}
