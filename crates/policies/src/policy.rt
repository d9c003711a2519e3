//! What a retention policy means.
ghost use Rattle.std.specs.Prelude.{◌≡◌, ℕ, suc, ◌<◌, ◌≤◌, Bool, true, false, is_some, nat_le};
ghost use Rattle.std.specs.Option.{option_map};
ghost use Rattle.policies.specs.FirstKept.{first_kept, FirstKeptIsLeast};
ghost use Rattle.policies.specs.Kept.{GivenUpForGood};

use values::moment::Moment;

/// Decides which moments are kept.
pub trait Policy {
    /// Whether the moment `t` is kept when the present moment is `m`.
    ghost kept: { Self → (t m : ℕ) → Bool };

    /// Whether `t` is kept at `present`.
    fn keeps(&self, t: Moment, present: Moment) -> bool
        ensures { result ≡ kept self.now t.value present.value };

    /// The least kept moment that is not below `from`, or none where `from` is above `present`.
    fn first_kept(&self, from: Moment, present: Moment) -> Option<Moment>
        ensures least { option_map (λ t. t.value) result ≡ first_kept (λ t. kept self.now t present.value) from.value present.value }
        ensures found { is_some result ≡ nat_le from.value present.value };

    /// The present moment is kept.
    ghost present: { (p : Self) (m : ℕ) → kept p m m ≡ true };

    /// What is kept later was kept before: a moment that is given up stays given up.
    ghost lasting: { (p : Self) (t m : ℕ) → t ≤ m → kept p t (suc m) ≡ true → kept p t m ≡ true };

    /// Nothing above the present moment is kept.
    ghost bounded: { (p : Self) (t m : ℕ) → m < t → kept p t m ≡ false };
}

/// States that what the contract of [`Policy::first_kept`] equates its answer with is the least kept
/// moment of a stretch of moments, and none only where no moment of the stretch is kept.
pub fn first_kept_is_least()
    ensures { FirstKeptIsLeast }
{}

/// States that a moment that a policy has given up stays given up, however far the present moves on.
pub fn given_up_for_good<P: Policy>(policy: &P)
    ensures { GivenUpForGood (P.Policy.kept policy.now) }
{}
