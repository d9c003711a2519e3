//! Things that stand in an order.
ghost use Rattle.std.specs.Prelude.{◌≡◌};
ghost use Rattle.std.specs.declared.cmp.Ordering.{Ordering};
ghost use Rattle.keys.specs.Order.{OrderLaws};

/// A type whose values stand in one order, in which only equal values are the same.
pub trait Ordered: Ord {
    /// How the first value stands to the second.
    ghost order: { Self → Self → Ordering };

    /// Comparing two values answers how they stand.
    ghost compares: { (x y : Self) → Self.cmp x y ≡ order x y };

    /// Only equal values are the same in order, turning a comparison round reverses its answer,
    /// and the order is transitive.
    ghost lawful: { OrderLaws Self.cmp };
}
