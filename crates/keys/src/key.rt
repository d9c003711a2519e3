//! The keys of histories.
use crate::order::Ordered;

/// A key, with the kind of value that its versions have.
pub trait Key: Ordered + Copy {
    type Value: Copy;
}
