//! Versions of what a key leads to.
ghost use Rattle.std.specs.Prelude.{◌≡◌};
ghost use Rattle.keys.specs.Sees.{sees};

/// A version: what a key led to from its first moment on, up to its end moment if it has ended.
#[derive(Clone, Copy, PartialEq, Eq, Debug)]
pub struct Version<K, V> {
    pub key: K,
    pub value: V,
    pub first: u32,
    pub end: Option<u32>,
}

impl<K, V> Version<K, V> {
    /// Whether the moment sees this version: it has begun by then and has not ended.
    pub fn is_seen_at(&self, moment: u32) -> bool
        ensures { result ≡ sees self.now.first self.now.end moment }
    {
        let ended = self.end.is_some_and(|end| end <= moment);
        self.first <= moment && !ended
    }
}
