//! Names as two numbers.
ghost use Rattle.std.specs.Prelude.{◌≡◌};
ghost use Rattle.values.specs.BigEndian.{big_endian};
ghost use Rattle.names.specs.Packing.{high_of, low_of, pair_bytes, is_packed};

use crate::name_rule::{MAX_NAME_LENGTH, is_name};
use values::bytes::place_of;

// How many bytes each of the two numbers holds.
const HALF: usize = 8;

/// Sixteen bytes as two numbers, the first byte most significant: a name, and zeros behind its last
/// byte. Not every pair of numbers packs a name.
#[derive(Clone, Copy, PartialEq, Eq, PartialOrd, Ord, Debug)]
pub struct PackedName {
    /// The first eight bytes.
    pub high: u64,
    /// The last eight bytes.
    pub low: u64,
}

// The first eight bytes as one number, the first most significant, with zeros for missing ones.
fn pack_front(bytes: &[u8]) -> u64
    ensures { result ≡ big_endian 8 bytes.now }
{
    let length = bytes.len().min(HALF);
    let mut padded = [0u8; HALF];
    padded[..length].copy_from_slice(&bytes[..length]);
    u64::from_be_bytes(padded)
}

// The bytes behind the eighth as one number, in the same way.
fn pack_back(bytes: &[u8]) -> u64
    ensures { result ≡ low_of bytes.now }
{
    bytes.get(HALF..).map_or(0, pack_front)
}

impl PackedName {
    /// Packs the first sixteen bytes, with zeros for missing ones.
    pub fn pack(bytes: &[u8]) -> PackedName
        ensures { result ≡ record { high = high_of bytes.now; low = low_of bytes.now } }
    {
        PackedName {
            high: pack_front(bytes),
            low: pack_back(bytes),
        }
    }

    /// The sixteen bytes.
    pub fn bytes(self) -> [u8; MAX_NAME_LENGTH]
        ensures { result ≡ pair_bytes self.high self.low }
    {
        let mut bytes = [0u8; MAX_NAME_LENGTH];
        bytes[..HALF].copy_from_slice(&self.high.to_be_bytes());
        bytes[HALF..].copy_from_slice(&self.low.to_be_bytes());
        bytes
    }

    /// Whether the two numbers are what a name packs to.
    pub fn is_name(self) -> bool
        ensures { result ≡ is_packed self.high self.low }
    {
        let bytes = self.bytes();
        let name = &bytes[..place_of(0, &bytes)];
        is_name(name) && PackedName::pack(name) == self
    }
}
