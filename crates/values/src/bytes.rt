//! Searches in bytes.
ghost use Rattle.std.specs.Prelude.{◌≡◌, ◌≤◌, length};
ghost use Rattle.values.specs.Bytes.{place_of};

/// The place of the first such byte, or the length where there is none.
pub fn place_of(byte: u8, bytes: &[u8]) -> usize
    ensures place { result ≡ place_of byte bytes.now }
    ensures within { result ≤ length bytes.now }
{
    bytes
        .iter()
        .position(|other| *other == byte)
        .unwrap_or(bytes.len())
}
