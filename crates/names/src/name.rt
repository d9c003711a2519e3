//! Names of files and directories.
ghost use Rattle.std.specs.Prelude.{◌≡◌, true, is_ok, IfOk, if◌then◌else◌};
ghost use Rattle.values.specs.Answers.{answer};
ghost use Rattle.values.specs.Bytes.{over_front};
ghost use Rattle.names.specs.ByteOrder.{byte_order};
ghost use Rattle.names.specs.Packing.{spelled, is_packed, packing, repacking, unpacking};

use crate::name_rule::{MAX_NAME_LENGTH, is_name};
use crate::packed_name::PackedName;
use values::bytes::place_of;
use values::refusal::Refusal;

/// A name of 1 to 16 bytes, packed into two numbers. Names stand in the order of their bytes, a
/// shorter name before a longer one that begins with it.
#[derive(Clone, Copy, PartialEq, Eq, PartialOrd, Ord, Debug)]
pub struct Name {
    packed: PackedName,
    ghost packs: { is_packed packed.high packed.low ≡ true },
}

impl Name {
    /// Writes the name's bytes to the front of the buffer and answers how many there are. The buffer
    /// is the caller's, as all memory of a vault is.
    pub fn unpack(self, buffer: &mut [u8]) -> Result<usize, Refusal>
        ensures answers { answer (λ n. n) result ≡ unpacking (spelled self.packed.high self.packed.low) buffer.old }
        ensures writes { buffer.new ≡ (if is_ok result then over_front (spelled self.packed.high self.packed.low) buffer.old else buffer.old) }
    {
        if buffer.len() < MAX_NAME_LENGTH {
            return Err(Refusal::BufferTooShort);
        }
        let bytes = self.packed.bytes();
        let length = place_of(0, &bytes);
        buffer[..length].copy_from_slice(&bytes[..length]);
        Ok(length)
    }
}

/// The name with these bytes.
impl TryFrom<&[u8]> for Name {
    type Error = Refusal;

    ghost try_from_gives = { λ bytes r. (answer (λ n. (n.packed.high, n.packed.low)) r ≡ packing bytes.now) × IfOk r (λ n. spelled n.packed.high n.packed.low ≡ bytes.now) };

    fn try_from(bytes: &[u8]) -> Result<Name, Refusal> {
        if !is_name(bytes) {
            return Err(Refusal::InvalidName);
        }
        Ok(Name {
            packed: PackedName::pack(bytes),
        })
    }
}

/// The name that packs to these numbers.
impl TryFrom<PackedName> for Name {
    type Error = Refusal;

    ghost try_from_gives = { λ packed r. answer (λ n. (n.packed.high, n.packed.low)) r ≡ repacking packed.high packed.low };

    fn try_from(packed: PackedName) -> Result<Name, Refusal> {
        if !packed.is_name() {
            return Err(Refusal::InvalidName);
        }
        Ok(Name { packed })
    }
}

impl From<Name> for PackedName {
    ghost from_gives = { λ name packed. packed ≡ name.packed };

    fn from(name: Name) -> PackedName {
        name.packed
    }
}

/// States that the order of names, which compares their two numbers, is the order of their bytes.
pub fn names_compare_by_bytes()
    ensures { (x y : Name) → ⟦<Name as Ord>⟧.cmp x y ≡ byte_order (spelled x.packed.high x.packed.low) (spelled y.packed.high y.packed.low) }
{}
