//! Name keys: the places of names.
ghost use Rattle.std.specs.Prelude.{◌≡◌};
ghost use Rattle.values.specs.Answers.{answer};
ghost use Rattle.names.specs.Packing.{repacking};
ghost use Rattle.keys.specs.NameKeys.{name_key_order, NamesInByteOrder};
ghost use Rattle.std.proofs.Common.{rules};

use crate::key::Key;
use crate::order::Ordered;
use names::name::Name;
use names::packed_name::PackedName;
use values::object::Object;
use values::refusal::Refusal;

/// The place of a name: a directory and a packed name. Name keys stand in order of their
/// directories, and within a directory in byte order of their names.
#[derive(Clone, Copy, PartialEq, Eq, PartialOrd, Ord, Debug)]
pub struct NameKey {
    pub directory: u16,
    pub name: PackedName,
}

impl NameKey {
    /// The key of a name in a directory.
    pub fn new(directory: u16, name: Name) -> NameKey
        ensures { result ≡ record { directory = directory; name = name.packed } }
    {
        NameKey {
            directory,
            name: name.into(),
        }
    }

    /// The name in the key, made again from its packed form by a check.
    pub fn name(&self) -> Result<Name, Refusal>
        ensures { answer (λ n. (n.packed.high, n.packed.low)) result ≡ repacking self.now.name.high self.now.name.low }
    {
        Name::try_from(self.name)
    }
}

impl Ordered for NameKey {
    ghost order = { name_key_order };

    ghost compares = { Prim.search rules };

    ghost lawful = { Prim.search rules };
}

/// A name key leads to an object with its kind.
impl Key for NameKey {
    type Value = Object;
}

/// States that the order of name keys, which compares packed names, is the byte order of the names.
pub fn names_stand_in_byte_order()
    ensures { NamesInByteOrder }
{}
