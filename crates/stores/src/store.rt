//! What a store means.
ghost use Rattle.std.specs.Prelude.{◌≡◌, length};
ghost use Rattle.stores.specs.Calls.{Appends, Reads, Drops};
ghost use Rattle.stores.specs.Contents.{Contents, emptied};
ghost use Rattle.stores.specs.Laws.{Lawful, EntriesAreKept};

use values::refusal::Refusal;

/// Keeps blocks of 1 to 64 bytes, each under a number of its own.
///
/// What a store keeps true of itself is the invariant of its type, so each clause below holds of
/// every call. Generic code does not see an invariant: `sound` stands for it there, and each call
/// that alters a store promises it of what it leaves.
pub trait Store {
    /// What the store holds: its entries by rising number, the last number accepted, and how many
    /// entries it has room for.
    ghost contents: { Self → Contents };

    /// What the store keeps true of itself.
    ghost sound: { Self → Type 0 };

    /// What holds of the contents of every sound store.
    ghost lawful: { (s : Self) → sound s → Lawful (contents s) };

    /// How many entries the store holds.
    fn held(&self) -> usize
        ensures count { result ≡ length (contents self.now).held }
        ensures lawful { Lawful (contents self.now) };

    /// How many entries the store has room for.
    fn capacity(&self) -> usize
        ensures room { result ≡ (contents self.now).capacity }
        ensures lawful { Lawful (contents self.now) };

    /// Adds an entry. Its number must be above every number accepted so far.
    fn append(&mut self, number: u32, block: &[u8]) -> Result<(), Refusal>
        ensures appends { Appends number block.now (contents self.old) (contents self.new) result }
        ensures sound { sound self.new }
        ensures lawful { Lawful (contents self.new) };

    /// Writes the entry's block to the front of the buffer and answers its length. The buffer is the
    /// caller's, as all memory of a vault is.
    fn read(&self, number: u32, buffer: &mut [u8]) -> Result<usize, Refusal>
        ensures { Reads number (contents self.now) buffer.old buffer.new result };

    /// Takes the entry out. Its number is not accepted again.
    fn drop_entry(&mut self, number: u32) -> Result<(), Refusal>
        ensures drops { Drops number (contents self.old) (contents self.new) result }
        ensures sound { sound self.new }
        ensures lawful { Lawful (contents self.new) };

    /// Takes every entry out and begins again, as after making.
    fn clear(&mut self)
        ensures cleared { contents self.new ≡ emptied (contents self.old).capacity }
        ensures sound { sound self.new }
        ensures lawful { Lawful (contents self.new) };
}

/// States what becomes of blocks: an appended one is read back until it is dropped, and neither an
/// append nor a drop alters what is read of any other number.
pub fn entries_are_kept()
    ensures { EntriesAreKept }
{}
