//! The packed log.
ghost use Rattle.std.specs.Prelude.{◌≡◌, ◌++◌, length, drop, replicate, OnErr};
ghost use Rattle.std.specs.Option.{option_map};
ghost use Rattle.stores.specs.Calls.{Appends, Drops};
ghost use Rattle.stores.specs.Contents.{emptied, standing_of};
ghost use Rattle.stores.specs.Laws.{Lawful};
ghost use Rattle.entry_layout.specs.Layout.{capacity_of};
ghost use Rattle.packed_log.specs.Log.{packed, room, found_from};
ghost use Rattle.packed_log.specs.Meaning.{contents_of, Sound, Laid};
ghost use Rattle.packed_log.specs.Walk.{placed};

use crate::moves::take_out;
use crate::walk::Entries;
use entry_layout::capacity::{HEADER_LENGTH, MAX_ENTRY_LENGTH, capacity_of};
use entry_layout::entry::{EntryRef, read_entry};
use entry_layout::parts::fill_zero;
use std::marker::Model;
use stores::admission::Standing;
use stores::store::Store;
use values::refusal::Refusal;

/// Entries end to end by rising number, in bytes that the caller lends, with zeros behind the last.
/// Dropping one moves the later ones down. Bytes behind the room for its capacity are never touched.
#[derive(Drop)]
pub struct PackedLog<'a> {
    bytes: &'a mut [u8],
    held: usize,
    last: u32,
    used: usize,
}

impl<'a> Model for PackedLog<'a> {
    ghost use Rattle.packed_log.specs.Meaning.{LogState, Sound};

    ghost Value = { LogState };

    ghost use Rattle.packed_log.specs.State.{state_of};

    ghost view = { state_of };

    ghost invariant = { λ s. Sound (state_of s) };
}

impl<'a> PackedLog<'a> {
    /// An empty log in these bytes.
    pub fn new(bytes: &'a mut [u8]) -> PackedLog<'a>
        ensures contents { contents_of result ≡ emptied (capacity_of (length bytes.old)) }
        ensures sound { Sound result }
        ensures lawful { Lawful (contents_of result) }
        ensures bytes { result.bytes.now ≡ replicate (room bytes.old) 0 ++ drop (room bytes.old) bytes.old }
    {
        // As in the slot store, here and in `clear` and `standing`: each store sets and reads fields of its
        // own, and what they share is `fill_zero` and `Standing`.
        let end = capacity_of(bytes.len()) * MAX_ENTRY_LENGTH;
        fill_zero(bytes, 0, end);
        PackedLog {
            bytes,
            held: 0,
            last: 0,
            used: 0,
        }
    }

    /// The lent bytes as they stand.
    pub fn bytes(&self) -> &[u8]
        ensures value { result.now ≡ self.now.bytes.now }
        ensures laid { result.now ≡ packed (room result.now) (contents_of self.now).held (drop (room result.now) result.now) }
    {
        self.bytes
    }

    fn standing(&self) -> Standing
        ensures { result ≡ standing_of (contents_of self.now) }
    {
        Standing {
            held: self.held,
            last: self.last,
            capacity: self.capacity(),
        }
    }

    // The entry with this number, and the place where it begins.
    fn find(&self, number: u32) -> Option<(usize, EntryRef<'_>)>
        ensures { option_map placed result ≡ found_from number 0 (contents_of self.now).held }
    {
        Entries::new(self.bytes, self.held).find(|(_, entry)| entry.number == number)
    }
}

impl Store for PackedLog<'_> {
    ghost contents = { contents_of };

    ghost sound = { Sound };

    ghost lawful = { λ s h. h.lawful };

    fn held(&self) -> usize {
        self.held
    }

    fn capacity(&self) -> usize {
        capacity_of(self.bytes.len())
    }

    fn append(&mut self, number: u32, block: &[u8]) -> Result<(), Refusal>
        ensures appends { Appends number block.now (contents_of self.old) (contents_of self.new) result }
        ensures sound { Sound self.new }
        ensures lawful { Lawful (contents_of self.new) }
        ensures bytes { Laid self.old self.new }
        ensures same { OnErr result (self.new ≡ self.old) }
    {
        self.standing().admit(number, block)?;
        EntryRef { number, block }.write(self.bytes, self.used);
        self.used += HEADER_LENGTH + block.len();
        self.held += 1;
        self.last = number;
        Ok(())
    }

    fn read(&self, number: u32, buffer: &mut [u8]) -> Result<usize, Refusal> {
        let at = self.find(number).map(|(at, _)| at);
        read_entry(self.bytes, at, buffer)
    }

    fn drop_entry(&mut self, number: u32) -> Result<(), Refusal>
        ensures drops { Drops number (contents_of self.old) (contents_of self.new) result }
        ensures sound { Sound self.new }
        ensures lawful { Lawful (contents_of self.new) }
        ensures bytes { Laid self.old self.new }
        ensures same { OnErr result (self.new ≡ self.old) }
    {
        let (at, entry) = self.find(number).ok_or(Refusal::NoSuchEntry)?;
        let size = entry.size();
        take_out(self.bytes, at, size, self.used);
        self.used -= size;
        self.held -= 1;
        Ok(())
    }

    fn clear(&mut self)
        ensures cleared { contents_of self.new ≡ emptied (contents_of self.old).capacity }
        ensures sound { Sound self.new }
        ensures lawful { Lawful (contents_of self.new) }
        ensures bytes { Laid self.old self.new }
    {
        let end = self.capacity() * MAX_ENTRY_LENGTH;
        fill_zero(self.bytes, 0, end);
        self.held = 0;
        self.last = 0;
        self.used = 0;
    }
}
