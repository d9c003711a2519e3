//! The slot store.
ghost use Rattle.std.specs.Prelude.{◌≡◌, ◌<◌, length, IfSome, Some, None, OnErr, OnOk};
ghost use Rattle.stores.specs.Calls.{Appends, Drops};
ghost use Rattle.stores.specs.Contents.{emptied, entry, standing_of};
ghost use Rattle.stores.specs.Laws.{Lawful};
ghost use Rattle.entry_layout.specs.Layout.{capacity_of};
ghost use Rattle.slot_store.specs.Meaning.{contents_of, Sound, Filled, Freed, Zeroed};
ghost use Rattle.slot_store.specs.Search.{Finds, NearestIsFound, going_round, holds, likely_slot};
ghost use Rattle.slot_store.specs.Slots.{slots_of, slotted, tail_of, zeroed_slots};

use crate::search::slot_from;
use entry_layout::capacity::{MAX_ENTRY_LENGTH, capacity_of};
use entry_layout::entry::{EntryRef, read_entry};
use entry_layout::parts::fill_zero;
use std::marker::Model;
use stores::admission::Standing;
use stores::store::Store;
use values::refusal::Refusal;

/// Entries in slots of 69 bytes each, in bytes that the caller lends. What no entry covers is zero.
/// Bytes behind the slots are never touched.
#[derive(Drop)]
pub struct SlotStore<'a> {
    bytes: &'a mut [u8],
    held: usize,
    last: u32,
    next: usize,
}

impl<'a> Model for SlotStore<'a> {
    ghost use Rattle.slot_store.specs.Meaning.{SlotState, Sound};

    ghost Value = { SlotState };

    ghost use Rattle.slot_store.specs.State.{state_of};

    ghost view = { state_of };

    ghost invariant = { λ s. Sound (state_of s) };
}

impl<'a> SlotStore<'a> {
    /// An empty store in these bytes.
    pub fn new(bytes: &'a mut [u8]) -> SlotStore<'a>
        ensures contents { contents_of result ≡ emptied (capacity_of (length bytes.old)) }
        ensures sound { Sound result }
        ensures lawful { Lawful (contents_of result) }
        ensures bytes { result.bytes.now ≡ zeroed_slots bytes.old }
        ensures next { result.next ≡ 0 }
    {
        // As in the packed log, here and in `clear` and `standing`: each store sets and reads fields of its
        // own, and what they share is `fill_zero` and `Standing`.
        let end = capacity_of(bytes.len()) * MAX_ENTRY_LENGTH;
        fill_zero(bytes, 0, end);
        SlotStore {
            bytes,
            held: 0,
            last: 0,
            next: 0,
        }
    }

    /// The lent bytes as they stand.
    pub fn bytes(&self) -> &[u8]
        ensures value { result.now ≡ self.now.bytes.now }
        ensures laid { result.now ≡ slotted (slots_of result.now) (tail_of result.now) }
    {
        self.bytes
    }

    // Where the store stands, as far as appending goes.
    fn standing(&self) -> Standing
        ensures { result ≡ standing_of (contents_of self.now) }
    {
        Standing {
            held: self.held,
            last: self.last,
            capacity: self.capacity(),
        }
    }

    // The next free slot above the one filled last, going round.
    fn free_slot(&self) -> Option<usize>
        ensures place { result ≡ going_round (holds None) self.now.next (slots_of self.now.bytes.now) }
        ensures within { IfSome result (λ slot. slot < capacity_of (length self.now.bytes.now)) }
    {
        slot_from(self.bytes, None, self.next)
    }

    // Where the entry with this number stands if no slot was passed over since it was appended: as
    // far below the slot filled last as its number is below the last number, going round.
    fn likely_slot(&self, number: u32) -> usize
        ensures { result ≡ likely_slot number self.now.last self.now.next (capacity_of (length self.now.bytes.now)) }
    {
        let behind = self.last.saturating_sub(number) as usize;
        let newest = self.next.saturating_sub(1);
        if behind <= newest {
            return newest - behind;
        }
        self.capacity().saturating_sub(behind - newest)
    }

    // The slot of the entry with this number.
    fn slot_of(&self, number: u32) -> Option<usize>
        ensures place { result ≡ going_round (holds (Some number)) (likely_slot number self.now.last self.now.next (capacity_of (length self.now.bytes.now))) (slots_of self.now.bytes.now) }
        ensures finds { Finds number (slots_of self.now.bytes.now) result }
        ensures within { IfSome result (λ slot. slot < capacity_of (length self.now.bytes.now)) }
    {
        let start = self.likely_slot(number);
        slot_from(self.bytes, Some(number), start)
    }
}

/// States that the search by which a slot is chosen finds the nearest one, going round: none that is
/// met before it passes.
pub fn nearest_is_found()
    ensures { NearestIsFound }
{}

impl Store for SlotStore<'_> {
    ghost contents = { contents_of };

    ghost sound = { Sound };

    ghost lawful = { λ s h. h.lawful };

    fn held(&self) -> usize {
        self.held
    }

    fn capacity(&self) -> usize {
        capacity_of(self.bytes.len())
    }

    fn append(&mut self, number: u32, block: &[u8]) -> Result<(), Refusal>
        ensures appends { Appends number block.now (contents_of self.old) (contents_of self.new) result }
        ensures sound { Sound self.new }
        ensures lawful { Lawful (contents_of self.new) }
        ensures filled { OnOk result (Filled (entry number block.now) self.old self.new) }
        ensures same { OnErr result (self.new ≡ self.old) }
    {
        self.standing().admit(number, block)?;
        let slot = self.free_slot().ok_or(Refusal::StoreFull)?;
        EntryRef { number, block }.write(self.bytes, slot * MAX_ENTRY_LENGTH);
        self.held += 1;
        self.last = number;
        self.next = slot + 1;
        Ok(())
    }

    fn read(&self, number: u32, buffer: &mut [u8]) -> Result<usize, Refusal> {
        let place = self.slot_of(number).map(|slot| slot * MAX_ENTRY_LENGTH);
        read_entry(self.bytes, place, buffer)
    }

    fn drop_entry(&mut self, number: u32) -> Result<(), Refusal>
        ensures drops { Drops number (contents_of self.old) (contents_of self.new) result }
        ensures sound { Sound self.new }
        ensures lawful { Lawful (contents_of self.new) }
        ensures freed { OnOk result (Freed number self.old self.new) }
        ensures same { OnErr result (self.new ≡ self.old) }
    {
        let slot = self.slot_of(number).ok_or(Refusal::NoSuchEntry)?;
        let at = slot * MAX_ENTRY_LENGTH;
        fill_zero(self.bytes, at, at + MAX_ENTRY_LENGTH);
        self.held -= 1;
        Ok(())
    }

    fn clear(&mut self)
        ensures cleared { contents_of self.new ≡ emptied (contents_of self.old).capacity }
        ensures sound { Sound self.new }
        ensures lawful { Lawful (contents_of self.new) }
        ensures zeroed { Zeroed self.old self.new }
    {
        let end = self.capacity() * MAX_ENTRY_LENGTH;
        fill_zero(self.bytes, 0, end);
        self.held = 0;
        self.last = 0;
        self.next = 0;
    }
}
