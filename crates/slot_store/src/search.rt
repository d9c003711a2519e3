//! Searches among slots.
ghost use Rattle.std.specs.Prelude.{◌≡◌, ◌*◌, ◌-◌, ◌<◌, ◌≤◌, drop, length, IfSome};
ghost use Rattle.std.specs.List.{find, range_with_len};
ghost use Rattle.entry_layout.specs.Layout.{capacity_of, entry_in};
ghost use Rattle.slot_store.specs.Search.{going_round, holds};
ghost use Rattle.slot_store.specs.Slots.{slots_of};

use entry_layout::capacity::{MAX_ENTRY_LENGTH, capacity_of};
use entry_layout::entry::entry_at;

// Whether a slot holds the number sought, or is free where none is sought.
fn slot_holds(bytes: &[u8], slot: usize, sought: Option<u32>) -> bool
    requires { slot < 4096 }
    ensures { result ≡ holds sought (entry_in (drop (slot * 69) bytes.now)) }
{
    entry_at(bytes, slot * MAX_ENTRY_LENGTH).map(|entry| entry.number) == sought
}

// The first slot of a range that holds the number sought, or is free where none is sought.
fn first_slot(bytes: &[u8], sought: Option<u32>, from: usize, to: usize) -> Option<usize>
    requires { to ≤ 4096 }
    ensures { result ≡ find (λ slot. holds sought (entry_in (drop (slot * 69) bytes.now))) (range_with_len from (to - from)) }
{
    (from..to).find(|&slot| slot_holds(bytes, slot, sought))
}

// The first slot, from `start` on and round to the front, that holds the number sought, or is free
// where none is sought.
pub fn slot_from(bytes: &[u8], sought: Option<u32>, start: usize) -> Option<usize>
    ensures place { result ≡ going_round (holds sought) start (slots_of bytes.now) }
    ensures within { IfSome result (λ slot. slot < capacity_of (length bytes.now)) }
{
    let count = capacity_of(bytes.len());
    let below = start.min(count);
    // Not one search over a chain of both ranges: such a chain takes up to twice as long.
    first_slot(bytes, sought, start, count).or_else(|| first_slot(bytes, sought, 0, below))
}
