//! What a caller of a store over lent bytes can rely on, each as a contract that the contracts of
//! the stores, or of [`Store`] alone, prove without a proof file.
ghost use Rattle.std.specs.Prelude.{◌≡◌, OnErr, length};
ghost use Rattle.stores.specs.Laws.{Lawful};
ghost use Rattle.slot_store.specs.Meaning.{contents_of};
ghost use Rattle.slot_store.specs.Slots.{slots_of, slotted, tail_of};
ghost use Rattle.packed_log.specs.Log.{packed_length};
ghost use Rattle.packed_log.specs.Meaning.{contents_of as log_contents};

use packed_log::log::PackedLog;
use slot_store::slots::SlotStore;
use stores::store::Store;
use values::refusal::Refusal;

/// A refused append leaves the store with the reference by which its bytes are lent.
pub fn append_to_slots(store: &mut SlotStore<'_>, number: u32, block: &[u8]) -> Result<(), Refusal>
    ensures { OnErr result (store.new.bytes.ghost_name ≡ store.old.bytes.ghost_name) }
{
    store.append(number, block)
}

/// So does a refused drop from the log.
pub fn drop_from_log(log: &mut PackedLog<'_>, number: u32) -> Result<(), Refusal>
    ensures { OnErr result (log.new.bytes.ghost_name ≡ log.old.bytes.ghost_name) }
{
    log.drop_entry(number)
}

/// A new slot store's bytes are slots, and it counts those that hold an entry.
pub fn new_slots(bytes: &mut [u8]) -> SlotStore<'_>
    ensures laid { result.bytes.now ≡ slotted (slots_of result.bytes.now) (tail_of result.bytes.now) }
    ensures counted { result.held ≡ length (contents_of result).held }
{
    SlotStore::new(bytes)
}

/// A cleared log has used as many bytes as its entries take, and counts its entries.
pub fn clear_log(log: &mut PackedLog<'_>)
    ensures used { log.new.used ≡ packed_length (log_contents log.new).held }
    ensures counted { log.new.held ≡ length (log_contents log.new).held }
{
    log.clear();
}

/// Generic code is told that a store is sound, and passes it on.
pub fn clear_any<S: Store>(store: &mut S)
    ensures { S.Store.sound store.new }
{
    store.clear();
}

/// So a caller that knows which store it is learns what this store keeps true of itself.
pub fn clear_any_slots(store: &mut SlotStore<'_>)
    ensures laid { store.new.bytes.now ≡ slotted (slots_of store.new.bytes.now) (tail_of store.new.bytes.now) }
    ensures counted { store.new.held ≡ length (contents_of store.new).held }
{
    clear_any(store);
}

/// And of a log.
pub fn clear_any_log(log: &mut PackedLog<'_>)
    ensures used { log.new.used ≡ packed_length (log_contents log.new).held }
    ensures counted { log.new.held ≡ length (log_contents log.new).held }
{
    clear_any(log);
}

/// The contents of a sound store are lawful, before any call.
pub fn contents_are_lawful<S: Store>(_store: &S)
    ensures { S.Store.sound _store.now → Lawful (S.Store.contents _store.now) }
{}
