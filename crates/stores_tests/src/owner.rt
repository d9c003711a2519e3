//! An owner of any store, which holds it by value and numbers its blocks.
//!
//! It stands for the vault: what it promises follows from the contracts of [`Store`] alone, for every
//! store, and the checker proves it without a proof file.
ghost use Rattle.std.specs.Prelude.{◌≡◌, ◌+◌, ◌<◌, length};
ghost use Rattle.values.specs.Answers.{answer};
ghost use Rattle.stores.specs.Calls.{Reads, appending};
ghost use Rattle.stores.specs.Contents.{emptied};
ghost use Rattle.stores.specs.Laws.{Lawful};

use stores::store::Store;
use values::refusal::Refusal;

// The last number that an owner gives.
const LAST_NUMBER: u32 = 1000;

/// Numbers blocks from 1 upward, in a store of its own.
#[derive(Drop)]
pub struct Owner<S: Store> {
    store: S,
    next: u32,
}

impl<S: Store> Owner<S> {
    /// Takes over a store, whatever it held, and clears it.
    pub fn new(mut store: S) -> Owner<S>
        ensures sound { S.Store.sound result.store }
        ensures contents { S.Store.contents result.store ≡ emptied (S.Store.contents store).capacity }
        ensures lawful { Lawful (S.Store.contents result.store) }
        ensures next { result.next ≡ 1 }
    {
        store.clear();
        Owner { store, next: 1 }
    }

    /// Appends a block under the next number, and answers the number.
    pub fn add(&mut self, block: &[u8]) -> Result<u32, Refusal>
        ensures sound { S.Store.sound self.old.store → S.Store.sound self.new.store }
        ensures lawful { Lawful (S.Store.contents self.old.store) → Lawful (S.Store.contents self.new.store) }
        ensures appends { self.old.next < 1000 → answer (λ _. S.Store.contents self.new.store) result ≡ appending self.old.next block.now (S.Store.contents self.old.store) }
    {
        let number = self.next;
        if number >= LAST_NUMBER {
            return Err(Refusal::StoreFull);
        }
        self.store.append(number, block)?;
        self.next = number + 1;
        Ok(number)
    }

    /// How many more blocks there is room for.
    pub fn free(&self) -> usize
        ensures { result + length (S.Store.contents self.now.store).held ≡ (S.Store.contents self.now.store).capacity }
    {
        self.store.capacity().saturating_sub(self.store.held())
    }

    /// Reads a block into the buffer, as the store does.
    pub fn read(&self, number: u32, buffer: &mut [u8]) -> Result<usize, Refusal>
        ensures { Reads number (S.Store.contents self.now.store) buffer.old buffer.new result }
    {
        self.store.read(number, buffer)
    }
}
