//! Walks over entries that stand end to end.
ghost use Rattle.std.specs.Prelude.{◌≡◌};
ghost use Rattle.std.specs.Iterator.{YieldsFirstBy, item_count};
ghost use Rattle.packed_log.specs.Log.{entries_in, placed_from};
ghost use Rattle.packed_log.specs.Walk.{placed, ahead};

use entry_layout::entry::{EntryRef, entry_at};

/// Entries that stand end to end, each with the place where it begins.
#[derive(Drop)]
pub struct Entries<'a> {
    bytes: &'a [u8],
    at: usize,
    left: usize,
}

impl<'a> Entries<'a> {
    /// So many entries from the front on, or fewer where fewer stand there.
    pub fn new(bytes: &'a [u8], count: usize) -> Entries<'a>
        ensures { ahead result ≡ placed_from 0 (entries_in count bytes.now) }
    {
        Entries {
            bytes,
            at: 0,
            left: count,
        }
    }
}

impl<'a> Iterator for Entries<'a> {
    type Item = (usize, EntryRef<'a>);

    ghost next_gives = { YieldsFirstBy placed ahead };

    ghost remaining = { item_count ahead };

    fn next(&mut self) -> Option<(usize, EntryRef<'a>)> {
        let left = self.left.checked_sub(1)?;
        let entry = entry_at(self.bytes, self.at)?;
        let at = self.at;
        self.at += entry.size();
        self.left = left;
        Some((at, entry))
    }
}
