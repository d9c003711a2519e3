//! Entries in bytes.
ghost use Rattle.std.specs.Prelude.{◌≡◌, ◌+◌, ◌≤◌, length, drop, IfSome};
ghost use Rattle.std.specs.Option.{option_map};
ghost use Rattle.values.specs.Answers.{Settles};
ghost use Rattle.stores.specs.Calls.{copying};
ghost use Rattle.entry_layout.specs.Layout.{block_at, entry_in, with_entry};
ghost use Rattle.entry_layout.specs.Views.{viewed};

use crate::capacity::{HEADER_LENGTH, NUMBER_LENGTH};
use values::block::MAX_BLOCK_LENGTH;
use values::refusal::Refusal;

/// An entry where it stands in bytes.
#[derive(Clone, Copy, PartialEq, Eq, Debug)]
pub struct EntryRef<'a> {
    pub number: u32,
    pub block: &'a [u8],
}

impl<'a> EntryRef<'a> {
    /// The entry that bytes begin with, or none where no header with 1 to 64 bytes behind it stands.
    pub fn read(bytes: &'a [u8]) -> Option<EntryRef<'a>>
        ensures entry { option_map viewed result ≡ entry_in bytes.now }
        ensures within { IfSome result (λ e. (5 + length e.block.now ≤ length bytes.now) × (length e.block.now ≤ 64)) }
    {
        let (number, rest) = bytes.split_first_chunk::<NUMBER_LENGTH>()?;
        let (length, behind) = rest.split_first()?;
        let length = usize::from(*length);
        if !(1..=MAX_BLOCK_LENGTH).contains(&length) {
            return None;
        }
        Some(EntryRef {
            number: u32::from_be_bytes(*number),
            block: behind.get(..length)?,
        })
    }

    /// Writes the entry over bytes from a place on. Where it does not fit, nothing is written.
    pub fn write(&self, bytes: &mut [u8], at: usize)
        ensures { bytes.new ≡ with_entry at (viewed self.now) bytes.old }
    {
        let length = self.block.len();
        if length > MAX_BLOCK_LENGTH
            || at > bytes.len()
            || bytes.len() - at < HEADER_LENGTH + length
        {
            return;
        }
        let start = at + HEADER_LENGTH;
        bytes[at..at + NUMBER_LENGTH].copy_from_slice(&self.number.to_be_bytes());
        bytes[at + NUMBER_LENGTH] = length as u8;
        let behind = &mut bytes[start..start + length];
        behind.copy_from_slice(self.block);
    }

    /// How many bytes the entry takes, with its header.
    pub fn size(&self) -> usize
        ensures { result ≡ 5 + length self.now.block.now }
    {
        HEADER_LENGTH + self.block.len()
    }
}

// Bytes and a place stay two parameters here: each call borrows the bytes in another way.

/// The entry that begins at a place, or none where no header with 1 to 64 bytes behind it stands.
pub fn entry_at(bytes: &[u8], at: usize) -> Option<EntryRef<'_>>
    ensures entry { option_map viewed result ≡ entry_in (drop at bytes.now) }
    ensures within { IfSome result (λ e. (at + 5 + length e.block.now ≤ length bytes.now) × (length e.block.now ≤ 64)) }
{
    EntryRef::read(bytes.get(at..)?)
}

/// Writes the block of the entry at a place, if one stands there, to the front of the buffer and
/// answers its length. The buffer is the caller's, as all memory of a vault is.
pub fn read_entry(bytes: &[u8], at: Option<usize>, buffer: &mut [u8]) -> Result<usize, Refusal>
    ensures { Settles result (λ n. (n, buffer.new)) (copying (block_at at bytes.now) buffer.old) buffer.old buffer.new }
{
    if buffer.len() < MAX_BLOCK_LENGTH {
        return Err(Refusal::BufferTooShort);
    }
    let entry = at
        .and_then(|at| entry_at(bytes, at))
        .ok_or(Refusal::NoSuchEntry)?;
    let length = entry.block.len();
    buffer[..length].copy_from_slice(entry.block);
    Ok(length)
}
