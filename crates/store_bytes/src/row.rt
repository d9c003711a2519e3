//! A row of bytes as text.
use std::fmt;

/// How many bytes a row shows: three rows are a slot.
pub const ROW_LENGTH: usize = 23;

/// Shows bytes in hexadecimal digits.
#[derive(Clone, Copy)]
pub struct Row<'a> {
    pub bytes: &'a [u8],
}

impl Row<'_> {
    /// Whether every byte is zero.
    pub fn is_zero(&self) -> bool {
        self.bytes.iter().all(|byte| *byte == 0)
    }
}

impl fmt::Display for Row<'_> {
    fn fmt<W: fmt::Write>(&self, f: &mut fmt::Formatter<W>) -> fmt::Result {
        for &byte in self.bytes {
            write!(f, " {byte:02x}")?;
        }
        Ok(())
    }
}
