//! Which bytes make a name.
ghost use Rattle.std.specs.Prelude.{◌≡◌};
ghost use Rattle.names.specs.NameRule.{is_name, is_name_byte};

/// The most bytes that a name has.
pub const MAX_NAME_LENGTH: usize = 16;

// A visible ASCII character other than the slash.
fn is_name_byte(byte: u8) -> bool
    ensures { result ≡ is_name_byte byte }
{
    byte.is_ascii_graphic() && byte != b'/'
}

/// Whether the bytes are a name.
pub fn is_name(bytes: &[u8]) -> bool
    ensures { result ≡ is_name bytes.now }
{
    let fits = (1..=MAX_NAME_LENGTH).contains(&bytes.len());
    fits && bytes.iter().all(|byte| is_name_byte(*byte))
}
