//! Writes over a part of bytes.
ghost use Rattle.std.specs.Prelude.{◌≡◌};
ghost use Rattle.entry_layout.specs.Layout.{zeroed};

/// Zeros the bytes from one place to another. Where there are none such, nothing is written.
pub fn fill_zero(bytes: &mut [u8], from: usize, to: usize)
    ensures { bytes.new ≡ zeroed from to bytes.old }
{
    // Not by `get_mut`: its contract leaves open what the bytes are where it answers `None`.
    if from > to || to > bytes.len() {
        return;
    }
    bytes[from..to].fill(0);
}
