//! Bytes taken out of others.
ghost use Rattle.std.specs.Prelude.{◌≡◌};
ghost use Rattle.packed_log.specs.Log.{taken_out};

use entry_layout::parts::fill_zero;

// Takes `size` bytes out: those behind them, up to `end`, move down, and zeros follow. Where there
// are no such bytes, nothing is written.
pub fn take_out(bytes: &mut [u8], at: usize, size: usize, end: usize)
    ensures { bytes.new ≡ taken_out at size end bytes.old }
{
    if end > bytes.len() || at > end || size > end - at {
        return;
    }
    bytes.copy_within(at + size..end, at);
    fill_zero(bytes, end - size, end);
}
