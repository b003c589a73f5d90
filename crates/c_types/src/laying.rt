//! Bytes that are laid over a caller's buffer.

ghost use Rattle.std.specs.Prelude.{◌+◌, ◌≡◌, ◌∷◌, length, min};
ghost use Rattle.c_types.specs.Laid.{laid_over};

use std::cmp::min;

/// Lays as many of the bytes over the buffer as there is room for, and answers how many. What stands behind them stays.
pub fn lay(bytes: &[u8], out: &mut [u8]) -> usize
    ensures count { result ≡ min (length bytes.now) (length out.old) }
    ensures laid { out.new ≡ laid_over bytes.now out.old }
{
    let count = min(bytes.len(), out.len());
    out[..count].copy_from_slice(&bytes[..count]);
    count
}

/// The same for two bytes and others behind them.
pub fn lay_behind(high: u8, low: u8, bytes: &[u8], out: &mut [u8]) -> usize
    ensures count { result ≡ min (length bytes.now + 2) (length out.old) }
    ensures laid { out.new ≡ laid_over (high ∷ low ∷ bytes.now) out.old }
{
    if out.len() < 2 {
        return lay(&[high, low], out);
    }
    out[0] = high;
    out[1] = low;
    lay(bytes, &mut out[2..]) + 2
}
