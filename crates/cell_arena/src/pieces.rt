//! Bytes in pieces of 48.
ghost use Rattle.std.specs.Prelude.{◌≡◌, ◌+◌, ◌-◌, ◌<◌, ◌≤◌, ◌^◌, ◌++◌, length, take, drop, min};
ghost use Rattle.cell_arena.specs.Chain.{pieces as cells_for};

use crate::cell::CELL_BYTES;

/// How many cells so many bytes fill.
pub(crate) fn pieces(len: usize) -> usize
    requires { len < 2 ^ 32 }
    ensures { result ≡ cells_for len }
{
    (len + CELL_BYTES - 1) / CELL_BYTES
}

/// Copies to this place as many bytes as fit, and answers how many.
fn fill(out: &mut [u8], at: usize, from: &[u8]) -> usize
    requires { at ≤ length out.old }
    ensures count { result ≡ min (length out.old - at) (length from.now) }
    ensures bytes { out.new ≡ take at out.old ++ (take result from.now ++ drop (at + result) out.old) }
{
    let count = from.len().min(out.len() - at);
    out[at..at + count].copy_from_slice(&from[..count]);
    count
}

/// The first bytes of one text followed by another.
fn piece_of(front: &[u8], back: &[u8]) -> [u8; 48]
    ensures size { length result ≡ 48 }
    ensures bytes { take (length front.now + length back.now) result ≡ take 48 (front.now ++ back.now) }
{
    let mut out = [0; 48];
    let filled = fill(&mut out, 0, front);
    fill(&mut out, filled, back);
    out
}

/// What the cell from this byte on holds of a key followed by a value.
pub(crate) fn piece_at(key: &[u8], value: &[u8], from: usize) -> [u8; 48]
    requires { from < length key.now + length value.now }
    ensures size { length result ≡ 48 }
    ensures bytes { take (length (key.now ++ value.now) - from) result
        ≡ take 48 (drop from (key.now ++ value.now)) }
{
    if from < key.len() {
        piece_of(&key[from..], value)
    } else {
        piece_of(&[], &value[from - key.len()..])
    }
}
