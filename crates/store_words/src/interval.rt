//! Intervals of keys.
ghost use Rattle.std.specs.Prelude.{◌≡◌};
ghost use Rattle.etcd_model.specs.Interval.{is_in};

/// Whether a key is in the interval that begins at `key` and ends before `range_end`. With an empty end it is
/// the one key, and with the single byte 0 it has no end.
pub fn is_in(key: &[u8], range_end: &[u8], candidate: &[u8]) -> bool
    ensures { result ≡ is_in key.now range_end.now candidate.now }
{
    match range_end {
        [] => candidate == key,
        _ => key.cmp(candidate).is_le()
            && (range_end == [0].as_slice() || candidate.cmp(range_end).is_lt()),
    }
}
