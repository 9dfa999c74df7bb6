//! Where a value lies in its record.
ghost use Rattle.std.specs.Prelude.{◌≡◌};

/// So many bytes, from one on.
#[derive(Clone, Copy)]
pub struct Span {
    pub from: usize,
    pub count: usize,
}

/// Where a value lies in the bytes of its record, a key and then a value: behind the key, and no further than it is long.
/// What else its last cell holds is no one's.
pub fn value_span(key_len: u32, value_len: u32) -> Span
    ensures { result ≡ record { from = key_len; count = value_len } }
{
    Span {
        from: key_len as usize,
        count: value_len as usize,
    }
}
