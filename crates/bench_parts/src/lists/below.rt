//! What is searched for.
use chunk_list::Test;

/// Whether an item is below a number.
#[derive(Clone, Copy)]
pub(crate) struct Below(pub(crate) u32);

impl Test<u32> for Below {
    ghost use Rattle.std.specs.Prelude.{nat_lt};

    ghost can = { λ s x. Unit {0} };

    ghost test = { λ s x. nat_lt x s.0 };

    fn holds(&self, item: u32) -> bool {
        item < self.0
    }
}
