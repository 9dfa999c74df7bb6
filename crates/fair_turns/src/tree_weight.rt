//! How much memory the tree of a body takes, which is counted while the body comes: so nobody has to go over a long body that
//! is then refused.

/// The most bytes that an object, and that another value, takes in the tree that is made of a body.
const OBJECT: u64 = 1024;

const VALUE: u64 = 96;

/// The most bytes of a tree that takes no share: each worker has one such tree at a time.
pub const SMALL_TREE: u64 = 1_048_576;

/// A bound of what the tree of a body's values takes beside its texts. Each value but the first comes behind one of three bytes,
/// which are counted.
#[derive(Clone, Copy)]
pub struct TreeWeight {
    bytes: u64,
}

impl TreeWeight {
    /// That of a body of which nothing has come.
    pub const EMPTY: TreeWeight = TreeWeight { bytes: 0 };

    /// A piece of the body came.
    pub fn add(&mut self, piece: &[u8]) {
        let (mut objects, mut others) = (0u32, 0u32);
        // Without a branch, so that many bytes are looked at at once. A piece has fewer bytes than the numbers count.
        for byte in piece {
            objects = objects.wrapping_add(u32::from(*byte == b'{'));
            others = others.wrapping_add(u32::from((*byte == b'[') | (*byte == b',')));
        }
        let objects = u64::from(objects).saturating_mul(OBJECT);
        let others = u64::from(others).saturating_mul(VALUE);
        self.bytes = self.bytes.saturating_add(objects.saturating_add(others));
    }

    /// How many bytes it may take.
    pub fn bytes(self) -> u64 {
        self.bytes
    }

    /// It needs no share of its tenant's budget.
    pub fn is_small(self) -> bool {
        self.bytes <= SMALL_TREE
    }
}
