//! Copies, which may find no memory.
ghost use Rattle.std.specs.Prelude.{◌≡◌, IfOk};

use std::alloc::{AllocError, Global};

/// A value, or want of memory.
pub type Mem<T> = Result<T, AllocError>;

/// A value that is copied, and not moved, into a place of its own.
pub trait CopyOf: Drop {
    /// A copy.
    fn copy_of(&self, alloc: Global) -> Mem<Self>
        ensures { IfOk result (λ copy. copy ≡ self.now) };

    /// Copies of some items, in order.
    fn copies_of(alloc: Global, items: &[Self]) -> Mem<Vec<Self>>
        ensures { IfOk result (λ copies. copies.items ≡ items.now) }
    {
        let mut copies = Vec::with_capacity(alloc, items.len())?;
        for item in items {
            copies.push(item.copy_of(alloc)?)?;
        }
        Ok(copies)
    }
}

impl CopyOf for u8 {
    fn copy_of(&self, _alloc: Global) -> Mem<u8> {
        Ok(*self)
    }

    fn copies_of(alloc: Global, items: &[u8]) -> Mem<Vec<u8>> {
        Vec::from_slice(alloc, items)
    }
}

impl CopyOf for i64 {
    fn copy_of(&self, _alloc: Global) -> Mem<i64> {
        Ok(*self)
    }
}

impl<T: CopyOf> CopyOf for Option<T> {
    fn copy_of(&self, alloc: Global) -> Mem<Option<T>> {
        match self {
            None => Ok(None),
            Some(item) => Ok(Some(item.copy_of(alloc)?)),
        }
    }
}
