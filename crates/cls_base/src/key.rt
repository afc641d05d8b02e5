//! What serves as a key of a table.
ghost use Rattle.std.specs.Prelude.{◌≡◌, IsTrue, IfOk};

use crate::out_of_memory::OutOfMemory;
use std::alloc::Global;
use std::hash::Hash;

/// A value that can be found in a table by its meaning, and of which a second one can be made.
///
/// Two keys are equal if and only if contracts see them as the same value.
pub trait Key: Eq + Hash {
    /// An equal value. The Err is out of memory.
    fn copy(&self, alloc: Global) -> Result<Self, OutOfMemory>
    where
        Self: Sized,
        ensures same { IfOk result (λ k. k ≡ self.now) };

    ghost exact: { (x y : Self) → IsTrue (Self.eq x y) → x ≡ y };
}
