ghost use Rattle.std.specs.Prelude.{◌≡◌};
ghost use Rattle.cls_filtered.specs.declared.fault.FilterFault.TheVariants.{OutOfMemory};

use std::alloc::{AllocError, AllocFailed};

/// Why no filtered rule book is made.
#[derive(Clone, Copy, Debug, PartialEq, Eq)]
pub enum FilterFault {
    /// Out of memory.
    OutOfMemory,
    /// The filtered rule book has more rules than are allowed.
    TooManyRules,
}

impl From<AllocError> for FilterFault {
    ghost from_gives = { λ _ fault. fault ≡ OutOfMemory };

    fn from(_: AllocError) -> FilterFault {
        FilterFault::OutOfMemory
    }
}

impl<T: Drop> From<AllocFailed<T>> for FilterFault {
    ghost from_gives = { λ _ fault. fault ≡ OutOfMemory };

    fn from(_: AllocFailed<T>) -> FilterFault {
        FilterFault::OutOfMemory
    }
}

impl From<cls_base::OutOfMemory> for FilterFault {
    ghost from_gives = { λ _ fault. fault ≡ OutOfMemory };

    fn from(_: cls_base::OutOfMemory) -> FilterFault {
        FilterFault::OutOfMemory
    }
}
