ghost use Rattle.std.specs.Prelude.{◌≡◌};
ghost use Rattle.cls_enum.specs.declared.fault.PageFault.TheVariants.{OutOfMemory};

use std::alloc::{AllocError, AllocFailed};

/// Why no page is made.
#[derive(Clone, Copy, Debug, PartialEq, Eq)]
pub enum PageFault {
    /// Out of memory.
    OutOfMemory,
    /// More terms would have to be held than are allowed.
    TooManyTerms,
}

impl From<AllocError> for PageFault {
    ghost from_gives = { λ _ fault. fault ≡ OutOfMemory };

    fn from(_: AllocError) -> PageFault {
        PageFault::OutOfMemory
    }
}

impl<T: Drop> From<AllocFailed<T>> for PageFault {
    ghost from_gives = { λ _ fault. fault ≡ OutOfMemory };

    fn from(_: AllocFailed<T>) -> PageFault {
        PageFault::OutOfMemory
    }
}

impl From<cls_base::OutOfMemory> for PageFault {
    ghost from_gives = { λ _ fault. fault ≡ OutOfMemory };

    fn from(_: cls_base::OutOfMemory) -> PageFault {
        PageFault::OutOfMemory
    }
}
