//! Why a schema has no instances.
ghost use Rattle.std.specs.Prelude.{◌≡◌};
ghost use Rattle.cls_kind.specs.declared.fault.KindFault.TheVariants as faults;

use cls_base::{Name, OutOfMemory};
use std::alloc::AllocFailed;
use thiserror::Error;

/// Why there are no instances of a schema to go over, or no further one.
#[derive(Clone, Copy, Debug, Error, PartialEq, Eq)]
pub enum KindFault {
    /// This variable has no kind. It is the first such variable of the schema.
    #[error("a variable has no kind")]
    UnknownVariable(Name),
    /// There are more than 4,096 choices.
    #[error("too many instances")]
    TooManyInstances,
    /// The next instance has more than 4,096 nodes or a spread over 16,384.
    #[error("an instance is too large")]
    InstanceTooLarge,
    /// There is no memory left.
    #[error("out of memory")]
    OutOfMemory,
}

impl From<OutOfMemory> for KindFault {
    ghost from_gives = { λ _ fault. fault ≡ faults.OutOfMemory };

    fn from(_: OutOfMemory) -> KindFault {
        KindFault::OutOfMemory
    }
}

impl<T: Drop> From<AllocFailed<T>> for KindFault {
    ghost from_gives = { λ _ fault. fault ≡ faults.OutOfMemory };

    fn from(_: AllocFailed<T>) -> KindFault {
        KindFault::OutOfMemory
    }
}
