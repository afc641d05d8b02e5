//! Why a schema is no component of a library.
ghost use Rattle.std.specs.Prelude.{◌≡◌};
ghost use Rattle.cls_library.specs.declared.fault.LibraryKind.TheVariants as faults;

use cls_base::OutOfMemory;
use cls_kind::KindFault;
use std::alloc::AllocFailed;
use thiserror::Error;

/// The first component that is refused, and why.
#[derive(Clone, Copy, Debug, Error, PartialEq, Eq)]
#[error("component {component} is refused")]
pub struct LibraryFault {
    /// The number of the component.
    pub component: u32,
    /// Why it is refused.
    pub kind: LibraryKind,
}

/// Why a component is refused.
#[derive(Clone, Copy, Debug, Error, PartialEq, Eq)]
pub enum LibraryKind {
    /// There are 1,000 components before it.
    #[error("too many components")]
    TooManyComponents,
    /// The instances so far count for over 1,000,000, each for one more than its spread.
    #[error("the library is too large")]
    LibraryTooLarge,
    /// The schema has no instances, or one that is too large. It is never out of memory.
    #[error("the schema has no instances")]
    Kind(KindFault),
    /// A path of an instance begins with over 32 arrows.
    #[error("a component takes too many arguments")]
    ArityTooLarge,
    /// No memory was found.
    #[error("out of memory")]
    OutOfMemory,
}

impl From<OutOfMemory> for LibraryKind {
    ghost from_gives = { λ _ kind. kind ≡ faults.OutOfMemory };

    fn from(_: OutOfMemory) -> LibraryKind {
        LibraryKind::OutOfMemory
    }
}

impl<T: Drop> From<AllocFailed<T>> for LibraryKind {
    ghost from_gives = { λ _ kind. kind ≡ faults.OutOfMemory };

    fn from(_: AllocFailed<T>) -> LibraryKind {
        LibraryKind::OutOfMemory
    }
}

impl From<KindFault> for LibraryKind {
    ghost use Rattle.cls_library.specs.Faults.{kind_of_fault};

    ghost from_gives = { λ fault kind. kind ≡ kind_of_fault fault };

    fn from(fault: KindFault) -> LibraryKind {
        match fault {
            KindFault::OutOfMemory => LibraryKind::OutOfMemory,
            other => LibraryKind::Kind(other),
        }
    }
}
