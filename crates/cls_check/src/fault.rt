//! Why a certificate is refused.
ghost use Rattle.std.specs.Prelude.{◌≡◌};
ghost use Rattle.cls_check.specs.declared.fault.CheckFault.TheVariants as faults;

use cls_base::OutOfMemory;
use std::alloc::AllocFailed;
use thiserror::Error;

/// The tests of a certificate, each as the reason for which a row or member that fails it is refused.
#[derive(Clone, Copy, Debug, PartialEq, Eq)]
pub enum Reason {
    /// The component is one of the library's, its arrows take so many arguments, and the cover is strictly ascending
    /// positions of these arrows.
    Arrow,
    /// Each path of the row's goal is above the target of an arrow of the cover.
    Target,
    /// For each argument the intersection of what the arrows of the cover take is above the goal of an earlier row.
    Argument,
    /// The asked goal is above that of the last row, or below that of a member.
    Goal,
    /// The blocks are for different arrows of the library, and have as many layers of positions as the goal has paths.
    Layers,
    /// The layers lead from the empty set to sets that are all blocked.
    Unblocked,
}

/// Why a certificate isn't accepted.
#[derive(Clone, Copy, Debug, Error, PartialEq, Eq)]
pub enum CheckFault {
    /// The first row or member that fails, counted from 1, and its first test that does. The test of the asked goal
    /// comes last: it has the number of rows, or 0 if there are members.
    #[error("the certificate is refused")]
    Refused {
        /// The number of the row or member.
        row: u32,
        /// The test that it fails.
        reason: Reason,
    },
    /// There is no memory left.
    #[error("out of memory")]
    OutOfMemory,
}

impl From<OutOfMemory> for CheckFault {
    ghost from_gives = { λ _ fault. fault ≡ faults.OutOfMemory };

    fn from(_: OutOfMemory) -> CheckFault {
        CheckFault::OutOfMemory
    }
}

impl<T: Drop> From<AllocFailed<T>> for CheckFault {
    ghost from_gives = { λ _ fault. fault ≡ faults.OutOfMemory };

    fn from(_: AllocFailed<T>) -> CheckFault {
        CheckFault::OutOfMemory
    }
}
