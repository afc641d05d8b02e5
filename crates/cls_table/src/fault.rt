ghost use Rattle.std.specs.Prelude.{◌≡◌};
ghost use Rattle.cls_table.specs.declared.fault.ExpandFault.TheVariants.{OutOfMemory as WantsMemory};

use cls_base::OutOfMemory;

/// Why a closure isn't there.
#[derive(Debug, Clone, Copy, PartialEq, Eq)]
pub enum ExpandFault {
    /// It has more goals or more rules than the limits.
    TooLarge,
    /// There was no memory.
    OutOfMemory,
}

impl From<OutOfMemory> for ExpandFault {
    ghost from_gives = { λ _ fault. fault ≡ WantsMemory };

    fn from(_fault: OutOfMemory) -> ExpandFault {
        ExpandFault::OutOfMemory
    }
}
