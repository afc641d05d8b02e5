ghost use Rattle.std.specs.Prelude.{◌≡◌};
ghost use Rattle.cls_grammar.specs.declared.fault.GrammarFault.TheVariants.{OutOfMemory};

use cls_path::Nf;
use std::alloc::{AllocError, AllocFailed};

/// Why rows make no grammar.
#[derive(Drop)]
pub enum GrammarFault {
    /// This goal is wide: it has no rules since looking for them would take too much.
    Wide(Nf),
    /// Out of memory.
    OutOfMemory,
}

impl From<cls_base::OutOfMemory> for GrammarFault {
    ghost from_gives = { λ _ fault. fault ≡ OutOfMemory };

    fn from(_: cls_base::OutOfMemory) -> GrammarFault {
        GrammarFault::OutOfMemory
    }
}

impl From<AllocError> for GrammarFault {
    ghost from_gives = { λ _ fault. fault ≡ OutOfMemory };

    fn from(_: AllocError) -> GrammarFault {
        GrammarFault::OutOfMemory
    }
}

impl<T: Drop> From<AllocFailed<T>> for GrammarFault {
    ghost from_gives = { λ _ fault. fault ≡ OutOfMemory };

    fn from(_: AllocFailed<T>) -> GrammarFault {
        GrammarFault::OutOfMemory
    }
}
