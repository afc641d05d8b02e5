ghost use Rattle.std.specs.Prelude.{◌≡◌};
ghost use Rattle.cls_engine.specs.declared.fault.EngineFault.TheVariants.{OutOfMemory};

use cls_enum::PageFault;
use cls_filtered::FilterFault;
use cls_grammar::GrammarFault;
use cls_path::Nf;
use cls_table::ExpandFault;

/// Why a query isn't answered.
#[derive(Drop)]
pub enum EngineFault {
    /// A type's spread is too large, or its normal form is too large to be worked on.
    Size,
    /// The closure has more goals or more rules than the options allow.
    TooLarge,
    /// This goal of the closure is wide, the first one in its canonical numbering.
    Wide(Nf),
    /// The closure, filtered, has more rules than the options allow.
    FilterTooLarge,
    /// More terms than the options allow would have to be held to make the page.
    TooManyTerms,
    /// Out of memory.
    OutOfMemory,
}

impl From<cls_base::OutOfMemory> for EngineFault {
    ghost from_gives = { λ _ fault. fault ≡ OutOfMemory };

    fn from(_: cls_base::OutOfMemory) -> EngineFault {
        EngineFault::OutOfMemory
    }
}

impl From<ExpandFault> for EngineFault {
    ghost use Rattle.cls_engine.specs.Conversions.{of_expand};

    ghost from_gives = { λ e fault. fault ≡ of_expand e };

    fn from(fault: ExpandFault) -> EngineFault {
        match fault {
            ExpandFault::TooLarge => EngineFault::TooLarge,
            ExpandFault::OutOfMemory => EngineFault::OutOfMemory,
        }
    }
}

impl From<GrammarFault> for EngineFault {
    ghost use Rattle.cls_engine.specs.Conversions.{of_grammar};

    ghost from_gives = { λ e fault. fault ≡ of_grammar e };

    fn from(fault: GrammarFault) -> EngineFault {
        match fault {
            GrammarFault::Wide(goal) => EngineFault::Wide(goal),
            GrammarFault::OutOfMemory => EngineFault::OutOfMemory,
        }
    }
}

impl From<FilterFault> for EngineFault {
    ghost use Rattle.cls_engine.specs.Conversions.{of_filter};

    ghost from_gives = { λ e fault. fault ≡ of_filter e };

    fn from(fault: FilterFault) -> EngineFault {
        match fault {
            FilterFault::OutOfMemory => EngineFault::OutOfMemory,
            FilterFault::TooManyRules => EngineFault::FilterTooLarge,
        }
    }
}

impl From<PageFault> for EngineFault {
    ghost use Rattle.cls_engine.specs.Conversions.{of_page};

    ghost from_gives = { λ e fault. fault ≡ of_page e };

    fn from(fault: PageFault) -> EngineFault {
        match fault {
            PageFault::TooManyTerms => EngineFault::TooManyTerms,
            PageFault::OutOfMemory => EngineFault::OutOfMemory,
        }
    }
}
