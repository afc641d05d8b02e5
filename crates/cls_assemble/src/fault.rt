//! Why a template isn't read, and why no text is made.
ghost use Rattle.std.specs.Prelude.{◌≡◌};
ghost use Rattle.cls_assemble.specs.declared.fault.TemplateFault.TheVariants as template_faults;
ghost use Rattle.cls_assemble.specs.declared.fault.TextFault.TheVariants as text_faults;

use cls_base::OutOfMemory;
use std::alloc::AllocError;
use thiserror::Error;

/// Why a text is no template. Each fault has how many bytes of the text stand in front of it.
#[derive(Clone, Copy, Debug, Error, PartialEq, Eq)]
pub enum TemplateFault {
    /// A brace or a backslash begins nothing that a template may have.
    #[error("a brace or a backslash stands alone")]
    BadHole(u32),
    /// A hole has the number 0.
    #[error("a hole has the number 0")]
    HoleZero(u32),
    /// A hole has a number over 16.
    #[error("a hole has a number over 16")]
    HoleOver16(u32),
    /// No memory was found.
    #[error("out of memory")]
    OutOfMemory,
}

impl From<OutOfMemory> for TemplateFault {
    ghost from_gives = { λ _ fault. fault ≡ template_faults.OutOfMemory };

    fn from(_: OutOfMemory) -> TemplateFault {
        TemplateFault::OutOfMemory
    }
}

/// Why a term gets no text.
#[derive(Clone, Copy, Debug, Error, PartialEq, Eq)]
pub enum TextFault {
    /// The text would have over 65,536 bytes.
    #[error("the text is longer than 65,536 bytes")]
    TextTooLong,
    /// No memory was found.
    #[error("out of memory")]
    OutOfMemory,
}

impl From<OutOfMemory> for TextFault {
    ghost from_gives = { λ _ fault. fault ≡ text_faults.OutOfMemory };

    fn from(_: OutOfMemory) -> TextFault {
        TextFault::OutOfMemory
    }
}

impl From<AllocError> for TextFault {
    ghost from_gives = { λ _ fault. fault ≡ text_faults.OutOfMemory };

    fn from(_: AllocError) -> TextFault {
        TextFault::OutOfMemory
    }
}
