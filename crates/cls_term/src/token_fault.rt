//! Why a text isn't a term.
ghost use Rattle.std.specs.Prelude.{◌≡◌};
ghost use Rattle.cls_term.specs.declared.token_fault.TokenFault.TheVariants as faults;

use cls_base::OutOfMemory;
use thiserror::Error;

/// Why a text isn't a term over the components of a table. The first cause is answered, in the order in which they are
/// listed.
#[derive(Clone, Copy, Debug, Error, PartialEq, Eq)]
pub enum TokenFault {
    /// More than [`MAX_TYPE_DEPTH`](cls_base::limits::MAX_TYPE_DEPTH) parentheses are open at once.
    #[error("too many open parentheses")]
    TooDeep,
    /// No term goes on with the token at this byte or, at the text's end, no term ends there.
    #[error("bad token at byte {0}")]
    BadToken(u32),
    /// The name at this byte is no component.
    #[error("unknown component at byte {0}")]
    UnknownComponent(u32),
    /// No memory was found.
    #[error("out of memory")]
    OutOfMemory,
}

impl From<OutOfMemory> for TokenFault {
    ghost from_gives = { λ _ fault. fault ≡ faults.OutOfMemory };

    fn from(_: OutOfMemory) -> TokenFault {
        TokenFault::OutOfMemory
    }
}
