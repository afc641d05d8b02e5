//! Why a text isn't a type.
ghost use Rattle.std.specs.Prelude.{◌≡◌};
ghost use Rattle.cls_syntax.specs.declared.syntax_fault.SyntaxFault.TheVariants as faults;

use cls_base::OutOfMemory;
use cls_lexer::Token;
use thiserror::Error;

/// Why a text isn't a type. The first cause is answered, in the order in which they are listed.
#[derive(Clone, Copy, Debug, Error, PartialEq, Eq)]
pub enum SyntaxFault {
    /// More than [`MAX_TYPE_DEPTH`](cls_base::limits::MAX_TYPE_DEPTH) parentheses are open at once.
    #[error("too many open parentheses")]
    TooDeep,
    /// No type goes on with the token at this byte or, at the text's end, no type ends there.
    #[error("unexpected token at byte {0}")]
    Unexpected(u32),
    /// The token at this byte is `omega`, where a name could stand.
    #[error("reserved name at byte {0}")]
    ReservedName(u32),
    /// The type has more than [`MAX_TYPE_NODES`](cls_base::limits::MAX_TYPE_NODES) nodes.
    #[error("too many nodes")]
    TooManyNodes,
    /// The type is to have no variable, and its first `$` is at this byte.
    #[error("variable at byte {0}")]
    Variable(u32),
    /// No memory was found.
    #[error("out of memory")]
    OutOfMemory,
}

impl From<OutOfMemory> for SyntaxFault {
    ghost from_gives = { λ _ fault. fault ≡ faults.OutOfMemory };

    fn from(_: OutOfMemory) -> SyntaxFault {
        SyntaxFault::OutOfMemory
    }
}
