//! Why lines aren't a certificate.
ghost use Rattle.std.specs.Prelude.{◌≡◌};
ghost use Rattle.cls_proof.specs.declared.proof_fault.ProofFault.TheVariants as faults;

use cls_base::OutOfMemory;
use thiserror::Error;

/// Why lines aren't a certificate.
#[derive(Clone, Copy, Debug, Error, PartialEq, Eq)]
pub enum ProofFault {
    /// The number of the first bad line, counted from 1. A line is bad if it isn't skipped and isn't allowed at its place,
    /// is too long, isn't UTF-8, is too deep, has a type with over 1,024 nodes or a spread over 16,384, has a variable,
    /// names no component that is declared, or has a number over 4,294,967,295.
    #[error("line {0} is bad")]
    BadLine(u32),
    /// No line is bad, and none is `qed`.
    #[error("no line is qed")]
    NoQed,
    /// There is no memory left.
    #[error("out of memory")]
    OutOfMemory,
}

impl From<OutOfMemory> for ProofFault {
    ghost from_gives = { λ _ fault. fault ≡ faults.OutOfMemory };

    fn from(_: OutOfMemory) -> ProofFault {
        ProofFault::OutOfMemory
    }
}
