ghost use Rattle.std.specs.Prelude.{◌≡◌, ◌<◌, ◌^◌, IfOk, List, length};
ghost use Rattle.cls_base.specs.Terms.{component, Applicative};
ghost use Rattle.cls_term.specs.Banks.{at};
ghost use Rattle.cls_enum.specs.PartialTerms.{partial_term, IsPartial};

use cls_base::OutOfMemory;
use cls_term::Bank;
use std::alloc::Global;

/// A head, applied to some of the arguments that it is to have, with the number of component occurrences in that term.
#[derive(Drop)]
pub(crate) struct PartialTerm {
    pub(crate) head: u32,
    pub(crate) args: Vec<u32>,
    pub(crate) occurrences: u64,
}

impl PartialTerm {
    /// The head alone.
    pub(crate) fn from_head(alloc: Global, head: u32) -> PartialTerm
        ensures term { (terms : List Applicative) → partial_term terms result ≡ component head }
        ensures partial { (terms : List Applicative) → IsPartial terms result }
        ensures small { result.occurrences < 2 ^ 32 }
    {
        PartialTerm {
            head,
            args: Vec::new(alloc),
            occurrences: 1,
        }
    }

    /// A term of the bank. The only error is out of memory.
    pub(crate) fn from_term(
        alloc: Global,
        bank: &Bank,
        number: u32,
    ) -> Result<PartialTerm, OutOfMemory>
        requires { number < length bank.now }
        ensures term { IfOk result (λ partial. partial_term bank.now partial ≡ at bank.now number) }
        ensures partial { IfOk result (λ partial. IsPartial bank.now partial) }
        ensures small { IfOk result (λ partial. partial.occurrences < 2 ^ 32) }
    {
        let args = bank.args(number).to_vec(alloc)?;
        Ok(PartialTerm {
            head: bank.head(number),
            args,
            occurrences: u64::from(bank.length(number)),
        })
    }
}
