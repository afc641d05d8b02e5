ghost use Rattle.std.specs.Prelude.{◌≡◌, IfOk};
ghost use Rattle.cls_base.specs.Terms.{Applicative, code_of};
ghost use Rattle.cls_term.specs.Decodes.{ArePassed, BeginsWithTerms};

use crate::Term;
use crate::decode::decode;
use cls_base::OutOfMemory;
use std::alloc::Global;
use std::marker::Model;

/// A term, kept by its code alone and seen as the term. Its code is one list, where a tree takes memory for each
/// component that has arguments.
#[derive(Drop)]
pub struct CodedTerm {
    code: Vec<u32>,
}

impl Model for CodedTerm {
    ghost use Rattle.std.specs.Prelude.{◌≡◌};
    ghost use Rattle.cls_base.specs.Terms.{Applicative, code_of};
    ghost use Rattle.cls_term.specs.Decodes.{term_in};
    ghost use Rattle.cls_term.specs.Stored.{coded_term};

    ghost Value = { Applicative };

    ghost coded = { coded_term };

    ghost view = { λ c. term_in c.code.items };

    ghost invariant = { λ c. c.code.items ≡ code_of (term_in c.code.items) };
}

impl CodedTerm {
    /// The term with this code. It takes no memory.
    #[tactic(auto, using(crate::proofs::CodeLists::codes))]
    pub fn from_vec(code: Vec<u32>) -> CodedTerm
        requires { (e : Applicative) × (code.items ≡ code_of e) }
        ensures { (e : Applicative) → code.items ≡ code_of e → result ≡ e }
    {
        CodedTerm { code }
    }

    /// Its code: the number of its head, the number of arguments, and the codes of the arguments.
    #[tactic(auto, using(crate::proofs::CodeLists::codes))]
    pub fn code(&self) -> &[u32]
        ensures { result.now ≡ code_of self.now }
    {
        self.code.as_slice()
    }

    /// The term as a tree. The only error is out of memory.
    #[tactic(auto, using(crate::proofs::CodeLists::codes))]
    pub fn term(&self, alloc: Global) -> Result<Term, OutOfMemory>
        ensures { IfOk result (λ term. term ≡ self.now) }
    {
        Ok(decode(alloc, self.code())?)
    }
}

/// The numbers behind the codes of so many terms.
pub fn behind_terms(code: &[u32], count: u32) -> &[u32]
    requires { BeginsWithTerms count code.now }
    ensures { ArePassed count code.now result.now }
{
    let mut left = count as usize;
    let mut rest = code;
    while left > 0 {
        left = left - 1 + rest[1] as usize;
        rest = &rest[2..];
    }
    rest
}
