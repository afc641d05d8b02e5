//! Reads a term from its code.
ghost use Rattle.std.specs.Prelude.{◌≡◌, ℕ, ◌++◌, IfOk, List, length};
ghost use Rattle.cls_base.specs.Spines.{codes_of};
ghost use Rattle.cls_base.specs.Terms.{Applicative, code_of};
ghost use Rattle.cls_term.specs.Decodes.{BeginsWithTerm, BeginsWithTerms};

use crate::{Term, Terms};
use cls_base::OutOfMemory;
use std::alloc::Global;

/// The term with whose code the numbers begin, and the numbers behind it.
#[cycle(reading)]
fn read_term<'a>(alloc: Global, code: &'a [u32]) -> Result<(Term, &'a [u32]), OutOfMemory>
    requires { BeginsWithTerm code.now }
    ensures { IfOk result (λ r. code.now ≡ code_of r.0 ++ r.1.now) }
{
    let (args, rest) = read_terms(alloc, code[1], &code[2..])?;
    Ok((Term::new(code[0], args), rest))
}

/// The terms, as many as are wanted, with whose codes the numbers begin, and the numbers behind them.
#[cycle(reading)]
fn read_terms<'a>(
    alloc: Global,
    count: u32,
    code: &'a [u32],
) -> Result<(Terms, &'a [u32]), OutOfMemory>
    requires { BeginsWithTerms count code.now }
    ensures many { IfOk result (λ r. length r.0 ≡ count) }
    ensures codes { IfOk result (λ r. code.now ≡ codes_of r.0 ++ r.1.now) }
{
    let mut terms = Vec::with_capacity(alloc, count as usize)?;
    let mut rest = code;
    for _place in 0..count {
        let (term, after) = read_term(alloc, rest)?;
        terms.push(term)?;
        rest = after;
    }
    Ok((Terms::from_vec(terms), rest))
}

/// The term of this code.
pub(crate) fn decode(alloc: Global, code: &[u32]) -> Result<Term, OutOfMemory>
    requires { (e : Applicative) × (code_of e ≡ code.now) }
    ensures { IfOk result (λ term. code_of term ≡ code.now) }
{
    let (term, _rest) = read_term(alloc, code)?;
    Ok(term)
}
