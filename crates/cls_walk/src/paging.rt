ghost use Rattle.std.specs.Prelude.{◌≡◌, ℕ, ◌+◌, ◌<◌, ◌≤◌, ◌^◌, IfOk, IfErr, IfSome, option_copied};
ghost use Rattle.cls_base.specs.Limits.{max_term_length, max_term_size};
ghost use Rattle.cls_base.specs.Languages.{IsGenerated};
ghost use Rattle.cls_base.specs.Pages.{IsPage};
ghost use Rattle.cls_base.specs.Terms.{length_of};
ghost use Rattle.cls_term.specs.Costs.{cost_of};
ghost use Rattle.cls_enum.specs.Faults.{IfTooMany};
ghost use Rattle.cls_enum.specs.Requests.{request};
ghost use Rattle.cls_enum.specs.States.{ExceedsPool, FitsPool};
ghost use Rattle.cls_walk.specs.Bounds.{HasUpper};

use crate::attempt::walk_page;
use crate::counted::{Counted, count, is_within};
use crate::ends::last_size;
use crate::exact::exact_page;
use crate::refusal::is_refused;
use cls_base::limits::MAX_TERM_LENGTH;
use cls_base::{Numbers, RuleBook};
use cls_enum::{Page, PageFault};
use cls_term::Term;
use std::alloc::Global;

/// The first `take` terms of the start of a rule book that come after the cursor, where there is one, and have size at
/// most `max_size` and length at most `MAX_TERM_LENGTH`, in the order by size and code, each once; and whether there
/// is a further one. A component that has no cost in the list costs 1. The cursor needn't be a term of the book.
///
/// `TooManyTerms` comes if and only if more than `pool` terms have to be held: all of all nodes that are smaller than
/// the deciding size, with those of the start that have it. The deciding size is the least one at which the page is
/// known to be full with a further term behind it, or `max_size`.
pub fn page<B: RuleBook>(
    alloc: Global,
    book: &B,
    costs: &Numbers,
    after: Option<&Term>,
    max_size: u32,
    take: u32,
    pool: u64,
) -> Result<Page, PageFault>
    requires max { max_size ≤ max_term_size }
    requires some { 1 ≤ take }
    requires costs { (x : ℕ) → 1 ≤ cost_of costs.now x }
    requires token { IfSome (option_copied after) (λ a. length_of a < 2 ^ 32) }
    ensures page { let r = request costs.now (option_copied after.entry) max_size take in
        IfOk result (λ p. IsPage (IsGenerated (B.book book.now) 0) r p.terms p.more) }
    ensures within { let r = request costs.now (option_copied after.entry) max_size take in
        IfOk result (λ _. FitsPool (B.book book.now) r pool) }
    ensures over { let r = request costs.now (option_copied after.entry) max_size take in
        IfErr result (λ fault. IfTooMany fault (ExceedsPool (B.book book.now) r pool)) }
{
    let last = last_size(book, costs, max_size);
    let end = last.min(MAX_TERM_LENGTH as u32);
    let mut counted = count(alloc, book, costs, after, take, pool, end)?;
    let walked = walked(alloc, book, costs, after, last, take, pool, &mut counted)?;
    if let Some(page) = walked {
        return Ok(page);
    }
    cls_enum::page(alloc, book, costs, after, last, take, pool)
}

/// The page where bounds or exact numbers of terms up to size `MAX_TERM_LENGTH` tell it, None where they don't.
fn walked<B: RuleBook>(
    alloc: Global,
    book: &B,
    costs: &Numbers,
    after: Option<&Term>,
    max_size: u32,
    take: u32,
    pool: u64,
    counted: &mut Counted,
) -> Result<Option<Page>, PageFault>
    requires max { max_size ≤ max_term_size }
    requires some { 1 ≤ take }
    requires costs { (x : ℕ) → 1 ≤ cost_of costs.now x }
    requires token { IfSome (option_copied after) (λ a. length_of a < 2 ^ 32) }
    requires last { counted.old.last ≤ max_size }
    requires short { counted.old.last ≤ max_term_length }
    requires upper { HasUpper (B.book book.now) (cost_of costs.now) (counted.old.last + 1) counted.old.table }
    ensures page { let r = request costs.now (option_copied after.entry) max_size take in
        IfOk result (λ answer. IfSome answer (λ p. IsPage (IsGenerated (B.book book.now) 0) r p.terms p.more)) }
    ensures within { let r = request costs.now (option_copied after.entry) max_size take in
        IfOk result (λ answer. IfSome answer (λ _. FitsPool (B.book book.now) r pool)) }
    ensures over { let r = request costs.now (option_copied after.entry) max_size take in
        IfErr result (λ fault. IfTooMany fault (ExceedsPool (B.book book.now) r pool)) }
{
    if is_within(&counted.table, counted.last, book.count(), pool) {
        let page = walk_page(alloc, book, costs, after, max_size, take, pool, counted)?;
        // Where all sizes were listed that a walk lists, another one finds no more.
        if page.is_some() || counted.last == MAX_TERM_LENGTH as u32 {
            return Ok(page);
        }
    } else if is_refused(alloc, book, costs, after, max_size, take, pool, counted)? {
        return Err(PageFault::TooManyTerms);
    }
    exact_page(alloc, book, costs, after, max_size, take, pool)
}
