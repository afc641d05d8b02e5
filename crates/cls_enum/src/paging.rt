ghost use Rattle.std.specs.Prelude.{◌≡◌, ℕ, ◌+◌, ◌<◌, ◌≤◌, ◌^◌, IfOk, IfErr, IfSome, length, map, nat_lt};
ghost use Rattle.std.specs.Prelude.{option_copied, take};
ghost use Rattle.cls_base.specs.Limits.{max_term_size};
ghost use Rattle.cls_base.specs.Languages.{IsGenerated};
ghost use Rattle.cls_base.specs.Pages.{IsPage};
ghost use Rattle.cls_base.specs.Terms.{length_of, size_of};
ghost use Rattle.cls_term.specs.Banks.{at};
ghost use Rattle.cls_term.specs.Costs.{cost_of};
ghost use Rattle.cls_enum.specs.PageRequests.{request_of};
ghost use Rattle.cls_enum.specs.Faults.{IfTooMany};
ghost use Rattle.cls_enum.specs.Plans.{book_of, AllReady};
ghost use Rattle.cls_enum.specs.Requests.{request};
ghost use Rattle.cls_enum.specs.States.{ExceedsPool, FitsPool};
ghost use Rattle.cls_enum.specs.Enumerations.{IsMadeTo, HasPage, AreTooManyAt, NeedsTooMany};

use crate::PageFault;
use crate::bounds::{is_wide, next_plans};
use crate::cells::Cells;
use crate::enumeration::{Enumeration, make_node};
use crate::listed::Page;
use crate::page_request::PageRequest;
use crate::plan::{NodePlans, plans};
use cls_base::{Numbers, OutOfMemory, RuleBook};
use cls_term::{Bank, Term};
use std::alloc::Global;

/// Makes terms, size after size, until the page is known.
fn collect(
    alloc: Global,
    request: &PageRequest,
    plans: Vec<NodePlans>,
    enumeration: &mut Enumeration,
) -> Result<(), PageFault>
    requires some { 0 < length plans.items }
    requires few { length plans.items < 2 ^ 32 }
    requires ready { AllReady (book_of plans.items) (cost_of request.now.costs.now) 0 plans.items }
    requires kept { IsMadeTo plans.items request.now 0 0 enumeration.old }
    requires within { enumeration.old.total ≤ request.now.pool }
    ensures done { IfOk result (λ _. HasPage plans.items request.now enumeration.new) }
    ensures over { IfErr result (NeedsTooMany plans.items request.now) }
{
    let wide = is_wide(plans.as_slice());
    let mut current = plans;
    for size in 0..request.max {
        let rules = current.as_slice();
        make_node(alloc, request, rules, 0, size, enumeration)?;
        if enumeration.due.len() > request.take as usize {
            return Ok(());
        }
        make_others(alloc, request, rules, size, enumeration)?;
        current = next_plans(
            alloc,
            &enumeration.bank,
            &enumeration.cells,
            size,
            current,
            wide,
        )?;
    }
    let rules = current.as_slice();
    make_node(alloc, request, rules, 0, request.max, enumeration)
}

/// Makes the terms of one size of all nodes but the start.
fn make_others(
    alloc: Global,
    request: &PageRequest,
    plans: &[NodePlans],
    size: u32,
    enumeration: &mut Enumeration,
) -> Result<(), PageFault>
    requires size { size ≤ request.now.max }
    requires some { 0 < length plans.now }
    requires few { length plans.now < 2 ^ 32 }
    requires ready { AllReady (book_of plans.now) (cost_of request.now.costs.now) size plans.now }
    requires kept { IsMadeTo plans.now request.now size 1 enumeration.old }
    requires within { enumeration.old.total ≤ request.now.pool }
    ensures kept { IfOk result (λ _. IsMadeTo plans.now request.now (size + 1) 0 enumeration.new) }
    ensures within { IfOk result (λ _. enumeration.new.total ≤ request.now.pool) }
    ensures same { IfOk result (λ _. length enumeration.new.due.items ≡ length enumeration.old.due.items) }
    ensures over { IfErr result (AreTooManyAt plans.now request.now (size + 1) 0) }
{
    for node in 1..plans.len() as u32 {
        make_node(alloc, request, plans, node, size, enumeration)?;
    }
    Ok(())
}

/// The first `take` terms of the start of a rule book that come after the token, where there is one, and have size at
/// most `max_size` and length at most `MAX_TERM_LENGTH`, in the order by size and code, each once; and whether there
/// is a further one. A component that has no cost in the list costs 1. The token needn't be a term of the book.
///
/// `TooManyTerms` comes if and only if more than `pool` terms have to be held: all of all nodes that are smaller than
/// the deciding size, with those of the start that have it. The deciding size is the least one at which the page is
/// known to be full with a further term behind it, or `max_size`.
pub fn page<B: RuleBook>(
    alloc: Global,
    book: &B,
    costs: &Numbers,
    after: Option<&Term>,
    max_size: u32,
    take: u32,
    pool: u64,
) -> Result<Page, PageFault>
    requires max { max_size ≤ max_term_size }
    requires some { 1 ≤ take }
    requires costs { (x : ℕ) → 1 ≤ cost_of costs.now x }
    requires token { IfSome (option_copied after) (λ a. length_of a < 2 ^ 32) }
    ensures page { IfOk result (λ p. IsPage (IsGenerated (B.book book.now) 0)
        (request costs.now (option_copied after.entry) max_size take) p.terms p.more) }
    ensures within { IfOk result (λ _. FitsPool (B.book book.now)
        (request costs.now (option_copied after.entry) max_size take) pool) }
    ensures over { IfErr result (λ fault. IfTooMany fault (ExceedsPool (B.book book.now)
        (request costs.now (option_copied after.entry) max_size take) pool)) }
{
    let plans = plans(alloc, book, costs)?;
    let request = PageRequest {
        costs,
        after,
        after_size: token_size(costs, after),
        max: max_size,
        take,
        pool,
    };
    list(alloc, &request, plans)
}

/// The page of the rules of these plans.
fn list(alloc: Global, request: &PageRequest, plans: Vec<NodePlans>) -> Result<Page, PageFault>
    requires taken { 1 ≤ request.now.take }
    requires some { 0 < length plans.items }
    requires few { length plans.items < 2 ^ 32 }
    requires ready { AllReady (book_of plans.items) (cost_of request.now.costs.now) 0 plans.items }
    ensures page { IfOk result (λ p.
        IsPage (IsGenerated (book_of plans.items) 0) (request_of request.now) p.terms p.more) }
    ensures within { IfOk result (λ _. FitsPool (book_of plans.items) (request_of request.now) request.now.pool) }
    ensures over { IfErr result (NeedsTooMany plans.items request.now) }
{
    let mut enumeration = Enumeration {
        bank: Bank::new(alloc),
        cells: Cells::new(alloc, plans.len() as u32),
        due: Vec::new(alloc),
        total: 0,
    };
    collect(alloc, request, plans, &mut enumeration)?;
    Ok(first_due(
        alloc,
        &enumeration.bank,
        enumeration.due.as_slice(),
        request.take,
    )?)
}

/// The first of the due terms.
fn first_due(alloc: Global, bank: &Bank, due: &[u32], wanted: u32) -> Result<Page, OutOfMemory>
    ensures terms { IfOk result (λ p. p.terms ≡ take wanted (map (at bank.now) due.now)) }
    ensures more { IfOk result (λ p. p.more ≡ nat_lt wanted (length due.now)) }
{
    let listed = due.len().min(wanted as usize);
    let terms = bank.coded_terms(alloc, &due[..listed])?;
    Ok(Page {
        terms,
        more: due.len() > wanted as usize,
    })
}

/// The size of the token, 0 where there is none.
fn token_size(costs: &Numbers, after: Option<&Term>) -> u64
    requires { IfSome (option_copied after) (λ a. length_of a < 2 ^ 32) }
    ensures { IfSome (option_copied after.entry) (λ a. result ≡ size_of (cost_of costs.now) a) }
{
    match after {
        None => 0,
        Some(token) => token.size(costs),
    }
}
