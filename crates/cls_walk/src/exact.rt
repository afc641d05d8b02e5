//! A page by exact numbers: size after size the due terms are listed and the terms of all nodes are counted, both over
//! frames. No term is longer than it is large, so that sizes up to 64 have no term that is too long.
ghost use Rattle.std.specs.Prelude.{◌≡◌, ℕ, true, [], ◌+◌, ◌<◌, ◌≤◌, ◌^◌, List, length};
ghost use Rattle.std.specs.Prelude.{IfOk, IfErr, IfSome, option_copied};
ghost use Rattle.std.specs.Option.{IsNone};
ghost use Rattle.cls_base.specs.Languages.{IsGenerated};
ghost use Rattle.cls_base.specs.Limits.{max_term_size};
ghost use Rattle.cls_base.specs.Pages.{IsDue, IsPage};
ghost use Rattle.cls_base.specs.Terms.{length_of};
ghost use Rattle.cls_base.specs.declared.rule.Rule.{Rule};
ghost use Rattle.cls_term.specs.Costs.{cost_of};
ghost use Rattle.cls_enum.specs.Faults.{IfTooMany};
ghost use Rattle.cls_enum.specs.Requests.{request};
ghost use Rattle.cls_enum.specs.States.{ExceedsPool, FitsPool};
ghost use Rattle.cls_walk.specs.Exact.{asked, IsFound, IsSearch, IsSearchBy, IsSearched};
ghost use Rattle.cls_walk.specs.PageFronts.{IsDueCode};
ghost use Rattle.cls_walk.specs.Walks.{IsBack, Lists};

use crate::attempt::{code_of_cursor, cursor_at, page_of};
use crate::form::Forms;
use crate::guide::Guide;
use crate::order::is_ordered;
use crate::plan::Plan;
use crate::pool_count::{count_others, count_within};
use crate::rules::rules_of;
use crate::smallest::{head_sizes, smallest_sizes};
use crate::stroll::stroll;
use crate::table::Table;
use crate::totals::size_of_cursor;
use crate::walk::Walk;
use cls_base::limits::MAX_TERM_LENGTH;
use cls_base::{Numbers, OutOfMemory, RuleBook};
use cls_enum::{Page, PageFault};
use cls_term::Term;
use std::alloc::Global;

/// What a page is looked for by: the cursor with its size and code, the greatest size, how many nodes there are, and
/// the pool.
#[derive(Clone, Copy)]
pub(crate) struct Search<'x> {
    pub(crate) after: Option<&'x Term>,
    pub(crate) from: u64,
    pub(crate) code: &'x [u32],
    pub(crate) max_size: u32,
    pub(crate) width: u32,
    pub(crate) pool: u64,
}

/// Lists the codes of the due terms of this size, and says whether to go on.
fn list_due(
    alloc: Global,
    plan: &Plan,
    search: Search,
    size: u32,
    walk: &mut Walk,
) -> Result<bool, OutOfMemory>
    requires max { size ≤ search.max_size }
    requires few { length walk.old.codes ≤ plan.now.take }
    ensures back { IfOk result (IsBack plan.now walk.old walk.new) }
    ensures listed { (book : List (List (Rule ℕ))) → let r = asked plan.now search.entry in
        IsSearch book plan.now search.entry
        → IfOk result (Lists (IsDueCode (IsDue (IsGenerated book 0) r) r.cost size) walk.old walk.new) }
{
    let Some(cursor) = cursor_at(search.after, search.from, search.code, size) else {
        return Ok(true);
    };
    stroll(alloc, plan, walk, size, cursor)
}

/// Goes on by one size, where `made` pairs are smaller. Gives the number of pairs with those of this size, None where
/// the page is known at it.
fn at_size(
    alloc: Global,
    plan: &Plan,
    search: Search,
    size: u32,
    made: u64,
    walk: &mut Walk,
) -> Result<Option<u64>, PageFault>
    requires some { 1 ≤ plan.now.take }
    requires max { size ≤ search.max_size }
    requires within { made ≤ search.pool }
    requires few { length walk.old.codes ≤ plan.now.take }
    ensures within { IfOk result (λ answer. IfSome answer (λ total. total ≤ search.entry.pool)) }
    ensures few { IfOk result (λ answer. IfSome answer (λ _. length walk.new.codes ≤ plan.now.take)) }
    ensures searched { (book : List (List (Rule ℕ))) → let r = asked plan.now search.entry in
        IsSearch book plan.now search.entry → IsSearched book r size made walk.old
        → IfOk result (λ answer. IfSome answer (λ total. IsSearched book r (size + 1) total walk.new)) }
    ensures found { (book : List (List (Rule ℕ))) → let r = asked plan.now search.entry in
        IsSearch book plan.now search.entry → IsSearched book r size made walk.old
        → IfOk result (λ answer. IsNone answer → IsFound book r search.entry.pool size walk.new.codes) }
    ensures over { (book : List (List (Rule ℕ))) → let r = asked plan.now search.entry in
        IsSearch book plan.now search.entry → IsSearched book r size made walk.old
        → IfErr result (λ fault. IfTooMany fault (ExceedsPool book r search.entry.pool)) }
{
    let going = list_due(alloc, plan, search, size, walk)?;
    let own = count_within(alloc, plan, 0, size, search.pool - made)?;
    if !going || size == search.max_size {
        return Ok(None);
    }
    let total = count_others(alloc, plan, search, size, made + own)?;
    Ok(Some(total))
}

/// Goes on size after size, and says whether the page is known by size `MAX_TERM_LENGTH`. Nothing is listed before.
fn by_sizes(alloc: Global, plan: &Plan, search: Search, walk: &mut Walk) -> Result<bool, PageFault>
    requires some { 1 ≤ plan.now.take }
    requires fresh { (walk.old.code.items ≡ []) × (walk.old.codes ≡ []) }
    ensures found { (book : List (List (Rule ℕ))) → let r = asked plan.now search.entry in
        IsSearch book plan.now search.entry → IfOk result (λ is_known. is_known ≡ true
        → (size : ℕ) × IsFound book r search.entry.pool size walk.new.codes) }
    ensures over { (book : List (List (Rule ℕ))) → let r = asked plan.now search.entry in
        IsSearch book plan.now search.entry
        → IfErr result (λ fault. IfTooMany fault (ExceedsPool book r search.entry.pool)) }
{
    let last = search.max_size.min(MAX_TERM_LENGTH as u32);
    let mut made = 0;
    for size in 1..last + 1 {
        let Some(total) = at_size(alloc, plan, search, size, made, walk)? else {
            return Ok(true);
        };
        made = total;
    }
    Ok(false)
}

/// The page by this plan.
fn by_plan(alloc: Global, plan: &Plan, search: Search) -> Result<Option<Page>, PageFault>
    requires some { 1 ≤ plan.now.take }
    requires search { (book : List (List (Rule ℕ))) × IsSearch book plan.now search }
    ensures page { (book : List (List (Rule ℕ))) → let r = asked plan.now search.entry in
        IsSearch book plan.now search.entry
        → IfOk result (λ answer. IfSome answer (λ p. IsPage (IsGenerated book 0) r p.terms p.more)) }
    ensures within { (book : List (List (Rule ℕ))) → let r = asked plan.now search.entry in
        IsSearch book plan.now search.entry
        → IfOk result (λ answer. IfSome answer (λ _. FitsPool book r search.entry.pool)) }
    ensures over { (book : List (List (Rule ℕ))) → let r = asked plan.now search.entry in
        IsSearch book plan.now search.entry
        → IfErr result (λ fault. IfTooMany fault (ExceedsPool book r search.entry.pool)) }
{
    let mut walk = Walk::new(alloc);
    if !by_sizes(alloc, plan, search, &mut walk)? {
        return Ok(None);
    }
    Ok(Some(page_of(walk.codes, plan.take)))
}

/// The page by this guide.
fn by_guide<'x, 'b>(
    alloc: Global,
    costs: &'x Numbers,
    take: u32,
    guide: Guide<'x, 'b>,
    search: Search,
) -> Result<Option<Page>, PageFault>
    requires some { 1 ≤ take }
    requires costs { (x : ℕ) → 1 ≤ cost_of costs.now x }
    requires search { (book : List (List (Rule ℕ))) × IsSearchBy book costs.now guide search }
    ensures page { (book : List (List (Rule ℕ))) → let q = search.entry in
        let r = request costs.now (option_copied q.after) q.max_size take in
        IsSearchBy book costs.now guide.entry q
        → IfOk result (λ answer. IfSome answer (λ p. IsPage (IsGenerated book 0) r p.terms p.more)) }
    ensures within { (book : List (List (Rule ℕ))) → let q = search.entry in
        let r = request costs.now (option_copied q.after) q.max_size take in
        IsSearchBy book costs.now guide.entry q
        → IfOk result (λ answer. IfSome answer (λ _. FitsPool book r q.pool)) }
    ensures over { (book : List (List (Rule ℕ))) → let q = search.entry in
        let r = request costs.now (option_copied q.after) q.max_size take in
        IsSearchBy book costs.now guide.entry q
        → IfErr result (λ fault. IfTooMany fault (ExceedsPool book r q.pool)) }
{
    let forms = Forms {
        nodes: Vec::new(alloc),
    };
    let none = Numbers::new(Vec::new(alloc));
    let no_sizes = Table::new(alloc);
    let plan = Plan {
        costs,
        forms: &forms,
        least: &none,
        sizes: &no_sizes,
        upper: &no_sizes,
        take,
        is_rising: false,
        guide,
    };
    by_plan(alloc, &plan, search)
}

/// The page with exact numbers of terms: size after size the due terms are listed, and all terms of all nodes are
/// counted. None where the page isn't known by size `MAX_TERM_LENGTH`.
pub(crate) fn exact_page<B: RuleBook>(
    alloc: Global,
    book: &B,
    costs: &Numbers,
    after: Option<&Term>,
    max_size: u32,
    take: u32,
    pool: u64,
) -> Result<Option<Page>, PageFault>
    requires max { max_size ≤ max_term_size }
    requires some { 1 ≤ take }
    requires costs { (x : ℕ) → 1 ≤ cost_of costs.now x }
    requires token { IfSome (option_copied after) (λ a. length_of a < 2 ^ 32) }
    ensures page { let r = request costs.now (option_copied after.entry) max_size take in
        IfOk result (λ answer. IfSome answer (λ p. IsPage (IsGenerated (B.book book.now) 0) r p.terms p.more)) }
    ensures within { let r = request costs.now (option_copied after.entry) max_size take in
        IfOk result (λ answer. IfSome answer (λ _. FitsPool (B.book book.now) r pool)) }
    ensures over { let r = request costs.now (option_copied after.entry) max_size take in
        IfErr result (λ fault. IfTooMany fault (ExceedsPool (B.book book.now) r pool)) }
{
    let code = code_of_cursor(alloc, after)?;
    let search = Search {
        after,
        from: size_of_cursor(costs, after),
        code: code.as_slice(),
        max_size,
        width: book.count(),
        pool,
    };
    let rules = rules_of(alloc, book)?;
    let most = max_size.min(MAX_TERM_LENGTH as u32) + 1;
    let least = smallest_sizes(alloc, costs, &rules, search.width, most)?;
    let sizes = head_sizes(alloc, costs, &least, &rules)?;
    let guide = Guide {
        rules: &rules,
        least: &least,
        sizes: &sizes,
        start: 0,
        is_ordered: is_ordered(book),
    };
    by_guide(alloc, costs, take, guide, search)
}
