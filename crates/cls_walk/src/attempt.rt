//! Makes a page by the walk, if the upper bounds allow it: by the forms of the nodes where they rise, else over frames.
ghost use Rattle.std.specs.Prelude.{◌≡◌, ℕ, true, false, ◌+◌, ◌≤◌, ◌<◌, ◌^◌, ◌⊎◌, ◌↔◌, [], IfOk, IfSome};
ghost use Rattle.std.specs.Prelude.{List, length, map, nat_lt, option_copied, take};
ghost use Rattle.std.specs.Option.{IsNone};
ghost use Rattle.std.proofs.Props.{props};
ghost use Rattle.cls_base.specs.declared.rule.Rule.{Rule};
ghost use Rattle.cls_base.specs.Languages.{IsGenerated};
ghost use Rattle.cls_base.specs.Limits.{max_term_length, max_term_size};
ghost use Rattle.cls_base.specs.Pages.{IsPage, IsDue};
ghost use Rattle.cls_base.specs.Terms.{Applicative, Before, code_of, length_of, size_of};
ghost use Rattle.cls_term.specs.Costs.{cost_of};
ghost use Rattle.cls_enum.specs.Requests.{request};
ghost use Rattle.cls_enum.specs.States.{FitsPool};
ghost use Rattle.cls_walk.specs.Attempts.{AreDueCodes, AreFormsUpTo, IsStart};
ghost use Rattle.cls_walk.specs.Bounds.{HasUpper};
ghost use Rattle.cls_walk.specs.Filled.{AreLeast, EachRise};
ghost use Rattle.cls_walk.specs.FrameGuides.{IsGuide};
ghost use Rattle.cls_walk.specs.FramePlans.{IsPlan};
ghost use Rattle.cls_walk.specs.PageFronts.{IsDueCode};
ghost use Rattle.cls_walk.specs.Sizes.{HasSizes};
ghost use Rattle.cls_walk.specs.Stretches.{Remembers};
ghost use Rattle.cls_walk.specs.Walks.{IsBack, IsBehind, Lists};

use crate::build::{each_rises, forms_of};
use crate::counted::{Counted, is_within};
use crate::cursor::{Cursor, passed};
use crate::form::Forms;
use crate::guide::Guide;
use crate::least::{form_sizes, least_sizes};
use crate::listing::list_size;
use crate::order::is_ordered;
use crate::plan::Plan;
use crate::rules::{Rules, rules_of};
use crate::smallest::{head_sizes, smallest_sizes};
use crate::table::Table;
use crate::totals::size_of_cursor;
use crate::walk::Walk;
use cls_base::{NumberLists, Numbers, OutOfMemory, RuleBook};
use cls_enum::Page;
use cls_term::{CodedTerms, Term};
use std::alloc::Global;

/// What is left of the cursor where codes of this size are written, None where terms of this size come before it.
pub(crate) fn cursor_at<'a>(
    after: Option<&Term>,
    from: u64,
    code: &'a [u32],
    size: u32,
) -> Option<Cursor<'a>>
    ensures some { (cost : ℕ → ℕ) → IsStart cost (option_copied after.entry) from code.now
        → IfSome result (λ c. (e : Applicative) → size_of cost e ≡ size
        → IfSome (option_copied after.entry) (λ a. Before cost a e) ↔ IsBehind c (code_of e)) }
    ensures none { (cost : ℕ → ℕ) → IsStart cost (option_copied after.entry) from code.now → IsNone result
        → (e : Applicative) → size_of cost e ≡ size → IfSome (option_copied after.entry) (λ a. Before cost a e) → ⊥ }
{
    match after {
        None => Some(passed()),
        Some(_) => {
            if u64::from(size) < from {
                return None;
            }
            if from < u64::from(size) {
                return Some(passed());
            }
            Some(Cursor {
                code,
                passed: false,
            })
        }
    }
}

/// Lists the codes of the due terms of this size, and says whether to go on. Where the upper bound tells that no term
/// has the size, none is looked for.
fn walk_size(
    alloc: Global,
    plan: &Plan,
    after: Option<&Term>,
    from: u64,
    code: &[u32],
    size: u32,
    walk: &mut Walk,
) -> Result<bool, OutOfMemory>
    requires some { 1 ≤ size }
    requires short { size ≤ max_term_length }
    requires start { IsStart (cost_of plan.now.costs.now) (option_copied after) from code.now }
    requires resting { (walk.old.awaited.items ≡ []) × (walk.old.code.items ≡ []) }
    requires few { length walk.old.codes ≤ plan.now.take }
    requires known { Remembers plan.now walk.old }
    requires rising { plan.now.is_rising ≡ true → EachRise plan.now.forms.now }
    ensures back { IfOk result (IsBack plan.now walk.old walk.new) }
    ensures listed { (book : List (List (Rule ℕ))) (last max : ℕ)
        → let r = request plan.now.costs.now (option_copied after.entry) max plan.now.take in
        IsPlan book last plan.now → size ≤ last → size ≤ max
        → IfOk result (Lists (IsDueCode (IsDue (IsGenerated book 0) r) r.cost size) walk.old walk.new) }
{
    if plan.upper.get(size, 0) == 0 {
        return Ok(true);
    }
    let Some(cursor) = cursor_at(after, from, code, size) else {
        return Ok(true);
    };
    list_size(alloc, plan, walk, size, cursor)
}

/// Lists the codes of the due terms size after size, until the list is full or the last size is reached. Gives the
/// size.
fn walk_sizes(
    alloc: Global,
    plan: &Plan,
    after: Option<&Term>,
    from: u64,
    code: &[u32],
    last: u32,
    walk: &mut Walk,
) -> Result<u32, OutOfMemory>
    requires some { 1 ≤ last }
    requires short { last ≤ max_term_length }
    requires start { IsStart (cost_of plan.now.costs.now) (option_copied after) from code.now }
    requires resting { (walk.old.awaited.items ≡ []) × (walk.old.code.items ≡ []) × (walk.old.codes ≡ []) }
    requires known { Remembers plan.now walk.old }
    requires rising { plan.now.is_rising ≡ true → EachRise plan.now.forms.now }
    ensures within { IfOk result (λ size. size ≤ last) }
    ensures ends { IfOk result (λ size. (plan.now.take < length walk.new.codes) ⊎ (size ≡ last)) }
    ensures listed { (book : List (List (Rule ℕ))) (max : ℕ)
        → let r = request plan.now.costs.now (option_copied after.entry) max plan.now.take in
        IsPlan book last plan.now → last ≤ max
        → IfOk result (λ size. AreDueCodes book r (size + 1) walk.new.codes) }
{
    for size in 1..last {
        if !walk_size(alloc, plan, after, from, code, size, walk)? {
            return Ok(size);
        }
    }
    let _going = walk_size(alloc, plan, after, from, code, last, walk)?;
    Ok(last)
}

/// The page of the first `wanted` of the terms with these codes.
pub(crate) fn page_of(codes: NumberLists, wanted: u32) -> Page
    requires { (es : List Applicative) × (codes ≡ map code_of es) }
    ensures terms { (es : List Applicative) → codes ≡ map code_of es → result.terms ≡ take wanted es }
    ensures more { result.more ≡ nat_lt wanted (length codes) }
{
    let more = codes.len() > wanted as usize;
    let mut listed = codes;
    listed.truncate(wanted as usize);
    Page {
        terms: CodedTerms::from_lists(listed),
        more,
    }
}

/// The code of the cursor, and no number where there is none.
pub(crate) fn code_of_cursor(alloc: Global, after: Option<&Term>) -> Result<Numbers, OutOfMemory>
    ensures { IfOk result (λ code. IfSome (option_copied after.entry) (λ a. code ≡ code_of a)) }
{
    match after {
        None => Ok(Numbers::new(Vec::new(alloc))),
        Some(token) => Ok(token.code(alloc)?),
    }
}

/// What is asked of a walk: the costs, the cursor, the greatest size, how many terms, the pool, and what is counted.
#[derive(Clone, Copy)]
struct Question<'x> {
    costs: &'x Numbers,
    after: Option<&'x Term>,
    max_size: u32,
    take: u32,
    pool: u64,
    counted: &'x Counted,
    ghost some: { 1 ≤ take },
    ghost positive: { (x : ℕ) → 1 ≤ cost_of costs.now x },
    ghost token: { IfSome (option_copied after) (λ a. length_of a < 2 ^ 32) } by { Prim.hlevel props },
    ghost last: { counted.now.last ≤ max_size },
    ghost counted_some: { 1 ≤ counted.now.last },
    ghost short: { counted.now.last ≤ max_term_length },
}

/// The page, if it is found by the walk and the upper bounds that are counted tell that there are not too many terms.
pub(crate) fn walk_page<'x, B: RuleBook>(
    alloc: Global,
    book: &B,
    costs: &'x Numbers,
    after: Option<&'x Term>,
    max_size: u32,
    take: u32,
    pool: u64,
    counted: &'x Counted,
) -> Result<Option<Page>, OutOfMemory>
    requires max { max_size ≤ max_term_size }
    requires some { 1 ≤ take }
    requires costs { (x : ℕ) → 1 ≤ cost_of costs.now x }
    requires token { IfSome (option_copied after) (λ a. length_of a < 2 ^ 32) }
    requires last { counted.now.last ≤ max_size }
    requires short { counted.now.last ≤ max_term_length }
    requires upper { HasUpper (B.book book.now) (cost_of costs.now) (counted.now.last + 1) counted.now.table }
    ensures page { let r = request costs.now (option_copied after.entry) max_size take in
        IfOk result (λ answer. IfSome answer (λ p. IsPage (IsGenerated (B.book book.now) 0) r p.terms p.more)) }
    ensures within { let r = request costs.now (option_copied after.entry) max_size take in
        IfOk result (λ answer. IfSome answer (λ _. FitsPool (B.book book.now) r pool)) }
{
    if counted.last == 0 {
        return Ok(None);
    }
    let question = Question {
        costs,
        after,
        max_size,
        take,
        pool,
        counted,
    };
    let forms = forms_of(alloc, book, counted.last)?;
    if let Some(forms) = &forms
        && each_rises(forms)
    {
        return by_forms(alloc, book, question, forms);
    }
    by_frames(alloc, book, question)
}

/// The page by the forms of the nodes, which rise.
fn by_forms<B: RuleBook>(
    alloc: Global,
    book: &B,
    question: Question,
    forms: &Forms,
) -> Result<Option<Page>, OutOfMemory>
    requires upper { HasUpper (B.book book.now) (cost_of question.costs.now) (question.counted.now.last + 1)
        question.counted.now.table }
    requires forms { AreFormsUpTo (B.book book.now) question.counted.now.last forms.now }
    requires rising { EachRise forms.now }
    ensures page { let q = question.entry in
        let r = request q.costs.now (option_copied q.after) q.max_size q.take in
        IfOk result (λ answer. IfSome answer (λ p. IsPage (IsGenerated (B.book book.now) 0) r p.terms p.more)) }
    ensures within { let q = question.entry in
        let r = request q.costs.now (option_copied q.after) q.max_size q.take in
        IfOk result (λ answer. IfSome answer (λ _. FitsPool (B.book book.now) r q.pool)) }
{
    let least = least_sizes(alloc, question.costs, forms, question.counted.last + 1)?;
    let sizes = form_sizes(alloc, question.costs, &least, forms)?;
    let rules = Rules::new(alloc);
    let guide = Guide {
        rules: &rules,
        least: &least,
        sizes: &sizes,
        start: 0,
        is_ordered: false,
    };
    walk_with(alloc, book, question, forms, &least, &sizes, true, guide)
}

/// The page over frames.
fn by_frames<B: RuleBook>(
    alloc: Global,
    book: &B,
    question: Question,
) -> Result<Option<Page>, OutOfMemory>
    requires upper { HasUpper (B.book book.now) (cost_of question.costs.now) (question.counted.now.last + 1)
        question.counted.now.table }
    ensures page { let q = question.entry in
        let r = request q.costs.now (option_copied q.after) q.max_size q.take in
        IfOk result (λ answer. IfSome answer (λ p. IsPage (IsGenerated (B.book book.now) 0) r p.terms p.more)) }
    ensures within { let q = question.entry in
        let r = request q.costs.now (option_copied q.after) q.max_size q.take in
        IfOk result (λ answer. IfSome answer (λ _. FitsPool (B.book book.now) r q.pool)) }
{
    let rules = rules_of(alloc, book)?;
    let most = question.counted.last + 1;
    let least = smallest_sizes(alloc, question.costs, &rules, book.count(), most)?;
    let sizes = head_sizes(alloc, question.costs, &least, &rules)?;
    let forms = Forms {
        nodes: Vec::new(alloc),
    };
    let none = Numbers::new(Vec::new(alloc));
    let no_sizes = Table::new(alloc);
    let guide = Guide {
        rules: &rules,
        least: &least,
        sizes: &sizes,
        start: 0,
        is_ordered: is_ordered(book),
    };
    walk_with(
        alloc, book, question, &forms, &none, &no_sizes, false, guide,
    )
}

/// The page by these forms, where they rise, and else over frames by the guide.
fn walk_with<'x, 'b, B: RuleBook>(
    alloc: Global,
    book: &B,
    question: Question<'x>,
    forms: &'x Forms,
    least: &'x Numbers,
    sizes: &'x Table,
    is_rising: bool,
    guide: Guide<'x, 'b>,
) -> Result<Option<Page>, OutOfMemory>
    requires upper { HasUpper (B.book book.now) (cost_of question.costs.now) (question.counted.now.last + 1)
        question.counted.now.table }
    requires least { AreLeast forms.now (cost_of question.costs.now) least.now }
    requires sized { HasSizes (cost_of question.costs.now) least.now forms.now sizes.now }
    requires rising { is_rising ≡ true → EachRise forms.now }
    requires forms { is_rising ≡ true → AreFormsUpTo (B.book book.now) question.counted.now.last forms.now }
    requires guide { is_rising ≡ false → IsGuide (B.book book.now) (cost_of question.costs.now) guide }
    requires start { guide.start ≡ 0 }
    ensures page { let q = question.entry in
        let r = request q.costs.now (option_copied q.after) q.max_size q.take in
        IfOk result (λ answer. IfSome answer (λ p. IsPage (IsGenerated (B.book book.now) 0) r p.terms p.more)) }
    ensures within { let q = question.entry in
        let r = request q.costs.now (option_copied q.after) q.max_size q.take in
        IfOk result (λ answer. IfSome answer (λ _. FitsPool (B.book book.now) r q.pool)) }
{
    let plan = Plan {
        costs: question.costs,
        forms,
        least,
        sizes,
        upper: &question.counted.table,
        take: question.take,
        is_rising,
        guide,
    };
    walk_by(alloc, book, &plan, question)
}

/// The page by this plan.
fn walk_by<B: RuleBook>(
    alloc: Global,
    book: &B,
    plan: &Plan,
    question: Question,
) -> Result<Option<Page>, OutOfMemory>
    requires some { 1 ≤ plan.now.take }
    requires rising { plan.now.is_rising ≡ true → EachRise plan.now.forms.now }
    requires plan { IsPlan (B.book book.now) question.counted.now.last plan.now }
    ensures page { let q = question.entry in
        let r = request plan.now.costs.now (option_copied q.after) q.max_size plan.now.take in
        IfOk result (λ answer. IfSome answer (λ p. IsPage (IsGenerated (B.book book.now) 0) r p.terms p.more)) }
    ensures within { let q = question.entry in
        let r = request plan.now.costs.now (option_copied q.after) q.max_size plan.now.take in
        IfOk result (λ answer. IfSome answer (λ _. FitsPool (B.book book.now) r q.pool)) }
{
    let code = code_of_cursor(alloc, question.after)?;
    let mut walk = Walk::new(alloc);
    let from = size_of_cursor(plan.costs, question.after);
    let last = question.counted.last;
    let size = walk_sizes(
        alloc,
        plan,
        question.after,
        from,
        code.as_slice(),
        last,
        &mut walk,
    )?;
    let is_known = walk.codes.len() > plan.take as usize || size == question.max_size;
    if !is_known || !is_within(plan.upper, size, book.count(), question.pool) {
        return Ok(None);
    }
    Ok(Some(page_of(walk.codes, plan.take)))
}
