//! What pages are asked for, and what `page` answers.
ghost use Rattle.std.specs.Prelude.{◌≡◌, ℕ, ◌<◌, ◌≤◌, ◌^◌, IfOk, IfSome, option_copied};
ghost use Rattle.cls_base.specs.Terms.{component, length_of};
ghost use Rattle.cls_page_tests.specs.ShortTerms.{AreShort};
ghost use Rattle.cls_term.specs.Costs.{cost_of};

use crate::hand_book::HandBook;
use cls_base::{Numbers, OutOfMemory};
use cls_enum::{Page, PageFault};
use cls_term::{Term, Terms};
use cls_walk::page;
use std::alloc::Global;

/// What a page of a book is asked for: costs of at least 1, and the rest as in `page`.
#[derive(Clone, Copy)]
pub(crate) struct Query<'a> {
    pub(crate) costs: &'a [u32],
    pub(crate) max: u32,
    pub(crate) take: u32,
    pub(crate) pool: u64,
    ghost small: { max ≤ 1024 },
    ghost some: { 1 ≤ take },
}

/// The codes of the terms of a page, one after another, and whether more follow.
pub(crate) type Codes = (Vec<u32>, bool);

/// The page of the book.
pub(crate) fn paged(
    alloc: Global,
    book: &HandBook,
    query: &Query,
    after: Option<&Term>,
) -> Result<Page, PageFault>
    requires token { IfSome (option_copied after) (λ a. length_of a < 2 ^ 32) }
    ensures short { IfOk result (λ p. AreShort p.terms) }
{
    let costs = positive(alloc, query.costs)?;
    page(
        alloc, book, &costs, after, query.max, query.take, query.pool,
    )
}

/// The codes of the page.
pub(crate) fn codes_of(alloc: Global, page: &Page) -> Result<Codes, PageFault> {
    let mut codes = Vec::new(alloc);
    for place in 0..page.terms.len() {
        codes.extend_from_slice(page.terms.code(place))?;
    }
    Ok((codes, page.more))
}

/// The costs, of which none is less than 1.
pub(crate) fn positive(alloc: Global, costs: &[u32]) -> Result<Numbers, OutOfMemory>
    ensures { IfOk result (λ list. (x : ℕ) → 1 ≤ cost_of list x) }
{
    let mut list = Vec::new(alloc);
    for cost in costs {
        list.push((*cost).max(1))?;
    }
    Ok(Numbers::new(list))
}

/// A component alone.
pub(crate) fn alone(alloc: Global, head: u32) -> Term
    ensures { result ≡ component head }
{
    Term::new(head, Terms::new(alloc))
}

/// A component, applied to another one.
pub(crate) fn applied(alloc: Global, head: u32, arg: u32) -> Result<Term, OutOfMemory>
    ensures { IfOk result (λ term. length_of term < 2 ^ 32) }
{
    let mut args = Terms::new(alloc);
    args.push(alone(alloc, arg))?;
    Ok(Term::new(head, args))
}
