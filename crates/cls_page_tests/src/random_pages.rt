ghost use Rattle.std.specs.Prelude.{ℕ, ◌<◌, ◌≤◌, ◌^◌, IfSome, length, option_copied, slice_index_or};
ghost use Rattle.cls_base.specs.Terms.{component, length_of};
ghost use Rattle.cls_page_tests.specs.ShortTerms.{AreShort};

use crate::generated::{Generated, MOST};
use crate::hand_book::HandBook;
use crate::listing::{deciding_size, listed};
use crate::query::{Codes, Query, alone, applied, codes_of, paged};
use crate::random_books::{Random, random_book};
use cls_enum::PageFault;
use cls_term::{CodedTerms, Term};
use std::alloc::Global;
use std::test::Fail;

/// The codes of the page behind the term, or of the first page where there is none.
fn codes_behind(
    alloc: Global,
    book: &HandBook,
    query: &Query,
    after: Option<&Term>,
) -> Result<Codes, PageFault>
    requires token { IfSome (option_copied after) (λ a. length_of a < 2 ^ 32) }
{
    codes_of(alloc, &paged(alloc, book, query, after)?)
}

/// Whether the first page is the one of the definition.
fn agrees(alloc: Global, book: &HandBook, made: &Generated, query: &Query) -> bool {
    codes_behind(alloc, book, query, None) == listed(alloc, made, query, &[])
}

/// Whether the page behind the term is the one of the definition.
fn agrees_behind(
    alloc: Global,
    book: &HandBook,
    made: &Generated,
    query: &Query,
    after: &Term,
) -> bool
    requires { length_of after.now < 2 ^ 32 }
{
    match after.code(alloc) {
        Ok(code) => {
            codes_behind(alloc, book, query, Some(after))
                == listed(alloc, made, query, code.as_slice())
        }
        Err(_) => false,
    }
}

/// Whether the page behind the term at a place is the one of the definition.
fn agrees_behind_place(
    alloc: Global,
    book: &HandBook,
    made: &Generated,
    query: &Query,
    terms: &CodedTerms,
    place: usize,
) -> bool
    requires place { place < length terms.now }
    requires short { length_of (slice_index_or terms.now place (component 0)) < 2 ^ 32 }
{
    match terms.term(alloc, place) {
        Ok(term) => agrees_behind(alloc, book, made, query, &term),
        Err(_) => false,
    }
}

/// Whether the pages behind each of the terms are those of the definition.
fn agrees_behind_each(
    alloc: Global,
    book: &HandBook,
    made: &Generated,
    query: &Query,
    terms: &CodedTerms,
) -> bool
    requires short { AreShort terms.now }
{
    for place in 0..terms.len() {
        if !agrees_behind_place(alloc, book, made, query, terms, place) {
            return false;
        }
    }
    true
}

/// Whether the pages behind each term of the first page are those of the definition, if there is such a page.
fn agrees_behind_its_terms(
    alloc: Global,
    book: &HandBook,
    made: &Generated,
    query: &Query,
) -> bool {
    match paged(alloc, book, query, None) {
        Ok(page) => agrees_behind_each(alloc, book, made, query, &page.terms),
        Err(_) => true,
    }
}

/// Whether the page behind a component that is applied to another one is the one of the definition.
fn agrees_behind_applied(
    alloc: Global,
    book: &HandBook,
    made: &Generated,
    query: &Query,
    head: u32,
    arg: u32,
) -> bool {
    match applied(alloc, head, arg) {
        Ok(term) => agrees_behind(alloc, book, made, query, &term),
        Err(_) => false,
    }
}

/// Whether the pages agree where the pool is met, and where it is one short.
fn agrees_at_its_pool(alloc: Global, book: &HandBook, made: &Generated, mut query: Query) -> bool {
    let pool = made.pooled(deciding_size(made, &query, &[]));
    if pool == 0 || pool > MOST as u64 {
        return true;
    }
    query.pool = pool;
    let is_met = agrees(alloc, book, made, &query);
    query.pool = pool - 1;
    is_met && agrees(alloc, book, made, &query)
}

/// Whether all these pages of the book are those of the definition.
fn agrees_on(
    alloc: Global,
    random: &mut Random,
    book: &HandBook,
    most_cost: u32,
    most_size: u32,
) -> bool
    requires cost { (1 ≤ most_cost) × (most_cost ≤ 255) }
    requires size { (1 ≤ most_size) × (most_size ≤ 1000) }
{
    let costs = [
        1 + random.below(most_cost),
        1 + random.below(most_cost),
        most_cost,
        1,
    ];
    let query = Query {
        costs: &costs,
        max: 1 + random.below(most_size),
        take: 1 + random.below(12),
        pool: 1 + u64::from(random.below(80)),
    };
    match Generated::of(alloc, book, &costs, query.max) {
        Ok(made) => {
            // These terms need not be in the language.
            let (short, head, arg) = (random.below(4), random.below(4), random.below(4));
            agrees(alloc, book, &made, &query)
                && agrees_behind_its_terms(alloc, book, &made, &query)
                && agrees_behind(alloc, book, &made, &query, &alone(alloc, short))
                && agrees_behind_applied(alloc, book, &made, &query, head, arg)
                && agrees_at_its_pool(alloc, book, &made, query)
        }
        Err(_) => false,
    }
}

/// Whether the pages of so many books by chance are those of the definition, where components cost at most so much and
/// terms have at most this size.
fn agree(alloc: Global, books: u32, most_cost: u32, most_size: u32) -> Result<bool, Fail>
    requires cost { (1 ≤ most_cost) × (most_cost ≤ 255) }
    requires size { (1 ≤ most_size) × (most_size ≤ 1000) }
{
    let mut random = Random::new(u64::from(most_size));
    for _book in 0..books {
        let book = random_book(alloc, &mut random)?;
        if !agrees_on(alloc, &mut random, &book, most_cost, most_size) {
            return Ok(false);
        }
    }
    Ok(true)
}

// Many of these books have codes with several derivations. Some pages have too many terms, and some as many as may count.
#[test]
fn pages_of_random_books_are_those_of_the_definition(rt: HostRuntime) -> Result<(), Fail> {
    assert!(rt; agree(rt.alloc(), 200, 3, 9)?);
    Ok(())
}

// Sizes go far over 64, up to which terms are counted by arithmetic.
#[test]
fn pages_are_those_of_the_definition_where_components_cost_much(
    rt: HostRuntime,
) -> Result<(), Fail> {
    assert!(rt; agree(rt.alloc(), 50, 100, 300)?);
    Ok(())
}
