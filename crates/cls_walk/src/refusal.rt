//! Refusal of a page by arithmetic alone, before a term is made.
ghost use Rattle.std.specs.Prelude.{◌≡◌, ℕ, true, ◌+◌, ◌<◌, ◌≤◌, ◌^◌, IfOk, IfSome, option_copied};
ghost use Rattle.cls_base.specs.Limits.{max_term_length, max_term_size};
ghost use Rattle.cls_base.specs.Terms.{length_of};
ghost use Rattle.cls_term.specs.Costs.{cost_of};
ghost use Rattle.cls_enum.specs.Requests.{request};
ghost use Rattle.cls_enum.specs.States.{ExceedsPool};
ghost use Rattle.cls_walk.specs.Apart.{AreAllApart};
ghost use Rattle.cls_walk.specs.Bounds.{HasUpper};
ghost use Rattle.cls_walk.specs.Orders.{IsOrdered};

use crate::apart::are_apart;
use crate::bounds::add_lower;
use crate::counted::{Counted, reach};
use crate::numbers::plus;
use crate::order::is_ordered;
use crate::table::Table;
use crate::totals::{column_total, due_of, size_of_cursor};
use cls_base::{Numbers, OutOfMemory, RuleBook};
use cls_term::Term;
use std::alloc::Global;

/// The greatest size at which the lower bounds can tell anything new: of terms that may be too long they claim nothing.
fn last_sure(max_size: u32) -> u32
    ensures { result ≤ max_size }
{
    max_size.min(65)
}

/// Whether upper bounds that are exact tell that too many terms would have to be held.
fn is_over<B: RuleBook>(
    book: &B,
    costs: &Numbers,
    after: Option<&Term>,
    max_size: u32,
    take: u32,
    pool: u64,
    counted: &Counted,
) -> bool
    requires last { counted.now.last ≤ max_size }
    requires short { counted.now.last ≤ max_term_length }
    requires costs { (x : ℕ) → 1 ≤ cost_of costs.now x }
    requires token { IfSome (option_copied after) (λ a. length_of a < 2 ^ 32) }
    requires apart { AreAllApart (B.book book.now) }
    requires upper { HasUpper (B.book book.now) (cost_of costs.now) (counted.now.last + 1) counted.now.table }
    ensures { result ≡ true
        → ExceedsPool (B.book book.now) (request costs.now (option_copied after.entry) max_size take) pool }
{
    let from = size_of_cursor(costs, after);
    let width = book.count();
    let table = &counted.table;
    let mut made = 0;
    let mut due = 0;
    for size in 0..counted.last + 1 {
        if plus(made, table.get(size, 0)) > pool {
            return true;
        }
        made = plus(made, column_total(table, size, width));
        due = plus(due, due_of(table, size, from));
        if due > u64::from(take) {
            return false;
        }
    }
    false
}

/// Whether the lower bounds tell that too many terms would have to be held. The upper bounds tell how far to look.
/// Those that aren't counted yet are added.
fn has_too_many<B: RuleBook>(
    alloc: Global,
    book: &B,
    costs: &Numbers,
    after: Option<&Term>,
    max_size: u32,
    take: u32,
    pool: u64,
    counted: &mut Counted,
) -> Result<bool, OutOfMemory>
    requires max { max_size ≤ max_term_size }
    requires costs { (x : ℕ) → 1 ≤ cost_of costs.now x }
    requires token { IfSome (option_copied after) (λ a. length_of a < 2 ^ 32) }
    requires ordered { IsOrdered (B.book book.now) }
    requires upper { HasUpper (B.book book.now) (cost_of costs.now) (counted.old.last + 1) counted.old.table }
    ensures { IfOk result (λ refused. refused ≡ true
        → ExceedsPool (B.book book.now) (request costs.now (option_copied after.entry) max_size take) pool) }
{
    let from = size_of_cursor(costs, after);
    let width = book.count();
    let last = last_sure(max_size);
    let mut lower = Table::new(alloc);
    let mut made = 0;
    let mut due = 0;
    for size in 0..last + 1 {
        add_lower(alloc, book, costs, &mut lower, size)?;
        if plus(made, lower.get(size, 0)) > pool {
            return Ok(true);
        }
        made = plus(made, column_total(&lower, size, width));
        reach(alloc, book, costs, counted, size)?;
        due = plus(due, due_of(&counted.table, size, from));
        if due > u64::from(take) {
            return Ok(false);
        }
    }
    Ok(false)
}

/// Whether the bounds tell that too many terms would have to be held. They tell nothing more where head rules aren't in
/// order.
pub(crate) fn is_refused<B: RuleBook>(
    alloc: Global,
    book: &B,
    costs: &Numbers,
    after: Option<&Term>,
    max_size: u32,
    take: u32,
    pool: u64,
    counted: &mut Counted,
) -> Result<bool, OutOfMemory>
    requires max { max_size ≤ max_term_size }
    requires costs { (x : ℕ) → 1 ≤ cost_of costs.now x }
    requires token { IfSome (option_copied after) (λ a. length_of a < 2 ^ 32) }
    requires last { counted.old.last ≤ max_size }
    requires short { counted.old.last ≤ max_term_length }
    requires upper { HasUpper (B.book book.now) (cost_of costs.now) (counted.old.last + 1) counted.old.table }
    ensures { IfOk result (λ refused. refused ≡ true
        → ExceedsPool (B.book book.now) (request costs.now (option_copied after.entry) max_size take) pool) }
{
    if are_apart(book) {
        return Ok(is_over(book, costs, after, max_size, take, pool, counted));
    }
    if !is_ordered(book) {
        return Ok(false);
    }
    has_too_many(alloc, book, costs, after, max_size, take, pool, counted)
}
