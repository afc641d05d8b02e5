ghost use Rattle.std.specs.Prelude.{◌≡◌, OnOk, map, option_copied};
ghost use Rattle.cls_base.specs.Terms.{size_of, Applicative};
ghost use Rattle.cls_term.specs.Banks.{at};
ghost use Rattle.cls_term.specs.Costs.{cost_of};
ghost use Rattle.cls_term.specs.Order.{order_of};
ghost use Rattle.cls_enum.specs.Members.{IsIn};
ghost use Rattle.cls_enum.specs.Requests.{later, due_after};

use crate::page_request::PageRequest;
use cls_base::OutOfMemory;
use cls_term::{Bank, Term};
use std::cmp::Ordering;

/// Adds those of the numbers whose terms, all of this size, come after the token, where the node is the start.
pub(crate) fn add_due(
    bank: &Bank,
    node: u32,
    numbers: &[u32],
    size: u32,
    request: &PageRequest,
    due: &mut Vec<u32>,
) -> Result<(), OutOfMemory>
    requires sized { (e : Applicative) → IsIn (map (at bank.now) numbers.now) e
        → size_of (cost_of request.now.costs.now) e ≡ size }
    ensures { OnOk result (due.new.items ≡ due_after node
        (λ n. later (cost_of request.now.costs.now) (option_copied request.now.after) (at bank.now n))
        due.old.items numbers.now) }
{
    if node > 0 {
        return Ok(());
    }
    for number in numbers {
        if is_later(bank, *number, size, request) {
            due.push(*number)?;
        }
    }
    Ok(())
}

/// Whether the term, which is of this size, comes after the token.
fn is_later(bank: &Bank, number: u32, size: u32, request: &PageRequest) -> bool
    requires sized { size_of (cost_of request.now.costs.now) (at bank.now number) ≡ size }
    ensures { result ≡ later (cost_of request.now.costs.now) (option_copied request.now.after) (at bank.now number) }
{
    match request.after {
        None => true,
        Some(token) => order_with(bank, number, size, request, token).is_gt(),
    }
}

/// Compares a term of the bank with the token, where the sizes of both are given.
fn order_with(bank: &Bank, number: u32, size: u32, request: &PageRequest, token: &Term) -> Ordering
    requires sized { size_of (cost_of request.now.costs.now) (at bank.now number) ≡ size }
    requires token { request.now.after_size ≡ size_of (cost_of request.now.costs.now) token.now }
    ensures { result ≡ order_of (cost_of request.now.costs.now) (at bank.now number) token.now }
{
    match u64::from(size).cmp(&request.after_size) {
        Ordering::Equal => bank.order_code_to(number, token),
        by_size => by_size,
    }
}
