//! A size for each node than which no term of it is smaller. It is raised round by round: a form comes to the cost of
//! its component and the sizes of its nodes so far.
ghost use Rattle.std.specs.Prelude.{◌≡◌, ℕ, ◌+◌, ◌<◌, ◌≤◌, IfOk, IfSome, List, length, min, slice_index};
ghost use Rattle.std.specs.Option.{IsNone};
ghost use Rattle.cls_term.specs.Costs.{cost_of};
ghost use Rattle.cls_enum.specs.Members.{IsIn};
ghost use Rattle.cls_walk.specs.Counts.{HeadRule};
ghost use Rattle.cls_walk.specs.Least.{AreWithin, IsLeastOf};
ghost use Rattle.cls_walk.specs.Tables.{capped};
ghost use Rattle.cls_walk.specs.Filled.{form_size, AreLeast, forms_at};
ghost use Rattle.cls_walk.specs.Sizes.{sizes_of, HasSizes};

use crate::form::{Form, Forms};
use crate::numbers::{cost_at, plus};
use crate::table::Table;
use cls_base::{Numbers, OutOfMemory};
use std::alloc::Global;

/// The number at the place, 0 past the last one.
pub(crate) fn number_of(numbers: &Numbers, place: u32) -> u32
    ensures { result ≡ slice_index numbers.now place }
{
    numbers.as_slice().get(place as usize).copied().unwrap_or(0)
}

/// What the component and the nodes of a form come to.
fn size_of_form(costs: &Numbers, least: &Numbers, form: &Form) -> u64
    ensures { result ≡ capped (form_size (cost_of costs.now) least.now form.now) }
{
    let mut total = u64::from(cost_at(costs, form.component));
    for node in &form.nodes {
        total = plus(total, u64::from(number_of(least, *node)));
    }
    total
}

/// What is left behind a form that comes to this size, where terms of its node may come to `slack` more than the least
/// size of the node. None: the form comes to more.
pub(crate) fn left_behind(size: u64, own: u32, slack: u32) -> Option<u32>
    requires { own ≤ size }
    ensures some { IfSome result (λ left. own + slack ≡ size + left) }
    ensures none { IsNone result → own + slack < size }
{
    let extra = size - u64::from(own);
    if extra > u64::from(slack) {
        return None;
    }
    Some(slack - extra as u32)
}

/// The lesser of the two.
fn lesser(a: u32, b: u64) -> u32
    ensures { result ≡ min a b }
{
    if b < u64::from(a) { b as u32 } else { a }
}

/// The least that a form comes to, and `most` where each comes to more.
fn node_size(costs: &Numbers, least: &Numbers, forms: &[Form], most: u32) -> u32
    ensures { IsLeastOf (cost_of costs.now) least.now most forms.now result }
{
    let mut best = most;
    for form in forms {
        best = lesser(best, size_of_form(costs, least, form));
    }
    best
}

/// The sizes after one more round.
fn raised(
    alloc: Global,
    costs: &Numbers,
    forms: &Forms,
    least: &Numbers,
    most: u32,
) -> Result<Numbers, OutOfMemory>
    requires most { AreWithin (length forms.now) most least.now }
    requires least { AreLeast forms.now (cost_of costs.now) least.now }
    ensures most { IfOk result (λ new. AreWithin (length forms.now) most new) }
    ensures least { IfOk result (λ new. AreLeast forms.now (cost_of costs.now) new) }
{
    let mut new = Vec::new(alloc);
    for forms_of_node in &forms.nodes {
        new.push(node_size(costs, least, forms_of_node.as_slice(), most))?;
    }
    Ok(Numbers::new(new))
}

/// The sizes after so many rounds, up to `most`.
pub(crate) fn least_sizes(
    alloc: Global,
    costs: &Numbers,
    forms: &Forms,
    most: u32,
) -> Result<Numbers, OutOfMemory>
    ensures { IfOk result (λ least. AreLeast forms.now (cost_of costs.now) least) }
{
    let mut least = Numbers::new(Vec::new(alloc));
    for _round in 0..most {
        let next = raised(alloc, costs, forms, &least, most)?;
        if next.as_slice() == least.as_slice() {
            return Ok(next);
        }
        least = next;
    }
    Ok(least)
}

/// What the forms of a node come to.
fn node_sizes(
    alloc: Global,
    costs: &Numbers,
    least: &Numbers,
    forms: &[Form],
) -> Result<Vec<u64>, OutOfMemory>
    ensures { IfOk result (λ sizes. sizes.items ≡ sizes_of (cost_of costs.now) least.now forms.now) }
{
    let mut sizes = Vec::with_capacity(alloc, forms.len())?;
    for form in forms {
        sizes.push(size_of_form(costs, least, form))?;
    }
    Ok(sizes)
}

/// What each form of each node comes to, a column for each node.
pub(crate) fn form_sizes(
    alloc: Global,
    costs: &Numbers,
    least: &Numbers,
    forms: &Forms,
) -> Result<Table, OutOfMemory>
    ensures { IfOk result (λ sizes. HasSizes (cost_of costs.now) least.now forms.now sizes) }
{
    let mut sizes = Table::new(alloc);
    for forms_of_node in &forms.nodes {
        sizes.push(node_sizes(alloc, costs, least, forms_of_node.as_slice())?)?;
    }
    Ok(sizes)
}
