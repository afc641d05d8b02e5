//! Sums of numbers of a table.
ghost use Rattle.std.specs.Prelude.{◌≡◌, ◌<◌, ◌^◌, IfSome, nat_le, if◌then◌else◌, option_copied};
ghost use Rattle.cls_base.specs.Terms.{length_of};
ghost use Rattle.cls_term.specs.Costs.{cost_of};
ghost use Rattle.cls_walk.specs.Counts.{total_below};
ghost use Rattle.cls_walk.specs.Tables.{capped, number_at};
ghost use Rattle.cls_walk.specs.Totals.{cursor_size, total_held};

use crate::numbers::plus;
use crate::table::Table;
use cls_base::Numbers;
use cls_term::Term;

/// The numbers of all nodes for one size together.
pub(crate) fn column_total(table: &Table, size: u32, width: u32) -> u64
    ensures { result ≡ capped (total_below width (λ n. number_at table.now size n)) }
{
    let mut total = 0;
    for node in 0..width {
        total = plus(total, table.get(size, node));
    }
    total
}

/// The size of the cursor, 0 where there is none.
pub(crate) fn size_of_cursor(costs: &Numbers, after: Option<&Term>) -> u64
    requires { IfSome (option_copied after) (λ a. length_of a < 2 ^ 32) }
    ensures { result ≡ cursor_size (cost_of costs.now) (option_copied after.entry) }
{
    match after {
        None => 0,
        Some(token) => token.size(costs),
    }
}

/// The number of node 0 for this size, 0 where the cursor is of greater size.
pub(crate) fn due_of(table: &Table, size: u32, from: u64) -> u64
    ensures { result ≡ (if nat_le from size then number_at table.now size 0 else 0) }
{
    if u64::from(size) < from {
        return 0;
    }
    table.get(size, 0)
}

/// The upper bound of the number of pairs that are pooled at this size.
pub(crate) fn held_at(table: &Table, size: u32, width: u32) -> u64
    ensures { result ≡ capped (total_held (number_at table.now) width size) }
{
    let mut made = 0;
    for smaller in 0..size {
        made = plus(made, column_total(table, smaller, width));
    }
    plus(made, table.get(size, 0))
}
