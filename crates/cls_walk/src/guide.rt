//! What a walk over frames goes by.
ghost use Rattle.std.specs.Prelude.{◌≡◌, ℕ, true, map};
ghost use Rattle.cls_walk.specs.FrameBegins.{heads_in};
ghost use Rattle.cls_walk.specs.FrameColumns.{head_of};
ghost use Rattle.cls_walk.specs.OrderFacts.{AllInOrder-prop};
ghost use Rattle.cls_walk.specs.Orders.{InOrder};

use crate::rules::Rules;
use crate::table::Table;
use cls_base::Numbers;

/// The rules, a size than which no term of a node is smaller, what each head rule comes to, the node whose terms are
/// listed, and whether the head rules of each node are in the order of their openings.
#[derive(Clone, Copy)]
pub(crate) struct Guide<'a, 'b> {
    pub(crate) rules: &'a Rules<'b>,
    pub(crate) least: &'a Numbers,
    pub(crate) sizes: &'a Table,
    pub(crate) start: u32,
    pub(crate) is_ordered: bool,
    pub ghost ordered: { is_ordered ≡ true → (n : ℕ) → InOrder (map head_of (heads_in rules.now n)) } by { AllInOrder-prop is_ordered (λ n. map head_of (heads_in rules.now n)) },
}
