//! What a walk goes by.
ghost use Rattle.std.specs.Prelude.{ℕ, ◌≤◌};
ghost use Rattle.cls_term.specs.Costs.{cost_of};
ghost use Rattle.cls_walk.specs.Filled.{AreLeast};
ghost use Rattle.cls_walk.specs.Sizes.{HasSizes};

use crate::form::Forms;
use crate::guide::Guide;
use crate::table::Table;
use cls_base::Numbers;

/// The costs of the components, the forms of each node, a size than which no term of a node is smaller, what each form
/// comes to, the upper bounds of the numbers of terms, how many codes are wanted, and whether the forms of each node are
/// known to rise. Where they aren't, there are no forms, and the guide has the rules.
#[derive(Clone, Copy)]
pub(crate) struct Plan<'a, 'b> {
    pub(crate) costs: &'a Numbers,
    pub(crate) forms: &'a Forms,
    pub(crate) least: &'a Numbers,
    pub(crate) sizes: &'a Table,
    pub(crate) upper: &'a Table,
    pub(crate) take: u32,
    pub(crate) is_rising: bool,
    pub(crate) guide: Guide<'a, 'b>,
    pub ghost positive: { (x : ℕ) → 1 ≤ cost_of costs.now x },
    pub ghost least_sizes: { AreLeast forms.now (cost_of costs.now) least.now },
    pub ghost sized: { HasSizes (cost_of costs.now) least.now forms.now sizes.now },
}
