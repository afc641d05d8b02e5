ghost use Rattle.std.specs.Prelude.{ℕ, length};
ghost use Rattle.cls_base.specs.Lists.{AreBelow};
ghost use Rattle.cls_enum.specs.BelowFacts.{AllBelow-prop};
ghost use Rattle.cls_enum.specs.CellTables.{cell_at};

use crate::cells::Cells;
use cls_term::Bank;

/// The terms that are held while those of one size of a node are found, all of smaller sizes, and how many may be found.
#[derive(Clone, Copy)]
pub(crate) struct Held<'a> {
    pub(crate) bank: &'a Bank,
    pub(crate) cells: &'a Cells,
    pub(crate) limit: u64,
    pub ghost below: { (t n : ℕ) → AreBelow (length bank.now) (cell_at cells.now t n) } by { AllBelow-prop (length bank.now) (cell_at cells.now) },
}
