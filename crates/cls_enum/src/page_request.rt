ghost use Rattle.std.specs.Prelude.{◌≡◌, ℕ, ◌≤◌, IfSome, option_copied};
ghost use Rattle.std.proofs.Props.{props};
ghost use Rattle.cls_base.specs.Limits.{max_term_size};
ghost use Rattle.cls_base.specs.Terms.{size_of};
ghost use Rattle.cls_term.specs.Costs.{cost_of};

use cls_base::Numbers;
use cls_term::Term;

/// What a page is asked for, with the size of the token, and how many terms may be held.
#[derive(Clone, Copy)]
pub(crate) struct PageRequest<'a> {
    pub(crate) costs: &'a Numbers,
    pub(crate) after: Option<&'a Term>,
    pub(crate) after_size: u64,
    pub(crate) max: u32,
    pub(crate) take: u32,
    pub(crate) pool: u64,
    pub ghost positive: { (x : ℕ) → 1 ≤ cost_of costs.now x },
    pub ghost token: { IfSome (option_copied after) (λ a. after_size ≡ size_of (cost_of costs.now) a) } by { Prim.hlevel props },
    pub ghost small: { max ≤ max_term_size },
}
