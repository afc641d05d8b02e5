//! What holds of every rule book and request, as calls that do nothing and promise the law.
ghost use Rattle.cls_walk.specs.Laws.{CountsDecide, EachPoolIsBounded};

/// The number of pairs that are pooled is between the bounds by arithmetic.
pub fn each_pool_is_bounded()
    ensures { EachPoolIsBounded }
{}

/// If a bound by arithmetic tells on which side of the pool a page is, it is on that side.
pub fn counts_decide()
    ensures { CountsDecide }
{}
