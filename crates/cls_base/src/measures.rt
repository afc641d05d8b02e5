//! The measures of types.
ghost use Rattle.std.specs.Prelude.{◌≡◌, ◌↔◌, ◌<◌, ◌^◌, IsTrue, nat_lt, if◌then◌else◌};
ghost use Rattle.cls_base.specs.Types.{nodes, path_count, spread, depth, open_at};
ghost use Rattle.cls_base.specs.Ty.{type_of};
ghost use Rattle.cls_base.specs.Measures.{capped, capped_weight, strength_of};

use crate::limits::SPREAD_CAP;
use crate::ty::Ty;

/// Where a type stands in the text of another: what form is taken there without parentheses.
#[derive(Clone, Copy)]
enum Place {
    /// Any form.
    Whole,
    /// No arrow.
    Source,
    /// No arrow and no intersection.
    Factor,
    /// Neither of these, and no product.
    Atom,
}

impl Place {
    /// The parentheses round an arrow.
    fn round_arrow(self) -> u64
        ensures { result ≡ if nat_lt 0 (strength_of self) then 1 else 0 }
    {
        match self {
            Place::Whole => 0,
            Place::Source | Place::Factor | Place::Atom => 1,
        }
    }

    /// The parentheses round an intersection.
    fn round_meet(self) -> u64
        ensures { result ≡ if nat_lt 1 (strength_of self) then 1 else 0 }
    {
        match self {
            Place::Whole | Place::Source => 0,
            Place::Factor | Place::Atom => 1,
        }
    }

    /// The parentheses round a product.
    fn round_product(self) -> u64
        ensures { result ≡ if nat_lt 2 (strength_of self) then 1 else 0 }
    {
        match self {
            Place::Whole | Place::Source | Place::Factor => 0,
            Place::Atom => 1,
        }
    }
}

impl Ty {
    /// The number of nodes. A bare name has two, since it is the name over omega.
    pub fn nodes(&self) -> u64
        requires { nodes (type_of self.now) < 2 ^ 32 }
        ensures { result ≡ nodes (type_of self.now) }
    {
        match self {
            Ty::Omega => 1,
            Ty::Bare(_) => 2,
            Ty::Con(_, argument) => 1 + argument.nodes(),
            Ty::Prod(sides) | Ty::Arrow(sides) | Ty::Meet(sides) => {
                let (left, right) = &**sides;
                1 + left.nodes() + right.nodes()
            }
        }
    }

    /// The greatest number of parentheses that are open at once in the text of the type.
    pub fn depth(&self) -> u64
        requires { nodes (type_of self.now) < 2 ^ 32 }
        ensures { result ≡ depth (type_of self.now) }
    {
        self.depth_at(Place::Whole)
    }

    /// The parentheses that are open at once where the type stands at the place.
    #[tactic(auto, using(crate::proofs::Depths::open_at_within_nodes))]
    fn depth_at(&self, place: Place) -> u64
        requires { nodes (type_of self.now) < 2 ^ 32 }
        ensures { result ≡ open_at (strength_of place) (type_of self.now) }
    {
        match self {
            Ty::Omega | Ty::Bare(_) => 0,
            Ty::Con(_, argument) => {
                if matches!(**argument, Ty::Omega) {
                    0
                } else {
                    1 + argument.depth_at(Place::Whole)
                }
            }
            Ty::Prod(sides) => {
                let (left, right) = &**sides;
                let inside = left
                    .depth_at(Place::Factor)
                    .max(right.depth_at(Place::Atom));
                place.round_product() + inside
            }
            Ty::Arrow(sides) => {
                let (source, target) = &**sides;
                let inside = source
                    .depth_at(Place::Source)
                    .max(target.depth_at(Place::Whole));
                place.round_arrow() + inside
            }
            Ty::Meet(sides) => {
                let (left, right) = &**sides;
                let inside = left
                    .depth_at(Place::Source)
                    .max(right.depth_at(Place::Factor));
                place.round_meet() + inside
            }
        }
    }

    /// Whether the type has no path. Its spread counts none of its parts then.
    pub fn is_pathless(&self) -> bool
        ensures { IsTrue result ↔ (path_count (type_of self.now) ≡ 0) }
    {
        match self {
            Ty::Omega => true,
            Ty::Bare(_) | Ty::Con(..) | Ty::Prod(..) => false,
            Ty::Arrow(sides) => sides.1.is_pathless(),
            Ty::Meet(sides) => sides.0.is_pathless() && sides.1.is_pathless(),
        }
    }

    /// The smaller of 1,000,001 and the spread, which bounds the work of taking the type apart. It does not overflow,
    /// whatever the type.
    pub fn spread(&self) -> u64
        ensures { result ≡ capped (spread (type_of self.now)) }
    {
        self.weight().1
    }

    /// The number of paths before any is dropped and the spread, each capped at 1,000,001.
    #[inline]
    #[cycle(weight)]
    fn weight(&self) -> (u64, u64)
        ensures { result ≡ capped_weight (type_of self.now) }
    {
        match self {
            Ty::Omega => (0, 0),
            Ty::Bare(_) => (1, 1),
            _ => self.deep_weight(),
        }
    }

    /// The same, part by part. Out of line for speed: half of the calls are for leaves.
    #[inline(never)]
    #[cycle(weight)]
    fn deep_weight(&self) -> (u64, u64)
        ensures { result ≡ capped_weight (type_of self.now) }
    {
        match self {
            Ty::Omega => (0, 0),
            Ty::Bare(_) => (1, 1),
            Ty::Con(_, argument) => {
                let (paths, spread) = argument.weight();
                let paths = paths.max(1);
                (paths, SPREAD_CAP.min(spread + paths))
            }
            Ty::Prod(sides) => {
                let (left, right) = &**sides;
                let (p, s) = left.weight();
                let (q, t) = right.weight();
                let paths = SPREAD_CAP.min((p + q).max(1));
                (paths, SPREAD_CAP.min(s + t + paths))
            }
            Ty::Arrow(sides) => {
                let (source, target) = &**sides;
                let (_, s) = source.weight();
                let (q, t) = target.weight();
                (q, SPREAD_CAP.min(t + q * (1 + s)))
            }
            Ty::Meet(sides) => {
                let (left, right) = &**sides;
                let (p, s) = left.weight();
                let (q, t) = right.weight();
                (SPREAD_CAP.min(p + q), SPREAD_CAP.min(s + t))
            }
        }
    }
}
