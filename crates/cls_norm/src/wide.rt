//! Subtyping of wide intersections by binary search.
//!
//! The names on the lower side are sorted once, and each covariant name on the upper side is looked for among them by
//! binary search. Only a type that is not found so is compared with each type on the lower side.
ghost use Rattle.std.specs.Prelude.{◌≡◌, ◌↔◌, ◌++◌, Contains, IfOk, IsTrue, OnOk};
ghost use Rattle.std.specs.List.Sorted.{IsNonDecreasing, IsPermutation};
ghost use Rattle.cls_base.specs.Taxonomies.{covariant};
ghost use Rattle.cls_base.specs.Ty.{type_of};
ghost use Rattle.cls_base.specs.Taxa.{Below};
ghost use Rattle.cls_path.specs.Paths.{PathsLe, paths_of};
ghost use Rattle.cls_norm.specs.Names.{IsNamed, name_of, names_of_all};
ghost use Rattle.cls_norm.specs.Subtypes.{paths_of_all};

use crate::subtypes::{are_below, is_omega, put_pieces};
use cls_base::{Name, OutOfMemory, Taxa, Ty, Variance};
use std::alloc::Global;

/// How many types a wide intersection has at least. With fewer on either side, to compare each with each takes about as
/// long as to sort the names.
pub(crate) const WIDE: usize = 64;

/// Whether the intersection of the types is below the type. It is meant for wide intersections, and right for all types.
pub(crate) fn are_below_wide<T: Taxa>(
    alloc: Global,
    taxa: &T,
    lowers: &[&Ty],
    upper: &Ty,
) -> Result<bool, OutOfMemory>
    ensures { IfOk result (λ answer. IsTrue answer
        ↔ PathsLe (Below (T.is_below taxa.now)) (T.variance_of_name taxa.now)
        (paths_of_all (T.variance_of_name taxa.now) lowers.now)
        (paths_of (T.variance_of_name taxa.now) (type_of upper.now))) }
{
    let mut uppers = Vec::new(alloc);
    put_pieces(upper, &mut uppers)?;
    if uppers.len() < WIDE {
        return Ok(are_below(alloc, taxa, lowers, upper)?);
    }
    let names = names_of(alloc, lowers)?;
    Ok(are_below_each(alloc, taxa, lowers, names.as_slice(), &uppers)?)
}

/// The names of those types that are names over a type, in ascending order.
fn names_of(alloc: Global, types: &[&Ty]) -> Result<Vec<u32>, OutOfMemory>
    ensures names { IfOk result (λ names. IsPermutation (names_of_all types.now) names.items) }
    ensures sorted { IfOk result (λ names. IsNonDecreasing names.items) }
{
    let mut names = Vec::with_capacity(alloc, types.len())?;
    for ty in types {
        put_name(*ty, &mut names)?;
    }
    names.sort_unstable();
    Ok(names)
}

/// Puts the name of the type at the end, if it is a name over a type.
fn put_name(ty: &Ty, names: &mut Vec<u32>) -> Result<(), OutOfMemory>
    ensures { OnOk result (names.new.items ≡ names.old.items ++ name_of (type_of ty.now)) }
{
    match ty {
        Ty::Bare(name) => Ok(names.push(name.0)?),
        Ty::Con(name, _) => Ok(names.push(name.0)?),
        Ty::Omega | Ty::Prod(..) | Ty::Arrow(..) | Ty::Meet(..) => Ok(()),
    }
}

/// Whether the intersection of the types, whose names are these, is below each of the upper types.
fn are_below_each<T: Taxa>(
    alloc: Global,
    taxa: &T,
    lowers: &[&Ty],
    names: &[u32],
    uppers: &[&Ty],
) -> Result<bool, OutOfMemory>
    requires names { IsPermutation (names_of_all lowers.now) names.now }
    requires sorted { IsNonDecreasing names.now }
    ensures { IfOk result (λ answer. IsTrue answer
        ↔ PathsLe (Below (T.is_below taxa.now)) (T.variance_of_name taxa.now)
        (paths_of_all (T.variance_of_name taxa.now) lowers.now)
        (paths_of_all (T.variance_of_name taxa.now) uppers.now)) }
{
    for upper in uppers {
        if !are_below_one(alloc, taxa, lowers, names, *upper)? {
            return Ok(false);
        }
    }
    Ok(true)
}

/// Whether the intersection of the types, whose names are these, is below the type.
fn are_below_one<T: Taxa>(
    alloc: Global,
    taxa: &T,
    lowers: &[&Ty],
    names: &[u32],
    upper: &Ty,
) -> Result<bool, OutOfMemory>
    requires names { IsPermutation (names_of_all lowers.now) names.now }
    requires sorted { IsNonDecreasing names.now }
    ensures { IfOk result (λ answer. IsTrue answer
        ↔ PathsLe (Below (T.is_below taxa.now)) (T.variance_of_name taxa.now)
        (paths_of_all (T.variance_of_name taxa.now) lowers.now)
        (paths_of (T.variance_of_name taxa.now) (type_of upper.now))) }
{
    if is_named(taxa, names, upper) {
        return Ok(true);
    }
    Ok(are_below(alloc, taxa, lowers, upper)?)
}

/// Whether the type is a covariant name over omega that stands among the names.
fn is_named<T: Taxa>(taxa: &T, names: &[u32], ty: &Ty) -> bool
    requires { IsNonDecreasing names.now }
    ensures { IsTrue result ↔ IsNamed (T.variance_of_name taxa.now) names.now (type_of ty.now) }
{
    match ty {
        Ty::Bare(name) => is_among(taxa, names, *name),
        Ty::Con(name, argument) => is_omega(argument) && is_among(taxa, names, *name),
        Ty::Omega | Ty::Prod(..) | Ty::Arrow(..) | Ty::Meet(..) => false,
    }
}

/// Whether the name is covariant and stands among the names.
fn is_among<T: Taxa>(taxa: &T, names: &[u32], name: Name) -> bool
    requires { IsNonDecreasing names.now }
    ensures { IsTrue result ↔ ((T.variance_of_name taxa.now name.0 ≡ covariant) × Contains names.now name.0) }
{
    match taxa.variance(name) {
        Variance::Co => names.binary_search(&name.0).is_ok(),
        Variance::Contra | Variance::Inv => false,
    }
}
