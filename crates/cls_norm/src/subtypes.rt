//! Subtyping by recursion on the types.
//!
//! The order is that of intersection types (Barendregt, Coppo and Dezani 1983) with names and products. A list of types
//! stands for their intersection. It is below an arrow if the targets of those arrows of it whose source is above the
//! arrow's are below the arrow's target, and likewise for products and covariant names. So each part of one type is compared
//! with each part of the other once at most, and no path is made. Only under invariant names a type that is below another is
//! compared with it by normal forms: a comparison both ways would double the work at each depth.
ghost use Rattle.std.specs.Prelude.{◌≡◌, ◌↔◌, [], IfOk, OnOk, IsTrue};
ghost use Rattle.cls_base.specs.Types as types;
ghost use Rattle.cls_base.specs.Types.{constructor, product, arrow, meet, nodes};
ghost use Rattle.cls_base.specs.Taxonomies.{covariant};
ghost use Rattle.cls_base.specs.Ty.{type_of};
ghost use Rattle.cls_base.specs.Taxa.{Below};
ghost use Rattle.cls_base.specs.Subtyping.{Subtype};
ghost use Rattle.cls_path.specs.Paths.{atom, sealed, PathsLe, SomeLe, paths_of};
ghost use Rattle.cls_path.specs.Laws.{AreEquivalent};
ghost use Rattle.cls_norm.specs.Subtypes.{Adds, Stands, IsAsked, IsEntered, IsSealing, Joins, paths_behind, paths_of_all, nodes_of_all};

use crate::normals::normal;
use crate::wide::{WIDE, are_below_wide};
use cls_base::{Flat, Name, OutOfMemory, Taxa, Ty, Variance};
use std::alloc::Global;

/// A step from a type into its parts.
#[derive(Clone, Copy)]
enum Step<'a> {
    /// Into the argument of each name that is below this covariant one.
    Name(Name),
    /// Into the target of each arrow whose source is above this type.
    Source(&'a Ty),
    /// Into the left side of each product.
    Left,
    /// Into the right side of each product.
    Right,
}

/// Whether the first type is a subtype of the second: yes if and only if a derivation by the rules exists. The only error
/// is out of memory.
///
/// Time is bounded by the product of the nodes of the two types, where no invariant name stands over types that are equivalent
/// and not equal: their normal forms are made, as [`normal`] does. Nothing is asked of an arrow whose target has no path, so
/// the spreads of the two types count those of such types. The stack is bounded by the depth of the types as trees.
pub fn subtype<T: Taxa>(
    alloc: Global,
    taxa: &T,
    lower: &Ty,
    upper: &Ty,
) -> Result<bool, OutOfMemory>
    ensures { IfOk result (λ answer. IsTrue answer
        ↔ Subtype (Below (T.is_below taxa.now)) (T.variance_of_name taxa.now)
        (type_of lower.now) (type_of upper.now)) }
{
    let mut pieces = Vec::new(alloc);
    put_pieces(lower, &mut pieces)?;
    if pieces.len() >= WIDE && matches!(upper, Ty::Meet(..)) {
        return Ok(are_below_wide(alloc, taxa, &pieces, upper)?);
    }
    Ok(are_below(alloc, taxa, &pieces, upper)?)
}

/// Puts the types whose intersection the type is at the end.
pub(crate) fn put_pieces<'a>(ty: &'a Ty, pieces: &mut Vec<&'a Ty>) -> Result<(), OutOfMemory>
    ensures { OnOk result (Joins (type_of ty.now) pieces.old.items pieces.new.items) }
{
    match ty {
        Ty::Meet(sides) => {
            let (first, second) = &**sides;
            put_pieces(first, pieces)?;
            Ok(put_pieces(second, pieces)?)
        }
        _ => Ok(pieces.push(ty)?),
    }
}

/// Whether the intersection of the types is below the type. Of an intersection the second part is asked first: it is the
/// smaller one where intersections associate to the left, as written ones do.
#[cycle(below)]
pub(crate) fn are_below<T: Taxa>(
    alloc: Global,
    taxa: &T,
    lowers: &[&Ty],
    upper: &Ty,
) -> Result<bool, OutOfMemory>
    ensures { IfOk result (λ answer. IsTrue answer
        ↔ PathsLe (Below (T.is_below taxa.now)) (T.variance_of_name taxa.now)
        (paths_of_all (T.variance_of_name taxa.now) lowers.now)
        (paths_of (T.variance_of_name taxa.now) (type_of upper.now))) }
{
    match upper {
        Ty::Omega => Ok(true),
        Ty::Bare(name) => Ok(are_below_bare(alloc, taxa, lowers, *name)?),
        Ty::Con(name, argument) => Ok(are_below_over(alloc, taxa, lowers, *name, argument)?),
        Ty::Prod(sides) => {
            let (first, second) = &**sides;
            Ok(are_below_product(alloc, taxa, lowers, first, second)?)
        }
        Ty::Arrow(sides) => {
            let (source, target) = &**sides;
            Ok(are_below_arrow(alloc, taxa, lowers, source, target)?)
        }
        Ty::Meet(sides) => {
            let (first, second) = &**sides;
            if !are_below(alloc, taxa, lowers, second)? {
                return Ok(false);
            }
            Ok(are_below(alloc, taxa, lowers, first)?)
        }
    }
}

/// Whether the intersection of the types is below the name over the argument. Out of line for speed, as are the next two: so
/// little room is set up for bare names and intersections.
#[inline(never)]
#[cycle(below)]
fn are_below_over<T: Taxa>(
    alloc: Global,
    taxa: &T,
    lowers: &[&Ty],
    name: Name,
    argument: &Ty,
) -> Result<bool, OutOfMemory>
    ensures { IfOk result (λ answer. IsTrue answer
        ↔ PathsLe (Below (T.is_below taxa.now)) (T.variance_of_name taxa.now)
        (paths_of_all (T.variance_of_name taxa.now) lowers.now)
        (paths_of (T.variance_of_name taxa.now) (constructor name.0 (type_of argument.now)))) }
{
    match taxa.variance(name) {
        Variance::Co => {
            if is_omega(argument) {
                return Ok(have_name(taxa, lowers, name));
            }
            let step = Step::Name(name);
            Ok(parts_are_below(alloc, taxa, lowers, step, argument)?)
        }
        Variance::Contra | Variance::Inv => {
            Ok(has_name_below(alloc, taxa, lowers, name, argument)?)
        }
    }
}

/// Whether the intersection of the types is below the product.
#[inline(never)]
#[cycle(below)]
fn are_below_product<T: Taxa>(
    alloc: Global,
    taxa: &T,
    lowers: &[&Ty],
    first: &Ty,
    second: &Ty,
) -> Result<bool, OutOfMemory>
    ensures { IfOk result (λ answer. IsTrue answer
        ↔ PathsLe (Below (T.is_below taxa.now)) (T.variance_of_name taxa.now)
        (paths_of_all (T.variance_of_name taxa.now) lowers.now)
        (paths_of (T.variance_of_name taxa.now) (product (type_of first.now) (type_of second.now)))) }
{
    if !parts_are_below(alloc, taxa, lowers, Step::Left, first)? {
        return Ok(false);
    }
    Ok(parts_are_below(alloc, taxa, lowers, Step::Right, second)?)
}

/// Whether the intersection of the types is below the arrow. All types are, if its target has no path.
#[inline(never)]
#[cycle(below)]
fn are_below_arrow<T: Taxa>(
    alloc: Global,
    taxa: &T,
    lowers: &[&Ty],
    source: &Ty,
    target: &Ty,
) -> Result<bool, OutOfMemory>
    ensures { IfOk result (λ answer. IsTrue answer
        ↔ PathsLe (Below (T.is_below taxa.now)) (T.variance_of_name taxa.now)
        (paths_of_all (T.variance_of_name taxa.now) lowers.now)
        (paths_of (T.variance_of_name taxa.now) (arrow (type_of source.now) (type_of target.now)))) }
{
    let equals_omega = target.is_pathless();
    if equals_omega {
        return Ok(true);
    }
    let step = Step::Source(source);
    Ok(parts_are_below(alloc, taxa, lowers, step, target)?)
}

/// Whether the intersection of the types is below the bare name.
#[cycle(below)]
fn are_below_bare<T: Taxa>(
    alloc: Global,
    taxa: &T,
    lowers: &[&Ty],
    name: Name,
) -> Result<bool, OutOfMemory>
    ensures { IfOk result (λ answer. IsTrue answer
        ↔ PathsLe (Below (T.is_below taxa.now)) (T.variance_of_name taxa.now)
        (paths_of_all (T.variance_of_name taxa.now) lowers.now)
        (paths_of (T.variance_of_name taxa.now) (constructor name.0 types.omega))) }
{
    match taxa.variance(name) {
        Variance::Co => Ok(have_name(taxa, lowers, name)),
        Variance::Contra | Variance::Inv => {
            Ok(has_name_below(alloc, taxa, lowers, name, &Ty::Omega)?)
        }
    }
}

/// Whether the intersection of the types is below what has the upper type behind the step. Without a part behind the step it
/// isn't: behind a source the upper type has a path.
#[cycle(below)]
fn parts_are_below<T: Taxa>(
    alloc: Global,
    taxa: &T,
    lowers: &[&Ty],
    step: Step<'_>,
    upper: &Ty,
) -> Result<bool, OutOfMemory>
    requires stands { Stands (T.variance_of_name taxa.now) step }
    requires asked { IsAsked step (type_of upper.now) }
    ensures { IfOk result (λ answer. IsTrue answer
        ↔ PathsLe (Below (T.is_below taxa.now)) (T.variance_of_name taxa.now)
        (paths_of_all (T.variance_of_name taxa.now) lowers.now)
        (paths_behind (T.variance_of_name taxa.now) step.entry
        (paths_of (T.variance_of_name taxa.now) (type_of upper.now)))) }
{
    let omega = Ty::Omega;
    let parts = parts_behind(alloc, taxa, lowers, step, &omega)?;
    if parts.is_empty() {
        return Ok(false);
    }
    Ok(are_below(alloc, taxa, &parts, upper)?)
}

/// The parts of the types that lie behind the step. Bare names have the omega that is passed as their part.
#[cycle(below)]
fn parts_behind<'a, T: Taxa>(
    alloc: Global,
    taxa: &T,
    lowers: &[&'a Ty],
    step: Step<'_>,
    omega: &'a Ty,
) -> Result<Vec<&'a Ty>, OutOfMemory>
    requires stands { Stands (T.variance_of_name taxa.now) step }
    requires omega { type_of omega.now ≡ types.omega }
    ensures { IfOk result (λ parts. Adds (Below (T.is_below taxa.now)) (T.variance_of_name taxa.now) step.entry
        (paths_of_all (T.variance_of_name taxa.now) lowers.now) (nodes_of_all lowers.now) [] parts.items) }
{
    let mut parts = Vec::new(alloc);
    for lower in lowers {
        put_parts(alloc, taxa, *lower, step, omega, &mut parts)?;
    }
    Ok(parts)
}

/// Puts the parts of the type that lie behind the step at the end. Bare names have the omega that is passed as their part.
/// An arrow whose target has no path adds nothing.
#[cycle(below)]
fn put_parts<'a, T: Taxa>(
    alloc: Global,
    taxa: &T,
    lower: &'a Ty,
    step: Step<'_>,
    omega: &'a Ty,
    parts: &mut Vec<&'a Ty>,
) -> Result<(), OutOfMemory>
    requires stands { Stands (T.variance_of_name taxa.now) step }
    requires omega { type_of omega.now ≡ types.omega }
    ensures { OnOk result (Adds (Below (T.is_below taxa.now)) (T.variance_of_name taxa.now) step.entry
        (paths_of (T.variance_of_name taxa.now) (type_of lower.now)) (nodes (type_of lower.now))
        parts.old.items parts.new.items) }
{
    match lower {
        Ty::Omega => Ok(()),
        Ty::Bare(name) => Ok(put_omega(taxa, *name, step, omega, parts)?),
        Ty::Con(name, argument) => {
            if is_entered(taxa, step, *name) {
                parts.push(argument)?;
            }
            Ok(())
        }
        Ty::Prod(sides) => {
            let (first, second) = &**sides;
            match step {
                Step::Left => Ok(parts.push(first)?),
                Step::Right => Ok(parts.push(second)?),
                Step::Name(_) | Step::Source(_) => Ok(()),
            }
        },
        Ty::Arrow(sides) => {
            let (source, target) = &**sides;
            match step {
                Step::Source(taken) => {
                    if target.is_pathless() {
                        return Ok(());
                    }
                    if are_below(alloc, taxa, &[taken], source)? {
                        parts.push(target)?;
                    }
                    Ok(())
                }
                Step::Name(_) | Step::Left | Step::Right => Ok(()),
            }
        },
        Ty::Meet(sides) => {
            let (first, second) = &**sides;
            put_parts(alloc, taxa, first, step, omega, parts)?;
            Ok(put_parts(alloc, taxa, second, step, omega, parts)?)
        }
    }
}

/// Puts the omega at the end if the step goes into the bare name.
fn put_omega<'a, T: Taxa>(
    taxa: &T,
    name: Name,
    step: Step<'_>,
    omega: &'a Ty,
    parts: &mut Vec<&'a Ty>,
) -> Result<(), OutOfMemory>
    requires stands { Stands (T.variance_of_name taxa.now) step }
    requires omega { type_of omega.now ≡ types.omega }
    ensures { OnOk result (Adds (Below (T.is_below taxa.now)) (T.variance_of_name taxa.now) step.entry
        (paths_of (T.variance_of_name taxa.now) (constructor name.0 types.omega)) 2 parts.old.items parts.new.items) }
{
    if is_entered(taxa, step, name) {
        parts.push(omega)?;
    }
    Ok(())
}

/// Whether the step goes into the argument of the name.
fn is_entered<T: Taxa>(taxa: &T, step: Step<'_>, name: Name) -> bool
    ensures { IsTrue result ↔ IsEntered (Below (T.is_below taxa.now)) step.entry name.0 }
{
    match step {
        Step::Name(upper) => taxa.below(name, upper),
        Step::Source(_) | Step::Left | Step::Right => false,
    }
}

/// Whether the type is omega.
pub(crate) fn is_omega(ty: &Ty) -> bool
    ensures { IsTrue result ↔ (type_of ty.now ≡ types.omega) }
{
    matches!(ty, Ty::Omega)
}

/// Whether one of the types has a name that is below the covariant name. The name itself is looked for first, since names
/// are compared sooner than looked up. For one that stands alone this is all.
fn have_name<T: Taxa>(taxa: &T, lowers: &[&Ty], name: Name) -> bool
    requires { T.variance_of_name taxa.now name.0 ≡ covariant }
    ensures { IsTrue result
        ↔ SomeLe (Below (T.is_below taxa.now)) (T.variance_of_name taxa.now)
        (paths_of_all (T.variance_of_name taxa.now) lowers.now) (atom name.0) }
{
    if some_has_name(&Flat, lowers, name) {
        return true;
    }
    if taxa.stands_alone(name) {
        return false;
    }
    some_has_name(taxa, lowers, name)
}

/// Whether one of the types has a name that is below the covariant name. It ends with the first one.
fn some_has_name<T: Taxa>(taxa: &T, lowers: &[&Ty], name: Name) -> bool
    requires { T.variance_of_name taxa.now name.0 ≡ covariant }
    ensures { IsTrue result
        ↔ SomeLe (Below (T.is_below taxa.now)) (T.variance_of_name taxa.now)
        (paths_of_all (T.variance_of_name taxa.now) lowers.now) (atom name.0) }
{
    for lower in lowers {
        if has_name(taxa, *lower, name) {
            return true;
        }
    }
    false
}

/// Whether the type has a name that is below the covariant name.
#[cycle(names)]
fn has_name<T: Taxa>(taxa: &T, lower: &Ty, name: Name) -> bool
    requires { T.variance_of_name taxa.now name.0 ≡ covariant }
    ensures { IsTrue result
        ↔ SomeLe (Below (T.is_below taxa.now)) (T.variance_of_name taxa.now)
        (paths_of (T.variance_of_name taxa.now) (type_of lower.now)) (atom name.0) }
{
    match lower {
        Ty::Bare(other) => taxa.below(*other, name),
        Ty::Con(other, _) => taxa.below(*other, name),
        Ty::Meet(sides) => {
            let (first, second) = &**sides;
            one_has_name(taxa, first, second, name)
        }
        Ty::Omega | Ty::Prod(..) | Ty::Arrow(..) => false,
    }
}

/// Whether one of the two types has a name that is below the covariant name. The second one is asked first, as in
/// [`are_below`]. Out of line for speed: most types are names.
#[inline(never)]
#[cycle(names)]
fn one_has_name<T: Taxa>(taxa: &T, first: &Ty, second: &Ty, name: Name) -> bool
    requires { T.variance_of_name taxa.now name.0 ≡ covariant }
    ensures { IsTrue result
        ↔ SomeLe (Below (T.is_below taxa.now)) (T.variance_of_name taxa.now)
        (paths_of (T.variance_of_name taxa.now) (meet (type_of first.now) (type_of second.now))) (atom name.0) }
{
    has_name(taxa, second, name) || has_name(taxa, first, name)
}

/// Whether one of the types has a name over a type that is below the name over the argument. The name is contravariant or
/// invariant.
#[cycle(below)]
fn has_name_below<T: Taxa>(
    alloc: Global,
    taxa: &T,
    lowers: &[&Ty],
    name: Name,
    argument: &Ty,
) -> Result<bool, OutOfMemory>
    requires { IsSealing (T.variance_of_name taxa.now name.0) }
    ensures { IfOk result (λ answer. IsTrue answer
        ↔ SomeLe (Below (T.is_below taxa.now)) (T.variance_of_name taxa.now)
        (paths_of_all (T.variance_of_name taxa.now) lowers.now)
        (sealed name.0 (paths_of (T.variance_of_name taxa.now) (type_of argument.now)))) }
{
    for lower in lowers {
        if is_name_below(alloc, taxa, *lower, name, argument)? {
            return Ok(true);
        }
    }
    Ok(false)
}

/// Whether the type has a name over a type that is below the name over the argument. The name is contravariant or invariant.
#[cycle(below)]
fn is_name_below<T: Taxa>(
    alloc: Global,
    taxa: &T,
    lower: &Ty,
    name: Name,
    argument: &Ty,
) -> Result<bool, OutOfMemory>
    requires { IsSealing (T.variance_of_name taxa.now name.0) }
    ensures { IfOk result (λ answer. IsTrue answer
        ↔ SomeLe (Below (T.is_below taxa.now)) (T.variance_of_name taxa.now)
        (paths_of (T.variance_of_name taxa.now) (type_of lower.now))
        (sealed name.0 (paths_of (T.variance_of_name taxa.now) (type_of argument.now)))) }
{
    match lower {
        Ty::Bare(other) => Ok(is_bare_below(alloc, taxa, *other, name, argument)?),
        Ty::Con(other, inner) => {
            if !taxa.below(*other, name) {
                return Ok(false);
            }
            if !are_below(alloc, taxa, &[argument], inner)? {
                return Ok(false);
            }
            match taxa.variance(name) {
                Variance::Inv => Ok(are_equivalent(alloc, taxa, inner, argument)?),
                Variance::Co | Variance::Contra => Ok(true),
            }
        }
        Ty::Meet(sides) => {
            let (first, second) = &**sides;
            if is_name_below(alloc, taxa, first, name, argument)? {
                return Ok(true);
            }
            Ok(is_name_below(alloc, taxa, second, name, argument)?)
        }
        Ty::Omega | Ty::Prod(..) | Ty::Arrow(..) => Ok(false),
    }
}

/// Whether the bare name is below the name over the argument. The name is contravariant or invariant.
fn is_bare_below<T: Taxa>(
    alloc: Global,
    taxa: &T,
    bare: Name,
    name: Name,
    argument: &Ty,
) -> Result<bool, OutOfMemory>
    requires { IsSealing (T.variance_of_name taxa.now name.0) }
    ensures { IfOk result (λ answer. IsTrue answer
        ↔ SomeLe (Below (T.is_below taxa.now)) (T.variance_of_name taxa.now)
        (paths_of (T.variance_of_name taxa.now) (constructor bare.0 types.omega))
        (sealed name.0 (paths_of (T.variance_of_name taxa.now) (type_of argument.now)))) }
{
    if !taxa.below(bare, name) {
        return Ok(false);
    }
    match taxa.variance(name) {
        Variance::Inv => Ok(are_equivalent(alloc, taxa, &Ty::Omega, argument)?),
        Variance::Co | Variance::Contra => Ok(true),
    }
}

/// Whether each of the types is below the other, which their normal forms tell.
fn are_equivalent<T: Taxa>(
    alloc: Global,
    taxa: &T,
    one: &Ty,
    other: &Ty,
) -> Result<bool, OutOfMemory>
    ensures { IfOk result (λ answer. IsTrue answer
        ↔ AreEquivalent (Below (T.is_below taxa.now)) (T.variance_of_name taxa.now)
        (type_of one.now) (type_of other.now)) }
{
    if one.order(other).is_eq() {
        return Ok(true);
    }
    let one = normal(alloc, taxa, one)?;
    let other = normal(alloc, taxa, other)?;
    Ok(one.order(&other).is_eq())
}
