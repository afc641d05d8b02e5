//! The paths that a type falls into. They are put at the end of a vector, and changed in place as the type is read from
//! the inside out.
ghost use Rattle.std.specs.Prelude.{◌≡◌, ◌<◌, ◌≤◌, ◌∷◌, ◌++◌, [], IfOk, OnOk, drop, length, map, take};
ghost use Rattle.cls_base.specs.Types.{arrow, constructor, omega, product};
ghost use Rattle.cls_base.specs.Ty.{type_of};
ghost use Rattle.cls_base.specs.Taxa.{Below};
ghost use Rattle.cls_path.specs.NormalForms.{IsNormalForm};
ghost use Rattle.cls_path.specs.Paths.{atom, inside, left, right, function, listed};
ghost use Rattle.cls_path.specs.PathLists.{ArePathsOf};
ghost use Rattle.cls_norm.specs.PathLists.{or_else, PutsPathsOf};

use cls_base::{Name, OutOfMemory, Taxa, Ty, Variance};
use cls_path::{Nf, Path};
use std::alloc::Global;

/// Puts paths whose intersection is the type behind the others. The lists inside them are normal.
#[cycle(paths)]
pub(crate) fn put_paths_of<T: Taxa>(
    alloc: Global,
    taxa: &T,
    ty: &Ty,
    paths: &mut Vec<Path>,
) -> Result<(), OutOfMemory>
    ensures { OnOk result (PutsPathsOf (Below (T.is_below taxa.now)) (T.variance_of_name taxa.now)
        (type_of ty.now) paths.old.items paths.new.items) }
{
    match ty {
        Ty::Omega => Ok(()),
        Ty::Bare(name) => Ok(paths.push(alone(alloc, taxa, *name)?)?),
        Ty::Con(name, argument) => put_under_name(alloc, taxa, *name, argument, paths),
        Ty::Prod(sides) => put_product(alloc, taxa, &sides.0, &sides.1, paths),
        Ty::Arrow(sides) => put_arrow(alloc, taxa, &sides.0, &sides.1, paths),
        Ty::Meet(sides) => {
            put_paths_of(alloc, taxa, &sides.0, paths)?;
            put_paths_of(alloc, taxa, &sides.1, paths)
        }
    }
}

/// The normal form of the type.
#[cycle(paths)]
pub(crate) fn form_of<T: Taxa>(alloc: Global, taxa: &T, ty: &Ty) -> Result<Nf, OutOfMemory>
    ensures { IfOk result (λ nf. IsNormalForm (Below (T.is_below taxa.now)) (T.variance_of_name taxa.now)
        (type_of ty.now) (listed nf)) }
{
    // The list of one path takes no memory of its own.
    if let Ty::Bare(name) = ty {
        return Ok(Nf::one(alloc, alone(alloc, taxa, *name)?));
    }
    let mut paths = Vec::with_capacity(alloc, 1)?;
    put_paths_of(alloc, taxa, ty, &mut paths)?;
    Ok(Nf::from_paths(alloc, taxa, paths)?)
}

/// Puts the paths of a name over a type behind the others.
#[cycle(paths)]
fn put_under_name<T: Taxa>(
    alloc: Global,
    taxa: &T,
    name: Name,
    argument: &Ty,
    paths: &mut Vec<Path>,
) -> Result<(), OutOfMemory>
    ensures { OnOk result (PutsPathsOf (Below (T.is_below taxa.now)) (T.variance_of_name taxa.now)
        (constructor name.0 (type_of argument.now)) paths.old.items paths.new.items) }
{
    match taxa.variance(name) {
        Variance::Co => {
            let start = paths.len();
            put_paths_of(alloc, taxa, argument, paths)?;
            set_name(alloc, name, paths, start)
        }
        Variance::Contra | Variance::Inv => {
            let argument = form_of(alloc, taxa, argument)?;
            Ok(paths.push(Path::sealed(alloc, name, argument)?)?)
        }
    }
}

/// Puts the paths of a product behind the others.
#[cycle(paths)]
fn put_product<T: Taxa>(
    alloc: Global,
    taxa: &T,
    first: &Ty,
    second: &Ty,
    paths: &mut Vec<Path>,
) -> Result<(), OutOfMemory>
    ensures { OnOk result (PutsPathsOf (Below (T.is_below taxa.now)) (T.variance_of_name taxa.now)
        (product (type_of first.now) (type_of second.now)) paths.old.items paths.new.items) }
{
    let start = paths.len();
    put_paths_of(alloc, taxa, first, paths)?;
    set_left(alloc, paths, start)?;
    let middle = paths.len();
    put_paths_of(alloc, taxa, second, paths)?;
    set_right(alloc, paths, middle)?;
    if paths.len() == start {
        return Ok(paths.push(Path::unit())?);
    }
    Ok(())
}

/// Puts the paths of an arrow behind the others. Those of the target come first: where it has none, nothing is made of the
/// source, whose paths the spread of the arrow doesn't count then.
#[cycle(paths)]
fn put_arrow<T: Taxa>(
    alloc: Global,
    taxa: &T,
    source: &Ty,
    target: &Ty,
    paths: &mut Vec<Path>,
) -> Result<(), OutOfMemory>
    ensures { OnOk result (PutsPathsOf (Below (T.is_below taxa.now)) (T.variance_of_name taxa.now)
        (arrow (type_of source.now) (type_of target.now)) paths.old.items paths.new.items) }
{
    let start = paths.len();
    put_paths_of(alloc, taxa, target, paths)?;
    if paths.len() == start {
        return Ok(());
    }
    let source = form_of(alloc, taxa, source)?;
    set_source(alloc, source, paths, start)
}

/// The path of a bare name, which is the name over the empty list unless it is covariant.
fn alone<T: Taxa>(alloc: Global, taxa: &T, name: Name) -> Result<Path, OutOfMemory>
    ensures { IfOk result (λ path. ArePathsOf (Below (T.is_below taxa.now)) (T.variance_of_name taxa.now)
        (constructor name.0 omega) (listed (path ∷ []))) }
{
    match taxa.variance(name) {
        Variance::Co => Ok(Path::atom(name)),
        Variance::Contra | Variance::Inv => Ok(Path::sealed(alloc, name, Nf::empty(alloc))?),
    }
}

/// Sets each path from `start` on under the name. If there is none, the name alone is put there.
fn set_name(
    alloc: Global,
    name: Name,
    paths: &mut Vec<Path>,
    start: usize,
) -> Result<(), OutOfMemory>
    requires { start ≤ length paths.old.items }
    ensures { OnOk result (paths.new.items ≡ take start paths.old.items
        ++ or_else (atom name.0) (map (inside name.0) (drop start paths.old.items))) }
{
    if paths.len() == start {
        paths.push(Path::atom(name))?;
        return Ok(());
    }
    for place in start..paths.len() {
        let path = std::mem::replace(&mut paths[place], Path::unit());
        paths[place] = Path::con(alloc, name, path)?;
    }
    Ok(())
}

/// Makes each path from `start` on the left side of a product.
fn set_left(alloc: Global, paths: &mut Vec<Path>, start: usize) -> Result<(), OutOfMemory>
    requires { start ≤ length paths.old.items }
    ensures { OnOk result
        (paths.new.items ≡ take start paths.old.items ++ map left (drop start paths.old.items)) }
{
    for place in start..paths.len() {
        let path = std::mem::replace(&mut paths[place], Path::unit());
        paths[place] = Path::left(alloc, path)?;
    }
    Ok(())
}

/// Makes each path from `start` on the right side of a product.
fn set_right(alloc: Global, paths: &mut Vec<Path>, start: usize) -> Result<(), OutOfMemory>
    requires { start ≤ length paths.old.items }
    ensures { OnOk result
        (paths.new.items ≡ take start paths.old.items ++ map right (drop start paths.old.items)) }
{
    for place in start..paths.len() {
        let path = std::mem::replace(&mut paths[place], Path::unit());
        paths[place] = Path::right(alloc, path)?;
    }
    Ok(())
}

/// Sets each path from `start` on behind the source, which the last one takes and the others copy. There is one at least.
fn set_source(
    alloc: Global,
    source: Nf,
    paths: &mut Vec<Path>,
    start: usize,
) -> Result<(), OutOfMemory>
    requires { start < length paths.old.items }
    ensures { OnOk result (paths.new.items ≡ take start paths.old.items
        ++ map (function (listed source)) (drop start paths.old.items)) }
{
    let last = paths.len() - 1;
    for place in start..last {
        let copy = source.copy(alloc)?;
        let path = std::mem::replace(&mut paths[place], Path::unit());
        paths[place] = Path::arrow(alloc, copy, path)?;
    }
    let path = std::mem::replace(&mut paths[last], Path::unit());
    paths[last] = Path::arrow(alloc, source, path)?;
    Ok(())
}
