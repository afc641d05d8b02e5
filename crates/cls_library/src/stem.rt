//! Stems of paths: the names and sides of products that a path begins with behind its leading arrows. Arrows on the way are
//! left out.
ghost use Rattle.std.specs.Prelude.{◌≡◌, ◌+◌, ◌<◌};
ghost use Rattle.cls_path.specs.Labels.{mixed};
ghost use Rattle.cls_path.specs.Paths.{atom};
ghost use Rattle.cls_taxon.specs.Orders.{class_by};
ghost use Rattle.cls_library.specs.Quick.{is_own, is_quick, tells};
ghost use Rattle.cls_library.specs.Stems.{digest_of, stem_number, stem_of};

use cls_base::{Name, Taxa};
use cls_path::{Form, Path};
use cls_taxon::Taxonomy;

/// Spreads small numbers over 64 bits.
const SPREAD: u64 = 0x9e37_79b9_7f4a_7c15;

/// The number below `count` to which the stem of this length falls.
pub(crate) fn stem_number(path: &Path, depth: usize, count: u32) -> u32
    requires { 0 < count }
    ensures number { result ≡ stem_number count depth path.now }
    ensures below { result < count }
{
    (digest(path, depth, 0) % u64::from(count)) as u32
}

/// Whether the path has a stem of this length, and all names in it have classes of their own. Each path below it has the same
/// stem then.
pub(crate) fn tells(taxonomy: &Taxonomy, path: &Path, depth: usize) -> bool
    ensures { result ≡ tells (class_by taxonomy.now.pairs) depth path.now }
{
    if depth == 0 {
        return true;
    }
    let rest = depth - 1;
    match path.form() {
        Form::Atom(name) | Form::Sealed(name, _) => is_own(taxonomy, *name) && rest == 0,
        Form::Over(name, inner) => is_own(taxonomy, *name) && name_tells(taxonomy, *inner, rest),
        Form::Con(name, inner) => is_own(taxonomy, *name) && tells(taxonomy, inner, rest),
        Form::Unit => false,
        Form::Left(inner) | Form::Right(inner) => tells(taxonomy, inner, rest),
        Form::From(_, target) => tells(taxonomy, target, depth),
        Form::Arrow(arrow) => tells(taxonomy, &arrow.target, depth),
    }
}

/// The same for a bare name.
fn name_tells(taxonomy: &Taxonomy, name: Name, depth: usize) -> bool
    ensures { result ≡ tells (class_by taxonomy.now.pairs) depth (atom name.0) }
{
    if depth == 0 {
        return true;
    }
    let rest = depth - 1;
    is_own(taxonomy, name) && rest == 0
}

/// Whether the name has a class of its own.
fn is_own(taxonomy: &Taxonomy, name: Name) -> bool
    ensures { result ≡ is_own (class_by taxonomy.now.pairs) name.0 }
{
    taxonomy.class(name) != 0
}

/// A number that few other stems of this length have.
fn digest(path: &Path, depth: usize, seed: u64) -> u64
    ensures { result ≡ digest_of seed (stem_of depth path.now) }
{
    if depth == 0 {
        return seed;
    }
    let rest = depth - 1;
    match path.form() {
        Form::Atom(name) | Form::Sealed(name, _) => with_name(seed, *name),
        Form::Over(name, inner) => name_digest(*inner, rest, with_name(seed, *name)),
        Form::Con(name, inner) => digest(inner, rest, with_name(seed, *name)),
        Form::Unit => seed,
        Form::Left(inner) => digest(inner, rest, mixed(seed, 0)),
        Form::Right(inner) => digest(inner, rest, mixed(seed, 1)),
        Form::From(_, target) => digest(target, depth, seed),
        Form::Arrow(arrow) => digest(&arrow.target, depth, seed),
    }
}

/// The same for a bare name.
fn name_digest(name: Name, depth: usize, seed: u64) -> u64
    ensures { result ≡ digest_of seed (stem_of depth (atom name.0)) }
{
    if depth == 0 {
        seed
    } else {
        with_name(seed, name)
    }
}

/// The name mixed into the number.
fn with_name(seed: u64, name: Name) -> u64
    ensures { result ≡ mixed seed (name.0 + 2) }
{
    mixed(seed, u64::from(name.0) + 2)
}

/// The first number spread over 64 bits, and the second added.
fn mixed(first: u64, second: u64) -> u64
    ensures { result ≡ mixed first second }
{
    first.wrapping_mul(SPREAD).wrapping_add(second)
}

/// Whether each path with the head of this one is below it, or its stem of two tells which paths may be.
pub(crate) fn is_quick(taxonomy: &Taxonomy, path: &Path) -> bool
    ensures { result ≡ is_quick (class_by taxonomy.now.pairs) path.now }
{
    match path.form() {
        Form::Atom(name) => is_own(taxonomy, *name),
        Form::Unit => true,
        _ => tells(taxonomy, path, 2),
    }
}

/// Whether the path has a stem of this length. Nothing rests on it.
pub(crate) fn is_deep(path: &Path, depth: usize) -> bool {
    if depth == 0 {
        return true;
    }
    match path.form() {
        Form::Atom(_) | Form::Sealed(..) => depth == 1,
        Form::Over(..) => depth <= 2,
        Form::Con(_, inner) | Form::Left(inner) | Form::Right(inner) => is_deep(inner, depth - 1),
        Form::Unit => false,
        Form::From(_, target) => is_deep(target, depth),
        Form::Arrow(arrow) => is_deep(&arrow.target, depth),
    }
}
