//! Stems of paths: the first names on the way to the end, with the sides of products before them. Arrows are left out.
ghost use Rattle.std.specs.Prelude.{◌≡◌};
ghost use Rattle.cls_path.specs.Paths.{atom};
ghost use Rattle.cls_path.specs.Labels.{depth_of, stem_of, code_by};

use crate::label::mixed;
use crate::path::{Form, Path};
use cls_base::{Name, Taxa};

/// How many names stand on the way to the end, at most the greatest number.
pub(crate) fn depth(path: &Path) -> u64
    ensures { result ≡ depth_of path.now }
{
    match &path.form {
        Form::Atom(_) | Form::Sealed(..) => 1,
        Form::Over(..) => 2,
        Form::Con(_, rest) => depth(rest).saturating_add(1),
        Form::Unit => 0,
        Form::Left(rest) | Form::Right(rest) | Form::From(_, rest) => depth(rest),
        Form::Arrow(arrow) => depth(&arrow.target),
    }
}

/// So many first names of the path, and the sides of products before them, mixed into the seed. Names that are alone count as they
/// are, others as their classes.
pub(crate) fn stem<T: Taxa>(taxa: &T, path: &Path, alone: bool, count: u64, seed: u64) -> u64
    ensures { result ≡ stem_of (code_by alone (T.class taxa.now)) count seed path.now }
{
    if count == 0 {
        return seed;
    }
    let rest = count - 1;
    match &path.form {
        Form::Atom(name) | Form::Sealed(name, _) => mixed(seed, code(taxa, *name, alone)),
        Form::Over(name, inner) => {
            name_stem(
                taxa,
                *inner,
                alone,
                rest,
                mixed(seed, code(taxa, *name, alone)),
            )
        }
        Form::Con(name, inner) => {
            stem(
                taxa,
                inner,
                alone,
                rest,
                mixed(seed, code(taxa, *name, alone)),
            )
        }
        Form::Unit => seed,
        Form::Left(inner) => stem(taxa, inner, alone, count, mixed(seed, 0)),
        Form::Right(inner) => stem(taxa, inner, alone, count, mixed(seed, 1)),
        Form::From(_, target) => stem(taxa, target, alone, count, seed),
        Form::Arrow(arrow) => stem(taxa, &arrow.target, alone, count, seed),
    }
}

/// The same for a bare name.
fn name_stem<T: Taxa>(taxa: &T, name: Name, alone: bool, count: u64, seed: u64) -> u64
    ensures { result ≡ stem_of (code_by alone (T.class taxa.now)) count seed (atom name.0) }
{
    if count == 0 {
        seed
    } else {
        mixed(seed, code(taxa, name, alone))
    }
}

/// The name itself if the names are alone, else its class.
fn code<T: Taxa>(taxa: &T, name: Name, alone: bool) -> u64
    ensures { result ≡ code_by alone (T.class taxa.now) name.0 }
{
    if alone {
        u64::from(name.0)
    } else {
        taxa.class(name)
    }
}
