//! Whether the names of paths are alone: no other name is below one. Any of these tests may say no where that is not known.
ghost use Rattle.std.specs.Prelude.{IsTrue};
ghost use Rattle.std.specs.List.{AllByRecursion};
ghost use Rattle.cls_base.specs.Taxa.{Below};
ghost use Rattle.cls_path.specs.Labels.{AreAlone, AreLoneSources};

use crate::path::{Form, Path};
use cls_base::Taxa;

/// Whether the names on the way to the end of each path are alone.
pub(crate) fn are_all_alone<T: Taxa>(taxa: &T, paths: &[Path]) -> bool
    ensures { IsTrue result → AllByRecursion (AreAlone (Below (T.is_below taxa.now))) paths.now }
{
    for path in paths {
        if !are_alone(taxa, path) {
            return false;
        }
    }
    true
}

/// The same for one path.
pub(crate) fn are_alone<T: Taxa>(taxa: &T, path: &Path) -> bool
    ensures { IsTrue result → AreAlone (Below (T.is_below taxa.now)) path.now }
{
    match &path.form {
        Form::Atom(name) => taxa.stands_alone(*name),
        Form::Over(name, inner) => taxa.stands_alone(*name) && taxa.stands_alone(*inner),
        Form::Con(name, rest) => taxa.stands_alone(*name) && are_alone(taxa, rest),
        Form::Unit => true,
        Form::Left(rest) | Form::Right(rest) | Form::From(_, rest) => are_alone(taxa, rest),
        Form::Arrow(arrow) => are_alone(taxa, &arrow.target),
        Form::Sealed(name, _) => taxa.stands_alone(*name),
    }
}

/// Whether each source of each path is one bare name, and alone.
pub(crate) fn have_all_own<T: Taxa>(taxa: &T, paths: &[Path]) -> bool
    ensures { IsTrue result → AllByRecursion (AreLoneSources (Below (T.is_below taxa.now))) paths.now }
{
    for path in paths {
        if !has_own(taxa, path) {
            return false;
        }
    }
    true
}

/// The same for one path. A list under a name counts as a source.
pub(crate) fn has_own<T: Taxa>(taxa: &T, path: &Path) -> bool
    ensures { IsTrue result → AreLoneSources (Below (T.is_below taxa.now)) path.now }
{
    match &path.form {
        Form::Atom(_) | Form::Over(..) | Form::Con(..) => true,
        Form::Unit | Form::Left(_) | Form::Right(_) => true,
        Form::From(name, rest) => taxa.stands_alone(*name) && has_own(taxa, rest),
        Form::Arrow(_) | Form::Sealed(..) => false,
    }
}
