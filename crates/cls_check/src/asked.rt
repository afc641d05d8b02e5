//! What is asked of a term, and which paths lead to it.
ghost use Rattle.std.specs.Prelude.{ℕ, ◌↔◌, Contains, IsTrue};
ghost use Rattle.cls_path.specs.Paths.{Paths, listed};
ghost use Rattle.cls_check.specs.Asking.{goals_of};
ghost use Rattle.cls_check.specs.Deciding.{AllSuitIn, IsLeading, SomeAbove, SuitIn, source_of, sources_of};

use crate::kept::KeptArrows;
use cls_library::{Library, MultiArrow};
use cls_path::{ArrowSource, Nf, Path};

/// What is asked of a term.
#[derive(Drop)]
pub(crate) enum Asked<'a> {
    /// The paths of a goal.
    Goal(&'a Nf),
    /// The paths that the arrows take at this place.
    Sources(&'a KeptArrows<'a>, usize),
}

/// Whether the path is below some path of the goal.
fn leads_to(lib: &Library, target: &Path, goal: &Nf) -> bool
    requires target { SuitIn lib.now target.now }
    requires goal { AllSuitIn lib.now (listed goal.now) }
    ensures { IsTrue result ↔ SomeAbove lib.now (listed goal.now) target.now }
{
    for path in goal.paths() {
        if target.le(lib.taxonomy(), path) {
            return true;
        }
    }
    false
}

/// Whether the path is below some path that the arrow takes at this place.
fn leads_to_source(lib: &Library, target: &Path, arrow: &MultiArrow<'_>, place: usize) -> bool
    requires target { SuitIn lib.now target.now }
    requires source { AllSuitIn lib.now (source_of arrow.now place) }
    ensures { IsTrue result ↔ SomeAbove lib.now (source_of arrow.now place) target.now }
{
    match arrow.source(place) {
        Some(ArrowSource::Name(name)) => target.le(lib.taxonomy(), &Path::atom(name)),
        Some(ArrowSource::Paths(source)) => leads_to(lib, target, source),
        None => false,
    }
}

/// Whether the path is below some path that one of the arrows takes at this place.
fn leads_to_some_source(lib: &Library, target: &Path, arrows: &KeptArrows<'_>, place: usize) -> bool
    requires target { SuitIn lib.now target.now }
    requires sources { (n : Paths) → Contains (sources_of arrows.now place) n → AllSuitIn lib.now n }
    ensures { IsTrue result ↔ IsLeading lib.now (sources_of arrows.now place) target.now }
{
    for i in 0..arrows.len() {
        if leads_to_source(lib, target, &arrows.get(i), place) {
            return true;
        }
    }
    false
}

/// Whether the path is below one that is asked.
pub(crate) fn leads_to_asked(lib: &Library, target: &Path, asked: &Asked<'_>) -> bool
    requires target { SuitIn lib.now target.now }
    requires goals { (n : Paths) → Contains (goals_of asked.now) n → AllSuitIn lib.now n }
    ensures { IsTrue result ↔ IsLeading lib.now (goals_of asked.now) target.now }
{
    match asked {
        Asked::Goal(goal) => leads_to(lib, target, goal),
        Asked::Sources(arrows, place) => leads_to_some_source(lib, target, arrows, *place),
    }
}
