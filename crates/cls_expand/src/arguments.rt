//! The arguments of the rule of a cover.
ghost use Rattle.std.specs.Prelude.{◌≡◌, ℕ, ◌<◌, ◌≤◌, Contains, IfOk, OnOk, MatchBool, length, map, slice_index_or};
ghost use Rattle.cls_base.specs.declared.rule.Rule.TheVariants.{Head};
ghost use Rattle.cls_path.specs.Paths.{Paths, none, append, listed, type_of_paths};
ghost use Rattle.cls_norm.specs.Fit.{IsFit};
ghost use Rattle.cls_library.specs.Arrows.{arity_of};
ghost use Rattle.cls_library.specs.Libraries.{paths_at, arrows_at};
ghost use Rattle.cls_library.specs.Rules.{IsRuleFor};
ghost use Rattle.cls_expand.specs.Making.{picked_of, gathered, choice_at};

use cls_base::OutOfMemory;
use cls_library::{Arrows, Library, MultiArrow};
use cls_norm::fit;
use cls_path::{Nf, Path};
use std::alloc::Global;

/// Puts copies of the paths of the arrow's source at this place last.
fn put_source(
    alloc: Global,
    arrow: &MultiArrow<'_>,
    place: usize,
    all: &mut Vec<Path>,
) -> Result<(), OutOfMemory>
    ensures { OnOk result
        (listed all.new.items ≡ append (listed all.old.items) (slice_index_or arrow.now.sources place none)) }
{
    match arrow.source(place) {
        Some(source) => source.copy_onto(alloc, all),
        None => Ok(()),
    }
}

/// The paths of the sources that the arrows at the positions have at one place.
fn gather(
    alloc: Global,
    arrows: &Arrows<'_>,
    cover: &[u32],
    place: usize,
) -> Result<Vec<Path>, OutOfMemory>
    requires { (i : ℕ) → Contains cover.now i → i < length arrows.now }
    ensures { IfOk result (λ paths. listed paths.items ≡ gathered place (picked_of arrows.now cover.now)) }
{
    let mut paths = Vec::with_capacity(alloc, cover.len())?;
    for i in cover {
        put_source(alloc, &arrows.get(*i as usize), place, &mut paths)?;
    }
    Ok(paths)
}

/// A copy of what the arrow takes at this place, or omega if it takes nothing there.
fn source_at(alloc: Global, arrow: &MultiArrow<'_>, place: usize) -> Result<Nf, OutOfMemory>
    ensures { IfOk result (λ nf. listed nf ≡ slice_index_or arrow.now.sources place none) }
{
    match arrow.source(place) {
        Some(source) => source.copy(alloc),
        None => Ok(Nf::empty(alloc)),
    }
}

/// Makes the list copies of what the arrow takes, place by place.
fn sources(
    alloc: Global,
    arrow: &MultiArrow<'_>,
    count: u32,
    args: &mut Vec<Nf>,
) -> Result<(), OutOfMemory>
    requires { length arrow.now.sources ≡ count }
    ensures { OnOk result (map listed args.new.items ≡ arrow.now.sources) }
{
    args.clear();
    for place in 0..count {
        args.push(source_at(alloc, arrow, place as usize)?)?;
    }
    Ok(())
}

/// Makes the list the arguments of the rule that the component makes by the cover of its arrows with `count` sources, whatever
/// it held: for each place the normal form of the intersection of the sources there. The sources of a single arrow are normal
/// forms as they are. The only error is out of memory.
pub fn arguments(
    alloc: Global,
    lib: &Library,
    x: u32,
    count: u32,
    cover: &[u32],
    args: &mut Vec<Nf>,
) -> Result<(), OutOfMemory>
    requires declared { x < length lib.now.components }
    requires within { count ≤ arity_of (paths_at lib.now x) }
    requires below { (i : ℕ) → Contains cover.now i → i < length (arrows_at lib.now x count) }
    ensures { OnOk result (IsRuleFor lib.now (choice_at x count cover.now) (Head x (map listed args.new.items))) }
{
    let arrows = lib.arrows(x, count);
    if let [i] = cover {
        return sources(alloc, &arrows.get(*i as usize), count, args);
    }
    args.clear();
    for place in 0..count {
        let paths = gather(alloc, &arrows, cover, place as usize)?;
        args.push(Nf::from_paths(alloc, lib.taxonomy(), paths)?)?;
    }
    Ok(())
}

/// Whether each of the arguments is fit; if not, one of them isn't.
pub(crate) fn all_fit(alloc: Global, args: &[Nf]) -> Result<bool, OutOfMemory>
    ensures { IfOk result (λ answer. MatchBool answer
        ((n : Paths) → Contains (map listed args.now) n → IsFit (type_of_paths n))
        ((n : Paths) × Contains (map listed args.now) n × (IsFit (type_of_paths n) → ⊥))) }
{
    for nf in args {
        if !fit(alloc, nf)? {
            return Ok(false);
        }
    }
    Ok(true)
}
