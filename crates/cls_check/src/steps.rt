//! The way from one layer of sets to the next.
ghost use Rattle.std.specs.Prelude.{◌+◌, ◌<◌, ◌≡◌, ◌↔◌, All, length, [], ◌∷◌, IfOk, IsTrue, OnOk};
ghost use Rattle.cls_base.specs.Lists.{AreBelow};
ghost use Rattle.cls_path.specs.Paths.{listed, Suits, SuitsAll};
ghost use Rattle.cls_library.specs.Families.{IsFamilyIn};
ghost use Rattle.cls_library.specs.Libraries.{variances_in};
ghost use Rattle.cls_check.specs.Checking.{path_total};
ghost use Rattle.cls_check.specs.Goals.{AllSuit};
ghost use Rattle.cls_check.specs.Layers.{AllBelow};
ghost use Rattle.cls_check.specs.Near.{AreIndexed};
ghost use Rattle.cls_check.specs.Places.{Stands, arrows_in};
ghost use Rattle.cls_check.specs.Tests.{AllStep, AreRight, AreSettled, IsSettled, IsStopped, IsWalked, sets_at};

use crate::argument::arguments;
use crate::findings::Findings;
use crate::goals::Goals;
use crate::known::KnownSets;
use crate::lack::all_met;
use crate::near::{Index, index_of};
use crate::place::Place;
use cls_base::OutOfMemory;
use cls_library::Library;
use cls_path::{Nf, Path};
use cls_proof::{LayerRef, LayersRef, Sets};
use std::alloc::Global;

/// Whether the layers lead from the empty set to sets that are all blocked. There is a layer for each path of the goal.
/// Sets that are found blocked become known.
pub(crate) fn is_walked(
    alloc: Global,
    lib: &Library,
    goals: &Goals,
    known: &mut Findings,
    place: Place,
    goal: &Nf,
    layers: &LayersRef,
) -> Result<bool, OutOfMemory>
    requires place { Stands lib.now place }
    requires goals { AllSuit lib.now goals.now }
    requires known { AreRight lib.now goals.now known.old }
    requires suits { SuitsAll (variances_in lib.now.taxonomy) (listed goal.now) }
    requires as_many { length layers.now ≡ path_total (listed goal.now) }
    requires within { All (AllBelow (length (arrows_in lib.now place))) layers.now }
    ensures walked { IfOk result (λ walked. IsTrue walked
        ↔ IsWalked lib.now goals.now place (listed goal.now) layers.now) }
    ensures known { OnOk result (AreRight lib.now goals.now known.new) }
{
    let start = only_empty(alloc)?;
    for (step, path) in goal.paths().iter().enumerate() {
        let sets = sets_at(&start, layers, step);
        let layer = layers.get(step);
        if !all_step(alloc, lib, goals, known, place, path, &sets, &layer)? {
            return Ok(false);
        }
    }
    let last = sets_at(&start, layers, layers.len());
    Ok(all_blocked(alloc, lib, goals, known, place, &last)?)
}

/// The empty set alone.
fn only_empty(alloc: Global) -> Result<Sets, OutOfMemory>
    ensures { IfOk result (λ sets. sets ≡ [] ∷ []) }
{
    let mut sets = Sets::new(alloc);
    sets.push(&[])?;
    Ok(sets)
}

/// The sets from which the step of this number goes.
fn sets_at<'a>(start: &'a Sets, layers: &LayersRef<'a>, step: usize) -> LayerRef<'a>
    requires { step < length layers.now + 1 }
    ensures { result ≡ sets_at start.now layers.now step }
{
    if step == 0 {
        start.all()
    } else {
        layers.get(step - 1)
    }
}

/// Whether each of the sets leads to the next layer, or is blocked. If no arrow leads to the path there is nothing to do.
fn all_step(
    alloc: Global,
    lib: &Library,
    goals: &Goals,
    known: &mut Findings,
    place: Place,
    path: &Path,
    sets: &LayerRef,
    layer: &LayerRef,
) -> Result<bool, OutOfMemory>
    requires place { Stands lib.now place }
    requires goals { AllSuit lib.now goals.now }
    requires known { AreRight lib.now goals.now known.old }
    requires suits { Suits (variances_in lib.now.taxonomy) path.now }
    requires within { AllBelow (length (arrows_in lib.now place)) sets.now }
    requires layer { AllBelow (length (arrows_in lib.now place)) layer.now }
    ensures step { IfOk result (λ step. IsTrue step
        ↔ AllStep lib.now goals.now place path.now sets.now layer.now) }
    ensures known { OnOk result (AreRight lib.now goals.now known.new) }
{
    if sets.len() == 0 {
        return Ok(true);
    }
    let family = lib.family(alloc, place.component, place.n, path)?;
    let leading = family.as_slice();
    if leading.is_empty() {
        return Ok(true);
    }
    are_settled(alloc, lib, goals, known, place, path, leading, sets, layer)
}

/// Whether each of the sets with each number of the family contains a set of the layer, or is blocked.
fn are_settled(
    alloc: Global,
    lib: &Library,
    goals: &Goals,
    known: &mut Findings,
    place: Place,
    path: &Path,
    family: &[u32],
    sets: &LayerRef,
    layer: &LayerRef,
) -> Result<bool, OutOfMemory>
    requires place { Stands lib.now place }
    requires goals { AllSuit lib.now goals.now }
    requires known { AreRight lib.now goals.now known.old }
    requires family { IsFamilyIn lib.now.taxonomy (arrows_in lib.now place) path.now family.now }
    requires within { AllBelow (length (arrows_in lib.now place)) sets.now }
    requires layer { AllBelow (length (arrows_in lib.now place)) layer.now }
    ensures settled { IfOk result (λ settled. IsTrue settled
        ↔ All (IsSettled lib.now goals.now place family.now layer.now) sets.now) }
    ensures known { OnOk result (AreRight lib.now goals.now known.new) }
{
    let index = index_of(alloc, layer, place.arrows(lib).len())?;
    let mut kept = KnownSets::new(alloc);
    for i in 0..sets.len() {
        let set = sets.get(i);
        if !settles(
            alloc, lib, goals, known, &mut kept, place, path, family, layer, &index, set,
        )? {
            return Ok(false);
        }
    }
    Ok(true)
}

/// The same of one set. Equal ones are looked at once: those that are settled are kept.
fn settles(
    alloc: Global,
    lib: &Library,
    goals: &Goals,
    known: &mut Findings,
    kept: &mut KnownSets,
    place: Place,
    path: &Path,
    family: &[u32],
    layer: &LayerRef,
    index: &Index,
    set: &[u32],
) -> Result<bool, OutOfMemory>
    requires place { Stands lib.now place }
    requires goals { AllSuit lib.now goals.now }
    requires known { AreRight lib.now goals.now known.old }
    requires kept { AreSettled lib.now goals.now place family.now layer.now kept.old }
    requires family { IsFamilyIn lib.now.taxonomy (arrows_in lib.now place) path.now family.now }
    requires layer { AllBelow (length (arrows_in lib.now place)) layer.now }
    requires index { AreIndexed (length (arrows_in lib.now place)) layer.now (length layer.now)
        index.now.under.items index.now.small }
    requires set { AreBelow (length (arrows_in lib.now place)) set.now }
    ensures settled { IfOk result (λ settled. IsTrue settled
        ↔ IsSettled lib.now goals.now place family.now layer.now set.now) }
    ensures known { OnOk result (AreRight lib.now goals.now known.new) }
    ensures kept { OnOk result (AreSettled lib.now goals.now place family.now layer.now kept.new) }
{
    if kept.has(alloc, place, set)? {
        return Ok(true);
    }
    if !is_settled(
        alloc, lib, goals, known, place, path, family, layer, index, set,
    )? {
        return Ok(false);
    }
    kept.put(alloc, place, set)?;
    Ok(true)
}

/// Whether the set with each number of the family contains a set of the layer, or is blocked. The latter costs more.
fn is_settled(
    alloc: Global,
    lib: &Library,
    goals: &Goals,
    known: &mut Findings,
    place: Place,
    path: &Path,
    family: &[u32],
    layer: &LayerRef,
    index: &Index,
    set: &[u32],
) -> Result<bool, OutOfMemory>
    requires place { Stands lib.now place }
    requires goals { AllSuit lib.now goals.now }
    requires known { AreRight lib.now goals.now known.old }
    requires family { IsFamilyIn lib.now.taxonomy (arrows_in lib.now place) path.now family.now }
    requires layer { AllBelow (length (arrows_in lib.now place)) layer.now }
    requires index { AreIndexed (length (arrows_in lib.now place)) layer.now (length layer.now)
        index.now.under.items index.now.small }
    requires set { AreBelow (length (arrows_in lib.now place)) set.now }
    ensures settled { IfOk result (λ settled. IsTrue settled
        ↔ IsSettled lib.now goals.now place family.now layer.now set.now) }
    ensures known { OnOk result (AreRight lib.now goals.now known.new) }
{
    let count = place.arrows(lib).len();
    if all_met(alloc, family, layer, index, set, count)? {
        return Ok(true);
    }
    is_known_blocked(alloc, lib, goals, known, place, set)
}

/// Whether each of the sets is blocked.
fn all_blocked(
    alloc: Global,
    lib: &Library,
    goals: &Goals,
    known: &mut Findings,
    place: Place,
    sets: &LayerRef,
) -> Result<bool, OutOfMemory>
    requires place { Stands lib.now place }
    requires goals { AllSuit lib.now goals.now }
    requires known { AreRight lib.now goals.now known.old }
    requires within { AllBelow (length (arrows_in lib.now place)) sets.now }
    ensures blocked { IfOk result (λ blocked. IsTrue blocked ↔ All (IsStopped lib.now goals.now place) sets.now) }
    ensures known { OnOk result (AreRight lib.now goals.now known.new) }
{
    for i in 0..sets.len() {
        if !is_known_blocked(alloc, lib, goals, known, place, sets.get(i))? {
            return Ok(false);
        }
    }
    Ok(true)
}

/// Whether the set is blocked. Equal ones are looked at once.
fn is_known_blocked(
    alloc: Global,
    lib: &Library,
    goals: &Goals,
    known: &mut Findings,
    place: Place,
    set: &[u32],
) -> Result<bool, OutOfMemory>
    requires place { Stands lib.now place }
    requires goals { AllSuit lib.now goals.now }
    requires known { AreRight lib.now goals.now known.old }
    requires within { AreBelow (length (arrows_in lib.now place)) set.now }
    ensures blocked { IfOk result (λ blocked. IsTrue blocked ↔ IsStopped lib.now goals.now place set.now) }
    ensures known { OnOk result (AreRight lib.now goals.now known.new) }
{
    if known.sets.has(alloc, place, set)? {
        return Ok(true);
    }
    if !is_blocked(alloc, lib, goals, known, place, set)? {
        return Ok(false);
    }
    known.sets.put(alloc, place, set)?;
    Ok(true)
}

/// Whether for some argument the intersection of what the arrows take is below a goal. The goals themselves are looked
/// for first.
fn is_blocked(
    alloc: Global,
    lib: &Library,
    goals: &Goals,
    known: &mut Findings,
    place: Place,
    set: &[u32],
) -> Result<bool, OutOfMemory>
    requires place { Stands lib.now place }
    requires goals { AllSuit lib.now goals.now }
    requires known { AreRight lib.now goals.now known.old }
    requires within { AreBelow (length (arrows_in lib.now place)) set.now }
    ensures blocked { IfOk result (λ blocked. IsTrue blocked ↔ IsStopped lib.now goals.now place set.now) }
    ensures known { OnOk result (AreRight lib.now goals.now known.new) }
{
    let arguments = arguments(alloc, lib, place, set)?;
    for argument in &arguments {
        if goals.has(argument) {
            return Ok(true);
        }
    }
    for argument in &arguments {
        if known.is_below(alloc, lib, goals, argument)? {
            return Ok(true);
        }
    }
    Ok(false)
}
