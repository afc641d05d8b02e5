//! The members of a certificate.
ghost use Rattle.std.specs.Prelude.{ℕ, ◌<◌, ◌≡◌, ◌↔◌, ◌^◌, All, length, map, IfOk, OnOk, IfErr, IsTrue};
ghost use Rattle.cls_path.specs.Paths.{listed, type_of_paths, SuitsAll};
ghost use Rattle.cls_library.specs.Libraries.{variances_in, IsLibrary};
ghost use Rattle.cls_proof.specs.Certificates.{empty};
ghost use Rattle.cls_check.specs.Checking.{Accepts, IsPlace, PassesLayers, path_total, empty_layers};
ghost use Rattle.cls_check.specs.Goals.{AllSuit, AreForms, AreGoals};
ghost use Rattle.cls_check.specs.Places.{Stands, block_place};
ghost use Rattle.cls_check.specs.Tests.{AreRight, TellsMember, IsBlockWalked, IsOtherWalked, IsWalkedAt};
ghost use Rattle.cls_check.specs.Verdicts.{IsRefusedAs};

use crate::fault::{CheckFault, Reason};
use crate::findings::Findings;
use crate::goals::Goals;
use crate::layers::{block_places, place_of};
use crate::place::Place;
use crate::steps::is_walked;
use cls_base::OutOfMemory;
use cls_library::{Finder, Library};
use cls_norm::normal;
use cls_path::Nf;
use cls_proof::{BlocksRef, Layers, LayersRef, Members};
use indexmap::IndexSet;
use std::alloc::Global;

/// Tests the members in order, and then that the asked goal is below that of a member.
pub(crate) fn check_members(
    alloc: Global,
    lib: &Library,
    asked: &Nf,
    members: &Members,
) -> Result<(), CheckFault>
    requires suits { SuitsAll (variances_in lib.now.taxonomy) (listed asked.now) }
    requires few { length members.now < 2 ^ 32 }
    ensures accepted { OnOk result
        (Accepts lib.now (type_of_paths (listed asked.now)) (empty members.now)) }
    ensures refused { IfErr result
        (IsRefusedAs lib.now (type_of_paths (listed asked.now)) (empty members.now)) }
{
    let forms = forms_of(alloc, lib, members)?;
    let goals = goals_of(alloc, &forms)?;
    let mut known = Findings::new(alloc);
    for i in 0..members.len() {
        let member = members.get(i);
        match member_fault(alloc, lib, &goals, &mut known, &forms[i], &member.blocks)? {
            Some(reason) => {
                return Err(CheckFault::Refused {
                    row: i as u32 + 1,
                    reason,
                });
            }
            None => {}
        }
    }
    if !goals.any_above(lib, asked) {
        return Err(CheckFault::Refused {
            row: 0,
            reason: Reason::Goal,
        });
    }
    Ok(())
}

/// The normal forms of the members' goals.
fn forms_of(alloc: Global, lib: &Library, members: &Members) -> Result<Vec<Nf>, OutOfMemory>
    ensures { IfOk result (λ forms. AreForms lib.now members.now forms.items) }
{
    let mut forms = Vec::with_capacity(alloc, members.len())?;
    for i in 0..members.len() {
        let member = members.get(i);
        forms.push(normal(alloc, lib.taxonomy(), member.goal)?)?;
    }
    Ok(forms)
}

/// The table of these goals.
fn goals_of(alloc: Global, forms: &[Nf]) -> Result<Goals, OutOfMemory>
    ensures { IfOk result (AreGoals forms.now) }
{
    let mut goals = Goals::new(alloc);
    for form in forms {
        goals.put(form.copy(alloc)?)?;
    }
    Ok(goals)
}

/// The first test that a member with these blocks fails. Its goal has this normal form.
fn member_fault(
    alloc: Global,
    lib: &Library,
    goals: &Goals,
    known: &mut Findings,
    form: &Nf,
    blocks: &BlocksRef,
) -> Result<Option<Reason>, OutOfMemory>
    requires goals { AllSuit lib.now goals.now }
    requires known { AreRight lib.now goals.now known.old }
    requires suits { SuitsAll (variances_in lib.now.taxonomy) (listed form.now) }
    ensures tells { IfOk result (TellsMember lib.now goals.now blocks.now (listed form.now)) }
    ensures known { OnOk result (AreRight lib.now goals.now known.new) }
{
    let count = form.paths().len();
    let places = match block_places(alloc, lib, count, blocks)? {
        None => return Ok(Some(Reason::Layers)),
        Some(places) => places,
    };
    if !is_unblocked(alloc, lib, goals, known, form, blocks, &places)? {
        return Ok(Some(Reason::Unblocked));
    }
    Ok(None)
}

/// Whether for each place the layers lead from the empty set to sets that are all blocked.
fn is_unblocked(
    alloc: Global,
    lib: &Library,
    goals: &Goals,
    known: &mut Findings,
    form: &Nf,
    blocks: &BlocksRef,
    places: &IndexSet<Place>,
) -> Result<bool, OutOfMemory>
    requires goals { AllSuit lib.now goals.now }
    requires known { AreRight lib.now goals.now known.old }
    requires suits { SuitsAll (variances_in lib.now.taxonomy) (listed form.now) }
    requires layers { PassesLayers lib.now blocks.now (path_total (listed form.now)) }
    requires places { places.now.keys ≡ map block_place blocks.now }
    ensures unblocked { IfOk result (λ answer. IsTrue answer ↔ ((x n : ℕ) → IsPlace lib.now x n
        → IsWalkedAt lib.now goals.now blocks.now (listed form.now) x n)) }
    ensures known { OnOk result (AreRight lib.now goals.now known.new) }
{
    let count = lib.count();
    if form.paths().is_empty() {
        // A component without an argument has omega: there the empty set isn't blocked.
        return Ok(count == 0);
    }
    if !are_blocks_walked(alloc, lib, goals, known, form, blocks)? {
        return Ok(false);
    }
    are_others_walked(alloc, lib, goals, known, form, places)
}

/// Whether the layers of each block do so.
fn are_blocks_walked(
    alloc: Global,
    lib: &Library,
    goals: &Goals,
    known: &mut Findings,
    form: &Nf,
    blocks: &BlocksRef,
) -> Result<bool, OutOfMemory>
    requires goals { AllSuit lib.now goals.now }
    requires known { AreRight lib.now goals.now known.old }
    requires suits { SuitsAll (variances_in lib.now.taxonomy) (listed form.now) }
    requires layers { PassesLayers lib.now blocks.now (path_total (listed form.now)) }
    ensures walked { IfOk result (λ answer. IsTrue answer
        ↔ All (IsBlockWalked lib.now goals.now (listed form.now)) blocks.now) }
    ensures known { OnOk result (AreRight lib.now goals.now known.new) }
{
    for i in 0..blocks.len() {
        let block = blocks.get(i);
        let place = place_of(&block);
        if !is_walked(alloc, lib, goals, known, place, form, &block.layers)? {
            return Ok(false);
        }
    }
    Ok(true)
}

/// Whether layers without a set do so wherever there is no block. Where no arrow leads to the first path, they do.
fn are_others_walked(
    alloc: Global,
    lib: &Library,
    goals: &Goals,
    known: &mut Findings,
    form: &Nf,
    places: &IndexSet<Place>,
) -> Result<bool, OutOfMemory>
    requires library { IsLibrary lib.now }
    requires goals { AllSuit lib.now goals.now }
    requires known { AreRight lib.now goals.now known.old }
    requires suits { SuitsAll (variances_in lib.now.taxonomy) (listed form.now) }
    requires path { 0 < length form.now }
    ensures walked { IfOk result (λ answer. IsTrue answer ↔ ((x n : ℕ) → IsPlace lib.now x n
        → IsOtherWalked lib.now goals.now places.now.keys (listed form.now) (record { component = x; n = n }))) }
    ensures known { OnOk result (AreRight lib.now goals.now known.new) }
{
    let Some(mut finder) = Finder::new(alloc, lib, form)? else {
        return Ok(true);
    };
    let none = no_layers(alloc, form.paths().len())?;
    let mut from = cls_library::Place {
        component: 0,
        count: 0,
    };
    while let Some(found) = finder.next(from) {
        let place = Place {
            component: found.component,
            n: found.count,
        };
        if !is_other_walked(alloc, lib, goals, known, form, places, &none.all(), place)? {
            return Ok(false);
        }
        from = cls_library::Place {
            component: found.component,
            count: found.count + 1,
        };
    }
    Ok(true)
}

/// The same for one place. What costs least is asked first.
fn is_other_walked(
    alloc: Global,
    lib: &Library,
    goals: &Goals,
    known: &mut Findings,
    form: &Nf,
    places: &IndexSet<Place>,
    none: &LayersRef,
    place: Place,
) -> Result<bool, OutOfMemory>
    requires place { Stands lib.now place }
    requires goals { AllSuit lib.now goals.now }
    requires known { AreRight lib.now goals.now known.old }
    requires suits { SuitsAll (variances_in lib.now.taxonomy) (listed form.now) }
    requires none { none.now ≡ empty_layers (path_total (listed form.now)) }
    ensures walked { IfOk result (λ answer. IsTrue answer
        ↔ IsOtherWalked lib.now goals.now places.now.keys (listed form.now) place) }
    ensures known { OnOk result (AreRight lib.now goals.now known.new) }
{
    if places.contains(&place) {
        return Ok(true);
    }
    is_walked(alloc, lib, goals, known, place, form, none)
}

/// So many layers without a set.
fn no_layers(alloc: Global, count: usize) -> Result<Layers, OutOfMemory>
    ensures { IfOk result (λ layers. layers ≡ empty_layers count) }
{
    let mut layers = Layers::new(alloc);
    for _layer in 0..count {
        layers.push_layer()?;
    }
    Ok(layers)
}
