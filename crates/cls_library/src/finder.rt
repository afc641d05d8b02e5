//! Finds the places whose arrows may lead to a goal, in order, and there the families of the goal's paths.
ghost use Rattle.std.specs.Prelude.{◌≡◌, ◌<◌, ◌≤◌, ◌++◌, ◌∷◌, [], All, IfOk, IfNone, IfSome, IsSomeAnd, MatchOption, None, OnOk, drop, length, map, slice_get, take};
ghost use Rattle.cls_path.specs.Paths.{listed, SuitsAll};
ghost use Rattle.cls_library.specs.declared.place.Place.{Place};
ghost use Rattle.cls_library.specs.Families.{AreFamiliesAt, IsNext, IsPlace, alone, families_in};
ghost use Rattle.cls_library.specs.Leads.{AreBegun, IsLead, PutsFamily, path_of};
ghost use Rattle.cls_library.specs.Libraries.{variances_in};

use crate::lead::Lead;
use crate::library::Library;
use crate::place::Place;
use cls_base::{Numbers, OutOfMemory};
use cls_path::Nf;
use std::alloc::Global;
use std::marker::Model;

/// The families of a goal's paths at a place.
#[derive(Drop)]
pub enum Families<'p> {
    /// Each has one position: these, in the order of the paths.
    Single(&'p [u32]),
    /// The families, in the order of the paths.
    Several(Vec<Numbers>),
}

/// A goal whose rules are looked for in a library. It is seen as the library and the paths of the goal.
#[derive(Drop)]
pub struct Finder<'a> {
    lib: &'a Library,
    leads: Vec<Lead<'a>>,
}

impl<'a> Model for Finder<'a> {
    ghost use Rattle.std.specs.Prelude.{All, map};
    ghost use Rattle.cls_library.specs.Families as definitions;
    ghost use Rattle.cls_library.specs.Stored.{coded_finder};

    ghost Value = { definitions.Finder };

    ghost coded = { coded_finder };

    ghost use Rattle.cls_library.specs.Leads.{IsLead, path_of};

    ghost view = { λ f. record { library = f.lib.now; goal = map path_of f.leads.items } };

    ghost invariant = { λ f. All (IsLead f.lib.now) f.leads.items };
}

impl<'a> Finder<'a> {
    /// What finds the goal's rules in the library. None if the index of the library says that no arrow leads to the goal's first
    /// path, so that no place is found. The only error is out of memory.
    pub fn new(
        alloc: Global,
        lib: &'a Library,
        goal: &'a Nf,
    ) -> Result<Option<Finder<'a>>, OutOfMemory>
        ensures finder { IfOk result (λ r. IfSome r (λ f.
            f ≡ record { library = lib.entry.now; goal = goal.entry.now })) }
        ensures none { IfOk result (λ r. IfNone r
            ((from : Place) → IsNext lib.entry.now (listed goal.entry.now) from None)) }
    {
        let mut leads = Vec::new(alloc);
        for path in goal.paths() {
            let lead = Lead::new(lib, path);
            if leads.is_empty() {
                // Most goals are arguments that no component makes. For these no memory is taken.
                if lead.is_idle() {
                    return Ok(None);
                }
                leads.reserve(goal.paths().len())?;
            }
            leads.push(lead)?;
        }
        Ok(Some(Finder { lib, leads }))
    }

    /// About how many places there are, for room. Nothing rests on it.
    pub fn room(&self) -> usize {
        match self.leads.first() {
            Some(lead) => lead.entries.map_or(0, |entries| entries.len()),
            None => 0,
        }
    }

    /// The first place from this one on where an arrow may lead to the goal's first path. At no other before it does one. None if
    /// there is none to the end. It takes no memory.
    pub fn next(&mut self, from: Place) -> Option<Place>
        requires { 0 < length self.old.goal }
        ensures next { IsNext self.old.library (listed self.old.goal) from result }
        ensures same { self.new ≡ self.old }
    {
        let first = &mut self.leads[0];
        first.next(self.lib, from)
    }

    /// For each path of the goal the positions of the arrows at the place that lead to it. `positions` is room for them,
    /// whatever it holds. The only error is out of memory.
    pub fn families<'p>(
        &mut self,
        alloc: Global,
        place: Place,
        positions: &'p mut Vec<u32>,
    ) -> Result<Families<'p>, OutOfMemory>
        requires place { IsPlace self.old.library place }
        requires suits { SuitsAll (variances_in self.old.library.taxonomy) (listed self.old.goal) }
        ensures families { IfOk result (λ found.
            AreFamiliesAt self.old.library self.old.goal place (families_in found)) }
        ensures same { self.new ≡ self.old }
    {
        let leads = &mut self.leads;
        match put_singles(alloc, self.lib, leads, place, positions)? {
            None => Ok(Families::Single(positions.as_slice())),
            Some(count) => {
                let families = put_several(alloc, self.lib, leads, place, positions, count)?;
                Ok(Families::Several(families))
            }
        }
    }
}

/// Puts the family of the path with this number behind the other positions.
fn put_one(
    alloc: Global,
    lib: &Library,
    leads: &mut Vec<Lead<'_>>,
    i: usize,
    place: Place,
    positions: &mut Vec<u32>,
) -> Result<(), OutOfMemory>
    requires stands { i < length leads.old.items }
    requires leads { All (IsLead lib.now) leads.old.items }
    requires place { IsPlace lib.now place }
    requires suits { SuitsAll (variances_in lib.now.taxonomy) (listed (map path_of leads.old.items)) }
    ensures family { OnOk result (IsSomeAnd (slice_get (map path_of leads.old.items) i)
        (λ q. PutsFamily lib.now q place positions.old.items positions.new.items)) }
    ensures leads { All (IsLead lib.now) leads.new.items }
    ensures paths { map path_of leads.new.items ≡ map path_of leads.old.items }
{
    let lead = &mut leads[i];
    lead.put_family(alloc, lib, place, positions)
}

/// Puts the positions of families of one position each, path after path. At the first family that hasn't one, it stops, with that
/// family's positions behind them; its number.
fn put_singles(
    alloc: Global,
    lib: &Library,
    leads: &mut Vec<Lead<'_>>,
    place: Place,
    positions: &mut Vec<u32>,
) -> Result<Option<usize>, OutOfMemory>
    requires leads { All (IsLead lib.now) leads.old.items }
    requires place { IsPlace lib.now place }
    requires suits { SuitsAll (variances_in lib.now.taxonomy) (listed (map path_of leads.old.items)) }
    ensures found { IfOk result (λ first. MatchOption first
        (AreFamiliesAt lib.now (map path_of leads.old.items) place (map alone positions.new.items))
        (λ i. AreBegun lib.now (map path_of leads.old.items) place i positions.new.items)) }
    ensures leads { All (IsLead lib.now) leads.new.items }
    ensures paths { map path_of leads.new.items ≡ map path_of leads.old.items }
{
    positions.clear();
    positions.reserve(leads.len())?;
    for i in 0..leads.len() {
        put_one(alloc, lib, leads, i, place, positions)?;
        if positions.len() != i + 1 {
            return Ok(Some(i));
        }
    }
    Ok(None)
}

/// The families, of which so many have one position each. These and the next one are given by the positions.
fn put_several(
    alloc: Global,
    lib: &Library,
    leads: &mut Vec<Lead<'_>>,
    place: Place,
    positions: &mut Vec<u32>,
    count: usize,
) -> Result<Vec<Numbers>, OutOfMemory>
    requires leads { All (IsLead lib.now) leads.old.items }
    requires place { IsPlace lib.now place }
    requires suits { SuitsAll (variances_in lib.now.taxonomy) (listed (map path_of leads.old.items)) }
    requires begun { AreBegun lib.now (map path_of leads.old.items) place count positions.old.items }
    ensures families { IfOk result (λ families.
        AreFamiliesAt lib.now (map path_of leads.old.items) place families.items) }
    ensures leads { All (IsLead lib.now) leads.new.items }
    ensures paths { map path_of leads.new.items ≡ map path_of leads.old.items }
{
    let mut families = Vec::with_capacity(alloc, leads.len())?;
    add_begun(alloc, positions, count, &mut families)?;
    for i in count + 1..leads.len() {
        positions.clear();
        put_one(alloc, lib, leads, i, place, positions)?;
        families.push(Numbers::new(Vec::from_slice(alloc, positions)?))?;
    }
    Ok(families)
}

/// Adds families: so many of one position each, and then the rest of the positions as one family.
fn add_begun(
    alloc: Global,
    positions: &[u32],
    count: usize,
    families: &mut Vec<Numbers>,
) -> Result<(), OutOfMemory>
    requires { count ≤ length positions.now }
    ensures { OnOk result (families.new.items
        ≡ families.old.items ++ (map alone (take count positions.now) ++ drop count positions.now ∷ [])) }
{
    for position in &positions[..count] {
        families.push(Numbers::new(Vec::from_slice(alloc, &[*position])?))?;
    }
    families.push(Numbers::new(Vec::from_slice(alloc, &positions[count..])?))?;
    Ok(())
}
