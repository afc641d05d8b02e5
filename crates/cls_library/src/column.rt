//! The places of the arrows that take one number of arguments.
ghost use Rattle.std.specs.Prelude.{◌≡◌, ◌≤◌, ◌<◌, Contains, IfOk, IsTrue, MatchOption, length, slice_get, slice_index_or};
ghost use Rattle.std.specs.List.Sorted.{IsStrictlyIncreasing};
ghost use Rattle.cls_base.specs.Limits.{max_arity};
ghost use Rattle.cls_library.specs.Endings.{AreEndings};
ghost use Rattle.cls_library.specs.Splits.{places_from};

use crate::ending::Ending;
use cls_base::OutOfMemory;
use cls_path::Path;
use std::alloc::Global;
use std::marker::Model;

/// Places of paths, seen as the list of them.
#[derive(Drop)]
pub(crate) struct Column {
    places: Places,
}

/// How places are kept.
#[derive(Drop)]
pub(crate) enum Places {
    /// The places of so many paths, which are all. They take no memory.
    All(usize),
    /// These places.
    Listed(Vec<usize>),
}

impl Model for Column {
    ghost use Rattle.std.specs.Prelude.{ℕ, List};
    ghost use Rattle.cls_library.specs.Splits.{places_in};

    ghost Value = { List ℕ };

    ghost view = { λ c. places_in c.places };
}

impl Column {
    /// The places of the paths with at least `count` leading arrows. For each path `endings` has the place of its ending among
    /// the kinds.
    pub fn new(
        alloc: Global,
        paths: &[Path],
        kinds: &[Ending],
        endings: &[u32],
        count: usize,
    ) -> Result<Column, OutOfMemory>
        requires few { count ≤ max_arity }
        requires endings { AreEndings kinds.now endings.now paths.now }
        ensures { IfOk result (λ column. column ≡ places_from count 0 paths.now) }
    {
        if have_all(kinds, count) {
            return Ok(Column {
                places: Places::All(paths.len()),
            });
        }
        let mut places = Vec::new(alloc);
        for i in 0..paths.len() {
            let kind = kinds[endings[i] as usize];
            if kind.arrows >= count {
                places.push(i)?;
            }
        }
        Ok(Column {
            places: Places::Listed(places),
        })
    }

    /// Places equal to these.
    pub fn copy(&self, alloc: Global) -> Result<Column, OutOfMemory>
        ensures { IfOk result (λ copy. copy ≡ self.now) }
    {
        let places = match &self.places {
            Places::All(count) => Places::All(*count),
            Places::Listed(places) => { Places::Listed(Vec::from_slice(alloc, places.as_slice())?) }
        };
        Ok(Column { places })
    }

    /// The number of places.
    pub fn len(&self) -> usize
        ensures { result ≡ length self.now }
    {
        match &self.places {
            Places::All(count) => *count,
            Places::Listed(places) => places.len(),
        }
    }

    /// The place at this position.
    pub fn get(&self, i: usize) -> usize
        requires { i < length self.now }
        ensures { result ≡ slice_index_or self.now i 0 }
    {
        match &self.places {
            Places::All(_) => i,
            Places::Listed(places) => places[i],
        }
    }

    /// The position of the place, if it stands there. In a column of all paths it is the place itself.
    pub fn position_of(&self, place: usize) -> Option<usize>
        requires { IsStrictlyIncreasing self.now }
        ensures { MatchOption result (Contains self.now place → ⊥) (λ i. slice_get self.now i ≡ Some place) }
    {
        match &self.places {
            Places::All(count) => { if place < *count { Some(place) } else { None } }
            Places::Listed(places) => position_in(places.as_slice(), place),
        }
    }
}

/// The position of the place among rising ones, if it is one of them.
fn position_in(places: &[usize], place: usize) -> Option<usize>
    requires { IsStrictlyIncreasing places.now }
    ensures { MatchOption result (Contains places.now place → ⊥) (λ i. slice_get places.now i ≡ Some place) }
{
    match places.binary_search(&place) {
        Ok(i) => Some(i),
        Err(_) => None,
    }
}

/// Whether each ending has so many leading arrows.
fn have_all(kinds: &[Ending], count: usize) -> bool
    ensures { IsTrue result → (e : Ending) → Contains kinds.now e → count ≤ e.arrows }
{
    for kind in kinds {
        if kind.arrows < count {
            return false;
        }
    }
    true
}
