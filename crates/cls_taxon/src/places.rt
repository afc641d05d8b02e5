//! Names and their places.
ghost use Rattle.std.specs.Prelude.{◌≡◌, ◌≤◌, ◌++◌, ◌∷◌, ℕ, [], None, length, slice_index_or, nat_eq, IfOk, OnOk, OnErr};
ghost use Rattle.cls_base.specs.Lists.{AreDistinct};
ghost use Rattle.cls_taxon.specs.Places.{place_of, place_in, with_name, kept_place, IsSet};
ghost use Rattle.indexmap.specs.IndexMap.{get};

use cls_base::OutOfMemory;
use indexmap::IndexMap;
use std::alloc::Global;
use std::marker::Model;

/// The names below this number have their places in the table.
const TABLED: u32 = 1 << 20;

/// Names, each of which has a place: 0 for the first, and so on in the order in which they first came. It is seen as
/// the list of the names, none of which stands twice.
#[derive(Drop)]
pub struct Places {
    // The names in order.
    names: Vec<u32>,
    // At each small number the place of the name with this number, if it is there. What lies past the end isn't there.
    table: Vec<Option<u32>>,
    // The places of the other names.
    others: IndexMap<u32, u32>,
}

impl Model for Places {
    ghost use Rattle.std.specs.Prelude.{ℕ, List, ◌==◌};
    ghost use Rattle.std.specs.List.{IsDistinct};
    ghost use Rattle.cls_taxon.specs.Places.{ArePlaced};

    ghost Value = { List ℕ };

    ghost view = { λ p. p.names.items };

    ghost invariant = { λ p.
        IsDistinct (λ a b. a == b) p.names.items × ArePlaced p.names.items p.table.items p.others };
}

impl Places {
    /// No names. It takes no memory.
    pub fn new(alloc: Global) -> Places
        ensures { result ≡ [] }
    {
        Places {
            names: Vec::new(alloc),
            table: Vec::new(alloc),
            others: IndexMap::new(alloc),
        }
    }

    /// How many names there are.
    pub fn len(&self) -> usize
        ensures count { result ≡ length self.now }
        ensures distinct { AreDistinct self.now }
    {
        self.names.len()
    }

    /// Puts the name last, unless it is there.
    pub fn insert(&mut self, name: u32) -> Result<(), OutOfMemory>
        ensures ok { OnOk result (self.new ≡ with_name self.old name) }
    {
        if self.find(name).is_some() {
            return Ok(());
        }
        self.push(name)
    }

    /// Puts a name that isn't there last.
    fn push(&mut self, name: u32) -> Result<(), OutOfMemory>
        requires { place_in self.old name ≡ None }
        ensures { OnOk result (self.new ≡ self.old ++ name ∷ []) }
    {
        let Ok(place) = u32::try_from(self.names.len()) else {
            return Err(OutOfMemory);
        };
        // First room for the name, so that a place is set only if the name is put there.
        self.names.reserve(1)?;
        set_place(&mut self.table, &mut self.others, name, place)?;
        self.names.push(name)?;
        Ok(())
    }

    /// The place of the name, or the number of names if it isn't there.
    pub fn place(&self, name: u32) -> usize
        ensures { result ≡ place_of self.now name }
    {
        match self.find(name) {
            Some(place) => place,
            None => self.names.len(),
        }
    }

    /// The place of the name, if it is there.
    fn find(&self, name: u32) -> Option<usize>
        ensures { result ≡ place_in self.now name }
    {
        if name >= TABLED {
            return find_other(&self.others, name);
        }
        match self.table.get(name as usize) {
            Some(Some(place)) => Some(*place as usize),
            _ => None,
        }
    }

    /// Names equal to these.
    pub fn copy(&self, alloc: Global) -> Result<Places, OutOfMemory>
        ensures { IfOk result (λ copy. copy ≡ self.now) }
    {
        Ok(Places {
            names: Vec::from_slice(alloc, self.names.as_slice())?,
            table: Vec::from_slice(alloc, self.table.as_slice())?,
            others: self.others.clone()?,
        })
    }

    /// The names in order.
    pub fn as_slice(&self) -> &[u32]
        ensures names { result.now ≡ self.now }
        ensures distinct { AreDistinct self.now }
    {
        self.names.as_slice()
    }
}

/// Sets the place of the name, or nothing after an error.
fn set_place(
    table: &mut Vec<Option<u32>>,
    others: &mut IndexMap<u32, u32>,
    name: u32,
    place: u32,
) -> Result<(), OutOfMemory>
    ensures ok { OnOk result
        (IsSet (kept_place table.old.items others.old) (kept_place table.new.items others.new) name place) }
    ensures err { OnErr result
        ((a : ℕ) → kept_place table.new.items others.new a ≡ kept_place table.old.items others.old a) }
{
    if name < TABLED {
        set_tabled(table, name, place)
    } else {
        set_other(others, name, place)
    }
}

/// Sets the place of the name in the table, or nothing after an error.
fn set_tabled(table: &mut Vec<Option<u32>>, name: u32, place: u32) -> Result<(), OutOfMemory>
    ensures ok { OnOk result
        (IsSet (λ a. slice_index_or table.old.items a None) (λ a. slice_index_or table.new.items a None) name place) }
    ensures err { OnErr result
        ((a : ℕ) → slice_index_or table.new.items a None ≡ slice_index_or table.old.items a None) }
{
    grow(table, name as usize + 1)?;
    table[name as usize] = Some(place);
    Ok(())
}

/// Makes the table at least so long. What is new has no place.
fn grow(table: &mut Vec<Option<u32>>, count: usize) -> Result<(), OutOfMemory>
    ensures long { OnOk result (count ≤ length table.new.items) }
    ensures same { (a : ℕ) → slice_index_or table.new.items a None ≡ slice_index_or table.old.items a None }
{
    if table.len() < count {
        table.resize(count, None)?;
    }
    Ok(())
}

/// Sets the place of the name in the map, or nothing after an error. Out of line for speed: few names are there.
#[inline(never)]
fn set_other(others: &mut IndexMap<u32, u32>, name: u32, place: u32) -> Result<(), OutOfMemory>
    ensures ok { OnOk result (IsSet (get nat_eq others.old) (get nat_eq others.new) name place) }
    ensures err { OnErr result ((a : ℕ) → get nat_eq others.new a ≡ get nat_eq others.old a) }
{
    others.insert(name, place)?;
    Ok(())
}

/// The place of the name in the map, if it is there. Out of line for speed: few names are.
#[inline(never)]
fn find_other(others: &IndexMap<u32, u32>, name: u32) -> Option<usize>
    ensures { result ≡ get nat_eq others.now name }
{
    let place = others.get(&name)?;
    Some(*place as usize)
}
