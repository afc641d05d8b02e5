ghost use Rattle.std.specs.List.{concat};
ghost use Rattle.std.specs.Prelude.{◌≡◌, ℕ, ◌<◌, ◌≤◌, [], ◌∷◌, ◌++◌, length, map, take, slice_index, slice_index_or, IfOk, OnOk, OnErr};

use crate::OutOfMemory;
use std::alloc::Global;
use std::marker::Model;

/// Lists of numbers, kept one after another in one column, with the place where each ends. They are seen as the list of
/// these lists.
#[derive(Drop)]
pub struct NumberLists {
    numbers: Vec<u32>,
    ends: Vec<u32>,
}

impl Model for NumberLists {
    ghost use Rattle.std.specs.Prelude.{ℕ, List, length};
    ghost use Rattle.cls_base.specs.Cuts.{cut, AreEnds};

    ghost Value = { List (List ℕ) };

    ghost view = { λ l. cut l.numbers.items 0 l.ends.items };

    ghost invariant = { λ l. AreEnds 0 (length l.numbers.items) l.ends.items };
}

impl NumberLists {
    ghost use Rattle.cls_base.specs.Cuts.{cut, AreEnds};

    /// No lists. They take no memory.
    pub fn new(alloc: Global) -> NumberLists
        ensures { result ≡ [] }
    {
        NumberLists {
            numbers: Vec::new(alloc),
            ends: Vec::new(alloc),
        }
    }

    /// No lists, and room for so many, which have so many numbers together. The only error is out of memory.
    pub fn with_room(
        alloc: Global,
        lists: usize,
        numbers: usize,
    ) -> Result<NumberLists, OutOfMemory>
        ensures { IfOk result (λ l. l ≡ []) }
    {
        Ok(NumberLists {
            numbers: Vec::with_capacity(alloc, numbers)?,
            ends: Vec::with_capacity(alloc, lists)?,
        })
    }

    /// The lists that are cut from the numbers, one after another, up to these ends. It takes no memory.
    pub fn of_columns(numbers: Vec<u32>, ends: Vec<u32>) -> NumberLists
        requires { AreEnds 0 (length numbers.items) ends.items }
        ensures { result ≡ cut numbers.items 0 ends.items }
    {
        NumberLists { numbers, ends }
    }

    /// The same lists once more. The only error is out of memory.
    pub fn copy(&self, alloc: Global) -> Result<NumberLists, OutOfMemory>
        ensures { IfOk result (λ l. l ≡ self.now) }
    {
        Ok(NumberLists {
            numbers: Vec::from_slice(alloc, self.numbers.as_slice())?,
            ends: Vec::from_slice(alloc, self.ends.as_slice())?,
        })
    }

    /// Lists of the same lengths, which have these numbers in place of their own. The only error is out of memory.
    #[tactic(auto, using(crate::proofs::Cutting::cuts))]
    pub fn with_numbers(&self, alloc: Global, numbers: Vec<u32>) -> Result<NumberLists, OutOfMemory>
        requires { length numbers.items ≡ length (concat self.now) }
        ensures lengths { IfOk result (λ lists. map length lists ≡ map length self.now) }
        ensures mapped { IfOk result (λ lists.
            (f : ℕ → ℕ) → numbers.items ≡ map f (concat self.now) → lists ≡ map (map f) self.now) }
    {
        let ends = Vec::from_slice(alloc, self.ends.as_slice())?;
        Ok(NumberLists { numbers, ends })
    }

    /// All numbers, list after list.
    #[tactic(auto, using(crate::proofs::Cutting::cuts))]
    pub fn numbers(&self) -> &[u32]
        ensures { result.now ≡ concat self.now }
    {
        self.numbers.as_slice()
    }

    /// The number of lists.
    #[tactic(auto, using(crate::proofs::Cutting::cuts))]
    pub fn len(&self) -> usize
        ensures { result ≡ length self.now }
    {
        self.ends.len()
    }

    /// Adds a list at the end. The only error is out of memory, and then the lists are as before. Where they would hold
    /// more numbers than a `u32` counts, that is out of memory too.
    #[tactic(auto, using(crate::proofs::Cutting::cuts))]
    pub fn push(&mut self, list: &[u32]) -> Result<(), OutOfMemory>
        ensures ok { OnOk result (self.new ≡ self.old ++ list.now ∷ []) }
        ensures err { OnErr result (self.new ≡ self.old) }
    {
        let Ok(end) = u32::try_from(self.numbers.len() + list.len()) else {
            return Err(OutOfMemory);
        };
        self.ends.reserve(1)?;
        self.numbers.extend_from_slice(list)?;
        self.ends.push(end)?;
        Ok(())
    }

    /// The list at a place.
    #[tactic(auto, using(crate::proofs::Cutting::cuts))]
    pub fn get(&self, place: usize) -> &[u32]
        requires { place < length self.now }
        ensures { result.now ≡ slice_index_or self.now place [] }
    {
        let start = start_of(self.ends.as_slice(), place);
        &self.numbers[start..self.ends[place] as usize]
    }

    /// Keeps the first lists, no more than so many.
    #[tactic(auto, using(crate::proofs::Cutting::cuts))]
    pub fn truncate(&mut self, count: usize)
        ensures { self.new ≡ take count self.old }
    {
        if count < self.ends.len() {
            let end = start_of(self.ends.as_slice(), count);
            self.numbers.truncate(end);
            self.ends.truncate(count);
        }
    }
}

/// Where the list at the place begins, which is where the one before it ends, for lists that stand one after another in one
/// column. The ends are numbers of its items.
pub fn start_of(ends: &[u32], place: usize) -> usize
    requires { place ≤ length ends.now }
    ensures { result ≡ slice_index (0 ∷ ends.now) place }
{
    if place == 0 {
        0
    } else {
        ends[place - 1] as usize
    }
}
