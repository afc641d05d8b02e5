//! An index of the sets of a layer, each under two of its numbers. A set that lacks at most one number of another set has
//! one of any two of its numbers there, so it is found under a number of that set.
ghost use Rattle.std.specs.Prelude.{◌≡◌, ◌++◌, ◌∷◌, [], ◌<◌, All, length, set, Contains, IfOk, IfSome, OnOk};
ghost use Rattle.std.specs.List.{flat_map};
ghost use Rattle.cls_base.specs.Lists.{AreBelow};
ghost use Rattle.cls_check.specs.Layers.{AllBelow};
ghost use Rattle.cls_check.specs.Near.{AreIndexed, at};

use cls_base::OutOfMemory;
use cls_proof::LayerRef;
use std::alloc::Global;
use std::marker::Model;

/// Numbers of sets, seen as the list of them.
#[derive(Drop)]
pub(crate) struct Bucket {
    items: Vec<usize>,
}

impl Model for Bucket {
    ghost use Rattle.std.specs.Prelude.{ℕ, List};

    ghost Value = { List ℕ };

    ghost view = { λ b. b.items.items };
}

impl Bucket {
    /// No number.
    pub fn new(alloc: Global) -> Bucket
        ensures { result ≡ [] }
    {
        Bucket {
            items: Vec::new(alloc),
        }
    }

    /// Puts a number last.
    pub fn put(&mut self, number: usize) -> Result<(), OutOfMemory>
        ensures { OnOk result (self.new ≡ self.old ++ number ∷ []) }
    {
        self.items.push(number)?;
        Ok(())
    }

    /// The numbers as a slice.
    pub fn as_slice(&self) -> &[usize]
        ensures { result.now ≡ self.now }
    {
        self.items.as_slice()
    }
}

/// The sets of a layer by their numbers in it.
#[derive(Drop)]
pub(crate) struct Index {
    /// Under each number some of the sets that have it.
    pub under: Vec<Bucket>,
    /// The sets that stand under no number.
    pub small: Bucket,
}

/// The index of the layer, whose numbers are below the count. The only error is out of memory.
pub(crate) fn index_of(alloc: Global, layer: &LayerRef, count: usize) -> Result<Index, OutOfMemory>
    requires { AllBelow count layer.now }
    ensures { IfOk result (λ index. AreIndexed count layer.now (length layer.now) index.under.items index.small) }
{
    let mut under = no_buckets(alloc, count)?;
    let mut small = Bucket::new(alloc);
    for k in 0..layer.len() {
        match two_of(layer.get(k)) {
            Some((a, b)) => {
                put_under(&mut under, a as usize, k)?;
                put_under(&mut under, b as usize, k)?;
            }
            None => small.put(k)?,
        }
    }
    Ok(Index { under, small })
}

/// The first two numbers, if they differ.
fn two_of(numbers: &[u32]) -> Option<(u32, u32)>
    ensures { IfSome result (λ two. Contains numbers.now two.0 × Contains numbers.now two.1 × (two.0 ≡ two.1 → ⊥)) }
{
    if numbers.len() < 2 {
        return None;
    }
    let (a, b) = (numbers[0], numbers[1]);
    if a == b { None } else { Some((a, b)) }
}

/// So many buckets without a number.
fn no_buckets(alloc: Global, count: usize) -> Result<Vec<Bucket>, OutOfMemory>
    ensures count { IfOk result (λ under. length under.items ≡ count) }
    ensures none { IfOk result (λ under. All (λ bucket. bucket ≡ []) under.items) }
{
    let mut under = Vec::with_capacity(alloc, count)?;
    for _number in 0..count {
        under.push(Bucket::new(alloc))?;
    }
    Ok(under)
}

/// Puts k last in the bucket of this number.
fn put_under(under: &mut Vec<Bucket>, number: usize, k: usize) -> Result<(), OutOfMemory>
    requires { number < length under.old.items }
    ensures { OnOk result (under.new.items ≡ set under.old.items number (at under.old.items number ++ k ∷ [])) }
{
    under[number].put(k)?;
    Ok(())
}

/// The numbers in the layer of all sets that lack at most one number of the set, and of some others.
pub(crate) fn near(alloc: Global, index: &Index, set: &[u32]) -> Result<Vec<usize>, OutOfMemory>
    requires { AreBelow (length index.now.under.items) set.now }
    ensures { IfOk result (λ near. near.items ≡ index.now.small ++ flat_map (at index.now.under.items) set.now) }
{
    let mut near = Vec::new(alloc);
    near.extend_from_slice(index.small.as_slice())?;
    for number in set {
        near.extend_from_slice(index.under[*number as usize].as_slice())?;
    }
    Ok(near)
}
