//! The order of names that declared pairs make.
ghost use Rattle.std.specs.Prelude.{◌≡◌, ℕ, true, Contains, ◌<◌, ◌≤◌, ◌⊎◌, ◌↔◌, map, IsTrue, IfOk, OnOk, IfErr, length};
ghost use Rattle.cls_base.specs.Lists.{AreDistinct};
ghost use Rattle.cls_base.specs.Taxonomies.{Chain};
ghost use Rattle.cls_taxon.specs.Closures.{spans_at};
ghost use Rattle.cls_taxon.specs.Faults.{IsFaultOf};
ghost use Rattle.cls_taxon.specs.Orders.{IsOrder, stands_in};
ghost use Rattle.cls_taxon.specs.PairGraphs.{pair_of, AreHeld};
ghost use Rattle.cls_taxon.specs.Places.{place_of};
ghost use Rattle.cls_taxon.specs.Spans.{HaveOne, InSpans};
ghost use Rattle.cls_taxon.specs.Variances.{declaration};

use crate::closure::close;
use crate::cycles::least_on_cycle;
use crate::fault::TaxonFault;
use crate::mix::first_mixed;
use crate::pairs::{graph_of, hold_names};
use crate::places::Places;
use crate::spans::Spans;
use crate::variances::Variances;
use crate::walk::order_left;
use cls_base::{Name, OutOfMemory, Taxa, Variance};
use std::alloc::Global;
use std::marker::Model;

/// A partial order of names that keeps their variance, seen as the pairs and variances that were declared.
///
/// A name is below another one if a chain of declared pairs leads from it to that one. The set of the names below it is kept
/// for each name.
pub struct Taxonomy {
    pairs: Vec<(Name, Name)>,
    variances: Variances,
    places: Places,
    below: Vec<Spans>,
}

// Not derived, for the prover: so a caller's proof has one step where a value is dropped, and not one for each part of it.
impl Drop for Taxonomy {
    fn drop(self) {
        let Taxonomy {
            pairs: _,
            variances: _,
            places: _,
            below: _,
        } = self;
    }
}

impl Model for Taxonomy {
    ghost use Rattle.std.specs.Prelude.{map};
    ghost use Rattle.cls_taxon.specs.Kept.{IsTaxonomy};
    ghost use Rattle.cls_taxon.specs.Orders.{Declared};
    ghost use Rattle.cls_taxon.specs.PairGraphs.{pair_of};

    ghost Value = { Declared };

    ghost view = { λ t. record { pairs = map pair_of t.pairs.items; variances = t.variances } };

    ghost invariant = { λ t.
        IsTaxonomy (record { pairs = map pair_of t.pairs.items; variances = t.variances }) t.places t.below.items };
}

impl Taxonomy {
    /// The order that these pairs make, the first name of each below the second. A name without a variance is covariant,
    /// and no name has two.
    ///
    /// `Cycle` names the least name that another one is both above and below. Otherwise `Mix` names the first name of the
    /// first pair whose names differ in variance.
    pub fn new(
        alloc: Global,
        pairs: &[(Name, Name)],
        variances: &[(Name, Variance)],
    ) -> Result<Taxonomy, TaxonFault>
        requires { AreDistinct (map (λ v. v.0.0) variances.now) }
        ensures declared { IfOk result (λ t. t ≡ declaration pairs.now variances.now) }
        ensures order { OnOk result (IsOrder (declaration pairs.now variances.now)) }
        ensures fault { IfErr result (IsFaultOf (declaration pairs.now variances.now)) }
    {
        let variances = Variances::new(alloc, variances)?;
        let places = places_of(alloc, pairs)?;
        // The graph is let go before the pairs are copied.
        let below = {
            let graph = graph_of(alloc, &places, pairs)?;
            let below = close(alloc, &graph)?;
            if let Some(name) = least_on_cycle(places.as_slice(), &graph, &below) {
                return Err(TaxonFault::Cycle(Name(name)));
            }
            below
        };
        if let Some(name) = first_mixed(pairs, &variances) {
            return Err(TaxonFault::Mix(name));
        }
        let pairs = copy_of(alloc, pairs)?;
        Ok(Taxonomy {
            pairs,
            variances,
            places,
            below,
        })
    }

    /// An order equal to this one. The only error is out of memory.
    pub fn copy(&self, alloc: Global) -> Result<Taxonomy, OutOfMemory>
        ensures { IfOk result (λ copy. copy ≡ self.now) }
    {
        let pairs = copy_of(alloc, &self.pairs)?;
        let variances = self.variances.copy()?;
        let places = self.places.copy(alloc)?;
        let below = copy_sets(alloc, &self.below)?;
        Ok(Taxonomy {
            pairs,
            variances,
            places,
            below,
        })
    }

    /// Whether a chain of declared pairs leads from the one name to the other.
    pub fn below(&self, lower: Name, upper: Name) -> bool
        ensures chain { IsTrue result ↔ Chain self.now.pairs lower.0 upper.0 }
        ensures order { IsOrder self.now }
    {
        lower.0 == upper.0 || is_under(&self.below, &self.places, lower.0, upper.0)
    }
}

impl Taxa for Taxonomy {
    ghost use Rattle.cls_taxon.specs.Decisions.{is_below};
    ghost use Rattle.cls_taxon.specs.DecisionLaws.{is_below-reflexive, is_below-transitive, is_below-antisymmetric, is_below-one_variance, is_below-one_class};
    ghost use Rattle.cls_taxon.specs.Orders.{variance_in, class_by};

    ghost is_below = { λ t a b. is_below t a b };

    ghost variance_of_name = { λ t a. variance_in t.variances a };

    fn below(&self, lower: Name, upper: Name) -> bool {
        Taxonomy::below(self, lower, upper)
    }

    ghost class = { λ t a. class_by t.pairs a };

    fn variance(&self, name: Name) -> Variance {
        self.variances.of(name)
    }

    fn class(&self, name: Name) -> u64 {
        if self.places.place(name.0) < self.places.len() {
            0
        } else {
            u64::from(name.0) + 1
        }
    }

    fn stands_alone(&self, name: Name) -> bool {
        is_least(&self.below, &self.places, name.0)
    }

    ghost reflexive = { is_below-reflexive };

    ghost transitive = { is_below-transitive };

    ghost antisymmetric = { is_below-antisymmetric };

    ghost one_variance = { is_below-one_variance };

    ghost one_class = { is_below-one_class };
}

/// Whether the spans at the place of the second name have that of the first, which is looked up only if there are spans.
fn is_under(below: &[Spans], places: &Places, lower: u32, upper: u32) -> bool
    ensures { IsTrue result ↔ ((place_of places.now upper < length below.now)
        × InSpans (spans_at below.now (place_of places.now upper)) (place_of places.now lower)) }
{
    match below.get(places.place(upper)) {
        Some(spans) => spans.contains(places.place(lower)),
        None => false,
    }
}

/// Whether the name has no place, or the spans there have its own place alone.
fn is_least(below: &[Spans], places: &Places, name: u32) -> bool
    ensures { IsTrue result → (length below.now ≤ place_of places.now name)
        ⊎ HaveOne (spans_at below.now (place_of places.now name)) }
{
    match below.get(places.place(name)) {
        Some(spans) => spans.is_one(),
        None => true,
    }
}

/// The pairs once more.
fn copy_of(alloc: Global, pairs: &[(Name, Name)]) -> Result<Vec<(Name, Name)>, OutOfMemory>
    ensures { IfOk result (λ copy. copy.items ≡ pairs.now) }
{
    let mut copy = Vec::new(alloc);
    copy.extend_from_slice(pairs)?;
    Ok(copy)
}

/// The sets once more.
fn copy_sets(alloc: Global, sets: &[Spans]) -> Result<Vec<Spans>, OutOfMemory>
    ensures { IfOk result (λ copy. copy.items ≡ sets.now) }
{
    let mut copy = Vec::with_capacity(alloc, sets.len())?;
    for set in sets {
        copy.push(set.copy(alloc)?)?;
    }
    Ok(copy)
}

/// The names of the pairs, in the order in which a walk down from the uppermost ones leaves them.
fn places_of(alloc: Global, pairs: &[(Name, Name)]) -> Result<Places, OutOfMemory>
    ensures held { IfOk result (AreHeld (map pair_of pairs.now)) }
    ensures standing { IfOk result (λ places.
        (a : ℕ) → Contains places a → stands_in (map pair_of pairs.now) a ≡ true) }
{
    let mut first = Places::new(alloc);
    hold_names(&mut first, pairs)?;
    let graph = graph_of(alloc, &first, pairs)?;
    let mut places = Places::new(alloc);
    for number in order_left(alloc, &graph)?.as_slice() {
        if let Some(name) = first.as_slice().get(*number) {
            places.insert(*name)?;
        }
    }
    hold_names(&mut places, pairs)?;
    Ok(places)
}
