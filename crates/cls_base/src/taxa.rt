//! What the layers above ask of a taxonomy of constructor names.
ghost use Rattle.std.specs.Prelude.{◌≡◌, ◌==◌, ℕ, Bool, IsTrue};
ghost use Rattle.cls_base.specs.Taxonomies as taxonomies;
ghost use Rattle.cls_base.specs.Taxa.{variance_of};

use crate::ty::Name;

/// How a constructor carries subtyping from its argument to itself.
#[derive(Clone, Copy, Debug, PartialEq, Eq)]
pub enum Variance {
    /// In the same direction.
    Co,
    /// In the opposite direction.
    Contra,
    /// Only where the arguments are below each other.
    Inv,
}

/// A partial order of names that keeps their variance.
pub trait Taxa {
    // whether the first name is below the second
    ghost is_below: { Self → ℕ → ℕ → Bool };

    // the variance of a name
    ghost variance_of_name: { Self → ℕ → taxonomies.Variance };

    // a number that a name shares with those below it
    ghost class: { Self → ℕ → ℕ };

    /// Whether the first name is below the second.
    fn below(&self, lower: Name, upper: Name) -> bool
        ensures is { result ≡ is_below self.now lower.0 upper.0 };

    /// The variance of a name.
    fn variance(&self, name: Name) -> Variance
        ensures is { variance_of result ≡ variance_of_name self.now name.0 };

    /// A number that a name shares with those below it. Two names with different numbers are not below each other.
    fn class(&self, name: Name) -> u64
        ensures is { result ≡ class self.now name.0 };

    /// Whether no other name is below the name. It may be no where that is not known.
    fn stands_alone(&self, name: Name) -> bool
        ensures alone { IsTrue result → (a : ℕ) → IsTrue (is_below self.now a name.0) → a ≡ name.0 };

    ghost reflexive: { (t : Self) (a : ℕ) → IsTrue (is_below t a a) };

    ghost transitive: { (t : Self) (a b c : ℕ)
        → IsTrue (is_below t a b) → IsTrue (is_below t b c) → IsTrue (is_below t a c) };

    ghost antisymmetric: { (t : Self) (a b : ℕ) → IsTrue (is_below t a b) → IsTrue (is_below t b a) → a ≡ b };

    ghost one_variance: { (t : Self) (a b : ℕ)
        → IsTrue (is_below t a b) → variance_of_name t a ≡ variance_of_name t b };

    ghost one_class: { (t : Self) (a b : ℕ) → IsTrue (is_below t a b) → class t a ≡ class t b };
}

/// The names without any declared pair, all covariant.
#[derive(Clone, Copy, Debug, PartialEq, Eq)]
pub struct Flat;

impl Taxa for Flat {
    ghost use Rattle.cls_base.specs.Taxa.{flat_reflexive, flat_transitive, flat_antisymmetric, flat_one_variance, flat_one_class};

    ghost is_below = { λ t a b. a == b };

    ghost variance_of_name = { λ t a. taxonomies.covariant };

    ghost class = { λ t a. a };

    fn below(&self, lower: Name, upper: Name) -> bool {
        lower.0 == upper.0
    }

    fn class(&self, name: Name) -> u64 {
        u64::from(name.0)
    }

    fn variance(&self, _name: Name) -> Variance {
        Variance::Co
    }

    fn stands_alone(&self, _name: Name) -> bool {
        true
    }

    ghost reflexive = { λ t a. flat_reflexive a };

    ghost transitive = { λ t a b c. flat_transitive a b c };

    ghost antisymmetric = { λ t a b. flat_antisymmetric a b };

    ghost one_variance = { λ t a b l. flat_one_variance };

    ghost one_class = { λ t a b l. flat_one_class a b l };
}
