//! When a path is below another.
ghost use Rattle.std.specs.Prelude.{◌≡◌, ◌↔◌, IsTrue};
ghost use Rattle.cls_base.specs.Taxa.{Below, variance_of};
ghost use Rattle.cls_base.specs.Subtyping.{Subtype};
ghost use Rattle.cls_path.specs.Paths.{PathLe, PathsLe, Suits, SuitsAll, type_of_path, type_of_paths, listed};
ghost use Rattle.cls_path.specs.Tests.{path_below, list_below, some_below, same_paths, sealed_below};

use crate::path::{Form, Nf, Path};
use cls_base::{Taxa, Variance};

impl Path {
    /// Whether the type of this path is a subtype of the type of the other. Each name has to stand in a kind of path
    /// that fits its variance. Takes no memory.
    pub fn le<T: Taxa>(&self, taxa: &T, other: &Path) -> bool
        requires suits { Suits (T.variance_of_name taxa.now) self.now }
        requires other_suits { Suits (T.variance_of_name taxa.now) other.now }
        ensures exact { IsTrue result
            ↔ Subtype (Below (T.is_below taxa.now)) (T.variance_of_name taxa.now)
            (type_of_path self.now) (type_of_path other.now) }
        ensures cases { IsTrue result
            ↔ PathLe (Below (T.is_below taxa.now)) (T.variance_of_name taxa.now) self.now other.now }
    {
        self.is_below(taxa, other)
    }

    /// Kind and name are compared before anything inside.
    #[cycle(below)]
    pub(crate) fn is_below<T: Taxa>(&self, taxa: &T, other: &Path) -> bool
        ensures { result ≡ path_below (T.is_below taxa.now) (T.variance_of_name taxa.now) self.now other.now }
    {
        match (&self.form, &other.form) {
            (Form::Atom(c), Form::Atom(d)) => taxa.below(*c, *d),
            (Form::Over(c, _) | Form::Con(c, _), Form::Atom(d)) => taxa.below(*c, *d),
            (Form::Over(c, e), Form::Over(d, f)) => taxa.below(*c, *d) && taxa.below(*e, *f),
            (Form::Over(c, e), Form::Con(d, q)) => taxa.below(*c, *d) && q.is_above_name(taxa, *e),
            (Form::Con(c, p), Form::Over(d, f)) => taxa.below(*c, *d) && p.is_below_name(taxa, *f),
            (Form::Con(c, p), Form::Con(d, q)) => taxa.below(*c, *d) && p.is_below(taxa, q),
            (Form::Unit | Form::Left(_) | Form::Right(_), Form::Unit) => true,
            (Form::Left(p), Form::Left(q)) => p.is_below(taxa, q),
            (Form::Right(p), Form::Right(q)) => p.is_below(taxa, q),
            (Form::From(c, p), Form::From(d, q)) => taxa.below(*d, *c) && p.is_below(taxa, q),
            (Form::From(c, p), Form::Arrow(b)) => {
                b.source.is_some_below_name(taxa, *c) && p.is_below(taxa, &b.target)
            }
            (Form::Arrow(a), Form::From(d, q)) => {
                a.source.are_above_name(taxa, *d) && a.target.is_below(taxa, q)
            }
            (Form::Arrow(a), Form::Arrow(b)) => {
                b.source.may_be_below(taxa, &a.source)
                    && a.target.is_below(taxa, &b.target)
                    && b.source.is_below(taxa, &a.source)
            }
            (Form::Sealed(c, n), Form::Sealed(d, m)) => taxa.below(*c, *d)
                && n.is_sealed_below(taxa, taxa.variance(*c), m),
            _ => false,
        }
    }
}

impl Nf {
    /// Whether the type of this intersection is a subtype of the type of the other. Each name has to stand in a kind of
    /// path that fits its variance. Takes no memory.
    pub fn le<T: Taxa>(&self, taxa: &T, other: &Nf) -> bool
        requires suits { SuitsAll (T.variance_of_name taxa.now) (listed self.now) }
        requires other_suits { SuitsAll (T.variance_of_name taxa.now) (listed other.now) }
        ensures exact { IsTrue result
            ↔ Subtype (Below (T.is_below taxa.now)) (T.variance_of_name taxa.now)
            (type_of_paths (listed self.now)) (type_of_paths (listed other.now)) }
        ensures cases { IsTrue result
            ↔ PathsLe (Below (T.is_below taxa.now)) (T.variance_of_name taxa.now)
            (listed self.now) (listed other.now) }
    {
        self.is_below(taxa, other)
    }

    /// Whether each path of the other is above some path of this one.
    #[cycle(below)]
    fn is_below<T: Taxa>(&self, taxa: &T, other: &Nf) -> bool
        ensures { result
            ≡ list_below (T.is_below taxa.now) (T.variance_of_name taxa.now) (listed self.now) (listed other.now) }
    {
        for path in other.paths.as_slice() {
            if !self.some_below(taxa, path) {
                return false;
            }
        }
        true
    }

    /// False only if this list is not below the other: for two lists of one name each it compares the names. It tells
    /// most arrows with different sources apart before the way to their ends is walked.
    fn may_be_below<T: Taxa>(&self, taxa: &T, other: &Nf) -> bool
        ensures { IsTrue (list_below (T.is_below taxa.now) (T.variance_of_name taxa.now)
            (listed self.now) (listed other.now)) → IsTrue result }
    {
        match (self.bare_name(), other.bare_name()) {
            (Some(c), Some(d)) => taxa.below(c, d),
            _ => true,
        }
    }

    /// Whether a name of this variance over this list is below one over the other, if the name itself is.
    #[cycle(below)]
    fn is_sealed_below<T: Taxa>(&self, taxa: &T, variance: Variance, other: &Nf) -> bool
        ensures { result ≡ sealed_below (variance_of variance) (same_paths (listed self.now) (listed other.now))
            (list_below (T.is_below taxa.now) (T.variance_of_name taxa.now) (listed other.now) (listed self.now))
            (list_below (T.is_below taxa.now) (T.variance_of_name taxa.now) (listed self.now) (listed other.now)) }
    {
        match variance {
            Variance::Co => false,
            Variance::Contra => other.is_below(taxa, self),
            // Equal lists pass at once. Otherwise each depth of invariant names would double the work.
            Variance::Inv => {
                self.order_by_path(other).is_eq()
                    || (other.is_below(taxa, self) && self.is_below(taxa, other))
            }
        }
    }

    /// Whether some path of the list is below the path.
    #[cycle(below)]
    pub(crate) fn some_below<T: Taxa>(&self, taxa: &T, path: &Path) -> bool
        ensures { result ≡ some_below (T.is_below taxa.now) (T.variance_of_name taxa.now) (listed self.now) path.now }
    {
        for one in self.paths.as_slice() {
            if one.is_below(taxa, path) {
                return true;
            }
        }
        false
    }
}
