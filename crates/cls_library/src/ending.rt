//! What paths are at their ends, behind their leading arrows.
ghost use Rattle.std.specs.Prelude.{◌≡◌, ◌<◌};
ghost use Rattle.cls_taxon.specs.Decisions.{is_below};
ghost use Rattle.cls_taxon.specs.Orders.{class_by};
ghost use Rattle.cls_library.specs.Endings.{ending_of, ending_behind, head_of, is_alone, is_bare, mark_of, may_be_below, may_end_below};

use crate::measure::{TOO_MANY, leading_arrows};
use crate::sought::Sought;
use cls_base::{Name, Taxa};
use cls_path::{Form, Path};
use cls_taxon::Taxonomy;

/// What a path is behind its leading arrows, before anything inside it.
#[derive(Clone, Copy, Debug, PartialEq, Eq, Hash)]
pub(crate) enum Head {
    /// A covariant name.
    Covariant(Name),
    /// A product.
    Product,
    /// A contravariant or invariant name.
    Sealed(Name),
}

/// The number of leading arrows of a path, or 33 if there are more, and its head.
#[derive(Clone, Copy, Debug, PartialEq, Eq, Hash)]
pub(crate) struct Ending {
    pub arrows: usize,
    pub head: Head,
}

impl Head {
    /// The head of the path.
    pub fn of(path: &Path) -> Head
        ensures { result ≡ head_of path.now }
    {
        match path.form() {
            Form::Atom(name) | Form::Over(name, _) | Form::Con(name, _) => Head::Covariant(*name),
            Form::Unit | Form::Left(_) | Form::Right(_) => Head::Product,
            Form::From(_, target) => Head::of(target),
            Form::Arrow(arrow) => Head::of(&arrow.target),
            Form::Sealed(name, _) => Head::Sealed(*name),
        }
    }

    /// Whether no other head may be below this one.
    pub fn is_alone(self, taxonomy: &Taxonomy) -> bool
        ensures { result ≡ is_alone (class_by taxonomy.now.pairs) self }
    {
        match self {
            Head::Covariant(name) | Head::Sealed(name) => taxonomy.class(name) != 0,
            Head::Product => true,
        }
    }

    /// The flag of the head, one of 1,024.
    pub fn mark(self) -> u32
        ensures mark { result ≡ mark_of self }
        ensures within { result < 1024 }
    {
        match self {
            Head::Covariant(name) | Head::Sealed(name) => name.0 % 1024,
            Head::Product => 0,
        }
    }

    /// Whether a path of this head may be below one of the other.
    pub fn may_be_below(self, taxonomy: &Taxonomy, upper: Head) -> bool
        ensures { result ≡ may_be_below (is_below taxonomy.now) self upper }
    {
        match (self, upper) {
            (Head::Covariant(c), Head::Covariant(d)) | (Head::Sealed(c), Head::Sealed(d)) => {
                Taxa::below(taxonomy, c, d)
            }
            (Head::Product, Head::Product) => true,
            _ => false,
        }
    }
}

impl Ending {
    /// The ending of the path.
    pub fn of(path: &Path) -> Ending
        ensures { result ≡ ending_of path.now }
    {
        Ending {
            arrows: leading_arrows(path),
            head: Head::of(path),
        }
    }

    /// The ending of a path that has `count` arrows before a path of this one.
    pub fn behind(self, count: usize) -> Ending
        ensures { result ≡ ending_behind count self }
    {
        Ending {
            arrows: TOO_MANY.min(count.saturating_add(self.arrows)),
            head: self.head,
        }
    }

    /// Whether a path of this ending, behind its first `count` arrows, may be below one of the other.
    pub fn may_end_below(self, taxonomy: &Taxonomy, count: usize, upper: Ending) -> bool
        ensures { result ≡ may_end_below (is_below taxonomy.now) count self upper }
    {
        let wanted = TOO_MANY.min(count.saturating_add(upper.arrows));
        self.arrows == wanted && self.head.may_be_below(taxonomy, upper.head)
    }

    /// The same for the ending that is sought.
    pub fn may_lead(self, taxonomy: &Taxonomy, count: usize, sought: Sought) -> bool
        requires { sought.alone ≡ is_alone (class_by taxonomy.now.pairs) sought.ending.head }
        ensures { result ≡ may_end_below (is_below taxonomy.now) count self sought.ending }
    {
        if sought.alone {
            sought.ending.behind(count) == self
        } else {
            self.may_end_below(taxonomy, count, sought.ending)
        }
    }
}

/// Whether the path says no more than its ending: it is a name over omega, or the product of omega and omega. Each path of the same
/// ending is below it then.
pub(crate) fn is_bare(path: &Path) -> bool
    ensures { result ≡ is_bare path.now }
{
    matches!(path.form(), Form::Atom(_) | Form::Unit)
}
