//! The order of paths and of lists of paths.
ghost use Rattle.std.specs.Prelude.{◌≡◌, ◌↔◌};
ghost use Rattle.std.specs.Ordering.{is_eq, ordering_then};
ghost use Rattle.cls_path.specs.Paths.{listed};
ghost use Rattle.cls_path.specs.NormalForms.{kind_of, PathBefore, PathsBefore};
ghost use Rattle.cls_path.specs.PathOrder.{path_order, list_order};
ghost use Rattle.cls_path.specs.Seen.{path_of};

use crate::path::{Form, Nf, Path, PathList};
use std::cmp::Ordering;

impl Form {
    /// The place of the kind among the seven.
    fn kind(&self) -> u8
        ensures { result ≡ kind_of (path_of self.now) }
    {
        match self {
            Form::Atom(_) => 0,
            Form::Over(..) | Form::Con(..) => 1,
            Form::Unit => 2,
            Form::Left(_) => 3,
            Form::Right(_) => 4,
            Form::From(..) | Form::Arrow(..) => 5,
            Form::Sealed(..) => 6,
        }
    }
}

impl Path {
    /// Compares by kind, then by the number of the name, then by the list inside, then by the rest of the path: `Less`
    /// if this path comes before the other. This order is the project's own choice.
    pub fn order(&self, other: &Path) -> Ordering
        ensures less { (result ≡ Ordering.Less) ↔ PathBefore self.now other.now }
        ensures equal { (result ≡ Ordering.Equal) ↔ (self.now ≡ other.now) }
        ensures greater { (result ≡ Ordering.Greater) ↔ PathBefore other.now self.now }
    {
        self.order_by_kind(other)
    }

    #[inline]
    #[cycle(order)]
    pub(crate) fn order_by_kind(&self, other: &Path) -> Ordering
        ensures { result ≡ path_order self.now other.now }
    {
        // Most paths that are compared are names over omega, and need no call.
        match (&self.form, &other.form) {
            (Form::Atom(c), Form::Atom(d)) => c.0.cmp(&d.0),
            _ => self.order_deep(other),
        }
    }

    /// The same, part by part.
    // Not inlined: a frame is cleared whenever its function is called, and this one's is large.
    #[inline(never)]
    #[cycle(order)]
    fn order_deep(&self, other: &Path) -> Ordering
        ensures { result ≡ path_order self.now other.now }
    {
        match (&self.form, &other.form) {
            (Form::Atom(c), Form::Atom(d)) => c.0.cmp(&d.0),
            (Form::Over(c, e), Form::Over(d, f)) => c.0.cmp(&d.0).then(e.0.cmp(&f.0)),
            (Form::Over(c, e), Form::Con(d, q)) => c
                .0
                .cmp(&d.0)
                .then(q.order_to_name(*e).reverse()),
            (Form::Con(c, p), Form::Over(d, f)) => c.0.cmp(&d.0).then(p.order_to_name(*f)),
            (Form::Con(c, p), Form::Con(d, q)) => p.order_behind(c.0.cmp(&d.0), q),
            (Form::Left(p), Form::Left(q)) => p.order_by_kind(q),
            (Form::Right(p), Form::Right(q)) => p.order_by_kind(q),
            (Form::From(c, p), Form::From(d, q)) => p.order_behind(c.0.cmp(&d.0), q),
            (Form::From(c, p), Form::Arrow(b)) => {
                p.order_behind(b.source.order_to_name(*c).reverse(), &b.target)
            }
            (Form::Arrow(a), Form::From(d, q)) => a
                .target
                .order_behind(a.source.order_to_name(*d), q),
            (Form::Arrow(a), Form::Arrow(b)) => {
                a.target
                    .order_behind(a.source.order_by_path(&b.source), &b.target)
            }
            (Form::Sealed(c, n), Form::Sealed(d, m)) => {
                let names = c.0.cmp(&d.0);
                if names.is_ne() {
                    return names;
                }
                n.order_by_path(m)
            }
            (one, another) => one.kind().cmp(&another.kind()),
        }
    }

    /// The order of what stands before the paths, and theirs if that is equal.
    #[inline]
    #[cycle(order)]
    fn order_behind(&self, before: Ordering, another: &Path) -> Ordering
        ensures { result ≡ ordering_then before (path_order self.now another.now) }
    {
        if before.is_ne() {
            return before;
        }
        self.order_by_kind(another)
    }
}

impl Nf {
    /// Compares path by path, a proper prefix first: `Less` if this list comes before the other.
    pub fn order(&self, other: &Nf) -> Ordering
        ensures less { (result ≡ Ordering.Less) ↔ PathsBefore (listed self.now) (listed other.now) }
        ensures equal { (result ≡ Ordering.Equal) ↔ (self.now ≡ other.now) }
        ensures greater { (result ≡ Ordering.Greater) ↔ PathsBefore (listed other.now) (listed self.now) }
    {
        self.order_by_path(other)
    }

    #[cycle(order)]
    pub(crate) fn order_by_path(&self, other: &Nf) -> Ordering
        ensures { result ≡ list_order self.now other.now }
    {
        if let (PathList::One(one, _), PathList::One(another, _)) = (&self.paths, &other.paths) {
            return one.order_by_kind(another);
        }
        let (ones, others) = (self.paths.as_slice(), other.paths.as_slice());
        let mut i = 0;
        while i < ones.len() && i < others.len() {
            let one = ones[i].order_by_kind(&others[i]);
            if one.is_ne() {
                return one;
            }
            i += 1;
        }
        ones.len().cmp(&others.len())
    }

    /// Whether the lists are equal. Most that are compared are of bare names, and need no call.
    pub(crate) fn is_same(&self, other: &Nf) -> bool
        ensures { result ≡ is_eq (list_order self.now other.now) }
    {
        let (ones, others) = (self.paths.as_slice(), other.paths.as_slice());
        if ones.len() != others.len() {
            return false;
        }
        for (i, one) in ones.iter().enumerate() {
            if one.order_by_kind(&others[i]).is_ne() {
                return false;
            }
        }
        true
    }
}
