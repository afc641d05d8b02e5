//! How bare names compare with paths.
ghost use Rattle.std.specs.Prelude.{◌≡◌, [], ◌∷◌, IfSome};
ghost use Rattle.cls_path.specs.Paths.{atom, none, more, listed};
ghost use Rattle.cls_path.specs.PathOrder.{path_order, list_order};
ghost use Rattle.cls_path.specs.Tests.{path_below, list_below, some_below};

use crate::path::{Form, Nf, Path, PathList};
use cls_base::{Name, Taxa};
use std::cmp::Ordering;

impl Path {
    /// Whether the path is below the bare name.
    #[inline]
    pub(crate) fn is_below_name<T: Taxa>(&self, taxa: &T, name: Name) -> bool
        ensures { result ≡ path_below (T.is_below taxa.now) (T.variance_of_name taxa.now) self.now (atom name.0) }
    {
        match &self.form {
            Form::Atom(c) | Form::Over(c, _) | Form::Con(c, _) => taxa.below(*c, name),
            _ => false,
        }
    }

    /// Whether the path is above the bare name. Only bare names are.
    #[inline]
    pub(crate) fn is_above_name<T: Taxa>(&self, taxa: &T, name: Name) -> bool
        ensures { result ≡ path_below (T.is_below taxa.now) (T.variance_of_name taxa.now) (atom name.0) self.now }
    {
        match &self.form {
            Form::Atom(d) => taxa.below(name, *d),
            _ => false,
        }
    }

    /// Compares the path with a bare name.
    pub(crate) fn order_to_name(&self, name: Name) -> Ordering
        ensures { result ≡ path_order self.now (atom name.0) }
    {
        match &self.form {
            Form::Atom(c) => c.0.cmp(&name.0),
            _ => Ordering::Greater,
        }
    }
}

impl Nf {
    /// The name, if the list is one bare name.
    #[inline]
    pub(crate) fn bare_name(&self) -> Option<Name>
        ensures { IfSome result (λ name. self.now ≡ atom name.0 ∷ []) }
    {
        if let PathList::One(path, _) = &self.paths
            && let Form::Atom(name) = &path.form
        {
            return Some(*name);
        }
        None
    }

    /// Whether some path of the list is below the bare name.
    pub(crate) fn is_some_below_name<T: Taxa>(&self, taxa: &T, name: Name) -> bool
        ensures { result
            ≡ some_below (T.is_below taxa.now) (T.variance_of_name taxa.now) (listed self.now) (atom name.0) }
    {
        for path in self.paths.as_slice() {
            if path.is_below_name(taxa, name) {
                return true;
            }
        }
        false
    }

    /// Whether each path of the list is above the bare name.
    pub(crate) fn are_above_name<T: Taxa>(&self, taxa: &T, name: Name) -> bool
        ensures { result ≡ list_below (T.is_below taxa.now) (T.variance_of_name taxa.now)
            (more (atom name.0) none) (listed self.now) }
    {
        for path in self.paths.as_slice() {
            if !path.is_above_name(taxa, name) {
                return false;
            }
        }
        true
    }

    /// Compares the list with that of one bare name.
    pub(crate) fn order_to_name(&self, name: Name) -> Ordering
        ensures { result ≡ list_order self.now (atom name.0 ∷ []) }
    {
        let paths = self.paths.as_slice();
        if paths.is_empty() {
            return Ordering::Less;
        }
        let first = paths[0].order_to_name(name);
        if first.is_ne() {
            return first;
        }
        paths.len().cmp(&1)
    }
}
