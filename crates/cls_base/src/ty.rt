ghost use Rattle.std.specs.Prelude.{◌≡◌, ◌↔◌, IfOk};
ghost use Rattle.cls_base.specs.Types.{constructor};
ghost use Rattle.cls_base.specs.Ty.{type_of};
ghost use Rattle.cls_base.specs.TypeOrder.{form_of, order_of};

use crate::out_of_memory::OutOfMemory;
use std::alloc::Global;
use std::cmp::Ordering;

/// The number of a name in its table. Constructors, components and variables have separate tables.
#[derive(Clone, Copy, Debug, PartialEq, Eq, PartialOrd, Ord, Hash)]
pub struct Name(pub u32);

/// A closed type. It is seen as the tree that `type_of` gives.
///
/// Arrows, intersections and omega are those of intersection types (Barendregt, Coppo and Dezani 1983).
/// Constructors and products are this project's own.
///
/// Dropping a type, as each call that goes down it, takes stack by its depth as a tree.
#[derive(Drop)]
pub enum Ty {
    /// The type of every term.
    Omega,
    /// A bare name, which is the constructor over omega.
    Bare(Name),
    /// A constructor over a type. Over omega it stands for the same tree as the bare name.
    Con(Name, Box<Ty>),
    /// A product of two types.
    Prod(Box<(Ty, Ty)>),
    /// The functions from the first type to the second.
    Arrow(Box<(Ty, Ty)>),
    /// The intersection of two types.
    Meet(Box<(Ty, Ty)>),
}

impl Ty {
    /// The constructor over the type: a bare name over omega. The only error is out of memory.
    pub fn over(alloc: Global, name: Name, argument: Ty) -> Result<Ty, OutOfMemory>
        ensures { IfOk result (λ whole. type_of whole ≡ constructor name.0 (type_of argument)) }
    {
        match argument {
            Ty::Omega => Ok(Ty::Bare(name)),
            argument => Ok(Ty::Con(name, Box::new(alloc, argument)?)),
        }
    }

    /// Compares by form, in the order in which the forms are listed, and types of one form by their parts from left to
    /// right. This order is the project's own choice.
    pub fn order(&self, other: &Ty) -> Ordering
        ensures value { result ≡ order_of (type_of self.now) (type_of other.now) }
        ensures equal { (result ≡ Ordering.Equal) ↔ (type_of self.now ≡ type_of other.now) }
    {
        self.order_by_parts(other)
    }

    fn order_by_parts(&self, other: &Ty) -> Ordering
        ensures { result ≡ order_of (type_of self.now) (type_of other.now) }
    {
        match (self, other) {
            (Ty::Bare(c), Ty::Bare(d)) => c.0.cmp(&d.0),
            (Ty::Bare(c), Ty::Con(d, t)) => c.0.cmp(&d.0).then(Ty::Omega.form().cmp(&t.form())),
            (Ty::Con(c, s), Ty::Bare(d)) => c.0.cmp(&d.0).then(s.form().cmp(&Ty::Omega.form())),
            (Ty::Con(c, s), Ty::Con(d, t)) => c.0.cmp(&d.0).then(s.order_by_parts(t)),
            (Ty::Prod(s), Ty::Prod(u)) => s.0.order_by_parts(&u.0).then(s.1.order_by_parts(&u.1)),
            (Ty::Arrow(s), Ty::Arrow(u)) => s.0.order_by_parts(&u.0).then(s.1.order_by_parts(&u.1)),
            (Ty::Meet(s), Ty::Meet(u)) => s.0.order_by_parts(&u.0).then(s.1.order_by_parts(&u.1)),
            (one, another) => one.form().cmp(&another.form()),
        }
    }

    /// The place of the form among the five.
    fn form(&self) -> u8
        ensures { result ≡ form_of (type_of self.now) }
    {
        match self {
            Ty::Omega => 0,
            Ty::Bare(_) | Ty::Con(..) => 1,
            Ty::Prod(..) => 2,
            Ty::Arrow(..) => 3,
            Ty::Meet(..) => 4,
        }
    }

    /// A type equal to this one. The only error is out of memory.
    pub fn copy(&self, alloc: Global) -> Result<Ty, OutOfMemory>
        ensures { IfOk result (λ ty. type_of ty ≡ type_of self.now) }
    {
        match self {
            Ty::Omega => Ok(Ty::Omega),
            Ty::Bare(name) => Ok(Ty::Bare(*name)),
            Ty::Con(name, argument) => {
                let argument = Box::new(alloc, argument.copy(alloc)?)?;
                Ok(Ty::Con(*name, argument))
            }
            Ty::Prod(sides) => {
                let left = sides.0.copy(alloc)?;
                let right = sides.1.copy(alloc)?;
                Ok(Ty::Prod(Box::new(alloc, (left, right))?))
            }
            Ty::Arrow(sides) => {
                let left = sides.0.copy(alloc)?;
                let right = sides.1.copy(alloc)?;
                Ok(Ty::Arrow(Box::new(alloc, (left, right))?))
            }
            Ty::Meet(sides) => {
                let left = sides.0.copy(alloc)?;
                let right = sides.1.copy(alloc)?;
                Ok(Ty::Meet(Box::new(alloc, (left, right))?))
            }
        }
    }
}
