//! What holds of all paths and normal forms, as calls that do nothing and promise the law.
ghost use Rattle.cls_path.specs.Laws.{PathsAreOrdered, ListsAreOrdered, TypesArePaths, BelowIsTransitive, DerivationsAreDecided, PathsArePrime, FormsAreEquivalent, FormsExist, FormsAreExact};

/// The orders of paths and of lists of paths are strict and total.
pub fn orders_are_total()
    ensures paths { PathsAreOrdered }
    ensures lists { ListsAreOrdered }
{}

/// Each type is equivalent to the intersection of its paths.
pub fn types_are_paths()
    ensures { TypesArePaths }
{}

/// What is below a path that is below another is below that one, though no case of the definition says so.
pub fn below_is_transitive()
    ensures { BelowIsTransitive }
{}

/// A derivation that one type is below another exists if and only if each path of the other is above some path of the
/// one.
pub fn derivations_are_decided()
    ensures { DerivationsAreDecided }
{}

/// An intersection of paths is below a path if and only if one of the paths is.
pub fn paths_are_prime()
    ensures { PathsArePrime }
{}

/// Each type is equivalent to its normal form.
pub fn forms_are_equivalent()
    ensures { FormsAreEquivalent }
{}

/// Each type has a normal form, if a name has the variance of those above it.
pub fn forms_exist()
    ensures { FormsExist }
{}

/// Two types are equivalent if and only if their normal forms are equal.
pub fn forms_are_exact()
    ensures { FormsAreExact }
{}
