//! What holds of all libraries, as calls that do nothing and promise the law.
ghost use Rattle.cls_library.specs.Laws.{AddingMakesLibraries, RemovingMakesLibraries, LibrariesAreUnique, RefusalsAreExact, ReadingsAgree, SubtypingIsByChains, TypingIsByChains, ApplicationsAreGenerated, IntersectionsAreBoth, PathsAreReached, RulesAreTheTyping};

/// The library of a list of schemas, with a schema added, is that of the longer list.
pub fn adding_makes_libraries()
    ensures { AddingMakesLibraries }
{}

/// The library of a list of schemas, without one component, is that of the list without its schema.
pub fn removing_makes_libraries()
    ensures { RemovingMakesLibraries }
{}

/// A list of schemas has one library.
pub fn libraries_are_unique()
    ensures { LibrariesAreUnique }
{}

/// A list of schemas isn't both accepted and refused, but for out of memory.
pub fn refusals_are_exact()
    ensures { RefusalsAreExact }
{}

/// Typing by the instances of the schemas is typing by the one type of each component.
pub fn readings_agree()
    ensures { ReadingsAgree }
{}

/// Subtyping by the chains of declared pairs of names is subtyping by what a lookup of two names answers, if the pairs are an
/// order.
pub fn subtyping_is_by_chains()
    ensures { SubtypingIsByChains }
{}

/// A term has a type by the chains of declared pairs and the instances of the schemas if and only if it has it by the library.
pub fn typing_is_by_chains()
    ensures { TypingIsByChains }
{}

/// An application has a type if and only if the function takes some type of the argument to it.
pub fn applications_are_generated()
    ensures { ApplicationsAreGenerated }
{}

/// A term has an intersection if and only if it has both parts.
pub fn intersections_are_both()
    ensures { IntersectionsAreBoth }
{}

/// The path lemma: a component, applied to terms, has a path if and only if one of its arrows leads to the path and each term
/// has its source.
pub fn paths_are_reached()
    ensures { PathsAreReached }
{}

/// A component, applied to terms, has a goal with a path if and only if some rule of the goal has that component and as
/// many arguments, and each term has the type of its argument.
pub fn rules_are_the_typing()
    ensures { RulesAreTheTyping }
{}
