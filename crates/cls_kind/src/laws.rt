//! What holds of all schemas and kinds, as calls that do nothing.
ghost use Rattle.cls_kind.specs.Laws.{InstancesAreExact, ChoicesAreCounted};

/// A type is in the list of all instances if and only if one choice for each variable makes it.
pub fn instances_are_exact()
    ensures { InstancesAreExact }
{}

/// The choices are as many as the product of the numbers of types.
pub fn choices_are_counted()
    ensures { ChoicesAreCounted }
{}
