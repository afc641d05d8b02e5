//! What holds of every text and of every template, as calls that do nothing and promise the law.
ghost use Rattle.cls_assemble.specs.Laws.{TemplatesAreUnique, TemplatesHaveNoFault, FaultsAreUnique};
ghost use Rattle.cls_assemble.specs.Lengths.{FilledLengths};

/// A text is at most one template or has at most one fault, and not both. So the clauses of
/// [`Template::read`](crate::Template::read) allow one answer besides out of memory.
pub fn a_text_is_read_in_one_way()
    ensures templates { TemplatesAreUnique }
    ensures no_fault { TemplatesHaveNoFault }
    ensures faults { FaultsAreUnique }
{}

/// The length of a filled template hangs on the lengths of the texts that fill it, and on nothing else of them.
pub fn lengths_are_counted()
    ensures { FilledLengths }
{}
