//! What holds of all certificates, as calls that do nothing.
ghost use Rattle.cls_check.specs.Laws.{AcceptedAreTrue, VerdictsAreExact};

/// An accepted certificate is true by the typing rules, whoever made it.
pub fn accepted_are_true()
    ensures { AcceptedAreTrue }
{}

/// No certificate is both accepted and refused, and none is refused at two rows or for two reasons.
pub fn verdicts_are_exact()
    ensures { VerdictsAreExact }
{}
