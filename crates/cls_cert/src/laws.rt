//! What holds of all certificates that are made, as calls that do nothing and promise the law.
ghost use Rattle.cls_cert.specs.Laws.{MadeAreAccepted, MadeAreOne};

/// The certificate that is made for goal 0 of a grammar is accepted for it, and has members if and only if goal 0 is
/// unproductive.
pub fn made_are_accepted()
    ensures { MadeAreAccepted }
{}

/// For one grammar one certificate is made.
pub fn made_are_one()
    ensures { MadeAreOne }
{}
