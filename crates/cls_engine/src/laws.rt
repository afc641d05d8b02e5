//! What holds of what an engine answers, as calls that do nothing and promise the law.
ghost use Rattle.cls_engine.specs.Laws.{CertificatesDecide};

use cls_cert::laws::made_are_accepted;

/// Law: the certificate of a type that the engine can work on is accepted for this type, and has members if and only if
/// no term has the type.
pub fn certificates_decide()
    ensures { CertificatesDecide }
{
    made_are_accepted();
}
