use crate::member::Members;
use crate::row::ProofRows;

/// What is said for a type. It is seen as the certificate that `certificate_of` gives.
#[derive(Drop)]
pub enum Certificate {
    /// Some term has the type: each row has its goal by earlier rows, and the goal of the last one is below the type.
    Inhabited(ProofRows),
    /// No term has the type: none has the goal of a member, and the type is below one of these goals.
    Empty(Members),
}
