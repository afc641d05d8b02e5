use cls_check::Reason;

/// What is found of a certificate.
#[derive(Clone, Copy, Debug, PartialEq, Eq)]
pub enum Verdict {
    /// It is accepted.
    Accepted,
    /// This row or member, counted from 1, is the first that fails a test, and this is its first such test. The test of
    /// the asked type comes last, at the number of rows, or at 0 if there are members.
    Refused { row: u32, reason: Reason },
}
