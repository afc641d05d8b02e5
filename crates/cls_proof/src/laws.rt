//! What is true of all lines.
ghost use Rattle.cls_proof.specs.ReadOnce.{SayOneCertificate, HaveOneFirstBad, AreExclusive};
ghost use Rattle.cls_proof.specs.RoundTrips.{PrintedCertificatesAreRead, ReadCertificatesAreReadAgain};

/// Law: lines say at most one certificate, by one table of constructors, if the names of components differ.
pub fn lines_say_one_certificate()
    ensures { SayOneCertificate }
{}

/// Law: at most one line is the first bad one.
pub fn one_line_is_the_first_bad()
    ensures { HaveOneFirstBad }
{}

/// Law: lines that say a certificate have no bad one and don't lack `qed`, and lines with a bad one don't lack it.
pub fn readings_are_exclusive()
    ensures { AreExclusive }
{}

/// Law: the text of a certificate is read as that certificate, and no name is new, if what it says is within the limits of
/// lines and names differ.
pub fn printed_certificates_are_read()
    ensures { PrintedCertificatesAreRead }
{}

/// Law: the text of a certificate that was read is read again as that certificate, and no name is new, if names differed
/// before and no line of the text is too long.
pub fn read_certificates_are_read_again()
    ensures { ReadCertificatesAreReadAgain }
{}
