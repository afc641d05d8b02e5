use cls_term::CodedTerms;

/// A page of terms, and whether more terms follow.
#[derive(Drop)]
pub struct Page {
    /// The terms in their order, kept by their codes.
    pub terms: CodedTerms,
    /// Whether a further term would have stood on a longer page.
    pub more: bool,
}
