use cls_base::Goals;

/// What became of a filing.
#[derive(Drop)]
pub enum Filing<G> {
    /// The row is filed. The arguments of the answer are handed back.
    Kept(Goals<G>),
    /// There would have been more rows than there may be, and nothing changed.
    OverLimits,
}
