/// What a seat knows of the lock and its value.
pub enum View<G> {
    /// Nothing: the seat has ended.
    Ended,
    /// The seat is in no holding, and this was known of the value when it last held it, or when it began.
    Idle(G),
    /// The seat has taken the value out, of which this was known then.
    Holding(G),
}
