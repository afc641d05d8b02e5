/// A value of which something is known.
///
/// What is known is plain data of the type `G`. It exists in contracts alone: no code makes a `G`.
pub trait Known<G> {
    // What is known of the value by the one who has it.
    ghost known: { Self → G };

    // What is known may become the second from the first: what the first says stays true.
    ghost goes_on: { G → G → Type 0 };

    ghost goes_on_reflexive: { (g : G) → goes_on g g };

    ghost goes_on_transitive: { (f g h : G) → goes_on f g → goes_on g h → goes_on f h };
}
