use crate::positions::Positions;
use crate::row::ProofRow;
use cls_base::Ty;

/// What a line of a certificate says.
#[derive(Drop)]
pub(crate) enum Statement {
    /// Rows follow.
    Inhabited,
    /// A row.
    Row(ProofRow),
    /// Members follow.
    Empty,
    /// A member with this goal, whose blocks follow.
    Member(Ty),
    /// A block of a member, whose layers follow.
    Block {
        /// The number of the component.
        component: u32,
        /// How many arguments the arrows take.
        n: u32,
    },
    /// A layer of a block, whose sets follow.
    Layer,
    /// A set of positions of a layer.
    Set(Positions),
    /// The certificate ends.
    Qed,
}
