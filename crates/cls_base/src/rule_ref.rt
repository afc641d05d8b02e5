/// One rule of a node, whose arguments are nodes that stand elsewhere.
#[derive(Drop, Clone, Copy)]
pub enum RuleRef<'a> {
    /// The component, applied to as many terms as there are arguments, each of which meets its argument.
    Head { component: u32, args: &'a [u32] },
    /// Any term of the left node, applied to any of the right one.
    Any { left: u32, right: u32 },
}
