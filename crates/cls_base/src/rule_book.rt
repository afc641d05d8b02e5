ghost use Rattle.std.specs.Prelude.{◌≡◌, ℕ, ◌<◌, ◌≤◌, List, length, map};
ghost use Rattle.cls_base.specs.declared.rule.Rule.{Rule};
ghost use Rattle.cls_base.specs.Languages.{rules_at};
ghost use Rattle.cls_base.specs.Books.{HaveNodesBelow};

use crate::NodeRules;

/// The rules of the nodes 0, 1 and so on, of which node 0 is the start. The arguments of a rule are nodes.
pub trait RuleBook {
    /// The rules of each node.
    ghost book: { Self → List (List (Rule ℕ)) };

    /// The number of nodes, at least 1.
    fn count(&self) -> u32
        ensures count { result ≡ length (book self.now) }
        ensures some { 1 ≤ result };

    /// The rules of a node. Each argument of a rule is a node of the book.
    fn rules(&self, i: u32) -> &NodeRules
        requires { i < length (book self.now) }
        ensures rules { result.now ≡ rules_at (book self.now) i }
        ensures within { HaveNodesBelow (length (book self.now)) (rules_at (book self.now) i) };
}
