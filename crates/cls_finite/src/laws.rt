//! What holds of every rule book, as calls that do nothing and promise the law.
ghost use Rattle.std.specs.Prelude.{ℕ, List, [], Contains};
ghost use Rattle.cls_base.specs.declared.rule.Rule.{Rule};
ghost use Rattle.cls_finite.specs.declared.walk.Step.{Step};
ghost use Rattle.cls_finite.specs.Finiteness.{HasPositiveCosts, IsUnbounded, IsDetermined};
ghost use Rattle.cls_finite.specs.Walks.{IsRightWalk, HasLongTerms, GoOn};

/// If a walk comes round, node 0 generates terms of unbounded length.
pub fn right_walks_show_long_terms()
    ensures { (book : List (List (Rule ℕ))) (walk : List Step) → IsRightWalk book walk → HasLongTerms book 0 }
{}

/// If each of some nodes has a step to one of them, each of them generates terms of unbounded length.
pub fn endless_steps_show_long_terms()
    ensures { (book : List (List (Rule ℕ))) (nodes : List ℕ) → GoOn book nodes
        → (i : ℕ) → Contains nodes i → HasLongTerms book i }
{}

/// Terms of unbounded length have unbounded size, if each component costs at least 1.
pub fn long_terms_are_large()
    ensures { (book : List (List (Rule ℕ))) (cost : ℕ → ℕ) (i : ℕ) → HasPositiveCosts book cost → HasLongTerms book i
        → IsUnbounded book cost i }
{}

/// The determined walk comes round, whatever the components cost.
pub fn determined_walks_are_right()
    ensures { (book : List (List (Rule ℕ))) (cost : ℕ → ℕ) (walk : List Step) → IsDetermined book cost [] 0 walk
        → IsRightWalk book walk }
{}
