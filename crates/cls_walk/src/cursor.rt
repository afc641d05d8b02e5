//! What is left of the code of the term after which a page begins, as a walk writes codes from the left.
ghost use Rattle.std.specs.Prelude.{ℕ, ◌↔◌, ◌∷◌, IfSome, List};
ghost use Rattle.std.specs.Option.{IsNone};
ghost use Rattle.cls_walk.specs.Walks.{IsBehind};

/// The rest of the cursor's code, or that all codes from here on come after the cursor.
#[derive(Clone, Copy)]
pub(crate) struct Cursor<'a> {
    pub(crate) code: &'a [u32],
    pub(crate) passed: bool,
}

/// All codes come after the cursor.
pub(crate) fn passed<'a>() -> Cursor<'a>
    ensures { (w : List ℕ) → IsBehind result w }
{
    Cursor {
        code: &[],
        passed: true,
    }
}

impl<'a> Cursor<'a> {
    /// What is left of the cursor behind a component and a number of arguments, None where no code that begins so
    /// comes after it.
    pub(crate) fn step(self, component: u32, count: u32) -> Option<Cursor<'a>>
        ensures some { IfSome result
            (λ next. (v : List ℕ) → IsBehind self.entry (component ∷ count ∷ v) ↔ IsBehind next v) }
        ensures none { IsNone result → (v : List ℕ) → IsBehind self.entry (component ∷ count ∷ v) → ⊥ }
    {
        if self.passed {
            return Some(passed());
        }
        let Some(first) = self.code.first() else {
            return Some(passed());
        };
        if *first != component {
            return if *first < component {
                Some(passed())
            } else {
                None
            };
        }
        let Some(second) = self.code.get(1) else {
            return Some(passed());
        };
        if *second != count {
            return if *second < count {
                Some(passed())
            } else {
                None
            };
        }
        Some(Cursor {
            code: &self.code[2..],
            passed: false,
        })
    }
}
