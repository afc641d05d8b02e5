ghost use Rattle.std.specs.Prelude.{IsTrue};
ghost use Rattle.std.specs.List.{list_all};
ghost use Rattle.cls_lexer.specs.Words.{word_of};
ghost use Rattle.cls_syntax.specs.Sorts.{is_number};

use cls_lexer::{Numeral, Token};

/// Numbers as they are written, one after another.
#[derive(Clone, Copy, Debug)]
pub struct NumeralList<'t, 'a> {
    pub(crate) tokens: &'t [Token<'a>],
    // Each token is a number.
    ghost numbers: { IsTrue (list_all (λ t. is_number (word_of t)) tokens.now) },
}

impl<'t, 'a> NumeralList<'t, 'a> {
    ghost use Rattle.std.specs.Prelude.{◌≡◌, [], ◌∷◌, length, MatchOption};
    ghost use Rattle.cls_syntax.specs.SpelledNumbers.{numerals_of};

    /// How many numbers there are.
    pub fn len(&self) -> usize
        ensures { result ≡ length (numerals_of self.now) }
    {
        self.tokens.len()
    }

    /// The first number, and those after it.
    #[tactic(auto, using(crate::proofs::TokenLists::parts))]
    pub fn split_first(&self) -> Option<(Numeral<'a>, NumeralList<'t, 'a>)>
        ensures { MatchOption result (numerals_of self.now ≡ [])
            (λ x. numerals_of self.now ≡ x.0.text.now ∷ numerals_of x.1) }
    {
        match self.tokens {
            [] => None,
            [first, rest @ ..] => {
                let first = Numeral { text: first.text };
                Some((first, NumeralList { tokens: rest }))
            }
        }
    }
}
