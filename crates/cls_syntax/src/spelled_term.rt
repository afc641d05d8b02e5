ghost use Rattle.std.specs.Prelude.{IsTrue};
ghost use Rattle.cls_lexer.specs.Words.{words};
ghost use Rattle.cls_syntax.specs.TermReading.{term_front};
ghost use Rattle.cls_syntax.specs.Spans.{is_whole};

use cls_lexer::Token;

/// Tokens that spell a term.
#[derive(Clone, Copy, Debug)]
pub struct SpelledTerm<'t, 'a> {
    pub(crate) tokens: &'t [Token<'a>],
    // They are the whole of a term.
    ghost spelled: { IsTrue (is_whole (term_front (words tokens.now))) },
}

impl<'t, 'a> SpelledTerm<'t, 'a> {
    ghost use Rattle.std.specs.Prelude.{◌≡◌};
    ghost use Rattle.cls_syntax.specs.TermTexts.{term_words};
    ghost use Rattle.cls_syntax.specs.SpelledTerms.{term_text};

    /// The tokens.
    #[tactic(auto, using(crate::proofs::TermSpans::spelled_words))]
    pub fn as_slice(&self) -> &'t [Token<'a>]
        ensures { words result.now ≡ term_words (term_text self.now) }
    {
        self.tokens
    }
}
