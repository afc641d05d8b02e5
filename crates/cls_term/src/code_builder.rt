//! Writes the code of the term that tokens spell, token by token. A component is written with the count 0 of arguments,
//! and each opening parenthesis and each comma adds one to the count of the component that is open there.
ghost use Rattle.std.specs.Prelude.{◌≡◌, IfOk, OnOk};
ghost use Rattle.cls_base.specs.Terms.{code_of};
ghost use Rattle.cls_lexer.specs.Names.{number_of};
ghost use Rattle.cls_lexer.specs.Words.{word_of};
ghost use Rattle.cls_syntax.specs.SpelledTerms.{term_text};
ghost use Rattle.cls_term.specs.CodeDrafts.{state_of, IsOpen, with_argument, Fits, after};
ghost use Rattle.cls_term.specs.TermReadings.{term_of};

use cls_base::OutOfMemory;
use cls_lexer::{Names, Token, TokenKind};
use cls_syntax::SpelledTerm;
use std::alloc::Global;

/// The code of what was read so far.
#[derive(Drop)]
struct Draft {
    code: Vec<u32>,
    /// Where the counts of the open components stand, the innermost last.
    places: Vec<usize>,
}

/// The code of the term that the tokens spell, with the numbers of its components. The only error is out of memory, as
/// which 2^32 arguments of one component count.
pub(crate) fn build(
    alloc: Global,
    components: &Names,
    spelled: &SpelledTerm,
) -> Result<Vec<u32>, OutOfMemory>
    ensures { IfOk result (λ code. code.items
        ≡ code_of (term_of (number_of components.now) (term_text spelled.now))) }
{
    let tokens = spelled.as_slice();
    let mut draft = Draft {
        code: Vec::with_capacity(alloc, tokens.len())?,
        places: Vec::new(alloc),
    };
    for token in tokens {
        draft.read(components, token)?;
    }
    Ok(draft.code)
}

impl Draft {
    /// Reads the next token.
    fn read(&mut self, components: &Names, token: &Token) -> Result<(), OutOfMemory>
        requires { Fits (state_of self.old) (word_of token.now) }
        ensures { OnOk result (state_of self.new
            ≡ after (number_of components.now) (state_of self.old) (word_of token.now)) }
    {
        match token.kind {
            TokenKind::Name => {
                self.code.push(components.number(token.text).0)?;
                self.code.push(0)?;
                Ok(())
            }
            TokenKind::Open => {
                self.places.push(self.code.len() - 1)?;
                self.add_argument()
            }
            TokenKind::Comma => self.add_argument(),
            TokenKind::Close => {
                let _place = self.places.pop();
                Ok(())
            }
            // No other token stands in a term.
            _ => Ok(()),
        }
    }

    /// One more argument of the innermost open component.
    fn add_argument(&mut self) -> Result<(), OutOfMemory>
        requires { IsOpen (state_of self.old) }
        ensures { OnOk result (state_of self.new ≡ with_argument (state_of self.old)) }
    {
        let place = self.places[self.places.len() - 1];
        let Some(count) = self.code[place].checked_add(1) else {
            return Err(OutOfMemory);
        };
        self.code[place] = count;
        Ok(())
    }
}
