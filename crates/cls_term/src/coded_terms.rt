ghost use Rattle.std.specs.Prelude.{◌≡◌, ℕ, ◌<◌, ◌≤◌, [], ◌∷◌, ◌++◌, IfOk, List, OnOk, OnErr, drop, flat_map, length, map, string_bytes};
ghost use Rattle.cls_base.specs.Terms.{Applicative, code_of};
ghost use Rattle.cls_term.specs.Banks.{at};
ghost use Rattle.cls_term.specs.Texts.{line_of, name_at, text_of};

use crate::Term;
use crate::code_text::write_term;
use crate::decode::decode;
use crate::lines::Line;
use cls_base::{NumberLists, OutOfMemory};
use cls_lexer::Names;
use std::alloc::Global;
use std::marker::Model;

/// Many terms, kept by their codes alone and seen as the list of the terms. A tree is made of none of them but where it
/// is asked for.
#[derive(Drop)]
pub struct CodedTerms {
    lists: NumberLists,
}

impl Model for CodedTerms {
    ghost use Rattle.std.specs.Prelude.{◌≡◌, List, map};
    ghost use Rattle.std.specs.Coded.{coded_list};
    ghost use Rattle.cls_base.specs.Terms.{Applicative, code_of};
    ghost use Rattle.cls_term.specs.Stored.{coded_term};
    ghost use Rattle.cls_term.specs.Decodes.{term_in};

    ghost Value = { List Applicative };

    ghost coded = { coded_list coded_term };

    ghost view = { λ c. map term_in c.lists };

    ghost invariant = { λ c. c.lists ≡ map code_of (map term_in c.lists) };
}

impl CodedTerms {
    /// No terms. They take no memory.
    pub fn new(alloc: Global) -> CodedTerms
        ensures { result ≡ [] }
    {
        CodedTerms {
            lists: NumberLists::new(alloc),
        }
    }

    /// The terms with these codes. It takes no memory.
    #[tactic(auto, using(crate::proofs::CodeLists::lists))]
    pub fn from_lists(lists: NumberLists) -> CodedTerms
        requires { (es : List Applicative) × (lists ≡ map code_of es) }
        ensures { (es : List Applicative) → lists ≡ map code_of es → result ≡ es }
    {
        CodedTerms { lists }
    }

    /// The number of terms.
    #[tactic(auto, using(crate::proofs::CodeLists::lists))]
    pub fn len(&self) -> usize
        ensures { result ≡ length self.now }
    {
        self.lists.len()
    }

    /// Adds the term of this code at the end. The only error is out of memory, and then the terms are as before.
    #[tactic(auto, using(crate::proofs::CodeLists::lists))]
    pub fn push(&mut self, code: &[u32]) -> Result<(), OutOfMemory>
        requires { (e : Applicative) × (code.now ≡ code_of e) }
        ensures ok { (e : Applicative) → code.now ≡ code_of e → OnOk result (self.new ≡ self.old ++ e ∷ []) }
        ensures err { OnErr result (self.new ≡ self.old) }
    {
        self.lists.push(code)
    }

    /// The code of the term at a place.
    #[tactic(auto, using(crate::proofs::CodeLists::lists))]
    pub fn code(&self, place: usize) -> &[u32]
        requires { place < length self.now }
        ensures { result.now ≡ code_of (at self.now place) }
    {
        self.lists.get(place)
    }

    /// The term at a place, as a tree. The only error is out of memory.
    #[tactic(auto, using(crate::proofs::CodeLists::lists))]
    pub fn term(&self, alloc: Global, place: usize) -> Result<Term, OutOfMemory>
        requires { place < length self.now }
        ensures { IfOk result (λ term. term ≡ at self.now place) }
    {
        Ok(decode(alloc, self.code(place))?)
    }

    /// Writes the text of the term at a place at the end, as [`Term::print`] gives it, straight from the code.
    #[tactic(auto, using(crate::proofs::CodeLists::lists))]
    pub fn write_to(
        &self,
        place: usize,
        components: &Names,
        text: &mut String,
    ) -> Result<(), OutOfMemory>
        requires { place < length self.now }
        ensures { OnOk result (string_bytes text.new
            ≡ string_bytes text.old ++ text_of (name_at components.now) (at self.now place)) }
    {
        write_term(self.code(place), components, text)?;
        Ok(())
    }

    /// Writes a line for each term from a place on at the end, until the text has enough bytes: the word, the text of the
    /// term as [`Term::print`] gives it, and a line feed. What a term begins with like the one before it is copied. The
    /// answer is the place of the first term that isn't written. The only error is out of memory, and then a part of the
    /// lines may stand there.
    #[tactic(auto, using(crate::proofs::CodeLists::lists))]
    pub fn write_lines(
        &self,
        alloc: Global,
        word: &str,
        components: &Names,
        from: usize,
        enough: usize,
        text: &mut String,
    ) -> Result<usize, OutOfMemory>
        requires { from ≤ length self.now }
        ensures within { IfOk result (λ next. next ≤ length self.now) }
        ensures lines { let lines = flat_map (line_of word.now (name_at components.now)) in IfOk result (λ next.
            string_bytes text.new ++ lines (drop next self.now) ≡ string_bytes text.old ++ lines (drop from self.now)) }
        ensures full { IfOk result (λ next. next < length self.now → enough ≤ length (string_bytes text.new)) }
    {
        let count = self.len();
        let mut line = Line::new(alloc, word)?;
        let mut before: &[u32] = &[];
        for place in from..count {
            if text.len() >= enough {
                return Ok(place);
            }
            let code = self.code(place);
            line.write(before, code, components)?;
            text.push_str(line.as_str())?;
            text.push('\n')?;
            before = code;
        }
        Ok(count)
    }
}
