//! Writes the texts of terms by front coding: terms in order begin alike, and so do their texts. A line is cut back to
//! behind the components that the next term shares, and only the rest is written.
ghost use Rattle.std.specs.Prelude.{◌≡◌, ◌≢◌, ℕ, ◌<◌, ◌≤◌, ◌/◌, ◌*◌, [], ◌++◌, IfOk, List, OnOk, length, slice_index, string_bytes};
ghost use Rattle.cls_term.specs.Lines.{IsAtEnd, IsClosed, IsGrown, IsLine, IsWholeLine, close_stack, close_text, mark_stack, mark_text, standing_at};
ghost use Rattle.cls_term.specs.Texts.{name_at};

use cls_base::{Name, OutOfMemory};
use cls_lexer::Names;
use std::alloc::Global;

/// What stands behind the first components of a code.
#[derive(Clone, Copy)]
struct Standing {
    end: usize, // The length of the line there, in bytes.
    left: u32, // How many arguments are to come in the innermost list that is open, or 0 if none is.
    outer: usize, // Behind so many components the lists around that one are open as they are here.
}

/// A line, which is a word and the text of a term, and what stands behind none of the term's components, behind the
/// first, and so on.
#[derive(Drop)]
pub(crate) struct Line {
    text: String,
    standings: Vec<Standing>,
}

/// How many components both codes begin with.
fn shared(before: &[u32], code: &[u32]) -> usize
    ensures before { result ≤ length before.now / 2 }
    ensures code { result ≤ length code.now / 2 }
    ensures same { (i : ℕ) → i < 2 * result → slice_index before.now i ≡ slice_index code.now i }
{
    let most = before.len().min(code.len());
    for place in 0..most {
        if before[place] != code[place] {
            return place / 2;
        }
    }
    most / 2
}

/// Closes each list that is full, the innermost first. Behind as many components as it gives, the lists that are left
/// were open as they are now.
fn close_full(standings: &[Standing], text: &mut String) -> Result<usize, OutOfMemory>
    requires { (stack : List ℕ) × IsAtEnd standings.now stack }
    ensures closed { (stack : List ℕ) → IsAtEnd standings.now stack → IfOk result (λ place.
        IsClosed standings.now stack (string_bytes text.old) (string_bytes text.new) place) }
    ensures goes_on { IfOk result (λ place. (standing_at standings.now place).left ≢ 1) }
{
    let mut place = standings.len() - 1;
    while standings[place].left == 1 {
        text.push(')')?;
        place = standings[place].outer;
    }
    Ok(place)
}

impl Line {
    /// The line with the word alone. The only error is out of memory.
    pub(crate) fn new(alloc: Global, word: &str) -> Result<Line, OutOfMemory>
        ensures { (name : ℕ → List ℕ) → IfOk result (λ line. IsWholeLine name word.now [] line) }
    {
        let mut text = String::new(alloc);
        text.push_str(word)?;
        let mut standings = Vec::new(alloc);
        standings.push(Standing {
            end: word.len(),
            left: 0,
            outer: 0,
        })?;
        Ok(Line { text, standings })
    }

    /// The line as it stands.
    pub(crate) fn as_str(&self) -> &str
        ensures { result.now ≡ string_bytes self.now.text }
    {
        self.text.as_str()
    }

    /// Writes the code's text in place of that of the code before, behind the word. The only error is out of memory.
    pub(crate) fn write(
        &mut self,
        before: &[u32],
        code: &[u32],
        components: &Names,
    ) -> Result<(), OutOfMemory>
        requires { (word : List ℕ) × IsWholeLine (name_at components.now) word before.now self.old }
        ensures { (word : List ℕ) → IsWholeLine (name_at components.now) word before.now self.old
            → OnOk result (IsWholeLine (name_at components.now) word code.now self.new) }
    {
        let same = shared(before, code);
        self.cut(same);
        for place in same..code.len() / 2 {
            self.write_component(Name(code[2 * place]), code[2 * place + 1], components)?;
        }
        Ok(())
    }

    /// Cuts the line back to behind so many components.
    fn cut(&mut self, count: usize)
        requires { (name : ℕ → List ℕ) × (word : List ℕ) × (code : List ℕ) × (k : ℕ)
            × IsLine name word code k self.old × (count ≤ k) }
        ensures { (name : ℕ → List ℕ) (word code : List ℕ) (k : ℕ)
            → IsLine name word code k self.old → count ≤ k → IsLine name word code count self.new }
    {
        self.text.truncate(self.standings[count].end);
        self.standings.truncate(count + 1);
    }

    /// Writes a component with so many arguments, and what stands before the next one.
    fn write_component(
        &mut self,
        component: Name,
        count: u32,
        components: &Names,
    ) -> Result<(), OutOfMemory>
        requires { (stack : List ℕ) × IsAtEnd self.old.standings.items stack }
        ensures { (stack : List ℕ) → IsAtEnd self.old.standings.items stack → OnOk result (
            IsGrown (name_at components.now component.0 ++ mark_text stack count) (mark_stack stack count)
            self.old self.new) }
    {
        self.text.push_str(components.text(component))?;
        if count > 0 {
            self.open_list(count)
        } else {
            self.close_lists()
        }
    }

    /// Begins a list of so many arguments.
    fn open_list(&mut self, count: u32) -> Result<(), OutOfMemory>
        requires some { 0 < count }
        requires lists { (stack : List ℕ) × IsAtEnd self.old.standings.items stack }
        ensures { (stack : List ℕ) → IsAtEnd self.old.standings.items stack → OnOk result (
            IsGrown (mark_text stack count) (mark_stack stack count) self.old self.new) }
    {
        self.text.push('(')?;
        let outer = self.standings.len() - 1;
        self.standings.push(Standing {
            end: self.text.len(),
            left: count,
            outer,
        })?;
        Ok(())
    }

    /// Writes what stands behind an argument that is whole: the end of each list that is full, and then a comma if a list
    /// goes on.
    fn close_lists(&mut self) -> Result<(), OutOfMemory>
        requires { (stack : List ℕ) × IsAtEnd self.old.standings.items stack }
        ensures { (stack : List ℕ) → IsAtEnd self.old.standings.items stack → OnOk result (
            IsGrown (close_text stack) (close_stack stack) self.old self.new) }
    {
        let place = close_full(self.standings.as_slice(), &mut self.text)?;
        let mut next = self.standings[place];
        if next.left > 0 {
            self.text.push_str(", ")?;
            next.left -= 1;
        }
        next.end = self.text.len();
        self.standings.push(next)?;
        Ok(())
    }
}
