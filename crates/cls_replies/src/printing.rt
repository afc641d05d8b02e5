//! A reply while it is printed.
ghost use Rattle.std.specs.Prelude.{◌≡◌, ◌<◌, ◌≤◌, ◌++◌, All, [], IfOk, length, string_bytes};
ghost use Rattle.cls_base.specs.Terms.{IsTermOver};
ghost use Rattle.cls_cert.specs.Conditions.{IsGrammarOf, forms_of};
ghost use Rattle.cls_cert.specs.Left.{AreMembersLeft, AreRowsLeft, members_left, rows_left};
ghost use Rattle.cls_grammar.specs.GrammarTexts.{IsGrammarText, IsPlaceIn, lines_from};
ghost use Rattle.cls_grammar.specs.Grammars.{book_of};
ghost use Rattle.cls_grammar.specs.Ranks.{AreRanks};
ghost use Rattle.cls_library.specs.Libraries.{paths_at};
ghost use Rattle.cls_replies.specs.Printing.{ArePrintable, IsOfGoal, IsPrintable, behind};
ghost use Rattle.cls_replies.specs.Printing.{items_left, left_lines, left_of, page_left};
ghost use Rattle.cls_replies.specs.Responder as responder;
ghost use Rattle.cls_replies.specs.Steps.{IsFaultLine};
ghost use Rattle.cls_replies.specs.Rests.{IsCertificateText, IsPrintingOf, IsRest};
ghost use Rattle.cls_replies.specs.Texts.{event_line, history_text, page_text, paths_text, sizes_text, step_line};
ghost use Rattle.cls_replies.specs.Texts.{term_line, term_lines};
ghost use Rattle.cls_syntax.specs.TypePrinting.{name_in};
ghost use Rattle.cls_term.specs.Texts.{name_at};

use crate::faults::engine_fault;
use crate::items::print_items;
use crate::pages::{print_terms, print_texts};
use crate::paths::print_paths;
use crate::responder::Responder;
use crate::sizes::{print_over, print_size};
use cls_base::OutOfMemory;
use cls_cert::{CertificateLeft, MembersLeft, RowsLeft, certify};
use cls_core::History;
use cls_engine::EngineFault;
use cls_enum::Page;
use cls_finite::{FiniteAnswer, Walk};
use cls_grammar::{Grammar, GrammarPlace, Ranks};
use cls_lexer::Names;
use cls_library::Library;
use std::alloc::Global;

/// So many bytes of lines are enough for a portion, 32 KiB.
const PORTION_BYTES: usize = 32_768;

/// Lines that aren't printed yet: what they are printed from, and where they go on.
#[derive(Drop)]
pub(crate) enum Lines {
    /// The terms of a page from a place on, and the last line.
    Terms {
        page: Page,
        place: usize,
    },
    /// The same with the text of each term.
    Texts {
        page: Page,
        place: usize,
    },
    /// The lines of a grammar.
    Grammar {
        grammar: Grammar,
        ranks: Ranks,
        place: GrammarPlace,
    },
    /// The paths of a component from a place on, and the last line.
    Paths {
        component: u32,
        place: usize,
    },
    /// The events of a history from a place on, and the last line.
    Events {
        history: History,
        place: usize,
    },
    /// The steps of a walk from a place on, and the last line.
    Steps {
        walk: Walk,
        place: usize,
    },
    /// What is left of a certificate with rows, of a grammar.
    Rows {
        grammar: Grammar,
        rows: RowsLeft,
    },
    /// What is left of a certificate without rows, of a grammar.
    Members {
        grammar: Grammar,
        members: MembersLeft,
    },
}

/// What is left of a reply.
#[derive(Drop)]
pub(crate) enum Left {
    /// Nothing.
    Nothing,
    /// A text, which is printed already.
    Text(String),
    /// A first line, which is printed already, and lines behind it.
    Begun { first: String, lines: Lines },
    /// Lines that are printed when they are asked for.
    Lines(Lines),
}

/// A reply, as far as it wasn't taken yet. Its text is taken in portions by [`Responder::print`], which prints them.
pub struct Printing {
    pub(crate) left: Left,
}

// Not derived, for the prover: so a caller's proof has one step where a value is dropped, and not one for each part of it.
impl Drop for Printing {
    fn drop(self) {
        let Printing { left: _ } = self;
    }
}

impl Printing {
    /// The empty reply.
    pub fn nothing() -> Printing
        ensures text { (s : responder.Responder) → left_of s result ≡ [] }
        ensures printable { (s : responder.Responder) → IsPrintable s result }
    {
        Printing {
            left: Left::Nothing,
        }
    }

    /// A reply that is printed already.
    pub(crate) fn of_text(text: String) -> Printing
        ensures text { (s : responder.Responder) → left_of s result ≡ string_bytes text }
        ensures printable { (s : responder.Responder) → IsPrintable s result }
    {
        Printing {
            left: Left::Text(text),
        }
    }

    fn into_left(self) -> Left
        ensures { result ≡ self.left }
    {
        let Printing { left } = self;
        left
    }

    fn of_lines(lines: Lines) -> Printing
        ensures text { (s : responder.Responder) → left_of s result ≡ left_lines s lines }
        ensures printable { (s : responder.Responder) → ArePrintable s lines → IsPrintable s result }
    {
        Printing {
            left: Left::Lines(lines),
        }
    }
}

/// The reply that is printed already, if it was.
pub(crate) fn text_printing(text: Result<String, OutOfMemory>) -> Result<Printing, OutOfMemory>
    ensures text { IsPrintingOf text result }
    ensures printable { (s : responder.Responder) → IfOk result (IsPrintable s) }
{
    match text {
        Ok(text) => Ok(Printing::of_text(text)),
        Err(fault) => Err(fault),
    }
}

/// The reply that says what the engine can't do. The only error is out of memory, which is also the answer where that is the
/// fault.
pub(crate) fn fault_printing(
    alloc: Global,
    names: &Names,
    fault: EngineFault,
) -> Result<Printing, OutOfMemory>
    ensures text { (s : responder.Responder) → IfOk result (λ p. IsFaultLine names.now fault (left_of s p)) }
    ensures printable { (s : responder.Responder) → IfOk result (IsPrintable s) }
{
    text_printing(engine_fault(alloc, names, fault))
}

/// The grammar with the ranks of its goals. The only error is out of memory.
pub(crate) fn grammar_printing(alloc: Global, grammar: Grammar) -> Result<Printing, OutOfMemory>
    ensures text { (s : responder.Responder)
        → IfOk result (λ p. IsGrammarText (name_in s.names) (name_in s.components) grammar (left_of s p)) }
    ensures printable { (s : responder.Responder) → IsOfGoal s grammar → IfOk result (IsPrintable s) }
{
    let ranks = grammar.ranks(alloc)?;
    Ok(Printing::of_lines(Lines::Grammar {
        grammar,
        ranks,
        place: GrammarPlace::Counts,
    }))
}

/// A first line and lines behind it. The only error is out of memory.
fn begun_printing(alloc: Global, first: &str, lines: Lines) -> Result<Printing, OutOfMemory>
    requires { first.now ≡ [] → ⊥ }
    ensures text { (s : responder.Responder) → IfOk result (λ p. left_of s p ≡ first.now ++ left_lines s lines) }
    ensures printable { (s : responder.Responder) → ArePrintable s lines → IfOk result (IsPrintable s) }
{
    let mut text = String::new(alloc);
    text.push_str(first)?;
    Ok(Printing {
        left: Left::Begun { first: text, lines },
    })
}

/// The certificate of goal 0 of a grammar, which is by the rules of the library. The only error is out of memory.
pub(crate) fn certificate_printing(
    alloc: Global,
    lib: &Library,
    grammar: Grammar,
) -> Result<Printing, OutOfMemory>
    requires { IsGrammarOf lib.now grammar }
    ensures text { (s : responder.Responder) → s.engine.library ≡ lib.now
        → IfOk result (λ p. IsCertificateText lib.now grammar s.names s.components (left_of s p)) }
    ensures printable { (s : responder.Responder) → s.engine.library ≡ lib.now → IsOfGoal s grammar
        → IfOk result (IsPrintable s) }
{
    let left = certify(alloc, lib, &grammar)?;
    match left {
        CertificateLeft::Rows(rows) => {
            begun_printing(alloc, "inhabited\n", Lines::Rows { grammar, rows })
        }
        CertificateLeft::Members(members) => {
            begun_printing(alloc, "empty\n", Lines::Members { grammar, members })
        }
    }
}

/// The lines of a history.
pub(crate) fn history_printing(history: History) -> Printing
    ensures text { (s : responder.Responder) → left_of s result ≡ history_text history }
    ensures printable { (s : responder.Responder) → IsPrintable s result }
{
    Printing::of_lines(Lines::Events { history, place: 0 })
}

/// The lines of sizes. The only error is out of memory.
pub(crate) fn sizes_printing(alloc: Global, sizes: FiniteAnswer) -> Result<Printing, OutOfMemory>
    ensures text { (s : responder.Responder) → IfOk result (λ p. left_of s p ≡ sizes_text sizes) }
    ensures printable { (s : responder.Responder) → IfOk result (IsPrintable s) }
{
    match sizes {
        FiniteAnswer::Finite(size) => text_printing(print_size(alloc, size)),
        FiniteAnswer::Over => text_printing(print_over(alloc)),
        FiniteAnswer::Infinite(walk) => {
            begun_printing(alloc, "infinite\n", Lines::Steps { walk, place: 0 })
        }
    }
}

/// The terms of the page.
pub(crate) fn terms_printing(page: Page) -> Printing
    ensures text { (s : responder.Responder)
        → left_of s result ≡ page_text (term_line (name_at s.components)) page.terms page.more }
    ensures printable { (s : responder.Responder) → IsPrintable s result }
{
    Printing::of_lines(Lines::Terms { page, place: 0 })
}

/// The terms of the page, each with its text.
pub(crate) fn texts_printing(page: Page) -> Printing
    ensures text { (s : responder.Responder)
        → left_of s result ≡ page_text (term_lines (name_at s.components) s.templates) page.terms page.more }
    ensures printable { (s : responder.Responder)
        → All (IsTermOver (length s.components)) page.terms → IsPrintable s result }
{
    Printing::of_lines(Lines::Texts { page, place: 0 })
}

/// The paths of the component.
pub(crate) fn paths_printing(component: u32) -> Printing
    ensures text { (s : responder.Responder)
        → left_of s result ≡ paths_text s.names (paths_at s.engine.library component) }
    ensures printable { (s : responder.Responder) → component < length s.components → IsPrintable s result }
{
    Printing::of_lines(Lines::Paths {
        component,
        place: 0,
    })
}

fn write_events(history: History, place: usize, text: &mut String) -> Result<Left, OutOfMemory>
    requires { place ≤ length history }
    ensures { (s : responder.Responder) → IfOk result (IsRest s (items_left event_line history place)
        (string_bytes text.old) (string_bytes text.new)) }
{
    let next = print_items(history.as_slice(), place, PORTION_BYTES, text)?;
    match next {
        Some(place) => Ok(Left::Lines(Lines::Events { history, place })),
        None => Ok(Left::Nothing),
    }
}

fn write_steps(walk: Walk, place: usize, text: &mut String) -> Result<Left, OutOfMemory>
    requires { place ≤ length walk }
    ensures { (s : responder.Responder) → IfOk result (IsRest s (items_left step_line walk place)
        (string_bytes text.old) (string_bytes text.new)) }
{
    let next = print_items(walk.as_slice(), place, PORTION_BYTES, text)?;
    match next {
        Some(place) => Ok(Left::Lines(Lines::Steps { walk, place })),
        None => Ok(Left::Nothing),
    }
}

impl Responder {
    /// The next portion of the reply, and what is left behind it. A portion is lines up to the first end of a line behind
    /// 32 KiB, or a text that was printed already. It is empty if and only if nothing is left. The only error is out of memory.
    pub fn print(
        &mut self,
        alloc: Global,
        printing: Printing,
    ) -> Result<(String, Printing), OutOfMemory>
        requires { IsPrintable self.old printing }
        ensures portion { IfOk result (λ r. left_of self.old printing ≡ string_bytes r.0 ++ left_of self.old r.1) }
        ensures ended { IfOk result (λ r. string_bytes r.0 ≡ [] → left_of self.old r.1 ≡ []) }
        ensures printable { IfOk result (λ r. IsPrintable self.old r.1) }
        ensures same { self.new ≡ self.old }
    {
        let left = printing.into_left();
        match left {
            Left::Nothing => Ok((String::new(alloc), Printing::nothing())),
            Left::Text(text) => Ok((text, Printing::nothing())),
            Left::Begun { first, lines } => Ok((first, Printing::of_lines(lines))),
            Left::Lines(lines) => {
                let mut portion = self.empty_text(alloc);
                let rest = self.write_lines(alloc, lines, &mut portion)?;
                Ok((portion, Printing { left: rest }))
            }
        }
    }

    /// Writes lines at the end until they are enough, and gives what is left of them.
    fn write_lines(
        &mut self,
        alloc: Global,
        lines: Lines,
        text: &mut String,
    ) -> Result<Left, OutOfMemory>
        requires { ArePrintable self.old lines }
        ensures rest { IfOk result
            (IsRest self.old (left_lines self.old lines) (string_bytes text.old) (string_bytes text.new)) }
        ensures same { self.new ≡ self.old }
    {
        match lines {
            Lines::Terms { page, place } => self.write_terms(alloc, page, place, text),
            Lines::Texts { page, place } => self.write_texts(alloc, page, place, text),
            Lines::Grammar {
                grammar,
                ranks,
                place,
            } => self.write_grammar(alloc, grammar, ranks, place, text),
            Lines::Paths { component, place } => self.write_paths(alloc, component, place, text),
            Lines::Events { history, place } => write_events(history, place, text),
            Lines::Steps { walk, place } => write_steps(walk, place, text),
            Lines::Rows { grammar, rows } => self.write_rows(alloc, grammar, rows, text),
            Lines::Members { grammar, members } => {
                self.write_members(alloc, grammar, members, text)
            }
        }
    }

    fn write_terms(
        &self,
        alloc: Global,
        page: Page,
        place: usize,
        text: &mut String,
    ) -> Result<Left, OutOfMemory>
        requires { place ≤ length page.terms }
        ensures { IfOk result (IsRest self.now (page_left (term_line (name_at self.now.components)) page place)
            (string_bytes text.old) (string_bytes text.new)) }
    {
        let next = print_terms(alloc, &page, place, &self.components, PORTION_BYTES, text)?;
        match next {
            Some(place) => Ok(Left::Lines(Lines::Terms { page, place })),
            None => Ok(Left::Nothing),
        }
    }

    fn write_texts(
        &self,
        alloc: Global,
        page: Page,
        place: usize,
        text: &mut String,
    ) -> Result<Left, OutOfMemory>
        requires place { place ≤ length page.terms }
        requires named { All (IsTermOver (length self.now.components)) page.terms }
        ensures { IfOk result (IsRest self.now
            (page_left (term_lines (name_at self.now.components) self.now.templates) page place)
            (string_bytes text.old) (string_bytes text.new)) }
    {
        let (components, templates) = (&self.components, &self.templates);
        let enough = PORTION_BYTES;
        let next = print_texts(alloc, &page, place, components, templates, enough, text)?;
        match next {
            Some(place) => Ok(Left::Lines(Lines::Texts { page, place })),
            None => Ok(Left::Nothing),
        }
    }

    /// The engine takes the grammar back when its last line is written.
    fn write_grammar(
        &mut self,
        alloc: Global,
        grammar: Grammar,
        ranks: Ranks,
        place: GrammarPlace,
        text: &mut String,
    ) -> Result<Left, OutOfMemory>
        requires ranked { AreRanks (book_of grammar) ranks }
        requires place { IsPlaceIn grammar place }
        requires of_goal { IsOfGoal self.old grammar }
        ensures rest { IfOk result (IsRest self.old
            (lines_from (name_in self.old.names) (name_in self.old.components) grammar ranks place)
            (string_bytes text.old) (string_bytes text.new)) }
        ensures same { self.new ≡ self.old }
    {
        let (names, components) = (&self.names, &self.components);
        let enough = PORTION_BYTES;
        let next = grammar.write_lines(alloc, names, components, &ranks, place, enough, text)?;
        match next {
            Some(place) => Ok(Left::Lines(Lines::Grammar {
                grammar,
                ranks,
                place,
            })),
            None => {
                self.engine.take_back(grammar);
                Ok(Left::Nothing)
            }
        }
    }

    fn write_paths(
        &self,
        alloc: Global,
        component: u32,
        place: usize,
        text: &mut String,
    ) -> Result<Left, OutOfMemory>
        requires { component < length self.now.components }
        ensures { IfOk result (IsRest self.now
            (paths_text self.now.names (behind place (paths_at self.now.engine.library component)))
            (string_bytes text.old) (string_bytes text.new)) }
    {
        let paths = self.engine.library().paths(component);
        let next = print_paths(alloc, &self.names, paths, place, PORTION_BYTES, text)?;
        match next {
            Some(place) => Ok(Left::Lines(Lines::Paths { component, place })),
            None => Ok(Left::Nothing),
        }
    }

    /// The engine takes the grammar back when its last line is written.
    fn write_rows(
        &mut self,
        alloc: Global,
        grammar: Grammar,
        rows: RowsLeft,
        text: &mut String,
    ) -> Result<Left, OutOfMemory>
        requires left { AreRowsLeft grammar rows }
        requires of_goal { IsOfGoal self.old grammar }
        ensures rest { IfOk result (IsRest self.old
            (rows_left self.old.names self.old.components (forms_of grammar) rows)
            (string_bytes text.old) (string_bytes text.new)) }
        ensures same { self.new ≡ self.old }
    {
        let mut left = rows;
        let (names, components) = (&self.names, &self.components);
        let more = left.write_lines(alloc, &grammar, names, components, PORTION_BYTES, text)?;
        if more {
            return Ok(Left::Lines(Lines::Rows {
                grammar,
                rows: left,
            }));
        }
        self.engine.take_back(grammar);
        Ok(Left::Nothing)
    }

    /// The engine takes the grammar back when its last line is written.
    fn write_members(
        &mut self,
        alloc: Global,
        grammar: Grammar,
        members: MembersLeft,
        text: &mut String,
    ) -> Result<Left, OutOfMemory>
        requires left { AreMembersLeft self.old.engine.library grammar members }
        requires of_goal { IsOfGoal self.old grammar }
        ensures rest { IfOk result (IsRest self.old
            (members_left self.old.names self.old.components self.old.engine.library (forms_of grammar) members)
            (string_bytes text.old) (string_bytes text.new)) }
        ensures same { self.new ≡ self.old }
    {
        let mut left = members;
        let lib = self.engine.library();
        let (names, components, enough) = (&self.names, &self.components, PORTION_BYTES);
        let more = left.write_lines(alloc, lib, &grammar, names, components, enough, text)?;
        if more {
            return Ok(Left::Lines(Lines::Members {
                grammar,
                members: left,
            }));
        }
        self.engine.take_back(grammar);
        Ok(Left::Nothing)
    }
}
