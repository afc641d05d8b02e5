//! The rows of a closure as a rule book.
ghost use Rattle.std.specs.Prelude.{◌≡◌, ◌<◌, IfNone, IfSome, None, length, option_map, slice_get};
ghost use Rattle.cls_core.specs.Rows.{Row};
ghost use Rattle.cls_grammar.specs.Grammars.{MakeGrammar, book_of, first_wide};

use cls_base::{Key, NodeRules, RuleBook};
use cls_core::Rows;
use std::marker::Model;

/// Rows that make a grammar, none of which is wide. Each row is a node, with its rules.
#[derive(Drop)]
pub(crate) struct RowsBook<'a, G: Key + Drop> {
    rows: &'a Rows<G>,
}

impl<'a, G: Key + Drop> Model for RowsBook<'a, G> {
    ghost use Rattle.std.specs.Prelude.{◌≡◌, List, None};
    ghost use Rattle.cls_core.specs.Rows.{Row};
    ghost use Rattle.cls_grammar.specs.Grammars.{MakeGrammar, first_wide};

    ghost Value = { List (Row G) };

    ghost view = { λ b. b.rows.now };

    ghost invariant = { λ b. MakeGrammar b.rows.now × (first_wide b.rows.now ≡ None) };
}

impl<'a, G: Key + Drop> RowsBook<'a, G> {
    /// The rule book of these rows. It takes no memory.
    pub(crate) fn new(rows: &'a Rows<G>) -> RowsBook<'a, G>
        requires grammar { MakeGrammar rows.now }
        requires ruled { first_wide rows.now ≡ None }
        ensures { result ≡ rows.now }
    {
        RowsBook { rows }
    }
}

impl<G: Key + Drop> RuleBook for RowsBook<'_, G> {
    ghost book = { book_of };

    fn count(&self) -> u32 {
        self.rows.count()
    }

    fn rules(&self, i: u32) -> &NodeRules {
        match self.rows.answer(i).rules() {
            Some(rules) => rules,
            None => unreachable!(),
        }
    }
}

/// The place of the first row that is wide, if one is.
pub(crate) fn wide_row<G: Key + Drop>(rows: &Rows<G>) -> Option<u32>
    ensures none { IfNone result (first_wide rows.now ≡ None) }
    ensures within { IfSome result (λ row. row < length rows.now) }
    ensures wide { IfSome result (λ row.
        first_wide rows.now ≡ option_map (λ (r : Row G). r.goal) (slice_get rows.now row)) }
{
    for row in 0..rows.count() {
        match rows.answer(row).rules() {
            Some(_) => {}
            None => return Some(row),
        }
    }
    None
}
