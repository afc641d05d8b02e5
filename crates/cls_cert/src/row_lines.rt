//! What is left of a certificate with rows while it is written.
ghost use Rattle.std.specs.Prelude.{◌≡◌, ◌<◌, ◌≤◌, ◌++◌, All, IfOk, OnOk, drop, length, string_bytes};
ghost use Rattle.cls_cert.specs.Conditions.{forms_of};
ghost use Rattle.cls_cert.specs.Left.{AreRowsLeft, IsWrittenOn, rows_left, named_row_text, named_rows_text};

use crate::named::NamedGrammar;
use crate::rows::MadeRow;
use cls_base::OutOfMemory;
use cls_grammar::Grammar;
use cls_lexer::Names;
use cls_norm::type_of;
use cls_proof::{RowRef, write_row};
use std::alloc::Global;

/// Rows of a grammar that are left, from a place on.
pub struct RowsLeft {
    pub(crate) rows: Vec<MadeRow>,
    pub(crate) next: usize,
}

// Not derived, for the prover: so a caller's proof has one step where a value is dropped, and not one for each part of it.
impl Drop for RowsLeft {
    fn drop(self) {
        let RowsLeft { rows: _, next: _ } = self;
    }
}

impl RowsLeft {
    /// Writes lines at the end until they are enough, and says whether more are left. The last line is `qed`. The only error is out
    /// of memory, after which no further lines are to be written.
    pub fn write_lines(
        &mut self,
        alloc: Global,
        grammar: &Grammar,
        names: &Names,
        components: &Names,
        enough: usize,
        text: &mut String,
    ) -> Result<bool, OutOfMemory>
        requires { AreRowsLeft grammar.now self.old }
        ensures left { OnOk result (AreRowsLeft grammar.now self.new) }
        ensures lines { let left = rows_left names.now components.now (forms_of grammar.now) in IfOk result
            (IsWrittenOn enough (left self.old) (left self.new) (string_bytes text.old) (string_bytes text.new)) }
    {
        let named = NamedGrammar {
            grammar,
            names,
            components,
        };
        let rows = self.rows.as_slice();
        let count = rows.len();
        let next = write_rows(alloc, &named, rows, self.next, enough, text)?;
        self.next = next;
        if next < count {
            return Ok(true);
        }
        text.push_str("qed\n")?;
        Ok(false)
    }
}

/// Writes rows from a place on at the end, until the text has enough bytes. Gives the place of the first that isn't written.
fn write_rows(
    alloc: Global,
    named: &NamedGrammar,
    rows: &[MadeRow],
    from: usize,
    enough: usize,
    text: &mut String,
) -> Result<usize, OutOfMemory>
    requires each { All (λ row. row.number < length named.now.grammar.now) rows.now }
    requires from { from ≤ length rows.now }
    ensures within { IfOk result (λ next. next ≤ length rows.now) }
    ensures lines { let lines = named_rows_text named.now in
        IfOk result (λ next. string_bytes text.new ++ lines (drop next rows.now)
        ≡ string_bytes text.old ++ lines (drop from rows.now)) }
    ensures full { IfOk result (λ next. next < length rows.now → enough ≤ length (string_bytes text.new)) }
{
    let count = rows.len();
    for place in from..count {
        let written = text.len();
        if written >= enough {
            return Ok(place);
        }
        write_made_row(alloc, named, &rows[place], text)?;
    }
    Ok(count)
}

/// Writes the line of a row at the end.
fn write_made_row(
    alloc: Global,
    named: &NamedGrammar,
    row: &MadeRow,
    text: &mut String,
) -> Result<(), OutOfMemory>
    requires { row.now.number < length named.now.grammar.now }
    ensures { OnOk result (string_bytes text.new ≡ string_bytes text.old ++ named_row_text named.now row.now) }
{
    let ty = type_of(alloc, named.grammar.goal(row.number))?;
    let row = RowRef {
        goal: &ty,
        component: row.component,
        n: row.n,
        cover: row.cover.as_slice(),
    };
    write_row(named.names, named.components, row, text)
}
