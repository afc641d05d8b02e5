//! The certificate of a grammar's goal 0.
ghost use Rattle.std.specs.Prelude.{◌≡◌, ℕ, ◌++◌, IfOk, List};
ghost use Rattle.cls_proof.specs.Certificates as certificates;
ghost use Rattle.cls_proof.specs.Texts.{certificate_text};
ghost use Rattle.cls_cert.specs.Conditions.{forms_of, IsGrammarOf};
ghost use Rattle.cls_cert.specs.Left.{IsCertificateLeft, certificate_left, first_line};
ghost use Rattle.cls_cert.specs.Making.{IsMadeFor};

use crate::layers::BlockLeft;
use crate::members::MembersLeft;
use crate::row_lines::RowsLeft;
use crate::rows::rows;
use cls_base::OutOfMemory;
use cls_grammar::Grammar;
use cls_library::Library;
use std::alloc::Global;

/// A certificate while it is written: what is left of it. Its first line isn't part of that.
#[derive(Drop)]
pub enum CertificateLeft {
    /// The first line is `inhabited`.
    Rows(RowsLeft),
    /// The first line is `empty`.
    Members(MembersLeft),
}

/// The certificate of goal 0 of the grammar, which is by the rules of the library. Its lines are all left.
///
/// If goal 0 is productive, there is a row for each goal whose rank is less than its own, by rank and then by number, and
/// last one for goal 0. Each row takes the first rule of its goal whose arguments have lower ranks, and the first cover
/// that gives this rule. Otherwise there is a member for each unproductive goal, by number, with a block for each
/// component and number of arguments by which an arrow leads to the goal's first path. Layer number j of a block holds
/// the minimal covers of the first j paths. The rows are made now, and the members while they are written. The only error is out
/// of memory.
pub fn certify(
    alloc: Global,
    lib: &Library,
    grammar: &Grammar,
) -> Result<CertificateLeft, OutOfMemory>
    requires { IsGrammarOf lib.now grammar.now }
    ensures made { (names components : List (List ℕ)) → IfOk result (λ left.
        (c : certificates.Certificate) × IsMadeFor lib.now grammar.now c × (certificate_text names components c
        ≡ first_line left ++ certificate_left names components lib.now (forms_of grammar.now) left)) }
    ensures left { IfOk result (IsCertificateLeft lib.now grammar.now) }
{
    let ranks = grammar.ranks(alloc)?;
    let first = ranks.as_slice()[0];
    match first {
        Some(rank) => {
            let made = rows(alloc, lib, grammar, ranks.as_slice(), rank)?;
            Ok(CertificateLeft::Rows(RowsLeft {
                rows: made,
                next: 0,
            }))
        }
        None => {
            let block = BlockLeft::none(alloc);
            Ok(CertificateLeft::Members(MembersLeft {
                ranks,
                block,
                goal: 0,
                from: None,
                next: 0,
            }))
        }
    }
}
