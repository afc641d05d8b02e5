ghost use Rattle.cls_base.specs.Limits.{max_type_nodes};
ghost use Rattle.std.specs.Prelude.{◌≡◌, IsTrue};
ghost use Rattle.cls_lexer.specs.Words.{words};
ghost use Rattle.cls_syntax.specs.TypeLists.{types_front, types_nodes};
ghost use Rattle.cls_syntax.specs.TypeShapes.{held};
ghost use Rattle.cls_lexer.specs.declared.token.TokenKind.TheVariants.{Bar};
ghost use Rattle.cls_syntax.specs.Spans.{is_whole, types_in};

use crate::type_list::read_types;
use cls_base::limits::MAX_TYPE_NODES;
use cls_base::{OutOfMemory, Ty};
use cls_lexer::{Names, Token};
use std::alloc::Global;

/// Tokens that spell types with bars between them.
#[derive(Clone, Copy, Debug)]
pub struct SpelledTypes<'t, 'a> {
    pub(crate) tokens: &'t [Token<'a>],
    pub(crate) most_nodes: usize,
    // They are the whole of such a list.
    ghost spelled: { IsTrue (is_whole (types_front Bar (words tokens.now))) },
    // The greatest of the types has so many nodes, as far as a `usize` counts them.
    ghost counted: { most_nodes ≡ held (types_nodes (types_in Bar (words tokens.now))) },
}

impl SpelledTypes<'_, '_> {
    ghost use Rattle.std.specs.Prelude.{◌≤◌, ◌↔◌, length, take, map, IfOk, OnOk};
    ghost use Rattle.cls_base.specs.Ty.{type_of};
    ghost use Rattle.cls_lexer.specs.Names.{number_of, with_texts};
    ghost use Rattle.cls_syntax.specs.ClosedTypes.{AreSpelled, HasNoDollar};
    ghost use Rattle.cls_syntax.specs.Forms.{types_parts, constructors_named};
    ghost use Rattle.cls_syntax.specs.SpelledTypes.{types_text};
    ghost use Rattle.cls_syntax.specs.TypeLists.{types_words};

    /// Whether each type has no more than [`MAX_TYPE_NODES`] nodes.
    pub fn are_small(&self) -> bool
        ensures { IsTrue result ↔ (types_nodes (types_text self.now) ≤ max_type_nodes) }
    {
        self.most_nodes as u64 <= MAX_TYPE_NODES
    }

    /// The types that the tokens spell, which have no variable. Their names are numbered in the order of their tokens. The
    /// only error is out of memory, after which the table may have grown.
    pub fn types(&self, alloc: Global, names: &mut Names) -> Result<Vec<Ty>, OutOfMemory>
        requires { HasNoDollar (types_words Bar (types_text self.now)) }
        ensures types { IfOk result (λ types.
            AreSpelled (number_of names.new) (types_text self.now) (map type_of types.items)) }
        ensures table { OnOk result
            (names.new ≡ with_texts names.old (constructors_named (types_parts (types_text self.now)))) }
        ensures kept { take (length names.old) names.new ≡ names.old }
    {
        read_types(alloc, names, self.tokens)
    }
}
