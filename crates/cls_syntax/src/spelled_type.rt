ghost use Rattle.cls_base.specs.Limits.{max_type_nodes};
ghost use Rattle.std.specs.Prelude.{◌≡◌, IsTrue};
ghost use Rattle.cls_lexer.specs.Words.{words};
ghost use Rattle.cls_syntax.specs.TypeTexts.{type_nodes};
ghost use Rattle.cls_syntax.specs.TypeReading.{type_front};
ghost use Rattle.cls_syntax.specs.TypeShapes.{held};
ghost use Rattle.cls_syntax.specs.Spans.{is_whole, type_in};

use crate::measured::MeasuredTy;
use crate::schema_builder::build;
use crate::stop::begins_reserved;
use crate::type_builder::measured_closed_type;
use cls_base::limits::MAX_TYPE_NODES;
use cls_base::{OutOfMemory, Schema, Ty};
use cls_lexer::{Names, Token};
use std::alloc::Global;

/// Tokens that spell a type.
#[derive(Clone, Copy, Debug)]
pub struct SpelledType<'t, 'a> {
    pub(crate) tokens: &'t [Token<'a>],
    pub(crate) nodes: usize,
    // They are the whole of a type.
    ghost spelled: { IsTrue (is_whole (type_front (words tokens.now))) },
    // It has so many nodes, as far as a `usize` counts them.
    ghost counted: { nodes ≡ held (type_nodes (type_in (words tokens.now))) },
}

impl SpelledType<'_, '_> {
    ghost use Rattle.std.specs.Prelude.{◌≤◌, ◌↔◌, false, length, take, IfOk, OnOk, OnErr};
    ghost use Rattle.cls_base.specs.Schemas.{schema_of};
    ghost use Rattle.cls_base.specs.Ty.{type_of};
    ghost use Rattle.cls_syntax.specs.ClosedTypes.{HasNoDollar, Spells};
    ghost use Rattle.cls_syntax.specs.MeasuredTypes.{measured_type};
    ghost use Rattle.cls_syntax.specs.TypePrinting.{HasNamesBelow};
    ghost use Rattle.cls_syntax.specs.Spans.{omega_text};
    ghost use Rattle.cls_lexer.specs.Names.{number_of};
    ghost use Rattle.cls_syntax.specs.TypeSchemas.{type_schema, with_constructors, with_variables};
    ghost use Rattle.cls_syntax.specs.SpelledTypes.{type_text, words_in};

    /// Whether the type has no more than [`MAX_TYPE_NODES`] nodes.
    pub fn is_small(&self) -> bool
        ensures { IsTrue result ↔ (type_nodes (type_text self.now) ≤ max_type_nodes) }
    {
        self.nodes as u64 <= MAX_TYPE_NODES
    }

    /// Whether the type is `omega` alone, without parentheses.
    pub fn is_omega(&self) -> bool
        ensures { IsTrue result ↔ (type_text self.now ≡ omega_text) }
    {
        self.tokens.len() == 1 && begins_reserved(self.tokens)
    }

    /// The schema that the tokens spell. Its names are numbered in the order of their tokens, constructors and variables in
    /// tables of their own. The only error is out of memory, and leaves the tables as
    /// before.
    pub fn schema(
        &self,
        alloc: Global,
        constructors: &mut Names,
        variables: &mut Names,
    ) -> Result<Schema, OutOfMemory>
        ensures schema { IfOk result (λ s. schema_of s
            ≡ type_schema (number_of constructors.new) (number_of variables.new) (type_text self.now)) }
        ensures constructors { OnOk result
            (constructors.new ≡ with_constructors constructors.old (words_in self.now)) }
        ensures variables { OnOk result (variables.new ≡ with_variables variables.old (words_in self.now)) }
        ensures constructors_stay { OnErr result (constructors.new ≡ constructors.old) }
        ensures variables_stay { OnErr result (variables.new ≡ variables.old) }
    {
        let constructor_count = constructors.len();
        let variable_count = variables.len();
        let made = self.numbered_schema(alloc, constructors, variables);
        if made.is_err() {
            constructors.cut(constructor_count);
            variables.cut(variable_count);
        }
        made
    }

    /// The same, but an error may leave more in the tables.
    #[tactic(auto, using(crate::proofs::TypeSpans::spelled_words, crate::proofs::SchemaImages::schema_is))]
    fn numbered_schema(
        &self,
        alloc: Global,
        constructors: &mut Names,
        variables: &mut Names,
    ) -> Result<Schema, OutOfMemory>
        ensures schema { IfOk result (λ s. schema_of s
            ≡ type_schema (number_of constructors.new) (number_of variables.new) (type_text self.now)) }
        ensures constructors { OnOk result
            (constructors.new ≡ with_constructors constructors.old (words_in self.now)) }
        ensures variables { OnOk result (variables.new ≡ with_variables variables.old (words_in self.now)) }
        ensures kept { take (length constructors.old) constructors.new ≡ constructors.old }
        ensures variables_kept { take (length variables.old) variables.new ≡ variables.old }
    {
        match build(alloc, constructors, variables, self.tokens)? {
            Some(schema) => Ok(schema),
            None => unreachable!(),
        }
    }

    /// The type that the tokens spell, which has no variable, with its measures. Its names are numbered in the order of
    /// their tokens. The only error is out of memory, and leaves the table as before.
    #[tactic(auto, using(crate::proofs::TypeSpans::spelled_words))]
    pub fn measured_ty(
        &self,
        alloc: Global,
        constructors: &mut Names,
    ) -> Result<MeasuredTy, OutOfMemory>
        requires { HasNoDollar (words_in self.now) }
        ensures ty { IfOk result (λ ty. Spells (number_of constructors.new) (type_text self.now) (measured_type ty)) }
        ensures held { IfOk result (λ ty. HasNamesBelow (length constructors.new) (measured_type ty)) }
        ensures constructors { OnOk result
            (constructors.new ≡ with_constructors constructors.old (words_in self.now)) }
        ensures constructors_stay { OnErr result (constructors.new ≡ constructors.old) }
    {
        let count = constructors.len();
        let made = measured_closed_type(alloc, constructors, self.tokens);
        if made.is_err() {
            constructors.cut(count);
        }
        made
    }

    /// The type that the tokens spell, which has no variable. Its names are numbered in the order of their tokens. The only
    /// error is out of memory, and leaves the table as before.
    pub fn ty(&self, alloc: Global, constructors: &mut Names) -> Result<Ty, OutOfMemory>
        requires { HasNoDollar (words_in self.now) }
        ensures ty { IfOk result (λ ty. Spells (number_of constructors.new) (type_text self.now) (type_of ty)) }
        ensures held { IfOk result (λ ty. HasNamesBelow (length constructors.new) (type_of ty)) }
        ensures constructors { OnOk result
            (constructors.new ≡ with_constructors constructors.old (words_in self.now)) }
        ensures constructors_stay { OnErr result (constructors.new ≡ constructors.old) }
    {
        Ok(self.measured_ty(alloc, constructors)?.into_ty())
    }
}
