//! What the lines of a repository have declared so far. Each call puts one declaration in, or is out of memory and
//! leaves all as before.
ghost use Rattle.std.specs.Prelude.{◌≡◌, length};
ghost use Rattle.cls_base.specs.Taxa.{variance_of};
ghost use Rattle.cls_repo.specs.Declarations.{variance_named};

use crate::directive::Directive;
use crate::draft_filter::DraftFilter;
use crate::fault::FaultKind;
use crate::numbering::{number_both, number_name};
use cls_assemble::Template;
use cls_base::{Name, OutOfMemory, Schema, Variance};
use cls_kind::{Choices, Kinds};
use cls_lexer::Names;
use cls_syntax::{SpelledType, SpelledTypes};
use indexmap::IndexMap;
use std::alloc::Global;

/// What is declared of a component beside its name.
#[derive(Drop)]
pub(crate) struct Component {
    /// Its type.
    pub(crate) schema: Schema,
    /// The number of the line that declares it.
    pub(crate) line: u32,
    /// What stands for it in texts.
    pub(crate) template: Template,
    /// Its cost.
    pub(crate) cost: u32,
}

/// What the lines of a repository have declared so far. It is seen as `draft_of` says.
#[derive(Drop)]
pub(crate) struct Draft {
    /// The constructors.
    pub(crate) names: Names,
    /// The variables.
    pub(crate) variables: Names,
    /// The names of the components.
    pub(crate) component_names: Names,
    /// The components by number.
    pub(crate) components: Vec<Component>,
    /// Pairs of constructors, the first below the second.
    pub(crate) pairs: Vec<(Name, Name)>,
    /// The variance of each constructor that has one.
    pub(crate) variances: IndexMap<u32, Variance>,
    /// The kind of each variable that has one.
    pub(crate) kinds: Kinds,
    /// The names of the filters.
    pub(crate) filter_names: Names,
    /// The filters by number.
    pub(crate) filters: Vec<DraftFilter>,
    // There is one component for each name.
    ghost counted: { length components.items ≡ length component_names },
    // There is one filter for each name.
    ghost filtered: { length filters.items ≡ length filter_names },
}

impl Draft {
    ghost use Rattle.std.specs.Prelude.{ℕ, ◌<◌, ◌↔◌, List, [], map, take, Some, slice_get, Contains, IsTrue, IfErr, OnOk, OnErr};
    ghost use Rattle.cls_kind.specs.Kinds.{kind_of};
    ghost use Rattle.cls_lexer.specs.declared.token.TokenKind.TheVariants.{Bar};
    ghost use Rattle.cls_lexer.specs.Names.{number_of};
    ghost use Rattle.cls_syntax.specs.ClosedTypes.{HasNoDollar};
    ghost use Rattle.cls_syntax.specs.SpelledTypes.{type_text, types_text};
    ghost use Rattle.cls_syntax.specs.TypeLists.{types_words};
    ghost use Rattle.cls_repo.specs.Drafts.{no_draft};
    ghost use Rattle.cls_repo.specs.Declarations.{with_names, with_pair, with_component, with_template, with_cost, with_variance, filter_of};
    ghost use Rattle.cls_repo.specs.Directives.{sub, comp, variance};
    ghost use Rattle.cls_repo.specs.FaultWords.{OnWords};
    ghost use Rattle.cls_repo.specs.LineFaults.{too_many_states};
    ghost use Rattle.cls_repo.specs.Written.{directive_of, draft_of, PutsKind, IsBesideTables, is_full, TakesFilter, TakesFilterLine};

    /// The draft of no lines. It takes no memory.
    pub(crate) fn new(alloc: Global) -> Draft
        ensures { draft_of result ≡ no_draft }
    {
        Draft {
            names: Names::new(alloc),
            variables: Names::new(alloc),
            component_names: Names::new(alloc),
            components: Vec::new(alloc),
            pairs: Vec::new(alloc),
            variances: IndexMap::new(alloc),
            kinds: Kinds::new(alloc),
            filter_names: Names::new(alloc),
            filters: Vec::new(alloc),
        }
    }

    /// Puts the first constructor below the second.
    pub(crate) fn put_pair(
        &mut self,
        alloc: Global,
        lower: &str,
        upper: &str,
    ) -> Result<(), OutOfMemory>
        ensures put { let said = sub lower.now upper.now in
            OnOk result (draft_of self.new ≡ with_pair (with_names (draft_of self.old) said) lower.now upper.now) }
        ensures unchanged { OnErr result (draft_of self.new ≡ draft_of self.old) }
    {
        self.pairs.reserve(1)?;
        let pair = number_both(alloc, &mut self.names, lower, upper)?;
        self.pairs.push_reserved(pair);
        Ok(())
    }

    /// Whether the constructor has a variance.
    pub(crate) fn has_variance(&self, constructor: &str) -> bool
        ensures { IsTrue result
            ↔ Contains (map (λ v. v.0) (draft_of self.now).variances) (number_of self.now.names constructor.now) }
    {
        self.variances
            .contains_key(&self.names.number(constructor).0)
    }

    /// Gives a constructor that has none its variance.
    pub(crate) fn put_variance(
        &mut self,
        alloc: Global,
        constructor: &str,
        word: &str,
    ) -> Result<(), OutOfMemory>
        requires { Contains
            (map (λ v. v.0) (draft_of self.old).variances) (number_of self.old.names constructor.now) → ⊥ }
        ensures put { let named = with_names (draft_of self.old) (variance constructor.now word.now) in
            OnOk result (draft_of self.new ≡ with_variance named constructor.now word.now) }
        ensures unchanged { OnErr result (draft_of self.new ≡ draft_of self.old) }
    {
        let count = self.names.len();
        let name = number_name(alloc, &mut self.names, constructor)?;
        match self.variances.insert(name.0, variance_named(word)) {
            Ok(_) => Ok(()),
            Err(_) => {
                self.names.cut(count);
                Err(OutOfMemory)
            }
        }
    }

    /// Declares a component that isn't declared, at the line of this number. Its template is its name, and its cost is
    /// 1.
    pub(crate) fn put_component(
        &mut self,
        alloc: Global,
        line: u32,
        component: &str,
        spelled: SpelledType,
    ) -> Result<(), OutOfMemory>
        requires { Contains self.old.component_names component.now → ⊥ }
        ensures put { let t = type_text spelled.entry in
            let named = with_names (draft_of self.old) (comp component.now t) in
            OnOk result (draft_of self.new ≡ with_component named line component.now t) }
        ensures unchanged { OnErr result (draft_of self.new ≡ draft_of self.old) }
    {
        let template = Template::of_name(alloc, component)?;
        self.components.reserve(1)?;
        let count = self.component_names.len();
        number_name(alloc, &mut self.component_names, component)?;
        match spelled.schema(alloc, &mut self.names, &mut self.variables) {
            Ok(schema) => {
                self.components.push_reserved(Component {
                    schema,
                    line,
                    template,
                    cost: 1,
                });
                Ok(())
            }
            Err(error) => {
                self.component_names.cut(count);
                Err(error)
            }
        }
    }

    /// Gives the types that are spelled as its kind to a variable that has none.
    pub(crate) fn put_kind(
        &mut self,
        alloc: Global,
        variable: &str,
        spelled: &SpelledTypes,
    ) -> Result<(), OutOfMemory>
        requires has_none { kind_of self.old.kinds (number_of self.old.variables variable.now) ≡ [] }
        requires closed { HasNoDollar (types_words Bar (types_text spelled.now)) }
        ensures put { OnOk result (PutsKind self.old variable.now (types_text spelled.now) self.new) }
        ensures unchanged { OnErr result (draft_of self.new ≡ draft_of self.old) }
    {
        let count = self.names.len();
        let variable_count = self.variables.len();
        let made = self.push_kind(alloc, variable, spelled);
        if made.is_err() {
            self.names.cut(count);
            self.variables.cut(variable_count);
        }
        made
    }

    /// The same, but an error may leave more in the tables.
    fn push_kind(
        &mut self,
        alloc: Global,
        variable: &str,
        spelled: &SpelledTypes,
    ) -> Result<(), OutOfMemory>
        requires has_none { kind_of self.old.kinds (number_of self.old.variables variable.now) ≡ [] }
        requires closed { HasNoDollar (types_words Bar (types_text spelled.now)) }
        ensures put { OnOk result (PutsKind self.old variable.now (types_text spelled.now) self.new) }
        ensures kept { take (length self.old.names) self.new.names ≡ self.old.names }
        ensures variables_kept { take (length self.old.variables) self.new.variables ≡ self.old.variables }
        ensures unchanged { OnErr result (IsBesideTables self.old self.new) }
    {
        let choices = Choices::new(spelled.types(alloc, &mut self.names)?);
        let name = number_name(alloc, &mut self.variables, variable)?;
        self.kinds.add(name, choices)?;
        Ok(())
    }

    /// Gives the component another template.
    pub(crate) fn set_template(&mut self, component: Name, template: Template)
        requires { component.0 < length self.old.component_names }
        ensures { (x : List ℕ) → component.0 ≡ number_of self.old.component_names x
            → draft_of self.new ≡ with_template (draft_of self.old) x template }
    {
        let component = &mut self.components[component.0 as usize];
        component.template = template;
    }

    /// Gives the component another cost.
    pub(crate) fn set_cost(&mut self, component: Name, cost: u32)
        requires { component.0 < length self.old.component_names }
        ensures { (x : List ℕ) → component.0 ≡ number_of self.old.component_names x
            → draft_of self.new ≡ with_cost (draft_of self.old) x cost }
    {
        let component = &mut self.components[component.0 as usize];
        component.cost = cost;
    }

    /// Whether the component is declared.
    pub(crate) fn has_component(&self, component: &str) -> bool
        ensures { IsTrue result ↔ Contains self.now.component_names component.now }
    {
        self.component_names.find(component).is_some()
    }

    /// Whether the filter is declared.
    pub(crate) fn has_filter(&self, filter: &str) -> bool
        ensures { IsTrue result ↔ Contains self.now.filter_names filter.now }
    {
        self.filter_names.find(filter).is_some()
    }

    /// Declares a filter that isn't declared, by its line. The fault is `TooManyStates` or out of memory.
    pub(crate) fn put_filter(
        &mut self,
        alloc: Global,
        filter: &str,
        said: Directive,
    ) -> Result<(), FaultKind>
        requires { Contains self.old.filter_names filter.now → ⊥ }
        ensures put { OnOk result
            (TakesFilter (draft_of self.old) (directive_of said.entry) filter.now (draft_of self.new)) }
        ensures fault { IfErr result (OnWords (is_full [] (directive_of said.entry) filter.now)) }
        ensures unchanged { OnErr result (draft_of self.new ≡ draft_of self.old) }
    {
        let mut made = DraftFilter::new(alloc);
        made.take_line(alloc, &self.component_names, filter, said)?;
        self.filters.reserve(1)?;
        number_name(alloc, &mut self.filter_names, filter)?;
        self.filters.push_reserved(made);
        Ok(())
    }

    /// Takes a line of the filter, which has this name. The fault is `TooManyStates` or out of memory.
    pub(crate) fn put_filter_line(
        &mut self,
        alloc: Global,
        number: Name,
        filter: &str,
        said: Directive,
    ) -> Result<(), FaultKind>
        requires stands { slice_get self.old.filter_names number.0 ≡ Some filter.now }
        requires numbered { number.0 ≡ number_of self.old.filter_names filter.now }
        requires own { filter_of (directive_of said) ≡ Some filter.now }
        ensures put { OnOk result
            (TakesFilterLine (draft_of self.old) (directive_of said.entry) filter.now (draft_of self.new)) }
        ensures fault { IfErr result (OnWords (too_many_states (draft_of self.old) (directive_of said.entry))) }
        ensures unchanged { OnErr result (draft_of self.new ≡ draft_of self.old) }
    {
        let own = &mut self.filters[number.0 as usize];
        own.take_line(alloc, &self.component_names, filter, said)
    }
}

/// The variance that the word `contra` or `inv` names.
fn variance_named(word: &str) -> Variance
    ensures { variance_of result ≡ variance_named word.now }
{
    if word == "contra" {
        Variance::Contra
    } else {
        Variance::Inv
    }
}
