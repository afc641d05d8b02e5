//! A filter of a draft. Each call takes one line, or leaves all as before.
ghost use Rattle.std.specs.Prelude.{◌≡◌, ◌<◌, ◌≤◌, ◌↔◌, IsTrue, length, take, IfErr, OnOk, OnErr};
ghost use Rattle.cls_base.specs.Limits.{max_states};
ghost use Rattle.cls_repo.specs.Declarations.{no_filter, with_own_line};
ghost use Rattle.cls_repo.specs.FaultWords.{OnWords};
ghost use Rattle.cls_repo.specs.Written.{directive_of, filter_seen, is_full};

use crate::directive::Directive;
use crate::fault::FaultKind;
use crate::states::{name_states, put_line};
use cls_base::limits::MAX_STATES;
use cls_filter::Filter;
use cls_lexer::Names;
use std::alloc::Global;

/// A filter, and the names of its states. It is seen as `filter_seen` says.
#[derive(Drop)]
pub(crate) struct DraftFilter {
    /// Its states, numbered by first occurrence in its lines.
    pub(crate) states: Names,
    /// What its lines say.
    pub(crate) filter: Filter,
}

impl DraftFilter {
    /// The filter of no lines. It takes no memory.
    pub(crate) fn new(alloc: Global) -> DraftFilter
        ensures { filter_seen result ≡ no_filter }
    {
        DraftFilter {
            states: Names::new(alloc),
            filter: Filter::new(alloc),
        }
    }

    /// Takes a line of the filter, which has this name. The fault is `TooManyStates` or out of memory.
    pub(crate) fn take_line(
        &mut self,
        alloc: Global,
        components: &Names,
        name: &str,
        said: Directive,
    ) -> Result<(), FaultKind>
        ensures taken { let says = directive_of said.entry in
            OnOk result (filter_seen self.new ≡ with_own_line components.now says (filter_seen self.old)) }
        ensures few { OnOk result (length self.new.states ≤ max_states) }
        ensures fault { IfErr result (OnWords (is_full self.old.states (directive_of said.entry) name.now)) }
        ensures unchanged { OnErr result (filter_seen self.new ≡ filter_seen self.old) }
    {
        let count = self.states.len();
        let taken = self.try_line(alloc, components, name, said);
        if taken.is_err() {
            self.states.cut(count);
        }
        taken
    }

    /// The same, but after a fault there may be more states.
    fn try_line(
        &mut self,
        alloc: Global,
        components: &Names,
        name: &str,
        said: Directive,
    ) -> Result<(), FaultKind>
        ensures taken { let says = directive_of said.entry in
            OnOk result (filter_seen self.new ≡ with_own_line components.now says (filter_seen self.old)) }
        ensures few { OnOk result (length self.new.states ≤ max_states) }
        ensures fault { IfErr result (OnWords (is_full self.old.states (directive_of said.entry) name.now)) }
        ensures kept { take (length self.old.states) self.new.states ≡ self.old.states }
        ensures same { OnErr result (self.new.filter ≡ self.old.filter) }
    {
        name_states(alloc, &mut self.states, said)?;
        if self.is_crowded() {
            return Err(FaultKind::TooManyStates(String::from_str(alloc, name)?));
        }
        put_line(&mut self.filter, components, &self.states, said)?;
        Ok(())
    }

    /// Whether there are more states than are allowed.
    fn is_crowded(&self) -> bool
        ensures { IsTrue result ↔ (max_states < length self.now.states) }
    {
        self.states.len() > MAX_STATES
    }
}
