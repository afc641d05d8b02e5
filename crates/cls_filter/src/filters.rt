ghost use Rattle.std.specs.Prelude.{◌≡◌, ◌<◌, length, map, slice_index_or, slice_set};
ghost use Rattle.cls_filter.specs.Lines.{no_lines, without_leaf};

use crate::filter::Filter;
use std::marker::Model;

/// A list of filters by number. It is made from a `Vec`, which takes no memory.
#[derive(Drop)]
pub struct Filters {
    items: Vec<Filter>,
}

impl Model for Filters {
    ghost use Rattle.std.specs.Prelude.{List};
    ghost use Rattle.cls_filter.specs.Automata.{Automaton};

    ghost Value = { List Automaton };

    ghost view = { λ f. f.items.items };
}

impl Filters {
    /// The list of these filters.
    pub fn from_vec(filters: Vec<Filter>) -> Filters
        ensures { result ≡ filters.items }
    {
        Filters { items: filters }
    }

    /// The filter of the number.
    pub fn filter(&self, number: u32) -> &Filter
        requires { number < length self.now }
        ensures { result.now ≡ slice_index_or self.now number no_lines }
    {
        &self.items[number as usize]
    }

    /// Takes a component out of each filter: its lines go, and greater numbers are one less. It takes no memory.
    pub fn remove(&mut self, component: u32)
        ensures { self.new ≡ map (λ a. without_leaf a component) self.old }
    {
        remove_from_each(&mut self.items, component);
    }
}

/// Takes the component out of each filter.
fn remove_from_each(filters: &mut Vec<Filter>, component: u32)
    ensures { filters.new.items ≡ map (λ a. without_leaf a component) filters.old.items }
{
    for number in 0..filters.len() {
        remove_from(filters, number, component);
    }
}

/// Takes the component out of the filter of the number.
fn remove_from(filters: &mut Vec<Filter>, number: usize, component: u32)
    requires { number < length filters.old.items }
    ensures { filters.new.items ≡ slice_set filters.old.items number
        (without_leaf (slice_index_or filters.old.items number no_lines) component) }
{
    filters[number].remove(component);
}
