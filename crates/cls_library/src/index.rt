//! The arrows of a library by what their targets end in: an inverted index.
ghost use Rattle.std.specs.Prelude.{◌≡◌, ◌+◌, ◌<◌, ◌≤◌, IfOk, OnOk, length};
ghost use Rattle.cls_base.specs.Limits.{max_components};
ghost use Rattle.cls_library.specs.Arrows.{arity_of};
ghost use Rattle.cls_library.specs.Index.{AreNarrow, HasEntriesBefore, IsIndex, PutsArrow, PutsIf, entries_for, is_ending, paths_in, spot_at};

use crate::component::Component;
use crate::ending::Ending;
use crate::place::Place;
use cls_base::OutOfMemory;
use indexmap::IndexMap;
use std::alloc::Global;

/// A place with arrows whose targets have one ending. If there is one such arrow alone, its position among the arrows there.
#[derive(Clone, Copy, Debug, PartialEq, Eq)]
pub(crate) struct Entry {
    pub place: Place,
    pub only: Option<u32>,
}

/// For each ending the places of the arrows with such a target, in order.
#[derive(Drop)]
pub(crate) struct Index {
    lists: IndexMap<Ending, Vec<Entry>>,
}

impl Index {
    /// The arrows of the components.
    pub fn new(alloc: Global, components: &[Component]) -> Result<Index, OutOfMemory>
        requires few { length components.now ≤ max_components }
        requires narrow { AreNarrow components.now }
        ensures { IfOk result (IsIndex components.now) }
    {
        let mut index = Index {
            lists: IndexMap::new(alloc),
        };
        for x in 0..components.len() as u32 {
            index.put_component(alloc, components, x)?;
        }
        Ok(index)
    }

    /// Puts the arrows of a component behind those of earlier ones.
    fn put_component(
        &mut self,
        alloc: Global,
        components: &[Component],
        x: u32,
    ) -> Result<(), OutOfMemory>
        requires declared { x < length components.now }
        requires narrow { AreNarrow components.now }
        requires earlier { HasEntriesBefore components.now (spot_at x 0 0) self.old }
        ensures { OnOk result (HasEntriesBefore components.now (spot_at (x + 1) 0 0) self.new) }
    {
        let arity = components[x as usize].arity() as u32;
        for count in 0..arity + 1 {
            let place = Place {
                component: x,
                count,
            };
            self.put_place(alloc, components, place)?;
        }
        Ok(())
    }

    /// Puts the arrows of a place behind those of earlier ones.
    fn put_place(
        &mut self,
        alloc: Global,
        components: &[Component],
        place: Place,
    ) -> Result<(), OutOfMemory>
        requires declared { place.component < length components.now }
        requires within { place.count ≤ arity_of (paths_in components.now place.component) }
        requires earlier { HasEntriesBefore components.now (spot_at place.component place.count 0) self.old }
        ensures { OnOk result
            (HasEntriesBefore components.now (spot_at place.component (place.count + 1) 0) self.new) }
    {
        let arrows = components[place.component as usize].arrows(place.count as usize);
        for i in 0..arrows.len() {
            let ending = Ending::of(arrows.get(i).target());
            let Ok(position) = u32::try_from(i) else {
                return Err(OutOfMemory);
            };
            self.put(alloc, ending, place, position)?;
        }
        Ok(())
    }

    /// Puts an arrow of this ending last.
    fn put(
        &mut self,
        alloc: Global,
        ending: Ending,
        place: Place,
        position: u32,
    ) -> Result<(), OutOfMemory>
        ensures { OnOk result ((e : Ending) → PutsIf (is_ending ending e) place position
            (entries_for self.old e) (entries_for self.new e)) }
    {
        if let Some(entries) = self.lists.get_mut(&ending) {
            put_last(entries, place, position)?;
            return Ok(());
        }
        let mut entries = Vec::new(alloc);
        put_last(&mut entries, place, position)?;
        self.lists.insert(ending, entries)?;
        Ok(())
    }

    /// The places of the arrows whose targets have this ending, in order.
    pub fn find(&self, ending: Ending) -> &[Entry]
        ensures { result.now ≡ entries_for self.now ending }
    {
        match self.lists.get(&ending) {
            Some(entries) => entries.as_slice(),
            None => &[],
        }
    }
}

/// Puts an arrow behind those of its ending. One of the last place has an entry already, which isn't for one arrow alone then.
fn put_last(entries: &mut Vec<Entry>, place: Place, position: u32) -> Result<(), OutOfMemory>
    ensures { OnOk result (PutsArrow place position entries.old.items entries.new.items) }
{
    let count = entries.len();
    if count > 0 && entries[count - 1].place == place {
        entries[count - 1] = Entry { place, only: None };
        return Ok(());
    }
    entries.push(Entry {
        place,
        only: Some(position),
    })?;
    Ok(())
}
