//! A path of a goal, and the arrows that lead to it: its next place, and its family there. If arrows of one ending alone may lead to
//! it, they are looked up in the index of the library and gone over from the place where the last search ended; else the flags of
//! components say which places are passed over.
ghost use Rattle.std.specs.Prelude.{◌≡◌, ◌↔◌, ◌<◌, ◌≤◌, IsTrue, OnOk, length};
ghost use Rattle.cls_path.specs.Paths.{Suits};
ghost use Rattle.cls_taxon.specs.Orders.{class_by};
ghost use Rattle.cls_library.specs.Endings.{ending_of, is_alone};
ghost use Rattle.cls_library.specs.Families.{IsPlace};
ghost use Rattle.cls_library.specs.Index.{AreInOrder, EndsIn, IsEntry};
ghost use Rattle.cls_library.specs.Leads.{AreBefore, AreSoughtEntries, EndAlike, IsEntryAt, IsFirstFrom, IsIdle, IsLead, IsNextFor, IsNextWithin, Leads, PutsFamily};
ghost use Rattle.cls_library.specs.Libraries.{IsLibrary, variances_in};

use crate::ending::is_bare;
use crate::index::Entry;
use crate::library::Library;
use crate::place::Place;
use crate::sought::Sought;
use cls_base::OutOfMemory;
use cls_path::Path;
use std::alloc::Global;

/// A path of a goal and what is sought for it. If arrows of one ending alone may lead to it, and the library has an index, these
/// arrows.
#[derive(Drop)]
pub(crate) struct Lead<'a> {
    pub path: &'a Path,
    pub sought: Sought,
    pub entries: Option<&'a [Entry]>,
    /// The number of the entry at which the next search begins. It saves time, and no answer rests on it.
    pub hint: usize,
}

impl<'a> Lead<'a> {
    /// What is sought for the path.
    pub fn new(lib: &'a Library, path: &'a Path) -> Lead<'a>
        ensures path { result.path.now ≡ path.entry.now }
        ensures lead { IsLead lib.entry.now result }
    {
        let sought = Sought::of(lib.taxonomy(), path);
        Lead {
            path,
            sought,
            entries: entries_of(lib, sought),
            hint: 0,
        }
    }

    /// Whether it has the arrows that may lead to the path, and there is none.
    pub fn is_idle(&self) -> bool
        ensures { IsTrue result ↔ IsIdle self.now }
    {
        match self.entries {
            Some(entries) => entries.is_empty(),
            None => false,
        }
    }

    /// The first place from this one on where an arrow may lead to the path.
    pub fn next(&mut self, lib: &Library, from: Place) -> Option<Place>
        requires { IsLead lib.now self.old }
        ensures next { IsNextFor lib.now self.old.sought from result }
        ensures same { self.new ≡ record self.old { hint = self.new.hint } }
    {
        match self.entries {
            Some(entries) => {
                self.hint = first_from(entries, self.hint, from);
                Some(entries.get(self.hint)?.place)
            }
            None => next_by_flags(lib, self.sought, from),
        }
    }

    /// Puts the positions of the arrows at the place that lead to the path behind the others.
    pub fn put_family(
        &mut self,
        alloc: Global,
        lib: &Library,
        place: Place,
        positions: &mut Vec<u32>,
    ) -> Result<(), OutOfMemory>
        requires lead { IsLead lib.now self.old }
        requires place { IsPlace lib.now place }
        requires suits { Suits (variances_in lib.now.taxonomy) self.old.path.now }
        ensures family { OnOk result
            (PutsFamily lib.now self.old.path.now place positions.old.items positions.new.items) }
        ensures same { self.new ≡ record self.old { hint = self.new.hint } }
    {
        let Some(entries) = self.entries else {
            return put_whole(alloc, lib, self.path, place, positions);
        };
        match entry_at(entries, &mut self.hint, place) {
            Some(entry) => put_entry(alloc, lib, self.path, entry, positions),
            None => Ok(()),
        }
    }
}

/// The arrows that may lead to what is sought, if these are of one ending alone and the library has an index.
fn entries_of<'a>(lib: &'a Library, sought: Sought) -> Option<&'a [Entry]>
    ensures { AreSoughtEntries lib.entry.now sought result }
{
    if !sought.alone {
        return None;
    }
    match lib.index_of() {
        Some(index) => Some(index.find(sought.ending)),
        None => None,
    }
}

/// Where the search for the first entry that isn't before the place begins: at the hint, if the entry in front of it is before
/// the place.
fn start_of(entries: &[Entry], hint: usize, place: Place) -> usize
    requires { AreInOrder entries.now }
    ensures before { AreBefore entries.now place result }
    ensures within { result ≤ length entries.now }
{
    if hint > 0 && hint <= entries.len() && entries[hint - 1].place.is_before(place) {
        return hint;
    }
    0
}

/// The first entry that isn't before the place.
fn first_from(entries: &[Entry], hint: usize, place: Place) -> usize
    requires { AreInOrder entries.now }
    ensures { IsFirstFrom entries.now place result }
{
    let mut at = start_of(entries, hint, place);
    while at < entries.len() && entries[at].place.is_before(place) {
        at += 1;
    }
    at
}

/// The entry of the place, if there is one. The hint is then the number of the entry behind it.
fn entry_at<'a>(entries: &'a [Entry], hint: &mut usize, place: Place) -> Option<&'a Entry>
    requires { AreInOrder entries.now }
    ensures { IsEntryAt entries.now place result }
{
    *hint = first_from(entries, *hint, place);
    let entry = entries.get(*hint)?;
    if entry.place != place {
        return None;
    }
    *hint += 1;
    Some(entry)
}

/// Puts the positions of those arrows at the entry's place that lead to the path behind the others.
fn put_entry(
    alloc: Global,
    lib: &Library,
    path: &Path,
    entry: &Entry,
    positions: &mut Vec<u32>,
) -> Result<(), OutOfMemory>
    requires suits { Suits (variances_in lib.now.taxonomy) path.now }
    requires entry { IsEntry (EndsIn lib.now.components (ending_of path.now)) entry.now }
    requires ends { EndAlike lib.now path.now entry.now.place }
    ensures { OnOk result
        (PutsFamily lib.now path.now entry.now.place positions.old.items positions.new.items) }
{
    match entry.only {
        Some(position) => {
            if leads(lib, path, entry.place, position) {
                positions.push(position)?;
            }
            Ok(())
        }
        None => put_whole(alloc, lib, path, entry.place, positions),
    }
}

/// The same for a place, without an entry.
fn put_whole(
    alloc: Global,
    lib: &Library,
    path: &Path,
    place: Place,
    positions: &mut Vec<u32>,
) -> Result<(), OutOfMemory>
    requires place { IsPlace lib.now place }
    requires suits { Suits (variances_in lib.now.taxonomy) path.now }
    ensures { OnOk result (PutsFamily lib.now path.now place positions.old.items positions.new.items) }
{
    let family = lib.family(alloc, place.component, place.count, path)?;
    positions.extend_from_slice(family.as_slice())?;
    Ok(())
}

/// Whether the arrow leads to the path. Its target has the path's ending.
fn leads(lib: &Library, path: &Path, place: Place, position: u32) -> bool
    requires ends { EndsIn lib.now.components (ending_of path.now) (record { place = place; position = position }) }
    requires suits { Suits (variances_in lib.now.taxonomy) path.now }
    ensures { IsTrue result ↔ Leads lib.now path.now (record { place = place; position = position }) }
{
    // Each path of its ending is below a bare path. So the arrow, which stands far off in memory, isn't looked at.
    if is_bare(path) {
        return true;
    }
    let arrows = lib.arrows(place.component, place.count);
    let arrow = arrows.get(position as usize);
    arrow.target().le(lib.taxonomy(), path)
}

/// The first place from this one on where by the flags of heads and of numbers of arrows an arrow may lead to what is sought.
fn next_by_flags(lib: &Library, sought: Sought, from: Place) -> Option<Place>
    requires { sought.alone ≡ is_alone (class_by lib.now.taxonomy.pairs) sought.ending.head }
    ensures { IsNextFor lib.now sought from result }
{
    let mut count = from.count;
    for component in from.component..lib.count() {
        if lib.may_lead(component, sought) {
            if let Some(place) = next_count(lib, sought, Place { component, count }) {
                return Some(place);
            }
        }
        count = 0;
    }
    None
}

/// The same within the place's component.
fn next_count(lib: &Library, sought: Sought, from: Place) -> Option<Place>
    requires declared { from.component < length lib.now.components }
    requires library { IsLibrary lib.now }
    requires alone { sought.alone ≡ is_alone (class_by lib.now.taxonomy.pairs) sought.ending.head }
    ensures { IsNextWithin lib.now sought from result }
{
    for count in from.count..lib.arity(from.component) + 1 {
        if lib.may_lead_by(from.component, count, sought) {
            return Some(Place {
                component: from.component,
                count,
            });
        }
    }
    None
}
