ghost use Rattle.std.specs.Prelude.{◌≡◌, ◌<◌, [], IfErr, OnErr, OnOk, length};
ghost use Rattle.indexmap.specs.IndexSet.{insert_all};
ghost use Rattle.cls_base.specs.Schemas.{schema_of};
ghost use Rattle.cls_core.specs.Closure.{goals_of};
ghost use Rattle.cls_expand.specs.Memos.{FitMemo, HasGoalsOf};
ghost use Rattle.cls_library.specs.Refusals.{Adds, Refuses};

use crate::known::Known;
use crate::reading::answer_by;
use crate::slots::{make_room, remove_slot, slots_of};
use crate::updates::{Update, put_parts};
use cls_base::{OutOfMemory, Schema};
use cls_core::{Answer, Rows};
use cls_expand::{Expander, Memo};
use cls_kind::Kinds;
use cls_library::{Library, LibraryFault, LibraryKind};
use cls_path::Nf;
use indexmap::IndexSet;
use std::alloc::Global;
use std::marker::Model;
use std::snapshot::Snapshot;

/// Goals of a library, and what its components make for them. It is seen as the goals with an entry for each component.
#[derive(Drop)]
pub struct Parts {
    library: Snapshot<Library>,
    // The number of components.
    count: u32,
    // The slots of the components, in order. Without goals they say nothing.
    live: Vec<u32>,
    // The slot of the next component that is added, above all that there were since the goals were kept first.
    next: u32,
    goals: IndexSet<Nf>,
    // What is known of each goal.
    known: Vec<Known>,
}

impl Model for Parts {
    ghost use Rattle.std.specs.Coded.{codes};
    ghost use Rattle.cls_path.specs.Stored.{coded_path};
    ghost use Rattle.cls_library.specs.Stored.{coded_library};
    ghost use Rattle.cls_live.specs.Parts.{PartsSeen};
    ghost use Rattle.cls_live.specs.Slots.{IsStored, seen};

    ghost Value = { PartsSeen };

    ghost coded = { Prim.hlevel (codes, coded_library, coded_path) };

    ghost view = { λ p. seen p.library.value p.live.items p.goals.keys p.known.items };

    ghost invariant = { λ p. IsStored p.library.value p.live.items p.next p.count p.goals.keys p.known.items };
}

impl Parts {
    ghost use Rattle.cls_live.specs.Parts.{AreParts, with_component, without_component};

    /// Nothing known of no goal, for the library. It takes no memory.
    pub fn new(alloc: Global, library: &Library) -> Parts
        ensures library { result.library ≡ library.now }
        ensures goals { result.goals ≡ [] }
    {
        Parts {
            library: Snapshot::of(library),
            count: library.count(),
            live: Vec::new(alloc),
            next: 0,
            goals: IndexSet::new(alloc),
            known: Vec::new(alloc),
        }
    }

    /// The number of goals. It takes no memory.
    pub fn count(&self) -> u32
        ensures { result ≡ length self.now.goals }
    {
        self.goals.len() as u32
    }

    /// Does nothing, and says what holds of the entries: those that are known are what the components make.
    pub fn facts(&self)
        ensures { AreParts self.now }
    {
        // For the prover: opens the model.
        let _ = &self.known;
    }

    /// Puts the component of the schema last in the library. Nothing is known of it, and all that was known stays. After a
    /// fault the library and the entries are as before.
    pub fn add_component(
        &mut self,
        alloc: Global,
        library: &mut Library,
        schema: &Schema,
        kinds: &Kinds,
    ) -> Result<(), LibraryFault>
        requires { self.old.library ≡ library.old }
        ensures added { OnOk result
            (Adds library.old.taxonomy kinds.now (schema_of schema.now) library.old library.new) }
        ensures entries { OnOk result (self.new ≡ with_component self.old library.new) }
        ensures number { IfErr result (λ fault. fault.component ≡ length library.old.components) }
        ensures refused { IfErr result (λ fault. Refuses library.old kinds.now (schema_of schema.now) fault.kind) }
        ensures unchanged { OnErr result (library.new ≡ library.old) }
        ensures kept { OnErr result (self.new ≡ self.old) }
    {
        let component = library.count();
        library.add(alloc, schema, kinds)?;
        let Ok(()) = make_room(&mut self.live, self.next) else {
            library.remove(component);
            return Err(LibraryFault {
                component,
                kind: LibraryKind::OutOfMemory,
            });
        };
        self.live.push_reserved(self.next);
        self.next += 1;
        self.count = library.count();
        self.library = Snapshot::of(library);
        Ok(())
    }

    /// Takes a component out of the library, and its entries. The other entries stay. It takes no memory.
    pub fn drop_component(&mut self, library: &mut Library, x: u32)
        requires library { self.old.library ≡ library.old }
        requires declared { x < length library.old.components }
        ensures entries { self.new ≡ without_component self.old x }
        ensures library { library.new ≡ self.new.library }
    {
        library.remove(x);
        remove_slot(&mut self.live, x);
        self.count = library.count();
        self.library = Snapshot::of(library);
    }
}

impl Parts {
    ghost use Rattle.cls_live.specs.Parts.{AreAnswered, HasGoalsWith, HasRoomFor, KnowsRows, StaysKnown, same};

    /// Knows the rows alone from then on.
    fn begin(&mut self, alloc: Global, rows: &Rows<Nf>) -> Result<(), OutOfMemory>
        requires answered { AreAnswered self.old.library rows.now }
        requires fit { FitMemo rows.now }
        ensures library { self.new.library ≡ self.old.library }
        ensures goals { OnOk result (self.new.goals ≡ insert_all same [] (goals_of rows.now)) }
        ensures known { OnOk result (KnowsRows self.new rows.now) }
        ensures err { OnErr result (self.new ≡ self.old) }
    {
        let live = slots_of(alloc, self.count)?;
        let none = IndexSet::new(alloc);
        let update = Update::of(alloc, live.as_slice(), self.count, &none, &[], rows)?;
        let Update {
            goals,
            mut blanks,
            parts,
        } = update;
        put_parts(&mut blanks, parts);
        self.live = live;
        self.next = self.count;
        self.goals = goals;
        self.known = blanks;
        Ok(())
    }

    /// Makes the entries of the rows known, but for rows that are wide. What was known stays, unless there is no room for
    /// both: then it goes first. The only error is out of memory, which leaves all as it was.
    pub fn keep(&mut self, alloc: Global, rows: &Rows<Nf>) -> Result<(), OutOfMemory>
        requires answered { AreAnswered self.old.library rows.now }
        requires fit { FitMemo rows.now }
        ensures library { self.new.library ≡ self.old.library }
        ensures held { OnOk result (HasGoalsOf rows.now self.new.goals) }
        ensures goals { OnOk result (HasGoalsWith self.old rows.now self.new) }
        ensures known { OnOk result (KnowsRows self.new rows.now) }
        ensures stays { OnOk result (HasRoomFor self.old rows.now → StaysKnown self.old self.new) }
        ensures err { OnErr result (self.new ≡ self.old) }
    {
        if self.goals.is_empty() {
            return self.begin(alloc, rows);
        }
        let update = Update::of(
            alloc,
            self.live.as_slice(),
            self.next,
            &self.goals,
            self.known.as_slice(),
            rows,
        )?;
        if !update.fits(&self.goals, self.known.as_slice()) {
            return self.begin(alloc, rows);
        }
        let Update {
            mut goals,
            mut blanks,
            parts,
        } = update;
        let count = self.known.len();
        self.known.append(&mut blanks)?;
        let Ok(()) = self.goals.append(&mut goals) else {
            self.known.truncate(count);
            return Err(OutOfMemory);
        };
        put_parts(&mut self.known, parts);
        Ok(())
    }
}

impl<'a> Memo<Expander<'a>> for Parts {
    ghost use Rattle.std.specs.Prelude.{Contains};

    ghost tag = { λ p. p.library };

    ghost holds = { λ p goal. Contains p.goals goal };

    fn answer(
        &self,
        alloc: Global,
        by: &Expander<'a>,
        goal: &Nf,
    ) -> Result<Option<Answer<Nf>>, OutOfMemory> {
        let Some(place) = self.goals.get_index_of(goal) else {
            return Ok(None);
        };
        let live = self.live.as_slice();
        let answer = answer_by(
            alloc,
            by,
            live,
            self.goals.as_slice(),
            &self.known[place],
            goal,
        )?;
        Ok(Some(answer))
    }
}
