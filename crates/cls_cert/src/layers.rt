//! What is left of a block while it is written: its layers hold the minimal covers of the first family of a goal, of the first
//! two, and so on.
ghost use Rattle.std.specs.Prelude.{◌≡◌, ◌+◌, ◌<◌, ◌≤◌, ◌++◌, ◌∷◌, [], All, IfOk, IfSome, OnOk, drop, length, string_bytes, take};
ghost use Rattle.std.specs.List.{flat_map};
ghost use Rattle.cls_base.specs.Limits.{max_covers};
ghost use Rattle.cls_cover.specs.Lists.{IsAscending};
ghost use Rattle.cls_cover.specs.Covers.{AreCovers, AreWithinLimit};
ghost use Rattle.cls_cover.specs.Forced.{IsForced};
ghost use Rattle.cls_cover.specs.Fronts.{HasCovers};
ghost use Rattle.cls_proof.specs.Texts.{layer_text, set_text};
ghost use Rattle.cls_cert.specs.Computed.{layers_from};
ghost use Rattle.cls_cert.specs.Left.{IsBlockLeft, block_left, sets_left};

use crate::forced::forced_with;
use crate::fronts::grown_with;
use cls_base::{NumberLists, Numbers, OutOfMemory};
use cls_cover::GrowingCovers;
use cls_proof::{Positions, write_set};
use std::alloc::Global;

/// What is left of a block: sets of a layer from a place on, and the layers of the fronts of the families that are longer than a
/// number.
#[derive(Drop)]
pub(crate) struct BlockLeft {
    pub families: Vec<Numbers>,
    pub front: usize,
    /// The only cover of that front, if each of its families has a single position.
    pub forced: Option<Positions>,
    /// Otherwise the covers of that front as they grow, once its layer is made.
    pub grown: Option<GrowingCovers>,
    pub sets: NumberLists,
    pub set: usize,
}

impl BlockLeft {
    /// All layers of these families. It takes no memory.
    pub fn new(alloc: Global, families: Vec<Numbers>) -> BlockLeft
        requires ascending { All IsAscending families.items }
        requires few { AreWithinLimit families.items max_covers }
        ensures text { block_left result ≡ flat_map layer_text (layers_from [] families.items) }
        ensures left { IsBlockLeft result }
    {
        let cover = Positions::new(alloc);
        let sets = NumberLists::new(alloc);
        BlockLeft {
            families,
            front: 0,
            forced: Some(cover),
            grown: None,
            sets,
            set: 0,
        }
    }

    /// Nothing is left. It takes no memory.
    pub fn none(alloc: Global) -> BlockLeft
        ensures text { block_left result ≡ [] }
        ensures left { IsBlockLeft result }
    {
        let families = Vec::new(alloc);
        BlockLeft::new(alloc, families)
    }

    /// Writes lines at the end until they are enough, or nothing is left.
    pub fn write_lines(
        &mut self,
        alloc: Global,
        enough: usize,
        text: &mut String,
    ) -> Result<(), OutOfMemory>
        requires { IsBlockLeft self.old }
        ensures left { OnOk result (IsBlockLeft self.new) }
        ensures lines { OnOk result (string_bytes text.new ++ block_left self.new
            ≡ string_bytes text.old ++ block_left self.old) }
        ensures full { OnOk result (length (string_bytes text.new) < enough → block_left self.new ≡ []) }
    {
        self.write_sets(enough, text)?;
        self.write_layers(alloc, enough, text)
    }

    /// Writes the layers that are left, until the text has enough bytes. Before them no set is left.
    fn write_layers(
        &mut self,
        alloc: Global,
        enough: usize,
        text: &mut String,
    ) -> Result<(), OutOfMemory>
        requires left { IsBlockLeft self.old }
        requires full { length (string_bytes text.old) < enough → sets_left self.old ≡ [] }
        ensures left { OnOk result (IsBlockLeft self.new) }
        ensures lines { OnOk result (string_bytes text.new ++ block_left self.new
            ≡ string_bytes text.old ++ block_left self.old) }
        ensures full { OnOk result (length (string_bytes text.new) < enough → block_left self.new ≡ []) }
    {
        for front in self.front..self.families.len() {
            let written = text.len();
            if written >= enough {
                return Ok(());
            }
            self.begin_layer(alloc, front, text)?;
            self.write_sets(enough, text)?;
        }
        Ok(())
    }

    /// Writes the sets that are left of a layer, until the text has enough bytes.
    fn write_sets(&mut self, enough: usize, text: &mut String) -> Result<(), OutOfMemory>
        requires { IsBlockLeft self.old }
        ensures left { OnOk result (IsBlockLeft self.new) }
        ensures lines { OnOk result (string_bytes text.new ++ sets_left self.new
            ≡ string_bytes text.old ++ sets_left self.old) }
        ensures full { OnOk result (length (string_bytes text.new) < enough → sets_left self.new ≡ []) }
        ensures same { self.new ≡ record self.old { set = self.new.set } }
    {
        let next = write_sets(&self.sets, self.set, enough, text)?;
        self.set = next;
        Ok(())
    }

    /// Writes the first line of the next layer, which is that of the front with one family more. Of the layer before no set is
    /// left.
    fn begin_layer(
        &mut self,
        alloc: Global,
        front: usize,
        text: &mut String,
    ) -> Result<(), OutOfMemory>
        requires left { IsBlockLeft self.old }
        requires none { sets_left self.old ≡ [] }
        requires front { self.old.front ≡ front }
        requires more { front < length self.old.families.items }
        ensures left { OnOk result (IsBlockLeft self.new) }
        ensures lines { OnOk result (string_bytes text.new ++ block_left self.new
            ≡ string_bytes text.old ++ block_left self.old) }
        ensures next { OnOk result (self.new.front ≡ front + 1) }
        ensures families { OnOk result (self.new.families.items ≡ self.old.families.items) }
    {
        let cover = self.forced.take();
        let grown = self.grown.take();
        let (sets, forced, covers) = next_layer(
            alloc,
            self.families.as_slice(),
            front,
            cover,
            grown,
        )?;
        text.push_str("layer\n")?;
        self.front = front + 1;
        self.forced = forced;
        self.grown = covers;
        self.sets = sets;
        self.set = 0;
        Ok(())
    }
}

/// Writes sets from a place on at the end, until the text has enough bytes. Gives the place of the first that isn't written.
fn write_sets(
    sets: &NumberLists,
    from: usize,
    enough: usize,
    text: &mut String,
) -> Result<usize, OutOfMemory>
    requires { from ≤ length sets.now }
    ensures within { IfOk result (λ next. next ≤ length sets.now) }
    ensures lines { IfOk result (λ next. string_bytes text.new ++ flat_map set_text (drop next sets.now)
        ≡ string_bytes text.old ++ flat_map set_text (drop from sets.now)) }
    ensures full { IfOk result (λ next. next < length sets.now → enough ≤ length (string_bytes text.new)) }
{
    let count = sets.len();
    for place in from..count {
        let written = text.len();
        if written >= enough {
            return Ok(place);
        }
        write_set(sets.get(place), text)?;
    }
    Ok(count)
}

/// The minimal covers of one family more than the front has, and what those of the next layer are made from: the only one if each
/// family has a single position, and otherwise all of them as they grow.
fn next_layer(
    alloc: Global,
    families: &[Numbers],
    front: usize,
    cover: Option<Positions>,
    grown: Option<GrowingCovers>,
) -> Result<(NumberLists, Option<Positions>, Option<GrowingCovers>), OutOfMemory>
    requires ascending { All IsAscending families.now }
    requires few { AreWithinLimit families.now max_covers }
    requires forced { IfSome cover (IsForced (take front families.now)) }
    requires grown { IfSome grown (HasCovers families.now max_covers front) }
    requires more { front < length families.now }
    ensures covers { IfOk result (λ next. AreCovers (take (front + 1) families.now) next.0) }
    ensures forced { IfOk result (λ next. IfSome next.1 (IsForced (take (front + 1) families.now))) }
    ensures grown { IfOk result (λ next. IfSome next.2 (HasCovers families.now max_covers (front + 1))) }
{
    let forced = forced_with(cover, families[front].as_slice())?;
    match forced {
        Some(only) => {
            let sets = one_set(alloc, only.as_slice())?;
            Ok((sets, Some(only), None))
        }
        None => {
            let covers = grown_with(alloc, families, front, grown)?;
            let sets = covers.covers(alloc)?;
            Ok((sets, None, Some(covers)))
        }
    }
}

/// The list of this set alone.
fn one_set(alloc: Global, set: &[u32]) -> Result<NumberLists, OutOfMemory>
    ensures { IfOk result (λ sets. sets ≡ set.now ∷ []) }
{
    let mut sets = NumberLists::new(alloc);
    sets.push(set)?;
    Ok(sets)
}
