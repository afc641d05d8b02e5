//! The blocks of a member while they are written: for each component and number of arguments the minimal covers of the first
//! paths of its goal.
ghost use Rattle.std.specs.Prelude.{◌≡◌, ◌<◌, ◌↔◌, ◌++◌, [], IfOk, IfSome, OnOk, IsTrue, length, map, string_bytes, None};
ghost use Rattle.std.specs.List.{flat_map};
ghost use Rattle.cls_path.specs.Paths.{listed};
ghost use Rattle.cls_library.specs.Families.{IsPlace, alone, families_in};
ghost use Rattle.cls_library.specs.Rules.{IsWide};
ghost use Rattle.cls_expand.specs.Answers.{IsReady};
ghost use Rattle.cls_proof.specs.Texts.{block_text};
ghost use Rattle.cls_cert.specs.Building.{HasFirstFamily};
ghost use Rattle.cls_cert.specs.Computed.{block_at};
ghost use Rattle.cls_cert.specs.Left.{IsBlockLeft, IsStart, block_left, blocks_left, blocks_text};

use crate::layers::BlockLeft;
use cls_base::{Numbers, OutOfMemory};
use cls_lexer::Names;
use cls_library::{Families, Finder, Library, Place};
use cls_path::Nf;
use cls_proof::write_block;
use std::alloc::Global;

/// Whether there is a first family, and it isn't empty.
fn has_first(families: &[Numbers]) -> bool
    ensures { IsTrue result ↔ HasFirstFamily families.now }
{
    match families.first() {
        Some(family) => !family.as_slice().is_empty(),
        None => false,
    }
}

/// The families as a list.
fn listed_families(alloc: Global, families: Families<'_>) -> Result<Vec<Numbers>, OutOfMemory>
    ensures { IfOk result (λ all. all.items ≡ families_in families.entry) }
{
    match families {
        Families::Single(positions) => lone_families(alloc, positions),
        Families::Several(all) => Ok(all),
    }
}

/// A family for each position, which has no other.
fn lone_families(alloc: Global, positions: &[u32]) -> Result<Vec<Numbers>, OutOfMemory>
    ensures { IfOk result (λ all. all.items ≡ map alone positions.now) }
{
    let mut families = Vec::with_capacity(alloc, positions.len())?;
    for position in positions {
        families.push(Numbers::new(Vec::from_slice(alloc, &[*position])?))?;
    }
    Ok(families)
}

/// Writes the line of the block of the arrows at a place, if one of them leads to the first path of the goal. Its layers are left
/// then. Of the block before nothing is left. `room` is room for positions, whatever it holds.
fn begin_block(
    alloc: Global,
    finder: &mut Finder<'_>,
    place: Place,
    room: &mut Vec<u32>,
    components: &Names,
    block: &mut BlockLeft,
    text: &mut String,
) -> Result<(), OutOfMemory>
    requires place { IsPlace finder.old.library place }
    requires ready { IsReady finder.old.library finder.old.goal }
    requires narrow { IsWide finder.old.library (listed finder.old.goal) → ⊥ }
    requires left { IsBlockLeft block.old }
    requires none { block_left block.old ≡ [] }
    ensures same { finder.new ≡ finder.old }
    ensures left { OnOk result (IsBlockLeft block.new) }
    ensures lines { OnOk result (string_bytes text.new ++ block_left block.new
        ≡ string_bytes text.old ++ flat_map (block_text components.now)
        (block_at finder.old.library (listed finder.old.goal) place.component place.count)) }
{
    let found = finder.families(alloc, place, room)?;
    let families = listed_families(alloc, found)?;
    if !has_first(families.as_slice()) {
        return Ok(());
    }
    write_block(components, place.component, place.count, text)?;
    *block = BlockLeft::new(alloc, families);
    Ok(())
}

/// Writes the blocks of a goal from a place on, until the text has enough bytes. Gives the place from which blocks are left behind
/// what is left of `block`, and None if there are no more.
pub(crate) fn write_blocks(
    alloc: Global,
    lib: &Library,
    goal: &Nf,
    start: Place,
    components: &Names,
    enough: usize,
    block: &mut BlockLeft,
    text: &mut String,
) -> Result<Option<Place>, OutOfMemory>
    requires ready { IsReady lib.now goal.now }
    requires narrow { IsWide lib.now (listed goal.now) → ⊥ }
    requires start { IsStart lib.now start }
    requires left { IsBlockLeft block.old }
    requires none { block_left block.old ≡ [] }
    ensures left { OnOk result (IsBlockLeft block.new) }
    ensures within { IfOk result (λ next. IfSome next (IsStart lib.now)) }
    ensures lines { let c = components.now in let g = listed goal.now in
        IfOk result (λ next. string_bytes text.new ++ (block_left block.new ++ blocks_left c lib.now g next)
        ≡ string_bytes text.old ++ blocks_text c lib.now g start) }
    ensures full { IfOk result (λ next. length (string_bytes text.new) < enough
        → (block_left block.new ≡ []) × (next ≡ None)) }
{
    if goal.paths().is_empty() {
        return Ok(None);
    }
    let Some(mut finder) = Finder::new(alloc, lib, goal)? else {
        return Ok(None);
    };
    let mut room = Vec::new(alloc);
    let mut from = start;
    while let Some(place) = finder.next(from) {
        let written = text.len();
        if written >= enough {
            return Ok(Some(from));
        }
        begin_block(
            alloc,
            &mut finder,
            place,
            &mut room,
            components,
            block,
            text,
        )?;
        block.write_lines(alloc, enough, text)?;
        from = Place {
            component: place.component,
            count: place.count + 1,
        };
    }
    Ok(None)
}
