//! Places: what terms that are begun can become.
ghost use Rattle.std.specs.Prelude.{◌≡◌, ℕ, ◌↔◌, [], IsTrue, List, OnOk, map};
ghost use Rattle.cls_base.specs.declared.rule.Rule.{Rule};
ghost use Rattle.cls_enum.specs.Members.{IsIn};
ghost use Rattle.cls_walk.specs.FrameColumns.{made_of, place_of, AreFollowed, AreRules, Grows, IsFollowed, IsPassed};

use crate::rules::{Made, Rules};
use cls_base::OutOfMemory;

/// What is begun, applied to a term of each of the further nodes in turn, is a term of the node.
#[derive(Clone, Copy)]
pub(crate) struct Place<'a> {
    pub(crate) node: u32,
    pub(crate) rest: &'a [u32],
}

/// Whether one of the places has this node and no further ones.
pub(crate) fn is_complete(places: &[Place], node: u32) -> bool
    ensures { IsTrue result ↔ IsIn (map place_of places.now) (node, []) }
{
    for place in places {
        if place.node == node && place.rest.is_empty() {
            return true;
        }
    }
    false
}

/// Adds the place of a whole term of the node, unless it is there.
fn add_complete<'a>(places: &mut Vec<Place<'a>>, node: u32) -> Result<(), OutOfMemory>
    ensures { OnOk result (Grows (λ q. q ≡ (node, [])) places.old.items places.new.items) }
{
    if !is_complete(places.as_slice(), node) {
        places.push(Place { node, rest: &[] })?;
    }
    Ok(())
}

/// Adds what these pairs make, where the argument is whole at one of the places above.
fn pass<'a>(made: &[Made], above: &[Place], places: &mut Vec<Place<'a>>) -> Result<(), OutOfMemory>
    ensures { let IsNew = IsPassed (map made_of made.now) (map place_of above.now) in
        OnOk result (Grows IsNew places.old.items places.new.items) }
{
    for pair in made {
        if is_complete(above, pair.argument) {
            add_complete(places, pair.node)?;
        }
    }
    Ok(())
}

/// Adds what becomes of the place when its next argument is whole at one of the places above.
fn follow<'a>(
    rules: &Rules,
    above: &[Place],
    place: Place<'a>,
    places: &mut Vec<Place<'a>>,
) -> Result<(), OutOfMemory>
    ensures { (book : List (List (Rule ℕ))) → AreRules book rules.now
        → let IsNew = IsFollowed book (map place_of above.now) (place_of place.entry) in
        OnOk result (Grows IsNew places.old.items places.new.items) }
{
    let Some((node, rest)) = place.rest.split_first() else {
        return pass(rules.made_from(place.node), above, places);
    };
    if is_complete(above, *node) {
        places.push(Place {
            node: place.node,
            rest,
        })?;
    }
    Ok(())
}

/// Adds what becomes of the old places when their next argument is whole at one of the places above.
pub(crate) fn advance<'a>(
    rules: &Rules,
    above: &[Place],
    old: &[Place<'a>],
    places: &mut Vec<Place<'a>>,
) -> Result<(), OutOfMemory>
    ensures { (book : List (List (Rule ℕ))) → AreRules book rules.now
        → let IsNew = AreFollowed book (map place_of above.now) (map place_of old.now) in
        OnOk result (Grows IsNew places.old.items places.new.items) }
{
    for place in old {
        follow(rules, above, *place, places)?;
    }
    Ok(())
}
