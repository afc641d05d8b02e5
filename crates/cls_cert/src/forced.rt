//! The only minimal cover of families of one position each, as it grows family by family.
ghost use Rattle.std.specs.Prelude.{ℕ, ◌≡◌, ◌↔◌, ◌⊎◌, ◌∷◌, ◌++◌, [], List, IfOk, IfSome, OnOk, MatchOption};
ghost use Rattle.cls_cover.specs.Members.{Member, Ascending};
ghost use Rattle.cls_cover.specs.Forced.{IsForced};

use cls_base::OutOfMemory;
use cls_proof::Positions;

/// Puts a position among ascending ones, unless it is there.
pub(crate) fn put(positions: &mut Positions, x: u32) -> Result<(), OutOfMemory>
    requires { Ascending positions.old }
    ensures ascending { OnOk result (Ascending positions.new) }
    ensures members { OnOk result
        ((y : ℕ) → Member positions.new y ↔ (Member positions.old y ⊎ (y ≡ x))) }
{
    match positions.as_slice().binary_search(&x) {
        Ok(_) => {}
        Err(place) => positions.insert(place, x)?,
    }
    Ok(())
}

/// The only minimal cover of some families and this one behind them, made from that of the families before it. There is none
/// to give as soon as a family doesn't have a single position.
pub(crate) fn forced_with(
    cover: Option<Positions>,
    family: &[u32],
) -> Result<Option<Positions>, OutOfMemory>
    requires { IfSome cover Ascending }
    ensures { IfOk result (λ next. IfSome next (λ n. MatchOption cover ⊥ (λ c. (families : List (List ℕ))
        → IsForced families c → IsForced (families ++ family.now ∷ []) n))) }
{
    match (cover, family) {
        (Some(mut positions), [x]) => {
            put(&mut positions, *x)?;
            Ok(Some(positions))
        }
        _ => Ok(None),
    }
}
