//! Normal forms of types, and subtyping.
//!
//! - [`normal`] gives the normal form of a type, [`type_of`] the type of a normal form, [`path_type`] that of a path.
//! - [`subtype`] says whether a derivation of subtyping exists.
//! - [`fit`] says whether the type of a normal form is small enough to be worked on further.
//!
//! Inside, `paths` takes a type apart, `normals` makes its normal form, `types` goes back, `fits` looks at the limits,
//! with `weights` for the spread of a type that isn't made, and `subtypes` decides subtyping on the types themselves.
//! Nothing is made or asked of an arrow whose target has no path. Subtyping of paths is decided in `cls_path`. `wide` is for intersections of many types: names are looked up among
//! those of the lower type by binary search.
#![tactic(auto)]

mod fits;
mod normals;
mod paths;
mod subtypes;
mod types;
mod weights;
mod wide;

pub use fits::fit;
pub use normals::normal;
pub use subtypes::subtype;
pub use types::{path_type, type_of};
