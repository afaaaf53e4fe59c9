//! The sections that are open at a line.
ghost use Rattle.std.specs.Prelude.{◌≡◌, []};
ghost use Rattle.std.specs.Option.{ForNone};

use fam_outer::Place;

/// The sections that are open at a line: the innermost one, and those around it with the outermost first, each with
/// whether its `#else` has stood; and the place at which the outermost one opened, where there is one.
#[derive(Drop)]
pub(crate) struct Opens {
    pub(crate) inner: Option<bool>,
    pub(crate) outer: Vec<bool>,
    pub(crate) first: Place,
    ghost empty: { ForNone inner (outer.items ≡ []) },
}
