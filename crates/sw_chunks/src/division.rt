//! How rows are divided among areas.

ghost use Rattle.std.specs.Prelude.{◌<◌, ◌≤◌, length};
ghost use Rattle.sw_chunks.specs.declared.places.TheConstants.{MOST_CUTS};

/// How rows are divided among areas: by the cells of an attribute, at cuts.
#[derive(Clone, Copy)]
pub(crate) struct Division<'a> {
    pub(crate) attribute: u8,
    pub(crate) cuts: &'a [i64],
    pub(crate) ghost within: { attribute < 8 },
    pub(crate) ghost few: { length cuts.now ≤ MOST_CUTS },
}
