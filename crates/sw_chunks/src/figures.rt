//! What a head tells of its areas in numbers.

ghost use Rattle.std.specs.Prelude.{◌≡◌, ◌+◌, length};
ghost use Rattle.sw_set.specs.Figures.{capped};
ghost use Rattle.sw_chunks.specs.Figures.{HavePieces, areas_cells, areas_entries, areas_maps};

use sw_map::CrackerMap;
use sw_set::Area;

/// What a head tells of its areas in numbers, each up to the greatest number of the type.
#[derive(Clone, Copy, Debug)]
pub struct Figures {
    /// How many areas there are.
    pub areas: u64,
    /// How many pieces their maps are cracked into.
    pub pieces: u64,
    /// How many entries their tapes have.
    pub entries: u64,
    /// How often they were begun anew. No clause speaks of it.
    pub restarts: u64,
    /// How many boxes have maps.
    pub maps: u64,
    /// How many cells the leases of these have.
    pub cells: u64,
}

/// A sum that stops at the greatest number of the type.
fn added(sum: u64, more: u64) -> u64
    ensures { result ≡ capped (sum + more) }
{
    sum.saturating_add(more)
}

/// How many pieces the areas' maps are cracked into.
fn pieces_in<M: CrackerMap>(areas: &[Area<M>]) -> u64
    ensures { HavePieces areas.now result }
{
    let mut pieces = 0;
    for area in areas {
        pieces = added(pieces, area.pieces() as u64);
    }
    pieces
}

/// How many entries the areas' tapes have.
fn entries_in<M: CrackerMap>(areas: &[Area<M>]) -> u64
    ensures { result ≡ capped (areas_entries areas.now) }
{
    let mut entries = 0;
    for area in areas {
        entries = added(entries, area.tape_len() as u64);
    }
    entries
}

/// How often the areas were begun anew.
fn restarts_in<M: CrackerMap>(areas: &[Area<M>]) -> u64 {
    let mut restarts = 0;
    for area in areas {
        restarts = added(restarts, area.restarts());
    }
    restarts
}

/// How many boxes of the areas have maps.
fn maps_in<M: CrackerMap>(areas: &[Area<M>]) -> u64
    ensures { result ≡ capped (areas_maps areas.now) }
{
    let mut maps = 0;
    for area in areas {
        maps = added(maps, area.maps());
    }
    maps
}

/// How many cells the leases of the areas' maps have.
fn cells_in<M: CrackerMap>(areas: &[Area<M>]) -> u64
    ensures { result ≡ capped (areas_cells areas.now) }
{
    let mut cells = 0;
    for area in areas {
        cells = added(cells, area.cells());
    }
    cells
}

/// What areas tell in numbers.
pub(crate) fn figures_of<M: CrackerMap>(areas: &[Area<M>]) -> Figures
    ensures areas { result.areas ≡ length areas.now }
    ensures pieces { HavePieces areas.now result.pieces }
    ensures entries { result.entries ≡ capped (areas_entries areas.now) }
    ensures maps { result.maps ≡ capped (areas_maps areas.now) }
    ensures cells { result.cells ≡ capped (areas_cells areas.now) }
{
    Figures {
        areas: areas.len() as u64,
        pieces: pieces_in(areas),
        entries: entries_in(areas),
        restarts: restarts_in(areas),
        maps: maps_in(areas),
        cells: cells_in(areas),
    }
}
