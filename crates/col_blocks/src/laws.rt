//! Laws of blocks and pages.

ghost use Rattle.std.specs.Prelude.{◌≡◌, ◌<◌, length, IsTrue};
ghost use Rattle.col_blocks.specs.Laws.{FormsTellApart, AllAreKept, ScatteredAreKept, ScatteredFillPlaces, SlicesOfSlices, RowsAreFiltered};

use crate::block::Block;

/// A law: two blocks of one kind whose cells are the same are told apart by nothing but their form.
pub fn forms_tell_apart()
    ensures { FormsTellApart }
{}

/// A law: whichever forms they have, blocks of the same cells count the same values in each row.
pub fn same_cells_count_alike(left: &Block, right: &Block, row: usize) -> bool
    requires same { left.now.cells ≡ right.now.cells }
    requires row { row < length left.now.cells }
    ensures { IsTrue result }
{
    left.count_at(row) == right.count_at(row)
}

/// A law: a filter by a mask whose places are all set keeps the cells as they are.
pub fn all_are_kept()
    ensures { AllAreKept }
{}

/// A law: a filter by the mask that cells were scattered by gives the cells back.
pub fn scattered_are_kept()
    ensures { ScatteredAreKept }
{}

/// A law: scattered cells are one for each place.
pub fn scattered_fill_places()
    ensures { ScatteredFillPlaces }
{}

/// A law: a slice of a slice is a slice.
pub fn slices_of_slices()
    ensures { SlicesOfSlices }
{}

/// A law: where each column of a page is filtered by a mask, its rows are.
pub fn rows_are_filtered()
    ensures { RowsAreFiltered }
{}
