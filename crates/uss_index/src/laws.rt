//! Laws of cells and boxes. No code calls these functions: each has a law as its contract.

ghost use Rattle.uss_index.specs.Laws.{TouchedCellsHavePoints, CommonCellsAreTouched, SharingListsHaveBoxesThatMeet};

/// A box touches exactly the cells in which it has a point.
pub fn touched_cells_have_points()
    ensures { TouchedCellsHavePoints }
{}

/// Boxes have a cell in common exactly where both touch some cell.
pub fn common_cells_are_touched()
    ensures { CommonCellsAreTouched }
{}

/// Where some volume of one list shares with some of another, the bounding boxes of the lists have a point in common: so who looks only
/// at candidates misses nothing that shares.
pub fn sharing_lists_have_boxes_that_meet()
    ensures { SharingListsHaveBoxesThatMeet }
{}
