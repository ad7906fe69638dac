//! An index of boxes: boxes of airspace and time by identifier, from which those that have a point in common with another are found
//! without a look at all of them.
//!
//! ```
//! let mut grid = Grid::new(alloc);
//! grid.insert(7, volume.bounds())?;
//! let mut found = Vec::new(alloc);
//! grid.candidates(&area, &mut found)?; // 7, where the boxes have a common point
//! grid.remove(7);
//! ```
//!
//! The plane is cut into cells of 0.1 degrees. A box stands in each cell that it touches, and a query looks at the boxes in its own cells.
//! A box that touches more than 64 cells is wide: it stands in a list that each query goes through, and a query with a wide box goes
//! through all boxes. A contract sees the boxes with their identifiers, ascending, and no cell.
#![tactic(auto)]

mod cells;
mod grid;
mod laws;
mod places;
mod points;
mod slot;
mod slots;

pub use grid::Grid;
pub use laws::{
    common_cells_are_touched, sharing_lists_have_boxes_that_meet, touched_cells_have_points,
};
pub use points::have_common_point;

/// The side of a cell in x and in y, in units of 1e-7 degrees.
pub const CELL_SIDE: i64 = 1_000_000;

/// The cells that a box may touch without being wide.
pub const MOST_CELLS: u64 = 64;
