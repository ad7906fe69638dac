ghost use Rattle.std.specs.Prelude.{◌≡◌, ◌-◌, ◌^◌, min, ℤ, pos, neg_ℤ, ◌≤ℤ◌};
ghost use Rattle.uss_index.specs.Cells.{cell_of, cells_of, number_of_cells, are_many, AreInOrder};

use crate::{CELL_SIDE, MOST_CELLS};
use uss_vol4::Box4;

/// The cells that a box touches: the columns from `left` to `right` and the rows from `bottom` to `top`.
#[derive(Clone, Copy)]
pub(crate) struct Cells {
    pub(crate) left: i64,
    pub(crate) right: i64,
    pub(crate) bottom: i64,
    pub(crate) top: i64,
}

impl Cells {
    pub(crate) fn of(b: &Box4) -> Cells
        ensures value { result ≡ cells_of b.now }
        ensures in_order { AreInOrder result }
    {
        Cells {
            left: cell_of(b.rect.x1.min(b.rect.x2)),
            right: cell_of(b.rect.x1.max(b.rect.x2)),
            bottom: cell_of(b.rect.y1.min(b.rect.y2)),
            top: cell_of(b.rect.y1.max(b.rect.y2)),
        }
    }

    /// How many cells these are, or the greatest number where they are more.
    fn count(&self) -> u64
        requires { AreInOrder self.now }
        ensures { result ≡ min (number_of_cells self.now) (2 ^ 64 - 1) }
    {
        let columns = self.right.abs_diff(self.left) + 1;
        let rows = self.top.abs_diff(self.bottom) + 1;
        columns.saturating_mul(rows)
    }

    /// Whether these are more than a box may touch that isn't wide.
    pub(crate) fn are_many(&self) -> bool
        requires { AreInOrder self.now }
        ensures { result ≡ are_many self.now }
    {
        self.count() > MOST_CELLS
    }
}

/// The number of the coordinate's column or row.
fn cell_of(coordinate: i64) -> i64
    ensures value { result ≡ cell_of coordinate }
    ensures above { neg_ℤ (pos 10000000000000) ≤ℤ result }
    ensures below { result ≤ℤ pos 10000000000000 }
{
    coordinate.div_euclid(CELL_SIDE)
}
