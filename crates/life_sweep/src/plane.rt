//! The edges of the plane.

use life_base::MAX_LEVEL;

/// Half of the side of the plane: its coordinates go from -HALF_PLANE to HALF_PLANE - 1.
pub(crate) const HALF_PLANE: i64 = 1 << (MAX_LEVEL - 1);

/// Where a sweep begins: before each column and each row that can have a cell in it or beside it.
pub(crate) const START: i64 = -HALF_PLANE - 2;
