// Buffers of the trials: more places than any of the sheets fills, and what they hold before.

use reckoning::mark::{ANY, Mark};
use sheets::cell::{Cell, CellRow};
use sheets::part::Part;
use terms::kind::Kind;
use terms::row::Row;

#[derive(PartialEq, Drop)]
pub(super) struct Buffers {
    pub(super) rows: [CellRow; 24],
    pub(super) parts: [Part; 8],
    pub(super) cells: [Cell; 14],
    pub(super) valuation: [i64; 14],
    pub(super) working: [Mark; 38],
}

const SPARE_ROW: CellRow = Row::Constant(77);

const SPARE_PART: Part = Part { first: 7, rows: 7 };

const SPARE_CELL: Cell = Cell {
    kind: Kind::Number,
    low: 7,
    high: 77,
    set_by: Some(7),
};

// Whether a buffer begins with these records, and all after them are spare.
fn begins<T: PartialEq>(buffer: &[T], records: &[T], spare: &T) -> bool {
    let (front, rest) = buffer.split_at(records.len().min(buffer.len()));
    front == records && rest.iter().all(|record| record == spare)
}

impl Buffers {
    pub(super) fn spare() -> Buffers {
        Buffers {
            rows: [SPARE_ROW; 24],
            parts: [SPARE_PART; 8],
            cells: [SPARE_CELL; 14],
            valuation: [77; 14],
            working: [ANY; 38],
        }
    }

    // Whether they begin with a sheet, and all else of them is spare.
    pub(super) fn begin(&self, rows: &[CellRow], parts: &[Part], cells: &[Cell]) -> bool {
        begins(&self.rows, rows, &SPARE_ROW)
            && begins(&self.parts, parts, &SPARE_PART)
            && begins(&self.cells, cells, &SPARE_CELL)
    }

    // And whether the valuation does with these numbers.
    pub(super) fn begin_valued(&self, numbers: &[i64]) -> bool {
        begins(&self.valuation, numbers, &77)
    }
}
