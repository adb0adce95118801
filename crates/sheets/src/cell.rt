// Cells: the numbers that a sheet speaks of, each by its place.

ghost use Rattle.std.specs.Prelude.{◌≡◌};
ghost use Rattle.sheets.specs.Valuations.{allows};
ghost use Rattle.sheets.specs.Sheets.{is_bound, is_bounded, cell_kind, cell_bounds};

use reckoning::mark::Mark;
use terms::kind::Kind;
use terms::mentions::Mentions;
use terms::number::spans;
use terms::row::Row;

// A row of a sheet mentions cells by their place.
pub type CellRow = Row<usize>;

// `set_by` is the place of the part that sets the cell, where one does.
#[derive(Clone, Copy, Debug, PartialEq, Eq)]
pub struct Cell {
    pub kind: Kind,
    pub low: i64,
    pub high: i64,
    pub set_by: Option<usize>,
}

// Whether a number lies where numbers of a kind do.
fn is_bound(kind: Kind, number: i64) -> bool
    ensures { result ≡ is_bound kind number }
{
    match kind {
        Kind::Number => spans(number),
        Kind::Truth => (0..=1).contains(&number),
    }
}

impl Cell {
    // Whether its bounds lie where numbers of its kind do, and in their order.
    pub(super) fn is_bounded(self) -> bool
        ensures { result ≡ is_bounded self }
    {
        is_bound(self.kind, self.low) && is_bound(self.kind, self.high) && self.low <= self.high
    }

    // Whether a number lies within its bounds.
    pub fn allows(&self, number: i64) -> bool
        ensures { result ≡ allows self.now number }
    {
        (self.low..=self.high).contains(&number)
    }
}

// What cells say of those who mention them.
#[derive(Clone, Copy, Debug, PartialEq, Eq)]
pub struct CellTypes<'a> {
    pub cells: &'a [Cell],
}

impl<'a> Mentions<usize, Kind> for CellTypes<'a> {
    ghost found = { λ s. cell_kind s.cells.now };

    fn find(&self, mention: usize) -> Option<Kind> {
        self.cells.get(mention).map(|cell| cell.kind)
    }
}

impl<'a> Mentions<usize, Mark> for CellTypes<'a> {
    ghost found = { λ s. cell_bounds s.cells.now };

    fn find(&self, mention: usize) -> Option<Mark> {
        self.cells.get(mention).map(|cell| Mark {
            low: cell.low,
            high: cell.high,
        })
    }
}
