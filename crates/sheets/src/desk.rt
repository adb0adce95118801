// Desks: the buffers in which a condition is written and settled, all of them lent.

use super::cell::{Cell, CellRow};
use super::part::Part;
use reckoning::mark::Mark;

#[derive(Drop)]
pub struct Desk<'a> {
    pub rows: &'a mut [CellRow],
    pub parts: &'a mut [Part],
    pub cells: &'a mut [Cell],
    pub valuation: &'a mut [i64],
    pub working: &'a mut [Mark],
}
