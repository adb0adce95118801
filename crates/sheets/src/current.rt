// The current cells: where a path's sheet has the values and shadows of a unit's variables.

ghost use Rattle.std.specs.Prelude.{◌≡◌, ◌+◌, ◌*◌, ◌<◌, ◌≤◌, slice_index_or, slice_set};
ghost use Rattle.std.specs.List.{range_with_len};
ghost use Rattle.sheets.specs.Runs.{entry_of};

use jcode::mention::{Aspect, Mention};
use jcode::variable::VARIABLE_LIMIT;
use std::array;

// A value's cell and a shadow's for each variable that a unit can have.
const MOST_CELLS: usize = 2 * VARIABLE_LIMIT;

// Laid out as the store of a run is; an array, so that no sheet can fail for want of memory.
#[derive(Clone, Copy, Debug, PartialEq, Eq)]
pub(super) struct Current {
    cells: [usize; MOST_CELLS],
    count: usize,
    ghost few: { count ≤ 64 },
}

// The numbers from 0 on, which are places.
pub(super) fn places() -> [usize; MOST_CELLS]
    ensures { result ≡ range_with_len 0 64 }
{
    array::from_fn(|i| i)
}

impl Current {
    ghost use Rattle.sheets.specs.Currents.{current_in};

    // At the start each variable has its own two cells, in order.
    pub(super) fn start(variables: usize) -> Current
        requires { variables ≤ 32 }
        ensures cells { current_in result ≡ range_with_len 0 (2 * variables) }
        ensures count { result.count ≡ 2 * variables }
    {
        Current {
            cells: places(),
            count: 2 * variables,
        }
    }

    // A cell for a variable's value, and the next one for its shadow.
    pub(super) fn put(&mut self, variable: usize, cell: usize)
        requires { (2 * variable + 1 < self.old.count) × (cell + 1 < 18446744073709551616) }
        ensures cells { current_in self.new ≡ slice_set (slice_set (current_in self.old) (2 * variable) cell) (2 * variable + 1) (cell + 1) }
        ensures count { self.new.count ≡ self.old.count }
    {
        self.cells[2 * variable] = cell;
        self.cells[2 * variable + 1] = cell + 1;
    }

    // The cell of a variable's value or shadow, 0 for an unknown variable.
    pub(super) fn cell(&self, mention: Mention) -> usize
        ensures { result ≡ slice_index_or (current_in self.now) (entry_of mention.aspect mention.variable) 0 }
    {
        let value = mention.variable.saturating_mul(2);
        let place = match mention.aspect {
            Aspect::Value => value,
            Aspect::Shadow => value.saturating_add(1),
        };
        self.cells[..self.count].get(place).copied().unwrap_or(0)
    }
}
