// Tables: rows, parts and cells of which it is not yet known whether they keep the rules of sheets.

ghost use Rattle.std.specs.Prelude.{◌≡◌, ◌+◌, ◌&&◌, length, Some, nat_lt};
ghost use Rattle.std.specs.List.{list_all};
ghost use Rattle.sheets.specs.Sheets.{condition_of, part, part_in, is_bounded};
ghost use Rattle.sheets.specs.Tables.{after_part, fills, is_part, is_set, are_set, keeps};

use super::cell::{Cell, CellRow, CellTypes};
use super::part::Part;
use super::setting::sets;

#[derive(Clone, Copy, Debug, PartialEq, Eq)]
pub(super) struct Tables<'a> {
    pub(super) rows: &'a [CellRow],
    pub(super) parts: &'a [Part],
    pub(super) cells: &'a [Cell],
}

// The place after a part, if it stands at this place of so many rows.
fn after_part(total: usize, used: usize, part: Part) -> Option<usize>
    ensures { result ≡ after_part total used part }
{
    used.checked_add(part.rows)
        .filter(|&next| part.first == used && next <= total)
}

impl<'a> Tables<'a> {
    // The rows of a part, none past the last.
    pub(super) fn part(&self, place: usize) -> &'a [CellRow]
        ensures { result.now ≡ part (condition_of self.now.rows.now self.now.parts.now self.now.cells.now) place }
    {
        match self.parts.get(place) {
            Some(part) => part.of(self.rows),
            None => &[],
        }
    }

    // Whether the parts stand back to back and fill the rows.
    fn are_filled(&self) -> bool
        ensures { result ≡ fills (length self.now.rows.now) (Some 0) self.now.parts.now }
    {
        let total = self.rows.len();
        // By a `for`: a proof has lemmas for what `fold` gives and none for `try_fold`, and a `fold` would go on past a part that fails.
        let mut used = 0;
        for part in self.parts {
            let Some(next) = after_part(total, used, *part) else {
                return false;
            };
            used = next;
        }
        used == total
    }

    fn are_parts(&self) -> bool
        ensures { result ≡ list_all (λ p. is_part self.now.cells.now (part_in self.now.rows.now p)) self.now.parts.now }
    {
        let types = CellTypes { cells: self.cells };
        self.parts
            .iter()
            .all(|part| types.is_part(part.of(self.rows)))
    }

    fn are_bounded(&self) -> bool
        ensures { result ≡ list_all is_bounded self.now.cells.now }
    {
        self.cells.iter().all(|cell| cell.is_bounded())
    }

    fn is_before_goal(&self, place: usize) -> bool
        ensures { result ≡ nat_lt (place + 1) (length self.now.parts.now) }
    {
        place < self.parts.len().saturating_sub(1)
    }

    // Whether a cell is set by the part that is said to set it.
    fn is_set(&self, cell: usize, setter: Option<usize>) -> bool
        ensures { result ≡ is_set (condition_of self.now.rows.now self.now.parts.now self.now.cells.now) cell setter }
    {
        match setter {
            Some(place) => self.is_before_goal(place) && sets(self.part(place), cell),
            None => true,
        }
    }

    fn are_set(&self) -> bool
        ensures { result ≡ are_set (condition_of self.now.rows.now self.now.parts.now self.now.cells.now) }
    {
        self.cells
            .iter()
            .enumerate()
            .all(|(place, cell)| self.is_set(place, cell.set_by))
    }

    pub(super) fn keep_rules(&self) -> bool
        ensures { result ≡ (fills (length self.now.rows.now) (Some 0) self.now.parts.now && keeps (condition_of self.now.rows.now self.now.parts.now self.now.cells.now)) }
    {
        self.are_filled()
            && !self.parts.is_empty()
            && self.are_parts()
            && self.are_bounded()
            && self.are_set()
    }
}
