// The trier on a sheet that is told by numbers, to be timed from outside: nothing of the sheet is known where this is built.
#![tactic(auto)]

ghost use Rattle.std.specs.Prelude.{◌≡◌, ◌*◌, ◌<◌, ◌≤◌, length};
ghost use Rattle.sheets.specs.Sheets.{condition_of};
ghost use Rattle.sheets.specs.Tables.{IsSheet};
ghost use Rattle.judges.specs.Tries.{trier};
ghost use Rattle.judges_timed.specs.Telling.{are_records as are_records_of, cell_told, cells_told, number_of, parts_told, row_told, rows_told, Answered};

use judges::trier::Trier;
use reckoning::mark::ANY;
use sheets::cell::{Cell, CellRow};
use sheets::judge::{Answer, Judge};
use sheets::part::Part;
use sheets::sheet::Sheet;
use terms::kind::Kind;
use terms::operator::Operator;
use terms::row::Row;

const ROWS: usize = 64;

const PARTS: usize = 16;

const CELLS: usize = 16;

// The operators that are timed, each told by its place among them.
const TIMED: [Operator; 11] = [
    Operator::Addi,
    Operator::Subi,
    Operator::Mul,
    Operator::Odd,
    Operator::Gei,
    Operator::Lei,
    Operator::Gti,
    Operator::Or,
    Operator::Not,
    Operator::Implies,
    Operator::Equal,
];

// A row by its kind and a number: a constant, a mention, or an operator.
fn row(kind: i64, number: i64) -> CellRow
    ensures { result ≡ row_told kind number }
{
    let place = number.unsigned_abs() as usize;
    match kind {
        0 => Row::Constant(number),
        1 => Row::Mention(place),
        _ if place < TIMED.len() => Row::Operator(TIMED[place]),
        _ => Row::Operator(Operator::Equal),
    }
}

// A cell by its low, its high, and the part that sets it, a negative number where none does.
fn cell(low: i64, high: i64, set_by: i64) -> Cell
    ensures { result ≡ cell_told low high set_by }
{
    Cell {
        kind: Kind::Number,
        low,
        high,
        set_by: (set_by >= 0).then_some(set_by.unsigned_abs() as usize),
    }
}

fn read_rows(numbers: &[i64], rows: &mut [CellRow])
    requires { length numbers.now ≡ 2 * length rows.old }
    ensures { rows.new ≡ rows_told numbers.now }
{
    for i in 0..rows.len() {
        rows[i] = row(numbers[2 * i], numbers[2 * i + 1]);
    }
}

fn read_parts(numbers: &[i64], parts: &mut [Part])
    requires { length numbers.now ≡ length parts.old }
    ensures { parts.new ≡ parts_told 0 numbers.now }
{
    let mut first: usize = 0;
    for i in 0..parts.len() {
        let rows = numbers[i].unsigned_abs() as usize;
        parts[i] = Part { first, rows };
        first = first.saturating_add(rows);
    }
}

fn read_cells(numbers: &[i64], cells: &mut [Cell])
    requires { length numbers.now ≡ 3 * length cells.old }
    ensures { cells.new ≡ cells_told numbers.now }
{
    for i in 0..cells.len() {
        cells[i] = cell(numbers[3 * i], numbers[3 * i + 1], numbers[3 * i + 2]);
    }
}

// Whether so many numbers tell records of a width, and no more than there is room for.
fn are_records(width: usize, room: usize, numbers: usize) -> bool
    requires { 0 < width }
    ensures { result ≡ are_records_of width room numbers }
{
    numbers.is_multiple_of(width) && numbers / width <= room
}

// What the trier answers to tables of so many records, as a number.
fn ask(rows: &[CellRow], parts: &[Part], cells: &[Cell]) -> u32
    requires rows { length rows.now ≤ 64 }
    requires cells { length cells.now ≤ 16 }
    ensures refused { (IsSheet rows.now parts.now cells.now → ⊥) → result ≡ 3 }
    ensures asked { IsSheet rows.now parts.now cells.now → result ≡ number_of (trier (condition_of rows.now parts.now cells.now)) }
{
    let mut sheet = Sheet::unfilled();
    if sheet.fill(rows, parts, cells).is_err() {
        return 3;
    }
    let mut valuation = [0; CELLS];
    let mut working = [ANY; CELLS + ROWS];
    match Trier.ask(&sheet, &mut valuation, &mut working) {
        Answer::Pass => 0,
        Answer::Fail => 1,
        Answer::Unsure => 2,
    }
}

// Asks the trier of a sheet with up to 64 rows, 16 parts and 16 cells, and tells 0 where it passes, 1 where it fails, 2 where it is unsure, 3 where the tables break a rule of sheets, and 4 where the numbers are too many or end within a record (docs/JUDGES.md).
#[unsafe(no_mangle)]
pub extern "C" fn judges_ask_trier(rows: &[i64], parts: &[i64], cells: &[i64]) -> u32
    ensures { Answered rows.now parts.now cells.now result }
{
    if !are_records(2, ROWS, rows.len())
        || !are_records(1, PARTS, parts.len())
        || !are_records(3, CELLS, cells.len())
    {
        return 4;
    }
    let mut all_rows = [Row::Constant(0); ROWS];
    let mut all_parts = [Part { first: 0, rows: 0 }; PARTS];
    let mut all_cells = [cell(0, 0, -1); CELLS];
    let some_rows = &mut all_rows[..rows.len() / 2];
    let some_parts = &mut all_parts[..parts.len()];
    let some_cells = &mut all_cells[..cells.len() / 3];
    read_rows(rows, some_rows);
    read_parts(parts, some_parts);
    read_cells(cells, some_cells);
    ask(some_rows, some_parts, some_cells)
}
