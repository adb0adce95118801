// Writers: the sheet of a path, written statement by statement.

ghost use Rattle.std.specs.Prelude.{◌≡◌, ◌+◌, ◌*◌, ◌<◌, ◌≤◌, suc, true, [], ◌∷◌, ◌++◌, map, length, Some, None, slice_index_or, nat_lt};
ghost use Rattle.std.specs.List.{list_all};
ghost use Rattle.terms.specs.Terms.{renamed};
ghost use Rattle.jcode.specs.Units.{term_in, sentence_in};
ghost use Rattle.jcode.specs.declared.variable.Domain.TheVariants.{Integer, Boolean};
ghost use Rattle.jcode.specs.declared.statement.Statement.TheVariants.{Assign, Hang};
ghost use Rattle.flow.specs.Turns.{told, Tells};
ghost use Rattle.checking.specs.Breaks.{steps_of};
ghost use Rattle.checking.specs.CheckedUnits.{said};
ghost use Rattle.checking.specs.Types.{domains};
ghost use Rattle.sheets.specs.Currents.{current_in};
ghost use Rattle.sheets.specs.Matches.{terms_kept};
ghost use Rattle.sheets.specs.PathSheets.{cell_of as cell_for, cells_along, cells_from, cells_of, moved, over, parts_along, parts_of};
ghost use Rattle.sheets.specs.Runs.{listed, read, sentence, stored, types_at};

use super::cell::{Cell, CellRow};
use super::current::{Current, places};
use super::part::Part;
use super::writing::Lengths;
use checking::term::term_rows;
use checking::types::{domain_bounds, domain_kind};
use checking::unit::CheckedUnit;
use flow::turn::Turn;
use jcode::mention::{Mention, Stage, UnitRow};
use jcode::statement::{Statement, Term};
use jcode::variable::Domain;
use terms::operator::Operator;
use terms::row::Row;

// The buffers of a sheet, how much of each was written, and the cells that stand for variables so far. What finds no room is counted alone, so that a writer with empty buffers tells how long they have to be.
#[derive(Drop)]
pub(super) struct Writer<'a> {
    rows: &'a mut [CellRow],
    parts: &'a mut [Part],
    cells: &'a mut [Cell],
    pub(super) written: Lengths,
    current: Current,
}

// The cell that a mention becomes.
fn cell(before: &Current, after: &Current, mention: Mention) -> usize
    ensures { result ≡ read 0 (current_in before.now) (current_in after.now) mention }
{
    match mention.stage {
        Stage::Current => before.cell(mention),
        Stage::New => after.cell(mention),
    }
}

// A row, with a cell in the place of what it mentions.
fn cell_row(before: &Current, after: &Current, row: UnitRow) -> CellRow
    ensures { result ≡ renamed (read 0 (current_in before.now) (current_in after.now)) row }
{
    match row {
        Row::Constant(number) => Row::Constant(number),
        Row::Mention(mention) => Row::Mention(cell(before, after, mention)),
        Row::Operator(operator) => Row::Operator(operator),
    }
}

// A cell for numbers of a type.
fn cell_of(domain: Domain, set_by: Option<usize>) -> Cell
    ensures { result ≡ cell_for set_by domain }
{
    let bounds = domain_bounds(domain);
    Cell {
        kind: domain_kind(domain),
        low: bounds.low,
        high: bounds.high,
        set_by,
    }
}

// How many variables a unit has.
fn count(unit: &CheckedUnit<'_>) -> usize
    ensures count { result ≡ length (said unit.now).variables }
    ensures few { result ≤ 32 }
{
    unit.variables().len()
}

// The type of a variable; past the last one there is none to be asked for.
fn domain_of(unit: &CheckedUnit<'_>, variable: usize) -> Domain
    ensures { result ≡ slice_index_or (domains (said unit.now)) variable Integer }
{
    unit.domain(variable).unwrap_or(Domain::Integer)
}

// The statement at a place; past the last one there is nothing to do.
fn statement_at(unit: &CheckedUnit<'_>, place: usize) -> Statement
    ensures { result ≡ slice_index_or unit.now.tables.statements.now place Hang }
{
    let statement = unit.statements().get(place).copied();
    statement.unwrap_or(Statement::Hang)
}

ghost use Rattle.sheets.specs.Writings.{page, cells_page, Counts, Extends};

// One record more, behind those that were written.
fn push<T: Copy>(records: &mut [T], count: &mut usize, entry: T)
    requires { count.old + 1 < 18446744073709551616 }
    ensures { Extends (page records.old count.old) (entry ∷ []) (page records.new count.new) }
{
    if *count < records.len() {
        records[*count] = entry;
    }
    *count += 1;
}

// A term, with cells in the place of what it mentions.
fn push_term(
    records: &mut [CellRow],
    count: &mut usize,
    term: &[UnitRow],
    before: &Current,
    after: &Current,
)
    requires { Counts (page records.old count.old) (length term.now) }
    ensures { Extends (page records.old count.old) (over (current_in before.now) (current_in after.now) term.now) (page records.new count.new) }
{
    for row in term {
        push(records, count, cell_row(before, after, *row));
    }
}

impl<'a> Writer<'a> {
    ghost use Rattle.sheets.specs.Writings.{Starts};

    // With two cells for each variable of the unit.
    pub(super) fn start(
        unit: &CheckedUnit<'_>,
        rows: &'a mut [CellRow],
        parts: &'a mut [Part],
        cells: &'a mut [Cell],
    ) -> Writer<'a>
        ensures lent_rows { result.rows.ghost_name ≡ rows.entry.ghost_name }
        ensures lent_parts { result.parts.ghost_name ≡ parts.entry.ghost_name }
        ensures lent_cells { result.cells.ghost_name ≡ cells.entry.ghost_name }
        ensures starts { Starts (said unit.now) rows.old parts.old cells.old result }
    {
        let variables = count(unit);
        let mut writer = Writer {
            rows,
            parts,
            cells,
            written: Lengths::default(),
            current: Current::start(variables),
        };
        writer.new_cells(unit, &places()[..variables]);
        writer
    }
}

impl Writer<'_> {
    ghost use Rattle.sheets.specs.Writings.{Writes, Fills, CountsAll, progress, headed};

    // A part, which may set a cell.
    fn part(&mut self, set: Option<usize>, term: &[UnitRow], after: &Current)
        requires { CountsAll self.old (headed set (over (current_in self.old.current) (current_in after.now) term.now) ∷ []) [] }
        ensures { Writes self.old (headed set (over (current_in self.old.current) (current_in after.now) term.now) ∷ []) [] (current_in self.old.current) self.new }
    {
        let first = self.written.rows;
        if let Some(cell) = set {
            push(
                self.rows,
                &mut self.written.rows,
                Row::Operator(Operator::Equal),
            );
            push(self.rows, &mut self.written.rows, Row::Mention(cell));
        }
        let before = self.current;
        push_term(self.rows, &mut self.written.rows, term, &before, after);
        let rows = self.written.rows - first;
        push(self.parts, &mut self.written.parts, Part { first, rows });
    }

    // Two cells, for a value of a type and for a shadow, with the parts that set them.
    fn two_cells(&mut self, domain: Domain, value_by: Option<usize>, shadow_by: Option<usize>)
        requires { Counts (cells_page self.old) 2 }
        ensures { Writes self.old [] (cell_for value_by domain ∷ cell_for shadow_by Boolean ∷ []) (current_in self.old.current) self.new }
    {
        push(
            self.cells,
            &mut self.written.cells,
            cell_of(domain, value_by),
        );
        push(
            self.cells,
            &mut self.written.cells,
            cell_of(Domain::Boolean, shadow_by),
        );
    }

    // Two cells for each variable that is listed, and the current cells with these in place.
    fn new_cells(&mut self, unit: &CheckedUnit<'_>, listed: &[usize]) -> Current
        requires counts { Counts (cells_page self.old) (2 * length listed.now) }
        requires known { list_all (λ v. nat_lt (2 * v + 1) self.old.current.count) listed.now ≡ true }
        ensures writes { Writes self.old [] (map (cell_for None) (types_at (said unit.now) listed.now)) (current_in self.old.current) self.new }
        ensures size { result.count ≡ self.old.current.count }
        ensures put { current_in result ≡ stored listed.now (cells_from self.old.written.cells listed.now) (current_in self.old.current) }
    {
        let mut after = self.current;
        for variable in listed {
            after.put(*variable, self.written.cells);
            self.two_cells(domain_of(unit, *variable), None, None);
        }
        after
    }

    // The two parts of an ASSIGN, which set its two cells; both terms read the cells from before it.
    fn assign(&mut self, unit: &CheckedUnit<'_>, variable: usize, shadow: Term, value: Term)
        requires counts { CountsAll self.old (parts_of (progress self.old) (sentence_in unit.now.tables.rows.now (Assign variable shadow value))) (cells_of (said unit.now) (progress self.old) (sentence_in unit.now.tables.rows.now (Assign variable shadow value))) }
        requires known { 2 * variable + 1 < self.old.current.count }
        ensures { Writes self.old (parts_of (progress self.old) (sentence_in unit.now.tables.rows.now (Assign variable shadow value))) (cells_of (said unit.now) (progress self.old) (sentence_in unit.now.tables.rows.now (Assign variable shadow value))) (moved (progress self.old) (sentence_in unit.now.tables.rows.now (Assign variable shadow value))) self.new }
    {
        let (cell, part, before) = (self.written.cells, self.written.parts, self.current);
        self.two_cells(domain_of(unit, variable), Some(part), Some(part + 1));
        self.part(Some(cell), term_rows(unit.rows(), value), &before);
        self.part(Some(cell + 1), term_rows(unit.rows(), shadow), &before);
        self.current.put(variable, cell);
    }

    // What a statement adds to the sheet.
    pub(super) fn statement(&mut self, unit: &CheckedUnit<'_>, statement: Statement)
        requires counts { CountsAll self.old (parts_of (progress self.old) (sentence_in unit.now.tables.rows.now statement)) (cells_of (said unit.now) (progress self.old) (sentence_in unit.now.tables.rows.now statement)) }
        requires known { list_all (λ v. nat_lt (2 * v + 1) self.old.current.count) (listed (sentence_in unit.now.tables.rows.now statement)) ≡ true }
        ensures { Writes self.old (parts_of (progress self.old) (sentence_in unit.now.tables.rows.now statement)) (cells_of (said unit.now) (progress self.old) (sentence_in unit.now.tables.rows.now statement)) (moved (progress self.old) (sentence_in unit.now.tables.rows.now statement)) self.new }
    {
        let (rows, before) = (unit.rows(), self.current);
        match statement {
            Statement::Require { condition, .. }
            | Statement::Proclaim { condition }
            | Statement::When { condition, .. } => {
                self.part(None, term_rows(rows, condition), &before);
            }
            Statement::New {
                listing,
                condition,
                ..
            } => {
                let after = self.new_cells(unit, listing.listed());
                self.part(None, term_rows(rows, condition), &after);
                self.current = after;
            }
            Statement::Assign {
                variable,
                shadow,
                value,
            } => self.assign(unit, variable, shadow, value),
            _ => {}
        }
    }

    // What the statement at a place adds.
    fn visit(&mut self, unit: &CheckedUnit<'_>, place: usize)
        requires counts { CountsAll self.old (parts_of (progress self.old) (sentence (said unit.now) place)) (cells_of (said unit.now) (progress self.old) (sentence (said unit.now) place)) }
        requires size { self.old.current.count ≡ 2 * length (said unit.now).variables }
        ensures { Writes self.old (parts_of (progress self.old) (sentence (said unit.now) place)) (cells_of (said unit.now) (progress self.old) (sentence (said unit.now) place)) (moved (progress self.old) (sentence (said unit.now) place)) self.new }
    {
        self.statement(unit, statement_at(unit, place));
    }

    // What the statements of a path add, from its first turn on.
    pub(super) fn along(&mut self, unit: &CheckedUnit<'_>, first: Turn)
        requires counts { CountsAll self.old (parts_along (said unit.now) (progress self.old) (told (steps_of (said unit.now)) first)) (cells_along (said unit.now) (progress self.old) (told (steps_of (said unit.now)) first)) }
        requires size { self.old.current.count ≡ 2 * length (said unit.now).variables }
        requires tells { Tells (steps_of (said unit.now)) first }
        ensures lent_rows { self.new.rows.ghost_name ≡ self.old.rows.ghost_name }
        ensures lent_parts { self.new.parts.ghost_name ≡ self.old.parts.ghost_name }
        ensures lent_cells { self.new.cells.ghost_name ≡ self.old.cells.ghost_name }
        ensures fills { Fills self.old (parts_along (said unit.now) (progress self.old) (told (steps_of (said unit.now)) first)) (cells_along (said unit.now) (progress self.old) (told (steps_of (said unit.now)) first)) self.new }
    {
        let mut turn = Some(first);
        while let Some(here) = turn {
            self.visit(unit, here.place());
            turn = unit.after(here);
        }
    }
}
