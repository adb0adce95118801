// Reading a unit into three tables.

ghost use Rattle.std.specs.Prelude.{◌≡◌, Err};
ghost use Rattle.jcode.specs.declared.refusal.Layer.TheVariants.{Reading};
ghost use Rattle.jcode.specs.Notation.{AcceptsExactly};
ghost use Rattle.jcode.specs.Pieces.{Reads};
ghost use Rattle.jcode.specs.Refusals.{layer_of};
ghost use Rattle.jcode.specs.ReadUnits.{read_heading, tables, read_unit, answered, left_by, attempted, achieved};

use super::cursor::Cursor;
use super::mention::UnitRow;
use super::refusal::ReadFault;
use super::scope::Scope;
use super::span::Span;
use super::statement::Statement;
use super::table::Table;
use super::variable::Variable;
use terms::row::Row;

// What a reading tells of a unit: its name, how many records of each table it fills, and the byte after it.
#[derive(Clone, Copy, Debug, Default, PartialEq, Eq)]
pub struct Outline {
    pub name: Span,
    pub variables: usize,
    pub statements: usize,
    pub rows: usize,
    pub next: usize,
}

// A production of the notation like those of the other readers.
impl Cursor<'_> {
    #[tactic(auto, unfolding(crate::specs::ReadUnits::read_heading))]
    fn heading(&mut self) -> Result<Span, ReadFault>
        ensures { Reads read_heading self.old result self.new }
    {
        self.keyword(b"BEGIN")?;
        self.gap()?;
        let name = self.name()?;
        self.end()?;
        Ok(name)
    }
}

// Reads a unit into empty tables; where it is refused, they hold what was read of it. Three tables and no struct of them: only this call has all three.
fn attempt(
    bytes: &[u8],
    start: usize,
    variables: &mut Table<Variable>,
    statements: &mut Table<Statement>,
    rows: &mut Table<UnitRow>,
) -> Result<Outline, ReadFault>
    requires { (variables.old.count ≡ 0) × (statements.old.count ≡ 0) × (rows.old.count ≡ 0) }
    ensures value { attempted result (tables variables.new.records.now statements.new.records.now rows.new.records.now) ≡ achieved (tables variables.old.records.now statements.old.records.now rows.old.records.now) (read_unit (tables variables.old.records.now statements.old.records.now rows.old.records.now) bytes.now start) }
    ensures variables_lent { variables.new.records.ghost_name ≡ variables.old.records.ghost_name }
    ensures statements_lent { statements.new.records.ghost_name ≡ statements.old.records.ghost_name }
    ensures rows_lent { rows.new.records.ghost_name ≡ rows.old.records.ghost_name }
{
    let mut cursor = Cursor { bytes, at: start };
    let name = cursor.heading()?;
    cursor.declarations(variables)?;
    let scope = Scope {
        bytes,
        variables: variables.filled(),
        listing: None,
    };
    cursor.statements(scope, statements, rows)?;
    Ok(Outline {
        name,
        variables: variables.count,
        statements: statements.count,
        rows: rows.count,
        next: cursor.at,
    })
}

// Reads the unit that begins at `start` into the front of the tables; where it is refused, every record is left blank.
pub fn read(
    bytes: &[u8],
    start: usize,
    variables: &mut [Variable],
    statements: &mut [Statement],
    rows: &mut [UnitRow],
) -> Result<Outline, ReadFault>
    ensures result { result ≡ answered (read_unit (tables variables.old statements.old rows.old) bytes.now start) }
    ensures left { tables variables.new statements.new rows.new ≡ left_by (tables variables.old statements.old rows.old) (read_unit (tables variables.old statements.old rows.old) bytes.now start) }
    ensures layer { (f : ReadFault) → result ≡ Err f → layer_of f.refusal ≡ Reading }
    ensures notation { AcceptsExactly bytes.now start (tables variables.old statements.old rows.old) result (tables variables.new statements.new rows.new) }
{
    let outline = attempt(
        bytes,
        start,
        &mut Table::new(variables),
        &mut Table::new(statements),
        &mut Table::new(rows),
    );
    if outline.is_err() {
        variables.fill(Variable::default());
        statements.fill(Statement::default());
        rows.fill(Row::Constant(0));
    }
    outline
}
