// jexam: reads units from standard input, examines each, and writes a line for each.
#![tactic(auto)]

ghost use Rattle.std.specs.Prelude.{◌≡◌, ◌≤◌, length, IfOk};
ghost use Rattle.checking.specs.declared.fault.CheckFault.TheVariants.{Reading};
ghost use Rattle.jexam.specs.declared.Fault.TheVariants.{Refused, Unsettled};

use anyhow::anyhow;
use checking::fault::CheckFault;
use checking::unit::CheckedUnit;
use examiner::examination::Examination;
use examiner::slip::Returned;
use jcode::mention::{ROW_LIMIT, UnitRow};
use jcode::reader::read;
use jcode::refusal::{ReadFault, Refusal};
use jcode::statement::{LIST_LIMIT, STATEMENT_LIMIT, Statement};
use jcode::variable::{VARIABLE_LIMIT, Variable};
use judges::pass::Pass;
use judges::relay::Relay;
use judges::trier::Trier;
use reckoning::mark::Mark;
use reckoning::ranges::Ranges;
use sheets::cell::{Cell, CellRow};
use sheets::desk::Desk;
use sheets::fault::SheetFault;
use sheets::judge::Judge;
use sheets::part::Part;
use std::alloc::AllocError;
use std::io;
use std::io::{Read, Write};
use std::process::ExitCode;
use terms::kind::Kind;
use terms::row::Row;

// The most bytes that may come.
const INPUT_LIMIT: usize = 65_536;

// One byte more than may come, to see whether it does.
const BUFFER: usize = INPUT_LIMIT + 1;

// Room for the sheet of any path, which comes to a statement once at most: a statement lists a few variables, and gives two parts at most, of which an ASSIGN's have two rows more than its terms.
const SHEET_CELLS: usize = 2 * VARIABLE_LIMIT + 2 * LIST_LIMIT * STATEMENT_LIMIT;

const SHEET_PARTS: usize = 2 * STATEMENT_LIMIT;

const SHEET_ROWS: usize = ROW_LIMIT + 4 * STATEMENT_LIMIT;

// What stands in the cells of a desk before it is used.
const NO_CELL: Cell = Cell {
    kind: Kind::Number,
    low: 0,
    high: 0,
    set_by: None,
};

// Room for a line: a name of 32 bytes, and what stands after it.
const LINE_LIMIT: usize = 192;

// Why the program stops: what it was given is refused, a condition cannot be settled, or the machine fails it.
#[derive(Drop)]
enum Fault {
    Refused(CheckFault),
    Unsettled(SheetFault),
    Memory(AllocError),
    Device(io::Error),
}

impl From<ReadFault> for Fault {
    ghost from_gives = { λ fault r. r ≡ Refused (Reading fault) };

    fn from(value: ReadFault) -> Fault {
        Fault::Refused(value.into())
    }
}

impl From<CheckFault> for Fault {
    ghost from_gives = { λ fault r. r ≡ Refused fault };

    fn from(value: CheckFault) -> Fault {
        Fault::Refused(value)
    }
}

impl From<SheetFault> for Fault {
    ghost from_gives = { λ fault r. r ≡ Unsettled fault };

    fn from(value: SheetFault) -> Fault {
        Fault::Unsettled(value)
    }
}

impl From<AllocError> for Fault {
    fn from(value: AllocError) -> Fault {
        Fault::Memory(value)
    }
}

impl From<io::Error> for Fault {
    fn from(value: io::Error) -> Fault {
        Fault::Device(value)
    }
}

// Standard input to its end, or as much of it as the buffer takes; how much that is.
fn input(rt: &HostRuntime, buffer: &mut [u8]) -> Result<usize, Fault>
    ensures { IfOk result (λ n. n ≤ length buffer.old) }
{
    let length = buffer.len();
    let mut room = buffer;
    io::copy(&mut rt.stdin().take(length as u64), &mut room)?;
    Ok(length.saturating_sub(room.len()))
}

// Settles the next condition. A slip that comes back is handed back at once, so that none is owed.
fn settle_next<J: Judge>(
    examination: &mut Examination<'_>,
    judge: &mut J,
    desk: &mut Desk<'_>,
) -> Result<(), SheetFault> {
    let slip = examination.take()?;
    match examination.settle(slip, judge, desk) {
        Ok(_) => Ok(()),
        Err(Returned { slip, fault }) => match examination.hand_back(slip) {
            Ok(()) => Err(fault),
            Err(_owed) => unreachable!(),
        },
    }
}

// Settles every condition of a unit by a pass over ranges, and by trying where that is unsure, and writes the unit's line.
fn examine(unit: CheckedUnit<'_>, desk: &mut Desk<'_>, line: &mut [u8]) -> Result<usize, SheetFault>
    ensures { IfOk result (λ written. written ≤ length line.new) }
{
    let mut examination = Examination::new(unit, 0);
    let mut judge = Relay {
        first: Pass { reckoning: Ranges },
        second: Trier,
    };
    for _ in 0..unit.paths() {
        settle_next(&mut examination, &mut judge, desk)?;
    }
    examination.verdict().report(&unit, line)
}

// A line for each unit.
fn run(rt: &HostRuntime) -> Result<(), Fault> {
    // An array, so that no input can fail for want of memory.
    let mut buffer = [0; BUFFER];
    let count = input(rt, &mut buffer)?;
    if count > INPUT_LIMIT {
        let fault = ReadFault {
            refusal: Refusal::Limit,
            place: INPUT_LIMIT,
        };
        return Err(fault.into());
    }
    let bytes = &buffer[..count];
    // Arrays of the limits: each unit that may be read fits them, and so does the sheet of each path.
    let mut variables = [Variable::default(); VARIABLE_LIMIT];
    let mut statements = [Statement::default(); STATEMENT_LIMIT];
    let mut rows: [UnitRow; ROW_LIMIT] = [Row::Constant(0); ROW_LIMIT];
    let mut desk = Desk {
        rows: &mut [Row::Constant(0); SHEET_ROWS],
        parts: &mut [Part::default(); SHEET_PARTS],
        cells: &mut [NO_CELL; SHEET_CELLS],
        valuation: &mut [0; SHEET_CELLS],
        working: &mut [Mark { low: 0, high: 0 }; SHEET_CELLS + SHEET_ROWS],
    };
    let mut line = [0; LINE_LIMIT];
    let mut stdout = rt.stdout();
    let mut at = 0;
    while at < bytes.len() {
        let outline = read(bytes, at, &mut variables, &mut statements, &mut rows)?;
        let mut unit = CheckedUnit::house();
        unit.check(
            bytes,
            outline.name,
            &variables[..outline.variables],
            &statements[..outline.statements],
            &rows[..outline.rows],
        )?;
        let written = examine(unit, &mut desk, &mut line)?;
        stdout.write_all(&line[..written])?;
        at = outline.next;
    }
    Ok(())
}

fn main(rt: HostRuntime) -> anyhow::Result<ExitCode> {
    match run(&rt) {
        Ok(()) => Ok(ExitCode::SUCCESS),
        Err(Fault::Refused(fault)) => {
            println!(rt; "{fault}")?;
            Ok(ExitCode::FAILURE)
        }
        Err(Fault::Unsettled(fault)) => {
            println!(rt; "{fault}")?;
            Ok(ExitCode::FAILURE)
        }
        Err(Fault::Memory(_)) => Err(anyhow!("out of memory")),
        Err(Fault::Device(error)) => Err(error.into()),
    }
}
