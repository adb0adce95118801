// Conditions that are settled on a desk, by judges that know nothing or propose.

use super::buffers::Buffers;
use super::judges::{Counting, Lent, Proposing, Seven};
use super::units::{Held, LIMIT, PAST, RAISED};
use super::written::{SHEETS, Written};
use checking::unit::CheckedUnit;
use jcode::refusal::Refusal;
use sheets::desk::Desk;
use sheets::judge::Judge;
use sheets::outcome::Outcome;
use sheets::settling::settle;
use std::process::Abort;
use std::test::Fail;

// How many rows, parts, cells, numbers of a valuation and working marks are lent.
type Room = [usize; 5];

const ALL: Room = [24, 8, 14, 14, 38];

// As what the condition of a path is settled on a desk of spare buffers in so much room, and what these hold then.
fn settled<J: Judge>(
    unit: &CheckedUnit<'_>,
    number: usize,
    judge: &mut J,
    room: Room,
) -> (Result<Outcome, Refusal>, Buffers) {
    let [rows, parts, cells, numbers, marks] = room;
    let mut buffers = Buffers::spare();
    let mut desk = Desk {
        rows: &mut buffers.rows[..rows.min(24)],
        parts: &mut buffers.parts[..parts.min(8)],
        cells: &mut buffers.cells[..cells.min(14)],
        valuation: &mut buffers.valuation[..numbers.min(14)],
        working: &mut buffers.working[..marks.min(38)],
    };
    let told = settle(unit, number, judge, &mut desk).map_err(|fault| fault.refusal);
    (told, buffers)
}

// Whether a sheet stays open in so much room by a judge that knows nothing, and that is lent and asked once.
fn stays_open(unit: &CheckedUnit<'_>, sheet: &Written, room: Room) -> bool {
    let mut judge = Counting { asked: 0 };
    let mut lent = Lent { judge: &mut judge };
    let (told, buffers) = settled(unit, sheet.number, &mut lent, room);
    let zeros = [0; 14];
    told == Ok(Outcome::Open)
        && judge.asked == 1
        && buffers.begin(sheet.rows, sheet.parts, sheet.cells)
        && buffers.begin_valued(&zeros[..sheet.cells.len().min(14)])
}

// Whether a path is refused by this in so much room, its judge unasked and all buffers as they were.
fn is_refused(unit: &CheckedUnit<'_>, number: usize, room: Room, refusal: Refusal) -> bool {
    let mut judge = Counting { asked: 0 };
    let (told, buffers) = settled(unit, number, &mut judge, room);
    told == Err(refusal) && judge.asked == 0 && buffers == Buffers::spare()
}

// Whether one place less of any buffer is refused.
fn is_needed(unit: &CheckedUnit<'_>, number: usize, room: Room) -> bool {
    (0..5).all(|short| {
        let mut less = room;
        less[short] = less[short].saturating_sub(1);
        is_refused(unit, number, less, Refusal::Buffer)
    })
}

fn stands(rt: &impl Abort, sheet: &Written) -> Result<(), Fail> {
    let bytes = sheet.unit;
    let Some(held) = Held::read(bytes) else {
        return Err(Fail::new(format_args!("it was not read: {bytes:?}")));
    };
    let Some(unit) = held.checked() else {
        return Err(Fail::new(format_args!("it was refused: {bytes:?}")));
    };
    let (rows, cells) = (sheet.rows.len(), sheet.cells.len());
    let room = [
        rows,
        sheet.parts.len(),
        cells,
        cells,
        rows.saturating_add(cells),
    ];
    assert!(rt; stays_open(&unit, sheet, room), "{bytes:?}");
    assert!(rt; stays_open(&unit, sheet, ALL), "{bytes:?}");
    assert!(rt; is_needed(&unit, sheet.number, room), "{bytes:?}");
    Ok(())
}

#[test]
fn judges_that_know_nothing(rt: HostRuntime) -> Result<(), Fail> {
    for sheet in SHEETS.iter() {
        stands(&rt, sheet)?;
    }
    Ok(())
}

// A unit and the number of a path, the proposal, and as what the condition is settled with what numbers.
static PROPOSALS: [(&'static [u8], usize, [i64; 4], Outcome, &'static [i64]); 8] = [
    (LIMIT, 1, [7, 0, 8, 1], Outcome::Failed, &[7, 0, 8, 1]),
    (RAISED, 0, [3, 0, 4, 1], Outcome::Failed, &[3, 0, 4, 1]),
    // these falsify nothing
    (LIMIT, 1, [6, 0, 7, 1], Outcome::Open, &[0, 0, 0, 0]),
    (RAISED, 0, [3, 1, 4, 0], Outcome::Open, &[0, 0, 0, 0]),
    // nor do these, out of their bounds
    (LIMIT, 1, [9, 0, 10, 1], Outcome::Open, &[0, 0, 0, 0]),
    (PAST, 0, [0, 0, 10, 1], Outcome::Open, &[0, 0, 0, 0]),
    (
        LIMIT,
        1,
        [i64::MIN, i64::MAX, i64::MIN, i64::MAX],
        Outcome::Open,
        &[0, 0, 0, 0],
    ),
    // it has two cells, and nothing is proposed
    (LIMIT, 0, [7, 0, 8, 1], Outcome::Open, &[0, 0]),
];

fn settles(
    rt: &impl Abort,
    bytes: &[u8],
    number: usize,
    numbers: [i64; 4],
    outcome: Outcome,
    valuation: &[i64],
) -> Result<(), Fail> {
    let Some(held) = Held::read(bytes) else {
        return Err(Fail::new("it was not read"));
    };
    let Some(unit) = held.checked() else {
        return Err(Fail::new("it was refused"));
    };
    let mut judge = Proposing { numbers };
    let (told, buffers) = settled(&unit, number, &mut judge, ALL);
    assert!(rt; told == Ok(outcome), "{numbers:?} at path {number}");
    assert!(rt;
        buffers.begin_valued(valuation),
        "{numbers:?} at path {number}"
    );
    Ok(())
}

#[test]
fn proposals_are_replayed(rt: HostRuntime) -> Result<(), Fail> {
    for (bytes, number, numbers, outcome, valuation) in PROPOSALS.iter() {
        settles(&rt, bytes, *number, *numbers, *outcome, valuation)?;
    }
    Ok(())
}

#[test]
fn sevens_and_numbers_past_the_last(rt: HostRuntime) -> Result<(), Fail> {
    let Some(held) = Held::read(LIMIT) else {
        return Err(Fail::new("it was not read"));
    };
    let Some(unit) = held.checked() else {
        return Err(Fail::new("it was refused"));
    };
    let (told, buffers) = settled(&unit, 1, &mut Seven, ALL);
    assert!(rt; told == Ok(Outcome::Open));
    assert!(rt; buffers.begin_valued(&[0, 0, 0, 0]));
    for number in [2, 65_536, usize::MAX] {
        assert!(rt;
            is_refused(&unit, number, ALL, Refusal::Condition),
            "{number}"
        );
        // ahead of buffers that are too short
        assert!(rt;
            is_refused(&unit, number, [0; 5], Refusal::Condition),
            "{number}"
        );
    }
    Ok(())
}
