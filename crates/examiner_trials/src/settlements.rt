// Settlements: what judges of all sorts come to.

use super::guess::Guess;
use super::slips::{handed_back, reads, taken};
use super::units::{LIMIT, Tables, branching, checked};
use checking::unit::CheckedUnit;
use examiner::examination::Examination;
use examiner::slip::{Returned, Slip};
use examiner::verdict::Judgement;
use jcode::refusal::Refusal;
use judges::pass::Pass;
use judges::relay::Relay;
use judges::trier::Trier;
use reckoning::mark::{ANY, Mark};
use reckoning::ranges::Ranges;
use sheets::cell::{Cell, CellRow};
use sheets::desk::Desk;
use sheets::judge::Judge;
use sheets::outcome::Outcome;
use sheets::part::Part;
use std::process::Abort;
use terms::kind::Kind;
use terms::row::Row;

static NO_CELL: Cell = Cell {
    kind: Kind::Number,
    low: 0,
    high: 0,
    set_by: None,
};

// It settles the unit's second sheet; the first has two cells, of which it gets the front.
static SEVEN: Guess = Guess {
    numbers: [7, 0, 8, 1],
};

static SIX: Guess = Guess {
    numbers: [6, 0, 8, 1],
};

// Its shadow lies outside its bounds.
static STRANGE: Guess = Guess {
    numbers: [7, 0, 8, 2],
};

// Settles the next condition with room enough, and tells what the valuation buffer then holds.
fn settled<J: Judge>(
    rt: &impl Abort,
    examination: &mut Examination<'_>,
    judge: &mut J,
) -> (Outcome, [i64; 5]) {
    let mut rows: [CellRow; 40] = [Row::Constant(0); 40];
    let mut parts = [Part::default(); 20];
    let mut cells = [NO_CELL; 5];
    let mut valuation = [9; 5];
    let mut working = [ANY; 60];
    let mut desk = Desk {
        rows: &mut rows,
        parts: &mut parts,
        cells: &mut cells,
        valuation: &mut valuation,
        working: &mut working,
    };
    let slip = taken(rt, examination);
    match examination.settle(slip, judge, &mut desk) {
        Ok(outcome) => (outcome, valuation),
        Err(_returned) => panic!(rt; "the slip was refused"),
    }
}

#[test]
fn the_worked_unit(rt: HostRuntime) {
    let mut tables = Tables::new();
    let unit = checked(&rt, LIMIT, &mut tables);
    let mut examination = Examination::new(unit, 0);
    let mut judge = Relay {
        first: Pass { reckoning: Ranges },
        second: Trier,
    };
    let (first, zeros) = settled(&rt, &mut examination, &mut judge);
    assert_eq!(rt; first, Outcome::Passed);
    assert!(rt; zeros == [0, 0, 9, 9, 9]);
    reads(
        &rt,
        &unit,
        examination.verdict(),
        b"Limit 2 passed 1 failed 0 open 0 verdict unfinished\n",
    );
    let (second, found) = settled(&rt, &mut examination, &mut judge);
    assert_eq!(rt; second, Outcome::Failed);
    assert!(rt; found == [7, 0, 8, 1, 9]);
    reads(
        &rt,
        &unit,
        examination.verdict(),
        b"Limit 2 passed 1 failed 1 open 0 verdict failed 1\n",
    );
}

#[test]
fn proposals_that_falsify_nothing(rt: HostRuntime) {
    let mut tables = Tables::new();
    let unit = checked(&rt, LIMIT, &mut tables);
    for liar in [SIX, STRANGE] {
        let mut examination = Examination::new(unit, 0);
        let mut judge = liar;
        for _ in 0..2 {
            let (outcome, _) = settled(&rt, &mut examination, &mut judge);
            assert_eq!(rt; outcome, Outcome::Open);
        }
        reads(
            &rt,
            &unit,
            examination.verdict(),
            b"Limit 2 passed 0 failed 0 open 2 verdict open\n",
        );
    }
    let mut examination = Examination::new(unit, 0);
    let mut judge = SEVEN;
    let (first, zeros) = settled(&rt, &mut examination, &mut judge);
    assert_eq!(rt; first, Outcome::Open);
    assert!(rt; zeros == [0, 0, 9, 9, 9]);
    let (second, _) = settled(&rt, &mut examination, &mut judge);
    assert_eq!(rt; second, Outcome::Failed);
    reads(
        &rt,
        &unit,
        examination.verdict(),
        b"Limit 2 passed 0 failed 1 open 1 verdict failed 1\n",
    );
}

// Another judge at each settlement.
#[test]
fn the_lowest_that_failed(rt: HostRuntime) {
    let mut tables = Tables::new();
    let mut examination = Examination::new(CheckedUnit::house(), 0);
    let (only, _) = settled(&rt, &mut examination, &mut Guess { numbers: [3; 4] });
    assert_eq!(rt; only, Outcome::Failed);
    assert_eq!(rt; examination.verdict().judgement, Judgement::Failed(0));
    let mut examination = Examination::new(checked(&rt, LIMIT, &mut tables), 0);
    let (first, _) = settled(&rt, &mut examination, &mut Pass { reckoning: Ranges });
    assert_eq!(rt; first, Outcome::Passed);
    let (second, _) = settled(&rt, &mut examination, &mut Trier);
    assert_eq!(rt; second, Outcome::Failed);
    assert_eq!(rt; examination.verdict().judgement, Judgement::Failed(1));
}

// What a desk holds whose buffers have these lengths; the second sheet of the unit has 17 rows in 5 parts, and 4 cells.
#[derive(Clone, Copy)]
struct Lengths {
    rows: usize,
    parts: usize,
    cells: usize,
    valuation: usize,
    working: usize,
}

static JUST: Lengths = Lengths {
    rows: 17,
    parts: 5,
    cells: 4,
    valuation: 4,
    working: 21,
};

// Settles the second condition of the unit on such a desk, which a refusal leaves as it was, slip and all.
fn settles(rt: &impl Abort, examination: &mut Examination<'_>, lengths: Lengths) -> bool {
    let mut rows: [CellRow; 17] = [Row::Constant(9); 17];
    let mut parts = [Part { first: 9, rows: 9 }; 5];
    let mut cells = [NO_CELL; 4];
    let mut valuation = [9; 4];
    let mut working = [ANY; 21];
    let mut desk = Desk {
        rows: &mut rows[..lengths.rows.min(17)],
        parts: &mut parts[..lengths.parts.min(5)],
        cells: &mut cells[..lengths.cells.min(4)],
        valuation: &mut valuation[..lengths.valuation.min(4)],
        working: &mut working[..lengths.working.min(21)],
    };
    let slip = taken(rt, examination);
    match examination.settle(slip, &mut Trier, &mut desk) {
        Ok(_) => true,
        Err(Returned { slip, fault }) => {
            assert_eq!(rt; fault.refusal, Refusal::Buffer);
            assert_eq!(rt; fault.place, 0);
            assert_eq!(rt; slip.number(), 1);
            handed_back(rt, examination, slip);
            assert!(rt; rows == [Row::Constant(9); 17]);
            assert!(rt; parts == [Part { first: 9, rows: 9 }; 5]);
            assert!(rt; cells == [NO_CELL; 4]);
            assert!(rt; valuation == [9; 4]);
            assert!(rt; working == [ANY; 21]);
            false
        }
    }
}

#[test]
fn buffers_one_too_short(rt: HostRuntime) {
    let mut tables = Tables::new();
    let unit = checked(&rt, LIMIT, &mut tables);
    let mut examination = Examination::new(unit, 0);
    let (first, _) = settled(&rt, &mut examination, &mut Trier);
    assert_eq!(rt; first, Outcome::Passed);
    let shorts = [
        Lengths { rows: 16, ..JUST },
        Lengths { parts: 4, ..JUST },
        Lengths { cells: 3, ..JUST },
        Lengths {
            valuation: 3,
            ..JUST
        },
        Lengths {
            working: 20,
            ..JUST
        },
    ];
    for short in shorts {
        assert!(rt; !settles(&rt, &mut examination, short));
    }
    reads(
        &rt,
        &unit,
        examination.verdict(),
        b"Limit 2 passed 1 failed 0 open 0 verdict unfinished\n",
    );
    assert!(rt; settles(&rt, &mut examination, JUST));
    reads(
        &rt,
        &unit,
        examination.verdict(),
        b"Limit 2 passed 1 failed 1 open 0 verdict failed 1\n",
    );
}

// The slip, refused as one that is not out, on a desk with no room.
fn not_settled(rt: &impl Abort, examination: &mut Examination<'_>, slip: Slip) -> Slip {
    let mut desk = Desk {
        rows: &mut [],
        parts: &mut [],
        cells: &mut [],
        valuation: &mut [],
        working: &mut [],
    };
    match examination.settle(slip, &mut Trier, &mut desk) {
        Ok(_) => panic!(rt; "it was settled"),
        Err(Returned { slip, fault }) => {
            assert_eq!(rt; fault.refusal, Refusal::Slip);
            slip
        }
    }
}

// A twin's slip: while none is out, and while the one with the next number is.
#[test]
fn strange_slips_are_not_settled(rt: HostRuntime) {
    let mut tables = Tables::new();
    let unit = checked(&rt, LIMIT, &mut tables);
    let mut examination = Examination::new(unit, 5);
    let mut twin = Examination::new(unit, 5);
    let strange = taken(&rt, &mut twin);
    let strange = not_settled(&rt, &mut examination, strange);
    let (first, _) = settled(&rt, &mut examination, &mut Trier);
    assert_eq!(rt; first, Outcome::Passed);
    let own = taken(&rt, &mut examination);
    assert_eq!(rt; own.number(), 1);
    let strange = not_settled(&rt, &mut examination, strange);
    handed_back(&rt, &mut twin, strange);
    handed_back(&rt, &mut examination, own);
}

// Sixteen splits in a row, each with two ways on.
#[test]
fn as_many_paths_as_there_may_be(rt: HostRuntime) {
    let bytes = match branching(rt.alloc(), 16) {
        Ok(bytes) => bytes,
        Err(_) => panic!(rt; "no memory is left"),
    };
    let mut tables = Tables::new();
    let unit = checked(&rt, &bytes, &mut tables);
    let mut examination = Examination::new(unit, 0);
    let mut judge = Pass { reckoning: Ranges };
    for _ in 0..65_536 {
        let (outcome, _) = settled(&rt, &mut examination, &mut judge);
        assert_eq!(rt; outcome, Outcome::Passed);
    }
    reads(
        &rt,
        &unit,
        examination.verdict(),
        b"Forks 65536 passed 65536 failed 0 open 0 verdict cleared\n",
    );
}
