// Slips, and the calls that take them and refuse them.

use super::units::{IDLE, LIMIT, Tables, checked};
use checking::unit::CheckedUnit;
use examiner::examination::Examination;
use examiner::slip::{Returned, Slip};
use examiner::verdict::{Judgement, Verdict};
use jcode::refusal::Refusal;
use std::process::Abort;

pub(super) fn taken(rt: &impl Abort, examination: &mut Examination<'_>) -> Slip {
    match examination.take() {
        Ok(slip) => slip,
        Err(_) => panic!(rt; "no slip was handed out"),
    }
}

pub(super) fn handed_back(rt: &impl Abort, examination: &mut Examination<'_>, slip: Slip) {
    match examination.hand_back(slip) {
        Ok(()) => {}
        Err(_returned) => panic!(rt; "the slip was refused"),
    }
}

// The slip, refused as one that is not out.
fn refused(rt: &impl Abort, examination: &mut Examination<'_>, slip: Slip) -> Slip {
    match examination.hand_back(slip) {
        Ok(()) => panic!(rt; "the slip was taken back"),
        Err(Returned { slip, fault }) => {
            assert_eq!(rt; fault.refusal, Refusal::Slip);
            assert_eq!(rt; fault.place, 0);
            slip
        }
    }
}

fn takes_none(rt: &impl Abort, examination: &mut Examination<'_>, refusal: Refusal) {
    match examination.take() {
        Ok(_slip) => panic!(rt; "a slip was handed out"),
        Err(fault) => assert_eq!(rt; fault.refusal, refusal),
    }
}

#[test]
fn a_unit_with_no_path(rt: HostRuntime) {
    let mut tables = Tables::new();
    let mut examination = Examination::new(checked(&rt, IDLE, &mut tables), 5);
    takes_none(&rt, &mut examination, Refusal::Condition);
    assert_eq!(rt; examination.verdict().judgement, Judgement::Cleared);
}

#[test]
fn a_slip_is_handed_out_again(rt: HostRuntime) {
    let mut tables = Tables::new();
    let mut examination = Examination::new(checked(&rt, LIMIT, &mut tables), 5);
    let slip = taken(&rt, &mut examination);
    assert_eq!(rt; slip.tag(), 5);
    assert_eq!(rt; slip.number(), 0);
    takes_none(&rt, &mut examination, Refusal::SlipOut);
    handed_back(&rt, &mut examination, slip);
    let slip = taken(&rt, &mut examination);
    assert_eq!(rt; slip.number(), 0);
    handed_back(&rt, &mut examination, slip);
    assert_eq!(rt; examination.verdict().judgement, Judgement::Unfinished);
}

#[test]
fn slips_of_others(rt: HostRuntime) {
    let mut tables = Tables::new();
    let unit = checked(&rt, LIMIT, &mut tables);
    let mut examination = Examination::new(unit, 5);
    let mut tagged = Examination::new(unit, 6);
    let mut twin = Examination::new(unit, 5);
    // none is out
    let other = taken(&rt, &mut twin);
    let other = refused(&rt, &mut examination, other);
    // another tag
    let own = taken(&rt, &mut examination);
    let strange = taken(&rt, &mut tagged);
    let strange = refused(&rt, &mut examination, strange);
    handed_back(&rt, &mut tagged, strange);
    // one like it was handed back before
    handed_back(&rt, &mut examination, own);
    let other = refused(&rt, &mut examination, other);
    handed_back(&rt, &mut twin, other);
}

pub(super) fn reads(rt: &impl Abort, unit: &CheckedUnit<'_>, verdict: Verdict, wanted: &[u8]) {
    let mut line = [7; 96];
    match verdict.report(unit, &mut line) {
        Ok(written) => {
            assert!(rt; &line[..written] == wanted);
            assert!(rt; line[written..].iter().all(|byte| *byte == 7));
        }
        Err(_) => panic!(rt; "it was refused"),
    }
}

#[test]
fn lines(rt: HostRuntime) {
    let mut tables = Tables::new();
    let unit = checked(&rt, LIMIT, &mut tables);
    let verdict = Verdict {
        passed: 1,
        failed: 10,
        open: 205,
        judgement: Judgement::Failed(1),
    };
    reads(
        &rt,
        &unit,
        verdict,
        b"Limit 2 passed 1 failed 10 open 205 verdict failed 1\n",
    );
    let unfinished = Verdict {
        judgement: Judgement::Unfinished,
        ..verdict
    };
    reads(
        &rt,
        &unit,
        unfinished,
        b"Limit 2 passed 1 failed 10 open 205 verdict unfinished\n",
    );
    let open = Verdict {
        judgement: Judgement::Open,
        ..verdict
    };
    reads(
        &rt,
        &unit,
        open,
        b"Limit 2 passed 1 failed 10 open 205 verdict open\n",
    );
    let cleared = Verdict {
        judgement: Judgement::Cleared,
        ..verdict
    };
    reads(
        &rt,
        &unit,
        cleared,
        b"Limit 2 passed 1 failed 10 open 205 verdict cleared\n",
    );
}

#[test]
fn a_line_one_byte_too_long(rt: HostRuntime) {
    let mut tables = Tables::new();
    let unit = checked(&rt, IDLE, &mut tables);
    let verdict = Examination::new(unit, 0).verdict();
    let mut just = [7; 48];
    let mut short = [7; 47];
    assert!(rt; verdict.report(&unit, &mut just) == Ok(48));
    assert!(rt; just.as_slice() == b"Idle 0 passed 0 failed 0 open 0 verdict cleared\n".as_slice());
    match verdict.report(&unit, &mut short) {
        Ok(_) => panic!(rt; "it was written"),
        Err(fault) => assert_eq!(rt; fault.refusal, Refusal::Buffer),
    }
    assert!(rt; short == [7; 47]);
}
