// Valuations of written sheets, replayed.

use super::buffers::Buffers;
use super::units::{FORK, Held, LIMIT, PAST, RAISED};
use checking::unit::CheckedUnit;
use jcode::refusal::Refusal;
use reckoning::mark::ANY;
use sheets::replay::replay;
use sheets::sheet::Sheet;
use sheets::writing::write;
use std::process::Abort;
use std::test::Fail;
use terms::part::part;

// A unit and the number of a path, and what the replay of a valuation of its sheet tells.
static REPLAYS: [(&'static [u8], usize, &'static [i64], Result<bool, Refusal>); 19] = [
    (LIMIT, 1, &[7, 0, 8, 1], Ok(true)),
    // what the shadow is at the start is all one, and what stands past the cells too
    (LIMIT, 1, &[7, 1, 8, 1, 99], Ok(true)),
    (LIMIT, 1, &[6, 0, 7, 1], Ok(false)),
    (LIMIT, 1, &[6, 0, 8, 1], Ok(false)),
    // cells that are not what they are set to
    (LIMIT, 1, &[7, 0, 9, 1], Ok(false)),
    (LIMIT, 1, &[7, 0, 8, 0], Ok(false)),
    // the PROCLAIM is false
    (LIMIT, 1, &[8, 0, 9, 1], Ok(false)),
    (LIMIT, 1, &[9, 0, 10, 1], Err(Refusal::Valuation)),
    (LIMIT, 1, &[7, 0, 8], Err(Refusal::Valuation)),
    (LIMIT, 1, &[7, 2, 8, 1], Err(Refusal::Valuation)),
    (LIMIT, 1, &[-1, 0, 0, 1], Err(Refusal::Valuation)),
    // no value of the type is what the ASSIGN demands
    (PAST, 0, &[0, 0, 10, 1], Err(Refusal::Valuation)),
    (PAST, 0, &[0, 0, 9, 1], Ok(false)),
    // the NEW's cell, and not the one before it
    (RAISED, 0, &[3, 0, 4, 1], Ok(true)),
    (RAISED, 0, &[3, 1, 4, 0], Ok(false)),
    (RAISED, 0, &[3, 0, 5, 1], Ok(false)),
    (RAISED, 0, &[4, 0, 3, 1], Ok(false)),
    // a run that failed at the first REQUIRE does not come to the second
    (FORK, 1, &[9, 0], Ok(true)),
    (FORK, 2, &[9, 0], Ok(false)),
];

// What the replay of a valuation tells of a path's sheet.
fn replayed(
    unit: &CheckedUnit<'_>,
    number: usize,
    valuation: &[i64],
    marks: usize,
) -> Option<Result<bool, Refusal>> {
    let mut buffers = Buffers::spare();
    let lengths = write(
        unit,
        number,
        &mut buffers.rows,
        &mut buffers.parts,
        &mut buffers.cells,
    )
    .ok()?;
    let mut sheet = Sheet::unfilled();
    sheet
        .fill(
            part(&buffers.rows, 0, lengths.rows),
            part(&buffers.parts, 0, lengths.parts),
            part(&buffers.cells, 0, lengths.cells),
        )
        .ok()?;
    let mut working = [ANY; 38];
    let told = replay(&sheet, valuation, &mut working[..marks.min(38)]);
    Some(told.map_err(|fault| fault.refusal))
}

fn tells(
    rt: &impl Abort,
    bytes: &[u8],
    number: usize,
    valuation: &[i64],
    told: Result<bool, Refusal>,
) -> Result<(), Fail> {
    let Some(held) = Held::read(bytes) else {
        return Err(Fail::new("it was not read"));
    };
    let Some(unit) = held.checked() else {
        return Err(Fail::new("it was refused"));
    };
    let replayed = replayed(&unit, number, valuation, 38);
    assert!(rt; replayed == Some(told), "{valuation:?} of path {number}");
    Ok(())
}

#[test]
fn valuations_of_paths(rt: HostRuntime) -> Result<(), Fail> {
    for (bytes, number, valuation, told) in REPLAYS.iter() {
        tells(&rt, bytes, *number, valuation, *told)?;
    }
    Ok(())
}

// One mark for each of four cells and of seventeen rows.
#[test]
fn marks_for_limit(rt: HostRuntime) -> Result<(), Fail> {
    let Some(held) = Held::read(LIMIT) else {
        return Err(Fail::new("it was not read"));
    };
    let Some(unit) = held.checked() else {
        return Err(Fail::new("it was refused"));
    };
    let valuation = [7, 0, 8, 1];
    assert!(rt; replayed(&unit, 1, &valuation, 21) == Some(Ok(true)));
    assert!(rt; replayed(&unit, 1, &valuation, 20) == Some(Err(Refusal::Buffer)));
    // ahead of a valuation that is short
    assert!(rt; replayed(&unit, 1, &valuation[..3], 20) == Some(Err(Refusal::Buffer)));
    assert!(rt; replayed(&unit, 1, &valuation[..3], 21) == Some(Err(Refusal::Valuation)));
    Ok(())
}
