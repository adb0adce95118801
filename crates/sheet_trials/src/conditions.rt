// Paths' sheets, written into lent buffers: what these hold then, and what is refused.

use super::buffers::Buffers;
use super::units::{Held, LIMIT};
use super::written::{SHEETS, Written};
use checking::unit::CheckedUnit;
use jcode::refusal::Refusal;
use sheets::part::Part;
use sheets::writing::{Lengths, measure, write};
use std::process::Abort;
use std::test::Fail;
use terms::operator::Operator;
use terms::row::Row;

// Whether the sheet is written as it is drawn out, with the rest of the buffers as it was.
fn is_written(unit: &CheckedUnit<'_>, sheet: &Written) -> bool {
    let mut buffers = Buffers::spare();
    let told = write(
        unit,
        sheet.number,
        &mut buffers.rows,
        &mut buffers.parts,
        &mut buffers.cells,
    );
    told == Ok(sheet.lengths()) && buffers.begin(sheet.rows, sheet.parts, sheet.cells)
}

// By what a path is refused in so much room, if all buffers are as they were.
fn refusal(unit: &CheckedUnit<'_>, number: usize, room: Lengths) -> Option<Refusal> {
    let mut buffers = Buffers::spare();
    let fault = write(
        unit,
        number,
        &mut buffers.rows[..room.rows.min(24)],
        &mut buffers.parts[..room.parts.min(8)],
        &mut buffers.cells[..room.cells.min(14)],
    )
    .err()?;
    let kept = buffers.begin(&[], &[], &[]);
    (kept && fault.place == 0).then_some(fault.refusal)
}

// Whether there has to be so much room and no less.
fn is_needed(unit: &CheckedUnit<'_>, number: usize, room: Lengths) -> bool {
    let fewer_rows = Lengths {
        rows: room.rows.saturating_sub(1),
        ..room
    };
    let fewer_parts = Lengths {
        parts: room.parts.saturating_sub(1),
        ..room
    };
    let fewer_cells = Lengths {
        cells: room.cells.saturating_sub(1),
        ..room
    };
    refusal(unit, number, room) == None
        && refusal(unit, number, fewer_rows) == Some(Refusal::Buffer)
        && refusal(unit, number, fewer_parts) == Some(Refusal::Buffer)
        && refusal(unit, number, fewer_cells) == Some(Refusal::Buffer)
}

fn stands(rt: &impl Abort, sheet: &Written) -> Result<(), Fail> {
    let bytes = sheet.unit;
    let Some(held) = Held::read(bytes) else {
        return Err(Fail::new(format_args!("it was not read: {bytes:?}")));
    };
    let Some(unit) = held.checked() else {
        return Err(Fail::new(format_args!("it was refused: {bytes:?}")));
    };
    let (number, lengths) = (sheet.number, sheet.lengths());
    assert_eq!(rt;
        measure(&unit, number),
        Ok(lengths),
        "path {number} of {bytes:?}"
    );
    assert!(rt; is_written(&unit, sheet), "path {number} of {bytes:?}");
    assert!(rt;
        is_needed(&unit, number, lengths),
        "path {number} of {bytes:?}"
    );
    Ok(())
}

#[test]
fn sheets_are_written(rt: HostRuntime) -> Result<(), Fail> {
    for sheet in SHEETS.iter() {
        stands(&rt, sheet)?;
    }
    Ok(())
}

#[test]
fn numbers_past_the_last_are_refused(rt: HostRuntime) -> Result<(), Fail> {
    let Some(held) = Held::read(LIMIT) else {
        return Err(Fail::new("it was not read"));
    };
    let Some(unit) = held.checked() else {
        return Err(Fail::new("it was refused"));
    };
    let room = Lengths {
        rows: 24,
        parts: 8,
        cells: 14,
    };
    for number in [2, 3, 65_536, usize::MAX] {
        let told = measure(&unit, number).map_err(|fault| fault.refusal);
        assert_eq!(rt; told, Err(Refusal::Condition), "{number}");
        assert!(rt;
            refusal(&unit, number, room) == Some(Refusal::Condition),
            "{number}"
        );
        // ahead of buffers that are too short
        let none = Lengths::default();
        assert!(rt;
            refusal(&unit, number, none) == Some(Refusal::Condition),
            "{number}"
        );
    }
    Ok(())
}

// The unit of a place that no check has filled.
#[test]
fn the_house_has_one_sheet(rt: HostRuntime) {
    let unit = CheckedUnit::house();
    let mut buffers = Buffers::spare();
    let lengths = Lengths {
        rows: 1,
        parts: 1,
        cells: 0,
    };
    assert!(rt; measure(&unit, 0) == Ok(lengths));
    assert!(rt; write(&unit, 0, &mut buffers.rows, &mut buffers.parts, &mut []) == Ok(lengths));
    let rows = [Row::Operator(Operator::False)];
    assert!(rt; buffers.begin(&rows, &[Part { first: 0, rows: 1 }], &[]));
    assert!(rt; refusal(&unit, 1, lengths) == Some(Refusal::Condition));
}
