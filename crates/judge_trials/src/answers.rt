// What the trier and the pass answer.

use super::tables::{ALONE, PRESSED, asked, at_most, number, pressed, pressures};
use judges::pass::Pass;
use judges::trier::{Trier, trier_stands};
use reckoning::mark::ANY;
use reckoning::points::Points;
use reckoning::ranges::Ranges;
use sheets::judge::{Answer, Judge};
use sheets::sheet::Sheet;

#[test]
fn the_trier_finds_what_falsifies(rt: HostRuntime) {
    let found = asked(&mut Trier, &pressed(8), &PRESSED, &pressures());
    assert!(rt; found == Some((Answer::Fail, [7, 0, 8, 1])));
    let none = asked(&mut Trier, &pressed(9), &PRESSED, &pressures());
    assert!(rt; none == Some((Answer::Pass, [0, 0, 0, 0])));
    trier_stands(&Trier);
}

#[test]
fn the_pass_goes_by_its_reckoning(rt: HostRuntime) {
    let mut by_ranges = Pass { reckoning: Ranges };
    let mut by_points = Pass { reckoning: Points };
    let unsure = Some((Answer::Unsure, [0, 0, 0, 0]));
    assert!(rt; asked(&mut by_ranges, &pressed(9), &PRESSED, &pressures()) == unsure);
    assert!(rt;
        asked(&mut by_ranges, &pressed(10), &PRESSED, &pressures())
            == Some((Answer::Pass, [0, 0, 0, 0]))
    );
    assert!(rt; asked(&mut by_points, &pressed(10), &PRESSED, &pressures()) == unsure);
}

#[test]
fn as_many_tries_as_there_may_be(rt: HostRuntime) {
    let most = asked(&mut Trier, &at_most(65_534), &ALONE, &[number(0, 65_535)]);
    assert!(rt; most == Some((Answer::Fail, [65_535, 5, 5, 5])));
    let more = asked(&mut Trier, &at_most(0), &ALONE, &[number(0, 65_536)]);
    assert!(rt; more == Some((Answer::Unsure, [0, 5, 5, 5])));
}

#[test]
fn cells_that_do_not_occur_take_their_low(rt: HostRuntime) {
    let cells = [number(0, 9), number(3, 2_000_000_000)];
    let found = asked(&mut Trier, &at_most(8), &ALONE, &cells);
    assert!(rt; found == Some((Answer::Fail, [9, 3, 5, 5])));
}

#[test]
fn a_set_cell_out_of_its_bounds_ends_the_try(rt: HostRuntime) {
    let mut cells = pressures();
    cells[2].high = 7;
    let none = asked(&mut Trier, &pressed(8), &PRESSED, &cells);
    assert!(rt; none == Some((Answer::Pass, [0, 0, 0, 0])));
}

#[test]
fn short_buffers_stay(rt: HostRuntime) {
    let mut sheet = Sheet::unfilled();
    let cells = [number(0, 9)];
    let rows = at_most(8);
    assert!(rt; sheet.fill(&rows, &ALONE, &cells).is_ok());
    let mut valuation = [5];
    let mut working = [ANY; 4];
    assert!(rt; Trier.ask(&sheet, &mut valuation, &mut working[..3]) == Answer::Unsure);
    assert!(rt; Trier.ask(&sheet, &mut valuation[..0], &mut working) == Answer::Unsure);
    assert!(rt; valuation == [5] && working == [ANY; 4]);
    assert!(rt; Trier.ask(&sheet, &mut valuation, &mut working) == Answer::Fail);
}
