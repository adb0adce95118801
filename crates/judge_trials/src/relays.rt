// What relays answer, and whom they ask.

use super::doubles::{Counted, Zero};
use super::tables::{PRESSED, asked, pressed, pressures};
use judges::pass::Pass;
use judges::relay::{Relay, relay_stands};
use judges::trier::Trier;
use reckoning::points::Points;
use reckoning::ranges::Ranges;
use sheets::judge::Answer;

#[test]
fn three_relays_deep(rt: HostRuntime) {
    let mut judge = Relay {
        first: Relay {
            first: Relay {
                first: Pass { reckoning: Points },
                second: Pass { reckoning: Ranges },
            },
            second: Counted {
                judge: Trier,
                asked: 0,
            },
        },
        second: Counted {
            judge: Zero,
            asked: 0,
        },
    };
    let by_ranges = asked(&mut judge, &pressed(10), &PRESSED, &pressures());
    assert!(rt; by_ranges == Some((Answer::Pass, [0, 0, 0, 0])));
    assert!(rt; judge.first.second.asked == 0);
    let by_trier = asked(&mut judge, &pressed(8), &PRESSED, &pressures());
    assert!(rt; by_trier == Some((Answer::Fail, [7, 0, 8, 1])));
    assert!(rt; judge.first.second.asked == 1 && judge.second.asked == 0);
}

#[test]
fn nonsense_is_passed_on(rt: HostRuntime) {
    let mut judge = Relay {
        first: Zero,
        second: Trier,
    };
    let nonsense = asked(&mut judge, &pressed(9), &PRESSED, &pressures());
    assert!(rt; nonsense == Some((Answer::Fail, [0, 0, 0, 0])));
    relay_stands(&judge);
}
