use crate::small::*;
use tariffs::amount::Amount;
use tariffs::charge::charge;
use tariffs::energy::Energy;
use tariffs::paired::Paired;
use tariffs::peak::Peak;
use tariffs::tariff::Tariff;

fn charged<C: Tariff>(set: &[u8]) -> C {
    charge(&small(), set)
}

#[test]
fn sets_and_other_lists(rt: HostRuntime) {
    assert_eq!(rt; charged::<Energy>(&[0, 1]).amount, 10 * 400 + 10 * 100);
    assert_eq!(rt; charged::<Energy>(&[1, 1, 0]).amount, 2_000);
    assert_eq!(rt; charged::<Energy>(&[1]).amount, 1_000);
    assert_eq!(rt; charged::<Energy>(&[0, 2]).amount, 4_000);
    assert_eq!(rt; charged::<Energy>(&[]).amount, 0);
    assert_eq!(rt; charged::<Peak>(&[1, 0]).voltage, 20);
    assert_eq!(rt; charged::<Peak>(&[1, 1]).voltage, 10);
    assert_eq!(rt; charged::<Peak>(&[]).voltage, 0);
}

// First parts decide, and second parts where the first are equal.
#[test]
fn pairs_compare_first_parts_first(rt: HostRuntime) {
    let low = Paired {
        first: Peak { voltage: 1 },
        second: Energy { amount: 100 },
    };
    let high = Paired {
        first: Peak { voltage: 2 },
        second: Energy { amount: 0 },
    };
    let same = Paired {
        first: Peak { voltage: 1 },
        second: Energy { amount: 99 },
    };
    assert!(rt; low.at_most(&high));
    assert!(rt; !high.at_most(&low));
    assert!(rt; same.at_most(&low));
    assert!(rt; !low.at_most(&same));
    assert!(rt; low.at_most(&low));
}

// Past the count of prices a join still answers.
#[test]
fn joins_never_wrap(rt: HostRuntime) {
    let most = Energy {
        amount: 18_446_744_073_709_551_615,
    };
    assert_eq!(rt; most.join(most).amount, most.amount);
}
