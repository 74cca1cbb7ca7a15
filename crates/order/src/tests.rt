//! Samples of load orders and of units that have none.

use crate::{Fault, Unit, arrange};

fn unit(name: &[u8], rank: u8, needs: u16) -> Unit<'_> {
    Unit {
        rank,
        name,
        needs,
        misses: false,
    }
}

/// How many places the order has, and the first three, 0 where there is none.
fn order(units: &[Unit<'_>]) -> Result<(usize, u8, u8, u8), Fault> {
    let order = arrange(units)?;
    let places = order.as_slice();
    let at = |k: usize| places.get(k).copied().unwrap_or(0);
    Ok((places.len(), at(0), at(1), at(2)))
}

#[test]
fn named_units_come_first(rt: HostRuntime) {
    let same = [
        unit(b"A", 100, 0b100),
        unit(b"B", 100, 0),
        unit(b"C", 100, 0),
    ];
    assert_eq!(rt; order(&same), Ok((3, 1, 2, 0)));
    let ranked = [
        unit(b"A", 100, 0b100),
        unit(b"B", 100, 0),
        unit(b"C", 50, 0),
    ];
    assert_eq!(rt; order(&ranked), Ok((3, 2, 0, 1)));
    assert_eq!(rt; order(&[]), Ok((0, 0, 0, 0)));
}

#[test]
fn names_go_byte_by_byte(rt: HostRuntime) {
    let begun = [unit(b"Box2", 7, 0), unit(b"Box", 7, 0), unit(b"B", 7, 0)];
    assert_eq!(rt; order(&begun), Ok((3, 2, 1, 0)));
    let differ = [unit(b"Ab", 7, 0), unit(b"AZZ", 7, 0), unit(b"A_", 7, 0)];
    assert_eq!(rt; order(&differ), Ok((3, 1, 2, 0)));
}

#[test]
fn cycles_are_told_by_least_name(rt: HostRuntime) {
    assert_eq!(rt;
        order(&[unit(b"A", 1, 0), unit(b"B", 0, 0b10)]),
        Err(Fault::Cycle(1))
    );
    // C and B name each other; A only leads to them
    let leads = [
        unit(b"A", 1, 0b10),
        unit(b"C", 1, 0b100),
        unit(b"B", 9, 0b10),
    ];
    assert_eq!(rt; order(&leads), Err(Fault::Cycle(2)));
}

#[test]
fn missing_units_are_told_before_cycles(rt: HostRuntime) {
    let both = [
        unit(b"A", 1, 1),
        Unit {
            misses: true,
            ..unit(b"C", 0, 0)
        },
        Unit {
            misses: true,
            ..unit(b"B", 9, 0)
        },
    ];
    assert_eq!(rt; order(&both), Err(Fault::Missing(2)));
    // no unit stands at place 1
    assert_eq!(rt; order(&[unit(b"A", 1, 0b10)]), Err(Fault::Missing(0)));
}

#[test]
fn sixteen_units_at_most(rt: HostRuntime) {
    assert_eq!(rt; order(&[unit(b"A", 1, 0); 16]), Ok((16, 0, 1, 2)));
    assert_eq!(rt; order(&[unit(b"A", 1, 0); 17]), Err(Fault::TooMany));
}
