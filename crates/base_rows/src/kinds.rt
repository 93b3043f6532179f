//! The numbers of the kinds, and wrapping to them.
use dc_int::{Kind, wrap, wrap_to};
use std::test::Fail;

/// A kind with its bits, its least and its greatest number, and a number with what it wraps to.
struct Row {
    kind: Kind,
    bits: u32,
    least: i64,
    greatest: i64,
    number: i128,
    wrapped: i64,
}

const ROWS: [Row; 4] = [
    Row {
        kind: Kind::K1,
        bits: 8,
        least: -128,
        greatest: 127,
        number: 200,
        wrapped: -56,
    },
    Row {
        kind: Kind::K2,
        bits: 16,
        least: -32_768,
        greatest: 32_767,
        number: 32_768,
        wrapped: -32_768,
    },
    Row {
        kind: Kind::K4,
        bits: 32,
        least: -2_147_483_648,
        greatest: 2_147_483_647,
        number: -2_147_483_649,
        wrapped: 2_147_483_647,
    },
    Row {
        kind: Kind::K8,
        bits: 64,
        least: i64::MIN,
        greatest: i64::MAX,
        number: 18_446_744_073_709_551_623,
        wrapped: 7,
    },
];

#[test]
fn kinds_wrap(rt: HostRuntime) -> Result<(), Fail> {
    for row in &ROWS {
        assert_eq!(rt; row.kind.bits(), row.bits);
        assert_eq!(rt; row.kind.least(), row.least);
        assert_eq!(rt; row.kind.greatest(), row.greatest);
        assert_eq!(rt; wrap_to(row.kind, row.number), row.wrapped);
    }
    assert_eq!(rt; wrap::<16>(-40_000), 25_536);
    Ok(())
}
