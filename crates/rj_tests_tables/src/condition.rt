//! What no contract says of clauses: the byte of a syntax error, that bands and null-safe keys are found, and that the calls
//! succeed with ample memory.

use crate::samples::{empty, join_of};
use rj_columns::Table;
use rj_condition::{
    BoundJoin, ParseRefused, Remainder, first_mismatch, parse, refused_column, split,
};
use std::alloc::Global;

// Whether a text is a clause or, if a byte is given, has its syntax error there.
fn is_parsed(alloc: Global, text: &str, fault: Option<u64>) -> bool {
    match parse(alloc, text) {
        Ok(_) => fault.is_none(),
        Err(ParseRefused::Syntax(byte)) => fault == Some(byte),
        Err(_) => false,
    }
}

// The first text that is parsed otherwise; `-` if there is none.
fn parsed_otherwise<'a>(alloc: Global, cases: &[(&'a str, Option<u64>)]) -> &'a str {
    for case in cases {
        if !is_parsed(alloc, case.0, case.1) {
            return case.0;
        }
    }
    "-"
}

// Clauses, and a syntax error from each place where the parser can stop.
const TEXTS: [(&str, Option<u64>); 49] = [
    ("NATURAL FULL OUTER JOIN", None),
    ("inner Join using (id, \"ID\", \"a\"\"b\")", None),
    ("RIGHT OUTER JOIN USING (id)", None),
    ("JOIN ON a<>b AND\tc<=d\r\nOR e>=-5", None),
    ("JOIN ON a!=b OR a != -5", None),
    ("JOIN ON NOT a IS NOT NULL", None),
    ("JOIN ON a NOT BETWEEN 1 AND +9223372036854775807", None),
    ("JOIN ON a IN (-9223372036854775808, 'it''s', '')", None),
    ("JOIN ON 1.25 = -0.5 OR +1.50 < a", None),
    ("JOIN ON a = -99999999999999999.9", None),
    ("JOIN ON (a = 1) IS NOT UNKNOWN", None),
    ("JOIN ON a = 1 IS TRUE", None),
    ("JOIN ON select = order", None),
    ("JOIN ON \"L\".\"\u{e9}\" = '\u{e9}'", None),
    ("", Some(0)),
    ("CROSS", Some(5)),
    ("OUTER JOIN USING (a)", Some(0)),
    ("LEFT USING (a)", Some(5)),
    ("JOIN USING ()", Some(12)),
    ("JOIN USING (a,)", Some(14)),
    ("JOIN USING (a b)", Some(14)),
    ("JOIN USING (a) b", Some(15)),
    ("JOIN ON a = 1 \u{e9}", Some(14)),
    ("JOIN ON a", Some(9)),
    ("JOIN ON = 1", Some(8)),
    ("JOIN ON a. = 1", Some(11)),
    ("JOIN ON a !", Some(10)),
    ("JOIN ON a ! = 1", Some(10)),
    ("JOIN ON a !== 1", Some(12)),
    ("JOIN ON a NOT = 1", Some(14)),
    ("JOIN ON a BETWEEN 1 OR 2", Some(20)),
    ("JOIN ON a BETWEEN 1 AND", Some(23)),
    ("JOIN ON a IN 1", Some(13)),
    ("JOIN ON a IN ()", Some(14)),
    ("JOIN ON a IN (1,)", Some(16)),
    ("JOIN ON a IN (1 2)", Some(16)),
    ("JOIN ON a = 1 IS a", Some(17)),
    ("JOIN ON (a = 1 b", Some(15)),
    ("JOIN ON \"\" = 1", Some(8)),
    ("JOIN ON a = 9223372036854775808", Some(12)),
    ("JOIN ON a = 12b", Some(12)),
    ("JOIN ON a = + 1", Some(12)),
    ("JOIN ON a = 1.5_", Some(12)),
    ("JOIN ON a = -.5", Some(12)),
    ("JOIN ON a = + 1.5", Some(12)),
    ("JOIN ON a = 1.x", Some(13)),
    ("JOIN ON a = 1. 5", Some(13)),
    ("JOIN ON a = 1.5.2", Some(15)),
    ("JOIN ON a = 000000000000000001.5", Some(12)),
];

#[test]
fn tells_the_byte_of_a_syntax_fault(rt: HostRuntime) {
    assert_eq!(rt; parsed_otherwise(rt.alloc(), TEXTS.as_slice()), "-");
}

// The fields of a band, and those of its reach.
type Bounds = (
    bool,
    usize,
    Option<usize>,
    Option<usize>,
    Option<(usize, usize)>,
);

// A clause, and the band and the null-safe keys of its remainder.
type Found<'a> = (&'a str, Option<Bounds>, &'a [(usize, usize)]);

fn bounds_of(remainder: &Remainder<'_>) -> Option<Bounds> {
    match remainder.band() {
        Some(band) => Some((
            band.of_left,
            band.column,
            band.low,
            band.high,
            band.reach.map(|reach| (reach.column, reach.low)),
        )),
        None => None,
    }
}

fn has_null_safe_keys(alloc: Global, remainder: &Remainder<'_>, keys: &[(usize, usize)]) -> bool {
    match remainder.null_safe_keys(alloc) {
        Ok(found) => found.as_slice() == keys,
        Err(_) => false,
    }
}

fn has_found(alloc: Global, join: &BoundJoin, case: Found<'_>) -> bool {
    match split(alloc, join) {
        Ok(parts) => {
            bounds_of(&parts.remainder) == case.1
                && has_null_safe_keys(alloc, &parts.remainder, case.2)
        }
        Err(_) => false,
    }
}

fn is_found(alloc: Global, case: Found<'_>, table: &Table) -> bool {
    match join_of(alloc, case.0, table) {
        Some(join) => has_found(alloc, &join, case),
        None => false,
    }
}

fn found_otherwise<'a>(alloc: Global, cases: &[Found<'a>], table: &Table) -> &'a str {
    for case in cases {
        if !is_found(alloc, *case, table) {
            return case.0;
        }
    }
    "-"
}

const FIVE_MEETINGS: &str = concat!(
    "JOIN ON (L.a = R.a OR L.a IS NULL AND R.a IS NULL) AND ",
    "(L.a = R.b OR L.a IS NULL AND R.b IS NULL) AND ",
    "(L.b = R.a OR L.b IS NULL AND R.a IS NULL) AND ",
    "(L.b = R.b OR L.b IS NULL AND R.b IS NULL) AND ",
    "(R.b = L.a OR L.a IS NULL AND R.b IS NULL)",
);

// One bound or two of either table, intervals that overlap, and NULLs that meet in each order; of
// five keys the first four.
const REMAINDERS: [Found<'static>; 12] = [
    (
        "JOIN ON L.a BETWEEN R.a AND R.b",
        Some((true, 0, Some(0), Some(1), None)),
        &[],
    ),
    (
        "JOIN ON R.b > L.a AND L.b IS NOT NULL",
        Some((true, 0, None, Some(1), None)),
        &[],
    ),
    (
        "JOIN ON R.a >= L.a AND R.a < L.b",
        Some((false, 0, Some(0), Some(1), None)),
        &[],
    ),
    (
        "JOIN ON L.a <= R.b AND R.a < L.b",
        Some((true, 0, None, Some(1), Some((1, 0)))),
        &[],
    ),
    (
        "JOIN ON L.b >= R.a AND R.b >= L.a",
        Some((true, 0, None, Some(1), Some((1, 0)))),
        &[],
    ),
    (
        "JOIN ON L.b > R.b AND L.a BETWEEN 1 AND R.b AND L.a IS NOT NULL",
        Some((true, 0, None, Some(1), Some((1, 1)))),
        &[],
    ),
    (
        "JOIN ON L.b > R.a AND L.a BETWEEN R.a AND R.b",
        Some((true, 0, Some(0), Some(1), Some((1, 0)))),
        &[],
    ),
    ("JOIN ON L.a NOT BETWEEN R.a AND R.b", None, &[]),
    (
        "JOIN ON L.a = R.b OR L.a IS NULL AND R.b IS NULL",
        None,
        &[(0, 1)],
    ),
    (
        "JOIN ON R.a IS NULL AND L.b IS NULL OR R.a = L.b",
        None,
        &[(1, 0)],
    ),
    (
        "JOIN ON L.b > 1 AND (L.b = R.b OR (R.b IS NULL AND L.b IS NULL)) AND (L.a = R.a OR L.a IS NULL AND R.a IS NULL)",
        None,
        &[(1, 1), (0, 0)],
    ),
    (FIVE_MEETINGS, None, &[(0, 0), (0, 1), (1, 0), (1, 1)]),
];

// The first clause for which something else is found; `-` if there is none.
fn first_wrong(alloc: Global) -> &'static str {
    match empty(alloc) {
        Some(table) => found_otherwise(alloc, REMAINDERS.as_slice(), &table),
        None => "the table",
    }
}

#[test]
fn finds_bands_and_null_safe_keys(rt: HostRuntime) {
    assert_eq!(rt; first_wrong(rt.alloc()), "-");
}

// Whether a refused column is reported, and a comparison that can't be made.
fn are_told(alloc: Global) -> bool {
    let Some(table) = empty(alloc) else {
        return false;
    };
    matches!(
        refused_column(alloc, "JOIN USING (c)", &table, &table),
        Ok(Some(_))
    ) && matches!(
        first_mismatch(alloc, "JOIN ON L.a = 'x'", &table, &table),
        Ok(Some(_))
    )
}

#[test]
fn tells_columns_and_comparisons(rt: HostRuntime) {
    assert!(rt; are_told(rt.alloc()));
}
