//! Values of expressions of many words.

use sparse_algebra::scalar::W64;
use sparse_coo_dense::coo::CooMatrix;
use sparse_expr::{Expr, ExprError, evaluate_rows};
use std::alloc::{AllocError, Global};
use std::slice::from_ref;

// Whether the value of the expression over the list is one stored entry, of this value.
fn is_entry(alloc: Global, expr: &Expr, list: &CooMatrix<W64>, wanted: i64) -> bool {
    match evaluate_rows(alloc, expr, from_ref(list)) {
        Ok(value) => value.values() == [W64::new(wanted)].as_slice(),
        Err(_) => false,
    }
}

// Each part repeated, one after another.
fn repeated(alloc: Global, parts: &[(&str, usize)]) -> Result<String, AllocError> {
    let mut text = String::new(alloc);
    for &(part, count) in parts {
        for _ in 0..count {
            text.push_str(part)?;
        }
    }
    Ok(text)
}

// The 1 by 1 matrix of this many triplets, each of value 1.
fn ones(alloc: Global, count: usize) -> Option<CooMatrix<W64>> {
    let rows = vec![in alloc; 0; count].ok()?;
    let cols = vec![in alloc; 0; count].ok()?;
    let values = vec![in alloc; W64::new(1); count].ok()?;
    CooMatrix::try_from_triplets(1, 1, rows, cols, values).ok()
}

// The expression of these parts.
fn expression(alloc: Global, parts: &[(&str, usize)]) -> Result<Expr, ExprError> {
    let words = repeated(alloc, parts)?;
    Expr::from_words(alloc, &words)
}

// Whether the expression of the parts of a case over the 1 by 1 list has its value.
fn has_value(
    alloc: Global,
    list: &CooMatrix<W64>,
    &(parts, wanted): &(&[(&str, usize)], i64),
) -> bool {
    match expression(alloc, parts) {
        Ok(expr) => is_entry(alloc, &expr, list, wanted),
        Err(_) => false,
    }
}

// Expressions of 20,000 words, and their values: deep to the left, to the right, and of one operand.
const DEEP: &[(&[(&str, usize)], i64)] = &[
    (&[("1 ", 1), ("t ", 19_999)], 2_000_000),
    (&[("1 ", 1), ("n ", 19_999)], -2_000_000),
    (&[("1 ", 10_000), ("+ ", 9_999)], 20_000_000_000),
    (&[("1 ", 1), ("1 + ", 9_999)], 20_000_000_000),
    (&[("1 n ", 1), ("1 t + t n ", 4_000)], -2_000_000),
];

// Enough triplets that a conversion at each of the 24,000 namings would exceed the time limit of
// a test.
const TRIPLETS: usize = 2_000_000;

// Whether a case holds over a list of `TRIPLETS` triplets.
fn holds_deep(alloc: Global, case: &(&[(&str, usize)], i64)) -> bool {
    match ones(alloc, TRIPLETS) {
        Some(list) => has_value(alloc, &list, case),
        None => false,
    }
}

#[test]
fn deep_expressions_convert_their_input_once(rt: HostRuntime) {
    for case in DEEP {
        assert!(rt; holds_deep(rt.alloc(), case), "{}", case.1);
    }
}
