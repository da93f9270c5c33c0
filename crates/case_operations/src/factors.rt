//! The fill of a Cholesky factor, and exact factors.

use case_matrices::compressed::{plain_dense_of, square_of};
use case_matrices::conversions::truth;
use case_words::drawing::{PatternByColumns, draw_values, picture};
use case_words::failure::Failure;
use case_words::scalar::Scalar;
use case_words::templates::Operands;
use case_words::turn::Turn;
use nalgebra_sparse::CscMatrix;
use nalgebra_sparse::factorization::{CscSymbolicCholesky, Triangle};
use nalgebra_sparse::ldl::Ldl;
use nalgebra_sparse::ops::{Op, Steps};
use std::alloc::Global;

/// A call that factors a matrix.
#[derive(Clone, Copy)]
pub enum Factoring {
    Ldl,
    LdlText,
    LdlCopy,
    LdlEqual,
    LdlSize,
    Solution,
    Fill,
    FillCopy,
    FillEqual,
}

pub const FACTORINGS: &[(&str, Factoring)] = &[
    ("ldl A", Factoring::Ldl),
    ("debug ldl A", Factoring::LdlText),
    ("copy ldl A", Factoring::LdlCopy),
    ("ldl A == ldl B", Factoring::LdlEqual),
    ("factored size A", Factoring::LdlSize),
    ("ldl A \\ B", Factoring::Solution),
    ("w A", Factoring::Fill),
    ("copy w A", Factoring::FillCopy),
    ("w A == v B", Factoring::FillEqual),
];

/// Returns the answer of one of these calls.
pub fn factored<T: Scalar>(
    turn: &mut Turn,
    call: Factoring,
    given: Operands<'_>,
) -> Result<String, Failure> {
    match call {
        Factoring::Fill => fill::<T>(turn, given.w, given.a),
        Factoring::FillCopy => fill_copied::<T>(turn, given.w, given.a),
        Factoring::FillEqual => fills_equal::<T>(turn, (given.w, given.a), (given.v, given.b)),
        Factoring::LdlEqual => ldls_equal::<T>(turn, given.a, given.b),
        Factoring::LdlCopy => ldl_copied::<T>(turn, given.a),
        Factoring::LdlSize => factored_size::<T>(turn, given.a),
        _ => of_ldl::<T>(turn, call, given),
    }
}

fn fill<T: Scalar>(turn: &mut Turn, name: &str, a: Op<&str>) -> Result<String, Failure> {
    let factor = fill_of::<T>(turn, name, a)?;
    fill_text(turn.alloc(), factor)
}

// The answer of a call on the factors L and D.
fn of_ldl<T: Scalar>(
    turn: &mut Turn,
    call: Factoring,
    given: Operands<'_>,
) -> Result<String, Failure> {
    let ldl = ldl_of::<T>(turn, given.a)?;
    match call {
        Factoring::Solution => solution(turn.alloc(), &ldl, given.b),
        Factoring::LdlText => Ok(format!(in turn.alloc(); "{ldl:?}")?),
        _ => ldl_text(turn.alloc(), &ldl),
    }
}

// The symbolic factorisation of a pattern, by the call that a name stands for.
fn fill_of<T: Scalar>(
    turn: &mut Turn,
    name: &str,
    a: Op<&str>,
) -> Result<CscSymbolicCholesky, Failure> {
    let alloc = turn.alloc();
    let (pattern, _) = square_of::<T>(alloc, a)?.into_pattern_and_values();
    turn.begin();
    let answer = match name {
        "fill" => CscSymbolicCholesky::factor(alloc, pattern),
        "fill-counted" => CscSymbolicCholesky::factor_counted(alloc, pattern, &mut Steps::new()),
        "fill-upper" => CscSymbolicCholesky::factor_triangle(alloc, pattern, Triangle::Upper),
        "fill-lower" => CscSymbolicCholesky::factor_triangle(alloc, pattern, Triangle::Lower),
        "fill-both" => CscSymbolicCholesky::factor_triangle(alloc, pattern, Triangle::Both),
        _ => return Err(Failure::Unreadable("no fill has this name")),
    };
    Ok(turn.end(answer)?)
}

fn fill_text(alloc: Global, factor: CscSymbolicCholesky) -> Result<String, Failure> {
    Ok(picture(alloc, &PatternByColumns(factor.into_l_pattern()))?)
}

// The factors L and D, where L D Lᵀ is the symmetric matrix of an upper triangle.
fn ldl_of<T: Scalar>(turn: &mut Turn, a: Op<&str>) -> Result<Ldl<T>, Failure> {
    let alloc = turn.alloc();
    let matrix = square_of::<T>(alloc, a)?;
    turn.begin();
    Ok(turn.end(Ldl::factor(alloc, &matrix))?)
}

// How many of the first rows and columns have factors.
fn factored_size<T: Scalar>(turn: &mut Turn, a: Op<&str>) -> Result<String, Failure> {
    let alloc = turn.alloc();
    let matrix = square_of::<T>(alloc, a)?;
    turn.begin();
    let size = turn.end(Ldl::factored_size(alloc, &matrix))?;
    Ok(format!(in alloc; "{size}")?)
}

// The factor L, and after it the diagonal of D.
fn ldl_text<T: Scalar>(alloc: Global, ldl: &Ldl<T>) -> Result<String, Failure> {
    let mut out = picture(alloc, ldl.l())?;
    draw_values(ldl.d(), &mut out)?;
    Ok(out)
}

// The solution of a symmetric system.
fn solution<T: Scalar>(alloc: Global, ldl: &Ldl<T>, b: Op<&str>) -> Result<String, Failure> {
    let mut x = plain_dense_of::<T>(alloc, b)?;
    if x.nrows() != ldl.l().nrows() {
        return Err(Failure::Misfit);
    }
    ldl.solve_mut(&mut x);
    Ok(picture(alloc, &x)?)
}

fn ldls_equal<T: Scalar>(turn: &mut Turn, a: Op<&str>, b: Op<&str>) -> Result<String, Failure> {
    let left = ldl_of::<T>(turn, a)?;
    let right = ldl_of::<T>(turn, b)?;
    truth(turn.alloc(), left == right)
}

fn fills_equal<T: Scalar>(
    turn: &mut Turn,
    (first, a): (&str, Op<&str>),
    (second, b): (&str, Op<&str>),
) -> Result<String, Failure> {
    let left = fill_of::<T>(turn, first, a)?;
    let right = fill_of::<T>(turn, second, b)?;
    truth(turn.alloc(), left == right)
}

const DIFFERS: Failure = Failure::Unreadable("the copy differs");

// What is shown of a copy, which is equal to its original.
fn ldl_copied<T: Scalar>(turn: &mut Turn, a: Op<&str>) -> Result<String, Failure> {
    let ldl = ldl_of::<T>(&mut Turn::new(turn.alloc(), 0, 0), a)?;
    copied(turn, &ldl)
}

fn copied<T: Scalar>(turn: &mut Turn, ldl: &Ldl<T>) -> Result<String, Failure> {
    turn.begin();
    let copy = turn.end(ldl.clone(turn.alloc()))?;
    if copy != *ldl {
        return Err(DIFFERS);
    }
    ldl_text(turn.alloc(), &copy)
}

fn fill_copied<T: Scalar>(turn: &mut Turn, name: &str, a: Op<&str>) -> Result<String, Failure> {
    let factor = fill_of::<T>(&mut Turn::new(turn.alloc(), 0, 0), name, a)?;
    turn.begin();
    let copy = turn.end(factor.clone(turn.alloc()))?;
    if copy != factor {
        return Err(DIFFERS);
    }
    fill_text(turn.alloc(), copy)
}
