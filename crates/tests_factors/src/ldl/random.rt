//! Generated matrices up to 12 by 12: beside the slow program, and made from factors that are known.

use crate::ldl::compared::{agree, factored, has_factors};
use crate::ldl::generated::{Generator, Scalar, entries, of_values, unit_lower, units};
use sparse_algebra::scalar::{Mod, W64};
use sparse_convert::serial::convert_dense_csc;
use sparse_coo_dense::dense::DMatrix;
use sparse_csr_csc::csc::CscMatrix;
use sparse_dense_ops::mul_csc_dense;
use sparse_factor::ldl::Ldl;
use std::alloc::{AllocError, Global};

// Whether both programs agree on matrices of each size, whose entries below the diagonal are mostly not those above.
fn all_agree<T: Scalar>(alloc: Global, seed: u64) -> bool {
    let mut generator = Generator::new(seed);
    for size in 0..13 {
        let values = entries::<T>(alloc, &mut generator, (size, size));
        if !agree(alloc, of_values(alloc, (size, size), values)) {
            return false;
        }
    }
    true
}

// The sum of l(i, k) d(k) l(j, k) over all columns k.
fn product_at<T: Scalar>(l: &DMatrix<T>, d: &[T], i: usize, j: usize) -> Option<T> {
    let mut sum = T::zero();
    for k in 0..l.ncols() {
        let column = l.column(k);
        sum = sum.add(column.get(i)?.mul(*d.get(k)?).mul(*column.get(j)?));
    }
    Some(sum)
}

// The values of `L D L^T`, column by column.
fn products<T: Scalar>(alloc: Global, l: &DMatrix<T>, d: &[T]) -> Result<Vec<T>, AllocError> {
    let mut values = Vec::new(alloc);
    for j in 0..l.ncols() {
        for i in 0..l.nrows() {
            match product_at(l, d, i, j) {
                Some(value) => values.push(value)?,
                None => return Err(AllocError),
            }
        }
    }
    Ok(values)
}

// The right sides or the product of a matrix with what solves it.
fn times<T: Scalar>(alloc: Global, a: &CscMatrix<T>, x: &DMatrix<T>) -> Option<DMatrix<T>> {
    if a.ncols() != x.nrows() {
        return None;
    }
    mul_csc_dense(alloc, a, x).ok()
}

// The solution of a system, if the shapes fit.
fn solved<T: Scalar>(ldl: &Ldl<T>, mut b: DMatrix<T>) -> Option<DMatrix<T>> {
    if b.nrows() != ldl.l().nrows() {
        return None;
    }
    ldl.solve_mut(&mut b);
    Some(b)
}

// Whether the matrix times what `solve_mut` leaves is B.
fn is_solved<T: Scalar>(
    alloc: Global,
    a: &CscMatrix<T>,
    ldl: &Ldl<T>,
    made: Result<DMatrix<T>, AllocError>,
) -> bool {
    let Ok(b) = made else {
        return false;
    };
    let Ok(copy) = b.clone(alloc) else {
        return false;
    };
    match solved(ldl, copy) {
        Some(x) => times(alloc, a, &x) == Some(b),
        None => false,
    }
}

// The matrix `L D L^T`, of a size.
fn product<T: Scalar>(alloc: Global, size: u8, l: &DMatrix<T>, d: &[T]) -> Option<CscMatrix<T>> {
    let values = products(alloc, l, d);
    let dense = of_values(alloc, (size, size), values).ok()?;
    convert_dense_csc(alloc, &dense).ok()
}

// Whether the factors of a product `L D L^T` are L and D again, and its system with three right sides is solved.
fn is_recovered<T: Scalar>(alloc: Global, generator: &mut Generator, size: u8) -> bool {
    let lower = unit_lower::<T>(alloc, generator, size);
    let right = entries::<T>(alloc, generator, (size, 3));
    let Ok(l) = of_values(alloc, (size, size), lower) else {
        return false;
    };
    let Ok(d) = units::<T>(alloc, generator, size) else {
        return false;
    };
    let Some(a) = product(alloc, size, &l, &d) else {
        return false;
    };
    match factored(alloc, &a) {
        Some(ldl) => {
            has_factors(alloc, &ldl, &l, &d)
                && is_solved(alloc, &a, &ldl, of_values(alloc, (size, 3), right))
        }
        None => false,
    }
}

fn all_recovered<T: Scalar>(alloc: Global, seed: u64) -> bool {
    let mut generator = Generator::new(seed);
    for size in 0..13 {
        if !is_recovered::<T>(alloc, &mut generator, size) {
            return false;
        }
    }
    true
}

#[test]
fn answers_are_those_of_the_slow_program(rt: HostRuntime) {
    for seed in 0..200 {
        assert!(rt; all_agree::<Mod<7>>(rt.alloc(), seed), "{seed}");
        assert!(rt; all_agree::<W64>(rt.alloc(), seed), "{seed}");
    }
}

#[test]
fn factors_of_products_and_solutions(rt: HostRuntime) {
    for seed in 0..50 {
        assert!(rt; all_recovered::<Mod<7>>(rt.alloc(), seed), "{seed}");
        assert!(rt; all_recovered::<W64>(rt.alloc(), seed), "{seed}");
    }
}
