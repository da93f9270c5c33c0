//! Matrices from a linear congruential generator (Knuth's MMIX).

use sparse_algebra::scalar::{Mod, Ring, Units, W64};
use sparse_coo_dense::dense::DMatrix;
use std::alloc::{AllocError, Global};

/// A scalar of a small number.
pub trait Scalar: Units + Drop {
    fn of(number: i32) -> Self;
}

impl Scalar for W64 {
    fn of(number: i32) -> W64 {
        W64::new(i64::from(number))
    }
}

/// No number below zero is generated.
impl<const M: u64> Scalar for Mod<M> {
    fn of(number: i32) -> Mod<M> {
        Mod::new(u64::from(number.unsigned_abs()))
    }
}

/// A generator of numbers.
#[derive(Drop)]
pub struct Generator {
    state: u64,
}

impl Generator {
    pub fn new(seed: u64) -> Generator {
        Generator { state: seed }
    }

    // Returns a number below a bound, or 0 where the bound is 0.
    fn below(&mut self, bound: u8) -> u8 {
        self.state = self
            .state
            .wrapping_mul(6364136223846793005)
            .wrapping_add(1442695040888963407);
        // The high bits of such a generator are the best.
        let high = self.state.to_be_bytes()[0];
        high.checked_rem(bound).unwrap_or(0)
    }

    // Returns a scalar that is zero two times out of three.
    fn sparse<T: Scalar>(&mut self) -> T {
        if self.below(3) == 0 {
            T::of(i32::from(self.below(7)))
        } else {
            T::zero()
        }
    }

    // Returns 1, 3 or 5, which have inverses modulo 7 and modulo each power of two.
    fn unit<T: Scalar>(&mut self) -> T {
        T::of(i32::from(self.below(3)) * 2 + 1)
    }
}

/// Returns this many scalars with an inverse.
pub fn units<T: Scalar>(
    alloc: Global,
    generator: &mut Generator,
    count: u8,
) -> Result<Vec<T>, AllocError> {
    let mut values = Vec::new(alloc);
    for _ in 0..count {
        values.push(generator.unit())?;
    }
    Ok(values)
}

/// Returns the values of a matrix, column by column: most are zero, and those on the diagonal have an inverse.
pub fn entries<T: Scalar>(
    alloc: Global,
    generator: &mut Generator,
    (nrows, ncols): (u8, u8),
) -> Result<Vec<T>, AllocError> {
    let mut values = Vec::new(alloc);
    for j in 0..ncols {
        for i in 0..nrows {
            if i == j {
                values.push(generator.unit())?;
            } else {
                values.push(generator.sparse())?;
            }
        }
    }
    Ok(values)
}

/// Returns the values of a unit lower triangle, column by column.
pub fn unit_lower<T: Scalar>(
    alloc: Global,
    generator: &mut Generator,
    size: u8,
) -> Result<Vec<T>, AllocError> {
    let mut values = Vec::new(alloc);
    for j in 0..size {
        for i in 0..size {
            if i == j {
                values.push(T::one())?;
            } else if i < j {
                values.push(T::zero())?;
            } else {
                values.push(generator.sparse())?;
            }
        }
    }
    Ok(values)
}

/// Returns the matrix with these values, column by column.
pub fn of_values<T: Scalar>(
    alloc: Global,
    (nrows, ncols): (u8, u8),
    made: Result<Vec<T>, AllocError>,
) -> Result<DMatrix<T>, AllocError> {
    let values = made?;
    if usize::from(nrows) * usize::from(ncols) != values.len() {
        return Err(AllocError);
    }
    DMatrix::from_column_slice(alloc, usize::from(nrows), usize::from(ncols), &values)
}
