//! Inputs from a linear congruential generator (Knuth's MMIX).

use sparse_algebra::scalar::W64;
use sparse_coo_dense::coo::CooMatrix;
use std::alloc::{AllocError, Global};

/// A generator of numbers.
#[derive(Drop)]
pub struct Generator {
    state: u64,
}

impl Generator {
    pub fn new(seed: u64) -> Generator {
        Generator { state: seed }
    }

    /// Returns a number below a bound, or 0 where the bound is 0.
    pub fn below(&mut self, bound: u8) -> u8 {
        self.state = self
            .state
            .wrapping_mul(6364136223846793005)
            .wrapping_add(1442695040888963407);
        // The high bits of such a generator are the best.
        let high = self.state.to_be_bytes()[0];
        high.checked_rem(bound).unwrap_or(0)
    }
}

/// Returns a list of this shape with this many triplets, some of them with the same row and column, or with none where
/// a size is zero.
pub fn list(
    alloc: Global,
    generator: &mut Generator,
    (nrows, ncols): (u8, u8),
    count: usize,
) -> Result<CooMatrix<W64>, AllocError> {
    let mut coo = CooMatrix::new(alloc, usize::from(nrows), usize::from(ncols));
    for _ in 0..count {
        let row = usize::from(generator.below(nrows));
        let col = usize::from(generator.below(ncols));
        let value = W64::new(i64::from(generator.below(7)) - 3);
        if row < coo.nrows() && col < coo.ncols() {
            coo.push(row, col, value)?;
        }
    }
    Ok(coo)
}
