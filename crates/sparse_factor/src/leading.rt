//! How many of the first rows and columns of a symmetric matrix have factors L D Lᵀ.

ghost use Rattle.std.specs.Prelude.{◌≡◌, ◌+◌, ◌-◌, ◌<◌, true, false, IfOk, OnOk};
ghost use Rattle.std.specs.List.{flat_map};
ghost use Rattle.sparse_coo_dense.specs.Coo.{appended, coo_of};
ghost use Rattle.sparse_coo_dense.specs.CooPlain.{plain_of_coo};
ghost use Rattle.sparse_factor.specs.Factorisations.{plain_symmetric};
ghost use Rattle.sparse_factor.specs.Factors.{symmetric_of};
ghost use Rattle.sparse_factor.specs.InnerLeadingBlocks.{one_leading, IsBetween};
ghost use Rattle.sparse_factor.specs.LeadingBlocks.{leading, HasFactorisation, StopsAt};

use crate::ldl::Ldl;
use sparse_algebra::error::OperationErrorKind;
use sparse_algebra::scalar::Units;
use sparse_convert::serial::{convert_coo_csc, convert_csc_coo};
use sparse_coo_dense::coo::CooMatrix;
use sparse_csr_csc::csc::CscMatrix;
use std::alloc::{AllocError, Global};

impl<T: Units> Ldl<T> {
    /// Returns how many of the first rows and columns of A have factors L D Lᵀ, where A is the symmetric matrix whose
    /// entries on and above the diagonal are those of `a`: all if A has factors, and otherwise the number of the column
    /// whose pivot has no inverse.
    ///
    /// The number is found by bisection, with a factorisation of the first rows and columns in each step.
    ///
    /// # Errors
    ///
    /// Fails only if an allocation fails.
    ///
    /// # Examples
    ///
    /// ```rust
    /// fn the_second_pivot_has_no_inverse(alloc: Global) -> Result<bool, Fail> {
    ///     let dense = DMatrix::from_row_slice(alloc, 2, 2, &[1, 2, 2, 6].map(W64::new))?;
    ///     Ok(Ldl::factored_size(alloc, &convert_dense_csc(alloc, &dense)?)? == 1)
    /// }
    /// ```
    pub fn factored_size(alloc: Global, a: &CscMatrix<T>) -> Result<usize, AllocError>
        ensures { IfOk result (λ n. StopsAt T.ring T.value (symmetric_of T.ring T.value a.now) n) }
    {
        let list = convert_csc_coo(alloc, a)?;
        leading_size(alloc, &list)
    }
}

// Returns how many of the first rows and columns have factors, of a symmetric matrix whose entries on and above the
// diagonal are those of a list.
fn leading_size<T: Units>(alloc: Global, a: &CooMatrix<T>) -> Result<usize, AllocError>
    ensures { IfOk result (λ n. StopsAt T.ring T.value
        (plain_symmetric T.ring (plain_of_coo T.ring T.value a.now)) n) }
{
    let size = a.nrows();
    let all = has_factors(alloc, a, size)?;
    if all {
        return Ok(size);
    }
    // The first `range.0` rows and columns have factors, and the first `range.1` have none.
    let mut range = (0, size);
    while range.1 - range.0 > 1 {
        range = halved(alloc, a, range)?;
    }
    Ok(range.0)
}

// Returns the half of a range in which the number of the first rows and columns that have factors lies.
fn halved<T: Units>(
    alloc: Global,
    a: &CooMatrix<T>,
    range: (usize, usize),
) -> Result<(usize, usize), AllocError>
    requires between { IsBetween T.ring T.value
        (plain_symmetric T.ring (plain_of_coo T.ring T.value a.now)) range.0 range.1 }
    requires wide { range.0 + 1 < range.1 }
    ensures between { IfOk result (λ r. IsBetween T.ring T.value
        (plain_symmetric T.ring (plain_of_coo T.ring T.value a.now)) r.0 r.1) }
    ensures smaller { IfOk result (λ r. r.1 - r.0 < range.1 - range.0) }
{
    let (low, high) = range;
    let middle = low + (high - low) / 2;
    let found = has_factors(alloc, a, middle)?;
    if found {
        Ok((middle, high))
    } else {
        Ok((low, middle))
    }
}

// Returns whether the first rows and columns have factors, of a symmetric matrix whose entries on and above the
// diagonal are those of a list.
fn has_factors<T: Units>(alloc: Global, a: &CooMatrix<T>, size: usize) -> Result<bool, AllocError>
    ensures factors { IfOk result (λ yes. yes ≡ true → HasFactorisation T.ring T.value
        (leading T.ring size (plain_symmetric T.ring (plain_of_coo T.ring T.value a.now)))) }
    ensures none { IfOk result (λ yes. yes ≡ false → HasFactorisation T.ring T.value
        (leading T.ring size (plain_symmetric T.ring (plain_of_coo T.ring T.value a.now))) → ⊥) }
{
    let list = leading_triplets(alloc, a, size)?;
    let block = convert_coo_csc(alloc, &list)?;
    match Ldl::factor(alloc, &block) {
        Ok(_factors) => Ok(true),
        Err(error) => {
            let kind = *error.kind();
            match kind {
                OperationErrorKind::Singular => Ok(false),
                OperationErrorKind::OutOfMemory | OperationErrorKind::InvalidPattern => Err(
                    AllocError,
                ),
            }
        }
    }
}

// Returns the triplets in the first rows and columns.
fn leading_triplets<T: Units>(
    alloc: Global,
    a: &CooMatrix<T>,
    size: usize,
) -> Result<CooMatrix<T>, AllocError>
    ensures { IfOk result (λ m. m ≡ coo_of size size (flat_map (one_leading size) a.now.triplets)) }
{
    let mut list = CooMatrix::new(alloc, size, size);
    for (row, col, value) in a.triplet_iter() {
        push_leading(&mut list, row, col, *value)?;
    }
    Ok(list)
}

// Appends a triplet to a square list, if it lies within its shape.
fn push_leading<T: Units>(
    list: &mut CooMatrix<T>,
    row: usize,
    col: usize,
    value: T,
) -> Result<(), AllocError>
    requires { list.old.ncols ≡ list.old.nrows }
    ensures { OnOk result (list.new ≡ appended list.old (one_leading list.old.nrows (row, col, value))) }
{
    if row < list.nrows() && col < list.nrows() {
        list.push(row, col, value)?;
    }
    Ok(())
}
