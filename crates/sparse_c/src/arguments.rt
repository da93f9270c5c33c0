//! Structs for the arguments that belong together, which C passes one by one.
//!
//! Macros build them, and not functions: a proof sees the fields of a struct literal, but of the result of a function
//! only what its contract says.

ghost use Rattle.std.specs.Int.{w64};
ghost use Rattle.std.specs.Int.RustNames.{FitsSigned};

use c_arrays::lanes::Lanes;

/// The output arrays for a CSR matrix, and the variable for its number of entries, borrowed from C.
#[derive(Drop)]
pub(crate) struct OutputArrays<'a> {
    pub(crate) offsets: &'a mut [usize],
    pub(crate) indices: &'a mut [usize],
    pub(crate) values: &'a mut [i64],
    pub(crate) places: &'a mut usize,
}

/// The output arrays for the columns of L and the diagonal of D, and the variable for the number of entries of L,
/// borrowed from C.
#[derive(Drop)]
pub(crate) struct FactorOutputArrays<'a> {
    pub(crate) offsets: &'a mut [usize],
    pub(crate) indices: &'a mut [usize],
    pub(crate) values: &'a mut [i64],
    pub(crate) diagonal: &'a mut [i64],
    pub(crate) places: &'a mut usize,
}

/// The output array for the values of a dense matrix, borrowed from C.
#[derive(Drop)]
pub(crate) struct Numbers<'a> {
    pub(crate) values: &'a mut [i64],
}

/// How two matrices are combined.
#[derive(Clone, Copy)]
pub(crate) enum Combination {
    Sum,
    Difference,
    /// The sum of multiples `alpha * a + beta * b`.
    Multiples,
    Product,
}

/// Two CSR matrices, and how they are combined. `alpha` and `beta` are the scales of `Multiples`.
#[derive(Drop)]
pub(crate) struct Pair<'a> {
    pub(crate) how: Combination,
    pub(crate) alpha: i64,
    pub(crate) a: Lanes<'a>,
    pub(crate) beta: i64,
    pub(crate) b: Lanes<'a>,
    ghost alpha_fits: { FitsSigned w64 alpha },
    ghost beta_fits: { FitsSigned w64 beta },
}

/// Whether the lanes of a matrix are its rows or its columns.
#[derive(Clone, Copy)]
pub(crate) enum Order {
    Rows,
    Columns,
}

/// The triplets of a matrix, and whether the result is a CSR or a CSC matrix.
#[derive(Drop)]
pub(crate) struct Triplets<'a> {
    pub(crate) order: Order,
    pub(crate) rows: usize,
    pub(crate) cols: usize,
    pub(crate) row_indices: &'a [usize],
    pub(crate) col_indices: &'a [usize],
    pub(crate) values: &'a [i64],
}

/// A CSR matrix, and the integer that it is divided by.
#[derive(Drop)]
pub(crate) struct Quotient<'a> {
    pub(crate) a: Lanes<'a>,
    pub(crate) divisor: i64,
    ghost in_range: { FitsSigned w64 divisor },
}

/// A CSR matrix, and the integer that it is multiplied by.
#[derive(Drop)]
pub(crate) struct Multiple<'a> {
    pub(crate) factor: i64,
    pub(crate) a: Lanes<'a>,
    ghost in_range: { FitsSigned w64 factor },
}

/// A square CSC matrix. Its entries on and above the diagonal are those of the symmetric matrix to be factored.
#[derive(Drop)]
pub(crate) struct Factored<'a> {
    pub(crate) a: Lanes<'a>,
}

/// The operands of a product with a dense matrix: a CSR matrix, and the values of a dense matrix with `inner` rows and
/// `cols` columns.
#[derive(Drop)]
pub(crate) struct DenseOperands<'a> {
    pub(crate) a: Lanes<'a>,
    pub(crate) inner: usize,
    pub(crate) cols: usize,
    pub(crate) b: &'a [i64],
}

/// Which equation a call solves.
#[derive(Clone, Copy)]
pub(crate) enum Equation {
    /// `L X = B`, or `Lᵀ X = B` if the flag is set: L is the lower triangle of the matrix, with the diagonal.
    Lower(bool),
    /// `A X = B`: A is the symmetric matrix whose entries on and above the diagonal are those of the matrix.
    Symmetric,
}

/// A square CSC matrix, and the values of the right-hand side, a dense matrix that is stored column by column.
#[derive(Drop)]
pub(crate) struct System<'a> {
    pub(crate) equation: Equation,
    pub(crate) matrix: Lanes<'a>,
    pub(crate) size: usize,
    pub(crate) cols: usize,
    pub(crate) b: &'a [i64],
}

// Builds a `OutputArrays`.
macro_rules! room {
    ($offsets:expr, $indices:expr, $values:expr, $places:expr) => {
        crate::arguments::OutputArrays {
            offsets: $offsets,
            indices: $indices,
            values: $values,
            places: $places,
        }
    };
}

// Builds the `Lanes` of a CSR or a CSC matrix.
macro_rules! lanes {
    ($major_dim:expr, $minor_dim:expr, $offsets:expr, $indices:expr, $values:expr) => {
        c_arrays::lanes::Lanes {
            major_dim: $major_dim,
            minor_dim: $minor_dim,
            offsets: $offsets,
            indices: $indices,
            values: $values,
        }
    };
}

// Builds a `Pair`; `alpha` and `beta` are 1 if they are not given.
macro_rules! pair {
    ($how:ident, $a:expr, $b:expr) => {
        crate::arguments::Pair {
            how: crate::arguments::Combination::$how,
            alpha: 1,
            a: $a,
            beta: 1,
            b: $b,
        }
    };
    ($how:ident, $alpha:expr, $a:expr, $beta:expr, $b:expr) => {
        crate::arguments::Pair {
            how: crate::arguments::Combination::$how,
            alpha: $alpha,
            a: $a,
            beta: $beta,
            b: $b,
        }
    };
}

// Builds `Triplets`.
macro_rules! triplets {
    ($order:ident, $rows:expr, $cols:expr, $row_indices:expr, $col_indices:expr, $values:expr) => {
        crate::arguments::Triplets {
            order: crate::arguments::Order::$order,
            rows: $rows,
            cols: $cols,
            row_indices: $row_indices,
            col_indices: $col_indices,
            values: $values,
        }
    };
}

pub(crate) use lanes;
pub(crate) use pair;
pub(crate) use room;
pub(crate) use triplets;
