//! Operations on sparse matrices.

pub use sparse_products::{Op, Steps};

/// Operations in one thread.
pub mod serial {
    pub use sparse_dense_ops::{
        axpy_csc_col, axpy_csr_row, div_scalar_csc, div_scalar_csr, div_scalar_mut_csc,
        div_scalar_mut_csr, dot_csc_col, dot_csr_row, mul_csc_dense, mul_csr_dense, spmm_csc_dense,
        spmm_csr_dense, spsolve_csc_lower_triangular, usaxpy, usdot,
    };
    pub use sparse_products::serial::{
        OperationError, OperationErrorKind, mul_csc, mul_csr, spmm_csc_pattern, spmm_csc_prealloc,
        spmm_csc_prealloc_unchecked, spmm_csr_pattern, spmm_csr_prealloc,
        spmm_csr_prealloc_unchecked, spmm_csr_prealloc_unchecked_counted,
    };
    pub use sparse_sums::{
        add_csc, add_csr, add_scaled_csc, add_scaled_csr, neg_csc, neg_csr, scale_csc, scale_csr,
        spadd_csc_prealloc, spadd_csr_prealloc, spadd_pattern, sub_csc, sub_csr,
    };
}
