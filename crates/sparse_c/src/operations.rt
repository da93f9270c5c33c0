//! Operations on matrices from outside: transposes, sums, products, products with dense matrices, division.

pub(crate) mod combining;
pub(crate) mod dense;
pub(crate) mod division;
pub(crate) mod products;
pub(crate) mod sums;
pub(crate) mod transpose;
