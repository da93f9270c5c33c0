//! Tests of expressions over matrices.

mod long_expressions;
mod slow_expressions;
