//! Expressions.

/// An expression over inputs.
#[derive(Debug, Drop)]
pub enum Expr {
    /// The input of this number, counted from 1.
    Input(usize),
    /// The sum of two expressions.
    Add(Box<Expr>, Box<Expr>),
    /// The difference of two expressions.
    Sub(Box<Expr>, Box<Expr>),
    /// The product of two expressions.
    Mul(Box<Expr>, Box<Expr>),
    /// The transpose of an expression.
    Transpose(Box<Expr>),
    /// The negation of an expression.
    Neg(Box<Expr>),
}
