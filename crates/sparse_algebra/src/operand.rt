//! Operands, as they are or transposed.

ghost use Rattle.std.specs.Prelude.{◌≡◌};
ghost use Rattle.sparse_algebra.specs.Plain.{Plain, plain_transpose};
ghost use Rattle.sparse_algebra.specs.declared.operand.Op.{Op};
ghost use Rattle.sparse_algebra.specs.declared.operand.Op.TheVariants.{NoOp};
ghost use Rattle.sparse_algebra.specs.Operands.{inner_of, op_map, op_transposed, plain_op, MatchOp};
ghost use Rattle.sparse_algebra.specs.Operands.{IsNoOpAnd, IsTransposeAnd};

use crate::scalar::Ring;

/// An operand of an operation: a matrix, used as it is or transposed.
#[derive(Clone, Copy, Debug, PartialEq, Eq, Drop)]
pub enum Op<T> {
    /// The matrix as it is.
    NoOp(T),
    /// The transpose of the matrix.
    Transpose(T),
}

impl<T> Op<T> {
    /// Returns a reference to the matrix.
    pub fn inner_ref(&self) -> &T
        ensures { result.now ≡ inner_of self.now }
    {
        match self {
            Op::NoOp(inner) => inner,
            Op::Transpose(inner) => inner,
        }
    }

    /// Returns an operand that borrows the matrix, transposed if and only if this operand is.
    pub fn as_ref(&self) -> Op<&T>
        ensures { op_map (λ x. x.now) result ≡ self.now }
    {
        match self {
            Op::NoOp(inner) => Op::NoOp(inner),
            Op::Transpose(inner) => Op::Transpose(inner),
        }
    }

    /// Applies `f` to the matrix. The result is transposed if and only if the operand is.
    pub fn map_same_op<U, F: FnOnce(T) -> U>(self, f: F) -> Op<U>
        requires { F.pre f (inner_of self) }
        ensures { MatchOp self (λ x. IsNoOpAnd result (F.post f x))
            (λ x. IsTransposeAnd result (F.post f x)) }
    {
        match self {
            Op::NoOp(inner) => Op::NoOp(f(inner)),
            Op::Transpose(inner) => Op::Transpose(f(inner)),
        }
    }

    /// Returns the matrix.
    pub fn into_inner(self) -> T
        ensures { result ≡ inner_of self }
    {
        match self {
            Op::NoOp(inner) => inner,
            Op::Transpose(inner) => inner,
        }
    }

    /// Returns the transposed operand: the same matrix, as `Transpose` if this is a `NoOp`, and as `NoOp` otherwise.
    pub fn transposed(self) -> Self
        ensures { result ≡ op_transposed self }
    {
        match self {
            Op::NoOp(inner) => Op::Transpose(inner),
            Op::Transpose(inner) => Op::NoOp(inner),
        }
    }
}

/// A matrix converts to the operand that uses it as it is.
impl<T> From<T> for Op<T> {
    ghost from_gives = { λ x op. op ≡ NoOp x };

    fn from(matrix: T) -> Self {
        Op::NoOp(matrix)
    }
}

/// An operand transposed twice is itself.
pub fn transposed_twice_law<T>()
    ensures { (x : Op T) → op_transposed (op_transposed x) ≡ x }
{}

/// The plain matrix of the transposed operand is the transpose of the plain matrix of the operand.
pub fn transposed_plain_law<T: Ring, X>()
    ensures { (see : X → Plain T.ring) (x : Op X)
        → plain_op T.ring see (op_transposed x) ≡ plain_transpose T.ring (plain_op T.ring see x) }
{}
