//! Laws of sums and products of CSC matrices, over every ring.

ghost use Rattle.std.specs.Prelude.{◌≡◌, IfOk};
ghost use Rattle.sparse_algebra.specs.Plain.{plain_product, plain_sum, plain_transpose};
ghost use Rattle.sparse_compressed.specs.PlainOfLanes.{plain_of_cols};

use sparse_algebra::laws::{identity_product_law, product_distributes_law, transpose_product_law};
use sparse_algebra::recall;
use sparse_algebra::scalar::Ring;
use sparse_compressed::laws::stands_law;
use sparse_csr_csc::csc::CscMatrix;
use sparse_products::serial::mul_csc;
use sparse_products::transposes::transposed_csc;
use sparse_sums::{add_csc, neg_csc, sub_csc};
use std::alloc::{AllocError, Global};

/// Returns `a * (b + c)` and `a * b + a * c`, which are equal. Fails only if an allocation fails.
pub fn product_distributes<T: Ring>(
    alloc: Global,
    a: &CscMatrix<T>,
    b: &CscMatrix<T>,
    c: &CscMatrix<T>,
) -> Result<(CscMatrix<T>, CscMatrix<T>), AllocError>
    requires inner { a.now.pattern.major_dim ≡ b.now.pattern.minor_dim }
    requires rows { b.now.pattern.minor_dim ≡ c.now.pattern.minor_dim }
    requires cols { b.now.pattern.major_dim ≡ c.now.pattern.major_dim }
    ensures { IfOk result (λ m. plain_of_cols T.ring T.value m.0
        ≡ plain_of_cols T.ring T.value m.1) }
{
    product_distributes_law::<T>();
    let product = product_with_sum(alloc, a, b, c)?;
    let products = sum_of_products(alloc, a, b, a, c)?;
    Ok((product, products))
}

/// Returns `(a + b) * c` and `a * c + b * c`, which are equal. Fails only if an allocation fails.
pub fn product_distributes_right<T: Ring>(
    alloc: Global,
    a: &CscMatrix<T>,
    b: &CscMatrix<T>,
    c: &CscMatrix<T>,
) -> Result<(CscMatrix<T>, CscMatrix<T>), AllocError>
    requires rows { a.now.pattern.minor_dim ≡ b.now.pattern.minor_dim }
    requires cols { a.now.pattern.major_dim ≡ b.now.pattern.major_dim }
    requires inner { b.now.pattern.major_dim ≡ c.now.pattern.minor_dim }
    ensures { IfOk result (λ m. plain_of_cols T.ring T.value m.0
        ≡ plain_of_cols T.ring T.value m.1) }
{
    product_distributes_law::<T>();
    let product = sum_times_matrix(alloc, a, b, c)?;
    let products = sum_of_products(alloc, a, c, b, c)?;
    Ok((product, products))
}

/// Returns `a - b` and `a + (-b)`, which are equal. Fails only if an allocation fails.
pub fn difference_as_sum<T: Ring>(
    alloc: Global,
    a: &CscMatrix<T>,
    b: &CscMatrix<T>,
) -> Result<(CscMatrix<T>, CscMatrix<T>), AllocError>
    requires rows { a.now.pattern.minor_dim ≡ b.now.pattern.minor_dim }
    requires cols { a.now.pattern.major_dim ≡ b.now.pattern.major_dim }
    ensures { IfOk result (λ m. plain_of_cols T.ring T.value m.0
        ≡ plain_of_cols T.ring T.value m.1) }
{
    let difference = sub_csc(alloc, a, b)?;
    let negative = neg_csc(alloc, b)?;
    let sum = add_csc(alloc, a, &negative)?;
    Ok((difference, sum))
}

/// Returns `-(-a)`, which is equal to `a`. Fails only if an allocation fails.
pub fn negative_twice<T: Ring>(alloc: Global, a: &CscMatrix<T>) -> Result<CscMatrix<T>, AllocError>
    ensures { IfOk result (λ m. plain_of_cols T.ring T.value m
        ≡ plain_of_cols T.ring T.value a.now) }
{
    let negative = neg_csc(alloc, a)?;
    neg_csc(alloc, &negative)
}

/// Returns the product of the identity and `a`, which is equal to `a`. Fails only if an allocation fails.
pub fn identity_times<T: Ring>(alloc: Global, a: &CscMatrix<T>) -> Result<CscMatrix<T>, AllocError>
    ensures { IfOk result (λ m. plain_of_cols T.ring T.value m
        ≡ plain_of_cols T.ring T.value a.now) }
{
    stands_law::<T>();
    identity_product_law::<T>();
    recall(a.values());
    let identity = CscMatrix::identity(alloc, a.nrows())?;
    mul_csc(alloc, &identity, a)
}

/// Returns the product of `a` and the identity, which is equal to `a`. Fails only if an allocation fails.
pub fn times_identity<T: Ring>(alloc: Global, a: &CscMatrix<T>) -> Result<CscMatrix<T>, AllocError>
    ensures { IfOk result (λ m. plain_of_cols T.ring T.value m
        ≡ plain_of_cols T.ring T.value a.now) }
{
    stands_law::<T>();
    identity_product_law::<T>();
    recall(a.values());
    let identity = CscMatrix::identity(alloc, a.ncols())?;
    mul_csc(alloc, a, &identity)
}

/// Returns the transpose of `a * b`, and the product of the transposes in reverse order, which are equal. Fails only if
/// an allocation fails.
pub fn transpose_of_product<T: Ring>(
    alloc: Global,
    a: &CscMatrix<T>,
    b: &CscMatrix<T>,
) -> Result<(CscMatrix<T>, CscMatrix<T>), AllocError>
    requires { a.now.pattern.major_dim ≡ b.now.pattern.minor_dim }
    ensures { IfOk result (λ m. plain_of_cols T.ring T.value m.0
        ≡ plain_of_cols T.ring T.value m.1) }
{
    transpose_product_law::<T>();
    let transposed = transposed_product(alloc, a, b)?;
    let reversed = product_of_transposes(alloc, a, b)?;
    Ok((transposed, reversed))
}

// Returns the transpose of `a * b`.
fn transposed_product<T: Ring>(
    alloc: Global,
    a: &CscMatrix<T>,
    b: &CscMatrix<T>,
) -> Result<CscMatrix<T>, AllocError>
    requires { a.now.pattern.major_dim ≡ b.now.pattern.minor_dim }
    ensures { IfOk result (λ m. plain_of_cols T.ring T.value m ≡ plain_transpose T.ring
        (plain_product T.ring (plain_of_cols T.ring T.value a.now)
        (plain_of_cols T.ring T.value b.now))) }
{
    let product = mul_csc(alloc, a, b)?;
    transposed_csc(alloc, &product)
}

// Returns the transpose of `b` times the transpose of `a`.
fn product_of_transposes<T: Ring>(
    alloc: Global,
    a: &CscMatrix<T>,
    b: &CscMatrix<T>,
) -> Result<CscMatrix<T>, AllocError>
    requires { a.now.pattern.major_dim ≡ b.now.pattern.minor_dim }
    ensures { IfOk result (λ m. plain_of_cols T.ring T.value m ≡ plain_product T.ring
        (plain_transpose T.ring (plain_of_cols T.ring T.value b.now))
        (plain_transpose T.ring (plain_of_cols T.ring T.value a.now))) }
{
    let first = transposed_csc(alloc, a)?;
    let second = transposed_csc(alloc, b)?;
    mul_csc(alloc, &second, &first)
}

// Returns `a * (b + c)`.
fn product_with_sum<T: Ring>(
    alloc: Global,
    a: &CscMatrix<T>,
    b: &CscMatrix<T>,
    c: &CscMatrix<T>,
) -> Result<CscMatrix<T>, AllocError>
    requires inner { a.now.pattern.major_dim ≡ b.now.pattern.minor_dim }
    requires rows { b.now.pattern.minor_dim ≡ c.now.pattern.minor_dim }
    requires cols { b.now.pattern.major_dim ≡ c.now.pattern.major_dim }
    ensures { IfOk result (λ m. plain_of_cols T.ring T.value m
        ≡ plain_product T.ring (plain_of_cols T.ring T.value a.now)
        (plain_sum T.ring (plain_of_cols T.ring T.value b.now)
        (plain_of_cols T.ring T.value c.now))) }
{
    let sum = add_csc(alloc, b, c)?;
    mul_csc(alloc, a, &sum)
}

// Returns `(a + b) * c`.
fn sum_times_matrix<T: Ring>(
    alloc: Global,
    a: &CscMatrix<T>,
    b: &CscMatrix<T>,
    c: &CscMatrix<T>,
) -> Result<CscMatrix<T>, AllocError>
    requires rows { a.now.pattern.minor_dim ≡ b.now.pattern.minor_dim }
    requires cols { a.now.pattern.major_dim ≡ b.now.pattern.major_dim }
    requires inner { b.now.pattern.major_dim ≡ c.now.pattern.minor_dim }
    ensures { IfOk result (λ m. plain_of_cols T.ring T.value m
        ≡ plain_product T.ring
        (plain_sum T.ring (plain_of_cols T.ring T.value a.now) (plain_of_cols T.ring T.value b.now))
        (plain_of_cols T.ring T.value c.now)) }
{
    let sum = add_csc(alloc, a, b)?;
    mul_csc(alloc, &sum, c)
}

// Returns `a * b + c * d`.
fn sum_of_products<T: Ring>(
    alloc: Global,
    a: &CscMatrix<T>,
    b: &CscMatrix<T>,
    c: &CscMatrix<T>,
    d: &CscMatrix<T>,
) -> Result<CscMatrix<T>, AllocError>
    requires first { a.now.pattern.major_dim ≡ b.now.pattern.minor_dim }
    requires second { c.now.pattern.major_dim ≡ d.now.pattern.minor_dim }
    requires rows { a.now.pattern.minor_dim ≡ c.now.pattern.minor_dim }
    requires cols { b.now.pattern.major_dim ≡ d.now.pattern.major_dim }
    ensures { IfOk result (λ m. plain_of_cols T.ring T.value m ≡ plain_sum T.ring
        (plain_product T.ring (plain_of_cols T.ring T.value a.now)
        (plain_of_cols T.ring T.value b.now))
        (plain_product T.ring (plain_of_cols T.ring T.value c.now)
        (plain_of_cols T.ring T.value d.now))) }
{
    let first = mul_csc(alloc, a, b)?;
    let second = mul_csc(alloc, c, d)?;
    add_csc(alloc, &first, &second)
}
