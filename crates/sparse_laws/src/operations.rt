//! Laws of sums and products of matrices, over every ring.
//!
//! Each function computes both sides of an equation with the public functions, and its contract says that both results
//! are the same plain matrix: the same places and the same values. The functions here take CSR matrices, those of
//! [`columns`] CSC matrices.

ghost use Rattle.std.specs.Prelude.{◌≡◌, ◌↔◌, ℕ, true, IfOk};
ghost use Rattle.sparse_algebra.specs.Plain.{plain_product, plain_sum, plain_transpose};
ghost use Rattle.sparse_pattern.specs.Raw.{Raw, IsEntry};
ghost use Rattle.sparse_compressed.specs.Compressed.{Compressed, IsSound};
ghost use Rattle.sparse_compressed.specs.PlainOfLanes.{plain_of_rows};
ghost use Rattle.sparse_sums.specs.PatternSums.{IsUnionOf};
ghost use Rattle.sparse_products.specs.Products.{IsProductOf};

pub mod columns;

use sparse_algebra::laws::{identity_product_law, product_distributes_law, transpose_product_law};
use sparse_algebra::recall;
use sparse_algebra::scalar::Ring;
use sparse_compressed::laws::stands_law;
use sparse_csr_csc::csr::CsrMatrix;
use sparse_products::serial::mul_csr;
use sparse_products::transposes::transposed_csr;
use sparse_sums::{add_csr, neg_csr, sub_csr};
use std::alloc::{AllocError, Global};

/// Returns `a * (b + c)` and `a * b + a * c`, which are equal. Fails only if an allocation fails.
pub fn product_distributes<T: Ring>(
    alloc: Global,
    a: &CsrMatrix<T>,
    b: &CsrMatrix<T>,
    c: &CsrMatrix<T>,
) -> Result<(CsrMatrix<T>, CsrMatrix<T>), AllocError>
    requires inner { a.now.pattern.minor_dim ≡ b.now.pattern.major_dim }
    requires rows { b.now.pattern.major_dim ≡ c.now.pattern.major_dim }
    requires cols { b.now.pattern.minor_dim ≡ c.now.pattern.minor_dim }
    ensures { IfOk result
        (λ m. plain_of_rows T.ring T.value m.0 ≡ plain_of_rows T.ring T.value m.1) }
{
    product_distributes_law::<T>();
    let product = product_with_sum(alloc, a, b, c)?;
    let products = sum_of_products(alloc, a, b, a, c)?;
    Ok((product, products))
}

/// Returns `(a + b) * c` and `a * c + b * c`, which are equal. Fails only if an allocation fails.
pub fn product_distributes_right<T: Ring>(
    alloc: Global,
    a: &CsrMatrix<T>,
    b: &CsrMatrix<T>,
    c: &CsrMatrix<T>,
) -> Result<(CsrMatrix<T>, CsrMatrix<T>), AllocError>
    requires rows { a.now.pattern.major_dim ≡ b.now.pattern.major_dim }
    requires cols { a.now.pattern.minor_dim ≡ b.now.pattern.minor_dim }
    requires inner { b.now.pattern.minor_dim ≡ c.now.pattern.major_dim }
    ensures { IfOk result
        (λ m. plain_of_rows T.ring T.value m.0 ≡ plain_of_rows T.ring T.value m.1) }
{
    product_distributes_law::<T>();
    let product = sum_times_matrix(alloc, a, b, c)?;
    let products = sum_of_products(alloc, a, c, b, c)?;
    Ok((product, products))
}

/// Returns `a - b` and `a + (-b)`, which are equal. Fails only if an allocation fails.
pub fn difference_as_sum<T: Ring>(
    alloc: Global,
    a: &CsrMatrix<T>,
    b: &CsrMatrix<T>,
) -> Result<(CsrMatrix<T>, CsrMatrix<T>), AllocError>
    requires rows { a.now.pattern.major_dim ≡ b.now.pattern.major_dim }
    requires cols { a.now.pattern.minor_dim ≡ b.now.pattern.minor_dim }
    ensures { IfOk result
        (λ m. plain_of_rows T.ring T.value m.0 ≡ plain_of_rows T.ring T.value m.1) }
{
    let difference = sub_csr(alloc, a, b)?;
    let negative = neg_csr(alloc, b)?;
    let sum = add_csr(alloc, a, &negative)?;
    Ok((difference, sum))
}

/// Returns `-(-a)`, which is equal to `a`. Fails only if an allocation fails.
pub fn negative_twice<T: Ring>(alloc: Global, a: &CsrMatrix<T>) -> Result<CsrMatrix<T>, AllocError>
    ensures { IfOk result
        (λ m. plain_of_rows T.ring T.value m ≡ plain_of_rows T.ring T.value a.now) }
{
    let negative = neg_csr(alloc, a)?;
    neg_csr(alloc, &negative)
}

/// Returns the product of the identity and `a`, which is equal to `a`. Fails only if an allocation fails.
pub fn identity_times<T: Ring>(alloc: Global, a: &CsrMatrix<T>) -> Result<CsrMatrix<T>, AllocError>
    ensures { IfOk result
        (λ m. plain_of_rows T.ring T.value m ≡ plain_of_rows T.ring T.value a.now) }
{
    stands_law::<T>();
    identity_product_law::<T>();
    recall(a.values());
    let identity = CsrMatrix::identity(alloc, a.nrows())?;
    mul_csr(alloc, &identity, a)
}

/// Returns the product of `a` and the identity, which is equal to `a`. Fails only if an allocation fails.
pub fn times_identity<T: Ring>(alloc: Global, a: &CsrMatrix<T>) -> Result<CsrMatrix<T>, AllocError>
    ensures { IfOk result
        (λ m. plain_of_rows T.ring T.value m ≡ plain_of_rows T.ring T.value a.now) }
{
    stands_law::<T>();
    identity_product_law::<T>();
    recall(a.values());
    let identity = CsrMatrix::identity(alloc, a.ncols())?;
    mul_csr(alloc, a, &identity)
}

/// Returns the transpose of `a * b`, and the product of the transposes in reverse order, which are equal. Fails only if
/// an allocation fails.
pub fn transpose_of_product<T: Ring>(
    alloc: Global,
    a: &CsrMatrix<T>,
    b: &CsrMatrix<T>,
) -> Result<(CsrMatrix<T>, CsrMatrix<T>), AllocError>
    requires { a.now.pattern.minor_dim ≡ b.now.pattern.major_dim }
    ensures { IfOk result
        (λ m. plain_of_rows T.ring T.value m.0 ≡ plain_of_rows T.ring T.value m.1) }
{
    transpose_product_law::<T>();
    let transposed = transposed_product(alloc, a, b)?;
    let reversed = product_of_transposes(alloc, a, b)?;
    Ok((transposed, reversed))
}

// Returns the transpose of `a * b`.
fn transposed_product<T: Ring>(
    alloc: Global,
    a: &CsrMatrix<T>,
    b: &CsrMatrix<T>,
) -> Result<CsrMatrix<T>, AllocError>
    requires { a.now.pattern.minor_dim ≡ b.now.pattern.major_dim }
    ensures { IfOk result (λ m. plain_of_rows T.ring T.value m ≡ plain_transpose T.ring
        (plain_product T.ring (plain_of_rows T.ring T.value a.now)
        (plain_of_rows T.ring T.value b.now))) }
{
    let product = mul_csr(alloc, a, b)?;
    transposed_csr(alloc, &product)
}

// Returns the transpose of `b` times the transpose of `a`.
fn product_of_transposes<T: Ring>(
    alloc: Global,
    a: &CsrMatrix<T>,
    b: &CsrMatrix<T>,
) -> Result<CsrMatrix<T>, AllocError>
    requires { a.now.pattern.minor_dim ≡ b.now.pattern.major_dim }
    ensures { IfOk result (λ m. plain_of_rows T.ring T.value m ≡ plain_product T.ring
        (plain_transpose T.ring (plain_of_rows T.ring T.value b.now))
        (plain_transpose T.ring (plain_of_rows T.ring T.value a.now))) }
{
    let first = transposed_csr(alloc, a)?;
    let second = transposed_csr(alloc, b)?;
    mul_csr(alloc, &second, &first)
}

// Returns `a * (b + c)`.
fn product_with_sum<T: Ring>(
    alloc: Global,
    a: &CsrMatrix<T>,
    b: &CsrMatrix<T>,
    c: &CsrMatrix<T>,
) -> Result<CsrMatrix<T>, AllocError>
    requires inner { a.now.pattern.minor_dim ≡ b.now.pattern.major_dim }
    requires rows { b.now.pattern.major_dim ≡ c.now.pattern.major_dim }
    requires cols { b.now.pattern.minor_dim ≡ c.now.pattern.minor_dim }
    ensures { IfOk result (λ m. plain_of_rows T.ring T.value m
        ≡ plain_product T.ring (plain_of_rows T.ring T.value a.now)
        (plain_sum T.ring (plain_of_rows T.ring T.value b.now)
        (plain_of_rows T.ring T.value c.now))) }
{
    let sum = add_csr(alloc, b, c)?;
    mul_csr(alloc, a, &sum)
}

// Returns `(a + b) * c`.
fn sum_times_matrix<T: Ring>(
    alloc: Global,
    a: &CsrMatrix<T>,
    b: &CsrMatrix<T>,
    c: &CsrMatrix<T>,
) -> Result<CsrMatrix<T>, AllocError>
    requires rows { a.now.pattern.major_dim ≡ b.now.pattern.major_dim }
    requires cols { a.now.pattern.minor_dim ≡ b.now.pattern.minor_dim }
    requires inner { b.now.pattern.minor_dim ≡ c.now.pattern.major_dim }
    ensures { IfOk result (λ m. plain_of_rows T.ring T.value m
        ≡ plain_product T.ring
        (plain_sum T.ring (plain_of_rows T.ring T.value a.now) (plain_of_rows T.ring T.value b.now))
        (plain_of_rows T.ring T.value c.now)) }
{
    let sum = add_csr(alloc, a, b)?;
    mul_csr(alloc, &sum, c)
}

// Returns `a * b + c * d`.
fn sum_of_products<T: Ring>(
    alloc: Global,
    a: &CsrMatrix<T>,
    b: &CsrMatrix<T>,
    c: &CsrMatrix<T>,
    d: &CsrMatrix<T>,
) -> Result<CsrMatrix<T>, AllocError>
    requires first { a.now.pattern.minor_dim ≡ b.now.pattern.major_dim }
    requires second { c.now.pattern.minor_dim ≡ d.now.pattern.major_dim }
    requires rows { a.now.pattern.major_dim ≡ c.now.pattern.major_dim }
    requires cols { b.now.pattern.minor_dim ≡ d.now.pattern.minor_dim }
    ensures { IfOk result (λ m. plain_of_rows T.ring T.value m ≡ plain_sum T.ring
        (plain_product T.ring (plain_of_rows T.ring T.value a.now)
        (plain_of_rows T.ring T.value b.now))
        (plain_product T.ring (plain_of_rows T.ring T.value c.now)
        (plain_of_rows T.ring T.value d.now))) }
{
    let first = mul_csr(alloc, a, b)?;
    let second = mul_csr(alloc, c, d)?;
    add_csr(alloc, &first, &second)
}

/// The pattern of the product of two matrices has the places of their plain product.
pub fn product_places_law<T: Ring>()
    ensures { (d : Raw) (a b : Compressed T) → IsSound a → IsSound b
        → a.pattern.minor_dim ≡ b.pattern.major_dim → IsProductOf d a.pattern b.pattern
        → (i j : ℕ) → IsEntry d i j
        ↔ ((plain_product T.ring (plain_of_rows T.ring T.value a)
        (plain_of_rows T.ring T.value b)).has i j ≡ true) }
{
    stands_law::<T>();
}

/// The union of the patterns of two matrices has the places of their plain sum.
pub fn union_places_law<T: Ring>()
    ensures { (d : Raw) (a b : Compressed T) → IsSound a → IsSound b
        → IsUnionOf d a.pattern b.pattern
        → (i j : ℕ) → IsEntry d i j
        ↔ ((plain_sum T.ring (plain_of_rows T.ring T.value a) (plain_of_rows T.ring T.value b)).has
        i j ≡ true) }
{
    stands_law::<T>();
}
