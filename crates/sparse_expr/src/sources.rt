//! The inputs of an expression, each converted at most once to CSR and once to CSC.

ghost use Rattle.std.specs.Prelude.{◌≡◌, List, IfOk, OnOk, map};
ghost use Rattle.std.specs.List.{AllZip};
ghost use Rattle.sparse_coo_dense.specs.Coo.{Coo};
ghost use Rattle.sparse_coo_dense.specs.CooPlain.{plain_of_coo};
ghost use Rattle.sparse_expr.specs.Value.{Meets, input_at};
ghost use Rattle.sparse_expr.specs.InnerTransposed.{rows_or_transposed};
ghost use Rattle.sparse_expr.specs.InnerSources.{Keeps, Provides};

use crate::error::ExprError;
use crate::expr::Expr;
use sparse_algebra::scalar::Ring;
use sparse_convert::serial::{convert_coo_csc, convert_coo_csr};
use sparse_coo_dense::coo::CooMatrix;
use sparse_csr_csc::csr::CsrMatrix;
use std::alloc::{AllocError, Global};
use std::rc::Rc;

/// A matrix that is converted at its first use and kept until its last one.
#[derive(Drop)]
pub(crate) struct CachedMatrix<T> {
    // The number of uses left. Only time and memory depend on it.
    uses: usize,
    matrix: Option<Rc<CsrMatrix<T>>>,
}

/// An input as a CSR matrix, and its transpose as a CSR matrix.
#[derive(Drop)]
pub(crate) struct Source<T> {
    rows: CachedMatrix<T>,
    transposed: CachedMatrix<T>,
}

/// Returns a source for each input, with no matrix converted yet.
pub(crate) fn empty_sources<T: Ring>(
    alloc: Global,
    inputs: &[CooMatrix<T>],
) -> Result<Vec<Source<T>>, AllocError>
    ensures provides { IfOk result
        (λ sources. AllZip (Provides T.ring T.value) inputs.now sources.items) }
{
    let mut sources = Vec::with_capacity(alloc, inputs.len())?;
    for _input in inputs {
        let rows = CachedMatrix {
            uses: 0,
            matrix: None,
        };
        let transposed = CachedMatrix {
            uses: 0,
            matrix: None,
        };
        sources.push(Source { rows, transposed })?;
    }
    Ok(sources)
}

/// Counts the uses of each source in an expression, or in its transpose if `transposed`.
pub(crate) fn count_uses<T: Ring>(expr: &Expr, transposed: bool, sources: &mut [Source<T>])
    ensures provides { (inputs : List (Coo T)) → AllZip (Provides T.ring T.value) inputs sources.old
        → AllZip (Provides T.ring T.value) inputs sources.new }
{
    match expr {
        Expr::Input(number) => count_use(*number, transposed, sources),
        Expr::Add(a, b) | Expr::Sub(a, b) | Expr::Mul(a, b) => {
            count_uses(a, transposed, sources);
            count_uses(b, transposed, sources);
        }
        Expr::Transpose(a) => count_uses(a, !transposed, sources),
        Expr::Neg(a) => count_uses(a, transposed, sources),
    }
}

// Counts a use of the source with this number, counted from 1, if there is one.
fn count_use<T: Ring>(number: usize, transposed: bool, sources: &mut [Source<T>])
    ensures provides { (inputs : List (Coo T)) → AllZip (Provides T.ring T.value) inputs sources.old
        → AllZip (Provides T.ring T.value) inputs sources.new }
{
    if number > 0 && number <= sources.len() {
        let source = &mut sources[number - 1];
        if transposed {
            source.transposed.uses = source.transposed.uses.saturating_add(1);
        } else {
            source.rows.uses = source.rows.uses.saturating_add(1);
        }
    }
}

/// Returns an input as a CSR matrix, or its transpose if `transposed`.
#[inline(never)]
pub(crate) fn input<T: Ring>(
    alloc: Global,
    number: usize,
    inputs: &[CooMatrix<T>],
    transposed: bool,
    sources: &mut [Source<T>],
) -> Result<Rc<CsrMatrix<T>>, ExprError>
    requires provides { AllZip (Provides T.ring T.value) inputs.now sources.old }
    ensures met { Meets T.ring (λ m. rows_or_transposed T.ring T.value transposed m.value)
        (input_at T.ring (map (λ m. plain_of_coo T.ring T.value m) inputs.now) number) result }
    ensures provides { OnOk result (AllZip (Provides T.ring T.value) inputs.now sources.new) }
{
    if number == 0 || number > inputs.len() {
        return Err(ExprError::NoSuchInput);
    }
    let list = &inputs[number - 1];
    let source = &mut sources[number - 1];
    Ok(matrix_of(alloc, list, transposed, source)?)
}

// Returns a list as a CSR matrix, or its transpose if `transposed`.
fn matrix_of<T: Ring>(
    alloc: Global,
    list: &CooMatrix<T>,
    transposed: bool,
    source: &mut Source<T>,
) -> Result<Rc<CsrMatrix<T>>, AllocError>
    requires provides { Provides T.ring T.value list.now source.old }
    ensures is { IfOk result
        (λ m. rows_or_transposed T.ring T.value transposed m.value ≡ plain_of_coo T.ring T.value list.now) }
    ensures provides { OnOk result (Provides T.ring T.value list.now source.new) }
{
    if transposed {
        shared(alloc, list, true, &mut source.transposed)
    } else {
        shared(alloc, list, false, &mut source.rows)
    }
}

// Returns the matrix that is kept, or converts the list if there is none. Keeps it if uses are left.
#[tactic(auto, using(sparse_algebra::proofs::EarlyReturns::early_return))]
fn shared<T: Ring>(
    alloc: Global,
    list: &CooMatrix<T>,
    transposed: bool,
    cached: &mut CachedMatrix<T>,
) -> Result<Rc<CsrMatrix<T>>, AllocError>
    requires keeps { Keeps T.ring T.value transposed list.now cached.old }
    ensures is { IfOk result
        (λ m. rows_or_transposed T.ring T.value transposed m.value ≡ plain_of_coo T.ring T.value list.now) }
    ensures keeps { OnOk result (Keeps T.ring T.value transposed list.now cached.new) }
{
    let matrix = match cached.matrix.take() {
        Some(matrix) => matrix,
        None => Rc::new(alloc, converted(alloc, list, transposed)?)?,
    };
    if cached.uses > 1 {
        cached.uses -= 1;
        cached.matrix = Some(matrix.clone()?);
    }
    Ok(matrix)
}

// Converts a list to CSR. If `transposed`, converts it to CSC, whose arrays are those of the transpose in CSR.
fn converted<T: Ring>(
    alloc: Global,
    list: &CooMatrix<T>,
    transposed: bool,
) -> Result<CsrMatrix<T>, AllocError>
    ensures is { IfOk result
        (λ m. rows_or_transposed T.ring T.value transposed m ≡ plain_of_coo T.ring T.value list.now) }
{
    if transposed {
        Ok(convert_coo_csc(alloc, list)?.transpose_as_csr())
    } else {
        convert_coo_csr(alloc, list)
    }
}
