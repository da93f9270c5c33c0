//! Assembly from element matrices whose rows and columns are numbered, as a mesh numbers them.

ghost use Rattle.std.specs.Prelude.{◌≡◌, ◌<◌, ◌↔◌, All, IfOk, IsTrue, OnOk};
ghost use Rattle.nalgebra_sparse.specs.Compressed.{IsSound};
ghost use Rattle.nalgebra_sparse.specs.Coo.{appended};
ghost use Rattle.nalgebra_sparse.specs.PlainOfLanes.{plain_of_rows};
ghost use Rattle.examples_theorems.specs.Elements.{IsNumbered, elements_sum};
ghost use Rattle.examples_theorems.specs.InnerElements.{element_triplets, row_triplets};

use crate::example::holds;
use crate::parts::Element;
use nalgebra_sparse::CooMatrix;
use nalgebra_sparse::convert::serial::convert_coo_csr;
use nalgebra_sparse::csr::CsrMatrix;
use nalgebra_sparse::dense::DMatrix;
use nalgebra_sparse::scalar::{Ring, W64};
use std::alloc::{AllocError, Global};
use std::test::Fail;

// Whether each row and column of the element has a number, and the numbers lie within this shape.
fn is_numbered<T>(nrows: usize, ncols: usize, element: &Element<T>) -> bool
    ensures { IsTrue result ↔ IsNumbered nrows ncols element.now }
{
    element.rows.len() == element.matrix.nrows()
        && element.cols.len() == element.matrix.ncols()
        && element.rows.iter().all(|row| *row < nrows)
        && element.cols.iter().all(|col| *col < ncols)
}

// Whether each element is numbered within this shape.
fn all_numbered<T>(nrows: usize, ncols: usize, elements: &[Element<T>]) -> bool
    ensures { IsTrue result ↔ All (IsNumbered nrows ncols) elements.now }
{
    elements
        .iter()
        .all(|element| is_numbered(nrows, ncols, element))
}

// Appends the values of a row of the element at their row and columns.
fn push_row<T: Ring>(
    list: &mut CooMatrix<T>,
    element: &Element<T>,
    k: usize,
) -> Result<(), AllocError>
    requires numbered { IsNumbered list.old.nrows list.old.ncols element.now }
    requires row { k < element.now.matrix.nrows }
    ensures { OnOk result (list.new ≡ appended list.old
        (row_triplets T.zero_value element.now k element.now.matrix.ncols)) }
{
    let row = element.rows[k];
    for l in 0..element.matrix.ncols() {
        list.push(row, element.cols[l], element.matrix.get(k, l))?;
    }
    Ok(())
}

// Appends the values of the element at their rows and columns.
fn push_element<T: Ring>(list: &mut CooMatrix<T>, element: &Element<T>) -> Result<(), AllocError>
    requires { IsNumbered list.old.nrows list.old.ncols element.now }
    ensures { OnOk result (list.new ≡ appended list.old
        (element_triplets T.zero_value element.now element.now.matrix.nrows)) }
{
    for k in 0..element.matrix.nrows() {
        push_row(list, element, k)?;
    }
    Ok(())
}

// Returns the sum of the elements: a matrix of this shape to whose value at (i, j) each element adds its values at the
// rows numbered i and the columns numbered j.
fn assemble_elements<T: Ring>(
    alloc: Global,
    nrows: usize,
    ncols: usize,
    elements: &[Element<T>],
) -> Result<CsrMatrix<T>, AllocError>
    requires { All (IsNumbered nrows ncols) elements.now }
    ensures plain { IfOk result (λ m. plain_of_rows T.ring T.value m
        ≡ elements_sum T.ring T.value nrows ncols elements.now) }
    ensures sound { IfOk result IsSound }
{
    let mut list = CooMatrix::new(alloc, nrows, ncols);
    for element in elements {
        push_element(&mut list, element)?;
    }
    let matrix = convert_coo_csr(alloc, &list)?;
    Ok(matrix)
}

// The stiffness matrix of a bar between two nodes of a mesh.
fn bar(alloc: Global, from: usize, to: usize) -> Result<Element<W64>, AllocError> {
    Ok(Element {
        rows: Vec::from_slice(alloc, &[from, to])?,
        cols: Vec::from_slice(alloc, &[from, to])?,
        matrix: DMatrix::from_row_slice(alloc, 2, 2, &[1, -1, -1, 1].map(W64::new))?,
    })
}

// Whether two bars that meet at the node 2 have the rows 1 0 -1, 0 1 -1 and -1 -1 2, and do not fit two nodes.
fn two_bars(alloc: Global) -> Result<bool, Fail> {
    let bars = [bar(alloc, 0, 2)?, bar(alloc, 2, 1)?];
    if all_numbered(2, 3, &bars) || !all_numbered(3, 3, &bars) {
        return Ok(false);
    }
    let matrix = assemble_elements(alloc, 3, 3, &bars)?;
    let offsets = [0, 2, 4, 7].as_slice();
    let columns = [0, 2, 1, 2, 0, 1, 2].as_slice();
    let values = [1, -1, 1, -1, -1, -1, 2].map(W64::new);
    Ok(matrix.csr_data() == (offsets, columns, values.as_slice()))
}

#[test]
fn elements_are_assembled(rt: HostRuntime) {
    assert!(rt; holds(&rt, two_bars(rt.alloc())));
}
