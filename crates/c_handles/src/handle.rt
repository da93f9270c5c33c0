//! The handles for C: opaque pointers to heap blocks, each with what several handles may share.

ghost use Rattle.std.specs.Prelude.{◌≡◌, Option};
ghost use Rattle.sparse_algebra.specs.declared.scalar.wrapping.W64.{W64 as W64Value};
ghost use Rattle.sparse_compressed.specs.Compressed.{Compressed};
ghost use Rattle.c_handles.specs.Owned.{held_code, owns_at};
ghost use Rattle.c_handles.specs.Rows.{factors_row, matrix_row, ring_row};
ghost use Rattle.c_handles.specs.declared.held_factors.HeldFactors.{HeldFactors as HeldFactorsValue};
ghost use Rattle.c_handles.specs.declared.ring_matrix.RingMatrix.{RingMatrix as RingMatrixValue};

use crate::block::Held;
use crate::held_factors::HeldFactors;
use crate::ring_matrix::RingMatrix;
use crate::shared::Shared;
use sparse_algebra::scalar::W64;
use sparse_csr_csc::csr::CsrMatrix;
use std::marker::{Model, Send};

/// A handle: a struct of one pointer, which owns a heap block with a value or is null. A null handle is empty.
///
/// An exported function takes no type with parameters, so each type of values has a handle of its own.
pub trait Handle {
    /// The type of the values, which several handles may share.
    type Item: Drop;

    // The value that the handle holds, if it is not empty.
    ghost value: { Self → Option Self.Item };

    /// Returns the handle with this pointer.
    fn of(held: Held<Shared<Self::Item>>) -> Self
        ensures { value result ≡ held.value };

    /// Returns the pointer of the handle.
    fn into_held(self) -> Held<Shared<Self::Item>>
        ensures { result.value ≡ value self };
}

/// The handle of a CSR matrix over the integers modulo 2^64.
#[repr(C)]
pub struct MatrixHandle {
    at: *mut (),
    pub ghost value: { Option (Compressed W64Value) } by { held_code matrix_row },
}

impl Model for MatrixHandle {
    ghost also_owns = { λ h. owns_at matrix_row h.at h.value };
}

impl Handle for MatrixHandle {
    type Item = CsrMatrix<W64>;

    ghost value = { λ h. h.value };

    fn of(held: Held<Shared<CsrMatrix<W64>>>) -> MatrixHandle
        ensures { result.value ≡ held.value }
    {
        let Held { at } = held;
        MatrixHandle { at: at as *mut () }
    }

    fn into_held(self) -> Held<Shared<CsrMatrix<W64>>>
        ensures { result.value ≡ self.value }
    {
        let MatrixHandle { at } = self;
        Held {
            at: at as *mut Shared<CsrMatrix<W64>>,
        }
    }
}

// A shared matrix may be sent to another thread, and so may the block that holds it.
unsafe impl Send for MatrixHandle {}

/// The handle of factors L and D over the integers modulo 2^64.
#[repr(C)]
pub struct FactorHandle {
    at: *mut (),
    pub ghost value: { Option HeldFactorsValue } by { held_code factors_row },
}

impl Model for FactorHandle {
    ghost also_owns = { λ h. owns_at factors_row h.at h.value };
}

impl Handle for FactorHandle {
    type Item = HeldFactors;

    ghost value = { λ h. h.value };

    fn of(held: Held<Shared<HeldFactors>>) -> FactorHandle
        ensures { result.value ≡ held.value }
    {
        let Held { at } = held;
        FactorHandle { at: at as *mut () }
    }

    fn into_held(self) -> Held<Shared<HeldFactors>>
        ensures { result.value ≡ self.value }
    {
        let FactorHandle { at } = self;
        Held {
            at: at as *mut Shared<HeldFactors>,
        }
    }
}

// Shared factors may be sent to another thread, and so may the block that holds them.
unsafe impl Send for FactorHandle {}

/// The handle of a CSR matrix over the residues modulo a number, and this number.
#[repr(C)]
pub struct RingHandle {
    at: *mut (),
    pub ghost value: { Option RingMatrixValue } by { held_code ring_row },
}

impl Model for RingHandle {
    ghost also_owns = { λ h. owns_at ring_row h.at h.value };
}

impl Handle for RingHandle {
    type Item = RingMatrix;

    ghost value = { λ h. h.value };

    fn of(held: Held<Shared<RingMatrix>>) -> RingHandle
        ensures { result.value ≡ held.value }
    {
        let Held { at } = held;
        RingHandle { at: at as *mut () }
    }

    fn into_held(self) -> Held<Shared<RingMatrix>>
        ensures { result.value ≡ self.value }
    {
        let RingHandle { at } = self;
        Held {
            at: at as *mut Shared<RingMatrix>,
        }
    }
}

// A shared matrix may be sent to another thread, and so may the block that holds it.
unsafe impl Send for RingHandle {}
