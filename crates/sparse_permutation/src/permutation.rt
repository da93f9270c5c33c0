//! Permutations of the numbers below n.

ghost use Rattle.std.specs.Prelude.{◌≡◌, ◌≢◌, ◌↔◌, length, IfOk, IfErr, OnOk, IsOkUnless, IsTrue};
ghost use Rattle.std.specs.Prelude.{IsErrOf};
ghost use Rattle.sparse_algebra.specs.Plain.{below};
ghost use Rattle.sparse_permutation.specs.Permutations.{IsOrder, IsInverse, composed, order_eq};
ghost use Rattle.sparse_permutation.specs.PermutationFaults.{IsFirstFault};

use crate::error::{PermutationError, PermuteError};
use std::alloc::{AllocError, Global};
use std::marker::Model;

/// A permutation of the numbers below its length: an order in which the rows, or the rows and columns, of a matrix are
/// taken.
///
/// The index at `k` of the order says which row comes at `k`. In contracts a permutation is the list of these indices.
///
/// # Examples
///
/// ```rust
/// fn the_last_row_comes_first(alloc: Global) -> Result<bool, Fail> {
///     let order = Vec::from_slice(alloc, &[2, 0, 1])?;
///     let permutation = Permutation::try_from_order(alloc, order)?;
///     Ok(permutation.order() == [2, 0, 1].as_slice())
/// }
/// ```
#[derive(Debug, Drop)]
pub struct Permutation {
    order: Vec<usize>,
}

impl Model for Permutation {
    ghost use Rattle.std.specs.Prelude.{ℕ, List};
    ghost use Rattle.sparse_permutation.specs.Permutations.{IsOrder};

    ghost Value = { List ℕ };

    ghost view = { λ p. p.order.items };

    ghost invariant = { λ p. IsOrder p.order.items };
}

impl Permutation {
    /// Returns the permutation that changes nothing: 0, 1, .., n - 1.
    ///
    /// Linear in `n`. Fails only if the allocation of the order fails.
    ///
    /// # Examples
    ///
    /// ```rust
    /// fn the_order_is_unchanged(alloc: Global) -> Result<bool, Fail> {
    ///     Ok(Permutation::identity(alloc, 3)?.order() == [0, 1, 2].as_slice())
    /// }
    /// ```
    pub fn identity(alloc: Global, n: usize) -> Result<Self, AllocError>
        ensures { IfOk result (λ p. p ≡ below n) }
    {
        let mut order = Vec::with_capacity(alloc, n)?;
        for index in 0..n {
            order.push(index)?;
        }
        Ok(Permutation { order })
    }

    /// Returns the permutation with this order, in which each number below its length must occur exactly once.
    ///
    /// Linear in the length. Allocates a mark for each index beside the order.
    ///
    /// # Errors
    ///
    /// Returns `OutOfMemory` if the allocation of the marks fails. Otherwise returns the first fault, index by index:
    /// an index that is not less than the length, or one that occurs before. The order is dropped.
    ///
    /// # Examples
    ///
    /// ```rust
    /// fn an_index_is_repeated(alloc: Global) -> Result<bool, Fail> {
    ///     let order = Vec::from_slice(alloc, &[1, 0, 1])?;
    ///     let refused = Permutation::try_from_order(alloc, order).err();
    ///     Ok(refused == Some(PermutationError::RepeatedIndex { at: 2 }))
    /// }
    /// ```
    pub fn try_from_order(alloc: Global, order: Vec<usize>) -> Result<Self, PermutationError>
        ensures ok { IfOk result (λ p. p ≡ order.items) }
        ensures valid { OnOk result (IsOrder order.items) }
        ensures first_fault { IfErr result (IsFirstFault order.items) }
        ensures accepted { IsOrder order.items
            → IsOkUnless result PermutationError.OutOfMemory }
    {
        check(alloc, &order)?;
        Ok(Permutation { order })
    }

    /// Returns the indices in order.
    pub fn order(&self) -> &[usize]
        ensures order { result.now ≡ self.now }
        ensures valid { IsOrder self.now }
    {
        &self.order
    }

    /// Returns the number of indices.
    pub fn len(&self) -> usize
        ensures { result ≡ length self.now }
    {
        self.order.len()
    }

    /// Returns whether there is no index.
    pub fn is_empty(&self) -> bool
        ensures { IsTrue result ↔ (length self.now ≡ 0) }
    {
        self.order.is_empty()
    }

    /// Returns the inverse permutation, whose index at `i` is where `i` is in this order.
    ///
    /// Linear in the length. Fails only if the allocation of the order fails.
    ///
    /// # Examples
    ///
    /// ```rust
    /// fn the_inverse_finds_each_index(alloc: Global) -> Result<bool, Fail> {
    ///     let order = Vec::from_slice(alloc, &[2, 0, 1])?;
    ///     let inverse = Permutation::try_from_order(alloc, order)?.inverse(alloc)?;
    ///     Ok(inverse.order() == [1, 2, 0].as_slice())
    /// }
    /// ```
    pub fn inverse(&self, alloc: Global) -> Result<Permutation, AllocError>
        ensures inverse { IfOk result (IsInverse self.now) }
        ensures valid { IfOk result IsOrder }
    {
        let order = self.order();
        let mut inverse = vec![in alloc; 0; order.len()]?;
        for at in 0..order.len() {
            inverse[order[at]] = at;
        }
        Ok(Permutation { order: inverse })
    }

    /// Returns the permutation that has the effect of this one followed by `next`: its index at `k` is the index of
    /// this order at `next.order()[k]`.
    ///
    /// Linear in the length.
    ///
    /// # Errors
    ///
    /// Returns `LengthMismatch` if the lengths are different, and `OutOfMemory` if the allocation of the order fails.
    ///
    /// # Examples
    ///
    /// ```rust
    /// fn two_orders_become_one(alloc: Global) -> Result<bool, Fail> {
    ///     let first = Permutation::try_from_order(alloc, Vec::from_slice(alloc, &[1, 2, 0])?)?;
    ///     let next = Permutation::try_from_order(alloc, Vec::from_slice(alloc, &[0, 2, 1])?)?;
    ///     Ok(first.compose(alloc, &next)?.order() == [1, 0, 2].as_slice())
    /// }
    /// ```
    pub fn compose(&self, alloc: Global, next: &Permutation) -> Result<Permutation, PermuteError>
        ensures ok { IfOk result (λ p. p ≡ composed self.now next.now) }
        ensures refused { length self.now ≢ length next.now
            → IsErrOf result PermuteError.LengthMismatch }
        ensures accepted { length self.now ≡ length next.now
            → IsOkUnless result PermuteError.OutOfMemory }
    {
        if self.len() != next.len() {
            return Err(PermuteError::LengthMismatch);
        }
        Ok(self.followed_by(alloc, next)?)
    }

    // Returns this permutation followed by another of the same length.
    fn followed_by(&self, alloc: Global, next: &Permutation) -> Result<Permutation, AllocError>
        requires { length self.now ≡ length next.now }
        ensures { IfOk result (λ p. p ≡ composed self.now next.now) }
    {
        let order = self.order();
        let mut composed = Vec::with_capacity(alloc, order.len())?;
        for index in next.order() {
            composed.push(order[*index])?;
        }
        Ok(Permutation { order: composed })
    }

    /// Returns a copy. Fails only if the allocation of the order fails.
    pub fn clone(&self, alloc: Global) -> Result<Self, AllocError>
        ensures { IfOk result (λ p. p ≡ self.now) }
    {
        Ok(Permutation {
            order: Vec::from_slice(alloc, &self.order)?,
        })
    }
}

// Checks that each number below the length of the order occurs in it exactly once, and returns the first fault.
fn check(alloc: Global, order: &[usize]) -> Result<(), PermutationError>
    ensures ok { OnOk result (IsOrder order.now) }
    ensures first_fault { IfErr result (IsFirstFault order.now) }
{
    let mut occurs = vec![in alloc; false; order.len()]?;
    for at in 0..order.len() {
        let index = order[at];
        if index >= order.len() {
            return Err(PermutationError::IndexOutOfBounds { at });
        }
        if occurs[index] {
            return Err(PermutationError::RepeatedIndex { at });
        }
        occurs[index] = true;
    }
    Ok(())
}

impl PartialEq for Permutation {
    ghost use Rattle.std.specs.Cmp.Rules.{comparing};
    ghost use Rattle.std.proofs.Common.{rules};
    ghost use Rattle.sparse_permutation.specs.Permutations.{order_eq};

    ghost eq = { order_eq };

    ghost laws = { Prim.search (comparing, rules) };

    fn eq(&self, other: &Self) -> bool
        ensures value { result ≡ order_eq self.now other.now }
        ensures same { IsTrue result ↔ (self.now ≡ other.now) }
    {
        self.order == other.order
    }
}

impl Eq for Permutation {
    ghost use Rattle.std.specs.Cmp.Rules.{comparing};
    ghost use Rattle.std.proofs.Common.{rules};

    ghost laws = { Prim.search (comparing, rules) };
}
