//! Conversions between scalars and the integers that represent them.

ghost use Rattle.std.specs.Prelude.{◌≡◌, ◌≤◌, length, map, take, drop, IfOk};
ghost use Rattle.sparse_algebra.specs.Numbers.{w64_number};
ghost use Rattle.sparse_algebra.specs.Integers.{element_of};
ghost use Rattle.c_arrays.specs.Reduced.{FirstAre};

use crate::number::Number;
use sparse_algebra::scalar::W64;
use std::alloc::{AllocError, Global};

/// Returns the scalars that integers represent. Fails only if an allocation fails.
pub fn scalars_of<T: Number>(alloc: Global, numbers: &[i64]) -> Result<Vec<T>, AllocError>
    ensures { IfOk result (λ scalars. map T.value scalars.items ≡ map (element_of T.ring) numbers.now) }
{
    let mut scalars = Vec::with_capacity(alloc, numbers.len())?;
    for number in numbers {
        scalars.push_reserved(T::from_number(*number));
    }
    Ok(scalars)
}

/// Writes integers that represent the scalars to the beginning of a slice, which must have room for them.
pub fn put_scalars<T: Number>(target: &mut [i64], source: &[T])
    requires room { length source.now ≤ length target.old }
    ensures written { map (element_of T.ring) (take (length source.now) target.new) ≡ map T.value source.now }
    ensures shown { FirstAre T.is_shown (length source.now) target.new }
    ensures rest { drop (length source.now) target.new ≡ drop (length source.now) target.old }
{
    for at in 0..source.len() {
        target[at] = source[at].number();
    }
}

/// Writes the representatives of wrapping integers to the beginning of a slice, which must have room for them.
pub fn put_numbers(target: &mut [i64], source: &[W64])
    requires room { length source.now ≤ length target.old }
    ensures written { take (length source.now) target.new ≡ map w64_number source.now }
    ensures rest { drop (length source.now) target.new ≡ drop (length source.now) target.old }
{
    for at in 0..source.len() {
        target[at] = source[at].get();
    }
}

/// Copies items to the beginning of a slice, which must have room for them.
pub fn put_items<T: Copy>(target: &mut [T], source: &[T])
    requires room { length source.now ≤ length target.old }
    ensures written { take (length source.now) target.new ≡ source.now }
    ensures rest { drop (length source.now) target.new ≡ drop (length source.now) target.old }
{
    let (front, _) = target.split_at_mut(source.len());
    front.copy_from_slice(source);
}
