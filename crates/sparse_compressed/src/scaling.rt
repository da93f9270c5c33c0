//! Negation and scaling of stored values in place.

ghost use Rattle.std.specs.Prelude.{◌≡◌};
ghost use Rattle.sparse_algebra.specs.Plain.{plain_negation, plain_scaled};
ghost use Rattle.sparse_compressed.specs.ChangedValues.{AreChanged};
ghost use Rattle.sparse_compressed.specs.Compressed.{IsSound};
ghost use Rattle.sparse_compressed.specs.PlainOfLanes.{plain_of_rows};

use crate::CsMatrix;
use sparse_algebra::scalar::Ring;

impl<T: Ring> CsMatrix<T> {
    /// Negates each stored value. Allocates nothing.
    pub fn negate(&mut self)
        ensures pattern { self.new.pattern ≡ self.old.pattern }
        ensures values { plain_of_rows T.ring T.value self.new
            ≡ plain_negation T.ring (plain_of_rows T.ring T.value self.old) }
        ensures sound { IsSound self.new }
    {
        negate_values(&mut self.values);
    }

    /// Multiplies each stored value by `coefficient`. Allocates nothing.
    pub fn scale(&mut self, coefficient: T)
        ensures pattern { self.new.pattern ≡ self.old.pattern }
        ensures values { plain_of_rows T.ring T.value self.new
            ≡ plain_scaled T.ring (T.value coefficient) (plain_of_rows T.ring T.value self.old) }
        ensures sound { IsSound self.new }
    {
        scale_values(coefficient, &mut self.values);
    }
}

/// Negates each value.
pub fn negate_values<T: Ring>(values: &mut [T])
    ensures { AreChanged T.value T.ring.neg T.zero_value values.old values.new }
{
    for value in values.iter_mut() {
        *value = value.neg();
    }
}

/// Multiplies each value by `coefficient`.
pub fn scale_values<T: Ring>(coefficient: T, values: &mut [T])
    ensures { AreChanged T.value (T.ring.mul (T.value coefficient)) T.zero_value values.old values.new }
{
    for value in values.iter_mut() {
        *value = coefficient.mul(*value);
    }
}
