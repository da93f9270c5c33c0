//! A scalar as a user of the library may write one, whose `==` ignores a part of the value.

ghost use Rattle.std.specs.Prelude.{◌%◌, nat_eq, refl};
ghost use Rattle.std.proofs.Common.{rules};
ghost use Rattle.std.specs.Cmp.Rules.{comparing};

#[cfg(test)]
use nalgebra_sparse::scalar::{Ring, Zero};

/// A residue modulo 7 whose number need not be reduced, with a tag that `==` ignores.
#[derive(Clone, Copy, Debug)]
pub struct Residue7 {
    number: u64,
    tag: u8,
}

#[cfg(test)]
impl Residue7 {
    pub fn new(number: u64, tag: u8) -> Residue7 {
        Residue7 { number, tag }
    }
}

#[cfg(test)]
impl PartialEq for Residue7 {
    ghost eq = { λ a b. nat_eq (a.number % 7) (b.number % 7) };

    ghost laws = { Prim.search (comparing, rules) };

    fn eq(&self, other: &Residue7) -> bool {
        self.number % 7 == other.number % 7
    }
}

#[cfg(test)]
impl Zero for Residue7 {
    ghost zero_value = { record { number = 0; tag = 0 } };

    fn zero() -> Residue7 {
        Residue7 { number: 0, tag: 0 }
    }
}

#[cfg(test)]
impl Ring for Residue7 {
    ghost use Rattle.nalgebra_sparse.specs.Classes.{class_ring, class, class_decides};
    ghost use Rattle.tests_acceptance.specs.Residue7.{residue7_laws};

    ghost ring = { class_ring residue7_laws };

    ghost value = { class residue7_laws };

    ghost zero_law = { refl };

    ghost eq_law = { class_decides residue7_laws };

    fn one() -> Residue7 {
        Residue7 { number: 8, tag: 3 }
    }

    fn add(self, other: Residue7) -> Residue7 {
        Residue7 {
            number: self.number % 7 + other.number % 7,
            tag: other.tag,
        }
    }

    fn mul(self, other: Residue7) -> Residue7 {
        Residue7 {
            number: (self.number % 7) * (other.number % 7),
            tag: self.tag,
        }
    }

    fn neg(self) -> Residue7 {
        Residue7 {
            number: 7 - self.number % 7,
            tag: 1,
        }
    }
}
