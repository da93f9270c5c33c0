//! Inverses of all residues of small moduli, compared with those that trials find.

use sparse_algebra::scalar::{Mod, Ring, Units};

// Whether some residue times x is one, tried one after the other.
fn has_inverse_by_trial<const M: u64>(x: Mod<M>) -> bool {
    for y in 0..M {
        if x.mul(Mod::new(y)) == Mod::one() {
            return true;
        }
    }
    false
}

// Whether the inverses of all residues modulo M are found.
fn all_units<const M: u64>() -> bool {
    for number in 0..M {
        let x = Mod::<M>::new(number);
        let right = match x.recip() {
            Some(inverse) => x.mul(inverse) == Mod::one(),
            None => !has_inverse_by_trial(x),
        };
        if !right {
            return false;
        }
    }
    true
}

fn units_to_16() -> bool {
    all_units::<1>()
        && all_units::<2>()
        && all_units::<3>()
        && all_units::<4>()
        && all_units::<5>()
        && all_units::<6>()
        && all_units::<7>()
        && all_units::<8>()
        && all_units::<9>()
        && all_units::<10>()
        && all_units::<11>()
        && all_units::<12>()
        && all_units::<13>()
        && all_units::<14>()
        && all_units::<15>()
        && all_units::<16>()
}

fn units_to_32() -> bool {
    all_units::<17>()
        && all_units::<18>()
        && all_units::<19>()
        && all_units::<20>()
        && all_units::<21>()
        && all_units::<22>()
        && all_units::<23>()
        && all_units::<24>()
        && all_units::<25>()
        && all_units::<26>()
        && all_units::<27>()
        && all_units::<28>()
        && all_units::<29>()
        && all_units::<30>()
        && all_units::<31>()
        && all_units::<32>()
}

fn units_to_48() -> bool {
    all_units::<33>()
        && all_units::<34>()
        && all_units::<35>()
        && all_units::<36>()
        && all_units::<37>()
        && all_units::<38>()
        && all_units::<39>()
        && all_units::<40>()
        && all_units::<41>()
        && all_units::<42>()
        && all_units::<43>()
        && all_units::<44>()
        && all_units::<45>()
        && all_units::<46>()
        && all_units::<47>()
        && all_units::<48>()
}

fn units_to_64() -> bool {
    all_units::<49>()
        && all_units::<50>()
        && all_units::<51>()
        && all_units::<52>()
        && all_units::<53>()
        && all_units::<54>()
        && all_units::<55>()
        && all_units::<56>()
        && all_units::<57>()
        && all_units::<58>()
        && all_units::<59>()
        && all_units::<60>()
        && all_units::<61>()
        && all_units::<62>()
        && all_units::<63>()
        && all_units::<64>()
}

#[test]
fn units_of_small_moduli(rt: HostRuntime) {
    assert!(rt; units_to_16());
    assert!(rt; units_to_32());
    assert!(rt; units_to_48());
    assert!(rt; units_to_64());
}
