//! Laws of the fill.

ghost use Rattle.std.specs.Prelude.{ℕ, ◌↔◌};
ghost use Rattle.sparse_pattern.specs.Raw.{Raw, IsValid};
ghost use Rattle.sparse_factor.specs.Fill.{Filled, InFill, TriangleBase};
ghost use Rattle.sparse_factor.specs.declared.factorization.Triangle.{Triangle};

/// The fill of a triangle of a valid pattern is the least set of pairs that contains the base and is closed under fill.
///
/// `InFill`, which the contracts of the factor cite, is the least among those of these sets that a test decides.
pub fn least_fill_law()
    ensures { (triangle : Triangle) (pattern : Raw) → IsValid pattern → (i j : ℕ)
        → Filled (TriangleBase triangle pattern) i j ↔ InFill (TriangleBase triangle pattern) i j }
{}
