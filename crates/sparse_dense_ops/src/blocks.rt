//! Blocks of columns of a dense matrix, which are updated in one pass over the sparse one.

ghost use Rattle.std.specs.Prelude.{◌≡◌, ◌<◌, ◌≤◌, ◌⊎◌, false};

// The number of columns of a block.
pub const BLOCK: usize = 4;

// Returns the number of columns of the next block, one or four, where `left` columns are left. `alone` says that each
// block has one.
pub fn width_of_block(alone: bool, left: usize) -> usize
    requires { 0 < left }
    ensures within { result ≤ left }
    ensures widths { (result ≡ 1) ⊎ ((result ≡ 4) × (alone ≡ false)) }
{
    if alone || left < BLOCK { 1 } else { BLOCK }
}
