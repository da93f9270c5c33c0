//! Laws of the definitions: each is the contract of a function with an empty body.

ghost use Rattle.std.specs.Prelude.{◌≡◌, ℕ, List};
ghost use Rattle.sparse_expr.specs.PostfixWords.{IsSaid, IsRefused};
ghost use Rattle.sparse_expr.specs.OneTree.{tree_of};
ghost use Rattle.sparse_expr.specs.declared.expr.Expr.{Expr};
ghost use Rattle.sparse_expr.specs.declared.error.ExprError.{ExprError};

/// Words in postfix order denote at most one tree, and words that denote a tree have no error.
pub fn one_tree_law()
    ensures same { (words : List (List ℕ)) (a b : Expr) → IsSaid words a → IsSaid words b
        → tree_of a ≡ tree_of b }
    ensures no_refusal { (words : List (List ℕ)) (a : Expr) (e : ExprError) → IsSaid words a
        → IsRefused words e → ⊥ }
{}
