//! Parsing words in postfix order into an expression.

ghost use Rattle.std.specs.Prelude.{◌≡◌, ◌⊎◌, ◌<◌, ◌≤◌, [], ◌∷◌, ◌++◌, OnOk, IfOk, IfErr, length};
ghost use Rattle.std.specs.Prelude.{box_value};
ghost use Rattle.std.specs.List.{flat_map};
ghost use Rattle.sparse_expr.specs.PostfixWords.{token_of, operator_of, words_of, texts, takes};
ghost use Rattle.sparse_expr.specs.PostfixWords.{postfix, IsSaid, IsRefused};
ghost use Rattle.sparse_expr.specs.declared.error.ExprError.TheVariants.{MissingOperand, LeftOver};
ghost use Rattle.sparse_expr.specs.declared.error.ExprError.TheVariants.{OutOfMemory};

use crate::error::ExprError;
use crate::expr::Expr;
use sparse_parser::numbers::{index, is_index};
use std::alloc::{AllocError, Global};

/// A word of an expression.
#[derive(Clone, Copy, Debug, PartialEq, Eq)]
pub(crate) enum Token {
    /// The number of an input.
    Operand(usize),
    /// `+`, which takes two operands.
    Plus,
    /// `-`, which takes two operands.
    Minus,
    /// `*`, which takes two operands.
    Times,
    /// `t`, which takes one operand.
    Transpose,
    /// `n`, which takes one operand.
    Negate,
}

impl Token {
    // Returns the token of a word.
    fn from_word(word: &[u8]) -> Option<Token>
        ensures { result ≡ token_of word.now }
    {
        if is_index(word) {
            match index(word) {
                Some(0) | None => None,
                Some(n) => Some(Token::Operand(n)),
            }
        } else {
            operator(word)
        }
    }
}

// Returns the operator of a word that is not a number.
fn operator(word: &[u8]) -> Option<Token>
    ensures { result ≡ operator_of word.now }
{
    if word == b"+".as_slice() {
        Some(Token::Plus)
    } else if word == b"-".as_slice() {
        Some(Token::Minus)
    } else if word == b"*".as_slice() {
        Some(Token::Times)
    } else if word == b"t".as_slice() {
        Some(Token::Transpose)
    } else if word == b"n".as_slice() {
        Some(Token::Negate)
    } else {
        None
    }
}

// Splits a text into words: the longest runs without a space.
fn words<'a>(alloc: Global, text: &'a [u8]) -> Result<Vec<&'a [u8]>, AllocError>
    ensures { IfOk result (λ v. texts v.items ≡ words_of text.now) }
{
    text.split(|byte| *byte == b' ')
        .filter(|word| !word.is_empty())
        .collect(alloc)
}

impl Expr {
    /// Returns the expression given by words in postfix order, such as `"1 2 * t"`.
    ///
    /// Words are separated by spaces. A word is the number of an input, counted from 1; `+`, `-` or `*` for the sum,
    /// the difference or the product of the two operands before it; `t` or `n` for the transpose or the negation of the
    /// operand before it.
    ///
    /// Time and memory are linear in the length of the text.
    ///
    /// # Errors
    ///
    /// Returns the first error from the left: `BadWord` for any other word; `MissingOperand` for an operator that lacks
    /// operands, or if there are no words; `LeftOver` if more than one operand is left at the end. Returns
    /// `OutOfMemory` if an allocation fails.
    ///
    /// # Examples
    ///
    /// ```rust
    /// fn words_become_a_tree(alloc: Global) -> Result<bool, Fail> {
    ///     let product = Expr::from_words(alloc, "1 2 *")?;
    ///     Ok(matches!(product, Expr::Mul(_, _)))
    /// }
    /// ```
    ///
    /// ```rust
    /// fn an_operand_is_missing(alloc: Global) -> Result<bool, Fail> {
    ///     let refused = Expr::from_words(alloc, "1 *").err();
    ///     Ok(refused == Some(ExprError::MissingOperand))
    /// }
    /// ```
    pub fn from_words(alloc: Global, text: &str) -> Result<Expr, ExprError>
        ensures said { IfOk result (λ e. IsSaid (words_of text.now) e) }
        ensures refused { IfErr result (λ e. (e ≡ OutOfMemory) ⊎ IsRefused (words_of text.now) e) }
    {
        let words = words(alloc, text.as_bytes())?;
        let mut stack = Vec::new(alloc);
        for word in &words {
            match Token::from_word(word) {
                Some(token) => apply(alloc, token, &mut stack)?,
                None => return Err(ExprError::BadWord),
            }
        }
        only_one(stack)
    }
}

// Replaces the operands of a token on the stack by the token's tree.
fn apply(alloc: Global, token: Token, stack: &mut Vec<Expr>) -> Result<(), ExprError>
    ensures said { OnOk result
        (flat_map postfix stack.new.items ≡ flat_map postfix stack.old.items ++ token ∷ []) }
    ensures enough { OnOk result (takes token ≤ length stack.old.items) }
    ensures refused { IfErr result (λ e. (e ≡ OutOfMemory)
        ⊎ ((e ≡ MissingOperand) × (length stack.old.items < takes token))) }
{
    let tree = match token {
        Token::Operand(number) => Expr::Input(number),
        Token::Plus => {
            let (a, b) = operands(alloc, stack)?;
            Expr::Add(a, b)
        }
        Token::Minus => {
            let (a, b) = operands(alloc, stack)?;
            Expr::Sub(a, b)
        }
        Token::Times => {
            let (a, b) = operands(alloc, stack)?;
            Expr::Mul(a, b)
        }
        Token::Transpose => Expr::Transpose(operand(alloc, stack)?),
        Token::Negate => Expr::Neg(operand(alloc, stack)?),
    };
    stack.push(tree)?;
    Ok(())
}

// Pops one tree and boxes it.
fn operand(alloc: Global, stack: &mut Vec<Expr>) -> Result<Box<Expr>, ExprError>
    ensures accepted { IfOk result (λ a. stack.old.items ≡ stack.new.items ++ box_value a ∷ []) }
    ensures refused { IfErr result (λ e. (e ≡ OutOfMemory)
        ⊎ ((e ≡ MissingOperand) × (length stack.old.items < 1))) }
{
    match stack.pop() {
        Some(tree) => Ok(Box::new(alloc, tree)?),
        None => Err(ExprError::MissingOperand),
    }
}

// Pops two trees and boxes them. The one that was pushed first comes first.
fn operands(alloc: Global, stack: &mut Vec<Expr>) -> Result<(Box<Expr>, Box<Expr>), ExprError>
    ensures accepted { IfOk result
        (λ p. stack.old.items ≡ stack.new.items ++ box_value p.0 ∷ box_value p.1 ∷ []) }
    ensures refused { IfErr result (λ e. (e ≡ OutOfMemory)
        ⊎ ((e ≡ MissingOperand) × (length stack.old.items < 2))) }
{
    if stack.len() < 2 {
        return Err(ExprError::MissingOperand);
    }
    let b = stack.pop().unwrap();
    let a = stack.pop().unwrap();
    Ok((Box::new(alloc, a)?, Box::new(alloc, b)?))
}

// Returns the only tree of the stack.
fn only_one(mut stack: Vec<Expr>) -> Result<Expr, ExprError>
    ensures one { IfOk result (λ e. stack.items ≡ e ∷ []) }
    ensures refused { IfErr result (λ e. ((length stack.items ≡ 0) × (e ≡ MissingOperand))
        ⊎ ((1 < length stack.items) × (e ≡ LeftOver))) }
{
    if stack.len() > 1 {
        return Err(ExprError::LeftOver);
    }
    match stack.pop() {
        Some(tree) => Ok(tree),
        None => Err(ExprError::MissingOperand),
    }
}
