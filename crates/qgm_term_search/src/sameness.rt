// Whether two expressions, or two conditions, are the same tree.
ghost use Rattle.std.specs.Prelude.{◌≡◌, ◌↔◌, IfOk, IsTrue};
ghost use Rattle.qgm_term_search.specs.Postfix.{tokens, tokens_cond};
ghost use Rattle.qgm_terms.specs.Shown.{cond, term};

use crate::tokens::{Token, add_tokens, add_tokens_of_cond};
use qgm_terms::{Gc, Gx};
use shared_types::OutOfMemory;
use std::alloc::Global;

fn same_token(a: Token, b: Token) -> bool
    ensures { IsTrue result ↔ (a ≡ b) }
{
    a == b
}

// Whether the same tokens stand in two lists.
fn same_tokens(left: &[Token], right: &[Token]) -> bool
    ensures { IsTrue result ↔ (left.now ≡ right.now) }
{
    if left.len() != right.len() {
        return false;
    }
    for i in 0..left.len() {
        if !same_token(left[i], right[i]) {
            return false;
        }
    }
    true
}

fn tokens_of(alloc: Global, x: &Gx) -> Result<Vec<Token>, OutOfMemory>
    ensures { IfOk result (λ list. list.items ≡ tokens (term x.now)) }
{
    let mut list = Vec::new(alloc);
    add_tokens(x, &mut list)?;
    Ok(list)
}

fn tokens_of_cond(alloc: Global, c: &Gc) -> Result<Vec<Token>, OutOfMemory>
    ensures { IfOk result (λ list. list.items ≡ tokens_cond (cond c.now)) }
{
    let mut list = Vec::new(alloc);
    add_tokens_of_cond(c, &mut list)?;
    Ok(list)
}

/// Whether two expressions are printed alike.
#[tactic(auto, using(crate::proofs::PostfixRead::term_once))]
pub fn same_term(alloc: Global, a: &Gx, b: &Gx) -> Result<bool, OutOfMemory>
    ensures { IfOk result (λ same. IsTrue same ↔ (term a.now ≡ term b.now)) }
{
    let left = tokens_of(alloc, a)?;
    let right = tokens_of(alloc, b)?;
    Ok(same_tokens(&left, &right))
}

/// Whether two conditions are printed alike.
#[tactic(auto, using(crate::proofs::PostfixRead::cond_once))]
pub fn same_cond(alloc: Global, a: &Gc, b: &Gc) -> Result<bool, OutOfMemory>
    ensures { IfOk result (λ same. IsTrue same ↔ (cond a.now ≡ cond b.now)) }
{
    let left = tokens_of_cond(alloc, a)?;
    let right = tokens_of_cond(alloc, b)?;
    Ok(same_tokens(&left, &right))
}
