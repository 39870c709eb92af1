// The pairs of columns that conditions equate, found by their hashes.
ghost use Rattle.std.proofs.Common.{rules};
ghost use Rattle.std.specs.Cmp.Rules.{hashing};
ghost use Rattle.std.specs.Hash as fed;
ghost use Rattle.std.specs.Prelude.{◌≡◌, ◌&&◌, ◌||◌, IfOk, OnOk, false};
ghost use Rattle.qgm_terms.specs.Shown.{conds};
ghost use Rattle.qgm_terms.specs.declared.named.Column.{Column};
ghost use Rattle.rule_trans.specs.ColumnPairs.{has};
ghost use Rattle.rule_trans.specs.ColumnPairs as spec;
ghost use Rattle.rule_trans.specs.Equalities.{is_of, is_same, is_there};

use crate::equalities::{Equality, equated};
use qgm_core::{Column, Gc};
use shared_types::OutOfMemory;
use std::alloc::Global;
use std::collections::HashSet;
use std::hash::{Hash, Hasher};

/// Two columns, by their quantifiers and places.
#[derive(Clone, Copy, PartialEq, Eq)]
pub struct ColumnPair {
    pub quant: usize,
    pub place: usize,
    pub other_quant: usize,
    pub other_place: usize,
}

// One number of two.
fn mix(x: usize, y: usize) -> usize
    ensures { result ≡ spec.mix x y }
{
    x.wrapping_mul(0x9e37_79b9_7f4a_7c15) ^ y
}

// One number of a pair.
fn mixed(p: &ColumnPair) -> usize
    ensures { result ≡ spec.mixed p.now }
{
    mix(mix(mix(p.quant, p.place), p.other_quant), p.other_place)
}

// A hasher takes one number in less time than four.
impl Hash for ColumnPair {
    ghost hash_input = { λ p. fed.usize (spec.mixed p) };

    ghost respects_eq = { Prim.search (hashing, rules) };

    fn hash<H: Hasher>(&self, state: &mut H) {
        state.write_usize(mixed(self));
    }
}

/// Pairs of columns.
pub type ColumnPairs = HashSet<ColumnPair>;

// The pair of two columns.
fn pair_of(a: Column, c: Column) -> ColumnPair
    ensures { result ≡ record { quant = a.quant; place = a.place; other_quant = c.quant; other_place = c.place } }
{
    ColumnPair {
        quant: a.quant,
        place: a.place,
        other_quant: c.quant,
        other_place: c.place,
    }
}

/// Whether two columns are a pair of these.
pub fn has_pair(pairs: &ColumnPairs, a: Column, c: Column) -> bool
    ensures { result ≡ has pairs.now a c }
{
    pairs.contains(&pair_of(a, c))
}

// Adds two columns.
fn add_pair(pairs: &mut ColumnPairs, x: Column, y: Column) -> Result<(), OutOfMemory>
    ensures { OnOk result ((a c : Column) → has pairs.new a c ≡ ((is_same a x && is_same c y) || has pairs.old a c)) }
{
    let _added = pairs.insert(pair_of(x, y))?;
    Ok(())
}

// Adds the columns of an equality, in both orders.
fn add_equality(pairs: &mut ColumnPairs, e: Equality) -> Result<(), OutOfMemory>
    ensures { OnOk result ((a c : Column) → has pairs.new a c ≡ (is_of a c e || has pairs.old a c)) }
{
    add_pair(pairs, e.left, e.right)?;
    add_pair(pairs, e.right, e.left)?;
    Ok(())
}

// None.
fn no_pairs(alloc: Global) -> ColumnPairs
    ensures { (a c : Column) → has result a c ≡ false }
{
    HashSet::new(alloc)
}

/// The pairs that conditions equate, in both orders. It fails only for want of memory.
pub fn pairs_of(alloc: Global, list: &[Gc]) -> Result<ColumnPairs, OutOfMemory>
    ensures { IfOk result (λ pairs. (a c : Column) → has pairs a c ≡ is_there a c (conds list.now)) }
{
    let mut pairs = no_pairs(alloc);
    for c in list {
        if let Some(e) = equated(c) {
            add_equality(&mut pairs, e)?;
        }
    }
    Ok(pairs)
}
