// The columns that expressions and conditions name, in the order of the text and as often as they are
// named.
ghost use Rattle.std.specs.Prelude.{◌≡◌, ◌++◌, OnOk};
ghost use Rattle.std.specs.List.{flat_map};
ghost use Rattle.qgm_terms.specs.Gathered.{listed_choices, listed_links};
ghost use Rattle.qgm_terms.specs.Named.{columns, columns_in, columns_in_cond};
ghost use Rattle.qgm_terms.specs.Shown.{choices, cond, conds, links, term, terms};

use qgm_terms::{Arm, Column, Gc, Gx, Link};
use shared_types::OutOfMemory;

/// Appends the columns that an expression names.
#[cycle(columns)]
#[tactic(auto, using(qgm_terms::proofs::Lists::lists))]
pub fn add_columns(x: &Gx, out: &mut Vec<Column>) -> Result<(), OutOfMemory>
    ensures { OnOk result (out.new.items ≡ out.old.items ++ columns_in (term x.now)) }
{
    match x {
        Gx::Int(_) | Gx::Text(_) | Gx::NullInt | Gx::NullText | Gx::Scalar(_) | Gx::CountAll => Ok(
            (),
        ),
        Gx::Col(q, k) => Ok(out.push(Column {
            quant: *q,
            place: *k,
        })?),
        Gx::Chain(a, list) => {
            add_columns(a, out)?;
            add_columns_of_links(list, out)
        }
        Gx::Case(list, a) => {
            add_columns_of_arms(list, out)?;
            add_columns(a, out)
        }
        Gx::Neg(a) | Gx::Fold(_, _, a) => add_columns(a, out),
    }
}

// Appends those that the operands behind a first one name.
#[cycle(columns)]
fn add_columns_of_links(list: &[Link], out: &mut Vec<Column>) -> Result<(), OutOfMemory>
    ensures { OnOk result (out.new.items ≡ out.old.items ++ listed_links columns (links list.now)) }
{
    for link in list {
        add_columns(&link.right, out)?;
    }
    Ok(())
}

// Appends those that the arms of a CASE name.
#[cycle(columns)]
fn add_columns_of_arms(list: &[Arm], out: &mut Vec<Column>) -> Result<(), OutOfMemory>
    ensures { OnOk result (out.new.items ≡ out.old.items ++ listed_choices columns (choices list.now)) }
{
    for arm in list {
        add_columns_of_cond(&arm.when, out)?;
        add_columns(&arm.then, out)?;
    }
    Ok(())
}

/// Appends the columns that a condition names.
#[cycle(columns)]
#[tactic(auto, using(qgm_terms::proofs::Lists::lists))]
pub fn add_columns_of_cond(c: &Gc, out: &mut Vec<Column>) -> Result<(), OutOfMemory>
    ensures { OnOk result (out.new.items ≡ out.old.items ++ columns_in_cond (cond c.now)) }
{
    match c {
        Gc::True => Ok(()),
        Gc::Compare(_, a, b) => {
            add_columns(a, out)?;
            add_columns(b, out)
        }
        Gc::IsNull(a) => add_columns(a, out),
        Gc::All(a, list) => {
            add_columns_of_cond(a, out)?;
            add_columns_of_conds(list, out)
        }
        Gc::Any(a, list) => {
            add_columns_of_cond(a, out)?;
            add_columns_of_conds(list, out)
        }
        Gc::Not(a) => add_columns_of_cond(a, out),
        Gc::Some(_, a) | Gc::Every(_, a) => add_columns_of_cond(a, out),
    }
}

/// Appends the columns that conditions name.
#[cycle(columns)]
pub fn add_columns_of_conds(list: &[Gc], out: &mut Vec<Column>) -> Result<(), OutOfMemory>
    ensures { OnOk result (out.new.items ≡ out.old.items ++ flat_map columns_in_cond (conds list.now)) }
{
    for p in list {
        add_columns_of_cond(p, out)?;
    }
    Ok(())
}

/// Appends the columns that the cells of a head name.
pub fn add_columns_of_cells(list: &[Gx], out: &mut Vec<Column>) -> Result<(), OutOfMemory>
    ensures { OnOk result (out.new.items ≡ out.old.items ++ flat_map columns_in (terms list.now)) }
{
    for x in list {
        add_columns(x, out)?;
    }
    Ok(())
}
