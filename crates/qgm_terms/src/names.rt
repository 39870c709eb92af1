// The quantifiers that expressions and conditions name, in the order of the text and as often as they
// are named.
ghost use Rattle.std.specs.Prelude.{◌≡◌, ◌++◌, OnOk};
ghost use Rattle.std.specs.List.{flat_map};
ghost use Rattle.qgm_terms.specs.Gathered.{listed_choices, listed_links};
ghost use Rattle.qgm_terms.specs.Named.{names, names_in, names_in_cond};
ghost use Rattle.qgm_terms.specs.Shown.{choices, cond, conds, links, term, terms};

use crate::named::QuantId;
use crate::tree::{Arm, Gc, Gx, Link};
use shared_types::OutOfMemory;

/// Appends the quantifiers that an expression names.
#[cycle(names)]
#[tactic(auto, using(crate::proofs::Lists::lists))]
pub fn add_names(x: &Gx, out: &mut Vec<QuantId>) -> Result<(), OutOfMemory>
    ensures { OnOk result (out.new.items ≡ out.old.items ++ names_in (term x.now)) }
{
    match x {
        Gx::Int(_) | Gx::Text(_) | Gx::NullInt | Gx::NullText | Gx::CountAll => Ok(()),
        Gx::Col(q, _) | Gx::Scalar(q) => Ok(out.push(*q)?),
        Gx::Chain(a, list) => {
            add_names(a, out)?;
            add_names_of_links(list, out)
        }
        Gx::Case(list, a) => {
            add_names_of_arms(list, out)?;
            add_names(a, out)
        }
        Gx::Neg(a) | Gx::Fold(_, _, a) => add_names(a, out),
    }
}

// Appends those that the operands behind a first one name.
#[cycle(names)]
fn add_names_of_links(list: &[Link], out: &mut Vec<QuantId>) -> Result<(), OutOfMemory>
    ensures { OnOk result (out.new.items ≡ out.old.items ++ listed_links names (links list.now)) }
{
    for link in list {
        add_names(&link.right, out)?;
    }
    Ok(())
}

// Appends those that the arms of a CASE name.
#[cycle(names)]
fn add_names_of_arms(list: &[Arm], out: &mut Vec<QuantId>) -> Result<(), OutOfMemory>
    ensures { OnOk result (out.new.items ≡ out.old.items ++ listed_choices names (choices list.now)) }
{
    for arm in list {
        add_names_of_cond(&arm.when, out)?;
        add_names(&arm.then, out)?;
    }
    Ok(())
}

/// Appends the quantifiers that a condition names.
#[cycle(names)]
#[tactic(auto, using(crate::proofs::Lists::lists))]
pub fn add_names_of_cond(c: &Gc, out: &mut Vec<QuantId>) -> Result<(), OutOfMemory>
    ensures { OnOk result (out.new.items ≡ out.old.items ++ names_in_cond (cond c.now)) }
{
    match c {
        Gc::True => Ok(()),
        Gc::Compare(_, a, b) => {
            add_names(a, out)?;
            add_names(b, out)
        }
        Gc::IsNull(a) => add_names(a, out),
        Gc::All(a, list) => {
            add_names_of_cond(a, out)?;
            add_names_of_conds(list, out)
        }
        Gc::Any(a, list) => {
            add_names_of_cond(a, out)?;
            add_names_of_conds(list, out)
        }
        Gc::Not(a) => add_names_of_cond(a, out),
        Gc::Some(q, a) | Gc::Every(q, a) => {
            out.push(*q)?;
            add_names_of_cond(a, out)
        }
    }
}

/// Appends the quantifiers that conditions name.
#[cycle(names)]
pub fn add_names_of_conds(list: &[Gc], out: &mut Vec<QuantId>) -> Result<(), OutOfMemory>
    ensures { OnOk result (out.new.items ≡ out.old.items ++ flat_map names_in_cond (conds list.now)) }
{
    for p in list {
        add_names_of_cond(p, out)?;
    }
    Ok(())
}

/// Appends the quantifiers that the cells of a head name.
pub fn add_names_of_cells(list: &[Gx], out: &mut Vec<QuantId>) -> Result<(), OutOfMemory>
    ensures { OnOk result (out.new.items ≡ out.old.items ++ flat_map names_in (terms list.now)) }
{
    for x in list {
        add_names(x, out)?;
    }
    Ok(())
}
