// The places in expressions and conditions where the rows of a quantifier are asked for, in the order of
// the text.
ghost use Rattle.std.specs.Prelude.{◌≡◌, ◌++◌, OnOk};
ghost use Rattle.std.specs.List.{flat_map};
ghost use Rattle.qgm_terms.specs.Gathered.{listed_choices, listed_links};
ghost use Rattle.qgm_terms.specs.Named.{nodes, nodes_in, nodes_in_cond};
ghost use Rattle.qgm_terms.specs.Shown.{choices, cond, conds, links, term, terms};

use qgm_terms::{Arm, Gc, Gx, Link, QuantNode};
use shared_types::OutOfMemory;

/// Appends each scalar, some and every of an expression, with its quantifier.
#[cycle(nodes)]
#[tactic(auto, using(qgm_terms::proofs::Lists::lists))]
pub fn add_nodes(x: &Gx, out: &mut Vec<QuantNode>) -> Result<(), OutOfMemory>
    ensures { OnOk result (out.new.items ≡ out.old.items ++ nodes_in (term x.now)) }
{
    match x {
        Gx::Int(_) | Gx::Text(_) | Gx::NullInt | Gx::NullText | Gx::Col(_, _) | Gx::CountAll => Ok(
            (),
        ),
        Gx::Scalar(q) => Ok(out.push(QuantNode::Scalar(*q))?),
        Gx::Chain(a, list) => {
            add_nodes(a, out)?;
            add_nodes_of_links(list, out)
        }
        Gx::Case(list, a) => {
            add_nodes_of_arms(list, out)?;
            add_nodes(a, out)
        }
        Gx::Neg(a) | Gx::Fold(_, _, a) => add_nodes(a, out),
    }
}

// Appends those in the operands behind a first one.
#[cycle(nodes)]
fn add_nodes_of_links(list: &[Link], out: &mut Vec<QuantNode>) -> Result<(), OutOfMemory>
    ensures { OnOk result (out.new.items ≡ out.old.items ++ listed_links nodes (links list.now)) }
{
    for link in list {
        add_nodes(&link.right, out)?;
    }
    Ok(())
}

// Appends those in the arms of a CASE.
#[cycle(nodes)]
fn add_nodes_of_arms(list: &[Arm], out: &mut Vec<QuantNode>) -> Result<(), OutOfMemory>
    ensures { OnOk result (out.new.items ≡ out.old.items ++ listed_choices nodes (choices list.now)) }
{
    for arm in list {
        add_nodes_of_cond(&arm.when, out)?;
        add_nodes(&arm.then, out)?;
    }
    Ok(())
}

/// Appends each scalar, some and every of a condition, with its quantifier.
#[cycle(nodes)]
#[tactic(auto, using(qgm_terms::proofs::Lists::lists))]
pub fn add_nodes_of_cond(c: &Gc, out: &mut Vec<QuantNode>) -> Result<(), OutOfMemory>
    ensures { OnOk result (out.new.items ≡ out.old.items ++ nodes_in_cond (cond c.now)) }
{
    match c {
        Gc::True => Ok(()),
        Gc::Compare(_, a, b) => {
            add_nodes(a, out)?;
            add_nodes(b, out)
        }
        Gc::IsNull(a) => add_nodes(a, out),
        Gc::All(a, list) => {
            add_nodes_of_cond(a, out)?;
            add_nodes_of_conds(list, out)
        }
        Gc::Any(a, list) => {
            add_nodes_of_cond(a, out)?;
            add_nodes_of_conds(list, out)
        }
        Gc::Not(a) => add_nodes_of_cond(a, out),
        Gc::Some(q, a) => {
            out.push(QuantNode::Some(*q))?;
            add_nodes_of_cond(a, out)
        }
        Gc::Every(q, a) => {
            out.push(QuantNode::Every(*q))?;
            add_nodes_of_cond(a, out)
        }
    }
}

/// Appends each scalar, some and every of conditions, with its quantifier.
#[cycle(nodes)]
pub fn add_nodes_of_conds(list: &[Gc], out: &mut Vec<QuantNode>) -> Result<(), OutOfMemory>
    ensures { OnOk result (out.new.items ≡ out.old.items ++ flat_map nodes_in_cond (conds list.now)) }
{
    for p in list {
        add_nodes_of_cond(p, out)?;
    }
    Ok(())
}

/// Appends each scalar, some and every of the cells of a head, with its quantifier.
pub fn add_nodes_of_cells(list: &[Gx], out: &mut Vec<QuantNode>) -> Result<(), OutOfMemory>
    ensures { OnOk result (out.new.items ≡ out.old.items ++ flat_map nodes_in (terms list.now)) }
{
    for x in list {
        add_nodes(x, out)?;
    }
    Ok(())
}
