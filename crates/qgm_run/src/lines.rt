// The lines that tell of a rewriting, added to a text.
ghost use Rattle.std.specs.Prelude.{◌≡◌, ◌++◌, OnOk};
ghost use Rattle.graph_print.specs.Places.{place_in};
ghost use Rattle.qgm_run.specs.Explained as spec;

use graph_print::{print, put_number, put_word};
use qgm_core::{BoxId, Graph};
use rule_api::Firing;
use shared_types::{OutOfMemory, Text};
use std::alloc::Global;

// The place of a box among these, from 1; one more than there are, if it isn't among them.
fn number_in(order: &[BoxId], b: BoxId) -> usize
    ensures { result ≡ place_in order.now b }
{
    let mut number = 1;
    for x in order {
        if *x == b {
            return number;
        }
        number += 1;
    }
    number
}

// Adds a word, a number and the end of a line.
#[tactic(auto, unfolding(crate::specs::Explained::count_line))]
fn put_count(word: &[u8], n: u64, out: &mut Text) -> Result<(), OutOfMemory>
    ensures { OnOk result (out.new ≡ out.old ++ spec.count_line word.now n) }
{
    put_word(word, out)?;
    put_number(n as usize, out)?;
    put_word(b"\n", out)
}

// Adds the characters of a text.
fn put_text(text: &Text, out: &mut Text) -> Result<(), OutOfMemory>
    ensures { OnOk result (out.new ≡ out.old ++ text.now) }
{
    for c in text.as_slice() {
        out.push(*c)?;
    }
    Ok(())
}

/// Adds a graph after so many firings.
#[tactic(auto, unfolding(crate::specs::Explained::graph_lines))]
pub fn put_graph(alloc: Global, k: u64, graph: &Graph, out: &mut Text) -> Result<(), OutOfMemory>
    ensures { OnOk result (out.new ≡ out.old ++ spec.graph_lines k graph.now) }
{
    let text = print(alloc, graph)?;
    put_count(b"GRAPH ", k, out)?;
    put_text(&text, out)
}

fn put_spaced(n: usize, out: &mut Text) -> Result<(), OutOfMemory>
    ensures { OnOk result (out.new ≡ out.old ++ spec.spaced n) }
{
    put_word(b" ", out)?;
    put_number(n, out)
}

/// Adds the line of a firing, the k-th, in a graph whose boxes stand in this order.
#[tactic(auto, unfolding(crate::specs::Explained::fire_line_in))]
pub fn put_fire(k: u64, order: &[BoxId], firing: Firing, out: &mut Text) -> Result<(), OutOfMemory>
    ensures { OnOk result (out.new ≡ out.old ++ spec.fire_line_in k order.now firing) }
{
    put_word(b"FIRE ", out)?;
    put_number(k as usize, out)?;
    put_word(b" ", out)?;
    put_word(firing.rule.entry().word, out)?;
    put_spaced(number_in(order, firing.place.at), out)?;
    put_spaced(firing.place.i, out)?;
    put_spaced(firing.place.j, out)?;
    put_word(b"\n", out)
}

/// Adds how many firings there were, and how many evaluations of boxes.
pub fn put_counts(firings: u64, evals: u64, out: &mut Text) -> Result<(), OutOfMemory>
    ensures { OnOk result (out.new ≡ out.old ++ spec.count_lines firings evals) }
{
    put_count(b"FIRINGS ", firings, out)?;
    put_count(b"EVALS ", evals, out)
}
