// The execution of a graph.
ghost use Rattle.std.specs.Prelude.{◌≡◌, ◌<◌, ◌≤◌, ◌+◌, ◌-◌, IfOk, min, true, IfSome};
ghost use Rattle.box_exec.specs.Closed.{AllClosed, NamesBound, closed_number, reached_number};
ghost use Rattle.box_exec.specs.Kept.{Took};
ghost use Rattle.box_exec.specs.Ready.{AllFit};
ghost use Rattle.box_exec.specs.Taken.{ways_number};
ghost use Rattle.qgm_meaning.specs.Meaning.{root_bag, rows_or_none};
ghost use Rattle.qgm_meaning.specs.Plain.{plain};
ghost use Rattle.row_bag.specs.Bags.{Agree};
ghost use Rattle.row_bag.specs.Tables.{bag_named};
ghost use Rattle.box_exec.specs.Sources.{held};
ghost use Rattle.row_bag.specs.Sets.{same_cells};

use crate::handed_on::{root_rows, table_handed_on};
use crate::memo::memo_of;
use crate::tally::Tally;
use crate::under::{BoxOver, behind, place_of};
use qgm_core::{Graph, reached};
use row_bag::{Bag, Operand, Tables};
use shared_types::{OutOfMemory, Text};
use std::alloc::Global;
use std::marker::Brand;
use std::sync::ledger::{Blank, Ledger};
use step_count::Steps;

// The rows of a graph over tables, looked up in indexes or not, how many evaluations they took, and how
// many rows were taken.
fn executed<'t, L: Ledger>(
    alloc: Global,
    graph: &Graph,
    tables: &'t Tables,
    indexed: bool,
    steps: &mut Steps<L>,
) -> Result<(Operand<'t>, Tally), OutOfMemory>
    requires fit { AllFit graph.now.boxes }
    ensures rows { IfOk result (λ r. Agree same_cells (held r.0) (root_bag tables.now graph.now)) }
    ensures counted { IfOk result (λ r. r.1.count ≡ min (steps.new - steps.old) 18446744073709551615) }
    ensures never_less { steps.old ≤ steps.new }
    ensures took { IfOk result (λ r. Took tables.now graph.now steps.old steps.new) }
    ensures exact { IfOk result (λ r. NamesBound graph.now → AllClosed graph.now → steps.new ≡ steps.old + reached_number graph.now) }
    ensures at_least_closed { IfOk result (λ r. NamesBound graph.now → steps.old + closed_number graph.now ≤ steps.new) }
    ensures at_most_plain { IfOk result (λ r. NamesBound graph.now → steps.new ≤ steps.old + plain tables.now graph.now) }
    ensures at_most_ways { indexed ≡ true → IfOk result (λ r. NamesBound graph.now → r.1.taken ≤ ways_number tables.now graph.now) }
{
    let nodes = graph.nodes();
    let root = graph.root();
    let mut tally = Tally { count: 0, taken: 0 };
    let Some(i) = place_of(nodes, root) else {
        return Ok((Operand::Made(Bag::new(alloc)), tally));
    };
    let below = behind(nodes, i);
    let marks = reached(alloc, nodes, root)?;
    let (memo, plans) = memo_of(alloc, below, tables, &marks, indexed, steps, &mut tally)?;
    let place = BoxOver {
        node: &nodes[i],
        below,
        plans: &plans,
        indexed,
    };
    let rows = root_rows(alloc, tables, memo, &place, steps, &mut tally)?;
    Ok((rows, tally))
}

// So many steps more.
fn tick_all<M: Ledger>(many: u64, taken: &mut Steps<M>)
    ensures { taken.new ≡ taken.old + many }
{
    for i in 0..many {
        taken.tick();
    }
}

/// As `execute`. One step of `taken` is one row taken for an F quantifier of a select, by a look-up or,
/// without an index, by the loop. The third part of the answer is how many steps were added to `taken`, or
/// the greatest 64-bit number where these are more.
pub fn execute_taken<L: Ledger, M: Ledger>(
    alloc: Global,
    graph: &Graph,
    tables: &Tables,
    steps: &mut Steps<L>,
    taken: &mut Steps<M>,
) -> Result<(Bag, u64, u64), OutOfMemory>
    requires fit { AllFit graph.now.boxes }
    ensures rows { IfOk result (λ r. Agree same_cells r.0 (root_bag tables.now graph.now)) }
    ensures counted { IfOk result (λ r. r.1 ≡ min (steps.new - steps.old) 18446744073709551615) }
    ensures never_less { steps.old ≤ steps.new }
    ensures took { IfOk result (λ r. Took tables.now graph.now steps.old steps.new) }
    ensures exact { IfOk result (λ r. NamesBound graph.now → AllClosed graph.now → steps.new ≡ steps.old + reached_number graph.now) }
    ensures at_least_closed { IfOk result (λ r. NamesBound graph.now → steps.old + closed_number graph.now ≤ steps.new) }
    ensures at_most_plain { IfOk result (λ r. NamesBound graph.now → steps.new ≤ steps.old + plain tables.now graph.now) }
    ensures taken { IfOk result (λ r. r.2 ≡ min (taken.new - taken.old) 18446744073709551615) }
    ensures taken_never_less { taken.old ≤ taken.new }
    ensures at_most_ways { IfOk result (λ r. NamesBound graph.now → taken.new ≤ taken.old + ways_number tables.now graph.now) }
{
    let (rows, tally) = executed(alloc, graph, tables, true, steps)?;
    tick_all(tally.taken, taken);
    Ok((rows.into_bag(alloc)?, tally.count, tally.taken))
}

// As `execute_taken`, by a new count of rows, which is not told.
fn uncounted<L: Ledger, M: Ledger>(
    alloc: Global,
    graph: &Graph,
    tables: &Tables,
    steps: &mut Steps<L>,
    blank: Blank,
) -> Result<(Bag, u64), OutOfMemory>
    requires fit { AllFit graph.now.boxes }
    requires name { blank.name ≡ M.name }
    requires parts { blank.parts ≡ M.parts }
    requires some { 0 < blank.parts }
    ensures rows { IfOk result (λ r. Agree same_cells r.0 (root_bag tables.now graph.now)) }
    ensures counted { IfOk result (λ r. r.1 ≡ min (steps.new - steps.old) 18446744073709551615) }
    ensures never_less { steps.old ≤ steps.new }
    ensures took { IfOk result (λ r. Took tables.now graph.now steps.old steps.new) }
    ensures exact { IfOk result (λ r. NamesBound graph.now → AllClosed graph.now → steps.new ≡ steps.old + reached_number graph.now) }
    ensures at_least_closed { IfOk result (λ r. NamesBound graph.now → steps.old + closed_number graph.now ≤ steps.new) }
    ensures at_most_plain { IfOk result (λ r. NamesBound graph.now → steps.new ≤ steps.old + plain tables.now graph.now) }
{
    let mut taken = Steps::<M>::new(blank);
    let (rows, count, _taken) = execute_taken(alloc, graph, tables, steps, &mut taken)?;
    Ok((rows, count))
}

/// The rows of a graph over tables, and how many evaluations of boxes they took, which are added to
/// `steps`; where these are more than the greatest 64-bit number, that number. A box below the root
/// that looks no quantifier up is evaluated once; any other anew wherever it is asked. It fails only
/// for want of memory.
pub fn execute<L: Ledger>(
    alloc: Global,
    graph: &Graph,
    tables: &Tables,
    steps: &mut Steps<L>,
) -> Result<(Bag, u64), OutOfMemory>
    requires fit { AllFit graph.now.boxes }
    ensures rows { IfOk result (λ r. Agree same_cells r.0 (root_bag tables.now graph.now)) }
    ensures counted { IfOk result (λ r. r.1 ≡ min (steps.new - steps.old) 18446744073709551615) }
    ensures never_less { steps.old ≤ steps.new }
    ensures took { IfOk result (λ r. Took tables.now graph.now steps.old steps.new) }
    ensures exact { IfOk result (λ r. NamesBound graph.now → AllClosed graph.now → steps.new ≡ steps.old + reached_number graph.now) }
    ensures at_least_closed { IfOk result (λ r. NamesBound graph.now → steps.old + closed_number graph.now ≤ steps.new) }
    ensures at_most_plain { IfOk result (λ r. NamesBound graph.now → steps.new ≤ steps.old + plain tables.now graph.now) }
{
    uncounted::<L, Brand>(alloc, graph, tables, steps, Blank::new(1))
}

/// As `execute`, with rows that are gone through and not looked up in indexes: by this the rows and counts
/// of `execute` can be compared.
pub fn execute_plain<L: Ledger>(
    alloc: Global,
    graph: &Graph,
    tables: &Tables,
    steps: &mut Steps<L>,
) -> Result<(Bag, u64), OutOfMemory>
    requires fit { AllFit graph.now.boxes }
    ensures rows { IfOk result (λ r. Agree same_cells r.0 (root_bag tables.now graph.now)) }
    ensures counted { IfOk result (λ r. r.1 ≡ min (steps.new - steps.old) 18446744073709551615) }
    ensures never_less { steps.old ≤ steps.new }
    ensures took { IfOk result (λ r. Took tables.now graph.now steps.old steps.new) }
    ensures exact { IfOk result (λ r. NamesBound graph.now → AllClosed graph.now → steps.new ≡ steps.old + reached_number graph.now) }
    ensures at_least_closed { IfOk result (λ r. NamesBound graph.now → steps.old + closed_number graph.now ≤ steps.new) }
    ensures at_most_plain { IfOk result (λ r. NamesBound graph.now → steps.new ≤ steps.old + plain tables.now graph.now) }
{
    let (rows, tally) = executed(alloc, graph, tables, false, steps)?;
    Ok((rows.into_bag(alloc)?, tally.count))
}

// How many evaluations the rows of a graph take, whose rows stay where they are.
fn evaluations<L: Ledger>(
    alloc: Global,
    graph: &Graph,
    tables: &Tables,
    steps: &mut Steps<L>,
) -> Result<u64, OutOfMemory>
    requires fit { AllFit graph.now.boxes }
    ensures counted { IfOk result (λ n. n ≡ min (steps.new - steps.old) 18446744073709551615) }
    ensures never_less { steps.old ≤ steps.new }
    ensures took { IfOk result (λ n. Took tables.now graph.now steps.old steps.new) }
    ensures exact { IfOk result (λ n. NamesBound graph.now → AllClosed graph.now → steps.new ≡ steps.old + reached_number graph.now) }
    ensures at_least_closed { IfOk result (λ n. NamesBound graph.now → steps.old + closed_number graph.now ≤ steps.new) }
    ensures at_most_plain { IfOk result (λ n. NamesBound graph.now → steps.new ≤ steps.old + plain tables.now graph.now) }
{
    let (_rows, tally) = executed(alloc, graph, tables, true, steps)?;
    Ok(tally.count)
}

// The rows of the first table of a name; none where no table has it.
fn rows_named(alloc: Global, tables: Tables, name: &Text) -> Bag
    ensures { result ≡ rows_or_none (bag_named tables name.now) }
{
    let mut tables = tables;
    match tables.take(alloc, name) {
        Some(bag) => bag,
        None => Bag::new(alloc),
    }
}

// The name of a table whose rows the root hands on.
fn table_of_root<'g>(graph: &'g Graph, tables: &Tables) -> Option<&'g Text>
    ensures { IfSome result (λ name. Agree same_cells (rows_or_none (bag_named tables.now name.now)) (root_bag tables.now graph.now)) }
{
    let nodes = graph.nodes();
    let Some(i) = place_of(nodes, graph.root()) else {
        return None;
    };
    table_handed_on(tables, &nodes[i], behind(nodes, i))
}

/// As `execute`, over tables that are given up. Where the root hands on the rows of a table, these are the
/// answer, and no row is copied.
pub fn execute_owned<L: Ledger>(
    alloc: Global,
    graph: &Graph,
    tables: Tables,
    steps: &mut Steps<L>,
) -> Result<(Bag, u64), OutOfMemory>
    requires fit { AllFit graph.now.boxes }
    ensures rows { IfOk result (λ r. Agree same_cells r.0 (root_bag tables graph.now)) }
    ensures counted { IfOk result (λ r. r.1 ≡ min (steps.new - steps.old) 18446744073709551615) }
    ensures never_less { steps.old ≤ steps.new }
    ensures took { IfOk result (λ r. Took tables graph.now steps.old steps.new) }
    ensures exact { IfOk result (λ r. NamesBound graph.now → AllClosed graph.now → steps.new ≡ steps.old + reached_number graph.now) }
    ensures at_least_closed { IfOk result (λ r. NamesBound graph.now → steps.old + closed_number graph.now ≤ steps.new) }
    ensures at_most_plain { IfOk result (λ r. NamesBound graph.now → steps.new ≤ steps.old + plain tables graph.now) }
{
    let Some(name) = table_of_root(graph, &tables) else {
        return execute(alloc, graph, &tables, steps);
    };
    let count = evaluations(alloc, graph, &tables, steps)?;
    Ok((rows_named(alloc, tables, name), count))
}
