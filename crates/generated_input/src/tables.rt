// The tables that are made from a number.
ghost use Rattle.std.specs.Prelude.{◌≡◌, ◌<◌, ◌≤◌, ◌*◌, ◌+◌, ◌^◌, codes, IfOk};
ghost use Rattle.generated_input.specs.Made as spec;

use crate::cells::{dept_of, drawn, emp_of, next};
use row_bag::{Bag, Table, Tables};
use shared_types::{OutOfMemory, Text};
use std::alloc::Global;

// A bag, and the number that the last draw was made of.
#[derive(Drop)]
struct Drawn {
    bag: Bag,
    last: u64,
}

// So many rows of DEPT.
fn depts(alloc: Global, seed: u64, count: u64) -> Result<Drawn, OutOfMemory>
    requires seed { seed < 2147483648 }
    requires few { count < 2 ^ 60 }
    ensures bag { IfOk result (λ d. d.bag ≡ spec.rows_at (spec.dept seed) count) }
    ensures last { IfOk result (λ d. d.last ≡ spec.number seed (2 * count)) }
    ensures bound { IfOk result (λ d. d.last < 2147483648) }
{
    let mut bag = Bag::new(alloc);
    let mut last = seed;
    for i in 0..count {
        let first = next(last);
        last = next(first);
        let row = dept_of(alloc, i, drawn(first), drawn(last))?;
        bag.push(row)?;
    }
    Ok(Drawn { bag, last })
}

// So many rows of EMP, over so many of DEPT, behind whose draws this number is.
fn emps(alloc: Global, seed: u64, depts: u64, start: u64, count: u64) -> Result<Bag, OutOfMemory>
    requires start { start ≡ spec.number seed (2 * depts) }
    requires bound { start < 2147483648 }
    requires some { 0 < depts }
    requires few { depts < 2 ^ 60 }
    requires rows { count < 2 ^ 60 }
    ensures { IfOk result (λ b. b ≡ spec.rows_at (spec.emp seed depts) count) }
{
    let mut bag = Bag::new(alloc);
    let mut last = start;
    for i in 0..count {
        let first = next(last);
        let second = next(first);
        last = next(second);
        let row = emp_of(alloc, depts, i, drawn(first), drawn(second), drawn(last))?;
        bag.push(row)?;
    }
    Ok(bag)
}

/// The tables DEPT and EMP that are made from a number below 2^31: so many rows of EMP, and a tenth
/// as many and one of DEPT. It fails for want of memory alone.
pub fn made(alloc: Global, seed: u64, rows: u64) -> Result<Tables, OutOfMemory>
    requires seed { seed < 2147483648 }
    requires rows { rows < 2 ^ 60 }
    ensures { IfOk result (λ t. t ≡ spec.made seed rows) }
{
    let count = rows / 10 + 1;
    let first = depts(alloc, seed, count)?;
    let second = emps(alloc, seed, count, first.last, rows)?;
    let mut tables = Tables::new(alloc);
    tables.push(Table {
        name: Text::from_chars(alloc, &['D', 'E', 'P', 'T'])?,
        bag: first.bag,
    })?;
    tables.push(Table {
        name: Text::from_chars(alloc, &['E', 'M', 'P'])?,
        bag: second,
    })?;
    Ok(tables)
}
