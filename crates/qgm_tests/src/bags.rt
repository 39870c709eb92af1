// Bags of rows: their order, and the sets made of them.
use Level::{No, Yes};
use Sample::{E, I, N, S};
use row_bag::{
    Bag, Operand, OrderedBag, Row, Table, Tables, Verdict, distinct, except, intersect, row_order,
    sorted, union, verdict,
};
use shared_types::{OutOfMemory, Text};
use sql_value::{Cell, CharacterString, Kind, Level, OrderKey};
use sqlite_items::Items;
use std::alloc::Global;
use std::test::Fail;

// A cell that a table writes: a number, a text, null or an error.
#[derive(Clone, Copy)]
enum Sample {
    I(i64),
    S(&'static str),
    N,
    E(Kind),
}

type Rows = &'static [(&'static [Sample], Level)];

// A column's place, and whether it descends.
type Keys = &'static [(usize, bool)];

fn cell(alloc: Global, sample: Sample) -> Result<Cell, OutOfMemory> {
    Ok(match sample {
        I(number) => Cell::Int(number),
        S(text) => Cell::Text(CharacterString::from_utf8(alloc, text)?),
        N => Cell::Null,
        E(kind) => Cell::Err(kind),
    })
}

fn bag(alloc: Global, rows: Rows) -> Result<Bag, OutOfMemory> {
    let mut made = Bag::new(alloc);
    for (samples, level) in rows {
        let mut cells = Items::new(alloc);
        for sample in *samples {
            cells.push(cell(alloc, *sample)?)?;
        }
        made.push(Row {
            cells,
            level: *level,
        })?;
    }
    Ok(made)
}

fn equal(a: &OrderedBag, b: &Bag) -> bool {
    a.len() == b.len() && (0..a.len()).all(|i| row_order(a.at(i), b.at(i)).is_eq())
}

// Whether these are the rows, which stand in their order.
fn are(alloc: Global, made: OrderedBag, rows: Rows) -> Result<bool, OutOfMemory> {
    Ok(equal(&sorted(made, &Items::new(alloc))?, &bag(alloc, rows)?))
}

// Whether a bag has these rows, which stand in their order.
fn has(alloc: Global, made: Bag, rows: Rows) -> Result<bool, OutOfMemory> {
    are(alloc, OrderedBag::new(made), rows)
}

const UNSORTED: Rows = &[
    (&[I(2), S("b")], Yes),
    (&[N, S("a")], Yes),
    (&[I(1), S("é")], Yes),
    (&[I(2), N], Yes),
    (&[I(1), S("z")], Yes),
    (&[I(1)], Yes),
];

// Keys, and the rows in the order of them.
const SORTED: &[(Keys, Rows)] = &[
    (
        &[],
        &[
            (&[N, S("a")], Yes),
            (&[I(1)], Yes),
            (&[I(1), S("z")], Yes),
            (&[I(1), S("é")], Yes),
            (&[I(2), N], Yes),
            (&[I(2), S("b")], Yes),
        ],
    ),
    (
        &[(2, true)],
        &[
            (&[I(1), S("é")], Yes),
            (&[I(1), S("z")], Yes),
            (&[I(2), S("b")], Yes),
            (&[N, S("a")], Yes),
            (&[I(1)], Yes),
            (&[I(2), N], Yes),
        ],
    ),
    (
        &[(2, false), (1, true)],
        &[
            (&[I(2), N], Yes),
            (&[I(1)], Yes),
            (&[N, S("a")], Yes),
            (&[I(2), S("b")], Yes),
            (&[I(1), S("z")], Yes),
            (&[I(1), S("é")], Yes),
        ],
    ),
];

#[test]
fn keys_decide_before_all_columns(rt: HostRuntime) -> Result<(), Fail> {
    let alloc = rt.alloc();
    for (keys, expected) in SORTED {
        let mut order = Items::new(alloc);
        for (column, descending) in *keys {
            order.push(OrderKey {
                column: *column,
                descending: *descending,
            })?;
        }
        let made = sorted(OrderedBag::new(bag(alloc, UNSORTED)?), &order)?;
        assert!(rt; equal(&made, &bag(alloc, expected)?));
    }
    Ok(())
}

// Rows, and what a query with these rows answers: a kind, or those of them that it shows.
const VERDICTS: &[(Rows, Option<Kind>, Rows)] = &[
    (&[(&[I(1)], No)], None, &[]),
    (
        &[(&[E(Kind::Overflow)], No), (&[I(1)], Yes)],
        None,
        &[(&[I(1)], Yes)],
    ),
    (
        &[
            (&[E(Kind::Cardinality)], Yes),
            (&[I(1)], Level::Overflow),
            (&[E(Kind::Division)], Yes),
        ],
        Some(Kind::Overflow),
        &[],
    ),
    (
        &[(&[E(Kind::Division), E(Kind::Overflow)], Level::Cardinality)],
        Some(Kind::Overflow),
        &[],
    ),
];

#[test]
fn the_greatest_error_is_the_answer(rt: HostRuntime) -> Result<(), Fail> {
    let alloc = rt.alloc();
    for (rows, error, shown) in VERDICTS {
        let (kind, rows) = match verdict(bag(alloc, rows)?) {
            Verdict::Rows(rows) => (None, rows),
            Verdict::Error(kind) => (Some(kind), OrderedBag::new(Bag::new(alloc))),
        };
        assert_eq!(rt; kind, *error);
        assert!(rt; are(alloc, rows, shown)?);
    }
    Ok(())
}

const LEFT: Rows = &[
    (&[I(1)], Yes),
    (&[N], Yes),
    (&[I(2)], Yes),
    (&[I(1)], Yes),
    (&[I(3)], No),
    (&[N], Yes),
    (&[I(1)], Level::Overflow),
];

const RIGHT: Rows = &[(&[I(4)], Yes), (&[I(1)], Yes), (&[N], Yes), (&[I(2)], No)];

// The rows of LEFT but for the one at an error.
const SOUND: Rows = &[
    (&[I(1)], Yes),
    (&[N], Yes),
    (&[I(2)], Yes),
    (&[I(1)], Yes),
    (&[N], Yes),
];

#[test]
fn each_tuple_once_at_its_greatest_level(rt: HostRuntime) -> Result<(), Fail> {
    let alloc = rt.alloc();
    let once: Rows = &[(&[N], Yes), (&[I(1)], Yes), (&[I(2)], Yes)];
    let both: Rows = &[(&[N], Yes), (&[I(1)], Yes), (&[I(2)], Yes), (&[I(4)], Yes)];
    assert!(rt; has(alloc, distinct(bag(alloc, LEFT)?)?, once)?);
    let right = bag(alloc, RIGHT)?;
    let made = union(
        alloc,
        Operand::Made(bag(alloc, LEFT)?),
        Operand::Borrowed(&right),
        false,
    )?;
    assert!(rt; has(alloc, made, both)?);
    Ok(())
}

#[test]
fn each_tuple_as_often_as_it_is_to_stand(rt: HostRuntime) -> Result<(), Fail> {
    let alloc = rt.alloc();
    let common: Rows = &[(&[N], Yes), (&[I(1)], Yes)];
    let rest: Rows = &[(&[I(2)], Yes)];
    let rest_all: Rows = &[(&[N], Yes), (&[I(1)], Yes), (&[I(2)], Yes)];
    let (a, b) = (bag(alloc, SOUND)?, bag(alloc, RIGHT)?);
    for (all, rest) in [(false, rest), (true, rest_all)] {
        let made = intersect(alloc, &a, &b, all, 1)?;
        assert!(rt; has(alloc, made, common)?);
        let made = except(alloc, &a, &b, all, 1)?;
        assert!(rt; has(alloc, made, rest)?);
    }
    Ok(())
}

#[test]
fn an_error_stands_in_every_column(rt: HostRuntime) -> Result<(), Fail> {
    let alloc = rt.alloc();
    let a: Rows = &[(&[I(1), E(Kind::Cardinality)], Yes)];
    let b: Rows = &[(&[N, S("x")], Level::Division)];
    let one: Rows = &[(&[E(Kind::Division), E(Kind::Division)], Level::Division)];
    let (a, b) = (bag(alloc, a)?, bag(alloc, b)?);
    let made = except(alloc, &a, &b, true, 2)?;
    assert!(rt; has(alloc, made, one)?);
    Ok(())
}

const ROWS: Rows = &[
    (&[I(1), S("a")], Yes),
    (&[N, S("b")], Yes),
    (&[I(2), S("c")], No),
    (&[I(1), S("d")], Yes),
    (&[N, S("e")], Level::Overflow),
    (&[I(1), S("f")], No),
];

#[test]
fn a_table_gives_its_rows_once(rt: HostRuntime) -> Result<(), Fail> {
    let alloc = rt.alloc();
    let mut tables = Tables::new(alloc);
    tables.push(Table {
        name: Text::from_utf8(alloc, "T")?,
        bag: bag(alloc, ROWS)?,
    })?;
    let name = Text::from_utf8(alloc, "T")?;
    assert!(rt; tables.find(&name).is_some_and(|rows| rows.len() == 6));
    assert!(rt;
        tables
            .take(alloc, &name)
            .is_some_and(|rows| rows.len() == 6)
    );
    assert!(rt;
        tables
            .take(alloc, &name)
            .is_some_and(|rows| rows.len() == 0)
    );
    assert!(rt; tables.take(alloc, &Text::from_utf8(alloc, "R")?).is_none());
    Ok(())
}
