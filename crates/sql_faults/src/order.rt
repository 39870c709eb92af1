// The keys of ORDER BY (SQL-92, 13.1).
ghost use Rattle.std.specs.Prelude.{◌≡◌, length, filter};
ghost use Rattle.sql_faults.specs.Numbers.{number};
ghost use Rattle.sql_faults.specs.Rules as rule;

use crate::column::TypedColumn;
use crate::fault::{Fault, fault_if, lesser};
use crate::found::has_name;
use sql_ast::{Sort, SortKey};
use sql_text::Name;

// How many columns have this name.
fn how_many(name: &Name, columns: &[TypedColumn]) -> usize
    ensures { result ≡ rule.how_many name.now columns.now }
{
    columns
        .iter()
        .filter(|column| has_name(name, *column))
        .count()
}

// Whether a number is from 1 to this many.
fn is_place(width: usize, number: i64) -> bool
    ensures { result ≡ rule.is_place width number }
{
    match usize::try_from(number) {
        Ok(place) => 1 <= place && place <= width,
        Err(_) => false,
    }
}

// The fault of a key.
fn key_unfit(columns: &[TypedColumn], key: &SortKey) -> Option<Fault>
    ensures { number result ≡ rule.key_unfit columns.now key.now }
{
    match key {
        SortKey::Name(name) => fault_if(how_many(name, columns) != 1, Fault::OrderColumn),
        SortKey::Number(place) => fault_if(!is_place(columns.len(), *place), Fault::OrderColumn),
    }
}

// The first fault of these keys.
#[tactic(auto, using(crate::proofs::Orders::fault_steps))]
pub(crate) fn keys_unfit(columns: &[TypedColumn], sorts: &[Sort]) -> Option<Fault>
    ensures { number result ≡ rule.keys_unfit columns.now sorts.now }
{
    let mut fault = None;
    for sort in sorts {
        fault = lesser(fault, key_unfit(columns, &sort.key));
    }
    fault
}
