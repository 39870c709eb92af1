// What is looked up while a box is written.
ghost use Rattle.std.specs.Prelude.{◌≡◌, ◌++◌, OnOk, option_map};
ghost use Rattle.list_laws.specs.Lists.{first};
ghost use Rattle.graph_sql.specs.Scoped as spec;
ghost use Rattle.graph_sql.specs.Text.{column_text};

use graph_print::{Places, put_number, put_word};
use qgm_core::BoxId;
use qgm_props::Props;
use qgm_terms::QuantId;
use shared_types::{OutOfMemory, Text};
use std::collections::HashMap;

/// A quantifier of a box, the text of its FROM item, and that of what stands between FROM and the test
/// of an EXISTS.
#[derive(Drop)]
pub struct Item {
    pub id: QuantId,
    pub text: Text,
    pub source: Text,
}

/// Which columns of quantifiers are known to hold no null: the box that each ranges over, and what is
/// inferred of boxes.
#[derive(Drop)]
pub struct Sure<'a> {
    pub overs: HashMap<QuantId, BoxId>,
    pub facts: &'a Props,
}

/// What the expressions and conditions of a box look up: the numbers of quantifiers, the FROM items of
/// the box, and columns without nulls.
#[derive(Drop)]
pub struct Scope<'a> {
    pub at: &'a Places,
    pub items: &'a [Item],
    pub sure: &'a Sure<'a>,
}

/// Adds the characters of a text.
pub fn put_text(text: &Text, out: &mut Text) -> Result<(), OutOfMemory>
    ensures { OnOk result (out.new ≡ out.old ++ text.now) }
{
    for c in text.as_slice() {
        out.push(*c)?;
    }
    Ok(())
}

// The first item of a quantifier.
fn find_item(items: &[Item], q: QuantId) -> Option<&Item>
    ensures { option_map (λ i. i.now) result ≡ first (spec.is_item q) items.now }
{
    for item in items {
        if item.id == q {
            return Some(item);
        }
    }
    None
}

/// Adds the FROM item of a quantifier.
pub fn put_range(scope: &Scope<'_>, q: QuantId, out: &mut Text) -> Result<(), OutOfMemory>
    ensures { OnOk result (out.new ≡ out.old ++ (spec.names_in scope.now).range q) }
{
    match find_item(scope.items, q) {
        Some(item) => put_text(&item.text, out),
        None => Ok(()),
    }
}

/// Adds what stands between FROM and the test of an EXISTS.
pub fn put_source(scope: &Scope<'_>, q: QuantId, out: &mut Text) -> Result<(), OutOfMemory>
    ensures { OnOk result (out.new ≡ out.old ++ (spec.names_in scope.now).source q) }
{
    match find_item(scope.items, q) {
        Some(item) => put_text(&item.source, out),
        None => Ok(()),
    }
}

/// Adds a column of a quantifier.
pub fn put_column(
    scope: &Scope<'_>,
    q: QuantId,
    k: usize,
    out: &mut Text,
) -> Result<(), OutOfMemory>
    ensures { OnOk result (out.new ≡ out.old ++ column_text (spec.number_in scope.now) q k) }
{
    put_word(b"q", out)?;
    put_number(scope.at.place_of(q), out)?;
    put_word(b".c", out)?;
    put_number(k, out)
}

/// Whether a column of a quantifier is known to hold no null.
pub fn is_sure(scope: &Scope<'_>, q: QuantId, k: usize) -> bool
    ensures { result ≡ spec.is_sure scope.now.sure.now q k }
{
    match scope.sure.overs.get(&q) {
        Some(b) => scope.sure.facts.not_null(*b, k),
        None => false,
    }
}
