// Boxes and quantifiers that are added to those that were made so far.
ghost use Rattle.std.specs.Prelude.{◌≡◌, ◌++◌, ◌∷◌, [], IfOk, OnOk, get_or, map};
ghost use Rattle.qgm_terms.specs.Shown.{terms};
ghost use Rattle.qgm_terms.specs.Terms.{col};
ghost use Rattle.qgm_translation.specs.Lay.{box_named, column_types, ranging};
ghost use Rattle.qgm_translation.specs.Lay as spec;
ghost use Rattle.qgm_translation.specs.Shown.{columns_of};
ghost use Rattle.qgm_translation.specs.Shown as shown;
ghost use Rattle.qgm_translation.specs.Typing.{typed_by};
ghost use Rattle.qgm_build_terms.specs.Making.{Gives, Takes, draws};
ghost use Rattle.qgm_build_terms.specs.SoFar.{so_far};

use crate::boxes::push;
use crate::left::left_after_box;
use crate::made::Store;
use crate::types::type_of;
use qgm_core::{
    BoxId, BoxKind, BoxParts, Conds, Distinct, Gx, Head, NewBox, Owned, OwnedQuant, QuantId,
    QuantKind, Role,
};
use shared_types::{OutOfMemory, Text};
use sql_value::SqlType;
use sqlite_items::Items;
use std::alloc::Global;

/// The number of the box that all share who name a table or a view; 0 where there is none.
pub fn number_named(st: &Store, name: &Text) -> BoxId
    ensures { result ≡ box_named (so_far st.now).shared name.now }
{
    for x in &st.shared {
        if x.name == *name {
            return x.number;
        }
    }
    0
}

// A copy of types.
fn copied_types(alloc: Global, types: &[SqlType]) -> Result<Items<SqlType>, OutOfMemory>
    ensures { IfOk result (λ copy. copy ≡ types.now) }
{
    Ok(Items::from_slice(alloc, types)?)
}

/// The types of the columns of a box.
fn types_of_box(alloc: Global, st: &Store, b: BoxId) -> Result<Items<SqlType>, OutOfMemory>
    ensures { IfOk result (λ types. types ≡ get_or st.now.types.items b []) }
{
    match st.types.get(b) {
        Some(types) => copied_types(alloc, types.as_slice()),
        None => Ok(Items::new(alloc)),
    }
}

/// The type of a column of a quantifier.
pub fn row_type(st: &Store, q: QuantId, k: usize) -> SqlType
    ensures { result ≡ typed_by st.now.rows.items (col q k) }
{
    type_of(&st.rows, &Gx::Col(q, k))
}

/// The number of a new quantifier over a box.
pub fn number(alloc: Global, over: BoxId, st: &mut Store) -> Result<QuantId, OutOfMemory>
    ensures number { IfOk result (λ q. q ≡ (so_far st.old).quant) }
    ensures store { OnOk result (so_far st.new ≡ ranging over (so_far st.old)) }
{
    let id = st.next_quant;
    let Some(next) = id.checked_add(1) else {
        return Err(OutOfMemory);
    };
    let types = types_of_box(alloc, st, over)?;
    st.rows.push(types)?;
    st.next_quant = next;
    Ok(id)
}

/// Adds a new quantifier over a box to others.
pub fn draw(
    alloc: Global,
    st: &mut Store,
    kind: QuantKind,
    over: BoxId,
    quants: &mut Owned,
) -> Result<(), OutOfMemory>
    ensures { OnOk result (Takes (draws kind over) (so_far st.old) quants.old (so_far st.new) quants.new) }
{
    let id = number(alloc, over, st)?;
    quants.push(OwnedQuant { id, kind, over })
}

// Each row once, where true stands.
fn distinct_of(distinct: bool) -> Distinct
    ensures { result ≡ shown.distinct_of distinct }
{
    if distinct {
        Distinct::Enforce
    } else {
        Distinct::Preserve
    }
}

// The types of the expressions of a head.
fn head_types(
    alloc: Global,
    rows: &[Items<SqlType>],
    head: &Head,
) -> Result<Items<SqlType>, OutOfMemory>
    ensures { IfOk result (λ types. types ≡ map (typed_by rows.now) head.now) }
{
    let mut types = Items::new(alloc);
    for x in head.as_slice() {
        types.push(type_of(rows, x))?;
    }
    Ok(types)
}

// The types of the columns of a box of this kind and with this head.
fn types_of(
    alloc: Global,
    rows: &[Items<SqlType>],
    kind: &BoxKind,
    head: &Head,
) -> Result<Items<SqlType>, OutOfMemory>
    ensures { IfOk result (λ types. types ≡ column_types rows.now kind.now head.now) }
{
    match kind {
        BoxKind::Base(table) => copied_types(alloc, table.types.as_slice()),
        BoxKind::SetOp(_, types) => copied_types(alloc, types.as_slice()),
        BoxKind::Select | BoxKind::Group(_) | BoxKind::OuterJoin => head_types(alloc, rows, head),
    }
}

// Adds the types of the columns of a box.
fn add_types(
    alloc: Global,
    rows: &[Items<SqlType>],
    kind: &BoxKind,
    head: &Head,
    out: &mut Vec<Items<SqlType>>,
) -> Result<(), OutOfMemory>
    ensures { OnOk result (out.new.items ≡ out.old.items ++ column_types rows.now kind.now head.now ∷ []) }
{
    let types = types_of(alloc, rows, kind, head)?;
    push(out, types)
}

/// Makes a plain box on top of all, if as many nodes as it has may still be made.
pub fn put(
    alloc: Global,
    st: &mut Store,
    kind: BoxKind,
    distinct: bool,
    conds: Conds,
    head: Head,
    quants: Owned,
) -> Result<BoxId, OutOfMemory>
    requires spare { conds.spare ≡ 0 }
    ensures { IfOk result (λ b. Gives (spec.put kind distinct conds.items head quants (so_far st.old)) b (so_far st.new)) }
{
    let id = st.made.len();
    let left = left_after_box(&head, &conds, st.left)?;
    add_types(alloc, &st.rows, &kind, &head, &mut st.types)?;
    let parts = BoxParts {
        kind,
        distinct: distinct_of(distinct),
        role: Role::Plain,
        conds,
        head,
    };
    st.made.push(NewBox { parts, quants })?;
    st.left = left;
    Ok(id)
}
