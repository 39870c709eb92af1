// The types of expressions and columns.
ghost use Rattle.std.specs.Prelude.{◌≡◌, ◌&&◌, length, map, nat_eq, option_map, IfOk};
ghost use Rattle.std.specs.HashMap.{get};
ghost use Rattle.std.specs.List.{list_all};
ghost use Rattle.list_laws.specs.Lists.{first};
ghost use Rattle.qgm_terms.specs.Shown.{aggregate, choices, cond, conds, links, sign, term, terms};
ghost use Rattle.qgm_wellformed.specs.Places.{ArePlaces};
ghost use Rattle.qgm_wellformed.specs.Types as spec;

use crate::closed::names_of;
use crate::places::{Places, places_of};
use qgm_core::{BoxId, BoxKind, Node, OwnedQuant, QuantId};
use qgm_terms::{Aggregate, Arm, Gc, Gx, Link, Op, Sign, both};
use shared_types::OutOfMemory;
use sql_value::SqlType;
use sqlite_items::Items;
use std::alloc::Global;

// The types of a box's columns, as far as they are known.
#[derive(Drop)]
pub struct Typed {
    pub id: BoxId,
    pub types: Items<Option<SqlType>>,
}

fn is_known(a: Option<SqlType>) -> bool
    ensures { result ≡ spec.is_known a }
{
    match a {
        Some(_) => true,
        None => false,
    }
}

fn is_unknown(a: Option<SqlType>) -> bool
    ensures { result ≡ spec.is_unknown a }
{
    match a {
        Some(_) => false,
        None => true,
    }
}

fn is_integer(a: Option<SqlType>) -> bool
    ensures { result ≡ spec.is_integer a }
{
    match a {
        Some(SqlType::Integer) => true,
        Some(SqlType::Varchar) | None => false,
    }
}

fn is_varchar(a: Option<SqlType>) -> bool
    ensures { result ≡ spec.is_varchar a }
{
    match a {
        Some(SqlType::Varchar) => true,
        Some(SqlType::Integer) | None => false,
    }
}

fn agree(a: Option<SqlType>, b: Option<SqlType>) -> bool
    ensures { result ≡ spec.agree a b }
{
    if is_integer(a) {
        is_integer(b)
    } else {
        is_varchar(a) && is_varchar(b)
    }
}

// Whether these are as many types, place by place known and the same.
fn all_agree(types: &[Option<SqlType>], wanted: &[SqlType]) -> bool
    ensures { result ≡ spec.all_agree types.now (spec.known wanted.now) }
{
    let [a, rest @ ..] = types else {
        return wanted.is_empty();
    };
    let [b, others @ ..] = wanted else {
        return false;
    };
    agree(*a, Some(*b)) && all_agree(rest, others)
}

// The type of a column in a row of the table.
fn type_in(typed: &Typed, k: usize) -> Option<SqlType>
    ensures { result ≡ spec.type_in k (Some typed.now) }
{
    if k == 0 {
        return None;
    }
    match typed.types.get(k - 1) {
        Some(known) => *known,
        None => None,
    }
}

// What is known of a box.
fn typed_at(table: &[Typed], b: BoxId) -> Option<&Typed>
    ensures { option_map (λ t. t.now) result ≡ first (spec.is_typed b) table.now }
{
    for typed in table {
        if typed.id == b {
            return Some(typed);
        }
    }
    None
}

// The type of a column.
fn column_type(table: &[Typed], places: &Places, q: QuantId, k: usize) -> Option<SqlType>
    ensures { result ≡ spec.type_at table.now places.now q k }
{
    let place = places.get(&q)?;
    let typed = table.get(*place)?;
    type_in(typed, k)
}

fn integer_if(fits: bool) -> Option<SqlType>
    ensures { result ≡ spec.integer_if fits }
{
    if fits { Some(SqlType::Integer) } else { None }
}

fn varchar_if(fits: bool) -> Option<SqlType>
    ensures { result ≡ spec.varchar_if fits }
{
    if fits { Some(SqlType::Varchar) } else { None }
}

// The type of what an operator makes of two values.
fn op_type(op: Op, left: Option<SqlType>, right: Option<SqlType>) -> Option<SqlType>
    ensures { result ≡ spec.op_type op left right }
{
    match op {
        Op::Add | Op::Sub | Op::Mul | Op::Div => integer_if(is_integer(left) && is_integer(right)),
        Op::Cat => varchar_if(is_varchar(left) && is_varchar(right)),
    }
}

// The type of an aggregate of values of this type.
fn aggregate_type(f: Aggregate, a: Option<SqlType>) -> Option<SqlType>
    ensures { result ≡ spec.aggregate_type (aggregate f) a }
{
    match f {
        Aggregate::Single | Aggregate::Min | Aggregate::Max => a,
        Aggregate::Count => integer_if(is_known(a)),
        Aggregate::Sum | Aggregate::Avg => integer_if(is_integer(a)),
    }
}

// Whether values of these types can be compared.
fn sign_fits(s: Sign, left: Option<SqlType>, right: Option<SqlType>) -> bool
    ensures { result ≡ spec.sign_fits (sign s) left right }
{
    match s {
        Sign::Like => is_varchar(left) && is_varchar(right),
        Sign::Eq | Sign::Ne | Sign::Lt | Sign::Le | Sign::Gt | Sign::Ge | Sign::Same => agree(
            left, right,
        ),
    }
}

// The type of an expression, none where types disagree.
#[cycle(types)]
fn type_of(table: &[Typed], places: &Places, x: &Gx) -> Option<SqlType>
    ensures { result ≡ spec.term_type (spec.type_at table.now places.now) (term x.now) }
{
    match x {
        Gx::Int(_) | Gx::NullInt | Gx::CountAll => Some(SqlType::Integer),
        Gx::Text(_) | Gx::NullText => Some(SqlType::Varchar),
        Gx::Col(q, k) => column_type(table, places, *q, *k),
        Gx::Scalar(q) => column_type(table, places, *q, 1),
        Gx::Chain(a, list) => {
            let left = type_of(table, places, a);
            chain_type(table, places, left, list)
        }
        Gx::Case(list, a) => {
            let last = type_of(table, places, a);
            let fits = arms_fit(table, places, last, list);
            type_if(fits, last)
        }
        Gx::Neg(a) => integer_if(is_integer(type_of(table, places, a))),
        Gx::Fold(f, _, a) => aggregate_type(*f, type_of(table, places, a)),
    }
}

// The type of a chain with a first operand of this type.
#[cycle(types)]
fn chain_type(
    table: &[Typed],
    places: &Places,
    first: Option<SqlType>,
    list: &[Link],
) -> Option<SqlType>
    ensures { result ≡ spec.chain_type (spec.type_at table.now places.now) first (links list.now) }
{
    let mut total = first;
    for link in list {
        let right = type_of(table, places, &link.right);
        total = op_type(link.op, total, right);
    }
    total
}

// Whether each result has this type, and each condition compares what can be compared.
#[cycle(types)]
fn arms_fit(table: &[Typed], places: &Places, last: Option<SqlType>, list: &[Arm]) -> bool
    ensures { result ≡ spec.choices_fit (spec.type_at table.now places.now) last (choices list.now) }
{
    for arm in list {
        let result = type_of(table, places, &arm.then);
        if !both(cond_fits(table, places, &arm.when), agree(result, last)) {
            return false;
        }
    }
    true
}

// Whether a condition compares what can be compared.
#[cycle(types)]
fn cond_fits(table: &[Typed], places: &Places, c: &Gc) -> bool
    ensures { result ≡ spec.cond_fits (spec.type_at table.now places.now) (cond c.now) }
{
    match c {
        Gc::True => true,
        Gc::Compare(s, a, b) => {
            let left = type_of(table, places, a);
            let right = type_of(table, places, b);
            sign_fits(*s, left, right)
        }
        Gc::IsNull(a) => is_known(type_of(table, places, a)),
        Gc::All(a, list) => {
            let first = cond_fits(table, places, a);
            let others = conds_fit(table, places, list);
            both(first, others)
        }
        Gc::Any(a, list) => {
            let first = cond_fits(table, places, a);
            let others = conds_fit(table, places, list);
            both(first, others)
        }
        Gc::Not(a) => cond_fits(table, places, a),
        Gc::Some(_, a) => cond_fits(table, places, a),
        Gc::Every(_, a) => cond_fits(table, places, a),
    }
}

// Whether each condition compares what can be compared.
#[cycle(types)]
fn conds_fit(table: &[Typed], places: &Places, list: &[Gc]) -> bool
    ensures { result ≡ list_all (spec.cond_fits (spec.type_at table.now places.now)) (conds list.now) }
{
    for c in list {
        if !cond_fits(table, places, c) {
            return false;
        }
    }
    true
}

fn type_if(fits: bool, known: Option<SqlType>) -> Option<SqlType>
    ensures { result ≡ spec.type_if fits known }
{
    if fits { known } else { None }
}

// The types of stored columns.
fn known(alloc: Global, types: &[SqlType]) -> Result<Items<Option<SqlType>>, OutOfMemory>
    ensures { IfOk result (λ all. all ≡ spec.known types.now) }
{
    let mut all = Items::new(alloc);
    for column in types {
        all.push(Some(*column))?;
    }
    Ok(all)
}

// The types of the columns of a head.
fn head_types(
    alloc: Global,
    table: &[Typed],
    places: &Places,
    list: &[Gx],
) -> Result<Items<Option<SqlType>>, OutOfMemory>
    ensures { IfOk result (λ all. all ≡ map (spec.term_type (spec.type_at table.now places.now)) (terms list.now)) }
{
    let mut all = Items::new(alloc);
    for x in list {
        all.push(type_of(table, places, x))?;
    }
    Ok(all)
}

// The types of a box's columns.
fn types_in(
    alloc: Global,
    table: &[Typed],
    places: &Places,
    node: &Node,
) -> Result<Typed, OutOfMemory>
    ensures { IfOk result (λ t. t ≡ spec.typed_by (spec.type_at table.now places.now) node.now) }
{
    let types = match &node.parts.kind {
        BoxKind::Base(base) => known(alloc, base.types.as_slice())?,
        BoxKind::SetOp(_, types) => known(alloc, types.as_slice())?,
        BoxKind::Select | BoxKind::Group(_) | BoxKind::OuterJoin => {
            head_types(alloc, table, places, node.parts.head.as_slice())?
        }
    };
    Ok(Typed { id: node.id, types })
}

// The types of the columns of all boxes, looked up through one head more.
fn typed_all(
    alloc: Global,
    nodes: &[Node],
    table: &[Typed],
    places: &Places,
) -> Result<Vec<Typed>, OutOfMemory>
    ensures { IfOk result (λ ts. ts.items ≡ map (spec.typed_by (spec.type_at table.now places.now)) nodes.now) }
{
    let mut all = Vec::new(alloc);
    for node in nodes {
        all.push(types_in(alloc, table, places, node)?)?;
    }
    Ok(all)
}

// Whether these are the same.
fn same_type(a: Option<SqlType>, b: Option<SqlType>) -> bool
    ensures { result ≡ spec.same_type a b }
{
    match a {
        Some(SqlType::Integer) => is_integer(b),
        Some(SqlType::Varchar) => is_varchar(b),
        None => is_unknown(b),
    }
}

// Whether these are the same, place by place.
fn same_columns(a: &[Option<SqlType>], b: &[Option<SqlType>]) -> bool
    ensures { result ≡ spec.same_columns a.now b.now }
{
    if a.len() != b.len() {
        return false;
    }
    for i in 0..a.len() {
        if !same_type(a[i], b[i]) {
            return false;
        }
    }
    true
}

fn same_typed(a: &Typed, b: &Typed) -> bool
    ensures { result ≡ spec.same_typed a.now b.now }
{
    a.id == b.id && same_columns(a.types.as_slice(), b.types.as_slice())
}

// Whether these are the same, box by box.
fn same_tables(a: &[Typed], b: &[Typed]) -> bool
    ensures { result ≡ spec.same_tables a.now b.now }
{
    if a.len() != b.len() {
        return false;
    }
    for i in 0..a.len() {
        if !same_typed(&a[i], &b[i]) {
            return false;
        }
    }
    true
}

// The types of the columns of all boxes, looked up as often as there are boxes, or until they stay.
fn types_in_rounds(
    alloc: Global,
    nodes: &[Node],
    places: &Places,
) -> Result<Vec<Typed>, OutOfMemory>
    requires { ArePlaces nodes.now places.now }
    ensures { IfOk result (λ ts. ts.items ≡ spec.types_of nodes.now) }
{
    let mut table = Vec::new(alloc);
    for _round in 0..nodes.len() {
        let next = typed_all(alloc, nodes, &table, places)?;
        if same_tables(&table, &next) {
            return Ok(next);
        }
        table = next;
    }
    Ok(table)
}

// A row for each box, with no column.
fn blank_rows(alloc: Global, nodes: &[Node]) -> Result<Vec<Typed>, OutOfMemory>
    ensures { IfOk result (λ rows. length rows.items ≡ length nodes.now) }
{
    let mut rows = Vec::new(alloc);
    for node in nodes {
        rows.push(Typed {
            id: node.id,
            types: Items::new(alloc),
        })?;
    }
    Ok(rows)
}

// A guess: the types of the columns of all boxes, looked up once, the lowest box first.
fn types_upward(alloc: Global, nodes: &[Node], places: &Places) -> Result<Vec<Typed>, OutOfMemory>
    ensures { IfOk result (λ rows. length rows.items ≡ length nodes.now) }
{
    let mut rows = blank_rows(alloc, nodes)?;
    let mut i = nodes.len();
    while i > 0 {
        i -= 1;
        let row = types_in(alloc, &rows, places, &nodes[i])?;
        rows[i] = row;
    }
    Ok(rows)
}

// Whether what a quantifier ranges over stands behind this place, if it ranges over a box.
fn is_behind(places: &Places, i: usize, q: QuantId) -> bool
    ensures { result ≡ spec.is_behind i (get nat_eq places.now q) }
{
    match places.get(&q) {
        Some(place) => i < *place,
        None => true,
    }
}

// Whether a box at this place names only quantifiers over boxes behind it.
fn reads_behind(alloc: Global, places: &Places, i: usize, node: &Node) -> Result<bool, OutOfMemory>
    ensures { IfOk result (λ b. b ≡ spec.reads_behind places.now i node.now) }
{
    let names = names_of(alloc, node)?;
    Ok(names.iter().all(|q| is_behind(places, i, *q)))
}

// Whether each box names only quantifiers over boxes behind it.
fn all_read_behind(alloc: Global, nodes: &[Node], places: &Places) -> Result<bool, OutOfMemory>
    ensures { IfOk result (λ b. b ≡ spec.all_read_behind places.now 0 nodes.now) }
{
    for i in 0..nodes.len() {
        if !reads_behind(alloc, places, i, &nodes[i])? {
            return Ok(false);
        }
    }
    Ok(true)
}

// The types of the columns of all boxes. Where each box names only boxes behind it, one look from
// the last to the first finds them.
fn types_of(alloc: Global, nodes: &[Node], places: &Places) -> Result<Vec<Typed>, OutOfMemory>
    requires { ArePlaces nodes.now places.now }
    ensures { IfOk result (λ ts. ts.items ≡ spec.types_of nodes.now) }
{
    if all_read_behind(alloc, nodes, places)? {
        let guess = types_upward(alloc, nodes, places)?;
        let next = typed_all(alloc, nodes, &guess, places)?;
        if same_tables(&guess, &next) {
            return Ok(next);
        }
    }
    types_in_rounds(alloc, nodes, places)
}

/// What is known of types: those of all columns, and where the boxes stand.
#[derive(Drop)]
pub struct KnownTypes {
    table: Vec<Typed>,
    places: Places,
}

/// What is known of the types of a graph.
pub fn known_of(alloc: Global, nodes: &[Node]) -> Result<KnownTypes, OutOfMemory>
    ensures { IfOk result (λ k. spec.Knows nodes.now k) }
{
    let places = places_of(alloc, nodes)?;
    let table = types_of(alloc, nodes, &places)?;
    Ok(KnownTypes { table, places })
}

/// The types of the columns of boxes.
pub fn column_types(alloc: Global, nodes: &[Node]) -> Result<KnownTypes, OutOfMemory>
    ensures { IfOk result (λ known. spec.lookup_by known ≡ spec.lookup_of nodes.now) }
{
    let known = known_of(alloc, nodes)?;
    Ok(known)
}

/// The type of an expression, none where types disagree.
pub fn cell_type(known: &KnownTypes, x: &Gx) -> Option<SqlType>
    ensures { result ≡ spec.term_type (spec.lookup_by known.now) (term x.now) }
{
    type_of(&known.table, &known.places, x)
}

// Whether each expression of a head has a type.
fn head_fits(table: &[Typed], places: &Places, list: &[Gx]) -> bool
    ensures { result ≡ list_all (λ x. spec.is_known (spec.term_type (spec.type_at table.now places.now) x)) (terms list.now) }
{
    for x in list {
        if !is_known(type_of(table, places, x)) {
            return false;
        }
    }
    true
}

// Whether the box that a quantifier ranges over has columns of these types.
fn arm_agrees(table: &[Typed], types: &[SqlType], range: OwnedQuant) -> bool
    ensures { result ≡ spec.arm_agrees table.now types.now range }
{
    match typed_at(table, range.over) {
        Some(typed) => all_agree(typed.types.as_slice(), types),
        None => types.is_empty(),
    }
}

// Whether the boxes under these have columns of these types.
fn all_arms_agree(table: &[Typed], types: &[SqlType], ranges: &[OwnedQuant]) -> bool
    ensures { result ≡ list_all (spec.arm_agrees table.now types.now) ranges.now }
{
    ranges.iter().all(|r| arm_agrees(table, types, *r))
}

// Whether the arms of a set operation have its types.
fn arms_agree(table: &[Typed], kind: &BoxKind, ranges: &[OwnedQuant]) -> bool
    ensures { result ≡ spec.arms_agree table.now kind.now ranges.now }
{
    match kind {
        BoxKind::SetOp(_, types) => all_arms_agree(table, types.as_slice(), ranges),
        BoxKind::Base(_) | BoxKind::Select | BoxKind::Group(_) | BoxKind::OuterJoin => true,
    }
}

/// Whether no types disagree in a box, as far as the types are known.
pub fn types_agree(known: &KnownTypes, node: &Node) -> bool
    ensures { result ≡ spec.types_agree_as_known known.now node.now }
{
    let table = &known.table;
    let arms = arms_agree(table, &node.parts.kind, node.quants.as_slice());
    let conds = conds_fit(table, &known.places, node.parts.conds.as_slice());
    head_fits(table, &known.places, node.parts.head.as_slice()) && both(conds, arms)
}
