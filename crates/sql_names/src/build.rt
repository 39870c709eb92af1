// Parts of resolved queries, from their own parts. Where there was no memory for one of those, there is
// none for the whole.
ghost use Rattle.std.specs.Prelude.{◌≡◌, [], ◌∷◌, ◌+◌, ◌-◌, ◌<◌, ◌^◌, IfOk, OnOk};
ghost use Rattle.sql_meaning.specs.ResolvedShown as shown;
ghost use Rattle.sql_meaning.specs.ResolvedTrees as tree;
ghost use Rattle.sql_meaning.specs.Groups.{is_distinct};
ghost use Rattle.sql_names.specs.Onto.{arms_onto, choices_onto, froms_onto, values_onto};
ghost use Rattle.sql_names.specs.Places as places;
ghost use Rattle.sql_names.specs.Resolved as spec;
ghost use Rattle.sql_names.specs.Shapes.{shapes};

use crate::boxes::{boxed, pair, push};
use crate::chain::perhaps_not;
use crate::place::place_of;
use crate::queries::{ResolvedQuery, query_of};
use crate::scope::Shapes;
use shared_types::{CmpOp, OutOfMemory, Text};
use sql_ast::{Column, Quantifier, SetFunction, SetOperator, SetQuantifier};
use sql_meaning::{Arm, Choice, From, Query, Test, Value};
use sql_value::SqlType;
use sqlite_items::Items;
use std::alloc::Global;

/// A text.
pub(crate) fn text(alloc: Global, x: &Text) -> Result<Box<Value>, OutOfMemory>
    ensures { IfOk result (λ v. shown.value v.value ≡ tree.text x.now) }
{
    boxed(alloc, Value::Text(x.copy(alloc)?))
}

/// A number.
pub(crate) fn number(alloc: Global, n: i64) -> Result<Box<Value>, OutOfMemory>
    ensures { IfOk result (λ v. shown.value v.value ≡ tree.number n) }
{
    boxed(alloc, Value::Number(n))
}

/// NULL, of a type where it has one.
pub(crate) fn null(alloc: Global, kind: Option<SqlType>) -> Result<Box<Value>, OutOfMemory>
    ensures { IfOk result (λ v. shown.value v.value ≡ tree.null kind) }
{
    boxed(alloc, Value::Null(kind))
}

/// `COUNT(*)`.
pub(crate) fn count_all(alloc: Global) -> Result<Box<Value>, OutOfMemory>
    ensures { IfOk result (λ v. shown.value v.value ≡ tree.count_all) }
{
    boxed(alloc, Value::CountAll)
}

/// The column that a name stands for, or null.
pub(crate) fn column(
    alloc: Global,
    name: &Column,
    s: &Shapes<'_>,
) -> Result<Box<Value>, OutOfMemory>
    ensures { IfOk result (λ v. shown.value v.value ≡ spec.column_at (places.place_of name.now.range name.now.name (shapes s.now))) }
{
    match place_of(name, s)? {
        Some(p) => boxed(alloc, Value::Column(p.scope, p.place)),
        None => boxed(alloc, Value::Null(None)),
    }
}

/// A scalar subquery.
pub(crate) fn scalar(
    alloc: Global,
    q: Result<Box<ResolvedQuery>, OutOfMemory>,
) -> Result<Box<Value>, OutOfMemory>
    ensures { (a : tree.Query) → IfOk q (λ v. shown.query v.value.query.value ≡ a) → IfOk result (λ v. shown.value v.value ≡ tree.scalar a) }
{
    boxed(alloc, Value::Scalar(query_of(q)?))
}

/// Whether DISTINCT is written.
pub(crate) fn distinct(quantifier: Option<SetQuantifier>) -> bool
    ensures { result ≡ is_distinct quantifier }
{
    match quantifier {
        Some(SetQuantifier::Distinct) => true,
        None | Some(SetQuantifier::All) => false,
    }
}

/// An aggregate of an argument.
pub(crate) fn aggregate(
    alloc: Global,
    function: SetFunction,
    quantifier: Option<SetQuantifier>,
    x: Result<Box<Value>, OutOfMemory>,
) -> Result<Box<Value>, OutOfMemory>
    ensures { (a : tree.Value) → IfOk x (λ v. shown.value v.value ≡ a) → IfOk result (λ v. shown.value v.value ≡ tree.aggregate function (is_distinct quantifier) a) }
{
    boxed(alloc, Value::Aggregate(function, distinct(quantifier), x?))
}

/// `CASE` with conditions.
#[tactic(auto, using(sql_meaning::specs::ResolvedShown::lists))]
pub(crate) fn searched(
    alloc: Global,
    list: Result<Items<Arm>, OutOfMemory>,
    last: Result<Box<Value>, OutOfMemory>,
) -> Result<Box<Value>, OutOfMemory>
    ensures { (a : tree.Arms) (b : tree.Value) → IfOk list (λ v. shown.arm_list v ≡ a) → IfOk last (λ v. shown.value v.value ≡ b) → IfOk result (λ v. shown.value v.value ≡ tree.searched a b) }
{
    let (list, last) = pair(list, last)?;
    boxed(alloc, Value::Searched(list, last))
}

/// `CASE` with an operand.
#[tactic(auto, using(sql_meaning::specs::ResolvedShown::lists))]
pub(crate) fn simple(
    alloc: Global,
    x: Result<Box<Value>, OutOfMemory>,
    list: Result<Items<Choice>, OutOfMemory>,
    last: Result<Box<Value>, OutOfMemory>,
) -> Result<Box<Value>, OutOfMemory>
    ensures { (a : tree.Value) (b : tree.Choices) (c : tree.Value) → IfOk x (λ v. shown.value v.value ≡ a) → IfOk list (λ v. shown.choice_list v ≡ b) → IfOk last (λ v. shown.value v.value ≡ c) → IfOk result (λ v. shown.value v.value ≡ tree.simple a b c) }
{
    let (x, (list, last)) = pair(x, pair(list, last))?;
    boxed(alloc, Value::Simple(x, list, last))
}

/// `COALESCE(x, ..)`.
#[tactic(auto, using(sql_meaning::specs::ResolvedShown::lists))]
pub(crate) fn coalesce(
    alloc: Global,
    x: Result<Box<Value>, OutOfMemory>,
    list: Result<Items<Value>, OutOfMemory>,
) -> Result<Box<Value>, OutOfMemory>
    ensures { (a : tree.Value) (b : tree.Values) → IfOk x (λ v. shown.value v.value ≡ a) → IfOk list (λ v. shown.value_list v ≡ b) → IfOk result (λ v. shown.value v.value ≡ tree.coalesce a b) }
{
    let (x, list) = pair(x, list)?;
    boxed(alloc, Value::Coalesce(x, list))
}

/// `NULLIF(x, y)`.
pub(crate) fn null_if(
    alloc: Global,
    x: Result<Box<Value>, OutOfMemory>,
    y: Result<Box<Value>, OutOfMemory>,
) -> Result<Box<Value>, OutOfMemory>
    ensures { (a b : tree.Value) → IfOk x (λ v. shown.value v.value ≡ a) → IfOk y (λ v. shown.value v.value ≡ b) → IfOk result (λ v. shown.value v.value ≡ tree.null_if a b) }
{
    let (x, y) = pair(x, y)?;
    boxed(alloc, Value::NullIf(x, y))
}

/// NOT of a condition.
pub(crate) fn negated(
    alloc: Global,
    p: Result<Box<Test>, OutOfMemory>,
) -> Result<Box<Test>, OutOfMemory>
    ensures { (a : tree.Test) → IfOk p (λ v. shown.test v.value ≡ a) → IfOk result (λ v. shown.test v.value ≡ tree.negated a) }
{
    boxed(alloc, Test::Not(p?))
}

/// A comparison.
pub(crate) fn compare(
    alloc: Global,
    x: Result<Box<Value>, OutOfMemory>,
    op: CmpOp,
    y: Result<Box<Value>, OutOfMemory>,
) -> Result<Box<Test>, OutOfMemory>
    ensures { (a b : tree.Value) → IfOk x (λ v. shown.value v.value ≡ a) → IfOk y (λ v. shown.value v.value ≡ b) → IfOk result (λ v. shown.test v.value ≡ tree.compare a op b) }
{
    let (x, y) = pair(x, y)?;
    boxed(alloc, Test::Compare(x, op, y))
}

/// A comparison with the rows of a subquery.
pub(crate) fn quantified(
    alloc: Global,
    x: Result<Box<Value>, OutOfMemory>,
    op: CmpOp,
    each: Quantifier,
    q: Result<Box<ResolvedQuery>, OutOfMemory>,
) -> Result<Box<Test>, OutOfMemory>
    ensures { (a : tree.Value) (b : tree.Query) → IfOk x (λ v. shown.value v.value ≡ a) → IfOk q (λ v. shown.query v.value.query.value ≡ b) → IfOk result (λ v. shown.test v.value ≡ tree.quantified a op each b) }
{
    let (x, q) = pair(x, query_of(q))?;
    boxed(alloc, Test::Quantified(x, op, each, q))
}

/// `x BETWEEN y AND z`, or its NOT.
pub(crate) fn between(
    alloc: Global,
    x: Result<Box<Value>, OutOfMemory>,
    negative: bool,
    y: Result<Box<Value>, OutOfMemory>,
    z: Result<Box<Value>, OutOfMemory>,
) -> Result<Box<Test>, OutOfMemory>
    ensures { (a b c : tree.Value) → IfOk x (λ v. shown.value v.value ≡ a) → IfOk y (λ v. shown.value v.value ≡ b) → IfOk z (λ v. shown.value v.value ≡ c) → IfOk result (λ v. shown.test v.value ≡ spec.perhaps_not negative (tree.between a b c)) }
{
    let (x, (y, z)) = pair(x, pair(y, z))?;
    perhaps_not(alloc, negative, boxed(alloc, Test::Between(x, y, z)))
}

/// `x IN (..)`, or its NOT.
#[tactic(auto, using(sql_meaning::specs::ResolvedShown::lists))]
pub(crate) fn among(
    alloc: Global,
    x: Result<Box<Value>, OutOfMemory>,
    negative: bool,
    list: Result<Items<Value>, OutOfMemory>,
) -> Result<Box<Test>, OutOfMemory>
    ensures { (a : tree.Value) (b : tree.Values) → IfOk x (λ v. shown.value v.value ≡ a) → IfOk list (λ v. shown.value_list v ≡ b) → IfOk result (λ v. shown.test v.value ≡ spec.perhaps_not negative (tree.among a b)) }
{
    let (x, list) = pair(x, list)?;
    perhaps_not(alloc, negative, boxed(alloc, Test::Among(x, list)))
}

/// `x IN` a subquery, or its NOT.
pub(crate) fn among_rows(
    alloc: Global,
    x: Result<Box<Value>, OutOfMemory>,
    negative: bool,
    q: Result<Box<ResolvedQuery>, OutOfMemory>,
) -> Result<Box<Test>, OutOfMemory>
    ensures { (a : tree.Value) (b : tree.Query) → IfOk x (λ v. shown.value v.value ≡ a) → IfOk q (λ v. shown.query v.value.query.value ≡ b) → IfOk result (λ v. shown.test v.value ≡ spec.perhaps_not negative (tree.among_rows a b)) }
{
    let (x, q) = pair(x, query_of(q))?;
    perhaps_not(alloc, negative, boxed(alloc, Test::AmongRows(x, q)))
}

/// `x LIKE y`, or its NOT.
pub(crate) fn like(
    alloc: Global,
    x: Result<Box<Value>, OutOfMemory>,
    negative: bool,
    y: Result<Box<Value>, OutOfMemory>,
) -> Result<Box<Test>, OutOfMemory>
    ensures { (a b : tree.Value) → IfOk x (λ v. shown.value v.value ≡ a) → IfOk y (λ v. shown.value v.value ≡ b) → IfOk result (λ v. shown.test v.value ≡ spec.perhaps_not negative (tree.like a b)) }
{
    let (x, y) = pair(x, y)?;
    perhaps_not(alloc, negative, boxed(alloc, Test::Like(x, y)))
}

/// `x IS NULL`, or its NOT.
pub(crate) fn is_null(
    alloc: Global,
    x: Result<Box<Value>, OutOfMemory>,
    negative: bool,
) -> Result<Box<Test>, OutOfMemory>
    ensures { (a : tree.Value) → IfOk x (λ v. shown.value v.value ≡ a) → IfOk result (λ v. shown.test v.value ≡ spec.perhaps_not negative (tree.is_null a)) }
{
    perhaps_not(alloc, negative, boxed(alloc, Test::IsNull(x?)))
}

/// `EXISTS` a subquery.
pub(crate) fn exists(
    alloc: Global,
    q: Result<Box<ResolvedQuery>, OutOfMemory>,
) -> Result<Box<Test>, OutOfMemory>
    ensures { (a : tree.Query) → IfOk q (λ v. shown.query v.value.query.value ≡ a) → IfOk result (λ v. shown.test v.value ≡ tree.exists a) }
{
    boxed(alloc, Test::Exists(query_of(q)?))
}

/// No condition.
#[tactic(auto, using(sql_meaning::specs::ResolvedShown::lists))]
pub(crate) fn no_test(alloc: Global) -> Result<Box<Test>, OutOfMemory>
    ensures { IfOk result (λ t. shown.test t.value ≡ tree.all tree.no_test) }
{
    boxed(alloc, Test::All(Items::new(alloc)))
}

/// Adds a value at the end.
#[tactic(auto, using(crate::proofs::Ontos::values_more))]
pub(crate) fn push_value(
    list: &mut Items<Value>,
    x: Result<Box<Value>, OutOfMemory>,
) -> Result<(), OutOfMemory>
    ensures { (a : tree.Value) → IfOk x (λ v. shown.value v.value ≡ a) → OnOk result ((rest : tree.Values) → values_onto list.new rest ≡ values_onto list.old (tree.one_value a rest)) }
{
    push(list, Box::into_inner(x?))
}

/// Adds a condition with its result at the end.
#[tactic(auto, using(crate::proofs::Ontos::arms_more))]
pub(crate) fn push_arm(
    list: &mut Items<Arm>,
    when: Result<Box<Test>, OutOfMemory>,
    then: Result<Box<Value>, OutOfMemory>,
) -> Result<(), OutOfMemory>
    ensures { (a : tree.Test) (b : tree.Value) → IfOk when (λ v. shown.test v.value ≡ a) → IfOk then (λ v. shown.value v.value ≡ b) → OnOk result ((rest : tree.Arms) → arms_onto list.new rest ≡ arms_onto list.old (tree.one_arm a b rest)) }
{
    let (when, then) = pair(when, then)?;
    let arm = Arm {
        when: Box::into_inner(when),
        then: Box::into_inner(then),
    };
    push(list, arm)
}

/// Adds a value with its result at the end.
#[tactic(auto, using(crate::proofs::Ontos::choices_more))]
pub(crate) fn push_choice(
    list: &mut Items<Choice>,
    when: Result<Box<Value>, OutOfMemory>,
    then: Result<Box<Value>, OutOfMemory>,
) -> Result<(), OutOfMemory>
    ensures { (a b : tree.Value) → IfOk when (λ v. shown.value v.value ≡ a) → IfOk then (λ v. shown.value v.value ≡ b) → OnOk result ((rest : tree.Choices) → choices_onto list.new rest ≡ choices_onto list.old (tree.one_choice a b rest)) }
{
    let (when, then) = pair(when, then)?;
    let choice = Choice {
        when: Box::into_inner(when),
        then: Box::into_inner(then),
    };
    push(list, choice)
}

/// Adds a table of a FROM at the end.
#[tactic(auto, using(crate::proofs::Ontos::froms_more))]
pub(crate) fn push_from(list: &mut Items<From>, x: Box<From>) -> Result<(), OutOfMemory>
    ensures { OnOk result ((rest : tree.Froms) → froms_onto list.new rest ≡ froms_onto list.old (tree.one_from (shown.from x.value) rest)) }
{
    push(list, Box::into_inner(x))
}

/// A table or a view.
pub(crate) fn named(alloc: Global, name: &Text) -> Result<Box<From>, OutOfMemory>
    ensures { IfOk result (λ x. shown.from x.value ≡ tree.named name.now) }
{
    boxed(alloc, From::Named(name.copy(alloc)?))
}

/// A subquery in FROM.
pub(crate) fn derived(alloc: Global, q: Box<Query>) -> Result<Box<From>, OutOfMemory>
    ensures { IfOk result (λ x. shown.from x.value ≡ tree.derived (shown.query q.value)) }
{
    boxed(alloc, From::Derived(q))
}

/// A cross join.
pub(crate) fn crossed(alloc: Global, x: Box<From>, y: Box<From>) -> Result<Box<From>, OutOfMemory>
    ensures { IfOk result (λ z. shown.from z.value ≡ tree.crossed (shown.from x.value) (shown.from y.value)) }
{
    boxed(alloc, From::Crossed(x, y))
}

/// A join.
pub(crate) fn joined(
    alloc: Global,
    x: Box<From>,
    y: Box<From>,
    p: Box<Test>,
) -> Result<Box<From>, OutOfMemory>
    ensures { IfOk result (λ z. shown.from z.value ≡ tree.joined (shown.from x.value) (shown.from y.value) (shown.test p.value)) }
{
    boxed(alloc, From::Joined(x, y, p))
}

/// A left join, whose right has so many columns.
pub(crate) fn left_joined(
    alloc: Global,
    x: Box<From>,
    y: Box<From>,
    width: usize,
    p: Box<Test>,
) -> Result<Box<From>, OutOfMemory>
    ensures { IfOk result (λ z. shown.from z.value ≡ tree.left_joined (shown.from x.value) (shown.from y.value) width (shown.test p.value)) }
{
    boxed(alloc, From::LeftJoined(x, y, width, p))
}

/// A block that isn't grouped.
#[tactic(auto, using(sql_meaning::specs::ResolvedShown::lists))]
pub(crate) fn block(
    alloc: Global,
    distinct: bool,
    list: Items<Value>,
    from: Items<From>,
    by: Box<Test>,
) -> Result<Box<Query>, OutOfMemory>
    ensures { IfOk result (λ q. shown.query q.value ≡ tree.block distinct (shown.value_list list) (shown.from_list from) (shown.test by.value)) }
{
    boxed(alloc, Query::Block(distinct, list, from, by))
}

/// The groups of a block: the places of its grouping columns, where GROUP BY is written, the number
/// of columns of its FROM, and its HAVING.
#[derive(Drop)]
pub(crate) struct Groups {
    pub places: Option<Items<usize>>,
    pub width: usize,
    pub having: Box<Test>,
}

/// A grouped block.
#[tactic(auto, using(sql_meaning::specs::ResolvedShown::lists))]
pub(crate) fn grouped(
    alloc: Global,
    distinct: bool,
    list: Items<Value>,
    from: Items<From>,
    by: Box<Test>,
    groups: Groups,
) -> Result<Box<Query>, OutOfMemory>
    ensures { IfOk result (λ q. shown.query q.value ≡ tree.grouped distinct (shown.value_list list) (shown.from_list from) (shown.test by.value) groups.places groups.width (shown.test groups.having.value)) }
{
    let Groups {
        places,
        width,
        having,
    } = groups;
    boxed(
        alloc,
        Query::Grouped(distinct, list, from, by, places, width, having),
    )
}

/// UNION or EXCEPT.
pub(crate) fn combine(
    alloc: Global,
    x: Box<Query>,
    op: SetOperator,
    all: bool,
    width: usize,
    y: Box<Query>,
) -> Result<Box<Query>, OutOfMemory>
    ensures { IfOk result (λ q. shown.query q.value ≡ tree.combine (shown.query x.value) op all width (shown.query y.value)) }
{
    boxed(alloc, Query::Combine(x, op, all, width, y))
}

/// INTERSECT.
pub(crate) fn intersect(
    alloc: Global,
    x: Box<Query>,
    all: bool,
    width: usize,
    y: Box<Query>,
) -> Result<Box<Query>, OutOfMemory>
    ensures { IfOk result (λ q. shown.query q.value ≡ tree.intersect (shown.query x.value) all width (shown.query y.value)) }
{
    boxed(alloc, Query::Intersect(x, all, width, y))
}

// Adds a column at the end.
#[tactic(auto, using(crate::proofs::Ontos::values_more))]
fn push_column(list: &mut Items<Value>, scope: usize, place: usize) -> Result<(), OutOfMemory>
    ensures { OnOk result ((rest : tree.Values) → values_onto list.new rest ≡ values_onto list.old (tree.one_value (tree.column scope place) rest)) }
{
    push(list, Value::Column(scope, place))
}

/// Adds so many columns of a scope, from a place on, at the end.
#[tactic(auto, using(crate::proofs::Ontos::columns_step))]
pub(crate) fn push_columns(
    list: &mut Items<Value>,
    scope: usize,
    first: usize,
    count: usize,
) -> Result<(), OutOfMemory>
    requires { first + count < 2 ^ 64 }
    ensures { OnOk result ((rest : tree.Values) → values_onto list.new rest ≡ values_onto list.old (spec.append (spec.columns_from scope first count) rest)) }
{
    for i in 0..count {
        push_column(list, scope, first + i)?;
    }
    Ok(())
}
