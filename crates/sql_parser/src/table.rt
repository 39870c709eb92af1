// Tables of a FROM.
ghost use Rattle.std.specs.Prelude.{◌≡◌};
ghost use Rattle.sql_ast.specs.Grammatical as grammatical;
ghost use Rattle.sql_ast.specs.Shown as shown;
ghost use Rattle.sql_parser.specs.Nests.{Nests};
ghost use Rattle.sql_parser.specs.Read as read;
ghost use Rattle.sql_parser.specs.Words.{Gives};
ghost use Rattle.sql_parser.specs.declared.word.JoinKind.TheVariants as join_of;
ghost use Rattle.sql_text.specs.Tokens.{token_list};

use crate::ahead::at_query;
use crate::boxes::{found_table, push_boxed};
use crate::grammar::Grammar;
use crate::naming::{correlation, optional_correlation};
use crate::nested::{Nonterminal, Tree};
use crate::refusal::ParseRefusal;
use crate::sub::without_sub;
use crate::word::{JoinKind, after_comma, first, join_at};
use sql_ast::{Cond, Query, TableRef};
use sql_text::{Key, Name, Spanned, Token};
use sqlite_items::Items;
use std::alloc::Global;

/// `")" [ AS ] name [ "(" names ")" ]`, after a query
fn name_derived<'a>(
    alloc: Global,
    query: Box<Query>,
    ts: &'a [Spanned],
) -> Result<(Box<TableRef>, &'a [Spanned]), ParseRefusal>
    ensures { Gives (λ x. (shown.table x.0.value, token_list x.1.now)) result (read.name_derived (shown.query query.value) (token_list ts.now)) }
{
    match first(ts) {
        Some((Token::RightParen, rest)) => {
            let (named, rest) = correlation(alloc, rest)?;
            found_table(alloc, TableRef::Derived(query, named), rest)
        }
        _ => Err(ParseRefusal::Syntax),
    }
}

/// `[ [ AS ] name [ "(" names ")" ] ]`, after the name of a table
fn named_table<'a>(
    alloc: Global,
    name: &Name,
    ts: &'a [Spanned],
) -> Result<(Box<TableRef>, &'a [Spanned]), ParseRefusal>
    ensures { Gives (λ x. (shown.table x.0.value, token_list x.1.now)) result (read.named_table name.now (token_list ts.now)) }
{
    let (named, rest) = optional_correlation(alloc, ts)?;
    let name = name.copy(alloc)?;
    found_table(alloc, TableRef::Named(name, named), rest)
}

/// Whether a table has no join outside of brackets.
fn is_tprim(x: &TableRef) -> bool
    ensures { result ≡ grammatical.is_tprim (shown.table x.now) }
{
    match x {
        TableRef::Join(..) | TableRef::LeftJoin(..) | TableRef::CrossJoin(..) => false,
        TableRef::Named(..) | TableRef::Derived(..) | TableRef::Joined(_) => true,
    }
}

/// `")"`, after a table with its joins
fn close_join<'a>(
    alloc: Global,
    x: Box<TableRef>,
    ts: &'a [Spanned],
) -> Result<(Box<TableRef>, &'a [Spanned]), ParseRefusal>
    ensures { Gives (λ x. (shown.table x.0.value, token_list x.1.now)) result (read.close_join (shown.table x.value) (token_list ts.now)) }
{
    match first(ts) {
        Some((Token::RightParen, rest)) => {
            if is_tprim(&x) {
                Err(ParseRefusal::Syntax)
            } else {
                found_table(alloc, TableRef::Joined(x), rest)
            }
        }
        _ => Err(ParseRefusal::Syntax),
    }
}

impl<
    N: Fn(Global, u8, Nonterminal, &[Spanned]) -> Result<(Tree, &[Spanned]), ParseRefusal>,
> Grammar<N> {
    /// `tprim`
    fn tprim<'a>(&self, ts: &'a [Spanned]) -> Result<(Box<TableRef>, &'a [Spanned]), ParseRefusal>
        requires { Nests self.now.depth (N.pre self.now.nested) (N.post self.now.nested) }
        ensures { Gives (λ x. (shown.table x.0.value, token_list x.1.now)) result (read.at_depth self.now.depth read.tprim (token_list ts.now)) }
    {
        match first(ts) {
            Some((Token::Name(name), rest)) => named_table(self.alloc, name, rest),
            Some((Token::LeftParen, rest)) => {
                if at_query(rest) {
                    let (query, rest) = self.nested_query(rest)?;
                    name_derived(self.alloc, query, rest)
                } else {
                    let (table, rest) = self.nested_table(rest)?;
                    close_join(self.alloc, table, rest)
                }
            }
            _ => Err(ParseRefusal::Syntax),
        }
    }

    /// `ON cond`
    fn on<'a>(&self, ts: &'a [Spanned]) -> Result<(Box<Cond>, &'a [Spanned]), ParseRefusal>
        requires { Nests self.now.depth (N.pre self.now.nested) (N.post self.now.nested) }
        ensures { Gives (λ x. (shown.cond x.0.value, token_list x.1.now)) result (read.at_depth self.now.depth read.on (token_list ts.now)) }
    {
        match first(ts) {
            Some((Token::Key(Key::On), rest)) => self.disj(rest),
            _ => Err(ParseRefusal::Syntax),
        }
    }

    /// `tprim ON cond`, after `[ INNER ] JOIN`
    fn inner_join<'a>(
        &self,
        left: Box<TableRef>,
        inner: bool,
        ts: &'a [Spanned],
    ) -> Result<(Box<TableRef>, &'a [Spanned]), ParseRefusal>
        requires { Nests self.now.depth (N.pre self.now.nested) (N.post self.now.nested) }
        ensures { Gives (λ x. (shown.table x.0.value, token_list x.1.now)) result (read.at_depth self.now.depth read.join_after (shown.table left.value) (join_of.Inner inner) (token_list ts.now)) }
    {
        let (right, rest) = self.tprim(ts)?;
        let (on, rest) = self.on(rest)?;
        found_table(self.alloc, TableRef::Join(left, inner, right, on), rest)
    }

    /// `tprim ON cond`, after `LEFT [ OUTER ] JOIN`, where the cond holds no sub
    fn left_join<'a>(
        &self,
        left: Box<TableRef>,
        outer: bool,
        ts: &'a [Spanned],
    ) -> Result<(Box<TableRef>, &'a [Spanned]), ParseRefusal>
        requires { Nests self.now.depth (N.pre self.now.nested) (N.post self.now.nested) }
        ensures { Gives (λ x. (shown.table x.0.value, token_list x.1.now)) result (read.at_depth self.now.depth read.join_after (shown.table left.value) (join_of.Left outer) (token_list ts.now)) }
    {
        let (right, rest) = self.tprim(ts)?;
        let (on, rest) = self.on(rest)?;
        if without_sub(&on) {
            found_table(self.alloc, TableRef::LeftJoin(left, outer, right, on), rest)
        } else {
            Err(ParseRefusal::Syntax)
        }
    }

    /// What follows the words of a join: `tprim`, and its `ON cond` where the join has one
    fn join_after<'a>(
        &self,
        left: Box<TableRef>,
        kind: JoinKind,
        ts: &'a [Spanned],
    ) -> Result<(Box<TableRef>, &'a [Spanned]), ParseRefusal>
        requires { Nests self.now.depth (N.pre self.now.nested) (N.post self.now.nested) }
        ensures { Gives (λ x. (shown.table x.0.value, token_list x.1.now)) result (read.at_depth self.now.depth read.join_after (shown.table left.value) kind (token_list ts.now)) }
    {
        match kind {
            JoinKind::Inner(inner) => self.inner_join(left, inner, ts),
            JoinKind::Left(outer) => self.left_join(left, outer, ts),
            JoinKind::Cross => {
                let (right, rest) = self.tprim(ts)?;
                found_table(self.alloc, TableRef::CrossJoin(left, right), rest)
            }
        }
    }

    /// `tref = tprim { join }`
    pub fn tref<'a>(
        &self,
        ts: &'a [Spanned],
    ) -> Result<(Box<TableRef>, &'a [Spanned]), ParseRefusal>
        requires { Nests self.now.depth (N.pre self.now.nested) (N.post self.now.nested) }
        ensures { Gives (λ x. (shown.table x.0.value, token_list x.1.now)) result (read.at_depth self.now.depth read.tref (token_list ts.now)) }
    {
        let (mut left, mut rest) = self.tprim(ts)?;
        'joins: for _turn in 0..ts.len() {
            match join_at(rest) {
                None => return Ok((left, rest)),
                Some((kind, after)) => {
                    let (next, after) = self.join_after(left, kind, after)?;
                    left = next;
                    rest = after;
                }
            }
        }
        Ok((left, rest))
    }

    /// `tref { "," tref }`
    fn tables<'a>(
        &self,
        ts: &'a [Spanned],
    ) -> Result<(Items<TableRef>, &'a [Spanned]), ParseRefusal>
        requires { Nests self.now.depth (N.pre self.now.nested) (N.post self.now.nested) }
        ensures { Gives (λ x. (shown.table_list x.0, token_list x.1.now)) result (read.at_depth self.now.depth read.tables (token_list ts.now)) }
    {
        let (table_first, after_first) = self.tref(ts)?;
        let mut tables = Items::new(self.alloc);
        push_boxed(&mut tables, table_first)?;
        let mut rest = after_first;
        'tables: for _turn in 0..after_first.len() {
            match after_comma(rest) {
                None => return Ok((tables, rest)),
                Some(after) => {
                    let (next, after) = self.tref(after)?;
                    push_boxed(&mut tables, next)?;
                    rest = after;
                }
            }
        }
        Ok((tables, rest))
    }

    /// `FROM tref { "," tref }`
    pub fn from<'a>(
        &self,
        ts: &'a [Spanned],
    ) -> Result<(Items<TableRef>, &'a [Spanned]), ParseRefusal>
        requires { Nests self.now.depth (N.pre self.now.nested) (N.post self.now.nested) }
        ensures { Gives (λ x. (shown.table_list x.0, token_list x.1.now)) result (read.at_depth self.now.depth read.from (token_list ts.now)) }
    {
        match first(ts) {
            Some((Token::Key(Key::From), rest)) => self.tables(rest),
            _ => Err(ParseRefusal::Syntax),
        }
    }
}
