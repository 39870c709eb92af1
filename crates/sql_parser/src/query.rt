// Queries.
ghost use Rattle.std.specs.Prelude.{◌≡◌, ◌∷◌, false, IfSome, IfNone};
ghost use Rattle.sql_ast.specs.Shown as shown;
ghost use Rattle.sql_parser.specs.Nests.{Nests};
ghost use Rattle.sql_parser.specs.Read as read;
ghost use Rattle.sql_parser.specs.Read.{starts_intersect, starts_star};
ghost use Rattle.sql_parser.specs.Words.{Gives};
ghost use Rattle.sql_text.specs.Tokens.{token_list};
ghost use Rattle.sql_text.specs.declared.key.Key.TheVariants.{Intersect};
ghost use Rattle.sql_text.specs.declared.token.Token.TheVariants as t;

use crate::boxes::{boxed, closed_query, found_query};
use crate::grammar::Grammar;
use crate::naming::{alias_at, all_of_at, group_by};
use crate::nested::{Nonterminal, Tree};
use crate::refusal::ParseRefusal;
use crate::word::{after_comma, all_at, first, set_operator_at, set_quantifier_at};
use sql_ast::{Block, Item, Query, SelectList, SetOperator, SetQuantifier, TableRef};
use sql_text::{Key, Spanned, Token};
use sqlite_items::Items;
use std::alloc::Global;

/// The tokens after `INTERSECT`.
fn after_intersect(ts: &[Spanned]) -> Option<&[Spanned]>
    ensures found { IfSome result (λ rest. token_list ts.now ≡ t.Key Intersect ∷ token_list rest.now) }
    ensures none { IfNone result (starts_intersect (token_list ts.now) ≡ false) }
{
    match first(ts) {
        Some((Token::Key(Key::Intersect), rest)) => Some(rest),
        _ => None,
    }
}

/// The tokens after `"*"`.
fn after_star(ts: &[Spanned]) -> Option<&[Spanned]>
    ensures found { IfSome result (λ rest. token_list ts.now ≡ t.Star ∷ token_list rest.now) }
    ensures none { IfNone result (starts_star (token_list ts.now) ≡ false) }
{
    match first(ts) {
        Some((Token::Star, rest)) => Some(rest),
        _ => None,
    }
}

impl<
    N: Fn(Global, u8, Nonterminal, &[Spanned]) -> Result<(Tree, &[Spanned]), ParseRefusal>,
> Grammar<N> {
    /// `item = expr [ [ AS ] name ] | name "." "*"`
    fn item<'a>(&self, ts: &'a [Spanned]) -> Result<(Item, &'a [Spanned]), ParseRefusal>
        requires { Nests self.now.depth (N.pre self.now.nested) (N.post self.now.nested) }
        ensures { Gives (λ x. (shown.item x.0, token_list x.1.now)) result (read.at_depth self.now.depth read.item (token_list ts.now)) }
    {
        match all_of_at(ts) {
            Some((name, rest)) => {
                let name = name.copy(self.alloc)?;
                Ok((Item::AllOf(name), rest))
            }
            None => {
                let (value, rest) = self.sum(ts)?;
                let (alias, rest) = alias_at(self.alloc, rest)?;
                Ok((Item::Value(value, alias), rest))
            }
        }
    }

    /// `item { "," item }`
    fn items<'a>(&self, ts: &'a [Spanned]) -> Result<(Items<Item>, &'a [Spanned]), ParseRefusal>
        requires { Nests self.now.depth (N.pre self.now.nested) (N.post self.now.nested) }
        ensures { Gives (λ x. (shown.item_list x.0, token_list x.1.now)) result (read.at_depth self.now.depth read.items (token_list ts.now)) }
    {
        let (item_first, after_first) = self.item(ts)?;
        let mut items = Items::new(self.alloc);
        items.push(item_first)?;
        let mut rest = after_first;
        'items: for _turn in 0..after_first.len() {
            match after_comma(rest) {
                None => return Ok((items, rest)),
                Some(after) => {
                    let (next, after) = self.item(after)?;
                    items.push(next)?;
                    rest = after;
                }
            }
        }
        Ok((items, rest))
    }

    /// `item { "," item }`, as a list
    #[tactic(auto, using(sql_ast::specs::Shown::lists))]
    fn listed<'a>(&self, ts: &'a [Spanned]) -> Result<(SelectList, &'a [Spanned]), ParseRefusal>
        requires { Nests self.now.depth (N.pre self.now.nested) (N.post self.now.nested) }
        ensures { Gives (λ x. (shown.select_list x.0, token_list x.1.now)) result (read.at_depth self.now.depth read.listed (token_list ts.now)) }
    {
        let (items, rest) = self.items(ts)?;
        Ok((SelectList::Items(items), rest))
    }

    /// `list = "*" | item { "," item }`
    fn select_list<'a>(
        &self,
        ts: &'a [Spanned],
    ) -> Result<(SelectList, &'a [Spanned]), ParseRefusal>
        requires { Nests self.now.depth (N.pre self.now.nested) (N.post self.now.nested) }
        ensures { Gives (λ x. (shown.select_list x.0, token_list x.1.now)) result (read.at_depth self.now.depth read.select_list (token_list ts.now)) }
    {
        match after_star(ts) {
            Some(rest) => Ok((SelectList::All, rest)),
            None => self.listed(ts),
        }
    }

    /// `[ WHERE cond ] [ GROUP BY col { "," col } ] [ HAVING cond ]`, after the tables of a block
    #[tactic(auto, using(sql_ast::specs::Shown::lists))]
    fn block_end<'a>(
        &self,
        quantifier: Option<SetQuantifier>,
        list: SelectList,
        from: Items<TableRef>,
        ts: &'a [Spanned],
    ) -> Result<(Box<Query>, &'a [Spanned]), ParseRefusal>
        requires { Nests self.now.depth (N.pre self.now.nested) (N.post self.now.nested) }
        ensures { Gives (λ x. (shown.query x.0.value, token_list x.1.now)) result (read.at_depth self.now.depth read.block_end quantifier (shown.select_list list) (shown.table_list from) (token_list ts.now)) }
    {
        let (filter, rest) = self.where_filter(ts)?;
        let (grouping, rest) = group_by(self.alloc, rest)?;
        let (having, rest) = self.having_filter(rest)?;
        let block = Block {
            quantifier,
            list,
            from,
            filter,
            grouping,
            having,
        };
        let block = boxed(self.alloc, block)?;
        found_query(self.alloc, Query::Block(block), rest)
    }

    /// `[ ALL | DISTINCT ] list FROM tref { "," tref }`, and the rest of a block, after `SELECT`
    fn block<'a>(&self, ts: &'a [Spanned]) -> Result<(Box<Query>, &'a [Spanned]), ParseRefusal>
        requires { Nests self.now.depth (N.pre self.now.nested) (N.post self.now.nested) }
        ensures { Gives (λ x. (shown.query x.0.value, token_list x.1.now)) result (read.at_depth self.now.depth read.block (token_list ts.now)) }
    {
        let (quantifier, rest) = set_quantifier_at(ts);
        let (list, rest) = self.select_list(rest)?;
        let (from, rest) = self.from(rest)?;
        self.block_end(quantifier, list, from, rest)
    }

    /// `qprim = block | sub`
    fn qprim<'a>(&self, ts: &'a [Spanned]) -> Result<(Box<Query>, &'a [Spanned]), ParseRefusal>
        requires { Nests self.now.depth (N.pre self.now.nested) (N.post self.now.nested) }
        ensures { Gives (λ x. (shown.query x.0.value, token_list x.1.now)) result (read.at_depth self.now.depth read.qprim (token_list ts.now)) }
    {
        match first(ts) {
            Some((Token::Key(Key::Select), rest)) => self.block(rest),
            Some((Token::LeftParen, rest)) => {
                let (query, rest) = self.nested_query(rest)?;
                closed_query(self.alloc, Query::Enclosed(query), rest)
            }
            _ => Err(ParseRefusal::Syntax),
        }
    }

    /// `[ ALL ] qprim`, after `INTERSECT`
    fn intersected<'a>(
        &self,
        left: Box<Query>,
        ts: &'a [Spanned],
    ) -> Result<(Box<Query>, &'a [Spanned]), ParseRefusal>
        requires { Nests self.now.depth (N.pre self.now.nested) (N.post self.now.nested) }
        ensures { Gives (λ x. (shown.query x.0.value, token_list x.1.now)) result (read.at_depth self.now.depth read.intersected (shown.query left.value) (token_list ts.now)) }
    {
        let (all, rest) = all_at(ts);
        let (right, rest) = self.qprim(rest)?;
        found_query(self.alloc, Query::Intersect(left, all, right), rest)
    }

    /// `qterm = qprim { INTERSECT [ ALL ] qprim }`
    fn qterm<'a>(&self, ts: &'a [Spanned]) -> Result<(Box<Query>, &'a [Spanned]), ParseRefusal>
        requires { Nests self.now.depth (N.pre self.now.nested) (N.post self.now.nested) }
        ensures { Gives (λ x. (shown.query x.0.value, token_list x.1.now)) result (read.at_depth self.now.depth read.qterm (token_list ts.now)) }
    {
        let (mut left, mut rest) = self.qprim(ts)?;
        'qprims: for _turn in 0..ts.len() {
            match after_intersect(rest) {
                None => return Ok((left, rest)),
                Some(after) => {
                    let (next, after) = self.intersected(left, after)?;
                    left = next;
                    rest = after;
                }
            }
        }
        Ok((left, rest))
    }

    /// `[ ALL ] qterm`, after `UNION` or `EXCEPT`
    fn united<'a>(
        &self,
        left: Box<Query>,
        operator: SetOperator,
        ts: &'a [Spanned],
    ) -> Result<(Box<Query>, &'a [Spanned]), ParseRefusal>
        requires { Nests self.now.depth (N.pre self.now.nested) (N.post self.now.nested) }
        ensures { Gives (λ x. (shown.query x.0.value, token_list x.1.now)) result (read.at_depth self.now.depth read.united (shown.query left.value) operator (token_list ts.now)) }
    {
        let (all, rest) = all_at(ts);
        let (right, rest) = self.qterm(rest)?;
        found_query(self.alloc, Query::Combine(left, operator, all, right), rest)
    }

    /// `query = qterm { ( UNION | EXCEPT ) [ ALL ] qterm }`
    pub fn combined<'a>(
        &self,
        ts: &'a [Spanned],
    ) -> Result<(Box<Query>, &'a [Spanned]), ParseRefusal>
        requires { Nests self.now.depth (N.pre self.now.nested) (N.post self.now.nested) }
        ensures { Gives (λ x. (shown.query x.0.value, token_list x.1.now)) result (read.at_depth self.now.depth read.combined (token_list ts.now)) }
    {
        let (mut left, mut rest) = self.qterm(ts)?;
        'qterms: for _turn in 0..ts.len() {
            match set_operator_at(rest) {
                None => return Ok((left, rest)),
                Some((operator, after)) => {
                    let (next, after) = self.united(left, operator, after)?;
                    left = next;
                    rest = after;
                }
            }
        }
        Ok((left, rest))
    }
}
