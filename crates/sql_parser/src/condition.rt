// Conditions (SQL-92, 8.2 to 8.8 and 8.12).
ghost use Rattle.std.specs.Prelude.{◌≡◌, ◌∷◌, false, IfSome, IfNone};
ghost use Rattle.sql_ast.specs.Shown as shown;
ghost use Rattle.sql_parser.specs.Nests.{Nests};
ghost use Rattle.sql_parser.specs.Read as read;
ghost use Rattle.sql_parser.specs.Words.{Gives};
ghost use Rattle.sql_text.specs.Tokens.{token_list};
ghost use Rattle.sql_ast.specs.Syntax as s;
ghost use Rattle.sql_text.specs.declared.key.Key.TheVariants as k;
ghost use Rattle.sql_text.specs.declared.token.Token.TheVariants as t;

use crate::ahead::{at_query, opens_cond};
use crate::boxes::{closed_cond, found_cond};
use crate::grammar::Grammar;
use crate::nested::{Nonterminal, Tree};
use crate::refusal::ParseRefusal;
use crate::word::{first, not_at, quantifier_at};
use sql_ast::{Cond, Expr, Filter, Quantifier};
use sql_text::{CmpOp, Key, Spanned, Token};
use std::alloc::Global;

/// The tokens after `NOT`.
fn after_not(ts: &[Spanned]) -> Option<&[Spanned]>
    ensures found { IfSome result (λ rest. token_list ts.now ≡ t.Key k.Not ∷ token_list rest.now) }
    ensures none { IfNone result (read.starts_not (token_list ts.now) ≡ false) }
{
    match first(ts) {
        Some((Token::Key(Key::Not), rest)) => Some(rest),
        _ => None,
    }
}

/// The tokens after `EXISTS`.
fn after_exists(ts: &[Spanned]) -> Option<&[Spanned]>
    ensures found { IfSome result (λ rest. token_list ts.now ≡ t.Key k.Exists ∷ token_list rest.now) }
    ensures none { IfNone result (read.starts_exists (token_list ts.now) ≡ false) }
{
    match first(ts) {
        Some((Token::Key(Key::Exists), rest)) => Some(rest),
        _ => None,
    }
}

/// The tokens after `AND`.
fn after_and(ts: &[Spanned]) -> Option<&[Spanned]>
    ensures found { IfSome result (λ rest. token_list ts.now ≡ t.Key k.And ∷ token_list rest.now) }
    ensures none { IfNone result (read.starts_and (token_list ts.now) ≡ false) }
{
    match first(ts) {
        Some((Token::Key(Key::And), rest)) => Some(rest),
        _ => None,
    }
}

/// The tokens after `OR`.
fn after_or(ts: &[Spanned]) -> Option<&[Spanned]>
    ensures found { IfSome result (λ rest. token_list ts.now ≡ t.Key k.Or ∷ token_list rest.now) }
    ensures none { IfNone result (read.starts_or (token_list ts.now) ≡ false) }
{
    match first(ts) {
        Some((Token::Key(Key::Or), rest)) => Some(rest),
        _ => None,
    }
}

impl<
    N: Fn(Global, u8, Nonterminal, &[Spanned]) -> Result<(Tree, &[Spanned]), ParseRefusal>,
> Grammar<N> {
    /// `AND expr`, after the lower bound
    fn upper<'a>(
        &self,
        operand: Box<Expr>,
        negative: bool,
        low: Box<Expr>,
        ts: &'a [Spanned],
    ) -> Result<(Box<Cond>, &'a [Spanned]), ParseRefusal>
        requires { Nests self.now.depth (N.pre self.now.nested) (N.post self.now.nested) }
        ensures { Gives (λ x. (shown.cond x.0.value, token_list x.1.now)) result (read.at_depth self.now.depth read.upper (shown.expr operand.value) negative (shown.expr low.value) (token_list ts.now)) }
    {
        match first(ts) {
            Some((Token::Key(Key::And), rest)) => {
                let (high, rest) = self.sum(rest)?;
                found_cond(
                    self.alloc,
                    Cond::Between(operand, negative, low, high),
                    rest,
                )
            }
            _ => Err(ParseRefusal::Syntax),
        }
    }

    /// `expr AND expr`, after `BETWEEN`
    fn between<'a>(
        &self,
        operand: Box<Expr>,
        negative: bool,
        ts: &'a [Spanned],
    ) -> Result<(Box<Cond>, &'a [Spanned]), ParseRefusal>
        requires { Nests self.now.depth (N.pre self.now.nested) (N.post self.now.nested) }
        ensures { Gives (λ x. (shown.cond x.0.value, token_list x.1.now)) result (read.at_depth self.now.depth read.between (shown.expr operand.value) negative (token_list ts.now)) }
    {
        let (low, rest) = self.sum(ts)?;
        self.upper(operand, negative, low, rest)
    }

    /// `"(" query ")" | "(" expr { "," expr } ")"`, after `IN`
    #[tactic(auto, using(sql_ast::specs::Shown::lists))]
    fn in_after<'a>(
        &self,
        operand: Box<Expr>,
        negative: bool,
        ts: &'a [Spanned],
    ) -> Result<(Box<Cond>, &'a [Spanned]), ParseRefusal>
        requires { Nests self.now.depth (N.pre self.now.nested) (N.post self.now.nested) }
        ensures { Gives (λ x. (shown.cond x.0.value, token_list x.1.now)) result (read.at_depth self.now.depth read.in_after (shown.expr operand.value) negative (token_list ts.now)) }
    {
        match first(ts) {
            Some((Token::LeftParen, rest)) => {
                if at_query(rest) {
                    let (query, rest) = self.nested_query(rest)?;
                    closed_cond(self.alloc, Cond::InQuery(operand, negative, query), rest)
                } else {
                    let (list, rest) = self.exprs(rest)?;
                    closed_cond(self.alloc, Cond::InList(operand, negative, list), rest)
                }
            }
            _ => Err(ParseRefusal::Syntax),
        }
    }

    /// `BETWEEN expr AND expr | IN .. | LIKE expr`, after `[ NOT ]`
    fn negatable<'a>(
        &self,
        operand: Box<Expr>,
        negative: bool,
        ts: &'a [Spanned],
    ) -> Result<(Box<Cond>, &'a [Spanned]), ParseRefusal>
        requires { Nests self.now.depth (N.pre self.now.nested) (N.post self.now.nested) }
        ensures { Gives (λ x. (shown.cond x.0.value, token_list x.1.now)) result (read.at_depth self.now.depth read.negatable (shown.expr operand.value) negative (token_list ts.now)) }
    {
        match first(ts) {
            Some((Token::Key(Key::Between), rest)) => self.between(operand, negative, rest),
            Some((Token::Key(Key::In), rest)) => self.in_after(operand, negative, rest),
            Some((Token::Key(Key::Like), rest)) => {
                let (pattern, rest) = self.sum(rest)?;
                found_cond(self.alloc, Cond::Like(operand, negative, pattern), rest)
            }
            _ => Err(ParseRefusal::Syntax),
        }
    }

    /// `"(" query ")"`, after `ANY`, `SOME` or `ALL`
    fn quantified<'a>(
        &self,
        operand: Box<Expr>,
        op: CmpOp,
        quantifier: Quantifier,
        ts: &'a [Spanned],
    ) -> Result<(Box<Cond>, &'a [Spanned]), ParseRefusal>
        requires { Nests self.now.depth (N.pre self.now.nested) (N.post self.now.nested) }
        ensures { Gives (λ x. (shown.cond x.0.value, token_list x.1.now)) result (read.sub (read.expr self.now.depth) (read.cond self.now.depth) (read.query self.now.depth) (read.table self.now.depth) (s.quantified (shown.expr operand.value) op quantifier) (token_list ts.now)) }
    {
        match first(ts) {
            Some((Token::LeftParen, rest)) => {
                let (query, rest) = self.nested_query(rest)?;
                closed_cond(
                    self.alloc,
                    Cond::Quantified(operand, op, quantifier, query),
                    rest,
                )
            }
            _ => Err(ParseRefusal::Syntax),
        }
    }

    /// `expr | ( ANY | SOME | ALL ) "(" query ")"`, after a comparison sign
    fn compared<'a>(
        &self,
        operand: Box<Expr>,
        op: CmpOp,
        ts: &'a [Spanned],
    ) -> Result<(Box<Cond>, &'a [Spanned]), ParseRefusal>
        requires { Nests self.now.depth (N.pre self.now.nested) (N.post self.now.nested) }
        ensures { Gives (λ x. (shown.cond x.0.value, token_list x.1.now)) result (read.at_depth self.now.depth read.compared (shown.expr operand.value) op (token_list ts.now)) }
    {
        match quantifier_at(ts) {
            None => {
                let (right, rest) = self.sum(ts)?;
                found_cond(self.alloc, Cond::Compare(operand, op, right), rest)
            }
            Some((quantifier, rest)) => self.quantified(operand, op, quantifier, rest),
        }
    }

    /// `NULL`, after `IS [ NOT ]`
    fn null_word<'a>(
        &self,
        operand: Box<Expr>,
        negative: bool,
        ts: &'a [Spanned],
    ) -> Result<(Box<Cond>, &'a [Spanned]), ParseRefusal>
        requires { Nests self.now.depth (N.pre self.now.nested) (N.post self.now.nested) }
        ensures { Gives (λ x. (shown.cond x.0.value, token_list x.1.now)) result (read.at_depth self.now.depth read.null_word (shown.expr operand.value) negative (token_list ts.now)) }
    {
        match first(ts) {
            Some((Token::Key(Key::Null), rest)) => {
                found_cond(self.alloc, Cond::IsNull(operand, negative), rest)
            }
            _ => Err(ParseRefusal::Syntax),
        }
    }

    /// What follows the first operand of a predicate
    fn pred_after<'a>(
        &self,
        operand: Box<Expr>,
        ts: &'a [Spanned],
    ) -> Result<(Box<Cond>, &'a [Spanned]), ParseRefusal>
        requires { Nests self.now.depth (N.pre self.now.nested) (N.post self.now.nested) }
        ensures { Gives (λ x. (shown.cond x.0.value, token_list x.1.now)) result (read.at_depth self.now.depth read.pred_after (shown.expr operand.value) (token_list ts.now)) }
    {
        match first(ts) {
            Some((Token::Compare(op), rest)) => self.compared(operand, *op, rest),
            Some((Token::Key(Key::Is), rest)) => {
                let (negative, rest) = not_at(rest);
                self.null_word(operand, negative, rest)
            }
            _ => {
                let (negative, rest) = not_at(ts);
                self.negatable(operand, negative, rest)
            }
        }
    }

    /// `"(" query ")"`, after `EXISTS`
    fn exists<'a>(&self, ts: &'a [Spanned]) -> Result<(Box<Cond>, &'a [Spanned]), ParseRefusal>
        requires { Nests self.now.depth (N.pre self.now.nested) (N.post self.now.nested) }
        ensures { Gives (λ x. (shown.cond x.0.value, token_list x.1.now)) result (read.sub (read.expr self.now.depth) (read.cond self.now.depth) (read.query self.now.depth) (read.table self.now.depth) s.exists (token_list ts.now)) }
    {
        match first(ts) {
            Some((Token::LeftParen, rest)) => {
                let (query, rest) = self.nested_query(rest)?;
                closed_cond(self.alloc, Cond::Exists(query), rest)
            }
            _ => Err(ParseRefusal::Syntax),
        }
    }

    /// A predicate
    fn pred<'a>(&self, ts: &'a [Spanned]) -> Result<(Box<Cond>, &'a [Spanned]), ParseRefusal>
        requires { Nests self.now.depth (N.pre self.now.nested) (N.post self.now.nested) }
        ensures { Gives (λ x. (shown.cond x.0.value, token_list x.1.now)) result (read.at_depth self.now.depth read.pred (token_list ts.now)) }
    {
        match after_exists(ts) {
            Some(rest) => self.exists(rest),
            None => {
                let (operand, rest) = self.sum(ts)?;
                self.pred_after(operand, rest)
            }
        }
    }

    /// `"(" cond ")"`
    fn bracket<'a>(&self, ts: &'a [Spanned]) -> Result<(Box<Cond>, &'a [Spanned]), ParseRefusal>
        requires { Nests self.now.depth (N.pre self.now.nested) (N.post self.now.nested) }
        ensures { Gives (λ x. (shown.cond x.0.value, token_list x.1.now)) result (read.at_depth self.now.depth read.bracket (token_list ts.now)) }
    {
        match first(ts) {
            Some((Token::LeftParen, rest)) => {
                let (inner, rest) = self.nested_cond(rest)?;
                closed_cond(self.alloc, Cond::Bracket(inner), rest)
            }
            _ => Err(ParseRefusal::Syntax),
        }
    }

    /// `pred | "(" cond ")"`
    fn test<'a>(&self, ts: &'a [Spanned]) -> Result<(Box<Cond>, &'a [Spanned]), ParseRefusal>
        requires { Nests self.now.depth (N.pre self.now.nested) (N.post self.now.nested) }
        ensures { Gives (λ x. (shown.cond x.0.value, token_list x.1.now)) result (read.at_depth self.now.depth read.test (token_list ts.now)) }
    {
        if opens_cond(ts) {
            self.bracket(ts)
        } else {
            self.pred(ts)
        }
    }

    /// `neg = [ NOT ] ( pred | "(" cond ")" )`
    fn neg<'a>(&self, ts: &'a [Spanned]) -> Result<(Box<Cond>, &'a [Spanned]), ParseRefusal>
        requires { Nests self.now.depth (N.pre self.now.nested) (N.post self.now.nested) }
        ensures { Gives (λ x. (shown.cond x.0.value, token_list x.1.now)) result (read.at_depth self.now.depth read.neg (token_list ts.now)) }
    {
        match after_not(ts) {
            Some(rest) => {
                let (inner, rest) = self.test(rest)?;
                found_cond(self.alloc, Cond::Not(inner), rest)
            }
            None => self.test(ts),
        }
    }

    /// `neg`, after `AND`
    fn joined_and<'a>(
        &self,
        left: Box<Cond>,
        ts: &'a [Spanned],
    ) -> Result<(Box<Cond>, &'a [Spanned]), ParseRefusal>
        requires { Nests self.now.depth (N.pre self.now.nested) (N.post self.now.nested) }
        ensures { Gives (λ x. (shown.cond x.0.value, token_list x.1.now)) result (read.at_depth self.now.depth read.joined_and (shown.cond left.value) (token_list ts.now)) }
    {
        let (right, rest) = self.neg(ts)?;
        found_cond(self.alloc, Cond::And(left, right), rest)
    }

    /// `conj = neg { AND neg }`
    fn conj<'a>(&self, ts: &'a [Spanned]) -> Result<(Box<Cond>, &'a [Spanned]), ParseRefusal>
        requires { Nests self.now.depth (N.pre self.now.nested) (N.post self.now.nested) }
        ensures { Gives (λ x. (shown.cond x.0.value, token_list x.1.now)) result (read.at_depth self.now.depth read.conj (token_list ts.now)) }
    {
        let (mut left, mut rest) = self.neg(ts)?;
        'negs: for _turn in 0..ts.len() {
            match after_and(rest) {
                None => return Ok((left, rest)),
                Some(after) => {
                    let (next, after) = self.joined_and(left, after)?;
                    left = next;
                    rest = after;
                }
            }
        }
        Ok((left, rest))
    }

    /// `conj`, after `OR`
    fn joined_or<'a>(
        &self,
        left: Box<Cond>,
        ts: &'a [Spanned],
    ) -> Result<(Box<Cond>, &'a [Spanned]), ParseRefusal>
        requires { Nests self.now.depth (N.pre self.now.nested) (N.post self.now.nested) }
        ensures { Gives (λ x. (shown.cond x.0.value, token_list x.1.now)) result (read.at_depth self.now.depth read.joined_or (shown.cond left.value) (token_list ts.now)) }
    {
        let (right, rest) = self.conj(ts)?;
        found_cond(self.alloc, Cond::Or(left, right), rest)
    }

    /// `cond = conj { OR conj }`
    pub fn disj<'a>(&self, ts: &'a [Spanned]) -> Result<(Box<Cond>, &'a [Spanned]), ParseRefusal>
        requires { Nests self.now.depth (N.pre self.now.nested) (N.post self.now.nested) }
        ensures { Gives (λ x. (shown.cond x.0.value, token_list x.1.now)) result (read.at_depth self.now.depth read.disj (token_list ts.now)) }
    {
        let (mut left, mut rest) = self.conj(ts)?;
        'conjs: for _turn in 0..ts.len() {
            match after_or(rest) {
                None => return Ok((left, rest)),
                Some(after) => {
                    let (next, after) = self.joined_or(left, after)?;
                    left = next;
                    rest = after;
                }
            }
        }
        Ok((left, rest))
    }

    /// `[ WHERE cond ]`
    pub fn where_filter<'a>(
        &self,
        ts: &'a [Spanned],
    ) -> Result<(Filter, &'a [Spanned]), ParseRefusal>
        requires { Nests self.now.depth (N.pre self.now.nested) (N.post self.now.nested) }
        ensures { Gives (λ x. (shown.filter x.0, token_list x.1.now)) result (read.at_depth self.now.depth read.where_filter (token_list ts.now)) }
    {
        match first(ts) {
            Some((Token::Key(Key::Where), rest)) => {
                let (cond, rest) = self.disj(rest)?;
                Ok((Filter::Given(cond), rest))
            }
            _ => Ok((Filter::Absent, ts)),
        }
    }

    /// `[ HAVING cond ]`
    pub fn having_filter<'a>(
        &self,
        ts: &'a [Spanned],
    ) -> Result<(Filter, &'a [Spanned]), ParseRefusal>
        requires { Nests self.now.depth (N.pre self.now.nested) (N.post self.now.nested) }
        ensures { Gives (λ x. (shown.filter x.0, token_list x.1.now)) result (read.at_depth self.now.depth read.having_filter (token_list ts.now)) }
    {
        match first(ts) {
            Some((Token::Key(Key::Having), rest)) => {
                let (cond, rest) = self.disj(rest)?;
                Ok((Filter::Given(cond), rest))
            }
            _ => Ok((Filter::Absent, ts)),
        }
    }
}
