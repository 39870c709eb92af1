// Expressions (SQL-92, 6.11 to 6.14, 6.5 and 6.9).
ghost use Rattle.std.specs.Prelude.{◌≡◌, ◌∷◌, false, IfSome, IfNone};
ghost use Rattle.sql_ast.specs.Shown as shown;
ghost use Rattle.sql_ast.specs.Syntax as s;
ghost use Rattle.sql_parser.specs.Nests.{Nests};
ghost use Rattle.sql_parser.specs.Read as read;
ghost use Rattle.sql_parser.specs.Words as words;
ghost use Rattle.sql_parser.specs.Words.{Gives};
ghost use Rattle.sql_text.specs.Tokens.{token_list};
ghost use Rattle.sql_text.specs.declared.token.Token.TheVariants as t;

use crate::ahead::at_query;
use crate::boxes::{closed_expr, found_expr, push_boxed};
use crate::grammar::Grammar;
use crate::naming::column_after;
use crate::nested::{Nonterminal, Tree};
use crate::refusal::ParseRefusal;
use crate::word::{
    additive_at, after_comma, data_type, first, multiplicative_at, set_quantifier_at,
};
use shared_types::Text;
use sql_ast::{AdditiveOp, Expr, MultiplicativeOp, SetFunction, Sign};
use sql_text::{Key, Name, Spanned, Token};
use sqlite_items::Items;
use std::alloc::Global;

/// The tokens after `"(" "*"`.
fn after_open_star(ts: &[Spanned]) -> Option<&[Spanned]>
    ensures found { IfSome result (λ rest. token_list ts.now ≡ t.LeftParen ∷ t.Star ∷ token_list rest.now) }
    ensures none { IfNone result (read.starts_open_star (token_list ts.now) ≡ false) }
{
    match first(ts) {
        Some((Token::LeftParen, rest)) => match first(rest) {
            Some((Token::Star, rest)) => Some(rest),
            _ => None,
        },
        _ => None,
    }
}

/// A string, which stands before the tokens.
fn string<'a>(
    alloc: Global,
    value: &Text,
    ts: &'a [Spanned],
) -> Result<(Box<Expr>, &'a [Spanned]), ParseRefusal>
    ensures { Gives (λ x. (shown.expr x.0.value, token_list x.1.now)) result (words.found (s.string value.now) (token_list ts.now)) }
{
    let value = value.copy(alloc)?;
    found_expr(alloc, Expr::Str(value), ts)
}

/// `[ "." name ]`, after a name: the column that they are
fn column_expr<'a>(
    alloc: Global,
    name: &Name,
    ts: &'a [Spanned],
) -> Result<(Box<Expr>, &'a [Spanned]), ParseRefusal>
    ensures { Gives (λ x. (shown.expr x.0.value, token_list x.1.now)) result (read.column_expr name.now (token_list ts.now)) }
{
    let (column, rest) = column_after(alloc, name, ts)?;
    found_expr(alloc, Expr::Column(column), rest)
}

impl<
    N: Fn(Global, u8, Nonterminal, &[Spanned]) -> Result<(Tree, &[Spanned]), ParseRefusal>,
> Grammar<N> {
    /// `expr { "," expr }`, in brackets
    pub fn exprs<'a>(&self, ts: &'a [Spanned]) -> Result<(Items<Expr>, &'a [Spanned]), ParseRefusal>
        requires { Nests self.now.depth (N.pre self.now.nested) (N.post self.now.nested) }
        ensures { Gives (λ x. (shown.expr_list x.0, token_list x.1.now)) result (read.at_depth self.now.depth read.exprs (token_list ts.now)) }
    {
        let (first, after) = self.nested_expr(ts)?;
        let mut exprs = Items::new(self.alloc);
        push_boxed(&mut exprs, first)?;
        let mut rest = after;
        'exprs: for _turn in 0..after.len() {
            match after_comma(rest) {
                None => return Ok((exprs, rest)),
                Some(next) => {
                    let (item, next) = self.nested_expr(next)?;
                    push_boxed(&mut exprs, item)?;
                    rest = next;
                }
            }
        }
        Ok((exprs, rest))
    }

    /// `"(" [ ALL | DISTINCT ] expr ")"`, after the name of an aggregate
    fn aggregate<'a>(
        &self,
        function: SetFunction,
        ts: &'a [Spanned],
    ) -> Result<(Box<Expr>, &'a [Spanned]), ParseRefusal>
        requires { Nests self.now.depth (N.pre self.now.nested) (N.post self.now.nested) }
        ensures { Gives (λ x. (shown.expr x.0.value, token_list x.1.now)) result (read.at_depth self.now.depth read.aggregate function (token_list ts.now)) }
    {
        match first(ts) {
            Some((Token::LeftParen, rest)) => {
                let (quantifier, rest) = set_quantifier_at(rest);
                let (operand, rest) = self.nested_expr(rest)?;
                closed_expr(
                    self.alloc,
                    Expr::Aggregate(function, quantifier, operand),
                    rest,
                )
            }
            _ => Err(ParseRefusal::Syntax),
        }
    }

    /// `"(" "*" ")" | "(" [ ALL | DISTINCT ] expr ")"`, after `COUNT`
    fn count<'a>(&self, ts: &'a [Spanned]) -> Result<(Box<Expr>, &'a [Spanned]), ParseRefusal>
        requires { Nests self.now.depth (N.pre self.now.nested) (N.post self.now.nested) }
        ensures { Gives (λ x. (shown.expr x.0.value, token_list x.1.now)) result (read.at_depth self.now.depth read.count (token_list ts.now)) }
    {
        match after_open_star(ts) {
            Some(rest) => closed_expr(self.alloc, Expr::CountAll, rest),
            None => self.aggregate(SetFunction::Count, ts),
        }
    }

    /// `{ "," expr } ")"`, with one expression at least, after the first of `COALESCE`
    #[tactic(auto, using(sql_ast::specs::Shown::lists))]
    fn coalesce_rest<'a>(
        &self,
        operand: Box<Expr>,
        ts: &'a [Spanned],
    ) -> Result<(Box<Expr>, &'a [Spanned]), ParseRefusal>
        requires { Nests self.now.depth (N.pre self.now.nested) (N.post self.now.nested) }
        ensures { Gives (λ x. (shown.expr x.0.value, token_list x.1.now)) result (read.at_depth self.now.depth read.coalesce_rest (shown.expr operand.value) (token_list ts.now)) }
    {
        match first(ts) {
            Some((Token::Comma, rest)) => {
                let (others, rest) = self.exprs(rest)?;
                closed_expr(self.alloc, Expr::Coalesce(operand, others), rest)
            }
            _ => Err(ParseRefusal::Syntax),
        }
    }

    /// `"(" expr "," expr { "," expr } ")"`, after `COALESCE`
    fn coalesce<'a>(&self, ts: &'a [Spanned]) -> Result<(Box<Expr>, &'a [Spanned]), ParseRefusal>
        requires { Nests self.now.depth (N.pre self.now.nested) (N.post self.now.nested) }
        ensures { Gives (λ x. (shown.expr x.0.value, token_list x.1.now)) result (read.at_depth self.now.depth read.coalesce (token_list ts.now)) }
    {
        match first(ts) {
            Some((Token::LeftParen, rest)) => {
                let (operand, rest) = self.nested_expr(rest)?;
                self.coalesce_rest(operand, rest)
            }
            _ => Err(ParseRefusal::Syntax),
        }
    }

    /// `"," expr ")"`, after the first of `NULLIF`
    fn null_if_rest<'a>(
        &self,
        a: Box<Expr>,
        ts: &'a [Spanned],
    ) -> Result<(Box<Expr>, &'a [Spanned]), ParseRefusal>
        requires { Nests self.now.depth (N.pre self.now.nested) (N.post self.now.nested) }
        ensures { Gives (λ x. (shown.expr x.0.value, token_list x.1.now)) result (read.at_depth self.now.depth read.null_if_rest (shown.expr a.value) (token_list ts.now)) }
    {
        match first(ts) {
            Some((Token::Comma, rest)) => {
                let (b, rest) = self.nested_expr(rest)?;
                closed_expr(self.alloc, Expr::NullIf(a, b), rest)
            }
            _ => Err(ParseRefusal::Syntax),
        }
    }

    /// `"(" expr "," expr ")"`, after `NULLIF`
    fn null_if<'a>(&self, ts: &'a [Spanned]) -> Result<(Box<Expr>, &'a [Spanned]), ParseRefusal>
        requires { Nests self.now.depth (N.pre self.now.nested) (N.post self.now.nested) }
        ensures { Gives (λ x. (shown.expr x.0.value, token_list x.1.now)) result (read.at_depth self.now.depth read.null_if (token_list ts.now)) }
    {
        match first(ts) {
            Some((Token::LeftParen, rest)) => {
                let (a, rest) = self.nested_expr(rest)?;
                self.null_if_rest(a, rest)
            }
            _ => Err(ParseRefusal::Syntax),
        }
    }
}

impl<N> Grammar<N> {
    /// `AS type ")"`, after `CAST "(" NULL`
    fn cast_type<'a>(&self, ts: &'a [Spanned]) -> Result<(Box<Expr>, &'a [Spanned]), ParseRefusal>
        ensures { Gives (λ x. (shown.expr x.0.value, token_list x.1.now)) result (read.at_depth self.now.depth read.cast_type (token_list ts.now)) }
    {
        match first(ts) {
            Some((Token::Key(Key::As), rest)) => {
                let (data_type, rest) = data_type(rest)?;
                closed_expr(self.alloc, Expr::CastNull(data_type), rest)
            }
            _ => Err(ParseRefusal::Syntax),
        }
    }

    /// `"(" NULL AS type ")"`, after `CAST`
    fn cast<'a>(&self, ts: &'a [Spanned]) -> Result<(Box<Expr>, &'a [Spanned]), ParseRefusal>
        ensures { Gives (λ x. (shown.expr x.0.value, token_list x.1.now)) result (read.at_depth self.now.depth read.cast (token_list ts.now)) }
    {
        match first(ts) {
            Some((Token::LeftParen, rest)) => match first(rest) {
                Some((Token::Key(Key::Null), rest)) => self.cast_type(rest),
                _ => Err(ParseRefusal::Syntax),
            },
            _ => Err(ParseRefusal::Syntax),
        }
    }
}

impl<
    N: Fn(Global, u8, Nonterminal, &[Spanned]) -> Result<(Tree, &[Spanned]), ParseRefusal>,
> Grammar<N> {
    /// A prim that begins with a key word, after that word
    fn word_prim<'a>(
        &self,
        word: Key,
        ts: &'a [Spanned],
    ) -> Result<(Box<Expr>, &'a [Spanned]), ParseRefusal>
        requires { Nests self.now.depth (N.pre self.now.nested) (N.post self.now.nested) }
        ensures { Gives (λ x. (shown.expr x.0.value, token_list x.1.now)) result (read.at_depth self.now.depth read.word_prim word (token_list ts.now)) }
    {
        match word {
            Key::Case => self.case(ts),
            Key::Count => self.count(ts),
            Key::Sum => self.aggregate(SetFunction::Sum, ts),
            Key::Avg => self.aggregate(SetFunction::Avg, ts),
            Key::Min => self.aggregate(SetFunction::Min, ts),
            Key::Max => self.aggregate(SetFunction::Max, ts),
            Key::Coalesce => self.coalesce(ts),
            Key::NullIf => self.null_if(ts),
            Key::Cast => self.cast(ts),
            _ => Err(ParseRefusal::Syntax),
        }
    }

    /// `query ")" | expr ")"`, after `"("`
    fn paren<'a>(&self, ts: &'a [Spanned]) -> Result<(Box<Expr>, &'a [Spanned]), ParseRefusal>
        requires { Nests self.now.depth (N.pre self.now.nested) (N.post self.now.nested) }
        ensures { Gives (λ x. (shown.expr x.0.value, token_list x.1.now)) result (read.at_depth self.now.depth read.paren (token_list ts.now)) }
    {
        if at_query(ts) {
            let (query, rest) = self.nested_query(ts)?;
            closed_expr(self.alloc, Expr::Scalar(query), rest)
        } else {
            let (operand, rest) = self.nested_expr(ts)?;
            closed_expr(self.alloc, Expr::Paren(operand), rest)
        }
    }

    /// A number, a string, a column, a bracket, or what begins with a key word
    fn prim<'a>(&self, ts: &'a [Spanned]) -> Result<(Box<Expr>, &'a [Spanned]), ParseRefusal>
        requires { Nests self.now.depth (N.pre self.now.nested) (N.post self.now.nested) }
        ensures { Gives (λ x. (shown.expr x.0.value, token_list x.1.now)) result (read.at_depth self.now.depth read.prim (token_list ts.now)) }
    {
        match first(ts) {
            Some((Token::Number(n), rest)) => found_expr(self.alloc, Expr::Number(*n), rest),
            Some((Token::Str(x), rest)) => string(self.alloc, x, rest),
            Some((Token::Name(name), rest)) => column_expr(self.alloc, name, rest),
            Some((Token::LeftParen, rest)) => self.paren(rest),
            Some((Token::Key(word), rest)) => self.word_prim(*word, rest),
            _ => Err(ParseRefusal::Syntax),
        }
    }

    /// `prim`, after its sign
    fn signed<'a>(
        &self,
        sign: Sign,
        ts: &'a [Spanned],
    ) -> Result<(Box<Expr>, &'a [Spanned]), ParseRefusal>
        requires { Nests self.now.depth (N.pre self.now.nested) (N.post self.now.nested) }
        ensures { Gives (λ x. (shown.expr x.0.value, token_list x.1.now)) result (read.at_depth self.now.depth read.signed sign (token_list ts.now)) }
    {
        let (operand, rest) = self.prim(ts)?;
        found_expr(self.alloc, Expr::Signed(sign, operand), rest)
    }

    /// `factor = [ "+" | "-" ] prim`
    fn factor<'a>(&self, ts: &'a [Spanned]) -> Result<(Box<Expr>, &'a [Spanned]), ParseRefusal>
        requires { Nests self.now.depth (N.pre self.now.nested) (N.post self.now.nested) }
        ensures { Gives (λ x. (shown.expr x.0.value, token_list x.1.now)) result (read.at_depth self.now.depth read.factor (token_list ts.now)) }
    {
        match first(ts) {
            Some((Token::Plus, rest)) => self.signed(Sign::Plus, rest),
            Some((Token::Minus, rest)) => self.signed(Sign::Minus, rest),
            _ => self.prim(ts),
        }
    }

    /// `factor`, after `*` or `/`
    fn multiplied<'a>(
        &self,
        left: Box<Expr>,
        op: MultiplicativeOp,
        ts: &'a [Spanned],
    ) -> Result<(Box<Expr>, &'a [Spanned]), ParseRefusal>
        requires { Nests self.now.depth (N.pre self.now.nested) (N.post self.now.nested) }
        ensures { Gives (λ x. (shown.expr x.0.value, token_list x.1.now)) result (read.at_depth self.now.depth read.multiplied (shown.expr left.value) op (token_list ts.now)) }
    {
        let (right, rest) = self.factor(ts)?;
        found_expr(self.alloc, Expr::Multiply(left, op, right), rest)
    }

    /// `term = factor { ( "*" | "/" ) factor }`
    fn term<'a>(&self, ts: &'a [Spanned]) -> Result<(Box<Expr>, &'a [Spanned]), ParseRefusal>
        requires { Nests self.now.depth (N.pre self.now.nested) (N.post self.now.nested) }
        ensures { Gives (λ x. (shown.expr x.0.value, token_list x.1.now)) result (read.at_depth self.now.depth read.term (token_list ts.now)) }
    {
        let (mut left, mut rest) = self.factor(ts)?;
        'factors: for _turn in 0..ts.len() {
            match multiplicative_at(rest) {
                None => return Ok((left, rest)),
                Some((op, after)) => {
                    let (next, after) = self.multiplied(left, op, after)?;
                    left = next;
                    rest = after;
                }
            }
        }
        Ok((left, rest))
    }

    /// `term`, after `+`, `-` or `||`
    fn added<'a>(
        &self,
        left: Box<Expr>,
        op: AdditiveOp,
        ts: &'a [Spanned],
    ) -> Result<(Box<Expr>, &'a [Spanned]), ParseRefusal>
        requires { Nests self.now.depth (N.pre self.now.nested) (N.post self.now.nested) }
        ensures { Gives (λ x. (shown.expr x.0.value, token_list x.1.now)) result (read.at_depth self.now.depth read.added (shown.expr left.value) op (token_list ts.now)) }
    {
        let (right, rest) = self.term(ts)?;
        found_expr(self.alloc, Expr::Add(left, op, right), rest)
    }

    /// `expr = term { ( "+" | "-" | "||" ) term }`
    pub fn sum<'a>(&self, ts: &'a [Spanned]) -> Result<(Box<Expr>, &'a [Spanned]), ParseRefusal>
        requires { Nests self.now.depth (N.pre self.now.nested) (N.post self.now.nested) }
        ensures { Gives (λ x. (shown.expr x.0.value, token_list x.1.now)) result (read.at_depth self.now.depth read.sum (token_list ts.now)) }
    {
        let (mut left, mut rest) = self.term(ts)?;
        'terms: for _turn in 0..ts.len() {
            match additive_at(rest) {
                None => return Ok((left, rest)),
                Some((op, after)) => {
                    let (next, after) = self.added(left, op, after)?;
                    left = next;
                    rest = after;
                }
            }
        }
        Ok((left, rest))
    }
}
