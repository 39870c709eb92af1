// CASE (SQL-92, 6.9).
ghost use Rattle.std.specs.Prelude.{◌≡◌, ◌∷◌, false, IfSome, IfNone};
ghost use Rattle.sql_ast.specs.Shown as shown;
ghost use Rattle.sql_ast.specs.Syntax as s;
ghost use Rattle.sql_parser.specs.Nests.{Nests};
ghost use Rattle.sql_parser.specs.Read as read;
ghost use Rattle.sql_parser.specs.Words as words;
ghost use Rattle.sql_parser.specs.Words.{Gives};
ghost use Rattle.sql_text.specs.Tokens.{token_list};
ghost use Rattle.sql_text.specs.declared.key.Key.TheVariants as k;
ghost use Rattle.sql_text.specs.declared.token.Token.TheVariants as t;

use crate::boxes::{boxed, ended_expr, push_boxed};
use crate::grammar::Grammar;
use crate::nested::{Nonterminal, Tree};
use crate::refusal::ParseRefusal;
use crate::word::first;
use sql_ast::{Arm, Choice, Cond, Expr, Otherwise, Res};
use sql_text::{Key, Spanned, Token};
use sqlite_items::Items;
use std::alloc::Global;

/// The tokens after `WHEN`.
fn after_when(ts: &[Spanned]) -> Option<&[Spanned]>
    ensures found { IfSome result (λ rest. token_list ts.now ≡ t.Key k.When ∷ token_list rest.now) }
    ensures none { IfNone result (read.starts_when (token_list ts.now) ≡ false) }
{
    match first(ts) {
        Some((Token::Key(Key::When), rest)) => Some(rest),
        _ => None,
    }
}

/// `WHEN cond THEN res`, in a box, and the tokens after it
fn found_arm(
    alloc: Global,
    when: Box<Cond>,
    then: Res,
    rest: &[Spanned],
) -> Result<(Box<Arm>, &[Spanned]), ParseRefusal>
    ensures { Gives (λ x. ((shown.cond x.0.value.when, shown.res x.0.value.then), token_list x.1.now)) result (words.found {A = s.Cond × s.Res} (shown.cond when.value, shown.res then) (token_list rest.now)) }
{
    let when = Box::into_inner(when);
    Ok((boxed(alloc, Arm { when, then })?, rest))
}

/// `WHEN expr THEN res`, in a box, and the tokens after it
fn found_choice(
    alloc: Global,
    when: Box<Expr>,
    then: Res,
    rest: &[Spanned],
) -> Result<(Box<Choice>, &[Spanned]), ParseRefusal>
    ensures { Gives (λ x. ((shown.expr x.0.value.when, shown.res x.0.value.then), token_list x.1.now)) result (words.found {A = s.Expr × s.Res} (shown.expr when.value, shown.res then) (token_list rest.now)) }
{
    let when = Box::into_inner(when);
    Ok((boxed(alloc, Choice { when, then })?, rest))
}

impl<
    N: Fn(Global, u8, Nonterminal, &[Spanned]) -> Result<(Tree, &[Spanned]), ParseRefusal>,
> Grammar<N> {
    /// `res = expr | NULL`
    fn res<'a>(&self, ts: &'a [Spanned]) -> Result<(Res, &'a [Spanned]), ParseRefusal>
        requires { Nests self.now.depth (N.pre self.now.nested) (N.post self.now.nested) }
        ensures { Gives (λ x. (shown.res x.0, token_list x.1.now)) result (read.at_depth self.now.depth read.res (token_list ts.now)) }
    {
        match first(ts) {
            Some((Token::Key(Key::Null), rest)) => Ok((Res::Null, rest)),
            _ => {
                let (value, rest) = self.nested_expr(ts)?;
                Ok((Res::Value(value), rest))
            }
        }
    }

    /// `THEN res`, after `WHEN cond`
    fn then_arm<'a>(
        &self,
        when: Box<Cond>,
        ts: &'a [Spanned],
    ) -> Result<(Box<Arm>, &'a [Spanned]), ParseRefusal>
        requires { Nests self.now.depth (N.pre self.now.nested) (N.post self.now.nested) }
        ensures { Gives (λ x. ((shown.cond x.0.value.when, shown.res x.0.value.then), token_list x.1.now)) result (read.then_res (read.expr self.now.depth) (read.cond self.now.depth) (read.query self.now.depth) (read.table self.now.depth) (shown.cond when.value) (token_list ts.now)) }
    {
        match first(ts) {
            Some((Token::Key(Key::Then), rest)) => {
                let (then, rest) = self.res(rest)?;
                found_arm(self.alloc, when, then, rest)
            }
            _ => Err(ParseRefusal::Syntax),
        }
    }

    /// `THEN res`, after `WHEN expr`
    fn then_choice<'a>(
        &self,
        when: Box<Expr>,
        ts: &'a [Spanned],
    ) -> Result<(Box<Choice>, &'a [Spanned]), ParseRefusal>
        requires { Nests self.now.depth (N.pre self.now.nested) (N.post self.now.nested) }
        ensures { Gives (λ x. ((shown.expr x.0.value.when, shown.res x.0.value.then), token_list x.1.now)) result (read.then_res (read.expr self.now.depth) (read.cond self.now.depth) (read.query self.now.depth) (read.table self.now.depth) (shown.expr when.value) (token_list ts.now)) }
    {
        match first(ts) {
            Some((Token::Key(Key::Then), rest)) => {
                let (then, rest) = self.res(rest)?;
                found_choice(self.alloc, when, then, rest)
            }
            _ => Err(ParseRefusal::Syntax),
        }
    }

    /// `expr THEN res`, after `WHEN`
    fn choice<'a>(&self, ts: &'a [Spanned]) -> Result<(Box<Choice>, &'a [Spanned]), ParseRefusal>
        requires { Nests self.now.depth (N.pre self.now.nested) (N.post self.now.nested) }
        ensures { Gives (λ x. ((shown.expr x.0.value.when, shown.res x.0.value.then), token_list x.1.now)) result (read.at_depth self.now.depth read.choice (token_list ts.now)) }
    {
        let (when, rest) = self.nested_expr(ts)?;
        self.then_choice(when, rest)
    }

    /// `WHEN expr THEN res { WHEN expr THEN res }`
    fn choices<'a>(&self, ts: &'a [Spanned]) -> Result<(Items<Choice>, &'a [Spanned]), ParseRefusal>
        requires { Nests self.now.depth (N.pre self.now.nested) (N.post self.now.nested) }
        ensures { Gives (λ x. (shown.choice_list x.0, token_list x.1.now)) result (read.at_depth self.now.depth read.choices (token_list ts.now)) }
    {
        let Some(after) = after_when(ts) else {
            return Err(ParseRefusal::Syntax);
        };
        let (first, after) = self.choice(after)?;
        let mut choices = Items::new(self.alloc);
        push_boxed(&mut choices, first)?;
        let mut rest = after;
        'choices: for _turn in 0..after.len() {
            match after_when(rest) {
                None => return Ok((choices, rest)),
                Some(next) => {
                    let (item, next) = self.choice(next)?;
                    push_boxed(&mut choices, item)?;
                    rest = next;
                }
            }
        }
        Ok((choices, rest))
    }

    /// `[ ELSE res ]`
    fn otherwise<'a>(&self, ts: &'a [Spanned]) -> Result<(Otherwise, &'a [Spanned]), ParseRefusal>
        requires { Nests self.now.depth (N.pre self.now.nested) (N.post self.now.nested) }
        ensures { Gives (λ x. (shown.otherwise x.0, token_list x.1.now)) result (read.at_depth self.now.depth read.otherwise (token_list ts.now)) }
    {
        match first(ts) {
            Some((Token::Key(Key::Else), rest)) => {
                let (value, rest) = self.res(rest)?;
                Ok((Otherwise::Else(value), rest))
            }
            _ => Ok((Otherwise::Absent, ts)),
        }
    }

    /// `expr { WHEN expr THEN res } [ ELSE res ] END`, with one choice at least
    #[tactic(auto, using(sql_ast::specs::Shown::lists))]
    fn simple<'a>(&self, ts: &'a [Spanned]) -> Result<(Box<Expr>, &'a [Spanned]), ParseRefusal>
        requires { Nests self.now.depth (N.pre self.now.nested) (N.post self.now.nested) }
        ensures { Gives (λ x. (shown.expr x.0.value, token_list x.1.now)) result (read.at_depth self.now.depth read.simple (token_list ts.now)) }
    {
        let (operand, rest) = self.nested_expr(ts)?;
        let (choices, rest) = self.choices(rest)?;
        let (otherwise, rest) = self.otherwise(rest)?;
        ended_expr(self.alloc, Expr::Simple(operand, choices, otherwise), rest)
    }
}

impl<
    N: Fn(Global, u8, Nonterminal, &[Spanned]) -> Result<(Tree, &[Spanned]), ParseRefusal>,
> Grammar<N> {
    /// `cond THEN res`, after `WHEN`
    fn arm<'a>(&self, ts: &'a [Spanned]) -> Result<(Box<Arm>, &'a [Spanned]), ParseRefusal>
        requires { Nests self.now.depth (N.pre self.now.nested) (N.post self.now.nested) }
        ensures { Gives (λ x. ((shown.cond x.0.value.when, shown.res x.0.value.then), token_list x.1.now)) result (read.at_depth self.now.depth read.arm (token_list ts.now)) }
    {
        let (when, rest) = self.nested_cond(ts)?;
        self.then_arm(when, rest)
    }

    /// `WHEN cond THEN res { WHEN cond THEN res }`
    fn arms<'a>(&self, ts: &'a [Spanned]) -> Result<(Items<Arm>, &'a [Spanned]), ParseRefusal>
        requires { Nests self.now.depth (N.pre self.now.nested) (N.post self.now.nested) }
        ensures { Gives (λ x. (shown.arm_list x.0, token_list x.1.now)) result (read.at_depth self.now.depth read.arms (token_list ts.now)) }
    {
        let Some(after) = after_when(ts) else {
            return Err(ParseRefusal::Syntax);
        };
        let (first, after) = self.arm(after)?;
        let mut arms = Items::new(self.alloc);
        push_boxed(&mut arms, first)?;
        let mut rest = after;
        'arms: for _turn in 0..after.len() {
            match after_when(rest) {
                None => return Ok((arms, rest)),
                Some(next) => {
                    let (item, next) = self.arm(next)?;
                    push_boxed(&mut arms, item)?;
                    rest = next;
                }
            }
        }
        Ok((arms, rest))
    }

    /// `{ WHEN cond THEN res } [ ELSE res ] END`, with one arm at least
    #[tactic(auto, using(sql_ast::specs::Shown::lists))]
    fn searched<'a>(&self, ts: &'a [Spanned]) -> Result<(Box<Expr>, &'a [Spanned]), ParseRefusal>
        requires { Nests self.now.depth (N.pre self.now.nested) (N.post self.now.nested) }
        ensures { Gives (λ x. (shown.expr x.0.value, token_list x.1.now)) result (read.at_depth self.now.depth read.searched (token_list ts.now)) }
    {
        let (arms, rest) = self.arms(ts)?;
        let (otherwise, rest) = self.otherwise(rest)?;
        ended_expr(self.alloc, Expr::Searched(arms, otherwise), rest)
    }

    /// What follows `CASE`
    pub fn case<'a>(&self, ts: &'a [Spanned]) -> Result<(Box<Expr>, &'a [Spanned]), ParseRefusal>
        requires { Nests self.now.depth (N.pre self.now.nested) (N.post self.now.nested) }
        ensures { Gives (λ x. (shown.expr x.0.value, token_list x.1.now)) result (read.at_depth self.now.depth read.case (token_list ts.now)) }
    {
        match first(ts) {
            Some((Token::Key(Key::When), _)) => self.searched(ts),
            _ => self.simple(ts),
        }
    }
}
