// The grammar at one depth of brackets.
ghost use Rattle.sql_ast.specs.Shown as shown;
ghost use Rattle.sql_parser.specs.Nests.{Nests};
ghost use Rattle.sql_parser.specs.Read as read;
ghost use Rattle.sql_parser.specs.Words.{Gives};
ghost use Rattle.sql_text.specs.Tokens.{token_list};

use crate::nested::{Nonterminal, Tree};
use crate::refusal::ParseRefusal;
use sql_ast::{Cond, Expr, Query, TableRef};
use sql_text::Spanned;
use std::alloc::Global;

/// The reader of what may stand in brackets or in CASE, to be called with `depth`: so many brackets
/// may be open within. The methods read one line of the grammar each; a chain or a list is read by a
/// loop.
#[derive(Clone, Copy)]
pub(crate) struct Grammar<N> {
    pub alloc: Global,
    pub depth: u8,
    pub nested: N,
}

impl<
    N: Fn(Global, u8, Nonterminal, &[Spanned]) -> Result<(Tree, &[Spanned]), ParseRefusal>,
> Grammar<N> {
    /// An expression within brackets.
    pub fn nested_expr<'a>(
        &self,
        ts: &'a [Spanned],
    ) -> Result<(Box<Expr>, &'a [Spanned]), ParseRefusal>
        requires { Nests self.now.depth (N.pre self.now.nested) (N.post self.now.nested) }
        ensures { Gives (λ x. (shown.expr x.0.value, token_list x.1.now)) result (read.expr self.now.depth (token_list ts.now)) }
    {
        let (tree, rest) = (self.nested)(self.alloc, self.depth, Nonterminal::Expr, ts)?;
        match tree {
            Tree::Expr(tree) => Ok((tree, rest)),
            Tree::Cond(_) | Tree::Query(_) | Tree::Table(_) => unreachable!(),
        }
    }

    /// A condition within brackets.
    pub fn nested_cond<'a>(
        &self,
        ts: &'a [Spanned],
    ) -> Result<(Box<Cond>, &'a [Spanned]), ParseRefusal>
        requires { Nests self.now.depth (N.pre self.now.nested) (N.post self.now.nested) }
        ensures { Gives (λ x. (shown.cond x.0.value, token_list x.1.now)) result (read.cond self.now.depth (token_list ts.now)) }
    {
        let (tree, rest) = (self.nested)(self.alloc, self.depth, Nonterminal::Cond, ts)?;
        match tree {
            Tree::Cond(tree) => Ok((tree, rest)),
            Tree::Expr(_) | Tree::Query(_) | Tree::Table(_) => unreachable!(),
        }
    }

    /// A query within brackets.
    pub fn nested_query<'a>(
        &self,
        ts: &'a [Spanned],
    ) -> Result<(Box<Query>, &'a [Spanned]), ParseRefusal>
        requires { Nests self.now.depth (N.pre self.now.nested) (N.post self.now.nested) }
        ensures { Gives (λ x. (shown.query x.0.value, token_list x.1.now)) result (read.query self.now.depth (token_list ts.now)) }
    {
        let (tree, rest) = (self.nested)(self.alloc, self.depth, Nonterminal::Query, ts)?;
        match tree {
            Tree::Query(tree) => Ok((tree, rest)),
            Tree::Expr(_) | Tree::Cond(_) | Tree::Table(_) => unreachable!(),
        }
    }

    /// A table with its joins, within brackets.
    pub fn nested_table<'a>(
        &self,
        ts: &'a [Spanned],
    ) -> Result<(Box<TableRef>, &'a [Spanned]), ParseRefusal>
        requires { Nests self.now.depth (N.pre self.now.nested) (N.post self.now.nested) }
        ensures { Gives (λ x. (shown.table x.0.value, token_list x.1.now)) result (read.table self.now.depth (token_list ts.now)) }
    {
        let (tree, rest) = (self.nested)(self.alloc, self.depth, Nonterminal::Table, ts)?;
        match tree {
            Tree::Table(tree) => Ok((tree, rest)),
            Tree::Expr(_) | Tree::Cond(_) | Tree::Query(_) => unreachable!(),
        }
    }
}
