// What a block sees as it is written.
ghost use Rattle.std.specs.Prelude.{◌≡◌};
ghost use Rattle.qgm_translation.specs.Lay.{laying};
ghost use Rattle.qgm_build_terms.specs.Setting.{frame_in, outer_in, sources_in, told};
ghost use Rattle.qgm_build_terms.specs.Site.{sources_at};
ghost use Rattle.qgm_build_terms.specs.SoFar.{so_far};
ghost use Rattle.qgm_build_terms.specs.Written.{frame_of, map_of};

use crate::made::{Shared, Store};
use crate::seen::{Scopes, Seen};
use shared_types::Text;
use sql_value::SqlType;
use sqlite_items::Items;
use std::alloc::Global;

/// A table or a view of a schema, and how many columns it has.
#[derive(Drop)]
pub struct Named {
    pub name: Text,
    pub columns: usize,
}

/// The tables and views of a schema, of which the first of a name counts, and the schema.
#[derive(Clone, Copy)]
pub struct Names<'a> {
    pub named: &'a [Named],
}

/// What names stand for as boxes are made: beside the schema, the boxes that all share who name a table
/// or a view.
#[derive(Clone, Copy)]
pub struct Known<'a> {
    pub names: Names<'a>,
    pub shared: &'a [Shared],
}

/// What the expressions and the conditions of a block see: the types of the columns of quantifiers, by
/// their numbers, where the columns of its FROM are seen, and where those of the blocks round it.
#[derive(Clone, Copy)]
pub struct Setting<'a> {
    pub alloc: Global,
    pub known: Known<'a>,
    pub rows: &'a [Items<SqlType>],
    pub frame: &'a [Seen],
    pub outer: &'a Scopes<'a>,
}

/// What queries see as they are made into boxes, beside the scopes round them.
#[derive(Clone, Copy)]
pub struct Site<'a> {
    pub alloc: Global,
    pub known: Known<'a>,
    pub rows: &'a [Items<SqlType>],
}

/// What a query sees beside the boxes so far: the schema, and the blocks round it.
#[derive(Clone, Copy)]
pub struct Ground<'a> {
    pub alloc: Global,
    pub names: Names<'a>,
    pub outer: &'a Scopes<'a>,
}

/// What the subqueries of a block see beside the boxes so far: where the columns of its FROM are
/// seen, and what the block sees.
#[derive(Clone, Copy)]
pub struct Seat<'a> {
    pub ground: Ground<'a>,
    pub frame: &'a [Seen],
}

/// What is seen after the boxes so far.
pub fn site_of<'a>(g: &Ground<'a>, st: &'a Store) -> Site<'a>
    ensures sources { sources_at result ≡ laying (told g.now.names) (so_far st.now) }
    ensures rows { result.rows.now ≡ st.now.rows.items }
{
    let known = Known {
        names: g.names,
        shared: &st.shared,
    };
    Site {
        alloc: g.alloc,
        known,
        rows: &st.rows,
    }
}

/// What the expressions of a block see after the boxes so far.
pub fn setting_of<'a>(h: &Seat<'a>, st: &'a Store) -> Setting<'a>
    ensures sources { sources_in result ≡ laying (told h.now.ground.names) (so_far st.now) }
    ensures frame { frame_in result ≡ frame_of h.now.frame.now }
    ensures outer { outer_in result ≡ map_of h.now.ground.outer.now }
{
    let site = site_of(&h.ground, st);
    Setting {
        alloc: site.alloc,
        known: site.known,
        rows: site.rows,
        frame: h.frame,
        outer: h.ground.outer,
    }
}
