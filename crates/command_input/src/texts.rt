// From the two texts to a catalog and a checked query.
ghost use Rattle.std.specs.Prelude.{◌≡◌, true, IfOk};
ghost use Rattle.qgm_translation_laws.specs.Buildable.{AreQueries};
ghost use Rattle.sql_faults.specs.Views.{fault};
ghost use Rattle.sql_ast.specs.Grammatical.{are_statements, is_query};
ghost use Rattle.sql_ast.specs.Shown as shown;
ghost use Rattle.sql_catalog.specs.Shown as catalogs;
ghost use Rattle.sql_parser.specs.ReadSchema.{schema_tree};
ghost use Rattle.sql_parser.specs.ReadText.{query_tree};
ghost use Rattle.command_input.specs.Ready.{AreReady, IsChecked};
ghost use Rattle.command_input.specs.Texts.{Gives, catalog_of, query_of, refused_by, schema_of, spans_of, tree_of, valid_query};
ghost use Rattle.command_input.specs.declared.texts.TextRefusal.TheVariants.{Memory};

use shared_types::OutOfMemory;
use sql_ast::{QueryText, Schema};
use sql_catalog::{Catalog, SchemaRefusal, build};
use sql_check::{Checked, Views, check};
use sql_faults::QueryRefusal;
use sql_parser::{ParseRefusal, parse_query, parse_schema};
use sql_text::{LexRefusal, Spanned, lex};
use sqlite_items::Items;
use std::alloc::Global;

/// Why a text is refused.
#[derive(Clone, Copy, Debug, PartialEq, Eq)]
pub enum TextRefusal {
    /// By the rule of this number.
    Number(u8),
    /// Memory ran out. It says nothing of the text.
    Memory,
}

impl From<OutOfMemory> for TextRefusal {
    ghost from_gives = { λ _ e. e ≡ Memory };

    fn from(_: OutOfMemory) -> Self {
        TextRefusal::Memory
    }
}

// The number of a text that is too long or too deep.
const OVER_LIMIT: u8 = 5;

// The number of a text that no tree spells.
const SYNTAX: u8 = 4;

// The tokens of a text, whose bytes are none where they are too many.
#[tactic(auto, unfolding(crate::specs::Texts::spans_of))]
fn read_spans(alloc: Global, text: &Option<Items<u8>>) -> Result<Items<Spanned>, TextRefusal>
    ensures { Gives (λ spans. spans) result (spans_of text.now) }
{
    let Some(bytes) = text else {
        return Err(TextRefusal::Number(OVER_LIMIT));
    };
    match lex(alloc, bytes.as_slice()) {
        Ok(spans) => Ok(Items::from_vec(spans)),
        Err(LexRefusal::BadCharacter) => Err(TextRefusal::Number(1)),
        Err(LexRefusal::Unterminated) => Err(TextRefusal::Number(2)),
        Err(LexRefusal::NumberTooLarge) => Err(TextRefusal::Number(3)),
        Err(LexRefusal::Memory) => Err(TextRefusal::Memory),
    }
}

// The schema that these tokens spell.
fn schema_spelled(alloc: Global, spans: &[Spanned]) -> Result<Schema, TextRefusal>
    ensures gives { Gives shown.schema result (tree_of schema_tree spans.now) }
    ensures grammar { IfOk result (λ x. are_statements (shown.schema x).statements ≡ true) }
{
    match parse_schema(alloc, spans) {
        Ok(schema) => Ok(schema),
        Err(ParseRefusal::OverLimit) => Err(TextRefusal::Number(OVER_LIMIT)),
        Err(ParseRefusal::Syntax) => Err(TextRefusal::Number(SYNTAX)),
        Err(ParseRefusal::Memory) => Err(TextRefusal::Memory),
    }
}

// The tree of a schema's text.
#[tactic(auto, unfolding(crate::specs::Texts::schema_of))]
fn read_schema(alloc: Global, text: &Option<Items<u8>>) -> Result<Schema, TextRefusal>
    ensures gives { Gives shown.schema result (schema_of text.now) }
    ensures grammar { IfOk result (λ x. are_statements (shown.schema x).statements ≡ true) }
{
    let spans = read_spans(alloc, text)?;
    schema_spelled(alloc, spans.as_slice())
}

/// The catalog of a schema's text, whose bytes are none where they are too many. The bodies of its
/// views are of the grammar.
#[tactic(auto, unfolding(crate::specs::Texts::catalog_of))]
pub fn read_catalog(alloc: Global, text: &Option<Items<u8>>) -> Result<Catalog, TextRefusal>
    ensures gives { Gives catalogs.catalog result (catalog_of text.now) }
    ensures queries { IfOk result (λ c. AreQueries (catalogs.catalog c).views) }
{
    let schema = read_schema(alloc, text)?;
    match build(alloc, schema) {
        Ok(catalog) => Ok(catalog),
        Err(SchemaRefusal::UnknownTable) => Err(TextRefusal::Number(6)),
        Err(SchemaRefusal::RecursiveView) => Err(TextRefusal::Number(7)),
        Err(SchemaRefusal::DuplicateName) => Err(TextRefusal::Number(8)),
        Err(SchemaRefusal::BadKey) => Err(TextRefusal::Number(9)),
        Err(SchemaRefusal::Limits) => Err(TextRefusal::Number(10)),
        Err(SchemaRefusal::Memory) => Err(TextRefusal::Memory),
    }
}

// The query that these tokens spell.
fn query_spelled(alloc: Global, spans: &[Spanned]) -> Result<QueryText, TextRefusal>
    ensures gives { Gives shown.query_text result (tree_of query_tree spans.now) }
    ensures grammar { IfOk result (λ x. is_query (shown.query_text x).query ≡ true) }
{
    match parse_query(alloc, spans) {
        Ok(query) => Ok(query),
        Err(ParseRefusal::OverLimit) => Err(TextRefusal::Number(OVER_LIMIT)),
        Err(ParseRefusal::Syntax) => Err(TextRefusal::Number(SYNTAX)),
        Err(ParseRefusal::Memory) => Err(TextRefusal::Memory),
    }
}

// The tree of a query's text.
#[tactic(auto, unfolding(crate::specs::Texts::query_of))]
fn read_query_text(alloc: Global, text: &Option<Items<u8>>) -> Result<QueryText, TextRefusal>
    ensures gives { Gives shown.query_text result (query_of text.now) }
    ensures grammar { IfOk result (λ x. is_query (shown.query_text x).query ≡ true) }
{
    let spans = read_spans(alloc, text)?;
    query_spelled(alloc, spans.as_slice())
}

/// A valid query.
pub struct Valid {
    /// As it is written.
    pub query: QueryText,
    /// With its names resolved.
    pub checked: Checked,
}

// By hand, so that each function that ends early with one cites this.
impl Drop for Valid {
    fn drop(self) {
        let Valid { query, checked } = self;
        drop(query);
        drop(checked);
    }
}

impl Valid {
    /// The query with its names resolved. The text's tree goes.
    pub fn into_checked(self) -> Checked
        ensures { result ≡ self.checked }
    {
        let Valid { query, checked } = self;
        drop(query);
        checked
    }
}

// A query with its names resolved, else the number of its fault.
fn checked(
    alloc: Global,
    query: &QueryText,
    catalog: &Catalog,
    views: &Views,
) -> Result<Checked, TextRefusal>
    requires ready { AreReady (catalogs.catalog catalog.now) views.now }
    requires grammar { is_query (shown.query_text query.now).query ≡ true }
    ensures gives { Gives (λ _. shown.query_text query.now) result (refused_by (fault (catalogs.catalog catalog.now) (shown.query_text query.now)) (shown.query_text query.now)) }
    ensures checked { IfOk result (λ x. IsChecked (catalogs.catalog catalog.now) views.now (shown.query_text query.now) x) }
{
    match check(alloc, query, catalog, views) {
        Ok(checked) => Ok(checked),
        Err(QueryRefusal::UnknownTable) => Err(TextRefusal::Number(6)),
        Err(QueryRefusal::DuplicateRange) => Err(TextRefusal::Number(7)),
        Err(QueryRefusal::UnknownColumn) => Err(TextRefusal::Number(8)),
        Err(QueryRefusal::Ambiguous) => Err(TextRefusal::Number(9)),
        Err(QueryRefusal::TypeMismatch) => Err(TextRefusal::Number(10)),
        Err(QueryRefusal::Degree) => Err(TextRefusal::Number(11)),
        Err(QueryRefusal::Grouping) => Err(TextRefusal::Number(12)),
        Err(QueryRefusal::AggregatePlace) => Err(TextRefusal::Number(13)),
        Err(QueryRefusal::OrderColumn) => Err(TextRefusal::Number(14)),
        Err(QueryRefusal::Memory) => Err(TextRefusal::Memory),
    }
}

/// The valid query of a query's text, whose bytes are none where they are too many.
#[tactic(auto, unfolding(crate::specs::Texts::valid_query))]
pub fn read_query(
    alloc: Global,
    catalog: &Catalog,
    views: &Views,
    text: &Option<Items<u8>>,
) -> Result<Valid, TextRefusal>
    requires ready { AreReady (catalogs.catalog catalog.now) views.now }
    ensures gives { Gives (λ v. shown.query_text v.query) result (valid_query (catalogs.catalog catalog.now) text.now) }
    ensures checked { IfOk result (λ v. IsChecked (catalogs.catalog catalog.now) views.now (shown.query_text v.query) v.checked) }
{
    let query = read_query_text(alloc, text)?;
    let checked = checked(alloc, &query, catalog, views)?;
    Ok(Valid { query, checked })
}
