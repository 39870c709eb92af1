// The question of `gen`: a fixed query over a fixed schema, and tables that are made from a number.
ghost use Rattle.std.specs.Prelude.{◌≡◌, ◌≢◌, ◌<◌, ◌^◌, IfOk, None, Ok, Some};
ghost use Rattle.sql_catalog.specs.Catalog.{fault};
ghost use Rattle.sql_catalog.specs.Shown as catalogs;
ghost use Rattle.sql_faults.specs.Views.{view_refusal};
ghost use Rattle.qgm_translation_laws.specs.Buildable.{AreQueries};
ghost use Rattle.command_input.specs.declared.question.Request.TheVariants.{Refused};
ghost use Rattle.command_input.specs.declared.report.Report.TheVariants.{Usage};
ghost use Rattle.command_input.specs.Ready.{AreReady, IsRequestReady};
ghost use Rattle.command_input.specs.Generated.{generated, made_query, made_views, query_text, schema_text};
ghost use Rattle.command_input.specs.Questions.{request_of};
ghost use Rattle.command_input.specs.Texts.{catalog_of, valid_query};

use crate::question::{Question, Request};
use crate::report::Report;
use crate::texts::{TextRefusal, read_catalog, read_query};
use generated_input::made;
use shared_types::OutOfMemory;
use sql_catalog::Catalog;
use sql_check::{Views, check_views};
use sql_faults::ViewRefusal;
use sqlite_items::Items;
use std::alloc::Global;

const SCHEMA: &str =
    "CREATE TABLE DEPT (DNO INTEGER PRIMARY KEY, BLDG VARCHAR(4), BUDGET INTEGER);\nCREATE TABLE EMP (ENO INTEGER PRIMARY KEY, DNO INTEGER, BLDG VARCHAR(4), SAL INTEGER);\n";

const QUERY: &str =
    "SELECT D.DNO FROM DEPT D WHERE D.BUDGET > 499 AND D.BUDGET > (SELECT COUNT(*) FROM EMP E WHERE E.BLDG = D.BLDG)\n";

// The bytes of a text.
fn bytes(alloc: Global, text: &str) -> Result<Option<Items<u8>>, OutOfMemory>
    ensures { IfOk result (λ bytes. bytes ≡ Some text.now) }
{
    Ok(Some(Items::from_vec(text.as_bytes().to_vec(alloc)?)))
}

// The valid query over the tables that are made, or the number that refuses it.
fn question(
    alloc: Global,
    seed: u64,
    rows: u64,
    catalog: Catalog,
    views: Views,
) -> Result<Request, OutOfMemory>
    requires seed { seed < 2147483648 }
    requires rows { rows < 2 ^ 60 }
    requires ready { AreReady (catalogs.catalog catalog) views }
    requires fixed { catalog_of (Some schema_text) ≡ Ok (catalogs.catalog catalog) }
    ensures found { IfOk result (λ found. request_of found ≡ made_query seed rows (catalogs.catalog catalog) (valid_query (catalogs.catalog catalog) (Some query_text))) }
    ensures line { IfOk result (λ found. found ≢ Refused Usage) }
    ensures ready { IfOk result (λ found. IsRequestReady found) }
{
    let text = bytes(alloc, QUERY)?;
    match read_query(alloc, &catalog, &views, &text) {
        Ok(valid) => Ok(Request::Asked(Question {
            catalog,
            views,
            valid,
            tables: made(alloc, seed, rows)?,
        })),
        Err(TextRefusal::Number(number)) => Ok(Request::Refused(Report::QueryRefused(number))),
        Err(TextRefusal::Memory) => Err(OutOfMemory),
    }
}

// The question over the views of a catalog, or the first view that isn't valid.
fn question_over(
    alloc: Global,
    seed: u64,
    rows: u64,
    catalog: Catalog,
) -> Result<Request, OutOfMemory>
    requires seed { seed < 2147483648 }
    requires rows { rows < 2 ^ 60 }
    requires valid { fault (catalogs.catalog catalog) ≡ None }
    requires queries { AreQueries (catalogs.catalog catalog).views }
    requires fixed { catalog_of (Some schema_text) ≡ Ok (catalogs.catalog catalog) }
    ensures found { IfOk result (λ found. request_of found ≡ made_views seed rows (catalogs.catalog catalog) (view_refusal (catalogs.catalog catalog))) }
    ensures line { IfOk result (λ found. found ≢ Refused Usage) }
    ensures ready { IfOk result (λ found. IsRequestReady found) }
{
    match check_views(alloc, &catalog) {
        Ok(views) => question(alloc, seed, rows, catalog, views),
        Err(ViewRefusal::Refused { view, number }) => {
            Ok(Request::Refused(Report::ViewRefused { view, number }))
        }
        Err(ViewRefusal::Memory) => Err(OutOfMemory),
    }
}

/// The question of a seed and a number of rows: the fixed query over the fixed schema, and the tables
/// that are made. It reads no file, and fails only for want of memory.
#[tactic(auto, unfolding(crate::specs::Generated::generated))]
pub fn generated(alloc: Global, seed: u64, rows: u64) -> Result<Request, OutOfMemory>
    requires seed { seed < 2147483648 }
    requires rows { rows < 2 ^ 60 }
    ensures found { IfOk result (λ found. request_of found ≡ generated seed rows) }
    ensures line { IfOk result (λ found. found ≢ Refused Usage) }
    ensures ready { IfOk result (λ found. IsRequestReady found) }
{
    let text = bytes(alloc, SCHEMA)?;
    match read_catalog(alloc, &text) {
        Ok(catalog) => question_over(alloc, seed, rows, catalog),
        Err(TextRefusal::Number(number)) => Ok(Request::Refused(Report::SchemaRefused(number))),
        Err(TextRefusal::Memory) => Err(OutOfMemory),
    }
}
