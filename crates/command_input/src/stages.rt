// The stages of reading: each reads a file, and hands what it holds to the next.
ghost use Rattle.std.specs.Prelude.{◌≡◌, ◌≢◌, ◌≤◌, None, IfOk, option_map};
ghost use Rattle.io_edge.specs.Outcome.{Comes, RoseIfFault};
ghost use Rattle.sql_ast.specs.Shown as shown;
ghost use Rattle.sql_catalog.specs.Catalog.{fault};
ghost use Rattle.sql_catalog.specs.Shown as catalogs;
ghost use Rattle.sql_faults.specs.Views.{view_refusal};
ghost use Rattle.qgm_translation_laws.specs.Buildable.{AreQueries};
ghost use Rattle.command_input.specs.declared.question.Request.TheVariants.{Refused};
ghost use Rattle.command_input.specs.declared.report.Report.TheVariants.{Usage};
ghost use Rattle.command_input.specs.Ready.{AreReady, IsChecked, IsRequestReady, IsRequestReadyOver};
ghost use Rattle.command_input.specs.Stages.{from_folder, from_query, from_schema, from_tables, request_end, with_views};

use crate::question::{Question, Request};
use crate::report::Report;
use crate::texts::{TextRefusal, Valid, read_catalog, read_query};
use csv_tables::{DataRefusal, load};
use io_edge::{Files, Interruption, fetch_file};
use row_bag::Tables;
use sql_catalog::Catalog;
use sql_check::{Views, check_views};
use sql_faults::ViewRefusal;
use std::alloc::Global;

/// The greatest number of bytes of a text.
const MAX_TEXT: usize = 65_536;

// Reads the tables of a valid query.
fn find_tables<F: Files>(
    alloc: Global,
    dir: &str,
    catalog: Catalog,
    views: Views,
    valid: Valid,
    files: &mut F,
) -> Result<Request, Interruption>
    requires ready { AreReady (catalogs.catalog catalog) views }
    requires checked { IsChecked (catalogs.catalog catalog) views (shown.query_text valid.query) valid.checked }
    ensures comes { Comes (F.told files.old) (F.told files.new) (λ fs. from_tables dir.now (catalogs.catalog catalog) (shown.query_text valid.query) fs) (request_end result) }
    ensures later { F.faults files.old ≤ F.faults files.new }
    ensures failed { RoseIfFault result (F.faults files.old) (F.faults files.new) }
    ensures line { IfOk result (λ found. found ≢ Refused Usage) }
    ensures ready { IfOk result (λ found. IsRequestReady found) }
{
    match load(alloc, &catalog, dir, files) {
        Ok(tables) => Ok(Request::Asked(Question {
            catalog,
            views,
            valid,
            tables,
        })),
        Err(DataRefusal::Refused { number, table, row }) => {
            Ok(Request::Refused(Report::DataRefused { number, table, row }))
        }
        Err(DataRefusal::ReadFault { name }) => Err(Interruption::ReadFault { name }),
        Err(DataRefusal::Memory) => Err(Interruption::Memory),
    }
}

// Reads the tables of a valid query, where there is a folder.
#[tactic(auto, unfolding(crate::specs::Stages::from_folder))]
fn find_folder<F: Files>(
    alloc: Global,
    dir: Option<&str>,
    catalog: Catalog,
    views: Views,
    valid: Valid,
    files: &mut F,
) -> Result<Request, Interruption>
    requires ready { AreReady (catalogs.catalog catalog) views }
    requires checked { IsChecked (catalogs.catalog catalog) views (shown.query_text valid.query) valid.checked }
    ensures comes { Comes (F.told files.old) (F.told files.new) (λ fs. from_folder (option_map (λ d. d.now) dir.entry) (catalogs.catalog catalog) (shown.query_text valid.query) fs) (request_end result) }
    ensures later { F.faults files.old ≤ F.faults files.new }
    ensures failed { RoseIfFault result (F.faults files.old) (F.faults files.new) }
    ensures line { IfOk result (λ found. found ≢ Refused Usage) }
    ensures ready { IfOk result (λ found. IsRequestReadyOver (option_map (λ d. d.now) dir.entry) found) }
{
    match dir {
        Some(dir) => find_tables(alloc, dir, catalog, views, valid, files),
        None => Ok(Request::Asked(Question {
            catalog,
            views,
            valid,
            tables: Tables::new(alloc),
        })),
    }
}

// Reads the query, and goes on to the tables.
fn find_query<F: Files>(
    alloc: Global,
    query: &str,
    dir: Option<&str>,
    catalog: Catalog,
    views: Views,
    files: &mut F,
) -> Result<Request, Interruption>
    requires ready { AreReady (catalogs.catalog catalog) views }
    ensures comes { Comes (F.told files.old) (F.told files.new) (λ fs. from_query query.now (option_map (λ d. d.now) dir.entry) (catalogs.catalog catalog) fs) (request_end result) }
    ensures later { F.faults files.old ≤ F.faults files.new }
    ensures failed { RoseIfFault result (F.faults files.old) (F.faults files.new) }
    ensures line { IfOk result (λ found. found ≢ Refused Usage) }
    ensures ready { IfOk result (λ found. IsRequestReadyOver (option_map (λ d. d.now) dir.entry) found) }
{
    let text = fetch_file(alloc, files, query, MAX_TEXT)?;
    match read_query(alloc, &catalog, &views, &text) {
        Ok(valid) => find_folder(alloc, dir, catalog, views, valid, files),
        Err(TextRefusal::Number(number)) => Ok(Request::Refused(Report::QueryRefused(number))),
        Err(TextRefusal::Memory) => Err(Interruption::Memory),
    }
}

// Checks the views of a catalog, and goes on to the query.
fn find_views<F: Files>(
    alloc: Global,
    query: &str,
    dir: Option<&str>,
    catalog: Catalog,
    files: &mut F,
) -> Result<Request, Interruption>
    requires valid { fault (catalogs.catalog catalog) ≡ None }
    requires queries { AreQueries (catalogs.catalog catalog).views }
    ensures comes { Comes (F.told files.old) (F.told files.new) (λ fs. with_views query.now (option_map (λ d. d.now) dir.entry) (catalogs.catalog catalog) fs (view_refusal (catalogs.catalog catalog))) (request_end result) }
    ensures later { F.faults files.old ≤ F.faults files.new }
    ensures failed { RoseIfFault result (F.faults files.old) (F.faults files.new) }
    ensures line { IfOk result (λ found. found ≢ Refused Usage) }
    ensures ready { IfOk result (λ found. IsRequestReadyOver (option_map (λ d. d.now) dir.entry) found) }
{
    match check_views(alloc, &catalog) {
        Ok(views) => find_query(alloc, query, dir, catalog, views, files),
        Err(ViewRefusal::Refused { view, number }) => {
            Ok(Request::Refused(Report::ViewRefused { view, number }))
        }
        Err(ViewRefusal::Memory) => Err(Interruption::Memory),
    }
}

/// Reads the schema, the query and the tables, files of these names and in this directory: a valid
/// query over tables that fit, or the first refusal. Without a directory no table is read, and the
/// query is over none. It fails where a read fails, with its name, or where memory runs out.
pub fn find_question<F: Files>(
    alloc: Global,
    schema: &str,
    query: &str,
    dir: Option<&str>,
    files: &mut F,
) -> Result<Request, Interruption>
    ensures comes { Comes (F.told files.old) (F.told files.new) (λ fs. from_schema schema.now query.now (option_map (λ d. d.now) dir.entry) fs) (request_end result) }
    ensures later { F.faults files.old ≤ F.faults files.new }
    ensures failed { RoseIfFault result (F.faults files.old) (F.faults files.new) }
    ensures line { IfOk result (λ found. found ≢ Refused Usage) }
    ensures ready { IfOk result (λ found. IsRequestReadyOver (option_map (λ d. d.now) dir.entry) found) }
{
    let text = fetch_file(alloc, files, schema, MAX_TEXT)?;
    match read_catalog(alloc, &text) {
        Ok(catalog) => find_views(alloc, query, dir, catalog, files),
        Err(TextRefusal::Number(number)) => Ok(Request::Refused(Report::SchemaRefused(number))),
        Err(TextRefusal::Memory) => Err(Interruption::Memory),
    }
}
