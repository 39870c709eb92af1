// What cases are run over, and runs of the command over it.
ghost use Rattle.std.specs.Prelude.{◌≡◌, ◌<◌};

use io_edge::{Entry, MemFiles, MemSink};
use qgm_app::run_command;
use std::alloc::{AllocError, Global};
use std::sync::ledger::{Blank, Ledger};
use step_count::Steps;

// How many bytes a case may print.
const ROOM: usize = 16_000_000;

/// What cases are run over: the text of a schema, and files of tables.
#[derive(Drop)]
pub struct Setting {
    schema: Vec<u8>,
    tables: Vec<Entry>,
}

/// What a run came to.
#[derive(Drop)]
pub struct Ran {
    /// The exit status.
    pub status: u8,
    /// What was printed.
    pub printed: Vec<u8>,
}

// A file in memory.
fn entry(alloc: Global, name: &str, bytes: &[u8]) -> Result<Entry, AllocError> {
    Ok(Entry {
        name: String::from_str(alloc, name)?,
        bytes: bytes.to_vec(alloc)?,
    })
}

impl Setting {
    /// An empty schema, and no tables.
    pub fn new(alloc: Global) -> Self {
        Setting {
            schema: Vec::new(alloc),
            tables: Vec::new(alloc),
        }
    }

    /// Another schema, with no tables so far.
    pub fn declare(&mut self, schema: Vec<u8>) {
        self.schema = schema;
        self.tables.clear();
    }

    /// The file of a table, in place of any that it had.
    pub fn fill(&mut self, alloc: Global, table: &str, bytes: Vec<u8>) -> Result<(), AllocError> {
        let name = format!(in alloc; "d/{table}.csv")?;
        self.tables
            .retain(|file| file.name.as_str() != name.as_str());
        self.tables.push(Entry { name, bytes })?;
        Ok(())
    }

    // The files of a run: `s` the schema, `q` the query, and those of the tables.
    fn files(&self, alloc: Global, query: Vec<u8>) -> Result<MemFiles, AllocError> {
        let mut entries = Vec::new(alloc);
        entries.push(entry(alloc, "s", &self.schema)?)?;
        entries.push(Entry {
            name: String::from_str(alloc, "q")?,
            bytes: query,
        })?;
        for file in &self.tables {
            entries.push(entry(alloc, file.name.as_str(), &file.bytes)?)?;
        }
        Ok(MemFiles::new(alloc, entries, Vec::new(alloc)))
    }

    /// A run with these words, and this text as that of the query.
    pub fn run<L: Ledger>(
        &self,
        alloc: Global,
        blank: Blank,
        words: &[String],
        query: Vec<u8>,
    ) -> Result<Ran, AllocError>
        requires name { blank.name ≡ L.name }
        requires parts { blank.parts ≡ L.parts }
        requires some { 0 < blank.parts }
    {
        let mut files = self.files(alloc, query)?;
        let Ok(mut out) = MemSink::new(alloc, ROOM) else {
            return Err(AllocError);
        };
        let mut steps = Steps::<L>::new(blank);
        let status = run_command(alloc, words, &mut files, &mut out, &mut steps);
        Ok(Ran {
            status,
            printed: out.bytes.to_vec(alloc)?,
        })
    }
}
