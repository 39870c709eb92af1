// Ways through rows.
ghost use Rattle.std.specs.Prelude.{◌≡◌, ◌<◌, ◌+◌, length, min};
ghost use Rattle.row_index.specs.Ways as spec;

use crate::rows::RowIndex;

/// A way through rows, in their order: through all up to an end; or, where there is an index, through
/// those of a hash, if there is one, and those without a hash.
#[derive(Clone, Copy)]
pub struct Way<'a> {
    pub end: usize,
    pub index: Option<&'a RowIndex>,
    pub hash: Option<u64>,
}

/// Where a way has come to: the next place of its hash, and the next without one.
#[derive(Clone, Copy)]
pub struct Cursor {
    pub own: usize,
    pub marked: usize,
}

impl Cursor {
    /// The place of the row that comes next.
    pub fn place(&self) -> usize
        ensures { result ≡ spec.place self.now }
    {
        self.own.min(self.marked)
    }
}

// The first place of a hash, if there is one.
fn first_own(index: &RowIndex, hash: Option<u64>) -> usize
    ensures { spec.IsNextOwn hash index.now.hashes 0 result }
{
    match hash {
        Some(hash) => index.hashes.first(hash),
        None => index.hashes.len(),
    }
}

// The first place of a row without a hash, of so many.
fn first_marked(index: &RowIndex, end: usize) -> usize
    ensures { spec.IsNextMarked index.now.marks end 0 result }
{
    match &index.marks {
        Some(marks) => marks.first(1),
        None => end,
    }
}

/// Where a way begins.
pub fn first_of(way: &Way<'_>) -> Cursor
    ensures { spec.StandsFrom way.now 0 result }
{
    match way.index {
        Some(index) => Cursor {
            own: first_own(index, way.hash),
            marked: first_marked(index, way.end),
        },
        None => Cursor {
            own: 0,
            marked: way.end,
        },
    }
}

// The next place of a hash behind one, where the last that was found stands at or behind that.
fn next_own(index: &RowIndex, hash: Option<u64>, own: usize, at: usize) -> usize
    requires own { spec.IsNextOwn hash index.now.hashes at own }
    requires within { at < length index.now.hashes }
    ensures { spec.IsNextOwn hash index.now.hashes (at + 1) result }
{
    match hash {
        Some(hash) => {
            if own == at {
                index.hashes.next(hash, at)
            } else {
                own
            }
        }
        None => own,
    }
}

// The next place without a hash behind one, where the last that was found stands at or behind that.
fn next_marked(index: &RowIndex, end: usize, marked: usize, at: usize) -> usize
    requires marked { spec.IsNextMarked index.now.marks end at marked }
    requires many { spec.AreAsMany index.now.marks end }
    requires within { at < end }
    ensures { spec.IsNextMarked index.now.marks end (at + 1) result }
{
    match &index.marks {
        Some(marks) => {
            if marked == at {
                marks.next(1, at)
            } else {
                marked
            }
        }
        None => marked,
    }
}

/// Where a way goes on behind a row.
pub fn next_of(way: &Way<'_>, c: Cursor) -> Cursor
    requires spans { spec.Spans way.now.index way.now.end }
    requires stands { spec.StandsFrom way.now (spec.place c) c }
    requires within { spec.place c < way.now.end }
    ensures { spec.StandsFrom way.now (spec.place c + 1) result }
{
    let at = c.place();
    match way.index {
        Some(index) => Cursor {
            own: next_own(index, way.hash, c.own, at),
            marked: next_marked(index, way.end, c.marked, at),
        },
        None => Cursor {
            own: at + 1,
            marked: way.end,
        },
    }
}
