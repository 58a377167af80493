// Counting marked lines, and finding those that are not.
ghost use Rattle.std.specs.Prelude.{◌≡◌, ℕ, ◌<◌, ◌≤◌, false, length, count_by, ◌≢◌, slice_index_or, Some};
ghost use Rattle.scanning.specs.Listing.{NextRun, lines_text};

use std::fmt;

// How many are marked.
pub fn count(marks: &[bool]) -> usize
    ensures { result ≡ count_by (λ m. m) marks.now }
{
    marks.iter().map(|mark| usize::from(*mark)).sum()
}

// Lines in a row, by the numbers of the first and the last.
#[derive(Clone, Copy, PartialEq, Eq, Debug)]
pub struct Lines {
    pub first: usize,
    pub last: usize,
}

// `3`, or `17-19`.
impl fmt::Display for Lines {
    ghost output = { λ lines. Some (lines_text lines) };

    fn fmt<W: fmt::Write>(&self, f: &mut fmt::Formatter<W>) -> fmt::Result {
        let Lines { first, last } = *self;
        if first == last {
            write!(f, "{first}")
        } else {
            write!(f, "{first}-{last}")
        }
    }
}

// The first place that is marked, or not, as sought; the end where there is none.
fn first(marks: &[bool], sought: bool) -> usize
    ensures within { result ≤ length marks.now }
    ensures before { (k : ℕ) → k < result → slice_index_or marks.now k false ≢ sought }
    ensures found { result < length marks.now → slice_index_or marks.now result false ≡ sought }
{
    // With the place: it is the answer.
    for (i, mark) in marks.iter().enumerate() {
        if *mark == sought {
            return i;
        }
    }
    marks.len()
}

// The first place from `from` on that is marked, or not, as sought; the end where there is none.
fn first_from(marks: &[bool], from: usize, sought: bool) -> usize
    requires { from ≤ length marks.now }
    ensures low { from ≤ result }
    ensures within { result ≤ length marks.now }
    ensures before { (k : ℕ) → from ≤ k → k < result → slice_index_or marks.now k false ≢ sought }
    ensures found { result < length marks.now → slice_index_or marks.now result false ≡ sought }
{
    from + first(&marks[from..], sought)
}

// The first run of lines that are not marked, from `from` on.
pub fn next_run(marks: &[bool], from: usize) -> Option<Lines>
    ensures { NextRun marks.now from result }
{
    if from >= marks.len() {
        return None;
    }
    let first = first_from(marks, from, false);
    if first >= marks.len() {
        return None;
    }
    let end = first_from(marks, first, true);
    Some(Lines {
        first,
        last: end - 1,
    })
}
