// A job's bytes, field by field.
ghost use Rattle.std.specs.Prelude.{◌≡◌, OnOk};
ghost use Rattle.meaning.specs.Reading.{reading};
ghost use Rattle.job.specs.Answer.{ended_of, reading_of, Holds, Kept};

use crate::bytes::{Start, two};
use crate::fault::{Fault, Refusal};
use crate::grow::grow;
use crate::judge::judge;
use crate::last::last;
use crate::progress::Progress;
use rule::at_most::AtMost;
use rule::{CELL_LIMIT, INDEX_LIMIT, JOB_LIMIT, PREDICATE_LIMIT, Rule};

// The job, beside the rows' cells and their index: row n of the job has its cells at 4n to 4n + 3 of `cells`, and row k of predicate p is
// row `index[ROW_LIMIT * p + k]` of the job. Of each predicate its arity and how many rows it has; how many rows there are.
#[derive(Clone, Copy)]
pub struct Made {
    pub rule: Rule,
    pub arities: AtMost<usize, PREDICATE_LIMIT>,
    pub rows: [usize; PREDICATE_LIMIT],
    pub total: usize,
}

#[derive(Clone, Copy)]
pub struct ReadJob {
    pub verdict: Result<(), Refusal>,
    pub made: Made,
}

// How the reading ended, with what had been read.
fn ended(verdict: Result<(), Refusal>, p: Progress) -> ReadJob
    ensures { result ≡ ended_of verdict p }
{
    let rows = p.rows;
    let made = Made {
        rule: p.rule,
        arities: p.arities,
        rows,
        total: p.total,
    };
    ReadJob { verdict, made }
}

pub fn read_job(
    bytes: &[u8],
    cells: &mut [u32; CELL_LIMIT],
    index: &mut [u16; INDEX_LIMIT],
) -> ReadJob
    ensures answers { reading_of result cells.new index.new ≡ reading bytes.now }
    ensures holds { Holds bytes.now result cells.new index.new }
    ensures kept { OnOk result.verdict (Kept result.made cells.new index.new) }
{
    // Stored whole: what the arrays hold at last is fixed by the bytes alone, and the proof knows their lengths, which a reference does not tell.
    *cells = [0; CELL_LIMIT];
    *index = [0; INDEX_LIMIT];
    let mut p = Progress::default();
    if JOB_LIMIT < bytes.len() {
        let refusal = Refusal {
            fault: Fault::Long,
            place: 0,
        };
        return ended(Err(refusal), p);
    }
    let mut at = 0usize;
    // From field to field, each as long as it says: nothing is counted.
    while at < bytes.len() {
        let start = Start { bytes, at };
        match judge(start, &p) {
            Ok(tag) => grow(start, tag, &mut p, cells, index),
            Err(fault) => return ended(Err(Refusal { fault, place: at }), p),
        }
        at += 3 + two(bytes, at + 1);
    }
    let verdict = last(bytes, &p);
    ended(verdict, p)
}
