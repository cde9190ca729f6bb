// The public calls: a job's bytes, an allowance of tests and the lent cells of the list, by the walk or by the plain engine.
#![tactic(auto)]

ghost use Rattle.std.specs.Prelude.{◌≡◌, length, take};
ghost use Rattle.meaning.specs.Reading.{reading};
ghost use Rattle.meaning.specs.Ground.{ground_by, ground as grounding, plain_ground};
ghost use Rattle.ground.specs.Answer.{grounded, engine_of};
ghost use Rattle.ground.specs.Shape.{shape_of};

mod engines;

use crate::engines::{Plain, Search, Walk};
pub use job::fault::{Fault, Refusal};
use job::reading::read_job;
use plan::tables::plan_of;
use rule::{CELL_LIMIT, INDEX_LIMIT, VARIABLE_LIMIT};
pub use walk::state::{Ended, Ending};

// How the search of a job ended, or why the job is refused.
pub type Answer = Result<Ended, Refusal>;

// The jumping walk, or the plain engine of request 3/14.
#[derive(Clone, Copy, PartialEq, Eq, Debug)]
pub enum Engine {
    Walk,
    Plain,
}

// A job's answer by a search: they take the same jobs, and refuse the same. For each it is compiled apart, so that the walk pays for no other.
fn ground_with<S: Search>(job: &[u8], allowance: u32, list: &mut [u32]) -> Answer
    ensures { grounded result list.new ≡ ground_by S.engine job.now allowance list.old }
{
    let mut cells = [0u32; CELL_LIMIT];
    let mut index = [0u16; INDEX_LIMIT];
    let read = read_job(job, &mut cells, &mut index);
    read.verdict?;
    let made = read.made;
    let plan = plan_of(&made.rule);
    let ended = S::search(
        &made.rule, &plan, &made.rows, &index, &cells, allowance, list,
    );
    Ok(ended)
}

pub fn ground(job: &[u8], allowance: u32, list: &mut [u32]) -> Answer
    ensures { grounded result list.new ≡ grounding job.now allowance list.old }
{
    ground_with::<Walk>(job, allowance, list)
}

pub fn plain_ground(job: &[u8], allowance: u32, list: &mut [u32]) -> Answer
    ensures { grounded result list.new ≡ plain_ground job.now allowance list.old }
{
    ground_with::<Plain>(job, allowance, list)
}

// By the engine that is asked for.
pub fn ground_by(engine: Engine, job: &[u8], allowance: u32, list: &mut [u32]) -> Answer
    ensures { grounded result list.new ≡ ground_by (engine_of engine) job.now allowance list.old }
{
    match engine {
        Engine::Walk => ground(job, allowance, list),
        Engine::Plain => plain_ground(job, allowance, list),
    }
}

// What the rule says of the list before any row is laid: the first `relevants` numbers are the relevant variables, by rising number, and an entry
// has `entry` cells. A refused job has no relevant variables.
#[derive(Clone, Copy)]
pub struct Shape {
    pub relevant: [usize; VARIABLE_LIMIT],
    pub relevants: usize,
    pub entry: usize,
}

impl Shape {
    // The relevant variables.
    pub fn relevant(&self) -> &[usize]
        ensures { result.now ≡ take self.now.relevants self.now.relevant }
    {
        &self.relevant[..self.relevants.min(VARIABLE_LIMIT)]
    }
}

pub fn shape_of(job: &[u8]) -> Shape
    ensures { result ≡ shape_of (reading job.now) }
{
    let mut cells = [0u32; CELL_LIMIT];
    let mut index = [0u16; INDEX_LIMIT];
    let read = read_job(job, &mut cells, &mut index);
    let Ok(()) = read.verdict else {
        return Shape {
            relevant: [0; VARIABLE_LIMIT],
            relevants: 0,
            entry: 1,
        };
    };
    let made = read.made;
    let plan = plan_of(&made.rule);
    let relevant = plan.relevant;
    Shape {
        relevant,
        relevants: plan.relevants,
        entry: plan.entry,
    }
}
