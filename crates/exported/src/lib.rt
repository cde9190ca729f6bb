// The one call, for programs in other languages: the answer is told in numbers.
#![tactic(auto)]

ghost use Rattle.std.specs.Prelude.{◌≡◌};
ghost use Rattle.meaning.specs.Ground.{ground as grounding};
ghost use Rattle.walk.specs.Ran.{ending_of};
ghost use Rattle.exported.specs.Told.{told, told_of, number_of};

use ground::{Ending, ground};

// How a refusal is told in place of an ending.
const REFUSED: u32 = 3;

// What C is told.
fn number(ending: Ending) -> u32
    ensures { result ≡ number_of (ending_of ending) }
{
    match ending {
        Ending::Complete => 0,
        Ending::Stopped => 1,
        Ending::Full => 2,
    }
}

#[unsafe(no_mangle)]
pub extern "C" fn yozgarmi_ground(
    job: &[u8],
    allowance: u32,
    list: &mut [u32],
    ending: &mut u32,
    tests: &mut usize,
) -> usize
    ensures { told ending.new result tests.new list.new ≡ told_of (grounding job.now allowance list.old) }
{
    match ground(job, allowance, list) {
        Ok(ended) => {
            *ending = number(ended.ending);
            *tests = ended.tests as usize;
            ended.entries
        }
        Err(refusal) => {
            *ending = REFUSED;
            *tests = refusal.place;
            usize::from(refusal.fault)
        }
    }
}
