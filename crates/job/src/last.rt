// After the last field.
ghost use Rattle.job.specs.Progress.{Well};
ghost use Rattle.job.specs.Answer.{LastIs};

use crate::bound::free_terms;
use crate::fault::{Fault, Refusal};
use crate::progress::Progress;

// 10, then 11.
pub fn last(bytes: &[u8], p: &Progress) -> Result<(), Refusal>
    requires { Well p.now }
    ensures { LastIs result bytes.now p.now }
{
    let heads = p.rule.heads.as_slice();
    let places = p.places.as_slice();
    for i in 0..heads.len() {
        if free_terms(&heads[i], &p.bound) {
            return Err(Refusal {
                fault: Fault::Unsafe,
                place: places[i],
            });
        }
    }
    if heads.is_empty() && p.rule.items.as_slice().is_empty() {
        return Err(Refusal {
            fault: Fault::Empty,
            place: bytes.len(),
        });
    }
    Ok(())
}
