// Comparisons of two numbers.
ghost use Rattle.std.specs.Prelude.{◌≡◌};
ghost use Rattle.meaning.specs.Counter.{before?};
ghost use Rattle.meaning.specs.Relevant.{compare};
ghost use Rattle.rule.specs.Rule.{comparison_of};

use crate::Comparison;

// As far as a number of the counter may be ahead of one that is before it.
const REACH: u32 = 2147483647;

fn is_before(a: u32, b: u32) -> bool
    ensures { result ≡ before? a b }
{
    let ahead = b.wrapping_sub(a);
    1 <= ahead && ahead <= REACH
}

// Whether the comparison holds.
#[tactic(auto, unfolding(meaning::specs::Relevant::compare))]
pub fn compare(comparison: Comparison, a: u32, b: u32) -> bool
    ensures { result ≡ compare (comparison_of comparison) a b }
{
    match comparison {
        Comparison::LessThan => a < b,
        Comparison::Before => is_before(a, b),
    }
}
