// The heads and body items in a job's bytes.
ghost use Rattle.std.specs.Prelude.{◌≡◌, ◌+◌, ◌≤◌, ◌<◌};
ghost use Rattle.meaning.specs.Job.{arity_limit};
ghost use Rattle.rule.specs.Rule.{comparison_of};
ghost use Rattle.job.specs.Progress.{item_from, head_from, literal_from, comparison_from};

use crate::bytes::Start;
use crate::terms::terms_at;
use rule::{Comparison, Item, Kind, Test};

// An item with n terms from byte k of the field on.
fn item_at(start: Start, kind: Kind, predicate: usize, k: usize, n: usize) -> Item
    requires { (k < 64) × (n ≤ arity_limit) }
    ensures { result ≡ item_from start.entry.bytes.now kind predicate (start.entry.at + k) n }
{
    Item {
        kind,
        predicate,
        terms: terms_at(start.bytes, start.at + k, n),
    }
}

// The head in the field, whose predicate has n places.
pub fn head_in(start: Start, n: usize) -> Item
    requires { n ≤ arity_limit }
    ensures { result ≡ head_from start.entry.bytes.now start.entry.at n }
{
    item_at(start, Kind::Positive, start.byte(3), 4, n)
}

pub fn literal_in(start: Start, n: usize) -> Item
    requires { n ≤ arity_limit }
    ensures { result ≡ literal_from start.entry.bytes.now start.entry.at n }
{
    let kind = if start.byte(3) == 0 {
        Kind::Positive
    } else {
        Kind::Test(Test::Negated)
    };
    item_at(start, kind, start.byte(4), 5, n)
}

pub fn comparison_in(start: Start, comparison: Comparison) -> Item
    ensures { result ≡ comparison_from (comparison_of comparison) start.entry.bytes.now start.entry.at }
{
    item_at(start, Kind::Test(Test::Comparison(comparison)), 0, 3, 2)
}
