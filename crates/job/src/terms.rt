// The terms in a job's bytes.
ghost use Rattle.std.specs.Prelude.{◌≡◌, ◌+◌, ◌≤◌, ◌<◌};
ghost use Rattle.meaning.specs.Job.{arity_limit};
ghost use Rattle.meaning.specs.Basics.{any};
ghost use Rattle.meaning.specs.Reading.{bad_term, term_places};
ghost use Rattle.job.specs.Progress.{farthest, term_from, terms_from};

use crate::bytes::{byte, four};
use rule::at_most::AtMost;
use rule::{ARITY_LIMIT, Term, VARIABLE_LIMIT};

#[tactic(auto, unfolding(meaning::specs::Reading::bad_term))]
pub fn bad_term(bytes: &[u8], i: usize) -> bool
    requires { i + 16 < farthest }
    ensures { result ≡ bad_term bytes.now i }
{
    match byte(bytes, i) {
        0 => false,
        1 => VARIABLE_LIMIT as u32 <= four(bytes, i + 1),
        _ => true,
    }
}

pub fn bad_terms(bytes: &[u8], i: usize, n: usize) -> bool
    requires { (i + 64 < farthest) × (n ≤ arity_limit) }
    ensures { result ≡ any (bad_term bytes.now) (term_places i n) }
{
    for k in 0..n {
        if bad_term(bytes, i + 5 * k) {
            return true;
        }
    }
    false
}

fn term_at(bytes: &[u8], i: usize) -> Term
    requires { i + 16 < farthest }
    ensures { result ≡ term_from bytes.now i }
{
    let value = four(bytes, i + 1);
    if byte(bytes, i) == 0 {
        Term::Number(value)
    } else {
        Term::Variable(value)
    }
}

// n terms from i on.
pub fn terms_at(bytes: &[u8], i: usize, n: usize) -> AtMost<Term, ARITY_LIMIT>
    requires { (i + 64 < farthest) × (n ≤ arity_limit) }
    ensures { result ≡ terms_from bytes.now i n }
{
    let mut terms = AtMost::default();
    for k in 0..n {
        terms.push(term_at(bytes, i + 5 * k));
    }
    terms
}
