// What is out of range in a field, and what is unbound.
ghost use Rattle.std.specs.Prelude.{◌+◌, ◌≤◌, ◌<◌, ◌≡◌, ◌||◌, List, ltb};
ghost use Rattle.meaning.specs.Basics.{any};
ghost use Rattle.meaning.specs.Job.{arity_limit, Item as ItemOf};
ghost use Rattle.meaning.specs.Reading.{byte_at, literal_tag, bad_term, term_places, out_of_range, unbound_in};
ghost use Rattle.job.specs.Table.{meant};
ghost use Rattle.job.specs.Bound.{Bound};

use crate::bound::free_terms;
use crate::bytes::Start;
use crate::items::{comparison_in, literal_in};
use crate::table::Tag;
use crate::terms::bad_terms;
use rule::{ARITY_LIMIT, VARIABLE_LIMIT};

fn bad_predicate(start: Start) -> bool
    ensures { result ≡ ltb arity_limit (byte_at start.entry.bytes.now (start.entry.at + 3)) || ltb 1 (byte_at start.entry.bytes.now (start.entry.at + 4)) }
{
    ARITY_LIMIT < start.byte(3) || 1 < start.byte(4)
}

fn bad_literal(start: Start, n: usize) -> bool
    requires { n ≤ arity_limit }
    ensures { result ≡ ltb 1 (byte_at start.entry.bytes.now (start.entry.at + 3)) || any (bad_term start.entry.bytes.now) (term_places (start.entry.at + 5) n) }
{
    1 < start.byte(3) || bad_terms(start.bytes, start.at + 5, n)
}

#[tactic(auto, unfolding(meaning::specs::Reading::out_of_range))]
pub fn out_of_range(start: Start, tag: Tag, n: usize) -> bool
    requires { n ≤ arity_limit }
    ensures { result ≡ out_of_range (meant tag) start.entry.bytes.now start.entry.at n }
{
    match tag {
        Tag::Predicate => bad_predicate(start),
        Tag::Row => false,
        Tag::Head => bad_terms(start.bytes, start.at + 4, n),
        Tag::Literal => bad_literal(start, n),
        Tag::Comparison(_) => bad_terms(start.bytes, start.at + 3, 2),
    }
}

fn unbound_literal(start: Start, n: usize, bound: &[bool; VARIABLE_LIMIT]) -> bool
    requires { n ≤ arity_limit }
    ensures { (b : List ItemOf) → Bound bound.now b → result ≡ unbound_in literal_tag start.entry.bytes.now start.entry.at n b }
{
    start.byte(3) != 0 && free_terms(&literal_in(start, n), bound)
}

pub fn unbound_in(start: Start, tag: Tag, n: usize, bound: &[bool; VARIABLE_LIMIT]) -> bool
    requires { n ≤ arity_limit }
    ensures { (b : List ItemOf) → Bound bound.now b → result ≡ unbound_in (meant tag) start.entry.bytes.now start.entry.at n b }
{
    match tag {
        Tag::Predicate | Tag::Row | Tag::Head => false,
        Tag::Literal => unbound_literal(start, n, bound),
        Tag::Comparison(comparison) => free_terms(&comparison_in(start, comparison), bound),
    }
}
