// The variables that positive literals hold.
ghost use Rattle.std.specs.Prelude.{◌≡◌};
ghost use Rattle.job.specs.Bound.{free_term, free, mark_one, marked_by};

use rule::{Item, Kind, Term, VARIABLE_LIMIT};

// The term is a variable that is not bound.
fn free_term(term: Term, bound: &[bool; VARIABLE_LIMIT]) -> bool
    ensures { result ≡ free_term bound.now term }
{
    match term {
        Term::Number(_) => false,
        Term::Variable(v) => !bound.get(v as usize).copied().unwrap_or(false),
    }
}

pub fn free_terms(x: &Item, bound: &[bool; VARIABLE_LIMIT]) -> bool
    ensures { result ≡ free bound.now x.now.terms }
{
    x.terms
        .as_slice()
        .iter()
        .any(|term| free_term(*term, bound))
}

fn mark_term(term: Term, bound: &mut [bool; VARIABLE_LIMIT])
    ensures { bound.new ≡ mark_one bound.old term }
{
    if let Term::Variable(v) = term {
        let v = v as usize;
        if v < VARIABLE_LIMIT {
            bound[v] = true;
        }
    }
}

// The variables of a positive literal are bound too.
pub fn mark(x: &Item, bound: &mut [bool; VARIABLE_LIMIT])
    ensures { bound.new ≡ marked_by x.now bound.old }
{
    if let Kind::Test(_) = x.kind {
        return;
    }
    for term in x.terms.as_slice() {
        mark_term(*term, bound);
    }
}
