// The first fault of a field, in the order of document 01's table.
ghost use Rattle.std.specs.Prelude.{◌≡◌, ◌≤◌};
ghost use Rattle.meaning.specs.Job.{arity_limit};
ghost use Rattle.job.specs.Table.{meant, PlacesAre, exact_of, places_in};
ghost use Rattle.job.specs.Progress.{Well};
ghost use Rattle.job.specs.Fault.{Judges, Passes, FieldAt};

use crate::bytes::Start;
use crate::fault::Fault;
use crate::progress::Progress;
use crate::range::{out_of_range, unbound_in};
use crate::table::Tag;
use reader::Reader;

// How many places the predicate of a field has: 0 where the field names none.
fn places_of(start: Start, tag: Tag, p: &Progress) -> Result<usize, Fault>
    requires { Well p.now }
    ensures { PlacesAre result (meant tag) start.entry.bytes.now start.entry.at p.now }
{
    let line = tag.line();
    if line.upto == 0 {
        return Ok(0);
    }
    let predicate = start.byte(2 + line.upto);
    p.arities
        .as_slice()
        .get(predicate)
        .copied()
        .ok_or(Fault::Undeclared)
}

// The exact length of a field whose predicate has n places.
fn exact(tag: Tag, n: usize) -> usize
    requires { n ≤ arity_limit }
    ensures { result ≡ exact_of (meant tag) n }
{
    let line = tag.line();
    line.smallest + line.each * n
}

// 7, 8, 9 of a field whose predicate has n places.
fn judge_content(start: Start, tag: Tag, length: usize, n: usize, p: &Progress) -> Result<(), Fault>
    requires { FieldAt start.bytes.now start.at (meant tag) length × Well p.now × (n ≤ arity_limit) × (n ≡ places_in (meant tag) start.bytes.now start.at p.now) }
    ensures { Judges result start.entry.bytes.now start.entry.at p.now 6 }
{
    if length != exact(tag, n) {
        return Err(Fault::Length);
    }
    let range = out_of_range(start, tag, n);
    let unbound = unbound_in(start, tag, n, &p.bound);
    if range {
        return Err(Fault::Range);
    }
    if unbound {
        return Err(Fault::Unbound);
    }
    Ok(())
}

// 7 where the length can't hold the bytes up to the predicate's, 6, and the rest.
fn judge_named(start: Start, tag: Tag, length: usize, p: &Progress) -> Result<(), Fault>
    requires { FieldAt start.bytes.now start.at (meant tag) length × Well p.now }
    ensures { Judges result start.entry.bytes.now start.entry.at p.now 4 }
{
    if length < tag.line().upto {
        return Err(Fault::Length);
    }
    let n = places_of(start, tag, p)?;
    judge_content(start, tag, length, n, p)
}

// 4, 5, and the rest.
fn judge_tag(start: Start, tag: Tag, length: usize, p: &Progress) -> Result<(), Fault>
    requires { FieldAt start.bytes.now start.at (meant tag) length × Well p.now }
    ensures { Judges result start.entry.bytes.now start.entry.at p.now 2 }
{
    let line = tag.line();
    if line.group < p.group {
        return Err(Fault::Group);
    }
    if line.limit <= p.counted(tag) {
        return Err(Fault::Limit);
    }
    judge_named(start, tag, length, p)
}

// The tag of a field that has no fault.
pub fn judge(start: Start, p: &Progress) -> Result<Tag, Fault>
    requires { Well p.now }
    ensures { Passes result start.entry.bytes.now start.entry.at p.now }
{
    let field = Reader::of(start.bytes, start.at).next().ok_or(Fault::Cut)?;
    let tag = Tag::try_from(field.tag)?;
    judge_tag(start, tag, field.length, p)?;
    Ok(tag)
}
