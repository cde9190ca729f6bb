// What has been read, with one field more that has no fault: the record is changed in place, since it is large.
ghost use Rattle.std.specs.Prelude.{◌≡◌, ◌+◌, ◌≤◌, ◌<◌, length};
ghost use Rattle.meaning.specs.Job.{arity_limit, predicate_limit, head_limit, item_limit};
ghost use Rattle.job.specs.Puts.{puts};
ghost use Rattle.rule.specs.Limits.{cell_limit};
ghost use Rattle.rule.specs.Rule.{comparison_of};
ghost use Rattle.job.specs.Progress.{farthest, cell_from, Filled};
ghost use Rattle.job.specs.Table.{meant};
ghost use Rattle.job.specs.Grow.{with_predicate, with_head, with_literal, with_comparison, Named, RowReady, RowAdded, Ready, Stepped};

use crate::bound::mark;
use crate::bytes::{Start, four};
use crate::items::{comparison_in, head_in, literal_in};
use crate::progress::Progress;
use crate::table::Tag;
use rule::{ARITY_LIMIT, CELL_LIMIT, Comparison, INDEX_LIMIT, ROW_LIMIT};

fn grow_predicate(start: Start, p: &mut Progress)
    requires { (length p.old.arities < predicate_limit) × (length p.old.rule.solved < predicate_limit) }
    ensures { p.new ≡ with_predicate start.entry.bytes.now start.entry.at p.old }
{
    let predicate = p.arities.as_slice().len();
    p.rows[predicate] = 0;
    p.arities.push(start.byte(3));
    p.rule.solved.push(start.byte(4) == 1);
}

// n cells from i on, stored from `to` on.
fn store_cells(bytes: &[u8], i: usize, n: usize, cells: &mut [u32; CELL_LIMIT], to: usize)
    requires { (i + 64 < farthest) × (to + n ≤ cell_limit) × (n ≤ arity_limit) }
    ensures { cells.new ≡ puts cells.old to n (cell_from bytes.now i) }
{
    for k in 0..n {
        cells[to + k] = four(bytes, i + 4 * k);
    }
}

// A row's cells stand after those of the rows before it; its number in the job stands in the index, after those of its predicate's rows.
fn grow_row(
    start: Start,
    p: &mut Progress,
    cells: &mut [u32; CELL_LIMIT],
    index: &mut [u16; INDEX_LIMIT],
)
    requires { RowReady start.bytes.now start.at p.old }
    ensures { RowAdded start.entry.bytes.now start.entry.at p.old p.new cells.old index.old cells.new index.new }
{
    let predicate = start.byte(3);
    let n = p.arities.as_slice()[predicate];
    let k = p.rows[predicate];
    store_cells(start.bytes, start.at + 4, n, cells, ARITY_LIMIT * p.total);
    index[ROW_LIMIT * predicate + k] = p.total as u16;
    p.rows[predicate] = k + 1;
    p.total += 1;
}

fn grow_head(start: Start, p: &mut Progress)
    requires { Named start.bytes.now (start.at + 3) p.old × (length p.old.rule.heads < head_limit) × (length p.old.places < head_limit) }
    ensures { p.new ≡ with_head start.entry.bytes.now start.entry.at p.old }
{
    let n = p.arities.as_slice()[start.byte(3)];
    p.rule.heads.push(head_in(start, n));
    p.places.push(start.at);
}

fn grow_literal(start: Start, p: &mut Progress)
    requires { Named start.bytes.now (start.at + 4) p.old × (length p.old.rule.items < item_limit) }
    ensures { p.new ≡ with_literal start.entry.bytes.now start.entry.at p.old }
{
    let n = p.arities.as_slice()[start.byte(4)];
    let x = literal_in(start, n);
    mark(&x, &mut p.bound);
    p.rule.items.push(x);
}

fn grow_comparison(start: Start, comparison: Comparison, p: &mut Progress)
    requires { (length p.old.rule.items < item_limit) }
    ensures { p.new ≡ with_comparison (comparison_of comparison) start.entry.bytes.now start.entry.at p.old }
{
    p.rule.items.push(comparison_in(start, comparison));
}

pub fn grow(
    start: Start,
    tag: Tag,
    p: &mut Progress,
    cells: &mut [u32; CELL_LIMIT],
    index: &mut [u16; INDEX_LIMIT],
)
    requires { Ready start.bytes.now start.at (meant tag) p.old × Filled p.old cells.old index.old }
    ensures { Stepped start.entry.bytes.now start.entry.at p.old p.new cells.old index.old cells.new index.new }
{
    p.group = tag.line().group;
    match tag {
        Tag::Predicate => grow_predicate(start, p),
        Tag::Row => grow_row(start, p, cells, index),
        Tag::Head => grow_head(start, p),
        Tag::Literal => grow_literal(start, p),
        Tag::Comparison(comparison) => grow_comparison(start, comparison, p),
    }
}
