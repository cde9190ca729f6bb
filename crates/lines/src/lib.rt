// The lister's text for an answer: document 01, case 2.
#![tactic(auto)]

ghost use Rattle.std.specs.Prelude.{[], ◌∷◌, ◌++◌, ◌≡◌, take};
ghost use Rattle.lines.specs.Lines.{vars, refused, spaced, line, entry_line, entry_lines, word_of, run_lines, lines_of};
ghost use Rattle.lines.specs.Written.{Written};

mod put;

use crate::put::{put, put_byte, put_number, put_spaced};
use ground::{Answer, Ended, Ending, Shape};

// An entry's line: its cells, one space between them.
fn put_entry(out: &mut [u8], cells: &[u32]) -> usize
    ensures { Written (entry_line cells.now) out.old out.new result }
{
    let Some((first, rest)) = cells.split_first() else {
        return put_byte(out, b'\n');
    };
    let mut at = put_number(out, *first as usize);
    for cell in rest {
        at += put_spaced(&mut out[at..], *cell as usize);
    }
    at + put_byte(&mut out[at..], b'\n')
}

// The lines of so many entries, from the start of the cells on. Cells past the end are left out.
fn put_entries(out: &mut [u8], entries: usize, size: usize, cells: &[u32]) -> usize
    ensures { Written (entry_lines entries size cells.now) out.old out.new result }
{
    let mut at = 0;
    let mut rest = cells;
    for _ in 0..entries {
        let (cells, after) = rest.split_at(size.min(rest.len()));
        at += put_entry(&mut out[at..], cells);
        rest = after;
    }
    at
}

// The first line: the relevant variables. They are of another type than cells, so the three lines that space them stand twice.
fn put_vars(out: &mut [u8], relevant: &[usize]) -> usize
    ensures { Written (line (vars ++ spaced relevant.now)) out.old out.new result }
{
    let mut at = put(out, b"vars");
    for variable in relevant {
        at += put_spaced(&mut out[at..], *variable);
    }
    at + put_byte(&mut out[at..], b'\n')
}

// The last line: an ending, entries and tests, or a refusal, its number and place.
fn put_answer(out: &mut [u8], word: &[u8], first: usize, second: usize) -> usize
    ensures { Written (line (word.now ++ spaced (first ∷ second ∷ []))) out.old out.new result }
{
    let mut at = put(out, word);
    at += put_spaced(&mut out[at..], first);
    at += put_spaced(&mut out[at..], second);
    at + put_byte(&mut out[at..], b'\n')
}

// The word for how a search ended.
fn word(ending: Ending) -> &'static [u8]
    ensures { result.now ≡ word_of ending }
{
    match ending {
        Ending::Complete => b"complete",
        Ending::Stopped => b"stopped",
        Ending::Full => b"full",
    }
}

fn put_run(out: &mut [u8], ended: Ended, shape: Shape, list: &[u32]) -> usize
    ensures { Written (run_lines ended (take shape.relevants shape.relevant) shape.entry list.now) out.old out.new result }
{
    let mut at = put_vars(out, shape.relevant());
    at += put_entries(&mut out[at..], ended.entries, shape.entry, list);
    let tests = ended.tests as usize;
    at + put_answer(&mut out[at..], word(ended.ending), ended.entries, tests)
}

// The line for a refusal, written as `write_lines` writes it: of any number, also of one that no fault has.
pub fn write_refusal(number: usize, place: usize, out: &mut [u8]) -> usize
    ensures { Written (line (refused ++ spaced (number ∷ place ∷ []))) out.old out.new result }
{
    put_answer(out, b"refused", number, place)
}

// The text for an answer, written into `out` from the start as far as it has room. Returns how many bytes were written.
pub fn write_lines(answer: Answer, shape: Shape, list: &[u32], out: &mut [u8]) -> usize
    ensures { Written (lines_of answer (take shape.relevants shape.relevant) shape.entry list.now) out.old out.new result }
{
    match answer {
        Ok(ended) => put_run(out, ended, shape, list),
        Err(refusal) => write_refusal(usize::from(refusal.fault), refusal.place, out),
    }
}
