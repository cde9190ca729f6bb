// The lister: reads a job's raw bytes from standard input and prints the list (document 01, "Cases"), by the walk or, where its argument is
// `--plain`, by the plain engine.
#![tactic(auto)]

ghost use Rattle.std.specs.Prelude.{IsTrue, codes, ◌↔◌, ◌≡◌};

use ground::Engine;
use input::read_full;
use rule::JOB_LIMIT;
use std::env::FillError;
use std::io;
use std::io::Write;
use std::rt::Env;

const ALLOWANCE: u32 = 1000000;

const CELLS: usize = 4096;

// One byte more than a job may have, so that a longer one is seen to be longer.
const JOB_ROOM: usize = JOB_LIMIT + 1;

// Room for every text: 4,096 cells of at most 10 digits and the byte after each, and two lines more.
const TEXT_ROOM: usize = 65536;

// The bytes of the longest word that is looked at.
const WORD_ROOM: usize = 4096;

// Whether the word is `--plain`.
fn is_plain(word: &[u8]) -> bool
    ensures { IsTrue result ↔ (word.now ≡ codes "--plain") }
{
    word == b"--plain".as_slice()
}

// The list of the job on standard input.
fn list(rt: &(impl Input + Print), engine: Engine) -> io::Result<()> {
    let mut job = [0u8; JOB_ROOM];
    let length = read_full(&mut rt.reader(), &mut job)?;
    let shape = ground::shape_of(&job[..length]);
    let mut list = [0u32; CELLS];
    let answer = ground::ground_by(engine, &job[..length], ALLOWANCE, &mut list);
    let mut text = [0u8; TEXT_ROOM];
    let written = lines::write_lines(answer, shape, &list, &mut text);
    io::writer(rt).write_all(&text[..written])
}

fn main(rt: HostRuntime) -> io::Result<()> {
    let mut word = [0u8; WORD_ROOM];
    match rt.arg(1, &mut word) {
        Ok(length) if is_plain(&word[..length]) => list(&rt, Engine::Plain),
        Err(FillError::NotPresent) => list(&rt, Engine::Walk),
        _ => eprintln!(rt; "usage: lister [--plain] <JOB"),
    }
}
