// Reads each file that an argument names as a job, and writes whether it is accepted, or the refusal's number and place.
#![tactic(auto)]

use input::{read_full, with_file};
use job::fault::Refusal;
use job::reading::read_job;
use rule::{CELL_LIMIT, INDEX_LIMIT};
use std::env::FillError;
use std::io;
use std::io::Read;
use std::rt::Env;

// The bytes of the longest path that is looked at, and of the longest file.
const PATH_ROOM: usize = 4096;

const FILE_ROOM: usize = 65536;

// Used once: a Display would be this match with a type around it.
fn say(rt: &impl Print, verdict: Result<(), Refusal>) -> io::Result<()> {
    match verdict {
        Ok(()) => println!(rt; "accepted"),
        Err(Refusal { fault, place }) => println!(rt; "refused {} {place}", usize::from(fault)),
    }
}

fn judge(rt: &impl Print, bytes: &[u8]) -> io::Result<()> {
    let mut cells = [0u32; CELL_LIMIT];
    let mut index = [0u16; INDEX_LIMIT];
    let answer = read_job(bytes, &mut cells, &mut index);
    say(rt, answer.verdict)
}

fn judge_file<R: Read>(rt: &impl Print, file: &mut R) -> io::Result<()> {
    let mut space = [0u8; FILE_ROOM];
    let length = read_full(file, &mut space)?;
    judge(rt, &space[..length])
}

fn main(rt: HostRuntime) -> io::Result<()> {
    let mut path = [0u8; PATH_ROOM];
    for i in 1..usize::MAX {
        match rt.arg(i, &mut path) {
            Ok(length) => with_file(&rt, &path[..length], |mut file| judge_file(&rt, &mut file))?,
            Err(FillError::TooLong) => eprintln!(rt; "argument: File name too long")?,
            Err(FillError::NotPresent) => break,
        }
    }
    Ok(())
}
