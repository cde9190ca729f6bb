// Runs the jobs of a packed file and prints what becomes of each. A record is four big-endian numbers (allowance, cells, the job's
// length, the engine: 0 for the walk, 1 for the plain one) and then the job's bytes.
#![tactic(auto)]

mod cells;
mod record;

use crate::cells::{fill, weigh};
use crate::record::{Head, read_head};
use ground::Engine;
use input::{read_full, with_file};
use rule::JOB_LIMIT;
use std::io;
use std::io::{Read, Write};
use std::rt::Env;

// The cells of the longest list that is lent.
const LIST_ROOM: usize = 4096;

// The bytes of the longest job of the file: one more than a job may have.
const JOB_ROOM: usize = JOB_LIMIT + 1;

// Room for every text: 4,096 cells of at most 10 digits and the byte after each, and two lines more.
const TEXT_ROOM: usize = 65536;

// The bytes of the longest path of a packed file.
const PATH_ROOM: usize = 4096;

// A job's lines, and the weight of the lent cells after the run.
fn run(
    rt: &impl Print,
    engine: Engine,
    job: &[u8],
    allowance: u32,
    list: &mut [u32],
) -> io::Result<()> {
    fill(list);
    let shape = ground::shape_of(job);
    let answer = ground::ground_by(engine, job, allowance, list);
    let mut text = [0u8; TEXT_ROOM];
    let written = lines::write_lines(answer, shape, &list[..], &mut text);
    io::writer(rt).write_all(&text[..written])?;
    let weight = weigh(&list[..]);
    println!(rt; "cells {weight}")
}

// Reads a record's job into a part of the one slice and lends a part of the other for its list.
fn run_record<R: Read>(
    rt: &impl Print,
    head: Head,
    file: &mut R,
    job: &mut [u8],
    list: &mut [u32],
) -> io::Result<()> {
    let length = head.length.min(job.len());
    let got = read_full(file, &mut job[..length])?;
    let many = head.cells.min(list.len());
    run(
        rt,
        head.engine,
        &job[..got],
        head.allowance,
        &mut list[..many],
    )
}

// Runs each record's job under its number.
fn run_all<R: Read>(rt: &impl Print, file: &mut R) -> io::Result<()> {
    for number in 0..u64::MAX {
        let Some(head) = read_head(file)? else {
            break;
        };
        println!(rt; "# {number}")?;
        let mut job = [0u8; JOB_ROOM];
        let mut list = [0u32; LIST_ROOM];
        run_record(rt, head, file, &mut job, &mut list)?;
    }
    Ok(())
}

fn main(rt: HostRuntime) -> io::Result<()> {
    let mut path = [0u8; PATH_ROOM];
    let length = rt.arg(1, &mut path).unwrap_or(0);
    with_file(&rt, &path[..length], |mut file| run_all(&rt, &mut file))
}
