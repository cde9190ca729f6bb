// Bytes read into a lent buffer, and what failed told on standard error: for the programs.
#![tactic(auto)]

ghost use Rattle.std.specs.Prelude.{◌≤◌, ◌<◌, IfOk, length, take};
ghost use Rattle.std.specs.Io.KnownBytes.{Consumes, IsAtEnd};

#[cfg(test)]
use std::fs;
use std::fs::File;
use std::io;
use std::io::Read;
use std::rt::Files;

// Reads until the buffer is full or the input ends: the bytes stand at its start.
pub fn read_full<R: Read>(reader: &mut R, buffer: &mut [u8]) -> io::Result<usize>
    ensures within { IfOk result (λ n. n ≤ length buffer.new) }
    ensures bytes { IfOk result (λ n. Consumes (R.remaining reader.old) (R.remaining reader.new) (take n buffer.new)) }
    ensures whole { IfOk result (λ n. n < length buffer.new → IsAtEnd (R.remaining reader.new)) }
{
    let mut filled = 0;
    // The library's calls do not say how far a short input came, but those that fill a heap.
    while filled < buffer.len() {
        let n = reader.read(&mut buffer[filled..])?;
        if n == 0 {
            return Ok(filled);
        }
        filled += n;
    }
    Ok(filled)
}

// The words of an error, without the number after them.
fn without_number(told: &str) -> &str {
    match told.split_once(" (os error ") {
        Some((words, _)) => words,
        None => told,
    }
}

// What failed, a colon and the system's words.
pub fn tell_failed<R: Eprint + Alloc>(rt: &R, what: &str, error: io::Error) -> io::Result<()> {
    let told = format!(in rt.alloc(); "{error}")?;
    let words = without_number(told.as_str());
    eprintln!(rt; "{what}: {words}")
}

// Does the work with the file that a path names, or tells what failed.
pub fn with_file<R: Files + Eprint + Alloc, F: FnOnce(R::File) -> io::Result<()>>(
    rt: &R,
    path: &[u8],
    work: F,
) -> io::Result<()>
    requires { F.IsAlwaysCallable work }
{
    let Ok(path) = str::from_utf8(path) else {
        let error = io::Error::from(io::ErrorKind::InvalidFilename);
        return tell_failed(rt, "argument", error);
    };
    match File::open(rt, path) {
        Ok(file) => work(file),
        Err(error) => tell_failed(rt, path, error),
    }
}

#[test]
fn a_short_input_is_read_to_its_end(rt: HostRuntime) {
    let mut reader: &[u8] = b"night";
    let mut buffer = [0u8; 8];
    let read = read_full(&mut reader, &mut buffer);
    assert!(rt; matches!(read, Ok(5)));
    assert!(rt; buffer == *b"night\0\0\0");
}

#[test]
fn a_failed_open_is_told(rt: HostRuntime) {
    let told = tell_failed(&rt, "no job", io::Error::from(io::ErrorKind::NotFound));
    assert!(rt; told.is_ok());
}

// The work of the tests with a file: an answer that only it gives, where the file has five bytes.
fn break_at_five<R: Read>(file: &mut R) -> io::Result<()> {
    let mut buffer = [0u8; 8];
    match read_full(file, &mut buffer)? {
        5 => Err(io::Error::from(io::ErrorKind::BrokenPipe)),
        _ => Ok(()),
    }
}

#[test]
fn the_work_is_done_with_the_file(rt: HostRuntime) {
    let path = "input_test_night";
    assert!(rt; fs::write(&rt, path, b"night".as_slice()).is_ok());
    let worked = with_file(&rt, path.as_bytes(), |mut file| break_at_five(&mut file));
    let removed = fs::remove_file(&rt, path);
    assert!(rt; removed.is_ok());
    let broken = match worked {
        Ok(()) => false,
        Err(error) => error.kind() == io::ErrorKind::BrokenPipe,
    };
    assert!(rt; broken);
}

#[test]
fn a_path_that_names_no_file_is_told(rt: HostRuntime) {
    let told = with_file(
        &rt,
        b"input_test_no_such_file",
        |mut file| break_at_five(&mut file),
    );
    assert!(rt; told.is_ok());
}

#[test]
fn a_path_that_is_no_text_is_told(rt: HostRuntime) {
    let told = with_file(&rt, b"\xff", |mut file| break_at_five(&mut file));
    assert!(rt; told.is_ok());
}

// Gives one byte at a time, and fails at the third read.
#[derive(Drop)]
struct Failing {
    reads: u8,
}

impl Read for Failing {
    fn read(&mut self, buf: &mut [u8]) -> io::Result<usize> {
        if self.reads >= 2 || buf.is_empty() {
            return Err(io::Error::from(io::ErrorKind::BrokenPipe));
        }
        self.reads += 1;
        buf[0] = b'n';
        Ok(1)
    }
}

#[test]
fn a_failed_read_is_the_answer(rt: HostRuntime) {
    let mut reader = Failing { reads: 0 };
    let mut buffer = [0u8; 8];
    let read = read_full(&mut reader, &mut buffer);
    let failed = match read {
        Ok(_) => false,
        Err(error) => error.kind() == io::ErrorKind::BrokenPipe,
    };
    assert!(rt; failed);
}
