// The heads of the packed file's records.
ghost use Rattle.std.specs.Prelude.{◌≡◌, ◌+◌, ◌*◌, get_or};

use ground::Engine;
use input::read_full;
use std::io;
use std::io::Read;

// A head is so many numbers of four bytes each, big-endian.
const HEAD_NUMBERS: usize = 4;

#[derive(Clone, Copy)]
pub struct Head {
    pub allowance: u32,
    pub cells: usize,
    pub length: usize,
    pub engine: Engine,
}

// Big-endian. Its own function, since no clause holds what a file's bytes come to further up.
fn number(bytes: [u8; 4]) -> u32
    ensures { result ≡ get_or bytes 0 0 * 16777216 + get_or bytes 1 0 * 65536 + get_or bytes 2 0 * 256 + get_or bytes 3 0 }
{
    u32::from_be_bytes(bytes)
}

// The next record's head, where there is one more.
pub fn read_head<R: Read>(file: &mut R) -> io::Result<Option<Head>> {
    let mut numbers = [[0u8; 4]; HEAD_NUMBERS];
    let bytes = numbers.as_flattened_mut();
    if read_full(file, bytes)? < bytes.len() {
        return Ok(None);
    }
    let [allowance, cells, length, engine] = numbers.map(number);
    Ok(Some(Head {
        allowance,
        cells: cells as usize,
        length: length as usize,
        engine: match engine {
            1 => Engine::Plain,
            _ => Engine::Walk,
        },
    }))
}
