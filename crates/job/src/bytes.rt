// The numbers that stand in a job's bytes: 0 past the end. Offsets are kept far below where a sum of them would wrap.
ghost use Rattle.std.specs.Prelude.{◌≡◌, ◌+◌, ◌<◌};
ghost use Rattle.meaning.specs.Reading.{byte_at, be16, be32};
ghost use Rattle.job.specs.Progress.{farthest};

pub fn byte(bytes: &[u8], i: usize) -> usize
    ensures { (result ≡ byte_at bytes.now i) × (result < 256) }
{
    bytes.get(i).map_or(0, |b| usize::from(*b))
}

// By hand: a byte past the end is 0 here, and the library reads none.
pub fn two(bytes: &[u8], i: usize) -> usize
    requires { i < farthest }
    ensures { (result ≡ be16 bytes.now i) × (result < 65536) }
{
    byte(bytes, i) * 256 + byte(bytes, i + 1)
}

pub fn four(bytes: &[u8], i: usize) -> u32
    requires { i + 8 < farthest }
    ensures { result ≡ be32 bytes.now i }
{
    // The four are inside in every accepted job: one test of the length, not four.
    if let Some([a, b, c, d]) = bytes.get(i..i + 4) {
        return u32::from_be_bytes([*a, *b, *c, *d]);
    }
    (two(bytes, i) * 65536 + two(bytes, i + 2)) as u32
}

// Where a field starts in a job's bytes.
#[derive(Clone, Copy)]
pub struct Start<'a> {
    pub bytes: &'a [u8],
    pub at: usize,
    ghost near: { at + 128 < farthest },
}

impl<'a> Start<'a> {
    // Byte k of the field, from its tag on.
    pub fn byte(self, k: usize) -> usize
        requires { k < 64 }
        ensures { (result ≡ byte_at self.entry.bytes.now (self.entry.at + k)) × (result < 256) }
    {
        byte(self.bytes, self.at + k)
    }
}
