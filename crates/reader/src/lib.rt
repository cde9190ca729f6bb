// A reader holds the job's bytes and the offset where a field should start. It takes itself apart and calls a covered function.
#![tactic(auto)]

ghost use Rattle.std.specs.Prelude.{◌≡◌};
ghost use Rattle.reader.specs.Field.{field_at};

#[derive(Clone, Copy)]
pub struct Reader<'a> {
    pub bytes: &'a [u8],
    pub at: usize,
}

// A field's tag, and how many bytes follow its length.
#[derive(Clone, Copy)]
pub struct Field {
    pub tag: u8,
    pub length: usize,
}

// The work, on the bytes and the offset: the field that stands there whole.
pub fn field_at(bytes: &[u8], at: usize) -> Option<Field>
    ensures { result ≡ field_at bytes.now at }
{
    let [tag, high, low, content @ ..] = bytes.get(at..)? else {
        return None;
    };
    let length = usize::from(u16::from_be_bytes([*high, *low]));
    if content.len() < length {
        return None;
    }
    Some(Field { tag: *tag, length })
}

impl<'a> Reader<'a> {
    pub fn of(bytes: &'a [u8], at: usize) -> Reader<'a>
        ensures { (result.bytes ≡ bytes.entry) × (result.at ≡ at) }
    {
        Reader { bytes, at }
    }

    pub fn next(self) -> Option<Field>
        ensures { result ≡ field_at self.entry.bytes.now self.entry.at }
    {
        field_at(self.bytes, self.at)
    }
}
