// Texts put at the start of a buffer, each with how many bytes of it are put. What has no room is left out, so no text is too long.
ghost use Rattle.std.specs.Prelude.{[], ◌∷◌, ◌+◌, ◌≡◌, ◌<◌};
ghost use Rattle.lines.specs.Lines.{decimal, spaced};
ghost use Rattle.lines.specs.Written.{Written};

pub fn put(out: &mut [u8], text: &[u8]) -> usize
    ensures { Written text.now out.old out.new result }
{
    let many = text.len().min(out.len());
    out[..many].copy_from_slice(&text[..many]);
    many
}

// One byte: put as a text it costs a call of the library.
pub fn put_byte(out: &mut [u8], byte: u8) -> usize
    ensures { Written (byte ∷ []) out.old out.new result }
{
    if out.is_empty() {
        return 0;
    }
    out[0] = byte;
    1
}

// By hand, as the number is: two edits that must be refused are wrong digits.
fn digit(n: usize) -> u8
    requires { n < 10 }
    ensures { result ≡ 48 + n }
{
    b'0' + n as u8
}

// In decimal: the digits before the last are those of a tenth.
pub fn put_number(out: &mut [u8], number: usize) -> usize
    ensures { Written (decimal number) out.old out.new result }
{
    if number < 10 {
        return put_byte(out, digit(number));
    }
    let at = put_number(out, number / 10);
    at + put_byte(&mut out[at..], digit(number % 10))
}

// A number after one space.
pub fn put_spaced(out: &mut [u8], number: usize) -> usize
    ensures { Written (spaced (number ∷ [])) out.old out.new result }
{
    let at = put_byte(out, b' ');
    at + put_number(&mut out[at..], number)
}
