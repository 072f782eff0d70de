// Texts in a file: a length byte, and as many bytes.
#![tactic(auto)]

ghost use Rattle.std.specs.Prelude.{◌≡◌, ◌≤◌, ◌<◌, length, get_or};
ghost use Rattle.texts.specs.Places.{text_at, start_from, seek};

pub fn byte(s: &[u8], at: usize) -> u32
    requires { at < length s.now }
    ensures { (result ≡ get_or s.now at 0) × (result < 256) }
{
    u32::from(s[at])
}

// The length byte at a position, 0 past the end.
pub fn length_byte(f: &[u8], at: usize) -> usize
    ensures { (result ≡ get_or f.now at 0) × (result < 256) }
{
    f.get(at).map_or(0, |b| usize::from(*b))
}

// The position of the text at a place, where the text at place 0 stands at `from`.
pub fn text_start(f: &[u8], from: usize, place: u32) -> usize
    requires { from ≤ 4294967295 }
    ensures { result ≡ start_from f.now from place }
{
    let mut at = from;
    for _ in 0..place {
        at = at + 1 + length_byte(f, at);
    }
    at
}

pub fn text_len(f: &[u8], at: usize) -> usize
    ensures { (result ≡ length (text_at f.now at)) × (result < 256) }
{
    if f.len() <= at {
        return 0;
    }
    length_byte(f, at).min(f.len() - at - 1)
}

// The byte at an index of the text at a position, or how far the index is past the text's end.
pub fn text_seek(f: &[u8], at: usize, i: usize) -> Result<u8, usize>
    ensures { result ≡ seek (text_at f.now at) i }
{
    let n = text_len(f, at);
    if i < n {
        return Ok(f[at + 1 + i]);
    }
    Err(i - n)
}
