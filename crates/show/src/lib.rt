// What the programs print. The writers put a text behind the first n bytes of a lent area, and answer the next free index.
// If the text doesn't fit, the answer is past the area's end, where every writer writes nothing.
#![tactic(auto)]

ghost use Rattle.std.specs.Prelude.{◌≡◌, [], ◌∷◌, ◌+◌, ◌≤◌, length};
ghost use Rattle.texts.specs.Texts.{decimal};
ghost use Rattle.texts.specs.Places.{text_at};
ghost use Rattle.reasons.specs.Reasons.{render};
ghost use Rattle.show.specs.Writing.{Written};
ghost use Rattle.show.specs.Lines.{escape, quoted, source, number_line, accepted_line, refused_line, model_line};

use reasons::Reason;

// The answer of a writer whose text doesn't fit.
pub const FULL: usize = 18446744073709551615;

// No line of the programs is longer, however its texts are escaped, but for those of lint.
pub const LINE: usize = 4096;

// ---- parts of lines

pub fn put_byte(out: &mut [u8], n: usize, b: u8) -> usize
    ensures { Written (b ∷ []) out.old n out.new result }
{
    if out.len() <= n {
        return FULL;
    }
    out[n] = b;
    n + 1
}

// A text as it is.
pub fn put(out: &mut [u8], n: usize, t: &[u8]) -> usize
    ensures { Written t.now out.old n out.new result }
{
    let mut m = n;
    for x in t {
        m = put_byte(out, m, *x);
    }
    m
}

// A number in decimal.
pub fn put_number(out: &mut [u8], n: usize, x: u64) -> usize
    ensures { Written (decimal x) out.old n out.new result }
{
    if x < 10 {
        return put_byte(out, n, 48 + x as u8);
    }
    let m = put_number(out, n, x / 10);
    put_byte(out, m, 48 + (x % 10) as u8)
}

// A byte of a quoted text.
pub fn put_escaped(out: &mut [u8], n: usize, b: u8) -> usize
    ensures { Written (escape b) out.old n out.new result }
{
    if b == 34 {
        let m = put_byte(out, n, 92);
        return put_byte(out, m, b);
    }
    if b == 92 {
        let m = put_byte(out, n, 92);
        return put_byte(out, m, b);
    }
    put_byte(out, n, b)
}

// A text between quotes.
pub fn put_quoted(out: &mut [u8], n: usize, t: &[u8]) -> usize
    ensures { Written (quoted t.now) out.old n out.new result }
{
    let mut m = put_byte(out, n, 34);
    for x in t {
        m = put_escaped(out, m, *x);
    }
    put_byte(out, m, 34)
}

// The text at a position of the model file.
pub fn put_text(out: &mut [u8], n: usize, f: &[u8], at: usize) -> usize
    ensures { Written (text_at f.now at) out.old n out.new result }
{
    if f.len() <= at {
        return n;
    }
    let from = at + 1;
    let end = from + texts::text_len(f, at);
    put(out, n, &f[from..end])
}

pub fn put_quoted_text(out: &mut [u8], n: usize, f: &[u8], at: usize) -> usize
    ensures { Written (quoted (text_at f.now at)) out.old n out.new result }
{
    if f.len() <= at {
        return put(out, n, b"\"\"");
    }
    let from = at + 1;
    let end = from + texts::text_len(f, at);
    put_quoted(out, n, &f[from..end])
}

// A reason as it is rendered.
pub fn put_reason(out: &mut [u8], n: usize, f: &[u8], r: Reason) -> usize
    ensures { Written (render f.now r) out.old n out.new result }
{
    let count = reasons::rendered_len(f, r);
    let mut m = n;
    for i in 0..count {
        m = put_byte(out, m, reasons::byte_at(f, r, i));
    }
    m
}

pub fn put_quoted_reason(out: &mut [u8], n: usize, f: &[u8], r: Reason) -> usize
    ensures { Written (quoted (render f.now r)) out.old n out.new result }
{
    let count = reasons::rendered_len(f, r);
    let mut m = put_byte(out, n, 34);
    for i in 0..count {
        m = put_escaped(out, m, reasons::byte_at(f, r, i));
    }
    put_byte(out, m, 34)
}

// Where a thing stands in the user's file: LINE:COLUMN, or `-`.
pub fn put_source(out: &mut [u8], n: usize, s: Option<(u32, u32)>) -> usize
    ensures { Written (source s) out.old n out.new result }
{
    match s {
        Some((line, column)) => {
            let m = put_number(out, n, line as u64);
            let k = put_byte(out, m, 58);
            put_number(out, k, column as u64)
        }
        None => put_byte(out, n, 45),
    }
}

// ---- lines

// A word and a number.
pub fn put_number_line(out: &mut [u8], n: usize, word: &[u8], number: u64) -> usize
    ensures { Written (number_line word.now number) out.old n out.new result }
{
    let a = put(out, n, word);
    let b = put_byte(out, a, 32);
    let c = put_number(out, b, number);
    put_byte(out, c, 10)
}

pub fn put_accepted(out: &mut [u8], n: usize) -> usize
    ensures { Written accepted_line out.old n out.new result }
{
    put(out, n, b"accepted\n")
}

pub fn put_refused(out: &mut [u8], n: usize, number: u32) -> usize
    ensures { Written (refused_line number) out.old n out.new result }
{
    let m = put(out, n, b"refused ");
    let k = put_number(out, m, number as u64);
    put_byte(out, k, 10)
}

// The line before a model of a batch.
pub fn put_model(out: &mut [u8], n: usize, k: u32) -> usize
    ensures { Written (model_line k) out.old n out.new result }
{
    let m = put(out, n, b"model ");
    let j = put_number(out, m, k as u64);
    put_byte(out, j, 10)
}

// ---- standard output

// Writes the first n bytes to standard output. The answer, 0, is where the next text goes.
pub fn flush(out: &[u8], n: usize) -> usize
    ensures { result ≡ 0 }
{
    if n <= out.len() {
        io::write_all(1, &out[0..n]);
        return 0;
    }
    io::write_all(1, b"output area too short\n");
    0
}

// Flushes if fewer than `need` bytes are free. The answer is where the next text goes.
pub fn room(out: &[u8], n: usize, need: usize) -> usize
    ensures { (result ≤ n) × (need ≤ length out.now → result + need ≤ length out.now) }
{
    if n <= out.len() {
        if need <= out.len() - n {
            return n;
        }
    }
    flush(out, n)
}
