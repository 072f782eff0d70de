// The lines of `unsupported` and `simulate` besides the records: numbers, reasons, why a simulation is incomplete, and the
// entities' values at the end. They are written behind the first n bytes of a lent area as the writers of `show` do. x is
// the table of the file f (crate `engine_table`); texts are named by their places.
#![tactic(auto)]

ghost use Rattle.std.specs.Prelude.{◌+◌, ◌*◌, ◌≤◌, ◌<◌, length, drop};
ghost use Rattle.reasons.specs.Reasons.{render};
ghost use Rattle.reasons.specs.Lists.{reason_of};
ghost use Rattle.engine_fields.specs.Fields.{name};
ghost use Rattle.show.specs.Lines.{quoted};
ghost use Rattle.show.specs.Writing.{Written, Kept};
ghost use Rattle.simulate_lines.specs.Lines.{
  text_line,
  steps_line,
  records_line,
  horizon_line,
  unsupported_line,
  reason_line,
  sim_unknown_line,
  halted,
  incomplete_of,
  incomplete_lines,
  final_line,
};
ghost use Rattle.simulate_lines.specs.FileTexts.{text_of};

use layout::Table;
use reasons::Reason;

// ---- a word and a number

pub fn put_steps(out: &mut [u8], n: usize, steps: u32) -> usize
    ensures { Written (steps_line steps) out.old n out.new result }
{
    show::put_number_line(out, n, b"steps", steps as u64)
}

pub fn put_records(out: &mut [u8], n: usize, records: usize) -> usize
    ensures { Written (records_line records) out.old n out.new result }
{
    show::put_number_line(out, n, b"records", records as u64)
}

pub fn put_horizon(out: &mut [u8], n: usize, horizon: u32) -> usize
    ensures { Written (horizon_line horizon) out.old n out.new result }
{
    show::put_number_line(out, n, b"horizon", horizon as u64)
}

pub fn put_unsupported(out: &mut [u8], n: usize, count: usize) -> usize
    ensures { Written (unsupported_line count) out.old n out.new result }
{
    show::put_number_line(out, n, b"unsupported", count as u64)
}

// ---- a word and a reason

fn put_reason_line(out: &mut [u8], n: usize, word: &[u8], f: &[u8], r: Reason) -> usize
    ensures { Written (text_line word.now (render f.now r)) out.old n out.new result }
{
    let a = show::put(out, n, word);
    let b = show::put_byte(out, a, 32);
    let c = show::put_quoted_reason(out, b, f, r);
    show::put_byte(out, c, 10)
}

// The reason at i of a list of reasons, for `unsupported` and for `simulate`.
pub fn put_reason(out: &mut [u8], n: usize, f: &[u8], a: &[u32], i: usize) -> usize
    requires { i * 5 + 5 ≤ length a.now }
    ensures { Written (reason_line (render f.now (reason_of (drop (i * 5) a.now)))) out.old n out.new result }
{
    let r = reasons::get(a, i);
    put_reason_line(out, n, b"reason", f, r)
}

pub fn put_unknown(out: &mut [u8], n: usize, f: &[u8], a: &[u32], i: usize) -> usize
    requires { i * 5 + 5 ≤ length a.now }
    ensures { Written (sim_unknown_line (render f.now (reason_of (drop (i * 5) a.now)))) out.old n out.new
        result }
{
    let r = reasons::get(a, i);
    put_reason_line(out, n, b"sim-unknown", f, r)
}

// ---- why a simulation is incomplete

fn put_text_line(out: &mut [u8], n: usize, word: &[u8], t: &[u8]) -> usize
    ensures { Written (text_line word.now t.now) out.old n out.new result }
{
    let a = show::put(out, n, word);
    let b = show::put_byte(out, a, 32);
    let c = show::put_quoted(out, b, t);
    show::put_byte(out, c, 10)
}

// By the number of its halt.
fn put_halted(out: &mut [u8], n: usize, why: u32) -> usize
    ensures { Written (incomplete_lines (halted why)) out.old n out.new result }
{
    match why {
        0 => n,
        1 => put_text_line(
            out,
            n,
            b"sim-incomplete",
            b"trace or queue budget exhausted",
        ),
        _ => put_text_line(out, n, b"sim-incomplete", b"step budget exhausted"),
    }
}

// By the number of its halt, and whether runs were left.
pub fn put_incomplete(out: &mut [u8], n: usize, why: u32, waiting: bool) -> usize
    ensures { Written (incomplete_lines (incomplete_of why waiting)) out.old n out.new result }
{
    let m = put_halted(out, n, why);
    if waiting {
        return put_text_line(
            out,
            m,
            b"sim-incomplete",
            b"active or queued runs beyond observation horizon",
        );
    }
    m
}

// ---- texts by place

// The text at a place, quoted; the empty text for a place past the last.
pub fn put_place(out: &mut [u8], n: usize, f: &[u8], x: &Table, place: u32) -> usize
    ensures { Written (quoted (text_of f.now x.now place)) out.old n out.new result }
{
    if x[layout::TEXT_COUNT] <= place {
        return show::put(out, n, b"\"\"");
    }
    let at = texts::text_start(f, 6, place);
    show::put_quoted_text(out, n, f, at)
}

// The value of an entity at the end.
pub fn put_final(out: &mut [u8], n: usize, f: &[u8], x: &Table, e: usize, value: u32) -> usize
    requires { e < 32 }
    ensures { Written (final_line (text_of f.now x.now (name x.now e)) (text_of f.now x.now value))
        out.old n out.new result }
{
    let a = show::put(out, n, b"final ");
    let b = put_place(out, a, f, x, engine_fields::name_of(x, e));
    let c = show::put_byte(out, b, 32);
    let d = put_place(out, c, f, x, value);
    show::put_byte(out, d, 10)
}

// ---- printing: lines behind the first n bytes of `out`, which goes to standard output first where a line may not fit.
// The answer is where the next text goes; whoever printed last flushes. No line is cut if `out` has room for the longest
// one.

// Which line a reason gets.
#[derive(Clone, Copy)]
pub enum Word {
    Reason,
    SimUnknown,
}

fn print_reason(out: &mut [u8], n: usize, word: Word, f: &[u8], a: &[u32], i: usize) -> usize
    requires { i * 5 + 5 ≤ length a.now }
    ensures { Kept out.old n out.new result }
{
    let free = show::room(out, n, show::LINE);
    match word {
        Word::Reason => put_reason(out, free, f, a, i),
        Word::SimUnknown => put_unknown(out, free, f, a, i),
    }
}

// The first `count` reasons of a list, or as many as it has room for.
pub fn print_reasons(
    out: &mut [u8],
    n: usize,
    word: Word,
    f: &[u8],
    a: &[u32],
    count: usize,
) -> usize
    ensures { Kept out.old n out.new result }
{
    let many = count.min(a.len() / 5);
    let mut m = n;
    for i in 0..many {
        m = print_reason(out, m, word, f, a, i);
    }
    m
}

fn print_final(out: &mut [u8], n: usize, f: &[u8], x: &Table, e: usize, value: u32) -> usize
    requires { e < 32 }
    ensures { Kept out.old n out.new result }
{
    let m = show::room(out, n, show::LINE);
    put_final(out, m, f, x, e, value)
}

// The entities' values at the end, by the places of their texts.
pub fn print_finals(out: &mut [u8], n: usize, f: &[u8], x: &Table, values: &[u32; 32]) -> usize
    ensures { Kept out.old n out.new result }
{
    let many = bounds::at_most(x[layout::ENTITY_COUNT], 32);
    let mut m = n;
    for e in 0..many {
        m = print_final(out, m, f, x, e, values[e]);
    }
    m
}

pub fn print_incomplete(out: &mut [u8], n: usize, why: u32, waiting: bool) -> usize
    ensures { Kept out.old n out.new result }
{
    let m = show::room(out, n, show::LINE);
    put_incomplete(out, m, why, waiting)
}
