// The answer of `minimize`, and what the lines of `verify` share with it, printed line by line through a lent area of bytes.
// No contract can say what is printed; the order of the lines is the order of the calls here.
#![tactic(auto)]

ghost use Rattle.std.specs.Prelude.{◌≡◌, ◌+◌, ◌*◌, ◌≤◌, length};
ghost use Rattle.show.specs.Lines.{quoted};
ghost use Rattle.show.specs.Writing.{Written};
ghost use Rattle.print_minimize.specs.Lines.{
  input_text,
  event_line,
  placed_text,
  input_of,
  event_of,
  answer_line,
  invariant_line,
};

use check_lines::Form;
use reduce_result::Minimized;

// Where the next text goes, and how many bytes of the lent output are the new file.
#[derive(Clone, Copy)]
pub struct Printed {
    pub next: usize,
    pub written: usize,
}

// ---- parts of lines

// The text at a place, quoted.
fn put_place(out: &mut [u8], n: usize, file: &[u8], place: u32) -> usize
    ensures { Written (quoted (placed_text file.now place)) out.old n out.new result }
{
    let at = texts::text_start(file, 6, place);
    show::put_quoted_text(out, n, file, at)
}

// An input: kind 0 sets an entity to a value, 1 restarts, 2 reloads.
pub fn put_input(out: &mut [u8], n: usize, file: &[u8], kind: u32, entity: u32, value: u32) -> usize
    ensures { Written (input_text (input_of file.now kind entity value)) out.old n out.new result }
{
    if kind == 1 {
        return show::put(out, n, b"restart");
    }
    if kind == 2 {
        return show::put(out, n, b"reload");
    }
    let a = show::put(out, n, b"set ");
    let b = put_place(out, a, file, entity);
    let c = show::put_byte(out, b, 32);
    put_place(out, c, file, value)
}

// A word and `yes` or `no`.
pub fn put_answer_line(out: &mut [u8], n: usize, word: &[u8], so: bool) -> usize
    ensures { Written (answer_line word.now so) out.old n out.new result }
{
    let a = show::put(out, n, word);
    if so {
        return show::put(out, a, b" yes\n");
    }
    show::put(out, a, b" no\n")
}

// ---- events

fn put_event(
    out: &mut [u8],
    n: usize,
    file: &[u8],
    second: u32,
    kind: u32,
    entity: u32,
    value: u32,
) -> usize
    ensures { Written (event_line (event_of file.now second kind entity value)) out.old n out.new result }
{
    let a = show::put(out, n, b"event ");
    let b = show::put_number(out, a, second as u64);
    let c = show::put_byte(out, b, 32);
    let d = put_input(out, c, file, kind, entity, value);
    show::put_byte(out, d, 10)
}

// The event at k, in four words.
fn print_event(out: &mut [u8], n: usize, file: &[u8], events: &[u32], k: usize) -> usize
    requires { k * 4 + 4 ≤ length events.now }
{
    let m = show::room(out, n, show::LINE);
    let at = k * 4;
    let second = events[at];
    let kind = events[at + 1];
    let entity = events[at + 2];
    let value = events[at + 3];
    put_event(out, m, file, second, kind, entity, value)
}

// The first `count` events, or as many as there is room for.
pub fn print_events(out: &mut [u8], n: usize, file: &[u8], events: &[u32], count: usize) -> usize {
    let many = count.min(events.len() / 4);
    let mut m = n;
    for k in 0..many {
        m = print_event(out, m, file, events, k);
    }
    m
}

// ---- minimize

fn put_invariant(out: &mut [u8], n: usize, file: &[u8], place: u32) -> usize
    ensures { Written (invariant_line (placed_text file.now place)) out.old n out.new result }
{
    let a = show::put(out, n, b"invariant ");
    let b = put_place(out, a, file, place);
    show::put_byte(out, b, 10)
}

fn print_numbers(out: &mut [u8], n: usize, file: &[u8], r: Minimized) -> usize {
    let m = show::room(out, n, show::LINE);
    let a = put_invariant(out, m, file, r.invariant);
    let b = show::put_number_line(out, a, b"original_events", r.original_events as u64);
    let c = show::put_number_line(out, b, b"attempts", r.attempts as u64);
    let d = put_answer_line(out, c, b"deletion_minimal", r.deletion_minimal);
    show::put_number_line(out, d, b"reduced", r.events as u64)
}

// The new file's length, and what the lines of its check are headed by.
pub fn print_file(out: &mut [u8], n: usize, written: usize, word: &[u8]) -> usize {
    let m = show::room(out, n, show::LINE);
    let a = show::put_number_line(out, m, b"file", written as u64);
    show::put(out, a, word)
}

fn print_reduced(out: &mut [u8], n: usize, file: &[u8], a: &[u32], r: Minimized) -> usize {
    let words = r.words;
    let check = r.check;
    let i = print_numbers(out, n, file, r);
    let j = print_events(out, i, file, &words, r.events);
    let k = print_file(out, j, r.written, b"reduced-check\n");
    print_check::print_result(out, k, Form::Full, file, a, check)
}

pub fn print_refused(out: &mut [u8], n: usize, number: u32) -> Printed
    ensures { result.written ≡ 0 }
{
    let m = show::room(out, n, show::LINE);
    let next = show::put_refused(out, m, number);
    Printed { next, written: 0 }
}

// `minimize` with these lent areas.
fn print_lent(
    out: &mut [u8],
    n: usize,
    file: &[u8],
    q: &mut [u32],
    a: &mut [u32],
    r: &mut [u32],
    output: &mut [u8],
) -> Printed
    ensures { result.written ≤ length output.old }
{
    let x = reduce_entry::minimize(file, q, a, r, output);
    if x.refused != 0 {
        return print_refused(out, n, x.refused);
    }
    let next = print_reduced(out, n, file, a, x);
    Printed {
        next,
        written: x.written,
    }
}

// `minimize` with areas of so many entries.
pub fn print_minimize(
    out: &mut [u8],
    n: usize,
    file: &[u8],
    queue: usize,
    records: usize,
    runs: usize,
    output: &mut [u8],
) -> Printed
    requires { (queue ≤ 20544) × ((records ≤ 10096) × (runs ≤ 512)) }
    ensures { result.written ≤ length output.old }
{
    let mut q = [0u32; 102720];
    let mut a = [0u32; 131248];
    let mut r = [0u32; 14336];
    let items = queue * 5;
    let lines = records * 13;
    let rows = runs * 28;
    print_lent(
        out,
        n,
        file,
        &mut q[0..items],
        &mut a[0..lines],
        &mut r[0..rows],
        output,
    )
}
