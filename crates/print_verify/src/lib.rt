// The answer of `verify`, printed line by line through a lent area of bytes.
// No contract can say what is printed; the order of the lines is the order of the calls here.
#![tactic(auto)]

ghost use Rattle.std.specs.Prelude.{◌+◌, ◌*◌, ◌≤◌, length};
ghost use Rattle.show.specs.Writing.{Written};
ghost use Rattle.print_verify.specs.Lines.{first_line, bound, bounds_line};

use check_lines::Form;
use layout::VerdictReasons;
use print_minimize::Printed;
use search_answer::{Found, Verification};
use simulate_lines::Word;

// The status, or the refusal.
fn put_found(out: &mut [u8], n: usize, status: Found) -> usize
    ensures { Written (first_line status) out.old n out.new result }
{
    match status {
        Found::Refused(number) => show::put_refused(out, n, number),
        Found::NoCounterexampleWithinBounds => {
            show::put(out, n, b"status no_counterexample_within_bounds\n")
        }
        Found::Counterexample => show::put(out, n, b"status counterexample\n"),
        Found::Inconclusive => show::put(out, n, b"status inconclusive\n"),
    }
}

// A word and a number within a line.
fn put_bound(out: &mut [u8], n: usize, word: &[u8], number: u32) -> usize
    ensures { Written (bound word.now number) out.old n out.new result }
{
    let a = show::put(out, n, word);
    show::put_number(out, a, number as u64)
}

fn put_bounds(out: &mut [u8], n: usize, depth: u32, horizon: u32, cases: u32, steps: u32) -> usize
    ensures { Written (bounds_line depth horizon cases steps) out.old n out.new result }
{
    let a = put_bound(out, n, b"bounds depth ", depth);
    let b = put_bound(out, a, b" horizon ", horizon);
    let c = put_bound(out, b, b" max_cases ", cases);
    let d = put_bound(out, c, b" max_steps_per_case ", steps);
    show::put_byte(out, d, 10)
}

fn print_counts(out: &mut [u8], n: usize, v: Verification) -> usize {
    let m = show::room(out, n, show::LINE);
    let status = v.status;
    let a = put_found(out, m, status);
    let b = show::put_number_line(out, a, b"cases", v.cases as u64);
    let c = show::put_number_line(out, b, b"total_steps", v.total_steps as u64);
    let d = print_minimize::put_answer_line(out, c, b"shortest_by_event_count", v.shortest);
    put_bounds(
        out,
        d,
        v.depth,
        v.horizon,
        v.max_cases,
        v.max_steps_per_case,
    )
}

// The input at k of the alphabet, in three words.
fn print_input(out: &mut [u8], n: usize, file: &[u8], inputs: &[u32], k: usize) -> usize
    requires { k * 3 + 3 ≤ length inputs.now }
{
    let m = show::room(out, n, show::LINE);
    let at = k * 3;
    let kind = inputs[at];
    let entity = inputs[at + 1];
    let value = inputs[at + 2];
    let a = show::put(out, m, b"alphabet ");
    let b = print_minimize::put_input(out, a, file, kind, entity, value);
    show::put_byte(out, b, 10)
}

// The first `count` inputs, or as many as there is room for.
fn print_inputs(out: &mut [u8], n: usize, file: &[u8], inputs: &[u32], count: usize) -> usize {
    let many = count.min(inputs.len() / 3);
    let mut m = n;
    for k in 0..many {
        m = print_input(out, m, file, inputs, k);
    }
    m
}

fn print_gap(out: &mut [u8], n: usize, gap: u32) -> usize {
    let m = show::room(out, n, show::LINE);
    show::put_number_line(out, m, b"gap", gap as u64)
}

// The first `count` gaps, or as many as there is room for.
fn print_gaps(out: &mut [u8], n: usize, gaps: &[u32], count: usize) -> usize {
    let many = count.min(gaps.len());
    let mut m = n;
    for k in 0..many {
        m = print_gap(out, m, gaps[k]);
    }
    m
}

fn print_told(out: &mut [u8], n: usize, file: &[u8], told: &VerdictReasons, count: usize) -> usize {
    simulate_lines::print_reasons(out, n, Word::Reason, file, told, count)
}

// The settings and the reasons.
fn print_search(out: &mut [u8], n: usize, file: &[u8], v: Verification) -> usize {
    let inputs = v.inputs;
    let seconds = v.seconds;
    let told = v.told;
    let i = print_counts(out, n, v);
    let j = print_inputs(out, i, file, &inputs, v.alphabet);
    let k = print_gaps(out, j, &seconds, v.gaps);
    print_told(out, k, file, &told, v.reasons)
}

fn print_no_witness(out: &mut [u8], n: usize) -> usize {
    let m = show::room(out, n, show::LINE);
    show::put(out, m, b"witness none\n")
}

fn print_count(out: &mut [u8], n: usize, count: usize) -> usize {
    let m = show::room(out, n, show::LINE);
    show::put_number_line(out, m, b"witness", count as u64)
}

fn print_witness(out: &mut [u8], n: usize, file: &[u8], a: &[u32], v: Verification) -> usize {
    let words = v.words;
    let check = v.check;
    let i = print_count(out, n, v.events);
    let j = print_minimize::print_events(out, i, file, &words, v.events);
    let k = print_minimize::print_file(out, j, v.written, b"witness-check\n");
    print_check::print_result(out, k, Form::Full, file, a, check)
}

// What follows a status that is no refusal.
fn print_verification(out: &mut [u8], n: usize, file: &[u8], a: &[u32], v: Verification) -> usize {
    let m = print_search(out, n, file, v);
    if v.written == 0 {
        return print_no_witness(out, m);
    }
    print_witness(out, m, file, a, v)
}

// `verify` with these lent areas.
fn print_searched(
    out: &mut [u8],
    n: usize,
    file: &[u8],
    q: &mut [u32],
    a: &mut [u32],
    r: &mut [u32],
    output: &mut [u8],
) -> Printed {
    let v = search_entry::verify(file, q, a, r, output);
    let status = v.status;
    if let Found::Refused(number) = status {
        return print_minimize::print_refused(out, n, number);
    }
    let next = print_verification(out, n, file, a, v);
    Printed {
        next,
        written: v.written,
    }
}

// `verify` with areas of so many entries.
pub fn print_verify(
    out: &mut [u8],
    n: usize,
    file: &[u8],
    queue: usize,
    records: usize,
    runs: usize,
    output: &mut [u8],
) -> Printed
    requires { (queue ≤ 20544) × ((records ≤ 10096) × (runs ≤ 512)) }
{
    let mut q = [0u32; 102720];
    let mut a = [0u32; 131248];
    let mut r = [0u32; 14336];
    let items = queue * 5;
    let lines = records * 13;
    let rows = runs * 28;
    print_searched(
        out,
        n,
        file,
        &mut q[0..items],
        &mut a[0..lines],
        &mut r[0..rows],
        output,
    )
}
