// The answers of `unsupported` and `simulate`, printed line by line through a lent area of bytes.
// No contract can say what is printed; the lines are those of `simulate_lines` and `record_lines`, and their order is the
// order of the calls here. None is lost if `out` has room for the longest one (`Kept`).
#![tactic(auto)]

ghost use Rattle.std.specs.Prelude.{◌≤◌};
ghost use Rattle.show.specs.Writing.{Kept};

use layout::{SimulationReasons, Table};
use simulate_lines::Word;

fn print_refused(out: &mut [u8], n: usize, number: u32) -> usize
    ensures { Kept out.old n out.new result }
{
    let m = show::room(out, n, show::LINE);
    show::put_refused(out, m, number)
}

fn print_count(out: &mut [u8], n: usize, count: usize) -> usize
    ensures { Kept out.old n out.new result }
{
    let m = show::room(out, n, show::LINE);
    simulate_lines::put_unsupported(out, m, count)
}

pub fn print_unsupported(out: &mut [u8], n: usize, file: &[u8]) -> usize
    ensures { Kept out.old n out.new result }
{
    let r = engine_entry::unsupported(file);
    if r.refused != 0 {
        return print_refused(out, n, r.refused);
    }
    let reasons = r.reasons;
    let m = print_count(out, n, r.count);
    simulate_lines::print_reasons(out, m, Word::Reason, file, &reasons, r.count)
}

// The table of an accepted file.
fn table(file: &[u8]) -> Table {
    let x = model_validate::accept(file);
    engine_table::table_of(file, x.index)
}

// The records and the values at the end, by the places of their texts.
fn print_places(
    out: &mut [u8],
    n: usize,
    file: &[u8],
    a: &[u32],
    records: usize,
    values: &[u32; 32],
) -> usize
    ensures { Kept out.old n out.new result }
{
    let words = table(file);
    let m = record_lines::print_records(out, n, file, &words, a, records);
    simulate_lines::print_finals(out, m, file, &words, values)
}

fn print_numbers(out: &mut [u8], n: usize, steps: u32, records: usize, horizon: u32) -> usize
    ensures { Kept out.old n out.new result }
{
    let m = show::room(out, n, show::LINE);
    let a = simulate_lines::put_steps(out, m, steps);
    let b = simulate_lines::put_records(out, a, records);
    simulate_lines::put_horizon(out, b, horizon)
}

fn print_unknown(
    out: &mut [u8],
    n: usize,
    file: &[u8],
    reasons: &SimulationReasons,
    count: usize,
) -> usize
    ensures { Kept out.old n out.new result }
{
    simulate_lines::print_reasons(out, n, Word::SimUnknown, file, reasons, count)
}

// `simulate` with these lent areas.
fn print_lent(
    out: &mut [u8],
    n: usize,
    file: &[u8],
    q: &mut [u32],
    a: &mut [u32],
    r: &mut [u32],
) -> usize
    ensures { Kept out.old n out.new result }
{
    let s = engine_entry::simulate(file, q, a, r);
    if s.refused != 0 {
        return print_refused(out, n, s.refused);
    }
    let values = s.values;
    let reasons = s.reasons;
    let m = print_numbers(out, n, s.steps, s.records, s.horizon);
    let k = print_places(out, m, file, a, s.records, &values);
    let l = print_unknown(out, k, file, &reasons, s.unknown);
    simulate_lines::print_incomplete(out, l, s.stop_reason, s.runs_left)
}

// `simulate` with areas of so many entries.
pub fn print_simulate(
    out: &mut [u8],
    n: usize,
    file: &[u8],
    queue: usize,
    records: usize,
    runs: usize,
) -> usize
    requires { (queue ≤ 20544) × ((records ≤ 10096) × (runs ≤ 512)) }
    ensures { Kept out.old n out.new result }
{
    let mut q = [0u32; 102720];
    let mut a = [0u32; 131248];
    let mut r = [0u32; 14336];
    let items = queue * 5;
    let lines = records * 13;
    let rows = runs * 28;
    print_lent(
        out,
        n,
        file,
        &mut q[0..items],
        &mut a[0..lines],
        &mut r[0..rows],
    )
}
