// The answer of `check`, printed line by line through a lent area of bytes, for `showcheck` (bare) and `showfullcheck`.
// No contract can say what is printed; the lines are those of `check_lines`, `simulate_lines` and `record_lines`, and their
// order is the order of the calls here.
#![tactic(auto)]

ghost use Rattle.std.specs.Prelude.{◌≤◌};
ghost use Rattle.show.specs.Writing.{Written};
ghost use Rattle.print_check.specs.Answer.{first_line};

use check_lines::Form;
use checker_result::{CheckResult, Status};
use engine_summary::Simulation;
use layout::{IncompleteReasons, SimulationReasons, Table, VerdictReasons, Violations};
use simulate_lines::Word;

// The status, or the refusal.
pub fn put_status(out: &mut [u8], n: usize, status: Status) -> usize
    ensures { Written (first_line status) out.old n out.new result }
{
    match status {
        Status::Refused(number) => show::put_refused(out, n, number),
        Status::Unknown => show::put(out, n, b"status unknown\n"),
        Status::Violation => show::put(out, n, b"status violation\n"),
        Status::Incomplete => show::put(out, n, b"status incomplete\n"),
        Status::NoViolationInTrace => show::put(out, n, b"status no_violation_in_trace\n"),
    }
}

fn print_violations(
    out: &mut [u8],
    n: usize,
    form: Form,
    file: &[u8],
    violated: &Violations,
    count: usize,
) -> usize {
    check_lines::print_violations(out, n, form, file, violated, count)
}

fn print_unknown(
    out: &mut [u8],
    n: usize,
    form: Form,
    file: &[u8],
    reasons: &VerdictReasons,
    count: usize,
) -> usize {
    check_lines::print_reasons(out, n, form, b"unknown", file, reasons, count)
}

fn print_incomplete(
    out: &mut [u8],
    n: usize,
    form: Form,
    file: &[u8],
    reasons: &IncompleteReasons,
    count: usize,
) -> usize {
    check_lines::print_reasons(out, n, form, b"incomplete", file, reasons, count)
}

// What follows the status: numbers, violations and reasons.
fn print_verdict(out: &mut [u8], n: usize, form: Form, file: &[u8], c: CheckResult) -> usize {
    let s = c.simulation;
    let violated = c.violated;
    let unknowns = c.unknowns;
    let incompletes = c.incompletes;
    let h = simulate_lines::put_steps(out, n, s.steps);
    let i = simulate_lines::put_records(out, h, s.records);
    let j = print_violations(out, i, form, file, &violated, c.violations);
    let k = print_unknown(out, j, form, file, &unknowns, c.unknown);
    print_incomplete(out, k, form, file, &incompletes, c.incomplete)
}

// The table of an accepted file.
fn table(file: &[u8]) -> Table {
    let x = model_validate::accept(file);
    engine_table::table_of(file, x.index)
}

fn print_sim_unknown(
    out: &mut [u8],
    n: usize,
    file: &[u8],
    reasons: &SimulationReasons,
    count: usize,
) -> usize {
    simulate_lines::print_reasons(out, n, Word::SimUnknown, file, reasons, count)
}

// The lines of the simulation, whose records stand in the area `a`.
fn print_simulation(out: &mut [u8], n: usize, file: &[u8], a: &[u32], s: Simulation) -> usize {
    let words = table(file);
    let values = s.values;
    let reasons = s.reasons;
    let i = record_lines::print_records(out, n, file, &words, a, s.records);
    let j = simulate_lines::print_finals(out, i, file, &words, &values);
    let k = print_sim_unknown(out, j, file, &reasons, s.unknown);
    simulate_lines::print_incomplete(out, k, s.stop_reason, s.runs_left)
}

fn print_answer(
    out: &mut [u8],
    n: usize,
    form: Form,
    file: &[u8],
    a: &[u32],
    c: CheckResult,
) -> usize {
    let m = print_verdict(out, n, form, file, c);
    match form {
        Form::Bare => m,
        Form::Full => print_simulation(out, m, file, a, c.simulation),
    }
}

// The status and all that follows it; a refusal's number only.
pub fn print_result(
    out: &mut [u8],
    n: usize,
    form: Form,
    file: &[u8],
    a: &[u32],
    c: CheckResult,
) -> usize {
    let status = c.status;
    let m = put_status(out, n, status);
    if let Status::Refused(_) = status {
        return m;
    }
    print_answer(out, m, form, file, a, c)
}

// `check` with these lent areas.
fn print_lent(
    out: &mut [u8],
    n: usize,
    form: Form,
    file: &[u8],
    q: &mut [u32],
    a: &mut [u32],
    r: &mut [u32],
) -> usize {
    let c = checker_entry::check(file, q, a, r);
    print_result(out, n, form, file, a, c)
}

// The lines of `showcheck`: its areas have at most 64 KiB each, 3,276 entries of the queue, 1,260 records, 585 runs.
pub fn print_check(out: &mut [u8], n: usize, file: &[u8]) -> usize {
    let mut q = [0u32; 16380];
    let mut a = [0u32; 16380];
    let mut r = [0u32; 16380];
    print_lent(out, n, Form::Bare, file, &mut q, &mut a, &mut r)
}

// The lines of `showfullcheck`, with areas of so many entries.
pub fn print_full_check(
    out: &mut [u8],
    n: usize,
    file: &[u8],
    queue: usize,
    records: usize,
    runs: usize,
) -> usize
    requires { (queue ≤ 20544) × ((records ≤ 10096) × (runs ≤ 512)) }
{
    let mut q = [0u32; 102720];
    let mut a = [0u32; 131248];
    let mut r = [0u32; 14336];
    let items = queue * 5;
    let lines = records * 13;
    let rows = runs * 28;
    print_lent(
        out,
        n,
        Form::Full,
        file,
        &mut q[0..items],
        &mut a[0..lines],
        &mut r[0..rows],
    )
}
