// The answer of `lint`, printed line by line through a lent area of bytes. No contract can say what is printed; the lines
// are those of `lint_lines` and `lint_reads_lines`, and their order is the order of the calls here.
#![tactic(auto)]

ghost use Rattle.std.specs.Prelude.{◌≤◌};

use lint_entry::Report;
use model_index::Index;

// The longest line: 32 names of 100 bytes and 64 of 255, each byte of them escaped.
const LINE: usize = 45000;

// What 512 KiB hold, in entries.
pub const FINDINGS: usize = 9362;

pub const INTERACTIONS: usize = 43690;

fn print_findings(
    out: &mut [u8],
    n: usize,
    f: &[u8],
    index: Index,
    count: usize,
    a: &[u32],
) -> usize {
    let mut m = n;
    for k in 0..count {
        m = show::room(out, m, LINE);
        m = lint_lines::put_finding_at(out, m, f, index, a, k);
    }
    m
}

fn print_interactions(
    out: &mut [u8],
    n: usize,
    f: &[u8],
    index: Index,
    count: usize,
    a: &[u32],
) -> usize {
    let mut m = n;
    for k in 0..count {
        m = show::room(out, m, LINE);
        m = lint_lines::put_interaction_at(out, m, f, index, a, k);
    }
    m
}

fn print_components(out: &mut [u8], n: usize, f: &[u8], index: Index, r: Report) -> usize {
    let mut m = n;
    for k in 0..32 {
        m = show::room(out, m, LINE);
        m = lint_lines::put_component_at(out, m, f, index, r, k);
    }
    m
}

fn print_touched(
    out: &mut [u8],
    n: usize,
    f: &[u8],
    index: Index,
    r: Report,
    writes: bool,
) -> usize {
    let mut m = n;
    let mut from: u32 = 0;
    for _ in 0..32 {
        m = show::room(out, m, LINE);
        m = lint_reads_lines::put_touched(out, m, f, index, r, from, writes);
        from = lint_reads_lines::next_from(f, index, from);
    }
    m
}

// The lines of an answer whose entries stand in the two areas.
fn print_report(
    out: &mut [u8],
    n: usize,
    f: &[u8],
    r: Report,
    findings: &[u32],
    interactions: &[u32],
) -> usize {
    let x = model_validate::accept(f);
    let index = x.index;
    let start = show::room(out, n, LINE);
    let a = lint_lines::put_counts(out, start, r);
    let b = print_findings(out, a, f, index, r.findings, findings);
    let c = print_interactions(out, b, f, index, r.interactions, interactions);
    let d = print_components(out, c, f, index, r);
    let e = print_touched(out, d, f, index, r, false);
    print_touched(out, e, f, index, r, true)
}

// What `lint` says of a file, with these areas.
fn print_answer(
    out: &mut [u8],
    n: usize,
    f: &[u8],
    findings: &mut [u32],
    interactions: &mut [u32],
) -> usize {
    let r = lint_entry::lint(f, findings, interactions);
    if r.refused != 0 {
        let m = show::room(out, n, LINE);
        return show::put_refused(out, m, r.refused);
    }
    print_report(out, n, f, r, findings, interactions)
}

// The same with areas of its own, for so many findings and interactions.
pub fn print_lint(out: &mut [u8], n: usize, f: &[u8], found: usize, led: usize) -> usize
    requires { (found ≤ 9362) × (led ≤ 43690) }
{
    let mut findings = [0u32; 131072];
    let mut interactions = [0u32; 131072];
    let a = found * 14;
    let b = led * 3;
    print_answer(out, n, f, &mut findings[..a], &mut interactions[..b])
}
