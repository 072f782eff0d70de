// The lines of the records of `simulate`, written behind the first n bytes of a lent area as the writers of `show` do.
// x is the table of the file f (crate `engine_table`); texts are named by their places.
#![tactic(auto)]

ghost use Rattle.std.specs.Prelude.{◌≡◌, [], ◌∷◌, ◌++◌, ◌+◌, ◌*◌, ◌≤◌, length, get_or};
ghost use Rattle.texts.specs.Texts.{text, decimal};
ghost use Rattle.engine_spec.specs.Truth.{truth_name};
ghost use Rattle.engine_spec.specs.Records.{detail};
ghost use Rattle.engine_fields.specs.Fields.{word};
ghost use Rattle.engine_refinement.specs.Meaning.{verdict_of, kind_of, rule_of, where_of, change_of, record_of};
ghost use Rattle.show.specs.Lines.{quoted};
ghost use Rattle.show.specs.Writing.{Written, Kept};
ghost use Rattle.record_lines.specs.Lines.{quoted_if, placed_if, changed, record_line};
ghost use Rattle.simulate_lines.specs.FileTexts.{texts_of, text_of};
ghost use Rattle.record_lines.specs.RecordWords.{name_of, detail_begins, detail_ends, RecordPut};

use layout::Table;
use records::{Record, Write};
use simulate_lines::put_place;

// The names of the kinds 0 to 17, and what their details begin with, each behind its length.
const NAMES: [u8; 135] =
    *b"\x07initial\x08external\x06action\x05stale\x07restart\x06cancel\x07ignored\x07ignored\x06choose\x07horizon\x07trigger\x09condition\x05start\x06queued\x08complete\x05delay\x04wait\x07timeout";

const DETAILS: [u8; 210] =
    *b"\x00\x00\x00\x19modeled freshness expired\x26cancel all runs; preserve entity state\x0crestart mode\x1bsingle mode already running\x0frun max reached\x0fselected branch\x14observation boundary\x0bconditions \x00\x04run \x04run \x04run \x00\x08timeout \x09continue ";

// ---- the parts of a record's line

// A word of the table, 0 past its end.
fn word_at(x: &[u32], k: usize) -> u32
    ensures { result ≡ get_or x.now k 0 }
{
    if k < x.len() {
        return x[k];
    }
    0
}

// The place of an automation's identifier.
fn id_place(x: &Table, i: u32) -> u32
    ensures { result ≡ word x.now i 0 }
{
    word_at(x, 80 + i as usize * 8)
}

fn put_rule(out: &mut [u8], n: usize, f: &[u8], x: &Table, rule: Option<u32>) -> usize
    ensures { Written (quoted_if (rule_of x.now (texts_of f.now x.now) rule)) out.old n out.new result }
{
    match rule {
        None => show::put_byte(out, n, 45),
        Some(i) => put_place(out, n, f, x, id_place(x, i)),
    }
}

fn put_where(out: &mut [u8], n: usize, source: Option<records::Source>) -> usize
    ensures { Written (placed_if (where_of source)) out.old n out.new result }
{
    match source {
        None => show::put_byte(out, n, 45),
        Some(place) => show::put_source(out, n, Some((place.line, place.column))),
    }
}

fn put_write(out: &mut [u8], n: usize, f: &[u8], x: &Table, e: u32, b: u32, a: u32) -> usize
    ensures { Written (quoted
        (text_of f.now x.now
        e) ++ (32 ∷ (quoted (text_of f.now x.now b) ++ (32 ∷ quoted (text_of f.now x.now a))))) out.old n out.new
        result }
{
    let i = put_place(out, n, f, x, e);
    let j = show::put_byte(out, i, 32);
    let k = put_place(out, j, f, x, b);
    let l = show::put_byte(out, k, 32);
    put_place(out, l, f, x, a)
}

fn put_change(out: &mut [u8], n: usize, f: &[u8], x: &Table, change: Option<Write>) -> usize
    ensures { Written (changed (change_of x.now (texts_of f.now x.now) change)) out.old n out.new result }
{
    match change {
        None => show::put(out, n, b"- - -"),
        Some(w) => put_write(out, n, f, x, w.entity, w.before, w.after),
    }
}

// ---- a kind's name and detail

fn put_name(out: &mut [u8], n: usize, kind: u32) -> usize
    ensures { Written (name_of kind) out.old n out.new result }
{
    if kind < 18 {
        let at = texts::text_start(&NAMES, 0, kind);
        return show::put_text(out, n, &NAMES, at);
    }
    show::put(out, n, b"unknown")
}

fn put_begin(out: &mut [u8], n: usize, kind: u32) -> usize
    ensures { Written (detail_begins kind) out.old n out.new result }
{
    let at = texts::text_start(&DETAILS, 0, kind);
    show::put_text(out, n, &DETAILS, at)
}

fn put_verdict(out: &mut [u8], n: usize, number: u32) -> usize
    ensures { Written (truth_name (verdict_of number)) out.old n out.new result }
{
    match number {
        0 => show::put(out, n, b"Yes"),
        1 => show::put(out, n, b"No"),
        _ => show::put(out, n, b"Unknown"),
    }
}

fn put_flag(out: &mut [u8], n: usize, number: u32) -> usize
    ensures { Written (detail_ends 17 number) out.old n out.new result }
{
    if number == 1 {
        return show::put(out, n, b"true");
    }
    show::put(out, n, b"false")
}

fn put_seconds(out: &mut [u8], n: usize, number: u32) -> usize
    ensures { Written (detail_ends 15 number) out.old n out.new result }
{
    let m = show::put_number(out, n, number as u64);
    show::put(out, m, b" seconds")
}

// The verdict, the number or the flag of a detail.
fn put_end(out: &mut [u8], n: usize, kind: u32, number: u32) -> usize
    ensures { Written (detail_ends kind number) out.old n out.new result }
{
    match kind {
        0..records::TRIGGER => n,
        records::TRIGGER | records::CONDITION => put_verdict(out, n, number),
        records::DELAY => put_seconds(out, n, number),
        records::TIMEOUT => put_flag(out, n, number),
        _ => show::put_number(out, n, number as u64),
    }
}

// A record's detail, quoted.
fn put_detail(out: &mut [u8], n: usize, f: &[u8], x: &Table, kind: u32, number: u32) -> usize
    ensures { Written (quoted (detail (kind_of x.now (texts_of f.now x.now) kind number))) out.old n out.new
        result }
{
    if 18 <= kind {
        return put_place(out, n, f, x, number);
    }
    let a = show::put_byte(out, n, 34);
    let b = put_begin(out, a, kind);
    let c = put_end(out, b, kind, number);
    show::put_byte(out, c, 34)
}

// ---- a record's line

// `record INDEX SECOND KIND `
fn put_head(out: &mut [u8], n: usize, k: usize, second: u32, kind: u32) -> usize
    ensures { Written (text "record " ++ (decimal k ++ (32 ∷ (decimal second ++ (32 ∷ (name_of kind ++ (32 ∷ [])))))))
        out.old n out.new result }
{
    let a = show::put(out, n, b"record ");
    let b = show::put_number(out, a, k as u64);
    let c = show::put_byte(out, b, 32);
    let d = show::put_number(out, c, second as u64);
    let e = show::put_byte(out, d, 32);
    let g = put_name(out, e, kind);
    show::put_byte(out, g, 32)
}

fn put_entry(out: &mut [u8], n: usize, f: &[u8], x: &Table, k: usize, r: Record) -> usize
    ensures { Written (record_line k (record_of x.now (texts_of f.now x.now) r)) out.old n out.new result }
{
    let rule = r.rule;
    let source = r.source;
    let change = r.change;
    let a = put_head(out, n, k, r.second, r.kind);
    let b = put_rule(out, a, f, x, rule);
    let c = show::put_byte(out, b, 32);
    let d = put_where(out, c, source);
    let e = show::put_byte(out, d, 32);
    let g = put_change(out, e, f, x, change);
    let h = show::put_byte(out, g, 32);
    let i = put_detail(out, h, f, x, r.kind, r.detail);
    show::put_byte(out, i, 10)
}

// The record at k of the record area.
pub fn put_record(out: &mut [u8], n: usize, f: &[u8], x: &Table, a: &[u32], k: usize) -> usize
    requires { k * 13 + 13 ≤ length a.now }
    ensures { RecordPut f.now x.now a.now k out.old n out.new result }
{
    let r = records::get_record(a, k);
    put_entry(out, n, f, x, k, r)
}

// ---- printing: lines behind the first n bytes of `out`, which goes to standard output first where a line may not fit.
// The answer is where the next text goes; whoever printed last flushes. No line is cut if `out` has room for the longest
// one.

fn print_record(out: &mut [u8], n: usize, f: &[u8], x: &Table, a: &[u32], k: usize) -> usize
    requires { k * 13 + 13 ≤ length a.now }
    ensures { Kept out.old n out.new result }
{
    let m = show::room(out, n, show::LINE);
    put_record(out, m, f, x, a, k)
}

// The first `count` records of the record area, or as many as it has room for.
pub fn print_records(
    out: &mut [u8],
    n: usize,
    f: &[u8],
    x: &Table,
    a: &[u32],
    count: usize,
) -> usize
    ensures { Kept out.old n out.new result }
{
    let many = count.min(a.len() / 13);
    let mut m = n;
    for k in 0..many {
        m = print_record(out, m, f, x, a, k);
    }
    m
}
