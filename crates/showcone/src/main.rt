// Reads a model file on standard input and prints its cone. One byte more than the limit is read, so that a longer file is
// refused as one.
#![tactic(auto)]

use cone_entry::ConeResult;
use model_index::Index;
use model_parts::Section;

// The longest line: a name of 255 bytes, each of them escaped.
const LINE: usize = 600;

fn long(x: u32) -> u64 {
    x as u64
}

// How many entities there are, declared or not.
fn many(r: ConeResult) -> u64 {
    let declared = long(u32::count_ones(r.entities));
    if r.undeclared < 1000 {
        if declared < 1000 {
            return declared + r.undeclared as u64;
        }
    }
    declared
}

fn put_counts(out: &mut [u8], n: usize, r: ConeResult) -> usize {
    let a = show::put(out, n, b"cone ");
    let b = show::put_number(out, a, many(r));
    let c = show::put_byte(out, b, 32);
    let d = show::put_number(out, c, long(u32::count_ones(r.automations)));
    show::put_byte(out, d, 10)
}

// The text at a place, quoted.
fn put_place(out: &mut [u8], n: usize, f: &[u8], place: u32) -> usize {
    show::put_quoted_text(out, n, f, texts::text_start(f, 6, place))
}

// ---- entities

// Whether the place is that of an undeclared name in the cone.
fn stray(r: ConeResult, place: u32) -> bool {
    for j in 0..64 {
        if r.undeclared <= j {
            return false;
        }
        if r.names[j] == place {
            return true;
        }
    }
    false
}

// Whether the place is that of a declared name in the cone.
fn declared(f: &[u8], entities: Section, r: ConeResult, place: u32) -> bool {
    if 32 < entities.count {
        return false;
    }
    let i = model_check::number_of(f, entities, place);
    if i < 32 {
        return lint_reach::has(r.entities, i);
    }
    false
}

// The line of the name at a place, if it is in the cone.
fn put_entity(
    out: &mut [u8],
    n: usize,
    f: &[u8],
    entities: Section,
    r: ConeResult,
    place: u32,
) -> usize {
    if declared(f, entities, r, place) {
        let a = show::put(out, n, b"entity ");
        let b = put_place(out, a, f, place);
        return show::put(out, b, b" declared\n");
    }
    if stray(r, place) {
        let a = show::put(out, n, b"entity ");
        let b = put_place(out, a, f, place);
        return show::put(out, b, b" undeclared\n");
    }
    n
}

fn print_entities(out: &mut [u8], n: usize, f: &[u8], index: Index, r: ConeResult) -> usize {
    let entities = index.entities;
    let texts = index.texts;
    let count = texts.count;
    let mut m = n;
    for place in 0..count {
        m = show::room(out, m, LINE);
        m = put_entity(out, m, f, entities, r, place);
    }
    m
}

// ---- automations

// The line of the k-th automation, if it is in the cone.
fn put_automation(
    out: &mut [u8],
    n: usize,
    f: &[u8],
    rules: Section,
    r: ConeResult,
    k: usize,
) -> usize {
    if k < 32 {
        if lint_reach::has(r.automations, k) {
            let a = show::put(out, n, b"automation ");
            let b = show::put_number(out, a, k as u64);
            let c = show::put_byte(out, b, 32);
            let d = put_place(out, c, f, lint_walk::place_at(f, rules.starts[k]));
            return show::put_byte(out, d, 10);
        }
    }
    n
}

fn print_automations(out: &mut [u8], n: usize, f: &[u8], index: Index, r: ConeResult) -> usize {
    let rules = index.rules;
    let mut m = n;
    for k in 0..32 {
        m = show::room(out, m, LINE);
        m = put_automation(out, m, f, rules, r, k);
    }
    m
}

// ---- the program

fn print_cone(f: &[u8], r: ConeResult) {
    let x = model_validate::accept(f);
    let index = x.index;
    let mut out = io::large_buffer();
    let a = put_counts(&mut out, 0, r);
    let b = print_entities(&mut out, a, f, index, r);
    let c = print_automations(&mut out, b, f, index, r);
    show::flush(&out, c);
}

fn print_refused(number: u32) {
    let mut out = [0u8; 64];
    let n = show::put_refused(&mut out, 0, number);
    show::flush(&out, n);
}

// The answer for a file.
fn run(f: &[u8]) {
    let r = cone_entry::cone(f);
    if r.refused != 0 {
        print_refused(r.refused);
    } else {
        print_cone(f, r);
    }
}

fn main() {
    let mut file = [0u8; 32769];
    let n = io::read_full(0, &mut file);
    run(&file[..n]);
}
