// Reasons: a kind and its texts, read and ordered as they are rendered, without building the rendering.
#![tactic(auto)]

ghost use Rattle.std.specs.Prelude.{◌≡◌, ◌+◌, ◌-◌, ◌*◌, ◌≤◌, ◌<◌, length, get_or, drop};
ghost use Rattle.texts.specs.Texts.{decimal, eq_t, order_t, mem_t, insert_t};
ghost use Rattle.texts.specs.Places.{text_at, seek};
ghost use Rattle.reasons.specs.Reasons.{words_file, words, placed, body, render};
ghost use Rattle.reasons.specs.Lists.{reason_of, listed, push_t, insert_all, Goes, Clean, Grows, Opens};
ghost use Rattle.reasons.specs.Readable.{Readable};

use std::cmp::Ordering;

// The kinds, numbered; a new kind goes to the end.
pub const NOTE: u32 = 0;

pub const ID_NOTE: u32 = 1;

pub const SOURCE_NOTE: u32 = 2;

pub const TRIGGER_CONDITION: u32 = 3;

pub const TOGGLE: u32 = 4;

pub const CHOOSE_CONDITION: u32 = 5;

pub const ACTION_CONDITION: u32 = 6;

pub const WAIT: u32 = 7;

pub const STATE_PREDICATE: u32 = 8;

pub const ACTION_GUARD: u32 = 9;

pub const RESPONSE_AT_DEADLINE: u32 = 10;

pub const TEMPORAL_PREDICATE: u32 = 11;

pub const BEYOND_HORIZON: u32 = 12;

pub const SPACE_SPENT: u32 = 13;

pub const STEPS_SPENT: u32 = 14;

pub const RUNS_LEFT: u32 = 15;

pub const SEARCH_SPENT: u32 = 16;

// How many kinds there are.
pub const KINDS: usize = 17;

// The fixed words of the kinds, each behind its length, and where those of each kind start.
const WORDS: [u8; 411] =
    *b"\x00\x02: \x02: \x1b: unknown trigger condition\x19: toggle of unknown state\x1a: unknown choose condition\x1a: unknown action condition\x18unsupported wait trigger\x19: unknown state predicate\x16: unknown action guard\x1e: unknown response at deadline\x1c: unknown temporal predicate\x22: response deadline beyond horizon\x1ftrace or queue budget exhausted\x15step budget exhausted\x30active or queued runs beyond observation horizon\x17search budget exhausted";

const STARTS: [usize; KINDS] = [
    0, 1, 4, 7, 35, 61, 88, 115, 140, 166, 189, 220, 249, 284, 316, 338, 387,
];

// The position of a text that is not there: past the end of every file.
pub const ABSENT: u32 = 4294967295;

// `first` and `second` are positions of texts in the model file; line and column belong to SOURCE_NOTE.
#[derive(Clone, Copy)]
pub struct Reason {
    pub kind: u32,
    pub first: u32,
    pub second: u32,
    pub line: u32,
    pub column: u32,
}

fn digit_count(n: u32) -> usize
    ensures { (result ≡ length (decimal n)) × (result ≤ 20) }
{
    let mut x = n;
    let mut c: usize = 1;
    while 10 <= x {
        x = x / 10;
        c += 1;
    }
    c
}

// The digit with `left` more behind it.
fn digit(n: u32, left: usize) -> u8
    requires { left < length (decimal n) }
    ensures { result ≡ get_or (decimal n) (length (decimal n) - 1 - left) 0 }
{
    let mut x = n;
    for _ in 0..left {
        x = x / 10;
    }
    48 + (x % 10) as u8
}

fn number_seek(n: u32, i: usize) -> Result<u8, usize>
    ensures { result ≡ seek (decimal n) i }
{
    let c = digit_count(n);
    if i < c {
        return Ok(digit(n, c - 1 - i));
    }
    Err(i - c)
}

// LINE:COLUMN
fn source_seek(line: u32, column: u32, i: usize) -> Result<u8, usize>
    ensures { result ≡ seek (placed line column) i }
{
    number_seek(line, i).or_else(|j| match j {
        0 => Ok(b':'),
        _ => number_seek(column, j - 1),
    })
}

// Where the words of a kind start; those of a number past the last kind are empty, as NOTE's.
fn words_start(kind: u32) -> usize
    ensures { text_at words_file result ≡ words kind }
{
    STARTS.get(kind as usize).copied().unwrap_or(0)
}

fn words_seek(kind: u32, i: usize) -> Result<u8, usize>
    ensures { result ≡ seek (words kind) i }
{
    texts::text_seek(&WORDS, words_start(kind), i)
}

fn words_len(kind: u32) -> usize
    ensures { (result ≡ length (words kind)) × (result < 256) }
{
    texts::text_len(&WORDS, words_start(kind))
}

fn body_seek(f: &[u8], r: Reason, i: usize) -> Result<u8, usize>
    ensures { result ≡ seek (body f.now r) i }
{
    texts::text_seek(f, r.first as usize, i)
        .or_else(|j| words_seek(r.kind, j))
        .or_else(|k| texts::text_seek(f, r.second as usize, k))
}

// The byte at an index of the rendering, or how far the index is past its end.
pub fn byte_of(f: &[u8], r: Reason, i: usize) -> Result<u8, usize>
    ensures { result ≡ seek (render f.now r) i }
{
    if r.kind == SOURCE_NOTE {
        return source_seek(r.line, r.column, i).or_else(|j| body_seek(f, r, j));
    }
    body_seek(f, r, i)
}

fn body_len(f: &[u8], r: Reason) -> usize
    ensures { (result ≡ length (body f.now r)) × (result < 768) }
{
    texts::text_len(f, r.first as usize) + words_len(r.kind) + texts::text_len(f, r.second as usize)
}

// The length of the rendering.
pub fn rendered_len(f: &[u8], r: Reason) -> usize
    ensures { (result ≡ length (render f.now r)) × (result < 809) }
{
    let n = body_len(f, r);
    if r.kind == SOURCE_NOTE {
        return digit_count(r.line) + 1 + digit_count(r.column) + n;
    }
    n
}

// The byte at an index of the rendering, 0 past its end.
pub fn byte_at(f: &[u8], r: Reason, i: usize) -> u8
    ensures { result ≡ get_or (render f.now r) i 0 }
{
    byte_of(f, r, i).unwrap_or(0)
}

// How the renderings stand to one another, bytewise; a text comes before its continuations.
pub fn compare(f: &[u8], a: Reason, b: Reason) -> Ordering
    ensures { result ≡ order_t (render f.now a) (render f.now b) }
{
    let n = rendered_len(f, a);
    let m = rendered_len(f, b);
    for i in 0..n {
        if m <= i {
            return Ordering::Greater;
        }
        let x = byte_at(f, a, i);
        let y = byte_at(f, b, i);
        if x < y {
            return Ordering::Less;
        }
        if y < x {
            return Ordering::Greater;
        }
    }
    if n < m {
        return Ordering::Less;
    }
    Ordering::Equal
}

fn equal(f: &[u8], a: Reason, b: Reason) -> bool
    ensures { result ≡ eq_t (render f.now a) (render f.now b) }
{
    compare(f, a, b).is_eq()
}

// The reason at an index of a list, five words to a reason.
pub fn get(a: &[u32], i: usize) -> Reason
    requires { i * 5 + 5 ≤ length a.now }
    ensures { result ≡ reason_of (drop (i * 5) a.now) }
{
    let at = i * 5;
    Reason {
        kind: a[at],
        first: a[at + 1],
        second: a[at + 2],
        line: a[at + 3],
        column: a[at + 4],
    }
}

// Whether one of the first n reasons is rendered like r.
pub fn contains(f: &[u8], a: &[u32], n: usize, r: Reason) -> bool
    requires { n * 5 ≤ length a.now }
    ensures { result ≡ mem_t (render f.now r) (listed f.now n a.now) }
{
    for i in 0..n {
        if equal(f, r, get(a, i)) {
            return true;
        }
    }
    false
}

// A reason behind the first n, unless one there is rendered like it; the answer is how many there are then.
pub fn push_if_absent(f: &[u8], a: &mut [u32], n: usize, r: Reason) -> usize
    requires { length (push_t (render f.now r) (listed f.now n a.old)) * 5 ≤ length a.old }
    ensures { Grows f.now (Readable f.now r) (push_t (render f.now r) (listed f.now n a.old)) n a.old result
        a.new }
{
    if contains(f, a, n, r) {
        return n;
    }
    insert_at(a, n, n, r);
    n + 1
}

// Where a reason goes among the first n, in the order of renderings; none where one there is rendered like it.
fn find_spot(f: &[u8], a: &[u32], n: usize, r: Reason) -> Option<usize>
    requires { n * 5 ≤ length a.now }
    ensures { Goes (render f.now r) (listed f.now n a.now) result }
{
    for i in 0..n {
        match compare(f, r, get(a, i)) {
            Ordering::Equal => return None,
            Ordering::Less => return Some(i),
            Ordering::Greater => {}
        }
    }
    Some(n)
}

// A reason at index k of the first n; those from there on move up.
fn insert_at(a: &mut [u32], n: usize, k: usize, r: Reason)
    requires { (k ≤ n) × (n * 5 + 5 ≤ length a.old) }
    ensures { Opens r n k a.old a.new }
{
    let w = [r.kind, r.first, r.second, r.line, r.column];
    areas::put_in(a, k * 5, n * 5, &w);
}

// A reason among the first n, which ascend as rendered, unless one there is rendered like it.
pub fn insert_sorted(f: &[u8], a: &mut [u32], n: usize, r: Reason) -> usize
    requires { length (insert_t (render f.now r) (listed f.now n a.old)) * 5 ≤ length a.old }
    ensures { Grows f.now (Readable f.now r) (insert_t (render f.now r) (listed f.now n a.old)) n a.old result
        a.new }
{
    let Some(k) = find_spot(f, a, n, r) else {
        return n;
    };
    insert_at(a, n, k, r);
    n + 1
}

// The first m reasons of b inserted into the first n of a.
pub fn merge(f: &[u8], a: &mut [u32], n: usize, b: &[u32], m: usize) -> usize
    requires { (m * 5 ≤ length b.now) × (length (insert_all (listed f.now m b.now) (listed f.now n a.old))
        * 5 ≤ length a.old) }
    ensures { Grows f.now (Clean f.now m b.now)
        (insert_all (listed f.now m b.now) (listed f.now n a.old)) n a.old result a.new }
{
    let mut k = n;
    for j in 0..m {
        k = insert_sorted(f, a, k, get(b, j));
    }
    k
}
