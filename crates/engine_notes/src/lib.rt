// The notes of parts that hold no list of actions as reasons, sorted as they are rendered, each once. The file was read
// before, so that what is looked for is there; a part that is not there is passed over. The area has place for 300.
#![tactic(auto)]

ghost use Rattle.layout.specs.Sizes.{simulation_reason_words};
ghost use Rattle.std.specs.Prelude.{◌≡◌, ◌≤◌, length};
ghost use Rattle.reasons.specs.Reasons.{render};
ghost use Rattle.reasons.specs.Readable.{Readable, HasText};
ghost use Rattle.engine_notes.specs.Listing.{
  id_note,
  note_of,
  insert_m,
  add_note_m,
  skipped,
  Lists,
  Makes,
  note_m,
  trigger_m,
  predicate_m,
  part_m,
  parts_m,
};

use reasons::Reason;

// How many reasons there are, and the position after what was read.
#[derive(Clone, Copy)]
pub struct Noted {
    pub count: usize,
    pub next: usize,
}

// Parts of which an automation has lists.
#[derive(Clone, Copy)]
pub enum Part {
    Note,
    Trigger,
    Predicate,
}

// ---- reasons

fn id_note(f: &[u8], id: u32, note: u32) -> Reason
    ensures { result ≡ id_note f.now id note }
{
    Reason {
        kind: reasons::ID_NOTE,
        first: engine_fields::text_position(f, id),
        second: engine_fields::text_position(f, note),
        line: 0,
        column: 0,
    }
}

// A note behind an automation's identifier; 65535 stands for none.
fn note_of(f: &[u8], id: u32, note: u32) -> Reason
    ensures { result ≡ note_of f.now id note }
{
    if id == layout::NO_PLACE {
        return engine_fields::note_reason(f, note);
    }
    id_note(f, id, note)
}

// A reason among the first n, while there is place.
pub fn put(f: &[u8], u: &mut [u32], n: usize, r: Reason) -> usize
    requires { (simulation_reason_words ≤ length u.old) × (HasText f.now → Readable f.now r) }
    ensures { Makes (insert_m (render f.now r)) f.now n u.old result u.new }
{
    if layout::LAST_SIMULATION_REASON < n {
        return n;
    }
    reasons::insert_sorted(f, u, n, r)
}

fn add_note(f: &[u8], u: &mut [u32], id: u32, note: u32, n: usize) -> usize
    requires { simulation_reason_words ≤ length u.old }
    ensures { Makes (add_note_m f.now id note) f.now n u.old result u.new }
{
    if note == layout::NO_PLACE {
        return n;
    }
    let r = note_of(f, id, note);
    put(f, u, n, r)
}

// ---- parts that hold no list

// The position behind so many bytes.
pub fn skip(f: &[u8], size: usize, at: usize) -> usize
    ensures { result ≡ skipped size f.now at }
{
    if f.len() < size {
        return at;
    }
    if f.len() - size < at {
        return at;
    }
    at + size
}

fn note_at(f: &[u8], u: &mut [u32], id: u32, at: usize, n: usize) -> Noted
    requires { simulation_reason_words ≤ length u.old }
    ensures { Lists (note_m id) f.now at n u.old result u.new }
{
    let Some((note, next)) = model_walk::u16_at(f, at) else {
        return Noted { count: n, next: at };
    };
    let k = add_note(f, u, id, note, n);
    Noted { count: k, next }
}

pub fn trigger_note(f: &[u8], u: &mut [u32], id: u32, at: usize, n: usize) -> Noted
    requires { simulation_reason_words ≤ length u.old }
    ensures { Lists (trigger_m id) f.now at n u.old result u.new }
{
    let p = skip(f, 14, at);
    note_at(f, u, id, p, n)
}

pub fn predicate_note(f: &[u8], u: &mut [u32], id: u32, at: usize, n: usize) -> Noted
    requires { simulation_reason_words ≤ length u.old }
    ensures { Lists (predicate_m id) f.now at n u.old result u.new }
{
    let Some((kind, p)) = model_walk::u8_at(f, at) else {
        return Noted { count: n, next: at };
    };
    if kind == 1 {
        return note_at(f, u, id, p, n);
    }
    let q = skip(f, model_walk::predicate_size(kind) as usize - 1, p);
    Noted { count: n, next: q }
}

// ---- lists of them

fn part_note(f: &[u8], u: &mut [u32], part: Part, id: u32, at: usize, n: usize) -> Noted
    requires { simulation_reason_words ≤ length u.old }
    ensures { Lists (part_m part id) f.now at n u.old result u.new }
{
    match part {
        Part::Note => note_at(f, u, id, at, n),
        Part::Trigger => trigger_note(f, u, id, at, n),
        Part::Predicate => predicate_note(f, u, id, at, n),
    }
}

// A count, and as many parts.
pub fn part_notes(f: &[u8], u: &mut [u32], part: Part, id: u32, at: usize, n: usize) -> Noted
    requires { simulation_reason_words ≤ length u.old }
    ensures { Lists (parts_m part id) f.now at n u.old result u.new }
{
    let Some((count, start)) = model_walk::u16_at(f, at) else {
        return Noted { count: n, next: at };
    };
    let mut p = start;
    let mut k = n;
    for _ in 0..count {
        let d = part_note(f, u, part, id, p, k);
        p = d.next;
        k = d.count;
    }
    Noted { count: k, next: p }
}
