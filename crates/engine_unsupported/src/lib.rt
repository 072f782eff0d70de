// The notes of the automations as reasons, sorted as they are rendered, each once. The file was read before, so that what
// is looked for is there; a part that is not there is passed over. A file holds at most 64 notes: the area has place for
// 300.
#![tactic(auto)]

ghost use Rattle.layout.specs.Sizes.{simulation_reason_words};
ghost use Rattle.std.specs.Prelude.{◌≡◌, ℕ, ◌≤◌, ◌<◌, length, get_or};
ghost use Rattle.reasons.specs.Lists.{Holds};
ghost use Rattle.engine_notes.specs.Listing.{Lists, Makes};
ghost use Rattle.engine_unsupported.specs.Listing.{
  source_note,
  head_of,
  unknown_m,
  wait_m,
  simple_m,
  action_m,
  choice_m,
  actions_m,
  own_m,
  rule_m,
  unsupported_m,
};

use engine_notes::{Noted, Part};
use layout::Table;
use reasons::Reason;

// What stands before an action's effect.
#[derive(Clone, Copy)]
pub struct Head {
    pub line: u32,
    pub column: u32,
    pub kind: u32,
    pub next: usize,
}

// ---- actions

fn head_at(f: &[u8], at: usize) -> Head
    ensures { result ≡ head_of f.now at }
{
    let Some((line, p)) = model_walk::u32_at(f, at) else {
        return Head {
            line: 0,
            column: 0,
            kind: 0,
            next: at,
        };
    };
    let Some((column, q)) = model_walk::u32_at(f, p) else {
        return Head {
            line: 0,
            column: 0,
            kind: 0,
            next: at,
        };
    };
    let Some((kind, next)) = model_walk::u8_at(f, q) else {
        return Head {
            line: 0,
            column: 0,
            kind: 0,
            next: at,
        };
    };
    Head {
        line,
        column,
        kind,
        next,
    }
}

fn source_note(f: &[u8], line: u32, column: u32, note: u32) -> Reason
    ensures { result ≡ source_note f.now line column note }
{
    Reason {
        kind: reasons::SOURCE_NOTE,
        first: reasons::ABSENT,
        second: engine_fields::text_position(f, note),
        line,
        column,
    }
}

// The note of an unknown effect stands behind its source.
fn unknown_note(f: &[u8], u: &mut [u32], line: u32, column: u32, at: usize, n: usize) -> Noted
    requires { simulation_reason_words ≤ length u.old }
    ensures { Lists (unknown_m line column) f.now at n u.old result u.new }
{
    let Some((note, next)) = model_walk::u16_at(f, at) else {
        return Noted { count: n, next: at };
    };
    let r = source_note(f, line, column, note);
    let k = engine_notes::put(f, u, n, r);
    Noted { count: k, next }
}

fn wait_note(f: &[u8], u: &mut [u32], at: usize, n: usize) -> Noted
    requires { simulation_reason_words ≤ length u.old }
    ensures { Lists wait_m f.now at n u.old result u.new }
{
    let d = engine_notes::trigger_note(f, u, layout::NO_PLACE, at, n);
    let k = d.count;
    let p = d.next;
    let q = engine_notes::skip(f, 5, p);
    Noted { count: k, next: q }
}

// An effect that holds no list.
fn simple_note(f: &[u8], u: &mut [u32], h: Head, n: usize) -> Noted
    requires { simulation_reason_words ≤ length u.old }
    ensures { Lists (simple_m h) f.now h.next n u.old result u.new }
{
    let kind = h.kind;
    let at = h.next;
    if kind == 3 {
        return engine_notes::predicate_note(f, u, layout::NO_PLACE, at, n);
    }
    if kind == 5 {
        return wait_note(f, u, at, n);
    }
    if kind == 6 {
        return unknown_note(f, u, h.line, h.column, at, n);
    }
    if kind == 1 {
        let q = engine_notes::skip(f, 2, at);
        return Noted { count: n, next: q };
    }
    let q = engine_notes::skip(f, 4, at);
    Noted { count: n, next: q }
}

// A list of actions in which lists stand at most `left` deep, itself counted.
#[cycle(action_notes_actions_notes_choice_notes)]
fn actions_notes(f: &[u8], u: &mut [u32], left: usize, at: usize, n: usize) -> Noted
    requires { simulation_reason_words ≤ length u.old }
    ensures { Lists (actions_m left) f.now at n u.old result u.new }
{
    if left == 0 {
        return Noted { count: n, next: at };
    }
    let Some((count, start)) = model_walk::u16_at(f, at) else {
        return Noted { count: n, next: at };
    };
    let mut p = start;
    let mut k = n;
    for _ in 0..count {
        let d = action_notes(f, u, left - 1, p, k);
        p = d.next;
        k = d.count;
    }
    Noted { count: k, next: p }
}

// An action whose lists stand at most `left` deep.
#[cycle(action_notes_actions_notes_choice_notes)]
fn action_notes(f: &[u8], u: &mut [u32], left: usize, at: usize, n: usize) -> Noted
    requires { simulation_reason_words ≤ length u.old }
    ensures { Lists (action_m (actions_m left)) f.now at n u.old result u.new }
{
    let h = head_at(f, at);
    let kind = h.kind;
    let p = h.next;
    if kind == 4 {
        return choice_notes(f, u, left, p, n);
    }
    simple_note(f, u, h, n)
}

// The branches of a choice and its default; its lists stand at most `left` deep.
#[cycle(action_notes_actions_notes_choice_notes)]
fn choice_notes(f: &[u8], u: &mut [u32], left: usize, at: usize, n: usize) -> Noted
    requires { simulation_reason_words ≤ length u.old }
    ensures { Lists (choice_m (actions_m left)) f.now at n u.old result u.new }
{
    let Some((count, start)) = model_walk::u16_at(f, at) else {
        return Noted { count: n, next: at };
    };
    let mut p = start;
    let mut k = n;
    for _ in 0..count {
        let d = engine_notes::part_notes(f, u, Part::Predicate, layout::NO_PLACE, p, k);
        let e = actions_notes(f, u, left, d.next, d.count);
        p = e.next;
        k = e.count;
    }
    actions_notes(f, u, left, p, k)
}

// ---- automations

// The notes of the i-th automation, of its triggers and of its conditions: they stand behind its identifier.
fn own_notes(f: &[u8], x: &Table, u: &mut [u32], i: usize, n: usize) -> usize
    requires { (simulation_reason_words ≤ length u.old) × (i < 32) }
    ensures { Makes (own_m f.now x.now i) f.now n u.old result u.new }
{
    let id = engine_fields::rule_word(x, i, layout::ID);
    let notes = engine_fields::rule_word(x, i, layout::NOTES) as usize;
    let triggers = engine_fields::rule_word(x, i, layout::TRIGGERS) as usize;
    let conditions = engine_fields::rule_word(x, i, layout::CONDITIONS) as usize;
    let a = engine_notes::part_notes(f, u, Part::Note, id, notes, n);
    let b = engine_notes::part_notes(f, u, Part::Trigger, id, triggers, a.count);
    let c = engine_notes::part_notes(f, u, Part::Predicate, id, conditions, b.count);
    c.count
}

// All notes of the i-th automation.
pub fn rule_notes(f: &[u8], x: &Table, u: &mut [u32], i: usize, n: usize) -> usize
    requires { (simulation_reason_words ≤ length u.old) × (i < 32) }
    ensures { Makes (rule_m f.now x.now i) f.now n u.old result u.new }
{
    let actions = engine_fields::rule_word(x, i, layout::ACTIONS) as usize;
    let k = own_notes(f, x, u, i, n);
    let d = actions_notes(f, u, 18, actions, k);
    d.count
}

// The notes of the automations as reasons, sorted as rendered, each once; the answer is how many there are. The area comes
// with zeros.
pub fn unsupported(f: &[u8], x: &Table, u: &mut [u32]) -> usize
    requires { (simulation_reason_words ≤ length u.old) × ((i : ℕ) → get_or u.old i 0 ≡ 0) }
    ensures { Holds f.now (unsupported_m f.now x.now) result u.new }
{
    let rules = bounds::at_most(x[layout::AUTOMATION_COUNT], 32);
    let mut k: usize = 0;
    for i in 0..rules {
        k = rule_notes(f, x, u, i, k);
    }
    k
}
