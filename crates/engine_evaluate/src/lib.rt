// Predicates, triggers, branches and actions of the model file, read in place.
// A position is a word; one that would not fit is the largest word.
#![tactic(auto)]

ghost use Rattle.std.specs.Prelude.{◌≡◌, ◌+◌, ◌<◌};
ghost use Rattle.engine_evaluate.specs.Evaluate.{
  number_m,
  both_m,
  undecided_m,
  against_m,
  evaluate_m,
  size_m,
  all_m,
  admits_m,
  matches_m,
  any_m,
  end_m,
  branch_m,
  select_m,
};
ghost use Rattle.engine_evaluate.specs.Actions.{effect_m, after_m, action_m, list_m, word_m, top_m, stepped_m};

use engine_fields::{byte_at, four_at, two_at};
use engine_state::{Move, after};
use layout::Table;
use model_walk::Walked;
use runs::{Place, Run, Source};

#[derive(Clone, Copy)]
pub enum Truth {
    Yes,
    No,
    Unknown,
}

// The verdict on a list of predicates, and the position after it.
#[derive(Clone, Copy)]
pub struct Judged {
    pub truth: Truth,
    pub next: u32,
}

pub fn number_of(t: Truth) -> u32
    ensures { result ≡ number_m t }
{
    match t {
        Truth::Yes => 0,
        Truth::No => 1,
        Truth::Unknown => 2,
    }
}

fn both(a: Truth, b: Truth) -> Truth
    ensures { result ≡ both_m a b }
{
    match a {
        Truth::Yes => b,
        Truth::No => Truth::No,
        Truth::Unknown => match b {
            Truth::Yes => Truth::Unknown,
            Truth::No => Truth::No,
            Truth::Unknown => Truth::Unknown,
        },
    }
}

// Whether a value is `unknown` or `unavailable`.
pub fn undecided(x: &Table, v: u32) -> bool
    ensures { result ≡ undecided_m x.now v }
{
    if v == x[layout::UNKNOWN] {
        return true;
    }
    v == x[layout::UNAVAILABLE]
}

fn against(x: &Table, present: u32, v: u32) -> Truth
    ensures { result ≡ against_m x.now present v }
{
    if present == v {
        return Truth::Yes;
    }
    if undecided(x, present) {
        return Truth::Unknown;
    }
    Truth::No
}

// The predicate at a position, at a second.
pub fn evaluate(f: &[u8], x: &Table, values: &[u32; 32], second: u32, at: u32) -> Truth
    ensures { result ≡ evaluate_m f.now x.now values.now second at }
{
    let kind = byte_at(f, at as usize);
    if kind == 1 {
        return Truth::Unknown;
    }
    if kind == 2 {
        if engine_window::open_at(f, x, second, at) {
            return Truth::Yes;
        }
        return Truth::No;
    }
    let e = engine_fields::entity_of(x, two_at(f, at as usize + 1));
    if e < 32 {
        let v = values[e];
        return against(x, v, two_at(f, at as usize + 3));
    }
    Truth::Unknown
}

// How many bytes it has.
pub fn predicate_size(f: &[u8], at: u32) -> u32
    ensures { result ≡ size_m f.now at }
{
    model_walk::predicate_size(byte_at(f, at as usize))
}

// The predicates in the list at a position.
pub fn evaluate_all(f: &[u8], x: &Table, values: &[u32; 32], second: u32, at: u32) -> Judged
    ensures { result ≡ all_m f.now x.now values.now second at }
{
    let count = two_at(f, at as usize);
    let mut p = after(at, 2);
    let mut t = Truth::Yes;
    for _ in 0..count {
        t = both(t, evaluate(f, x, values, second, p));
        p = after(p, predicate_size(f, p));
    }
    Judged { truth: t, next: p }
}

// Whether a trigger's value, or none, admits v.
fn admits(p: u32, v: u32) -> bool
    ensures { result ≡ admits_m p v }
{
    if p == layout::NO_PLACE {
        return true;
    }
    p == v
}

// Whether the trigger at a position is set off by a change.
pub fn matches(f: &[u8], at: u32, m: Move) -> bool
    ensures { result ≡ matches_m f.now m at }
{
    if two_at(f, at as usize + 14) != layout::NO_PLACE {
        return false;
    }
    if two_at(f, at as usize) != m.entity {
        return false;
    }
    if m.from == m.to {
        return false;
    }
    if admits(two_at(f, at as usize + 2), m.from) {
        return admits(two_at(f, at as usize + 4), m.to);
    }
    false
}

// Whether one of the triggers in the list at a position is.
pub fn any_matches(f: &[u8], at: u32, m: Move) -> bool
    ensures { result ≡ any_m f.now m at }
{
    let count = two_at(f, at as usize);
    let mut p = after(at, 2);
    for _ in 0..count {
        if matches(f, p, m) {
            return true;
        }
        p = after(p, 16);
    }
    false
}

// Where a walk ended.
fn end_of(w: Walked, at: u32) -> u32
    ensures { result ≡ end_m w at }
{
    match w {
        Some((p, _)) => engine_fields::capped(p),
        None => at,
    }
}

// A branch: its list is taken, it can't be told, or the next branch starts at a position.
#[derive(Clone, Copy)]
pub enum Branch {
    Take(u32),
    Unclear,
    Skip(u32),
}

fn branch_at(f: &[u8], x: &Table, values: &[u32; 32], second: u32, at: u32) -> Branch
    ensures { result ≡ branch_m f.now x.now values.now second at }
{
    let judged = evaluate_all(f, x, values, second, at);
    let t = judged.truth;
    let next = judged.next;
    match t {
        Truth::Yes => Branch::Take(next),
        Truth::Unknown => Branch::Unclear,
        Truth::No => {
            let w = model_walk::actions_at(f, x[layout::TEXT_COUNT], 17, next as usize, 0);
            Branch::Skip(end_of(w, next))
        }
    }
}

// The list that the choice at a position takes.
pub fn select(f: &[u8], x: &Table, values: &[u32; 32], second: u32, at: u32) -> Branch
    ensures { result ≡ select_m f.now x.now values.now second at }
{
    let count = two_at(f, at as usize);
    let mut p = after(at, 2);
    for _ in 0..count {
        let b = branch_at(f, x, values, second, p);
        match b {
            Branch::Take(list) => {
                return Branch::Take(list);
            }
            Branch::Unclear => {
                return Branch::Unclear;
            }
            Branch::Skip(next) => {
                p = next;
            }
        }
    }
    Branch::Take(p)
}

// ---- actions

#[derive(Clone, Copy)]
pub enum Effect {
    Set { entity: u32, value: u32 },
    Toggle { entity: u32 },
    Delay { seconds: u32 },
    Condition { at: u32 },
    Choose { at: u32 },
    Wait { at: u32 },
    Unknown { reason: u32 },
}

#[derive(Clone, Copy)]
pub struct Action {
    pub source: Source,
    pub effect: Effect,
    pub next: u32,
}

fn effect_at(f: &[u8], kind: u32, at: u32) -> Effect
    ensures { result ≡ effect_m f.now kind at }
{
    match kind {
        0 => Effect::Set {
            entity: two_at(f, at as usize),
            value: two_at(f, at as usize + 2),
        },
        1 => Effect::Toggle {
            entity: two_at(f, at as usize),
        },
        2 => Effect::Delay {
            seconds: four_at(f, at as usize),
        },
        3 => Effect::Condition { at },
        4 => Effect::Choose { at },
        5 => Effect::Wait { at },
        _ => Effect::Unknown {
            reason: two_at(f, at as usize),
        },
    }
}

// The position after an effect of this kind.
fn after_effect(f: &[u8], x: &Table, kind: u32, at: u32) -> u32
    ensures { result ≡ after_m f.now x.now kind at }
{
    if kind == 1 {
        return after(at, 2);
    }
    if kind == 3 {
        return after(at, predicate_size(f, at));
    }
    if kind == 4 {
        let w = model_walk::choice_at(f, x[layout::TEXT_COUNT], 17, at as usize, 0);
        return end_of(w, at);
    }
    if kind == 5 {
        return after(at, 21);
    }
    if kind == 6 {
        return after(at, 2);
    }
    after(at, 4)
}

// The action at a position.
pub fn action_at(f: &[u8], x: &Table, at: u32) -> Action
    ensures { result ≡ action_m f.now x.now at }
{
    let kind = byte_at(f, at as usize + 8);
    let p = after(at, 9);
    let source = Source {
        line: four_at(f, at as usize),
        column: four_at(f, at as usize + 4),
    };
    let effect = effect_at(f, kind, p);
    Action {
        source,
        effect,
        next: after_effect(f, x, kind, p),
    }
}

// The list at a position is what the run does next.
pub fn with_list(f: &[u8], run: Run, at: u32) -> Run
    ensures { result ≡ list_m f.now run at }
{
    let left = two_at(f, at as usize);
    let mut r = run;
    if left == 0 {
        return r;
    }
    let d = r.depth as usize;
    if 16 < d {
        return r;
    }
    let w = engine_fields::list_word(after(at, 2), left);
    r.places[d] = w;
    r.depth = r.depth + 1;
    r
}

// The word of the place where the run goes on, 0 if it has none.
fn last_word(run: Run) -> u32
    ensures { result ≡ word_m run }
{
    let d = run.depth as usize;
    if d == 0 {
        return 0;
    }
    if 17 < d {
        return 0;
    }
    run.places[d - 1]
}

// Where the run's next action stands.
pub fn top(run: Run) -> Place
    ensures { result ≡ top_m run }
{
    runs::place_in(last_word(run))
}

// The run with its next action, which ends at `next`, behind it.
pub fn stepped(run: Run, next: u32) -> Run
    ensures { result ≡ stepped_m run next }
{
    let mut r = run;
    let d = r.depth as usize;
    if d == 0 {
        return r;
    }
    if 17 < d {
        return r;
    }
    let p = runs::place_in(r.places[d - 1]);
    let left = p.left;
    if left < 2 {
        r.places[d - 1] = 0;
        r.depth = r.depth - 1;
        return r;
    }
    let w = engine_fields::list_word(next, left - 1);
    r.places[d - 1] = w;
    r
}
