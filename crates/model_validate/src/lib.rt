// `validate`: the refusals 1 to 19, 50 and 51 of a model file that was read, in the order of Rust's `validate`.
#![tactic(auto)]

ghost use Rattle.std.specs.Prelude.{◌≡◌, ◌≤◌};
ghost use Rattle.model_spec.specs.Validate.{accepted, bad_limits};
ghost use Rattle.model_parts.specs.Parts.{no_starts};
ghost use Rattle.model_index.specs.Index.{file_of, Zeros};
ghost use Rattle.model_index.specs.Indexed.{Says};
ghost use Rattle.model_check.specs.Checks.{declaration};
ghost use Rattle.model_validate.specs.ModelChecks.{
  title_bad,
  size_bad,
  limits_bad,
  start_bad,
  alphabet_bad,
  orders_m,
  Small,
  sections_m,
  model_m,
  declared_in,
};
ghost use Rattle.model_validate.specs.Contract.{validated};

use layout::Positions;
use model_check::{Checked, Declared};
use model_index::{File, Outline, Status};
use model_sections::Part;
use model_walk::Walked;

// lib.rs: the version of the model file.
pub const FORMAT_VERSION: u32 = 1;

// The numbers of an index: where the title and the limits stand, and how many parts each section has. The entities' is in
// what the model declares.
#[derive(Clone, Copy)]
pub struct Numbers {
    pub version: u32,
    pub title: usize,
    pub limits: usize,
    pub events: u32,
    pub invariants: u32,
    pub alphabet: u32,
    pub gaps: u32,
    pub rules: u32,
    pub behind: Walked,
}

#[derive(Clone, Copy)]
pub enum Validity {
    Accepted,
    Refused(u32),
}

// ---- the tests before the sections

fn title_bad(s: &[u8], numbers: Numbers) -> bool
    ensures { result ≡ title_bad s.now numbers }
{
    let Some((place, _)) = model_walk::u16_at(s, numbers.title) else {
        return false;
    };
    if numbers.version != FORMAT_VERSION {
        return true;
    }
    let at = texts::text_start(s, 6, place);
    200 < texts::text_len(s, at)
}

fn size_bad(entities: u32, numbers: Numbers) -> bool
    ensures { result ≡ size_bad entities numbers }
{
    if entities == 0 {
        return true;
    }
    if 32 < entities {
        return true;
    }
    if 32 < numbers.rules {
        return true;
    }
    if 100 < numbers.events {
        return true;
    }
    32 < numbers.invariants
}

// The tests of the four limits.
fn numbers_bad(horizon: u32, steps: u32, depth: u32, cases: u32) -> bool
    ensures { result ≡ bad_limits (record { horizon = horizon; max_steps = steps; search_depth = depth; max_cases = cases }) }
{
    if 86400 < horizon {
        return true;
    }
    if steps == 0 {
        return true;
    }
    if 10000 < steps {
        return true;
    }
    if 5 < depth {
        return true;
    }
    if cases == 0 {
        return true;
    }
    2000 < cases
}

fn limits_bad(s: &[u8], at: usize) -> bool
    ensures { result ≡ limits_bad s.now at }
{
    let Some((horizon, p)) = model_walk::u32_at(s, at) else {
        return false;
    };
    let Some((steps, q)) = model_walk::u32_at(s, p) else {
        return false;
    };
    let Some((depth, t)) = model_walk::u32_at(s, q) else {
        return false;
    };
    let Some((cases, _)) = model_walk::u32_at(s, t) else {
        return false;
    };
    numbers_bad(horizon, steps, depth, cases)
}

// The start stands where the automations end, unless the file ends there.
fn start_bad(s: &[u8], end: Walked) -> bool
    ensures { result ≡ start_bad s.now end }
{
    let Some((at, _)) = end else {
        return false;
    };
    if s.len() <= at {
        return false;
    }
    let Some((weekday, p)) = model_walk::u32_at(s, at) else {
        return false;
    };
    let Some((second, _)) = model_walk::u32_at(s, p) else {
        return false;
    };
    if 6 < weekday {
        return true;
    }
    86399 < second
}

fn alphabet_bad(s: &[u8], numbers: Numbers, gaps: &Positions) -> bool
    ensures { result ≡ alphabet_bad s.now numbers gaps.now }
{
    if 12 < numbers.alphabet {
        return true;
    }
    if numbers.gaps == 0 {
        return true;
    }
    if 4 < numbers.gaps {
        return true;
    }
    model_sections::gaps_bad(s, gaps, numbers.gaps)
}

// ---- the model

fn orders_check(s: &[u8], numbers: Numbers, events: &Positions, at: usize, n: u32) -> Checked
    requires { numbers.events ≤ 100 }
    ensures { result ≡ orders_m numbers events.now s.now at n }
{
    let Some((horizon, _)) = model_walk::u32_at(s, numbers.limits) else {
        return Checked::Refused(30);
    };
    if model_sections::seconds_bad(s, events, numbers.events, horizon) {
        return Checked::Refused(9);
    }
    Checked::To(at, n)
}

// The sections, in the order of Rust's `validate`; as many parts as an accepted model can have.
fn sections_check(
    s: &[u8],
    d: Declared,
    numbers: Numbers,
    entities: &Positions,
    events: &Positions,
    invariants: &Positions,
    alphabet: &Positions,
    rules: &Positions,
) -> Checked
    requires { Small d.count numbers }
    ensures { result ≡ sections_m (declaration d entities.now) numbers events.now invariants.now alphabet.now
        rules.now s.now 0 0 }
{
    let a = model_sections::section_check(s, d, entities, Part::Entity, entities, d.count, 0);
    let Checked::To(p0, n0) = a else {
        return a;
    };
    let b = model_sections::section_check(s, d, entities, Part::Event, events, numbers.events, n0);
    let Checked::To(p1, n1) = b else {
        return b;
    };
    let inputs = numbers.alphabet;
    let e = model_sections::section_check(s, d, entities, Part::Input, alphabet, inputs, n1);
    let Checked::To(p2, n2) = e else {
        return e;
    };
    let f = orders_check(s, numbers, events, p2, n2);
    let Checked::To(p3, n3) = f else {
        return f;
    };
    let count = numbers.invariants;
    let g = model_sections::section_check(s, d, entities, Part::Invariant, invariants, count, n3);
    let Checked::To(p4, n4) = g else {
        return g;
    };
    model_sections::section_check(s, d, entities, Part::Rule, rules, numbers.rules, n4)
}

// All of it.
fn whole_check(
    s: &[u8],
    d: Declared,
    numbers: Numbers,
    entities: &Positions,
    events: &Positions,
    invariants: &Positions,
    alphabet: &Positions,
    gaps: &Positions,
    rules: &Positions,
) -> Checked
    ensures { result ≡ model_m (declaration d entities.now) numbers events.now invariants.now alphabet.now
        gaps.now rules.now s.now }
{
    if title_bad(s, numbers) {
        return Checked::Refused(1);
    }
    if size_bad(d.count, numbers) {
        return Checked::Refused(2);
    }
    if limits_bad(s, numbers.limits) {
        return Checked::Refused(3);
    }
    let behind = numbers.behind;
    if start_bad(s, behind) {
        return Checked::Refused(3);
    }
    if alphabet_bad(s, numbers, gaps) {
        return Checked::Refused(4);
    }
    sections_check(s, d, numbers, entities, events, invariants, alphabet, rules)
}

// ---- the entries

// What a model of so many texts and entities declares.
fn declared(s: &[u8], texts: u32, entities: u32) -> Declared
    ensures { result ≡ declared_in s.now texts entities }
{
    Declared {
        count: entities,
        on: model_order::place_of(s, b"on", texts),
        off: model_order::place_of(s, b"off", texts),
        unknown: model_order::place_of(s, b"unknown", texts),
        unavailable: model_order::place_of(s, b"unavailable", texts),
    }
}

// Reads a file and checks its model: the outline and the positions of a model that is accepted, or the refusal. The arrays
// are all zeros before.
fn examine(
    s: &[u8],
    texts: &mut Positions,
    entities: &mut Positions,
    events: &mut Positions,
    invariants: &mut Positions,
    alphabet: &mut Positions,
    gaps: &mut Positions,
    rules: &mut Positions,
) -> Outline
    requires { (texts.old ≡ no_starts) × (Zeros entities.old events.old invariants.old
        × Zeros alphabet.old gaps.old rules.old) }
    ensures { Says s.now (file_of result texts.new entities.new events.new invariants.new alphabet.new gaps.new rules.new)
        (accepted s.now) }
{
    let x = model_index::read(
        s, texts, entities, events, invariants, alphabet, gaps, rules,
    );
    let status = x.status;
    match status {
        Status::Refused(_) => x,
        Status::Read => {
            let last = x.rules;
            let behind = last.end;
            let numbers = Numbers {
                version: x.front.version,
                title: x.front.title,
                limits: x.limits,
                events: x.front.events.count,
                invariants: x.front.invariants.count,
                alphabet: x.alphabet.count,
                gaps: x.gaps.count,
                rules: x.rules.count,
                behind,
            };
            let d = declared(s, x.front.texts.count, x.front.entities.count);
            let y = whole_check(
                s, d, numbers, entities, events, invariants, alphabet, gaps, rules,
            );
            match y {
                Checked::To(_, _) => x,
                Checked::Refused(number) => model_index::refusal(number),
            }
        }
    }
}

// The index of a file whose model is accepted, or the refusal.
pub fn accept(s: &[u8]) -> File
    ensures { Says s.now result (accepted s.now) }
{
    let mut texts = [0usize; layout::POSITIONS];
    let mut entities = [0usize; layout::POSITIONS];
    let mut events = [0usize; layout::POSITIONS];
    let mut invariants = [0usize; layout::POSITIONS];
    let mut alphabet = [0usize; layout::POSITIONS];
    let mut gaps = [0usize; layout::POSITIONS];
    let mut rules = [0usize; layout::POSITIONS];
    let x = examine(
        s,
        &mut texts,
        &mut entities,
        &mut events,
        &mut invariants,
        &mut alphabet,
        &mut gaps,
        &mut rules,
    );
    model_index::file_of(
        x,
        &texts,
        &entities,
        &events,
        &invariants,
        &alphabet,
        &gaps,
        &rules,
    )
}

// Whether a model file is accepted, or the number of its refusal.
pub fn validate(file: &[u8]) -> Validity
    ensures { result ≡ validated file.now }
{
    let mut texts = [0usize; layout::POSITIONS];
    let mut entities = [0usize; layout::POSITIONS];
    let mut events = [0usize; layout::POSITIONS];
    let mut invariants = [0usize; layout::POSITIONS];
    let mut alphabet = [0usize; layout::POSITIONS];
    let mut gaps = [0usize; layout::POSITIONS];
    let mut rules = [0usize; layout::POSITIONS];
    let x = examine(
        file,
        &mut texts,
        &mut entities,
        &mut events,
        &mut invariants,
        &mut alphabet,
        &mut gaps,
        &mut rules,
    );
    let status = x.status;
    match status {
        Status::Read => Validity::Accepted,
        Status::Refused(number) => Validity::Refused(number),
    }
}
