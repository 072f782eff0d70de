// Checks of places, values, predicates and triggers in a model file: what `validate` tests of each, in its order.
// The file was read before, so that what is looked for is there; a check that finds the file rules broken says 30.
#![tactic(auto)]

ghost use Rattle.std.specs.Prelude.{◌≡◌, ◌+◌, ◌≤◌, ◌<◌};
ghost use Rattle.model_spec.specs.Validate.{bad_window};
ghost use Rattle.model_check.specs.Checks.{
  declaration,
  skip_m,
  day_m,
  place_is,
  among,
  listed_at,
  first_from,
  number_of,
  entity_value_m,
  value_m,
  pair_m,
  window_m,
  predicate_m,
  predicates_m,
  declared_m,
  optional_m,
  trigger_of_m,
  trigger_m,
  triggers_m,
};

use layout::Positions;
use model_parts::Section;

// The position after a part that passed and the actions counted so far, or the refusal.
#[derive(Clone, Copy)]
pub enum Checked {
    To(usize, u32),
    Refused(u32),
}

// What a model declares beside the positions of its entities, which are lent: how many entities there are, and the
// places of the four fixed texts.
#[derive(Clone, Copy)]
pub struct Declared {
    pub count: u32,
    pub on: u32,
    pub off: u32,
    pub unknown: u32,
    pub unavailable: u32,
}

// ---- leaves

pub fn skip(s: &[u8], size: usize, at: usize, n: u32) -> Checked
    ensures { result ≡ skip_m size s.now at n }
{
    if s.len() < size {
        return Checked::Refused(30);
    }
    if s.len() - size < at {
        return Checked::Refused(30);
    }
    Checked::To(at + size, n)
}

// A number of seconds, at most a day, or the refusal.
pub fn day_check(s: &[u8], refusal: u32, at: usize, n: u32) -> Checked
    ensures { result ≡ day_m refusal s.now at n }
{
    let Some((seconds, next)) = model_walk::u32_at(s, at) else {
        return Checked::Refused(30);
    };
    if 86400 < seconds {
        return Checked::Refused(refusal);
    }
    Checked::To(next, n)
}

// ---- places

// Whether the place at a position is this one.
pub fn place_is(s: &[u8], at: usize, place: u32) -> bool
    ensures { result ≡ place_is s.now at place }
{
    let Some((y, _)) = model_walk::u16_at(s, at) else {
        return false;
    };
    y == place
}

// Whether one of so many places is this one.
pub fn among(s: &[u8], count: u32, at: usize, place: u32) -> bool
    ensures { result ≡ among count s.now at place }
{
    let mut p = at;
    for _ in 0..count {
        let Some((z, q)) = model_walk::u16_at(s, p) else {
            return false;
        };
        if z == place {
            return true;
        }
        p = q;
    }
    false
}

// Whether one of the places behind a count is this one.
fn listed_at(s: &[u8], at: usize, place: u32) -> bool
    ensures { result ≡ listed_at s.now at place }
{
    let Some((count, start)) = model_walk::u16_at(s, at) else {
        return false;
    };
    among(s, count, start, place)
}

// The number of the first of so many positions that holds this place, or the count.
pub fn first_of(s: &[u8], starts: &Positions, count: u32, place: u32) -> usize
    requires { count ≤ 100 }
    ensures { (result ≡ first_from starts.now place s.now count 0) × (result ≤ count) }
{
    let end = count as usize;
    for i in 0..end {
        let p = starts[i];
        if place_is(s, p, place) {
            return i;
        }
    }
    end
}

// The number of the section's first part that begins with this place, or the count.
pub fn number_of(s: &[u8], section: Section, place: u32) -> usize
    requires { section.count ≤ 100 }
    ensures { (result ≡ number_of section place s.now) × (result ≤ section.count) }
{
    let starts = section.starts;
    first_of(s, &starts, section.count, place)
}

// ---- values

// A value of the i-th entity.
fn entity_value_check(
    s: &[u8],
    d: Declared,
    entities: &Positions,
    i: usize,
    value: u32,
    at: usize,
    n: u32,
) -> Checked
    requires { d.count ≤ 100 }
    ensures { result ≡ entity_value_m (declaration d entities.now) i value s.now at n }
{
    let count = d.count as usize;
    if count <= i {
        return Checked::Refused(7);
    }
    if value == d.unknown {
        return Checked::To(at, n);
    }
    if value == d.unavailable {
        return Checked::To(at, n);
    }
    let start = entities[i];
    if s.len() <= start {
        return Checked::Refused(8);
    }
    if listed_at(s, start + 2, value) {
        return Checked::To(at, n);
    }
    Checked::Refused(8)
}

pub fn value_check(
    s: &[u8],
    d: Declared,
    entities: &Positions,
    entity: u32,
    value: u32,
    at: usize,
    n: u32,
) -> Checked
    requires { d.count ≤ 100 }
    ensures { result ≡ value_m (declaration d entities.now) entity value s.now at n }
{
    let i = first_of(s, entities, d.count, entity);
    entity_value_check(s, d, entities, i, value, at, n)
}

// An entity and a value.
pub fn pair_check(s: &[u8], d: Declared, entities: &Positions, at: usize, n: u32) -> Checked
    requires { d.count ≤ 100 }
    ensures { result ≡ pair_m (declaration d entities.now) s.now at n }
{
    let Some((entity, p)) = model_walk::u16_at(s, at) else {
        return Checked::Refused(30);
    };
    let Some((value, q)) = model_walk::u16_at(s, p) else {
        return Checked::Refused(30);
    };
    value_check(s, d, entities, entity, value, q, n)
}

// ---- predicates

// Whether a window's days, start and end are refused.
fn window_bad(days: u32, start: u32, end: u32) -> bool
    ensures { result ≡ bad_window days start end }
{
    if start == end {
        return true;
    }
    if 86399 < start {
        return true;
    }
    if 86399 < end {
        return true;
    }
    if days == 0 {
        return true;
    }
    127 < days
}

// A window's days, start and end.
fn window_check(s: &[u8], at: usize, n: u32) -> Checked
    ensures { result ≡ window_m s.now at n }
{
    let Some((days, p)) = model_walk::u8_at(s, at) else {
        return Checked::Refused(30);
    };
    let Some((start, q)) = model_walk::u32_at(s, p) else {
        return Checked::Refused(30);
    };
    let Some((end, next)) = model_walk::u32_at(s, q) else {
        return Checked::Refused(30);
    };
    if window_bad(days, start, end) {
        return Checked::Refused(50);
    }
    Checked::To(next, n)
}

// A predicate. A window is refused by the number `banned`, unless that is 0.
pub fn predicate_check(
    s: &[u8],
    d: Declared,
    entities: &Positions,
    banned: u32,
    at: usize,
    n: u32,
) -> Checked
    requires { d.count ≤ 100 }
    ensures { result ≡ predicate_m (declaration d entities.now) banned s.now at n }
{
    let Some((kind, p)) = model_walk::u8_at(s, at) else {
        return Checked::Refused(30);
    };
    if kind == 0 {
        return pair_check(s, d, entities, p, n);
    }
    if kind == 1 {
        return skip(s, model_walk::predicate_size(kind) as usize - 1, p, n);
    }
    if banned == 0 {
        return window_check(s, p, n);
    }
    Checked::Refused(banned)
}

// A count, and as many predicates.
pub fn predicates_check(
    s: &[u8],
    d: Declared,
    entities: &Positions,
    banned: u32,
    at: usize,
    n: u32,
) -> Checked
    requires { d.count ≤ 100 }
    ensures { result ≡ predicates_m (declaration d entities.now) banned s.now at n }
{
    let Some((count, start)) = model_walk::u16_at(s, at) else {
        return Checked::Refused(30);
    };
    let mut p = start;
    let mut m = n;
    for _ in 0..count {
        let y = predicate_check(s, d, entities, banned, p, m);
        let Checked::To(q, k) = y else {
            return y;
        };
        p = q;
        m = k;
    }
    Checked::To(p, m)
}

// ---- triggers

fn declared_check(
    s: &[u8],
    d: Declared,
    entities: &Positions,
    entity: u32,
    at: usize,
    n: u32,
) -> Checked
    requires { d.count ≤ 100 }
    ensures { result ≡ declared_m (declaration d entities.now) entity s.now at n }
{
    let count = d.count as usize;
    let i = first_of(s, entities, d.count, entity);
    if count <= i {
        return Checked::Refused(15);
    }
    Checked::To(at, n)
}

fn optional_check(
    s: &[u8],
    d: Declared,
    entities: &Positions,
    entity: u32,
    value: u32,
    at: usize,
    n: u32,
) -> Checked
    requires { d.count ≤ 100 }
    ensures { result ≡ optional_m (declaration d entities.now) entity value s.now at n }
{
    if value == layout::NO_PLACE {
        return Checked::To(at, n);
    }
    value_check(s, d, entities, entity, value, at, n)
}

// A trigger without a note.
fn trigger_of_check(
    s: &[u8],
    d: Declared,
    entities: &Positions,
    entity: u32,
    from: u32,
    to: u32,
    at: usize,
    n: u32,
) -> Checked
    requires { d.count ≤ 100 }
    ensures { result ≡ trigger_of_m (declaration d entities.now) entity from to s.now at n }
{
    let a = declared_check(s, d, entities, entity, at, n);
    let Checked::To(p, k) = a else {
        return a;
    };
    let b = optional_check(s, d, entities, entity, from, p, k);
    let Checked::To(q, l) = b else {
        return b;
    };
    optional_check(s, d, entities, entity, to, q, l)
}

pub fn trigger_check(s: &[u8], d: Declared, entities: &Positions, at: usize, n: u32) -> Checked
    requires { d.count ≤ 100 }
    ensures { result ≡ trigger_m (declaration d entities.now) s.now at n }
{
    let Some((entity, p)) = model_walk::u16_at(s, at) else {
        return Checked::Refused(30);
    };
    let Some((from, q)) = model_walk::u16_at(s, p) else {
        return Checked::Refused(30);
    };
    let Some((to, t)) = model_walk::u16_at(s, q) else {
        return Checked::Refused(30);
    };
    let a = skip(s, 8, t, n);
    let Checked::To(u, m) = a else {
        return a;
    };
    let Some((note, next)) = model_walk::u16_at(s, u) else {
        return Checked::Refused(30);
    };
    if note == layout::NO_PLACE {
        return trigger_of_check(s, d, entities, entity, from, to, next, m);
    }
    Checked::To(next, m)
}

// So many triggers.
pub fn triggers_check(
    s: &[u8],
    d: Declared,
    entities: &Positions,
    count: u32,
    at: usize,
    n: u32,
) -> Checked
    requires { d.count ≤ 100 }
    ensures { result ≡ triggers_m (declaration d entities.now) count s.now at n }
{
    let mut p = at;
    let mut m = n;
    for _ in 0..count {
        let y = trigger_check(s, d, entities, p, m);
        let Checked::To(q, k) = y else {
            return y;
        };
        p = q;
        m = k;
    }
    Checked::To(p, m)
}
