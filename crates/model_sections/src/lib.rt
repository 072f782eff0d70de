// Checks of the parts of a section: what `validate` tests of entities, events, the alphabet, invariants and automations.
#![tactic(auto)]

ghost use Rattle.std.specs.Prelude.{◌≡◌, ◌≤◌};
ghost use Rattle.model_check.specs.Checks.{declaration};
ghost use Rattle.model_sections.specs.Sections.{
  bad_place,
  any_bad,
  doubled,
  bad_domain,
  stale_bad,
  entity_of_m,
  entity_rest_m,
  entity_m,
  input_m,
  event_m,
  seconds_bad,
  gaps_bad,
  id_is,
  seen,
  bad_id,
  conditions_m,
  guard_m,
  transition_m,
  response_m,
  invariant_of_m,
  invariant_m,
  bad_counts,
  lists_m,
  rule_lists_m,
  rule_of_m,
  rule_m,
  part_m,
  parts_m,
};

use layout::Positions;
use model_check::{Checked, Declared};

// What a section is a list of.
#[derive(Clone, Copy)]
pub enum Part {
    Entity,
    Event,
    Input,
    Invariant,
    Rule,
}

// ---- texts

// Whether the text at a place is empty or longer than 100 bytes.
fn bad_place(s: &[u8], place: u32) -> bool
    ensures { result ≡ bad_place s.now place }
{
    let at = texts::text_start(s, 6, place);
    let n = texts::text_len(s, at);
    if n == 0 {
        return true;
    }
    100 < n
}

fn any_bad(s: &[u8], count: u32, at: usize) -> bool
    ensures { result ≡ any_bad count s.now at }
{
    let mut p = at;
    for _ in 0..count {
        let Some((place, q)) = model_walk::u16_at(s, p) else {
            return false;
        };
        if bad_place(s, place) {
            return true;
        }
        p = q;
    }
    false
}

fn doubled(s: &[u8], count: u32, at: usize) -> bool
    ensures { result ≡ doubled count s.now at }
{
    let mut p = at;
    for i in 0..count {
        let Some((place, q)) = model_walk::u16_at(s, p) else {
            return false;
        };
        if model_check::among(s, count - i - 1, q, place) {
            return true;
        }
        p = q;
    }
    false
}

// ---- entities

fn bad_domain(s: &[u8], name: u32, count: u32, at: usize) -> bool
    ensures { result ≡ bad_domain name count s.now at }
{
    if bad_place(s, name) {
        return true;
    }
    if count == 0 {
        return true;
    }
    if 16 < count {
        return true;
    }
    if any_bad(s, count, at) {
        return true;
    }
    doubled(s, count, at)
}

fn stale_bad(seconds: u32) -> bool
    ensures { result ≡ stale_bad seconds }
{
    if seconds == 4294967295 {
        return false;
    }
    86400 < seconds
}

// The tests of an entity, in their order; its domain stands at `domain`.
fn entity_of_check(
    s: &[u8],
    d: Declared,
    entities: &Positions,
    name: u32,
    count: u32,
    domain: usize,
    value: u32,
    stale: u32,
    at: usize,
    n: u32,
) -> Checked
    requires { d.count ≤ 100 }
    ensures { result ≡ entity_of_m (declaration d entities.now) name count domain value stale s.now at n }
{
    if stale_bad(stale) {
        return Checked::Refused(5);
    }
    if bad_domain(s, name, count, domain) {
        return Checked::Refused(6);
    }
    model_check::value_check(s, d, entities, name, value, at, n)
}

// What stands behind an entity's domain.
fn entity_rest_check(
    s: &[u8],
    d: Declared,
    entities: &Positions,
    name: u32,
    count: u32,
    domain: usize,
    at: usize,
    n: u32,
) -> Checked
    requires { d.count ≤ 100 }
    ensures { result ≡ entity_rest_m (declaration d entities.now) name count domain s.now at n }
{
    let Some((value, p)) = model_walk::u16_at(s, at) else {
        return Checked::Refused(30);
    };
    let a = model_check::skip(s, 1, p, n);
    let Checked::To(q, m) = a else {
        return a;
    };
    let Some((stale, next)) = model_walk::u32_at(s, q) else {
        return Checked::Refused(30);
    };
    entity_of_check(s, d, entities, name, count, domain, value, stale, next, m)
}

fn entity_check(s: &[u8], d: Declared, entities: &Positions, at: usize, n: u32) -> Checked
    requires { d.count ≤ 100 }
    ensures { result ≡ entity_m (declaration d entities.now) s.now at n }
{
    let Some((name, p)) = model_walk::u16_at(s, at) else {
        return Checked::Refused(30);
    };
    let Some((count, domain)) = model_walk::u16_at(s, p) else {
        return Checked::Refused(30);
    };
    let a = model_check::skip(s, 2 * (count as usize), domain, n);
    let Checked::To(q, m) = a else {
        return a;
    };
    entity_rest_check(s, d, entities, name, count, domain, q, m)
}

// ---- events and the alphabet

fn input_check(s: &[u8], d: Declared, entities: &Positions, at: usize, n: u32) -> Checked
    requires { d.count ≤ 100 }
    ensures { result ≡ input_m (declaration d entities.now) s.now at n }
{
    let Some((kind, p)) = model_walk::u8_at(s, at) else {
        return Checked::Refused(30);
    };
    if kind == 0 {
        return model_check::pair_check(s, d, entities, p, n);
    }
    Checked::To(p, n)
}

fn event_check(s: &[u8], d: Declared, entities: &Positions, at: usize, n: u32) -> Checked
    requires { d.count ≤ 100 }
    ensures { result ≡ event_m (declaration d entities.now) s.now at n }
{
    let a = model_check::skip(s, 4, at, n);
    let Checked::To(p, m) = a else {
        return a;
    };
    input_check(s, d, entities, p, m)
}

// Whether an event passes the horizon or is earlier than the one before it.
pub fn seconds_bad(s: &[u8], events: &Positions, count: u32, horizon: u32) -> bool
    requires { count ≤ 100 }
    ensures { result ≡ seconds_bad horizon events.now s.now count 0 0 }
{
    let end = count as usize;
    let mut last: u32 = 0;
    for j in 0..end {
        let p = events[j];
        let Some((second, _)) = model_walk::u32_at(s, p) else {
            return false;
        };
        if horizon < second {
            return true;
        }
        if second < last {
            return true;
        }
        last = second;
    }
    false
}

pub fn gaps_bad(s: &[u8], gaps: &Positions, count: u32) -> bool
    requires { count ≤ 100 }
    ensures { result ≡ gaps_bad gaps.now s.now count 0 }
{
    let end = count as usize;
    for j in 0..end {
        let p = gaps[j];
        let Some((gap, _)) = model_walk::u32_at(s, p) else {
            return false;
        };
        if 86400 < gap {
            return true;
        }
    }
    false
}

// ---- identifiers

// Whether this is the identifier of the part at a position; an invariant's stands behind its kind.
fn id_is(s: &[u8], part: Part, at: usize, place: u32) -> bool
    ensures { result ≡ id_is part s.now at place }
{
    match part {
        Part::Invariant => {
            let Some((_, p)) = model_walk::u8_at(s, at) else {
                return false;
            };
            model_check::place_is(s, p, place)
        }
        Part::Entity => model_check::place_is(s, at, place),
        Part::Event => model_check::place_is(s, at, place),
        Part::Input => model_check::place_is(s, at, place),
        Part::Rule => model_check::place_is(s, at, place),
    }
}

// Whether a part before the j-th has this identifier.
fn seen(s: &[u8], part: Part, starts: &Positions, j: usize, place: u32) -> bool
    requires { j ≤ 100 }
    ensures { result ≡ seen part starts.now s.now j place }
{
    let mut i = j;
    while 0 < i {
        i -= 1;
        let p = starts[i];
        if id_is(s, part, p, place) {
            return true;
        }
    }
    false
}

fn bad_id(s: &[u8], part: Part, starts: &Positions, j: usize, place: u32) -> bool
    requires { j ≤ 100 }
    ensures { result ≡ bad_id part starts.now j s.now place }
{
    if bad_place(s, place) {
        return true;
    }
    seen(s, part, starts, j, place)
}

// ---- invariants

// At least one predicate and at most 32.
fn conditions_check(s: &[u8], d: Declared, entities: &Positions, at: usize, n: u32) -> Checked
    requires { d.count ≤ 100 }
    ensures { result ≡ conditions_m (declaration d entities.now) s.now at n }
{
    let Some((count, _)) = model_walk::u16_at(s, at) else {
        return Checked::Refused(30);
    };
    if count == 0 {
        return Checked::Refused(11);
    }
    if 32 < count {
        return Checked::Refused(11);
    }
    model_check::predicates_check(s, d, entities, 51, at, n)
}

fn guard_check(s: &[u8], d: Declared, entities: &Positions, at: usize, n: u32) -> Checked
    requires { d.count ≤ 100 }
    ensures { result ≡ guard_m (declaration d entities.now) s.now at n }
{
    let Some((entity, p)) = model_walk::u16_at(s, at) else {
        return Checked::Refused(30);
    };
    let Some((value, q)) = model_walk::u16_at(s, p) else {
        return Checked::Refused(30);
    };
    let a = conditions_check(s, d, entities, q, n);
    let Checked::To(t, m) = a else {
        return a;
    };
    model_check::value_check(s, d, entities, entity, value, t, m)
}

fn transition_check(s: &[u8], d: Declared, entities: &Positions, at: usize, n: u32) -> Checked
    requires { d.count ≤ 100 }
    ensures { result ≡ transition_m (declaration d entities.now) s.now at n }
{
    let Some((entity, p)) = model_walk::u16_at(s, at) else {
        return Checked::Refused(30);
    };
    let Some((from, q)) = model_walk::u16_at(s, p) else {
        return Checked::Refused(30);
    };
    let Some((to, t)) = model_walk::u16_at(s, q) else {
        return Checked::Refused(30);
    };
    let a = model_check::value_check(s, d, entities, entity, from, t, n);
    let Checked::To(u, m) = a else {
        return a;
    };
    model_check::value_check(s, d, entities, entity, to, u, m)
}

fn response_check(s: &[u8], d: Declared, entities: &Positions, at: usize, n: u32) -> Checked
    requires { d.count ≤ 100 }
    ensures { result ≡ response_m (declaration d entities.now) s.now at n }
{
    let a = model_check::predicate_check(s, d, entities, 51, at, n);
    let Checked::To(p, k) = a else {
        return a;
    };
    let b = model_check::predicate_check(s, d, entities, 51, p, k);
    let Checked::To(q, l) = b else {
        return b;
    };
    model_check::day_check(s, 12, q, l)
}

// What follows an invariant's kind and its identifier.
fn invariant_of_check(
    s: &[u8],
    d: Declared,
    entities: &Positions,
    kind: u32,
    at: usize,
    n: u32,
) -> Checked
    requires { d.count ≤ 100 }
    ensures { result ≡ invariant_of_m (declaration d entities.now) kind s.now at n }
{
    if kind == 0 {
        return conditions_check(s, d, entities, at, n);
    }
    if kind == 1 {
        return guard_check(s, d, entities, at, n);
    }
    if kind == 2 {
        return transition_check(s, d, entities, at, n);
    }
    response_check(s, d, entities, at, n)
}

fn invariant_check(
    s: &[u8],
    d: Declared,
    entities: &Positions,
    starts: &Positions,
    j: usize,
    at: usize,
    n: u32,
) -> Checked
    requires { (d.count ≤ 100) × (j ≤ 100) }
    ensures { result ≡ invariant_m (declaration d entities.now) starts.now j s.now at n }
{
    let Some((kind, p)) = model_walk::u8_at(s, at) else {
        return Checked::Refused(30);
    };
    let Some((id, q)) = model_walk::u16_at(s, p) else {
        return Checked::Refused(30);
    };
    if bad_id(s, Part::Invariant, starts, j, id) {
        return Checked::Refused(10);
    }
    invariant_of_check(s, d, entities, kind, q, n)
}

// ---- automations

fn bad_counts(max: u32, triggers: u32, conditions: u32) -> bool
    ensures { result ≡ bad_counts max triggers conditions }
{
    if max == 0 {
        return true;
    }
    if 16 < max {
        return true;
    }
    if triggers == 0 {
        return true;
    }
    if 16 < triggers {
        return true;
    }
    32 < conditions
}

// Triggers, conditions and actions, whose counts are right.
fn lists_check(
    s: &[u8],
    d: Declared,
    entities: &Positions,
    triggers: u32,
    at: usize,
    n: u32,
) -> Checked
    requires { d.count ≤ 100 }
    ensures { result ≡ lists_m (declaration d entities.now) triggers s.now at n }
{
    let a = model_check::triggers_check(s, d, entities, triggers, at, n);
    let Checked::To(p, k) = a else {
        return a;
    };
    let b = model_check::predicates_check(s, d, entities, 0, p, k);
    let Checked::To(q, l) = b else {
        return b;
    };
    model_actions::actions_check(s, d, entities, 17, q, l)
}

// What stands from the triggers' count on. A trigger has 16 bytes.
fn rule_lists_check(
    s: &[u8],
    d: Declared,
    entities: &Positions,
    max: u32,
    at: usize,
    n: u32,
) -> Checked
    requires { d.count ≤ 100 }
    ensures { result ≡ rule_lists_m (declaration d entities.now) max s.now at n }
{
    let Some((triggers, start)) = model_walk::u16_at(s, at) else {
        return Checked::Refused(30);
    };
    let a = model_check::skip(s, 16 * (triggers as usize), start, n);
    let Checked::To(p, _) = a else {
        return a;
    };
    let Some((conditions, _)) = model_walk::u16_at(s, p) else {
        return Checked::Refused(30);
    };
    if bad_counts(max, triggers, conditions) {
        return Checked::Refused(14);
    }
    lists_check(s, d, entities, triggers, start, n)
}

// What follows an automation's identifier.
fn rule_of_check(s: &[u8], d: Declared, entities: &Positions, at: usize, n: u32) -> Checked
    requires { d.count ≤ 100 }
    ensures { result ≡ rule_of_m (declaration d entities.now) s.now at n }
{
    let a = model_check::skip(s, 1, at, n);
    let Checked::To(p, m) = a else {
        return a;
    };
    let Some((max, q)) = model_walk::u32_at(s, p) else {
        return Checked::Refused(30);
    };
    rule_lists_check(s, d, entities, max, q, m)
}

fn rule_check(
    s: &[u8],
    d: Declared,
    entities: &Positions,
    starts: &Positions,
    j: usize,
    at: usize,
    n: u32,
) -> Checked
    requires { (d.count ≤ 100) × (j ≤ 100) }
    ensures { result ≡ rule_m (declaration d entities.now) starts.now j s.now at n }
{
    let Some((id, p)) = model_walk::u16_at(s, at) else {
        return Checked::Refused(30);
    };
    if bad_id(s, Part::Rule, starts, j, id) {
        return Checked::Refused(13);
    }
    rule_of_check(s, d, entities, p, n)
}

// ---- sections

// The j-th part of a section, at a position.
fn part_check(
    s: &[u8],
    d: Declared,
    entities: &Positions,
    part: Part,
    starts: &Positions,
    j: usize,
    at: usize,
    n: u32,
) -> Checked
    requires { (d.count ≤ 100) × (j ≤ 100) }
    ensures { result ≡ part_m (declaration d entities.now) part starts.now j s.now at n }
{
    match part {
        Part::Entity => entity_check(s, d, entities, at, n),
        Part::Event => event_check(s, d, entities, at, n),
        Part::Input => input_check(s, d, entities, at, n),
        Part::Invariant => invariant_check(s, d, entities, starts, j, at, n),
        Part::Rule => rule_check(s, d, entities, starts, j, at, n),
    }
}

pub fn section_check(
    s: &[u8],
    d: Declared,
    entities: &Positions,
    part: Part,
    starts: &Positions,
    count: u32,
    n: u32,
) -> Checked
    requires { (d.count ≤ 100) × (count ≤ 100) }
    ensures { result ≡ parts_m (declaration d entities.now) part starts.now count 0 s.now n }
{
    let end = count as usize;
    let mut m = n;
    for j in 0..end {
        let p = starts[j];
        let x = part_check(s, d, entities, part, starts, j, p, m);
        let Checked::To(_, k) = x else {
            return x;
        };
        m = k;
    }
    Checked::To(0, m)
}
