// The findings and interactions of each automation, in the order in which Rust adds them.
#![tactic(auto)]

ghost use Rattle.std.specs.Prelude.{◌≡◌, List, ℕ, ◌≤◌, ◌<◌};
ghost use Rattle.lint_walk.specs.Walks.{walk_by};
ghost use Rattle.lint_areas.specs.Areas.{board, pushes};
ghost use Rattle.lint_conditions.specs.Context.{section_of, names_by};
ghost use Rattle.lint_findings.specs.Entries.{
  about_m,
  action_m,
  delayed_m,
  own_items,
  branch_items,
  branches_items,
  stale_here_m,
  fresh_items,
  value_m,
  risky_m,
  interact_items,
  write_items,
  writes_items,
  first_items,
  rule_items,
};

use layout::{ActionPositions, Positions};
use lint_areas::Out;
use lint_conditions::Given;
use model_parts::Extent;

// An automation: its number, the set of it alone, the highest tier that it writes, its source.
#[derive(Clone, Copy)]
pub struct About {
    pub number: u32,
    pub set: u32,
    pub tier: u32,
    pub line: u32,
    pub column: u32,
}

// ---- words of findings

// A finding about one automation: code, certainty, tier, entity, automations, source, no second source, no reason.
fn finding(a: About, code: u32, certainty: u32, entity: u32, line: u32, column: u32) -> [u32; 14]
    ensures { result ≡ about_m a code certainty entity line column }
{
    [
        code, certainty, a.tier, entity, a.set, line, column, 0, 0, 0, 0, 0, 0, 0,
    ]
}

// The same at the source of the action at a position.
fn at_action(s: &[u8], a: About, code: u32, certainty: u32, entity: u32, at: usize) -> [u32; 14]
    ensures { result ≡ action_m s.now a code certainty entity at }
{
    let line = lint_walk::number_at(s, at);
    let column = lint_walk::number_at(s, lint_walk::past(s, at, 4));
    finding(a, code, certainty, entity, line, column)
}

// ---- conditions, triggers, delays

fn delayed(s: &[u8], list: &ActionPositions, count: usize, writes: u32) -> bool
    requires { count ≤ 512 }
    ensures { result ≡ delayed_m s.now (walk_by list.now count) writes }
{
    if writes == 0 {
        return false;
    }
    lint_conditions::delays(s, list, count)
}

fn own_findings(
    s: &[u8],
    a: About,
    at: usize,
    list: &ActionPositions,
    count: usize,
    writes: u32,
    findings: &mut [u32],
    o: Out,
) -> Out
    requires { count ≤ 512 }
    ensures { (i : List ℕ) → board findings.new i result ≡ pushes (own_items s.now a at (walk_by list.now count) writes)
        (board findings.old i o) }
{
    let line = a.line;
    let column = a.column;
    let first = lint_conditions::contradictory(s, lint_walk::conditions_at(s, at));
    let p = lint_areas::push_if(findings, o, first, finding(a, 0, 0, 0, line, column));
    let second = lint_conditions::mismatched(s, at);
    let q = lint_areas::push_if(findings, p, second, finding(a, 1, 1, 0, line, column));
    let third = delayed(s, list, count, writes);
    lint_areas::push_if(findings, q, third, finding(a, 2, 1, 0, line, column))
}

// ---- branches

// The branches of the choice at a position that are never taken.
fn choice_findings(s: &[u8], a: About, at: usize, findings: &mut [u32], o: Out) -> Out
    ensures { (i : List ℕ) → board findings.new i result ≡ pushes (branch_items s.now a at) (board findings.old i o) }
{
    let words = at_action(s, a, 3, 0, 0, at);
    let start = lint_walk::past(s, at, 9);
    let count = lint_walk::place_at(s, start);
    let mut p = lint_walk::past(s, start, 2);
    let mut out = o;
    for _ in 0..count {
        out = lint_areas::push_if(findings, out, lint_conditions::contradictory(s, p), words);
        p = lint_walk::list_end(s, lint_walk::predicates_end(s, p));
    }
    out
}

fn branch_findings(
    s: &[u8],
    a: About,
    list: &ActionPositions,
    count: usize,
    findings: &mut [u32],
    o: Out,
) -> Out
    requires { count ≤ 512 }
    ensures { (i : List ℕ) → board findings.new i result ≡ pushes (branches_items s.now a (walk_by list.now count))
        (board findings.old i o) }
{
    let mut out = o;
    for k in 0..count {
        let p = list[k];
        if lint_walk::kind_at(s, p) == 4 {
            out = choice_findings(s, a, p, findings, out);
        }
    }
    out
}

// ---- entities that are read

fn stale_here(s: &[u8], entities: &Positions, extent: Extent, reads: u32, k: usize) -> bool
    requires { k < 32 }
    ensures { result ≡ stale_here_m s.now (section_of entities.now extent) reads k }
{
    if lint_reach::has(reads, k) {
        return lint_conditions::stale(s, entities[k]);
    }
    false
}

fn fresh_findings(
    s: &[u8],
    a: About,
    entities: &Positions,
    extent: Extent,
    reads: u32,
    findings: &mut [u32],
    o: Out,
) -> Out
    requires { extent.count ≤ 32 }
    ensures { (i : List ℕ) → board findings.new i result ≡ pushes (fresh_items s.now a (section_of entities.now extent) reads)
        (board findings.old i o) }
{
    let count = extent.count as usize;
    let line = a.line;
    let column = a.column;
    let mut out = o;
    for k in 0..count {
        let test = stale_here(s, entities, extent, reads, k);
        out = lint_areas::push_if(
            findings,
            out,
            test,
            finding(a, 6, 1, k as u32, line, column),
        );
    }
    out
}

// ---- writes

// The value that the action at a position writes: a toggle's is `*`.
pub fn value(s: &[u8], star: u32, at: usize) -> u32
    ensures { result ≡ value_m s.now star at }
{
    if lint_walk::kind_at(s, at) == 1 {
        return star;
    }
    lint_walk::place_at(s, lint_walk::past(s, at, 11))
}

// Whether a write of v to the entity x, whose number is e, needs a guard and has none.
fn risky(
    s: &[u8],
    entities: &Positions,
    invariants: &Positions,
    given: Given,
    x: u32,
    v: u32,
    e: usize,
) -> bool
    requires { (given.invariants.count ≤ 32) × (e < 100) }
    ensures { result ≡ risky_m s.now (names_by entities.now invariants.now given) x v e }
{
    if lint_conditions::tier(s, entities[e]) < 2 {
        return false;
    }
    lint_conditions::unguarded(s, entities, invariants, given, x, v)
}

// The automations that a write of v to x, the entity with the number e, can set off.
fn interactions_of(
    s: &[u8],
    from: u32,
    rules: &Positions,
    extent: Extent,
    star: u32,
    x: u32,
    v: u32,
    e: u32,
    interactions: &mut [u32],
    o: Out,
) -> Out
    requires { extent.count ≤ 32 }
    ensures { (f : List ℕ) → board f interactions.new result ≡ pushes
        (interact_items s.now from (section_of rules.now extent) star x v e) (board f interactions.old o) }
{
    let count = extent.count as usize;
    let mut out = o;
    for k in 0..count {
        let test = lint_conditions::leads(s, star, x, v, rules[k]);
        out = lint_areas::interact_if(interactions, out, test, [from, k as u32, e]);
    }
    out
}

// What the action at a position writes: its guard, and the automations that it can set off.
fn write_findings(
    s: &[u8],
    entities: &Positions,
    invariants: &Positions,
    rules: &Positions,
    given: Given,
    a: About,
    at: usize,
    findings: &mut [u32],
    interactions: &mut [u32],
    o: Out,
) -> Out
    requires { (given.entities.count ≤ 32) × (given.invariants.count ≤ 32) × (given.rules.count ≤ 32) }
    ensures { board findings.new interactions.new result
        ≡ pushes (write_items s.now (names_by entities.now invariants.now given) (section_of rules.now given.rules)
        a at) (board findings.old interactions.old o) }
{
    if 1 < lint_walk::kind_at(s, at) {
        return o;
    }
    let x = lint_walk::place_at(s, lint_walk::past(s, at, 9));
    let extent = given.entities;
    let count = extent.count as usize;
    let e = model_check::first_of(s, entities, extent.count, x);
    if count <= e {
        return o;
    }
    let v = value(s, given.star, at);
    let words = at_action(s, a, 7, 1, e as u32, at);
    let test = risky(s, entities, invariants, given, x, v, e);
    let p = lint_areas::push_if(findings, o, test, words);
    interactions_of(
        s,
        a.number,
        rules,
        given.rules,
        given.star,
        x,
        v,
        e as u32,
        interactions,
        p,
    )
}

fn writes_findings(
    s: &[u8],
    entities: &Positions,
    invariants: &Positions,
    rules: &Positions,
    given: Given,
    a: About,
    list: &ActionPositions,
    count: usize,
    findings: &mut [u32],
    interactions: &mut [u32],
    o: Out,
) -> Out
    requires { (given.entities.count ≤ 32) × (given.invariants.count ≤ 32) × (given.rules.count ≤ 32)
        × (count ≤ 512) }
    ensures { board findings.new interactions.new result
        ≡ pushes (writes_items s.now (names_by entities.now invariants.now given) (section_of rules.now given.rules)
        a (walk_by list.now count)) (board findings.old interactions.old o) }
{
    let mut out = o;
    for k in 0..count {
        out = write_findings(
            s,
            entities,
            invariants,
            rules,
            given,
            a,
            list[k],
            findings,
            interactions,
            out,
        );
    }
    out
}

// ---- an automation

// Its findings about conditions, triggers, delays, branches and the number of entities that it writes.
fn first_findings(
    s: &[u8],
    a: About,
    at: usize,
    list: &ActionPositions,
    count: usize,
    writes: u32,
    findings: &mut [u32],
    o: Out,
) -> Out
    requires { count ≤ 512 }
    ensures { (i : List ℕ) → board findings.new i result ≡ pushes (first_items s.now a at (walk_by list.now count) writes)
        (board findings.old i o) }
{
    let p = own_findings(s, a, at, list, count, writes, findings, o);
    let q = branch_findings(s, a, list, count, findings, p);
    let line = a.line;
    let column = a.column;
    lint_areas::push_if(
        findings,
        q,
        lint_reach::many(writes),
        finding(a, 4, 1, 0, line, column),
    )
}

// The entries of the automation at a position, with its actions, the first `count` of `list`, and the sets of what it reads
// and writes.
pub fn rule_findings(
    s: &[u8],
    entities: &Positions,
    invariants: &Positions,
    rules: &Positions,
    given: Given,
    a: About,
    at: usize,
    list: &ActionPositions,
    count: usize,
    reads: u32,
    writes: u32,
    findings: &mut [u32],
    interactions: &mut [u32],
    o: Out,
) -> Out
    requires { (given.entities.count ≤ 32) × (given.invariants.count ≤ 32) × (given.rules.count ≤ 32)
        × (count ≤ 512) }
    ensures { board findings.new interactions.new result
        ≡ pushes (rule_items s.now (names_by entities.now invariants.now given) (section_of rules.now given.rules)
        a at (walk_by list.now count) reads writes) (board findings.old interactions.old o) }
{
    let p = first_findings(s, a, at, list, count, writes, findings, o);
    let q = fresh_findings(s, a, entities, given.entities, reads, findings, p);
    writes_findings(
        s,
        entities,
        invariants,
        rules,
        given,
        a,
        list,
        count,
        findings,
        interactions,
        q,
    )
}
