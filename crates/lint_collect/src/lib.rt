// The entries of all automations, in the order in which Rust adds them.
#![tactic(auto)]

ghost use Rattle.std.specs.Prelude.{◌≡◌, List, ℕ, ◌≤◌, ◌<◌, ◌+◌};
ghost use Rattle.lint_reach.specs.Cycles.{Cycles};
ghost use Rattle.lint_areas.specs.Areas.{board, pushes};
ghost use Rattle.lint_walk.specs.Walks.{walk_by};
ghost use Rattle.lint_conditions.specs.Context.{section_of, names_by};
ghost use Rattle.lint_collect.specs.Collect.{
  Lints,
  about_at,
  rule_at,
  rules_items,
  pair_at,
  later_items,
  opposing_items,
  action_leads_m,
  leads_to_m,
  row_m,
  edges_m,
  cycle_writes_m,
  cycle_m,
  cycles_items,
};

use layout::{ActionPositions, Positions};
use lint_areas::Out;
use lint_conditions::Given;
use lint_findings::About;
use lint_reach::Components;
use model_parts::Extent;

// ---- each automation

// The automation with the number i, whose source stands at a position, and the set of what it writes.
fn about(
    s: &[u8],
    entities: &Positions,
    extent: Extent,
    i: usize,
    source: usize,
    writes: u32,
) -> About
    requires { (extent.count ≤ 32) × (i < 32) }
    ensures { result ≡ about_at s.now (section_of entities.now extent) i source writes }
{
    let line = lint_walk::number_at(s, source);
    let column = lint_walk::number_at(s, lint_walk::past(s, source, 4));
    About {
        number: i as u32,
        set: lint_reach::with(0, i),
        tier: lint_conditions::highest(s, entities, extent, writes),
        line,
        column,
    }
}

// The entries of the i-th automation.
fn rule_entries(
    s: &[u8],
    entities: &Positions,
    invariants: &Positions,
    rules: &Positions,
    given: Given,
    i: usize,
    findings: &mut [u32],
    interactions: &mut [u32],
    o: Out,
) -> Out
    requires { (given.entities.count ≤ 32) × (given.invariants.count ≤ 32) × (given.rules.count ≤ 32) × (i < 32) }
    ensures { board findings.new interactions.new result
        ≡ pushes (rule_at s.now (names_by entities.now invariants.now given) (section_of rules.now given.rules) i)
        (board findings.old interactions.old o) }
{
    let at = rules[i];
    let mut list = [0usize; layout::ACTION_POSITIONS];
    let c = lint_walk::rule_walk(s, at, &mut list);
    let count = c.count;
    let extent = given.entities;
    let many = extent.count;
    let writes = lint_access::writes(s, entities, many, &list, count);
    let reads = lint_access::reads(s, entities, many, at, &list, count);
    let a = about(s, entities, extent, i, c.next, writes);
    lint_findings::rule_findings(
        s,
        entities,
        invariants,
        rules,
        given,
        a,
        at,
        &list,
        count,
        reads,
        writes,
        findings,
        interactions,
        o,
    )
}

// The entries of all automations.
pub fn rules_entries(
    s: &[u8],
    entities: &Positions,
    invariants: &Positions,
    rules: &Positions,
    given: Given,
    findings: &mut [u32],
    interactions: &mut [u32],
    o: Out,
) -> Out
    requires { (given.entities.count ≤ 32) × (given.invariants.count ≤ 32) × (given.rules.count ≤ 32) }
    ensures { board findings.new interactions.new result
        ≡ pushes (rules_items s.now (names_by entities.now invariants.now given) (section_of rules.now given.rules))
        (board findings.old interactions.old o) }
{
    let extent = given.rules;
    let count = extent.count as usize;
    let mut out = o;
    for i in 0..count {
        out = rule_entries(
            s,
            entities,
            invariants,
            rules,
            given,
            i,
            findings,
            interactions,
            out,
        );
    }
    out
}

// ---- each pair of automations

// The i-th automation's actions, the first `count` of `list`, against those of the j-th.
fn pair_entries(
    s: &[u8],
    entities: &Positions,
    invariants: &Positions,
    rules: &Positions,
    given: Given,
    i: usize,
    list: &ActionPositions,
    count: usize,
    j: usize,
    findings: &mut [u32],
    o: Out,
) -> Out
    requires { (given.entities.count ≤ 32) × (i < 32) × (j < 32) × (count ≤ 512) }
    ensures { (k : List ℕ) → board findings.new k result ≡ pushes
        (pair_at s.now (names_by entities.now invariants.now given) (section_of rules.now given.rules) i
        (walk_by list.now count) j) (board findings.old k o) }
{
    let mut others = [0usize; layout::ACTION_POSITIONS];
    let c = lint_walk::rule_walk(s, rules[j], &mut others);
    let set = lint_reach::with(lint_reach::with(0, i), j);
    lint_pairs::oppose_pair(
        s, entities, invariants, given, set, list, count, &others, c.count, findings, o,
    )
}

// The i-th automation against each later one.
fn later_entries(
    s: &[u8],
    entities: &Positions,
    invariants: &Positions,
    rules: &Positions,
    given: Given,
    i: usize,
    findings: &mut [u32],
    o: Out,
) -> Out
    requires { (given.entities.count ≤ 32) × (given.rules.count ≤ 32) × (i < 32) }
    ensures { (k : List ℕ) → board findings.new k result ≡ pushes
        (later_items s.now (names_by entities.now invariants.now given) (section_of rules.now given.rules) i)
        (board findings.old k o) }
{
    let extent = given.rules;
    let count = extent.count as usize;
    let from = i + 1;
    if count <= from {
        return o;
    }
    let mut list = [0usize; layout::ACTION_POSITIONS];
    let c = lint_walk::rule_walk(s, rules[i], &mut list);
    let m = c.count;
    let mut out = o;
    for j in from..count {
        out = pair_entries(
            s, entities, invariants, rules, given, i, &list, m, j, findings, out,
        );
    }
    out
}

// Each automation against each later one.
pub fn opposing_entries(
    s: &[u8],
    entities: &Positions,
    invariants: &Positions,
    rules: &Positions,
    given: Given,
    findings: &mut [u32],
    o: Out,
) -> Out
    requires { (given.entities.count ≤ 32) × (given.rules.count ≤ 32) }
    ensures { (k : List ℕ) → board findings.new k result ≡ pushes
        (opposing_items s.now (names_by entities.now invariants.now given) (section_of rules.now given.rules))
        (board findings.old k o) }
{
    let extent = given.rules;
    let count = extent.count as usize;
    let mut out = o;
    for i in 0..count {
        out = later_entries(s, entities, invariants, rules, given, i, findings, out);
    }
    out
}

// ---- reach

// Whether a write among the first `count` actions of `list` can set off the automation at a position.
fn leads_to(s: &[u8], star: u32, list: &ActionPositions, count: usize, at: usize) -> bool
    requires { count ≤ 512 }
    ensures { result ≡ leads_to_m s.now star (walk_by list.now count) at }
{
    for k in 0..count {
        if action_leads(s, star, list[k], at) {
            return true;
        }
    }
    false
}

// Whether the action at a position writes and can set off the automation at another.
fn action_leads(s: &[u8], star: u32, action: usize, at: usize) -> bool
    ensures { result ≡ action_leads_m s.now star at action }
{
    if 1 < lint_walk::kind_at(s, action) {
        return false;
    }
    let x = lint_walk::place_at(s, lint_walk::past(s, action, 9));
    let v = lint_findings::value(s, star, action);
    lint_conditions::leads(s, star, x, v, at)
}

// Which automations the first `count` actions of `list` can set off.
fn reach_row(
    s: &[u8],
    star: u32,
    rules: &Positions,
    extent: Extent,
    list: &ActionPositions,
    count: usize,
) -> [bool; 32]
    requires { (extent.count ≤ 32) × (count ≤ 512) }
    ensures { result ≡ row_m s.now star (section_of rules.now extent) (walk_by list.now count) }
{
    let n = extent.count as usize;
    let mut row = [false; 32];
    for j in 0..n {
        row[j] = leads_to(s, star, list, count, rules[j]);
    }
    row
}

// Which automations lead to which.
pub fn edges(s: &[u8], star: u32, rules: &Positions, extent: Extent) -> [[bool; 32]; 32]
    requires { extent.count ≤ 32 }
    ensures { result ≡ edges_m s.now star (section_of rules.now extent) }
{
    let count = extent.count as usize;
    let mut start = [[false; 32]; 32];
    for i in 0..count {
        let mut list = [0usize; layout::ACTION_POSITIONS];
        let c = lint_walk::rule_walk(s, rules[i], &mut list);
        start[i] = reach_row(s, star, rules, extent, &list, c.count);
    }
    start
}

// The components of the automations that lead to each other.
pub fn find_components(s: &[u8], star: u32, rules: &Positions, extent: Extent) -> Components
    requires { extent.count ≤ 32 }
    ensures { Cycles (edges_m s.now star (section_of rules.now extent)) extent.count result }
{
    lint_reach::cycles(edges(s, star, rules, extent), extent.count as usize)
}

// ---- cycles

// The entities that the automations of a set write.
fn cycle_writes(s: &[u8], entities: &Positions, rules: &Positions, given: Given, set: u32) -> u32
    requires { (given.entities.count ≤ 32) × (given.rules.count ≤ 32) }
    ensures { result ≡ cycle_writes_m s.now (section_of entities.now given.entities)
        (section_of rules.now given.rules) set }
{
    let extent = given.rules;
    let count = extent.count as usize;
    let written = given.entities;
    let many = written.count;
    let mut writes: u32 = 0;
    for i in 0..count {
        if lint_reach::has(set, i) {
            let mut list = [0usize; layout::ACTION_POSITIONS];
            let c = lint_walk::rule_walk(s, rules[i], &mut list);
            let more = lint_access::writes(s, entities, many, &list, c.count);
            writes = lint_reach::union(writes, more);
        }
    }
    writes
}

// The words of a trigger_cycle; its sources are those of its automations.
fn cycle_words(
    s: &[u8],
    entities: &Positions,
    rules: &Positions,
    given: Given,
    set: u32,
) -> [u32; 14]
    requires { (given.entities.count ≤ 32) × (given.rules.count ≤ 32) }
    ensures { result ≡ cycle_m s.now (section_of entities.now given.entities) (section_of rules.now given.rules)
        set }
{
    let writes = cycle_writes(s, entities, rules, given, set);
    let tier = lint_conditions::highest(s, entities, given.entities, writes);
    [5, 1, tier, 0, set, 0, 0, 0, 0, 0, 0, 0, 0, 0]
}

// A finding for each component.
pub fn cycle_entries(
    s: &[u8],
    entities: &Positions,
    rules: &Positions,
    given: Given,
    found: Components,
    findings: &mut [u32],
    o: Out,
) -> Out
    requires { (given.entities.count ≤ 32) × (given.rules.count ≤ 32) × (found.count ≤ 32) }
    ensures { (k : List ℕ) → board findings.new k result ≡ pushes
        (cycles_items s.now (section_of entities.now given.entities) (section_of rules.now given.rules) found)
        (board findings.old k o) }
{
    let count = found.count;
    let mut out = o;
    for i in 0..count {
        out = lint_areas::push_finding(
            findings,
            out,
            cycle_words(s, entities, rules, given, found.sets[i]),
        );
    }
    out
}

// ---- all but the notes

// The counts of entries or the refusal, and the components.
#[derive(Clone, Copy)]
pub struct Linted {
    pub out: Out,
    pub found: Components,
}

// The entries of all automations, of all pairs and of all cycles.
pub fn entries(
    s: &[u8],
    entities: &Positions,
    invariants: &Positions,
    rules: &Positions,
    given: Given,
    findings: &mut [u32],
    interactions: &mut [u32],
    o: Out,
) -> Linted
    requires { (given.entities.count ≤ 32) × (given.invariants.count ≤ 32) × (given.rules.count ≤ 32) }
    ensures { Lints s.now (names_by entities.now invariants.now given) (section_of rules.now given.rules)
        (board findings.old interactions.old o) result (board findings.new interactions.new result.out) }
{
    let p = rules_entries(
        s,
        entities,
        invariants,
        rules,
        given,
        findings,
        interactions,
        o,
    );
    let q = opposing_entries(s, entities, invariants, rules, given, findings, p);
    let found = find_components(s, given.star, rules, given.rules);
    let out = cycle_entries(s, entities, rules, given, found, findings, q);
    Linted { out, found }
}
