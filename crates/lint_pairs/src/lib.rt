// The findings of pairs of automations: writes of two automations against each other, in the order in which Rust adds them.
#![tactic(auto)]

ghost use Rattle.std.specs.Prelude.{◌≡◌, List, ℕ, ◌≤◌, ◌<◌};
ghost use Rattle.lint_walk.specs.Walks.{walk_by};
ghost use Rattle.lint_areas.specs.Areas.{board, pushes};
ghost use Rattle.lint_conditions.specs.Context.{section_of, names_by};
ghost use Rattle.lint_pairs.specs.Pairs.{spelled_m, pair_m, opposing_m, found_items, row_items, pair_items};

use layout::{ActionPositions, Positions};
use lint_areas::Out;
use lint_conditions::Given;
use model_parts::Extent;

// The tier's word where Rust spells `accesssafety`.
fn spelled(tier: u32) -> u32
    ensures { result ≡ spelled_m tier }
{
    if tier == 3 {
        return 4;
    }
    tier
}

// The words of opposing writes at two positions, to the entity with the number e.
fn pair_words(
    s: &[u8],
    entities: &Positions,
    extent: Extent,
    set: u32,
    e: usize,
    at: usize,
    other: usize,
) -> [u32; 14]
    requires { e < 100 }
    ensures { result ≡ pair_m s.now (section_of entities.now extent) set e at other }
{
    let tier = spelled(lint_conditions::tier(s, entities[e]));
    let line = lint_walk::number_at(s, at);
    let column = lint_walk::number_at(s, lint_walk::past(s, at, 4));
    let line2 = lint_walk::number_at(s, other);
    let column2 = lint_walk::number_at(s, lint_walk::past(s, other, 4));
    [
        8, 1, tier, e as u32, set, line, column, line2, column2, 0, 0, 0, 0, 0,
    ]
}

// Whether the action at a position writes against a write of v to the entity x.
fn opposing(s: &[u8], star: u32, x: u32, v: u32, other: usize) -> bool
    ensures { result ≡ opposing_m s.now star x v other }
{
    if 1 < lint_walk::kind_at(s, other) {
        return false;
    }
    let y = lint_walk::place_at(s, lint_walk::past(s, other, 9));
    if x != y {
        return false;
    }
    lint_conditions::opposed(star, x, v, y, lint_findings::value(s, star, other))
}

// Two writes against each other, at two positions, the first of them to the entity x: a finding if it is declared.
fn oppose(
    s: &[u8],
    entities: &Positions,
    extent: Extent,
    set: u32,
    x: u32,
    at: usize,
    other: usize,
    findings: &mut [u32],
    o: Out,
) -> Out
    requires { extent.count ≤ 32 }
    ensures { (i : List ℕ) → board findings.new i result ≡ pushes
        (found_items s.now (section_of entities.now extent) set x at other) (board findings.old i o) }
{
    let count = extent.count as usize;
    let e = model_check::first_of(s, entities, extent.count, x);
    if count <= e {
        return o;
    }
    lint_areas::push_finding(
        findings,
        o,
        pair_words(s, entities, extent, set, e, at, other),
    )
}

// The action at a position against each of another automation, the first `count` of `list`.
fn oppose_row(
    s: &[u8],
    entities: &Positions,
    invariants: &Positions,
    given: Given,
    set: u32,
    at: usize,
    list: &ActionPositions,
    count: usize,
    findings: &mut [u32],
    o: Out,
) -> Out
    requires { (given.entities.count ≤ 32) × (count ≤ 512) }
    ensures { (i : List ℕ) → board findings.new i result ≡ pushes
        (row_items s.now (names_by entities.now invariants.now given) set (walk_by list.now count) at)
        (board findings.old i o) }
{
    if 1 < lint_walk::kind_at(s, at) {
        return o;
    }
    let star = given.star;
    let x = lint_walk::place_at(s, lint_walk::past(s, at, 9));
    let v = lint_findings::value(s, star, at);
    let mut out = o;
    for k in 0..count {
        let other = list[k];
        if opposing(s, star, x, v, other) {
            out = oppose(
                s,
                entities,
                given.entities,
                set,
                x,
                at,
                other,
                findings,
                out,
            );
        }
    }
    out
}

// Each action of one automation against each of another: the first m of one list, the first n of the other.
pub fn oppose_pair(
    s: &[u8],
    entities: &Positions,
    invariants: &Positions,
    given: Given,
    set: u32,
    list: &ActionPositions,
    m: usize,
    others: &ActionPositions,
    n: usize,
    findings: &mut [u32],
    o: Out,
) -> Out
    requires { (given.entities.count ≤ 32) × (m ≤ 512) × (n ≤ 512) }
    ensures { (i : List ℕ) → board findings.new i result ≡ pushes
        (pair_items s.now (names_by entities.now invariants.now given) set (walk_by list.now m) (walk_by others.now n))
        (board findings.old i o) }
{
    let mut out = o;
    for k in 0..m {
        out = oppose_row(
            s, entities, invariants, given, set, list[k], others, n, findings, out,
        );
    }
    out
}
