// The lines of the findings, interactions and components of `lint`'s answer, and of their counts. The writers put texts
// behind the first n bytes of a lent area, as those of `show` do. f is the model file.
#![tactic(auto)]

ghost use Rattle.std.specs.Prelude.{◌≡◌, [], ◌∷◌, ◌≤◌, ◌<◌, length, get_or, if◌then◌else◌};
ghost use Rattle.texts.specs.Lists.{each};
ghost use Rattle.texts.specs.Texts.{Text};
ghost use Rattle.reasons.specs.Reasons.{placed};
ghost use Rattle.lint_spec.specs.Findings.{code_name};
ghost use Rattle.lint_reach.specs.Sets.{holds, members};
ghost use Rattle.show.specs.Writing.{Written};
ghost use Rattle.lint_lines.specs.Lines.{
  source_list,
  kind_part,
  places_part,
  counts_line,
  interaction_line,
  component_line,
};
ghost use Rattle.lint_words.specs.Numbers.{names_of, problem_of, certainty_of, tier_of};
ghost use Rattle.lint_lines.specs.Numbers.{
  rule_source,
  note_reason_of,
  sources_of,
  finding_text,
  finding_at,
  interaction_of,
  interaction_at,
  component_at,
};

use lint_entry::Report;
use lint_words::{
    long, put_certainty, put_code, put_members, put_message, put_name, put_tier, start_at, wide,
};
use model_index::Index;
use model_parts::Section;
use reasons::Reason;

// ---- sources

// ` LINE:COLUMN`
fn put_place(out: &mut [u8], n: usize, line: u32, column: u32) -> usize
    ensures { Written (32 ∷ placed line column) out.old n out.new result }
{
    let m = show::put_byte(out, n, 32);
    show::put_source(out, m, Some((line, column)))
}

// The source of the i-th automation, if it is in the set.
fn put_rule_source(out: &mut [u8], n: usize, f: &[u8], rules: Section, set: u32, i: usize) -> usize
    requires { i < 32 }
    ensures { Written (if holds set i then 32 ∷ placed (rule_source f.now rules i).line (rule_source f.now rules i).column
        else []) out.old n out.new result }
{
    if lint_reach::has(set, i) {
        let source = lint_walk::source_at(f, start_at(rules, i));
        let line = lint_walk::number_at(f, source);
        let column = lint_walk::number_at(f, lint_walk::past(f, source, 4));
        return put_place(out, n, line, column);
    }
    n
}

// `N LINE:COLUMN..` for a set of automations.
fn put_rule_sources(out: &mut [u8], n: usize, f: &[u8], rules: Section, set: u32) -> usize
    ensures { Written (source_list (each (rule_source f.now rules) (members set))) out.old n out.new result }
{
    let many = u32::count_ones(set);
    let mut m = show::put_number(out, n, long(many));
    for i in 0..32 {
        m = put_rule_source(out, m, f, rules, set, i);
    }
    m
}

fn put_sources(out: &mut [u8], n: usize, f: &[u8], rules: Section, w: &[u32]) -> usize
    requires { 14 ≤ length w.now }
    ensures { Written (source_list (sources_of f.now rules w.now)) out.old n out.new result }
{
    let code = w[0];
    if code == 5 {
        return put_rule_sources(out, n, f, rules, w[4]);
    }
    if code == 8 {
        let m = show::put_byte(out, n, 50);
        let k = put_place(out, m, w[5], w[6]);
        return put_place(out, k, w[7], w[8]);
    }
    let m = show::put_byte(out, n, 49);
    put_place(out, m, w[5], w[6])
}

// ---- lines

// `finding CODE CERTAINTY TIER `
fn put_kind(out: &mut [u8], n: usize, code: u32, certainty: u32, tier: u32) -> usize
    ensures { (x t : Text) → Written (kind_part (code_name (problem_of x t code)) (certainty_of certainty) (tier_of tier))
        out.old n out.new result }
{
    let a = show::put(out, n, b"finding ");
    let b = put_code(out, a, code);
    let c = show::put_byte(out, b, 32);
    let d = put_certainty(out, c, certainty);
    let e = show::put_byte(out, d, 32);
    let g = put_tier(out, e, tier);
    show::put_byte(out, g, 32)
}

// ` automations N "ID".. sources N LINE:COLUMN..`
fn put_places(out: &mut [u8], n: usize, f: &[u8], rules: Section, w: &[u32]) -> usize
    requires { 14 ≤ length w.now }
    ensures { Written (places_part (names_of f.now rules (get_or w.now 4 0)) (sources_of f.now rules w.now))
        out.old n out.new result }
{
    let a = show::put(out, n, b" automations ");
    let b = put_members(out, a, f, rules, w[4]);
    let c = show::put(out, b, b" sources ");
    let d = put_sources(out, c, f, rules, w);
    show::put_byte(out, d, 10)
}

// The reason among a finding's words.
fn note_of(w: &[u32]) -> Reason
    requires { 14 ≤ length w.now }
    ensures { result ≡ note_reason_of w.now }
{
    Reason {
        kind: w[9],
        first: w[10],
        second: w[11],
        line: w[12],
        column: w[13],
    }
}

fn put_finding(out: &mut [u8], n: usize, f: &[u8], index: Index, w: &[u32]) -> usize
    requires { 14 ≤ length w.now }
    ensures { Written (finding_text f.now index w.now) out.old n out.new result }
{
    let code = w[0];
    let e = wide(w[3]);
    let a = put_kind(out, n, code, w[1], w[2]);
    let b = put_message(out, a, f, index.entities, code, e, note_of(w));
    put_places(out, b, f, index.rules, w)
}

// `interaction "FROM" "TO" "ENTITY"`
pub fn put_interaction(
    out: &mut [u8],
    n: usize,
    f: &[u8],
    index: Index,
    from: usize,
    to: usize,
    entity: usize,
) -> usize
    ensures { Written (interaction_line (interaction_of f.now index from to entity)) out.old n out.new result }
{
    let rules = index.rules;
    let entities = index.entities;
    let a = show::put(out, n, b"interaction ");
    let b = put_name(out, a, f, rules, from);
    let c = show::put_byte(out, b, 32);
    let d = put_name(out, c, f, rules, to);
    let e = show::put_byte(out, d, 32);
    let g = put_name(out, e, f, entities, entity);
    show::put_byte(out, g, 10)
}

// `component N "ID"..`
pub fn put_component(out: &mut [u8], n: usize, f: &[u8], index: Index, set: u32) -> usize
    ensures { Written (component_line (names_of f.now index.rules set)) out.old n out.new result }
{
    let a = show::put(out, n, b"component ");
    let b = put_members(out, a, f, index.rules, set);
    show::put_byte(out, b, 10)
}

// `findings N interactions N components N`
pub fn put_counts(out: &mut [u8], n: usize, r: Report) -> usize
    ensures { Written (counts_line r.findings r.interactions r.components) out.old n out.new result }
{
    let a = show::put(out, n, b"findings ");
    let b = show::put_number(out, a, r.findings as u64);
    let c = show::put(out, b, b" interactions ");
    let d = show::put_number(out, c, r.interactions as u64);
    let e = show::put(out, d, b" components ");
    let g = show::put_number(out, e, r.components as u64);
    show::put_byte(out, g, 10)
}

// ---- entries by number

// The k-th finding of the area, if there is one.
pub fn put_finding_at(
    out: &mut [u8],
    n: usize,
    f: &[u8],
    index: Index,
    a: &[u32],
    k: usize,
) -> usize
    ensures { Written (finding_at f.now index a.now k) out.old n out.new result }
{
    if a.len() / 14 <= k {
        return n;
    }
    let from = 14 * k;
    let end = from + 14;
    put_finding(out, n, f, index, &a[from..end])
}

// The k-th interaction of the area, if there is one.
pub fn put_interaction_at(
    out: &mut [u8],
    n: usize,
    f: &[u8],
    index: Index,
    a: &[u32],
    k: usize,
) -> usize
    ensures { Written (interaction_at f.now index a.now k) out.old n out.new result }
{
    if a.len() / 3 <= k {
        return n;
    }
    let from = wide(a[3 * k]);
    let to = wide(a[3 * k + 1]);
    let entity = wide(a[3 * k + 2]);
    put_interaction(out, n, f, index, from, to, entity)
}

// The k-th component, if there is one.
pub fn put_component_at(
    out: &mut [u8],
    n: usize,
    f: &[u8],
    index: Index,
    r: Report,
    k: usize,
) -> usize
    ensures { Written (component_at f.now index r k) out.old n out.new result }
{
    if r.components <= k {
        return n;
    }
    if k < 32 {
        return put_component(out, n, f, index, r.cycles[k]);
    }
    n
}
