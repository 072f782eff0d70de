// The table that the engine goes by: words of the file and its index (crate layout).
#![tactic(auto)]

ghost use Rattle.std.specs.Prelude.{◌≡◌, ◌+◌, ◌*◌, ◌≤◌, ◌<◌};
ghost use Rattle.engine_fields.specs.Fields.{four, cap};
ghost use Rattle.engine_table.specs.Table.{
  end_of,
  stale_at,
  conditions_at,
  actions_at,
  source_at,
  rule_word,
  count_word,
  fixed_word,
  start_word,
  head_word,
  part_word,
  Headed,
  TableOf,
};

use layout::{Positions, Table};
use model_index::Index;
use model_walk::{Piece, Walked};

// Where a walk ended.
fn end_of(w: Walked, at: usize) -> usize
    ensures { result ≡ end_of w at }
{
    match w {
        Some((p, _)) => p,
        None => at,
    }
}

// ---- entities and automations, by position in a file of at most 32,768 bytes

fn stale_at(s: &[u8], p: usize) -> u32
    requires { p ≤ 4294967295 }
    ensures { result ≡ stale_at s.now p }
{
    let many = engine_fields::two_at(s, p + 2) as usize;
    engine_fields::four_at(s, p + 7 + 2 * many)
}

fn conditions_at(s: &[u8], p: usize) -> usize
    requires { p ≤ 4294967295 }
    ensures { (result ≡ conditions_at s.now p) × (result ≤ p + 9 + 16 * 65535) }
{
    let many = engine_fields::two_at(s, p + 7) as usize;
    p + 9 + 16 * many
}

fn actions_at(s: &[u8], texts: u32, p: usize) -> usize
    requires { p ≤ 4294967295 }
    ensures { result ≡ actions_at texts s.now p }
{
    let conditions = conditions_at(s, p);
    let w = model_walk::pieces_at(s, texts, Piece::Predicate, conditions, 0);
    end_of(w, conditions)
}

fn source_at(s: &[u8], texts: u32, p: usize) -> usize
    requires { p ≤ 4294967295 }
    ensures { result ≡ source_at texts s.now p }
{
    let actions = actions_at(s, texts, p);
    let w = model_walk::actions_at(s, texts, 18, actions, 0);
    end_of(w, actions)
}

fn rule_word(s: &[u8], texts: u32, p: usize, k: usize) -> u32
    requires { p ≤ 4294967295 }
    ensures { result ≡ rule_word texts s.now p k }
{
    match k {
        layout::ID => engine_fields::two_at(s, p),
        layout::MODE => engine_fields::byte_at(s, p + 2),
        layout::MAX => engine_fields::four_at(s, p + 3),
        layout::TRIGGERS => engine_fields::capped(p + 7),
        layout::CONDITIONS => engine_fields::capped(conditions_at(s, p)),
        layout::ACTIONS => engine_fields::capped(actions_at(s, texts, p)),
        layout::SOURCE => engine_fields::capped(source_at(s, texts, p)),
        _ => notes_word(s, texts, p),
    }
}

// The position of an automation's notes, behind its source.
fn notes_word(s: &[u8], texts: u32, p: usize) -> u32
    requires { p ≤ 4294967295 }
    ensures { result ≡ cap (source_at texts s.now p + 8) }
{
    let source = source_at(s, texts, p);
    if 4294967287 < source {
        return 4294967295;
    }
    engine_fields::capped(source + 8)
}

// The number at the k-th byte behind a position.
fn number_at(s: &[u8], at: usize, k: usize) -> u32
    requires { k ≤ 8 }
    ensures { result ≡ four s.now (cap at + k) }
{
    let p = engine_fields::capped(at) as usize;
    engine_fields::four_at(s, p + k)
}

// The start: its weekday, and four bytes on its second. It stands behind the automations, or the file ends there.
fn start_word(s: &[u8], index: Index, k: usize) -> u32
    requires { k ≤ 8 }
    ensures { result ≡ start_word s.now index k }
{
    let rules = index.rules;
    let w = rules.end;
    number_at(s, end_of(w, 0), k)
}

// The first sixteen words.
fn head_word(s: &[u8], index: Index, k: usize) -> u32
    ensures { result ≡ head_word s.now index k }
{
    if k < 2 {
        return count_word(index, k);
    }
    if k == layout::HORIZON {
        return number_at(s, index.limits, 0);
    }
    if k == layout::MAX_STEPS {
        return number_at(s, index.limits, 4);
    }
    if k < 8 {
        return fixed_word(s, index, k);
    }
    if k == layout::START_WEEKDAY {
        return start_word(s, index, 0);
    }
    if k == layout::START_SECOND {
        return start_word(s, index, 4);
    }
    count_word(index, k)
}

// The counts: entities, automations, events, texts.
fn count_word(index: Index, k: usize) -> u32
    ensures { result ≡ count_word index k }
{
    if k == layout::ENTITY_COUNT {
        let entities = index.entities;
        return entities.count;
    }
    if k == layout::AUTOMATION_COUNT {
        let rules = index.rules;
        return rules.count;
    }
    if k == layout::EVENT_COUNT {
        let events = index.events;
        return events.count;
    }
    if k == layout::TEXT_COUNT {
        let texts = index.texts;
        return texts.count;
    }
    0
}

// The places of the fixed texts.
fn fixed_word(s: &[u8], index: Index, k: usize) -> u32
    ensures { result ≡ fixed_word s.now index k }
{
    let texts = index.texts;
    let count = texts.count;
    if k == layout::ON {
        return model_order::place_of(s, b"on", count);
    }
    if k == layout::OFF {
        return model_order::place_of(s, b"off", count);
    }
    if k == layout::UNKNOWN {
        return model_order::place_of(s, b"unknown", count);
    }
    model_order::place_of(s, b"unavailable", count)
}

// The words of entities and automations that stand at these positions.
fn part_word(s: &[u8], texts: u32, names: &Positions, rules: &Positions, k: usize) -> u32
    requires { (16 ≤ k) × (k < 336) }
    ensures { result ≡ part_word texts s.now names.now rules.now k }
{
    if k < layout::ENTITY_STALE {
        let p = engine_fields::capped(names[k - layout::HEAD_WORDS]) as usize;
        return engine_fields::two_at(s, p);
    }
    if k < layout::AUTOMATIONS {
        let q = engine_fields::capped(names[k - layout::ENTITY_STALE]) as usize;
        return stale_at(s, q);
    }
    let t = engine_fields::capped(rules[(k - layout::AUTOMATIONS) / layout::AUTOMATION_WORDS]);
    rule_word(
        s,
        texts,
        t as usize,
        (k - layout::AUTOMATIONS) % layout::AUTOMATION_WORDS,
    )
}

// A table with its first 16 words.
fn headed(s: &[u8], index: Index) -> Table
    ensures { Headed s.now index result }
{
    let mut words = [0u32; layout::TABLE];
    for k in 0..layout::HEAD_WORDS {
        words[k] = head_word(s, index, k);
    }
    words
}

// The table of a file and its index, up to the last automation; then zeros.
pub fn table_of(s: &[u8], index: Index) -> Table
    ensures { TableOf s.now index result }
{
    let entities = index.entities;
    let names = entities.starts;
    let automations = index.rules;
    let rules = automations.starts;
    let texts = index.texts;
    let count = texts.count;
    let n = bounds::at_most(automations.count, 32);
    let mut words = headed(s, index);
    for k in layout::HEAD_WORDS..layout::AUTOMATIONS + n * layout::AUTOMATION_WORDS {
        words[k] = part_word(s, count, &names, &rules, k);
    }
    words
}
