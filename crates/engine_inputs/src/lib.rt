// What a simulation begins with: the model's events as words, and the values that its entities start with.
#![tactic(auto)]

ghost use Rattle.layout.specs.Sizes.{event_word_count};
ghost use Rattle.std.specs.Prelude.{◌≡◌, ◌≤◌, ◌<◌};
ghost use Rattle.engine_inputs.specs.Inputs.{
  input_part,
  event_part,
  event_from,
  EventsOf,
  initial_at,
  value_from,
  CellsOf,
};

use engine_state::Cells;
use layout::{EventWords, Positions};
use model_index::Index;

// Events of four words: a second, a kind, an entity and a value.
#[derive(Clone, Copy)]
pub struct Events {
    pub words: EventWords,
}

// A word of the input at a position. Only an input that sets has places.
pub fn input_part(s: &[u8], p: usize, j: usize) -> u32
    requires { p ≤ 4294967299 }
    ensures { result ≡ input_part s.now p j }
{
    let kind = engine_fields::byte_at(s, p);
    if j == 0 {
        return kind;
    }
    if kind != 0 {
        return 0;
    }
    if j == 1 {
        return engine_fields::two_at(s, p + 1);
    }
    engine_fields::two_at(s, p + 3)
}

// A word of the event at a position.
fn event_part(s: &[u8], p: usize, j: usize) -> u32
    requires { p ≤ 4294967295 }
    ensures { result ≡ event_part s.now p j }
{
    if j == 0 {
        return engine_fields::four_at(s, p);
    }
    input_part(s, p + 4, j - 1)
}

// The k-th word of the events that stand at these positions.
fn event_word(s: &[u8], starts: &Positions, k: usize) -> u32
    requires { k < event_word_count }
    ensures { result ≡ event_from s.now starts.now k }
{
    let p = engine_fields::capped(starts[k / 4]) as usize;
    event_part(s, p, k % 4)
}

// The words of the index's events, then zeros.
pub fn events_of(s: &[u8], index: Index) -> Events
    ensures { EventsOf s.now index result.words }
{
    let events = index.events;
    let starts = events.starts;
    let n = bounds::at_most(events.count, 100);
    let mut words = [0u32; layout::EVENT_WORDS];
    for k in 0..n * 4 {
        words[k] = event_word(s, &starts, k);
    }
    Events { words }
}

// The initial value of the entity at a position.
fn initial_at(s: &[u8], p: usize) -> u32
    requires { p ≤ 4294967295 }
    ensures { result ≡ initial_at s.now p }
{
    let many = engine_fields::two_at(s, p + 2) as usize;
    engine_fields::two_at(s, p + 4 + 2 * many)
}

// The e-th of so many entities that stand at these positions.
fn value_word(s: &[u8], starts: &Positions, count: u32, e: usize) -> u32
    requires { e < 32 }
    ensures { result ≡ value_from s.now starts.now count e }
{
    if e < count as usize {
        let p = engine_fields::capped(starts[e]) as usize;
        return initial_at(s, p);
    }
    0
}

pub fn cells_of(s: &[u8], index: Index) -> Cells
    ensures { CellsOf s.now index result }
{
    let entities = index.entities;
    let starts = entities.starts;
    let count = entities.count;
    let mut values = [0u32; 32];
    for e in 0..32 {
        values[e] = value_word(s, &starts, count, e);
    }
    Cells {
        values,
        versions: [0u32; 32],
    }
}
