// Numbers that several crates go by, each in one place: the table's words, the sizes of lists and areas. The kinds of
// records stand in crate records, those of reasons in crate reasons.
#![tactic(auto)]

// ---- the table that a simulation goes by (crate engine_table)

// 16 words of the model, then 32 names and 32 times of entities, then eight words for each of 32 automations.
pub const TABLE: usize = 336;

pub type Table = [u32; TABLE];

// Words of the model: counts, limits, the places of texts, the start.
pub const ENTITY_COUNT: usize = 0;

pub const AUTOMATION_COUNT: usize = 1;

pub const HORIZON: usize = 2;

pub const MAX_STEPS: usize = 3;

pub const ON: usize = 4;

pub const OFF: usize = 5;

pub const UNKNOWN: usize = 6;

pub const UNAVAILABLE: usize = 7;

pub const EVENT_COUNT: usize = 8;

pub const TEXT_COUNT: usize = 9;

pub const START_WEEKDAY: usize = 10;

pub const START_SECOND: usize = 11;

// Where the words of entities and of automations start.
pub const HEAD_WORDS: usize = 16;

pub const ENTITY_STALE: usize = 48;

pub const AUTOMATIONS: usize = 80;

// Words of an automation: a place, a mode, a number, and positions in the file.
pub const AUTOMATION_WORDS: usize = 8;

pub const ID: usize = 0;

pub const MODE: usize = 1;

pub const MAX: usize = 2;

pub const TRIGGERS: usize = 3;

pub const CONDITIONS: usize = 4;

pub const ACTIONS: usize = 5;

pub const SOURCE: usize = 6;

pub const NOTES: usize = 7;

// ---- texts

// The place that stands for no text: a trigger's from, to and note may be absent.
pub const NO_PLACE: u32 = 65535;

// ---- lists: how many entries they have, and how many words. `specs/Sizes` has the same numbers for contracts.

// Positions in a file: of a section's first 100 parts, and of an automation's actions.
pub const POSITIONS: usize = 100;

pub type Positions = [usize; POSITIONS];

pub const ACTION_POSITIONS: usize = 512;

pub type ActionPositions = [usize; ACTION_POSITIONS];

// The events of a model, four words each: 100 of them.
pub const EVENT_WORDS: usize = 400;

pub type EventWords = [u32; EVENT_WORDS];

// Reasons of a simulation, five words each.
pub const SIMULATION_REASONS: usize = 300;

pub const LAST_SIMULATION_REASON: usize = 299;

pub const SIMULATION_REASON_WORDS: usize = 1500;

pub type SimulationReasons = [u32; SIMULATION_REASON_WORDS];

// Reasons of a verdict, a check's or a search's.
pub const VERDICT_REASONS: usize = 400;

pub const VERDICT_REASON_WORDS: usize = 2000;

pub type VerdictReasons = [u32; VERDICT_REASON_WORDS];

// Reasons for which a check is incomplete.
pub const INCOMPLETE_REASONS: usize = 40;

pub const INCOMPLETE_REASON_WORDS: usize = 200;

pub type IncompleteReasons = [u32; INCOMPLETE_REASON_WORDS];

// Violations, eight numbers each: one for each of 32 invariants.
pub const VIOLATIONS: usize = 256;

pub type Violations = [u64; VIOLATIONS];

// ---- areas that the programs lend

// Areas of so many entries are never too small; a queue of 20,543 would do.
pub const QUEUE: usize = 20544;

pub const RECORDS: usize = 10096;

pub const RUNS: usize = 512;
