// The cone, closed over sets: entities and automations by their numbers in the file, as bits. In each round the first
// automation that isn't in yet and writes one of the entities comes in, and with it what it needs.
#![tactic(auto)]

ghost use Rattle.std.specs.Prelude.{◌≡◌, ◌≤◌, ◌<◌};
ghost use Rattle.cone_close.specs.Rounds.{adds_m, first_m, round_m, closed_m};

// The entities and the automations that are in.
#[derive(Clone, Copy)]
pub struct ConeSets {
    pub entities: u32,
    pub automations: u32,
}

// Whether the i-th automation comes in.
fn adds(writes: [u32; 32], c: ConeSets, i: usize) -> bool
    requires { i < 32 }
    ensures { result ≡ adds_m writes c i }
{
    if lint_reach::has(c.automations, i) {
        return false;
    }
    (writes[i] & c.entities) != 0
}

// The first of `count` automations that comes in, or their number.
fn first(writes: [u32; 32], c: ConeSets, count: usize) -> usize
    requires { count ≤ 32 }
    ensures { result ≡ first_m writes c count 0 }
{
    for i in 0..count {
        if adds(writes, c, i) {
            return i;
        }
    }
    count
}

// One round.
fn round(writes: [u32; 32], needs: [u32; 32], c: ConeSets, count: usize) -> ConeSets
    requires { count ≤ 32 }
    ensures { result ≡ round_m writes needs count c }
{
    let k = first(writes, c, count);
    if k < count {
        return ConeSets {
            entities: c.entities | needs[k],
            automations: lint_reach::with(c.automations, k),
        };
    }
    c
}

// All rounds, from the entities that are in at the start; `writes` and `needs` are those of `count` automations.
pub fn close(writes: [u32; 32], needs: [u32; 32], start: u32, count: usize) -> ConeSets
    requires { count ≤ 32 }
    ensures { result ≡ closed_m writes needs count start }
{
    let mut c = ConeSets {
        entities: start,
        automations: 0,
    };
    for _ in 0..count {
        c = round(writes, needs, c, count);
    }
    c
}
