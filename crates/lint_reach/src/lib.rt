// Sets of at most 32 places as bits, and reach: a square of yes-or-no cells, closed, and the components of its cycles.
#![tactic(auto)]

ghost use Rattle.std.specs.Prelude.{◌≡◌, ◌<◌, ◌≤◌, ◌^◌, ltb, length, take};
ghost use Rattle.std.specs.Int.Bits.{bit_or};
ghost use Rattle.std.specs.Int.Count.{ones};
ghost use Rattle.lint_reach.specs.Sets.{holds, with_m};
ghost use Rattle.lint_reach.specs.Steps.{leads_m};
ghost use Rattle.lint_reach.specs.Paths.{Full, Closes};
ghost use Rattle.lint_reach.specs.Cycles.{both_m, component_m, starts_m, next_m, components_m, Cycles};

// ---- sets of places below 32

// The set with one place more.
pub fn with(set: u32, i: usize) -> u32
    requires { i < 32 }
    ensures { result ≡ bit_or set (2 ^ i) }
{
    set | (1u32 << i)
}

// The set with one place more, if the test holds.
pub fn with_if(set: u32, i: usize, test: bool) -> u32
    requires { i < 32 }
    ensures { result ≡ with_m set i test }
{
    if test {
        return with(set, i);
    }
    set
}

pub fn has(set: u32, i: usize) -> bool
    requires { i < 32 }
    ensures { result ≡ holds set i }
{
    (set >> i) % 2 == 1
}

// Whether the set has more than 8 places.
pub fn many(set: u32) -> bool
    ensures { result ≡ ltb 8 (ones set) }
{
    8 < u32::count_ones(set)
}

// ---- reach

// Whether a row leads anywhere.
fn leads(row: [bool; 32]) -> bool
    ensures { result ≡ leads_m row 32 }
{
    let mut some = false;
    for j in 0..32 {
        if row[j] {
            some = true;
        }
    }
    some
}

// A cell says yes exactly where there is a way of one or more steps. A place that leads nowhere adds none.
pub fn close(start: [[bool; 32]; 32]) -> [[bool; 32]; 32]
    requires { Full start }
    ensures { Closes start result }
{
    let mut reach = start;
    for k in 0..32 {
        let row = reach[k];
        if leads(row) {
            for i in 0..32 {
                if reach[i][k] {
                    for j in 0..32 {
                        if reach[k][j] {
                            reach[i][j] = true;
                        }
                    }
                }
            }
        }
    }
    reach
}

// ---- components

// The places below n that i reaches and that reach i.
fn component(reach: [[bool; 32]; 32], n: usize, i: usize) -> u32
    requires { (n ≤ 32) × (i < 32) × Full reach }
    ensures { result ≡ component_m reach n i }
{
    let mut set: u32 = 0;
    for j in 0..n {
        set = with_if(set, j, both(reach, i, j));
    }
    set
}

fn both(reach: [[bool; 32]; 32], i: usize, j: usize) -> bool
    requires { (i < 32) × (j < 32) × Full reach }
    ensures { result ≡ both_m reach i j }
{
    if reach[i][j] {
        return reach[j][i];
    }
    false
}

// The components, each as a set of places: the first `count` of `sets`. The places in them: `assigned`.
#[derive(Clone, Copy)]
pub struct Components {
    pub count: usize,
    pub assigned: u32,
    pub sets: [u32; 32],
}

// With the component of i, if i reaches itself and has none yet.
fn with_component(reach: [[bool; 32]; 32], n: usize, i: usize, found: Components) -> Components
    requires { (n ≤ 32) × (i < 32) × (found.count < 32) × Full reach }
    ensures { result ≡ next_m reach n i found }
{
    if starts(reach, found.assigned, i) {
        let set = component(reach, n, i);
        let count = found.count;
        let mut sets = found.sets;
        sets[count] = set;
        return Components {
            count: count + 1,
            assigned: union(found.assigned, set),
            sets,
        };
    }
    found
}

// The components of the places below n that reach themselves, each once.
fn gather(reach: [[bool; 32]; 32], n: usize) -> Components
    requires { (n ≤ 32) × Full reach }
    ensures { (take result.count result.sets ≡ components_m reach n) × (result.count ≤ n) × (length result.sets ≡ 32) }
{
    let mut found = Components {
        count: 0,
        assigned: 0,
        sets: [0u32; 32],
    };
    for i in 0..n {
        found = with_component(reach, n, i, found);
    }
    found
}

// Whether a place reaches itself and has no component yet.
fn starts(reach: [[bool; 32]; 32], assigned: u32, i: usize) -> bool
    requires { (i < 32) × Full reach }
    ensures { result ≡ starts_m reach assigned i }
{
    if has(assigned, i) {
        return false;
    }
    reach[i][i]
}

pub fn union(a: u32, b: u32) -> u32
    ensures { result ≡ bit_or a b }
{
    a | b
}

// The components of the closed square, of a square with n places.
pub fn cycles(start: [[bool; 32]; 32], n: usize) -> Components
    requires { (n ≤ 32) × Full start }
    ensures { Cycles start n result }
{
    let reach = close(start);
    gather(reach, n)
}
