// The undeclared names in the cone: those that one of its automations reads, as places among the texts, ascending.
#![tactic(auto)]

ghost use Rattle.std.specs.Prelude.{◌≡◌, ◌<◌, ◌+◌};
ghost use Rattle.cone_names.specs.Undeclared.{read_m, wanted_m, with_m, name_m, names_m};

use lint_undeclared::Undeclared;

// Whether the j-th of the names is the one at a place, and its reader is among the automations.
fn read_by(u: Undeclared, automations: u32, place: u32, j: usize) -> bool
    requires { j < 64 }
    ensures { result ≡ read_m u automations place j }
{
    if u.names[j] != place {
        return false;
    }
    let i = u.readers[j] as usize;
    if 32 <= i {
        return false;
    }
    lint_reach::has(automations, i)
}

// Whether one of the automations reads the name at a place.
fn wanted(u: Undeclared, automations: u32, place: u32) -> bool
    ensures { result ≡ wanted_m u automations place }
{
    let count = u.count;
    for j in 0..64 {
        if count <= j {
            return false;
        }
        if read_by(u, automations, place, j) {
            return true;
        }
    }
    false
}

// The first `count` of `list`, as places; then zeros.
#[derive(Clone, Copy)]
pub struct ConeNames {
    pub count: usize,
    pub list: [u32; 64],
}

fn with_name(n: ConeNames, place: u32) -> ConeNames
    ensures { result ≡ with_m n place }
{
    let count = n.count;
    if count < 64 {
        let mut list = n.list;
        list[count] = place;
        return ConeNames {
            count: count + 1,
            list,
        };
    }
    n
}

// With the name at a place, if one of the automations reads it.
fn with_wanted(u: Undeclared, automations: u32, place: u32, n: ConeNames) -> ConeNames
    ensures { result ≡ name_m u automations place n }
{
    if wanted(u, automations, place) {
        return with_name(n, place);
    }
    n
}

// All of them, of so many texts.
pub fn names_in(u: Undeclared, automations: u32, texts: u32) -> ConeNames
    ensures { result ≡ names_m u automations texts }
{
    let mut n = ConeNames {
        count: 0,
        list: [0u32; 64],
    };
    for place in 0..texts {
        n = with_wanted(u, automations, place, n);
    }
    n
}
