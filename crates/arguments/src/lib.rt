// The arguments of a program: numbers of entries, and the name of a file.
#![tactic(auto)]

ghost use Rattle.std.specs.Prelude.{◌≡◌, ◌≤◌, IfOk};
ghost use Rattle.arguments.specs.Number.{with_digit, number_of};

use std::alloc::Alloc;
use std::env::Env;
use std::fs::{File, Files};
use std::io::Write;
use std::{env, io};

// A number with a digit behind it, or the most if it is more.
fn next(k: usize, digit: u8, most: usize) -> usize
    requires { (k ≤ most) × (most ≤ 1000000) }
    ensures { (result ≡ with_digit most k digit) × (result ≤ most) }
{
    if digit < 48 {
        return k;
    }
    let x = k * 10 + (digit - 48) as usize;
    if most < x {
        return most;
    }
    x
}

// A number in decimal, or the most if it is more.
fn number(t: &[u8], most: usize) -> usize
    requires { most ≤ 1000000 }
    ensures { (result ≡ number_of most t.now) × (result ≤ most) }
{
    let mut k: usize = 0;
    for x in t {
        k = next(k, *x, most);
    }
    k
}

// The longest argument that is read.
const LONGEST: usize = 4096;

// The number that is argument i, or the most if there is none.
pub fn entries<R: Env + Alloc>(rt: &R, i: usize, most: usize) -> io::Result<usize>
    requires { most ≤ 1000000 }
    ensures { IfOk result (λ n. n ≤ most) }
{
    let Some(text) = env::args(rt)?.nth(i) else {
        return Ok(most);
    };
    let t = text.as_bytes();
    if t.is_empty() || LONGEST < t.len() {
        return Ok(most);
    }
    Ok(number(t, most))
}

// The same if there are three arguments or more.
pub fn area_entries<R: Env + Alloc>(rt: &R, i: usize, most: usize) -> io::Result<usize>
    requires { most ≤ 1000000 }
    ensures { IfOk result (λ n. n ≤ most) }
{
    if env::args(rt)?.count() < 4 {
        return Ok(most);
    }
    entries(rt, i, most)
}

// Writes the first bytes to the file that argument i names.
fn save<R: Env + Files + Alloc>(rt: &R, i: usize, bytes: &[u8], count: usize) -> io::Result<()> {
    if bytes.len() < count {
        return Ok(());
    }
    let Some(name) = env::args(rt)?.nth(i) else {
        return Ok(());
    };
    File::create(rt, &name)?.write_all(&bytes[0..count])
}

// Writes the first bytes to the file that the only argument names, or the one behind three numbers.
pub fn save_named<R: Env + Files + Alloc>(rt: &R, bytes: &[u8], count: usize) -> io::Result<()> {
    let given = env::args(rt)?.count();
    if given == 2 {
        return save(rt, 1, bytes, count);
    }
    if given == 5 {
        return save(rt, 4, bytes, count);
    }
    Ok(())
}
