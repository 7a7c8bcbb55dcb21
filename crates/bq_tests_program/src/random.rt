//! Random rows of loads.
ghost use Rattle.std.specs.Prelude.{◌<◌};

use std::alloc::{AllocError, Global};

/// The next of a row of numbers that look random.
fn step(state: u64) -> u64 {
    let a = state ^ (state << 13);
    let b = a ^ (a >> 7);
    b ^ (b << 17)
}

/// A load from the module with this number: of a lower one, but once in a while of any.
fn load_from(state: u64, m: u32, count: u32) -> u32
    requires { 0 < count }
{
    let drawn = (state >> 8) % 65_536;
    let drawn = drawn as u32;
    if m == 0 || state % 97 == 0 {
        drawn % count
    } else {
        drawn % m
    }
}

/// Up to three loads of each of so many modules.
pub fn random_rows(alloc: Global, seed: u64, count: u32) -> Result<Vec<Vec<u32>>, AllocError>
    requires { 0 < count }
{
    let mut state = seed.wrapping_mul(2).wrapping_add(1);
    let mut rows = Vec::new(alloc);
    for m in 0..count {
        let mut row = Vec::new(alloc);
        for _ in 0..state % 4 {
            state = step(state);
            row.push(load_from(state, m, count))?;
        }
        rows.push(row)?;
        state = step(state);
    }
    Ok(rows)
}
