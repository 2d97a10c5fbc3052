// Sizes and start levels (01, Walk). A start level is signed: registers can ask for one below level 0.
#![tactic(auto)]

ghost use Rattle.std.specs.Prelude.{◌≡◌, ℕ, ◌+◌, ◌-◌, ◌*◌, ◌%◌, ◌≤◌};
ghost use Rattle.registers.specs.Vtcr as VtcrFields;
ghost use Rattle.level.specs.Granule.{Granular, stride_of, geometry_of};
ghost use Rattle.level.specs.Level as Level;

use crate::granule::Granule;
use registers::vtcr::Vtcr;

pub mod granule;

// What IPS or PS says of the output size. 6 and 7 are no codes.
#[tactic(auto, using(bits::proofs::Tests::choices), unfolding(crate::specs::Level::coded_size))]
fn coded_size(code: u64) -> u64
    ensures { result ≡ Level.coded_size code }
{
    match code {
        0 => 32,
        1 => 36,
        2 => 40,
        3 => 42,
        4 => 44,
        _ => 48,
    }
}

// The output size: the smaller of PAMax and what IPS or PS says.
#[tactic(auto, using(bits::proofs::Tests::choices), unfolding(crate::specs::Level::output_size))]
pub fn output_size(pamax: u64, code: u64) -> u64
    ensures { result ≡ Level.output_size pamax code }
{
    pamax.min(coded_size(code))
}

// Stage 2's start level: -1 for an SL0 of 3 and 4KB.
pub fn start2(k: Granule, vtcr: Vtcr) -> i64
    requires { Granular k }
    ensures { result ≡ Level.start2 k (VtcrFields.sl0 vtcr) }
{
    (2 + k.first) as i64 - vtcr.sl0() as i64
}

// The levels below stage 1's start level, by a size field of six bits: one fewer than the strides that the input bits above the granule
// take, rounded up. Four strides are enough for an accepted size, and comparing costs less than dividing. No output size counts.
pub fn below_start1(k: Granule, tnsz: u64) -> u64
    requires { Granular k × (64 - tnsz % 64 ≤ k.log + 4 * stride_of k) }
    ensures { ((output : ℕ) → result ≡ Level.levels_below (Level.start1 (geometry_of k (Level.input_size (tnsz % 64)) output))) × (result ≤ 3) }
{
    let size = 64 - tnsz % 64;
    let stride = k.log - 3;
    if size <= k.log + stride {
        0
    } else if size <= k.log + 2 * stride {
        1
    } else if size <= k.log + 3 * stride {
        2
    } else {
        3
    }
}

// The bits of stage 2's root index, below 1 where the start level is too high for the size. No output size counts.
pub fn size_check(k: Granule, vtcr: Vtcr) -> i64
    requires { Granular k }
    ensures { (output : ℕ) → result ≡ Level.size_check (geometry_of k (Level.input_size (VtcrFields.t0sz vtcr)) output) (Level.start2 k (VtcrFields.sl0 vtcr)) }
{
    let size = (64 - vtcr.t0sz()) as i64;
    let stride = (k.log - 3) as i64;
    size - ((3 - start2(k, vtcr)) * stride + k.log as i64)
}

// 3 less a level, and 0 past level 3.
pub fn levels_below(start: i64) -> u64
    ensures { result ≡ Level.levels_below start }
{
    if start < 0 {
        4 + (-1 - start) as u64
    } else {
        3_u64.saturating_sub(start as u64)
    }
}
