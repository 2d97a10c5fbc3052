// Granules: the sizes of tables, by their codes in TCR_EL1 and VTCR_EL2.
ghost use Rattle.std.specs.Prelude.{◌≡◌};
ghost use Rattle.level.specs.Granule as Granules;

use descriptor::entry::Geometry;

// What differs from granule to granule. All else follows from the log of its size. `Granular` stays a `requires`: the definitions build
// granules as well, and as an invariant each of those would have to carry its proof.
#[derive(Clone, Copy)]
pub struct Granule {
    pub log: u64,
    // The first level that stage 2 may start at, and what PAMax must be over there. The largest block is at the level after it.
    pub first: u64,
    pub over: u64,
    // With an input size under this Arm leaves open what the contiguous bit of the largest block does.
    pub contiguous: u64,
}

const FOUR_K: Granule = Granule {
    log: 12,
    first: 0,
    over: 42,
    contiguous: 34,
};

const SIXTEEN_K: Granule = Granule {
    log: 14,
    first: 1,
    over: 40,
    contiguous: 30,
};

const SIXTY_FOUR_K: Granule = Granule {
    log: 16,
    first: 1,
    over: 42,
    contiguous: 34,
};

// What a code of TG0 says; settings refuse 3, which is reserved.
#[tactic(auto, using(bits::proofs::Tests::choices), unfolding(crate::specs::Granule::tg0_granule))]
pub fn by_tg0(code: u64) -> Granule
    ensures { result ≡ Granules.tg0_granule code }
{
    match code {
        1 => SIXTY_FOUR_K,
        2 => SIXTEEN_K,
        _ => FOUR_K,
    }
}

// What a code of TG1 says; settings refuse 0, which is reserved. TG0 and TG1 number the granules differently, so each has its own match.
#[tactic(auto, using(bits::proofs::Tests::choices), unfolding(crate::specs::Granule::tg1_granule))]
pub fn by_tg1(code: u64) -> Granule
    ensures { result ≡ Granules.tg1_granule code }
{
    match code {
        1 => SIXTEEN_K,
        3 => SIXTY_FOUR_K,
        _ => FOUR_K,
    }
}

// The sizes that a walk goes by.
pub fn geometry(k: Granule, inputsize: u64, outputsize: u64) -> Geometry
    ensures { result ≡ Granules.geometry_of k inputsize outputsize }
{
    Geometry {
        grainsize: k.log,
        stride: k.log.saturating_sub(3),
        inputsize,
        outputsize,
        block: 2_u64.saturating_sub(k.first),
        contiguous: k.contiguous,
    }
}
