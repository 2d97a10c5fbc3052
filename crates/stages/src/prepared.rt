// Stage 1 in the words that its walks go by, worked out once for all addresses.
ghost use Rattle.std.specs.Prelude.{◌≡◌, true, ◌<◌};
ghost use Rattle.stages.specs.Ranges as Ranges;
ghost use Rattle.stages.specs.Ready.{Ready, ready_prop};

use crate::range::Bounds;
use walk::start::Start;

// One VA range: its input size in bits, and where its walks start.
#[derive(Clone, Copy)]
pub struct StartedRange {
    pub inputsize: u64,
    pub start: Start,
}

#[derive(Clone, Copy)]
pub struct Prepared1 {
    pub on: bool,
    pub pamax: u64,
    // HCR_EL2.DC
    pub dc: bool,
    pub bounds: Bounds,
    // What TTBR0 translates, and what TTBR1 does.
    pub lower: StartedRange,
    pub upper: StartedRange,
    pub mair: u64,
    // SCTLR_EL1.C, I and WXN
    pub c: bool,
    pub i: bool,
    pub wxn: bool,
    ghost bounded: { bounds ≡ Ranges.bounds bounds.tbi0 bounds.tbi1 lower.inputsize upper.inputsize pamax },
    ghost few: { pamax < 64 },
    ghost started: { on ≡ true → Ready lower × Ready upper } by { ready_prop on lower upper },
}
