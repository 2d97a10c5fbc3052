// Why an access ends without a translated address.
ghost use Rattle.std.specs.Prelude.{◌≡◌};
ghost use Rattle.walk.specs.Walk as Walks;

use descriptor::entry::FaultKind;

// The stage of an answer. Stage 2 translates an IPA; on a walk, that of a stage 1 descriptor.
#[derive(Clone, Copy)]
pub enum Stage {
    One,
    Two { ipa: u64, onwalk: bool },
}

#[derive(Clone, Copy)]
pub struct Fault {
    pub kind: FaultKind,
    pub stage: Stage,
    pub level: u64,
}

// A descriptor that is not in the capture.
#[derive(Clone, Copy)]
pub struct Missing {
    pub address: u64,
    pub stage: Stage,
    pub level: u64,
}

// A descriptor whose meaning Arm leaves open.
#[derive(Clone, Copy)]
pub struct Open {
    pub stage: Stage,
    pub level: u64,
}

#[derive(Clone, Copy)]
pub enum Stop {
    Fault(Fault),
    Misaligned(Stage),
    Absent(Missing),
    Unsettled(Open),
}

// The one place where a fault is made.
pub fn fault_at(kind: FaultKind, stage: Stage, level: u64) -> Stop
    ensures { result ≡ Walks.fault kind stage level }
{
    Stop::Fault(Fault { kind, stage, level })
}
