// Tables: where a walk starts, and the leaf where it ends.
use descriptor::entry::{FaultKind, Geometry, Inherited};

// The first table of a walk: how many levels there are, itself included, and its 2 to the bits entries at base.
#[derive(Clone, Copy)]
pub struct Table {
    pub geometry: Geometry,
    pub levels: u64,
    pub bits: u64,
    pub base: u64,
}

// The fault that every walk from a root meets before it reads.
#[derive(Clone, Copy)]
pub struct RootFault {
    pub kind: FaultKind,
    pub level: u64,
}

// Where a walk starts, if it does. Code has it in words, as a Start.
pub type Root = Result<Table, RootFault>;

// Where a walk ends: its descriptor, which leaves the input's lowest shift bits as they are.
#[derive(Clone, Copy)]
pub struct Leaf {
    pub word: u64,
    pub shift: u64,
    pub level: u64,
    pub inherited: Inherited,
}
