// Registers of the Non-secure EL1&0 regime, and PAMax. They have C's layout: the exported calls take them. Each is a type of its own, so that
// none is taken for another.
#![tactic(auto)]

use hcr::Hcr;
use sctlr::Sctlr;
use tcr::Tcr;
use vtcr::Vtcr;

pub mod hcr;
pub mod sctlr;
pub mod tcr;
pub mod vtcr;

// The guest's registers.
#[repr(C)]
#[derive(Clone, Copy)]
pub struct El1 {
    pub sctlr: Sctlr,
    pub tcr: Tcr,
    pub ttbr0: u64,
    pub ttbr1: u64,
    pub mair: u64,
}

// The hypervisor's registers and the board's PAMax: all that stage 2 and the audit go by.
#[repr(C)]
#[derive(Clone, Copy)]
pub struct El2 {
    pub pamax: u64,
    pub hcr: Hcr,
    pub vtcr: Vtcr,
    pub vttbr: u64,
    pub sctlr: Sctlr,
}
