ghost use Rattle.std.specs.Prelude.{◌≡◌};
ghost use Rattle.registers.specs.Sctlr as SctlrFields;

use bits::bit;

// SCTLR_EL1 and SCTLR_EL2: where their flags lie.
#[repr(C)]
#[derive(Clone, Copy)]
pub struct Sctlr(pub u64);

impl Sctlr {
    pub const M_SHIFT: u64 = 0;

    pub const C_SHIFT: u64 = 2;

    pub const I_SHIFT: u64 = 12;

    pub const WXN_SHIFT: u64 = 19;

    pub const EE_SHIFT: u64 = 25;

    pub fn new(word: u64) -> Self
        ensures { result.0 ≡ word }
    {
        Sctlr(word)
    }

    pub fn m(self) -> bool
        ensures { result ≡ SctlrFields.m self }
    {
        bit(self.0, Self::M_SHIFT)
    }

    pub fn c(self) -> bool
        ensures { result ≡ SctlrFields.c self }
    {
        bit(self.0, Self::C_SHIFT)
    }

    pub fn i(self) -> bool
        ensures { result ≡ SctlrFields.i self }
    {
        bit(self.0, Self::I_SHIFT)
    }

    pub fn wxn(self) -> bool
        ensures { result ≡ SctlrFields.wxn self }
    {
        bit(self.0, Self::WXN_SHIFT)
    }

    pub fn ee(self) -> bool
        ensures { result ≡ SctlrFields.ee self }
    {
        bit(self.0, Self::EE_SHIFT)
    }
}
