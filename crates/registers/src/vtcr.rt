ghost use Rattle.std.specs.Prelude.{◌≡◌};
ghost use Rattle.registers.specs.Vtcr as VtcrFields;

// VTCR_EL2: where its fields lie, and the masks of their values.
#[repr(C)]
#[derive(Clone, Copy)]
pub struct Vtcr(pub u64);

impl Vtcr {
    pub const T0SZ_SHIFT: u64 = 0;

    pub const T0SZ_MASK: u64 = 0x3f;

    pub const SL0_SHIFT: u64 = 6;

    pub const SL0_MASK: u64 = 0x3;

    pub const TG0_SHIFT: u64 = 14;

    pub const TG0_MASK: u64 = 0x3;

    pub const PS_SHIFT: u64 = 16;

    pub const PS_MASK: u64 = 0x7;

    pub fn new(word: u64) -> Self
        ensures { result.0 ≡ word }
    {
        Vtcr(word)
    }

    pub fn t0sz(self) -> u64
        ensures { result ≡ VtcrFields.t0sz self }
    {
        (self.0 >> Self::T0SZ_SHIFT) & Self::T0SZ_MASK
    }

    pub fn sl0(self) -> u64
        ensures { result ≡ VtcrFields.sl0 self }
    {
        (self.0 >> Self::SL0_SHIFT) & Self::SL0_MASK
    }

    pub fn tg0(self) -> u64
        ensures { result ≡ VtcrFields.tg0 self }
    {
        (self.0 >> Self::TG0_SHIFT) & Self::TG0_MASK
    }

    pub fn ps(self) -> u64
        ensures { result ≡ VtcrFields.ps self }
    {
        (self.0 >> Self::PS_SHIFT) & Self::PS_MASK
    }
}
