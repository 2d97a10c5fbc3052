ghost use Rattle.std.specs.Prelude.{◌≡◌};
ghost use Rattle.registers.specs.Tcr as TcrFields;

use bits::bit;

// TCR_EL1: where its fields lie, and the masks of their values.
#[repr(C)]
#[derive(Clone, Copy)]
pub struct Tcr(pub u64);

impl Tcr {
    pub const T0SZ_SHIFT: u64 = 0;

    pub const T0SZ_MASK: u64 = 0x3f;

    pub const EPD0_SHIFT: u64 = 7;

    pub const TG0_SHIFT: u64 = 14;

    pub const TG0_MASK: u64 = 0x3;

    pub const T1SZ_SHIFT: u64 = 16;

    pub const T1SZ_MASK: u64 = 0x3f;

    pub const EPD1_SHIFT: u64 = 23;

    pub const TG1_SHIFT: u64 = 30;

    pub const TG1_MASK: u64 = 0x3;

    pub const IPS_SHIFT: u64 = 32;

    pub const IPS_MASK: u64 = 0x7;

    pub const TBI0_SHIFT: u64 = 37;

    pub const TBI1_SHIFT: u64 = 38;

    pub fn new(word: u64) -> Self
        ensures { result.0 ≡ word }
    {
        Tcr(word)
    }

    pub fn t0sz(self) -> u64
        ensures { result ≡ TcrFields.t0sz self }
    {
        (self.0 >> Self::T0SZ_SHIFT) & Self::T0SZ_MASK
    }

    pub fn epd0(self) -> bool
        ensures { result ≡ TcrFields.epd0 self }
    {
        bit(self.0, Self::EPD0_SHIFT)
    }

    pub fn tg0(self) -> u64
        ensures { result ≡ TcrFields.tg0 self }
    {
        (self.0 >> Self::TG0_SHIFT) & Self::TG0_MASK
    }

    pub fn t1sz(self) -> u64
        ensures { result ≡ TcrFields.t1sz self }
    {
        (self.0 >> Self::T1SZ_SHIFT) & Self::T1SZ_MASK
    }

    pub fn epd1(self) -> bool
        ensures { result ≡ TcrFields.epd1 self }
    {
        bit(self.0, Self::EPD1_SHIFT)
    }

    pub fn tg1(self) -> u64
        ensures { result ≡ TcrFields.tg1 self }
    {
        (self.0 >> Self::TG1_SHIFT) & Self::TG1_MASK
    }

    pub fn ips(self) -> u64
        ensures { result ≡ TcrFields.ips self }
    {
        (self.0 >> Self::IPS_SHIFT) & Self::IPS_MASK
    }

    pub fn tbi0(self) -> bool
        ensures { result ≡ TcrFields.tbi0 self }
    {
        bit(self.0, Self::TBI0_SHIFT)
    }

    pub fn tbi1(self) -> bool
        ensures { result ≡ TcrFields.tbi1 self }
    {
        bit(self.0, Self::TBI1_SHIFT)
    }
}
