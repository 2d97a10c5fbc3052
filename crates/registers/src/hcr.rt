ghost use Rattle.std.specs.Prelude.{◌≡◌};
ghost use Rattle.registers.specs.Hcr as HcrFields;

use bits::bit;

// HCR_EL2: where its flags lie.
#[repr(C)]
#[derive(Clone, Copy)]
pub struct Hcr(pub u64);

impl Hcr {
    pub const VM_SHIFT: u64 = 0;

    pub const PTW_SHIFT: u64 = 2;

    pub const DC_SHIFT: u64 = 12;

    pub const TGE_SHIFT: u64 = 27;

    pub const RW_SHIFT: u64 = 31;

    pub const CD_SHIFT: u64 = 32;

    pub const ID_SHIFT: u64 = 33;

    pub fn new(word: u64) -> Self
        ensures { result.0 ≡ word }
    {
        Hcr(word)
    }

    pub fn vm(self) -> bool
        ensures { result ≡ HcrFields.vm self }
    {
        bit(self.0, Self::VM_SHIFT)
    }

    pub fn ptw(self) -> bool
        ensures { result ≡ HcrFields.ptw self }
    {
        bit(self.0, Self::PTW_SHIFT)
    }

    pub fn dc(self) -> bool
        ensures { result ≡ HcrFields.dc self }
    {
        bit(self.0, Self::DC_SHIFT)
    }

    pub fn tge(self) -> bool
        ensures { result ≡ HcrFields.tge self }
    {
        bit(self.0, Self::TGE_SHIFT)
    }

    pub fn rw(self) -> bool
        ensures { result ≡ HcrFields.rw self }
    {
        bit(self.0, Self::RW_SHIFT)
    }

    pub fn cd(self) -> bool
        ensures { result ≡ HcrFields.cd self }
    {
        bit(self.0, Self::CD_SHIFT)
    }

    pub fn id(self) -> bool
        ensures { result ≡ HcrFields.id self }
    {
        bit(self.0, Self::ID_SHIFT)
    }
}
