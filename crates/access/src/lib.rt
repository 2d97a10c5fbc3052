// Accesses by a guest, and which numbers a question may hold.
#![tactic(auto)]

ghost use Rattle.std.specs.Prelude.{◌≡◌, true, cond, ◌-◌};
ghost use Rattle.access.specs.Access as Accesses;

// One access by a guest. The numbers are the caller's: kind 0 reads, 1 writes, 2 fetches; el is 0 or 1; size is in bytes.
// It has C's layout: the exported calls take it.
#[repr(C)]
#[derive(Clone, Copy)]
pub struct Access {
    pub address: u64,
    pub kind: u64,
    pub el: u64,
    pub size: u64,
}

impl Access {
    pub fn is_read(self) -> bool
        ensures { result ≡ Accesses.is_read self }
    {
        self.kind == 0
    }

    pub fn is_write(self) -> bool
        ensures { result ≡ Accesses.is_write self }
    {
        self.kind == 1
    }

    pub fn is_fetch(self) -> bool
        ensures { result ≡ Accesses.is_fetch self }
    {
        self.kind == 2
    }

    pub fn at_el0(self) -> bool
        ensures { result ≡ Accesses.at_el0 self }
    {
        self.el == 0
    }
}

fn listed_size(size: u64) -> bool
    ensures { result ≡ Accesses.listed_size size }
{
    matches!(size, 1 | 2 | 4 | 8 | 16)
}

// The numbers of a question are of those that it may hold.
pub fn listed(kind: u64, el: u64, size: u64) -> bool
    ensures { result ≡ Accesses.listed kind el size }
{
    kind <= 2 && el <= 1 && listed_size(size)
}

// An access of a listed size: a power of 2.
#[derive(Clone, Copy)]
pub struct SizedAccess {
    pub access: Access,
    ghost sized: { Accesses.listed_size access.size ≡ true },
}

impl SizedAccess {
    // The bits that the address of a data access must not have. A fetch may have any. One mask for all addresses of a batch, in the place of
    // a division for each.
    fn low_bits(self) -> u64
        ensures { result ≡ cond (Accesses.is_fetch self.access) 0 (self.access.size - 1) }
    {
        if self.access.is_fetch() {
            0
        } else {
            self.access.size - 1
        }
    }

    // A data access that is not a multiple of its size.
    pub fn unaligned(self) -> bool
        ensures { result ≡ Accesses.unaligned self.access }
    {
        self.access.address & self.low_bits() != 0
    }
}
