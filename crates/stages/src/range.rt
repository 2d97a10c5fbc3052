// Stage 1's VA range of an address, by bit 55 and one comparison; and with stage 1 off whether it is an address at all.
ghost use Rattle.std.specs.Prelude.{◌≡◌, Bool, ℕ, suc, ◌/◌, ◌%◌, ◌^◌, eqb};
ghost use Rattle.bits.specs.Bits.{pick, bit};
ghost use Rattle.stages.specs.Ranges as Ranges;

// Which VA range an address lies in.
#[derive(Clone, Copy)]
pub enum Range {
    Lower,
    Upper,
    Neither,
}

// What tells an address's range.
#[derive(Clone, Copy)]
pub struct Bounds {
    // TCR_EL1.TBI0 and TBI1, for addresses with bit 55 clear and set. The definitions go by these, the code by the masks.
    pub tbi0: bool,
    pub tbi1: bool,
    // The address bits that count, for addresses with bit 55 clear and set: 56 with TBI, else all.
    pub counts0: u64,
    pub counts1: u64,
    // 2 to the lower range's input size.
    pub within: u64,
    // The first address of the upper range, as far as bits count.
    pub floor: u64,
    // 2 to PAMax, which counts with stage 1 off.
    pub ceiling: u64,
}

// The bits of an address that count.
fn counted(counts: u64, a: u64) -> u64
    ensures { (tbi : Bool) → counts ≡ Ranges.ones tbi → result ≡ Ranges.counted tbi a }
{
    a & counts
}

// An address of ones, as far as its bits count.
fn ones(tbi: bool) -> u64
    ensures { result ≡ Ranges.ones tbi }
{
    if tbi {
        0xff_ffff_ffff_ffff
    } else {
        0xffff_ffff_ffff_ffff
    }
}

// 2 to an input size, as a word: what the addresses of a lower range lie below.
fn within(inputsize: u64) -> u64
    ensures { result ≡ Ranges.within inputsize }
{
    if inputsize < 64 {
        1 << inputsize
    } else {
        0xffff_ffff_ffff_ffff
    }
}

// The first address of an upper range.
fn floor(tbi: bool, inputsize: u64) -> u64
    ensures { result ≡ Ranges.floor tbi inputsize }
{
    if inputsize < 64 {
        ones(tbi) >> inputsize << inputsize
    } else {
        0
    }
}

// What tells the range of any address, once for all of them.
pub fn bounds_of(tbi0: bool, tbi1: bool, lower: u64, upper: u64, pamax: u64) -> Bounds
    ensures { result ≡ Ranges.bounds tbi0 tbi1 lower upper pamax }
{
    Bounds {
        tbi0,
        tbi1,
        counts0: ones(tbi0),
        counts1: ones(tbi1),
        within: within(lower),
        floor: floor(tbi1, upper),
        ceiling: within(pamax),
    }
}

// The range of an address.
pub(crate) fn range_at(b: Bounds, address: u64) -> Range
    requires { Ranges.Counting b }
    ensures { result ≡ Ranges.range_at b address }
{
    if bits::bit(address, 55) {
        if counted(b.counts1, address) < b.floor {
            Range::Neither
        } else {
            Range::Upper
        }
    } else {
        if b.within <= counted(b.counts0, address) {
            Range::Neither
        } else {
            Range::Lower
        }
    }
}

// With stage 1 off: the bits of an address that count lie below PAMax.
pub(crate) fn in_pamax(b: Bounds, address: u64) -> bool
    requires { Ranges.Counting b }
    ensures { (n : ℕ) → b.ceiling ≡ 2 ^ n → result ≡ eqb (address % 2 ^ suc (pick {A = ℕ} (pick (bit address 55) b.tbi1 b.tbi0) 55 63) / 2 ^ n) 0 }
{
    if bits::bit(address, 55) {
        !(b.ceiling <= counted(b.counts1, address))
    } else {
        !(b.ceiling <= counted(b.counts0, address))
    }
}
