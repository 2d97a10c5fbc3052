// Entries decoded for a loop over levels, by words that are worked out once.
#![tactic(auto, using(bits::proofs::Tests::choices))]

ghost use Rattle.std.specs.Prelude.{◌≡◌, true, false, ◌+◌, ◌*◌, ◌≤◌, ◌<◌};
ghost use Rattle.bits.specs.Bits as Bits;
ghost use Rattle.descriptor.specs.declared.entry.DescriptorType.TheVariants as DescriptorType;
ghost use Rattle.descriptor.specs.declared.entry.Turn.TheVariants as Ways;
ghost use Rattle.descriptor.specs.Entry as Entries;
ghost use Rattle.descriptor.specs.Turn as Turns;

use crate::entry::{Geometry, Inherited, Masks, Turn};
use bits::bit;

// The mask of bits 47 down to a size: one test with it tells whether an address has a bit there.
pub fn above(size: u64) -> u64
    ensures { result ≡ Turns.above size }
{
    if size <= 48 {
        0x1_0000_0000_0000 - (1 << size)
    } else {
        0
    }
}

// Bit 52, the contiguous bit, where it leaves the largest block unsettled.
fn unsettled(g: Geometry) -> u64
    ensures { result ≡ (Turns.masks_of g).unsettled }
{
    let inputsize = g.inputsize;
    let least = g.contiguous;
    if inputsize < least {
        0x10_0000_0000_0000
    } else {
        0
    }
}

// A page or a block within the output size: bit 10 is its access flag.
fn flagged(x: u64) -> Turn
    ensures { result ≡ Bits.pick (Bits.bit x 10) Ways.Leaf Ways.AccessFlag }
{
    if bit(x, 10) {
        Turn::Leaf
    } else {
        Turn::AccessFlag
    }
}

// A geometry with the words that a walk goes by at each level, worked out of it once.
#[derive(Clone, Copy)]
pub struct Decoder {
    pub geometry: Geometry,
    pub masks: Masks,
    pub ghost small: { (geometry.grainsize ≤ 16) × (geometry.stride ≤ 13) },
    pub ghost made: { masks ≡ Turns.masks_of geometry },
}

impl Decoder {
    pub fn new(geometry: Geometry) -> Self
        requires { (geometry.grainsize ≤ 16) × (geometry.stride ≤ 13) }
        ensures { result.geometry ≡ geometry }
    {
        Decoder {
            geometry,
            masks: Masks {
                above: above(geometry.outputsize),
                unsettled: unsettled(geometry),
                index: (1 << geometry.stride) - 1,
                table: 0x1_0000_0000_0000 - (1 << geometry.grainsize),
            },
        }
    }

    // The entry x leads to an address beyond the output size.
    fn outside(&self, x: u64) -> bool
        ensures { result ≡ Bits.beyond x self.now.geometry.outputsize }
    {
        x & self.masks.above != 0
    }

    // The contiguous bit is set where Arm leaves open what it does.
    fn contiguous(&self, n: u64, x: u64) -> bool
        ensures { result ≡ Entries.contiguous self.now.geometry n x }
    {
        (n == self.geometry.block) & (x & self.masks.unsettled != 0)
    }

    // A page's or a block's entry that is settled.
    fn leaf(&self, n: u64, x: u64) -> Turn
        requires { Entries.contiguous self.now.geometry n x ≡ false }
        ensures { result ≡ Turns.turn_of (Entries.decode_as self.now.geometry n x DescriptorType.Leaf) }
    {
        if self.outside(x) {
            Turn::AddressSize
        } else {
            flagged(x)
        }
    }

    // An entry of type 01: a block, where there may be one.
    fn block(&self, n: u64, x: u64) -> Turn
        requires { (Bits.bit x 0 ≡ true) × (Bits.bit x 1 ≡ false) }
        ensures { result ≡ Turns.turn_of (Entries.decode self.now.geometry n x) }
    {
        if n == 0 || self.geometry.block < n {
            Turn::Translation
        } else if self.contiguous(n, x) {
            Turn::Unsettled
        } else {
            self.leaf(n, x)
        }
    }

    // Where the entry x, with n levels below it, leads. Most entries on a walk are tables', so their tests come first, and a page's
    // address is tested with a table's.
    pub fn turn(&self, n: u64, x: u64) -> Turn
        requires { 1 ≤ self.now.geometry.block }
        ensures { result ≡ Turns.turn_of (Entries.decode self.now.geometry n x) }
    {
        if !bit(x, 0) {
            return Turn::Translation;
        }
        if !bit(x, 1) {
            return self.block(n, x);
        }
        if self.outside(x) {
            return Turn::AddressSize;
        }
        if n != 0 {
            return Turn::Down;
        }
        flagged(x)
    }

    // The address of the entry below: in the table that the entry x leads to, for the input's index at a shift.
    pub fn next_entry(&self, x: u64, input: u64, shift: u64) -> u64
        requires { shift < 64 }
        ensures { result ≡ Bits.upper x self.now.geometry.grainsize + 8 * Bits.field input shift self.now.geometry.stride }
    {
        (x & self.masks.table) + 8 * ((input >> shift) & self.masks.index)
    }
}

// What tables impose, by the words of their entries or-ed.
pub fn imposed(tables: u64) -> Inherited
    ensures { result ≡ Turns.imposed tables }
{
    Inherited {
        readonly: bit(tables, 62),
        el1only: bit(tables, 61),
        xn: bit(tables, 60),
        pxn: bit(tables, 59),
    }
}
