ghost use Rattle.std.specs.Prelude.{◌≡◌, ◌<◌};
ghost use Rattle.descriptor.specs.Entry as Entries;

use bits::bit;

// The sizes that one stage's walk goes by, in bits: the grain size of the 4KB granule is 12.
#[derive(Clone, Copy)]
pub struct Geometry {
    pub grainsize: u64,
    pub stride: u64,
    pub inputsize: u64,
    pub outputsize: u64,
    // The most levels that may lie below a block.
    pub block: u64,
    // A block with that many levels below it and its contiguous bit set is unsettled where the input size is under this.
    pub contiguous: u64,
}

// The type of a descriptor: invalid, of a table, or of a page or a block.
#[derive(Clone, Copy, PartialEq, Eq)]
pub enum DescriptorType {
    Invalid,
    Table,
    Leaf,
}

#[derive(Clone, Copy, PartialEq, Eq)]
pub enum FaultKind {
    Translation,
    AddressSize,
    AccessFlag,
    Permission,
}

// What a walk does at an entry: goes on to a table, ends, faults, or cannot tell.
#[derive(Clone, Copy)]
pub enum Entry {
    Next(u64),
    Final,
    Fault(FaultKind),
    Unsettled,
}

// Words that a walk goes by at each level, worked out of a geometry once.
#[derive(Clone, Copy)]
pub struct Masks {
    // Of the bits of an address beyond the output size.
    pub above: u64,
    // Of the contiguous bit, where a block with the most levels below it and that bit set is unsettled; 0 where it is not.
    pub unsettled: u64,
    // Of an index into a table.
    pub index: u64,
    // Of a table's address.
    pub table: u64,
}

// Where a walk goes from an entry: down to a table, to its end at a leaf, or to a fault; without contents, so that nothing is built on
// the way.
#[derive(Clone, Copy, PartialEq, Eq)]
pub enum Turn {
    Down,
    Leaf,
    Translation,
    AddressSize,
    AccessFlag,
    Permission,
    Unsettled,
}

// What the tables on the way to an entry of stage 1 impose.
#[derive(Clone, Copy)]
pub struct Inherited {
    pub readonly: bool,
    pub el1only: bool,
    pub xn: bool,
    pub pxn: bool,
}

// The type of the descriptor x, by its bits 1:0 and the number n of levels below it.
#[tactic(auto, using(bits::proofs::Tests::choices), unfolding(crate::specs::Entry::descriptor_type))]
pub fn descriptor_type(g: Geometry, n: u64, x: u64) -> DescriptorType
    ensures { result ≡ Entries.descriptor_type g n x }
{
    match (bit(x, 0), bit(x, 1)) {
        (true, true) if n == 0 => DescriptorType::Leaf,
        (true, true) => DescriptorType::Table,
        (true, false) if n != 0 && n <= g.block => DescriptorType::Leaf,
        _ => DescriptorType::Invalid,
    }
}

// Where a leaf puts an input, t being its shift: the leaf's bits 47 down to t, then the input's below t. Both by masks, which are ready
// before the leaf is: shifts of the leaf itself would stand between it and the next descriptor.
pub fn output_address(x: u64, t: u64, input: u64) -> u64
    requires { t < 48 }
    ensures { result ≡ Entries.output_address x t input }
{
    (x & (0x1_0000_0000_0000 - (1 << t))) + (input & ((1 << t) - 1))
}
