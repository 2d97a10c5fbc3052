// Roots in the words that a walk goes by, worked out once for all addresses.
ghost use Rattle.std.specs.Prelude.{◌≡◌, ◌+◌, ◌*◌, ◌≤◌, ◌<◌, ◌^◌, Ok};
ghost use Rattle.bits.specs.Bits.{field};
ghost use Rattle.walk.specs.Calls.{Small, Within, Starts, table_of};

use crate::end::Ending;
use crate::table::Table;
use descriptor::entry::{Geometry, Masks};
use descriptor::turn::Decoder;

#[derive(Clone, Copy)]
pub struct Start {
    // Passed, or the fault that every walk from here meets, at a level: plain words, as an end is (end.rt).
    pub ending: Ending,
    pub level: u64,
    // The first table: its sizes and the masks of those, how many levels there are, itself included, and its 2 to the bits entries at base.
    // Of a start that meets a fault sizes and masks may be any: they are a `Decoder` only where a walk goes on.
    pub geometry: Geometry,
    pub masks: Masks,
    pub levels: u64,
    pub bits: u64,
    pub base: u64,
    // The lowest input bit of its index.
    pub shift: u64,
}

impl Start {
    // A start whose every walk meets a fault. Nothing goes by its sizes.
    pub fn nowhere(ending: Ending, level: u64) -> Self
        ensures { (result.ending ≡ ending) × (result.level ≡ level) × Within result }
    {
        let none = Geometry {
            grainsize: 0,
            stride: 0,
            inputsize: 0,
            outputsize: 0,
            block: 0,
            contiguous: 0,
        };
        Start {
            ending,
            level,
            geometry: none,
            masks: Masks {
                above: 0,
                unsettled: 0,
                index: 0,
                table: 0,
            },
            levels: 1,
            bits: 0,
            base: 0,
            shift: 0,
        }
    }

    pub fn at(table: Table) -> Self
        requires { Small table }
        ensures { Starts result (Ok table) }
    {
        let geometry = table.geometry;
        let decoder = Decoder::new(geometry);
        Start {
            ending: Ending::Passed,
            level: 0,
            geometry,
            masks: decoder.masks,
            levels: table.levels,
            bits: table.bits,
            base: table.base,
            shift: geometry.grainsize + geometry.stride * (table.levels - 1),
        }
    }

    pub fn table(self) -> Table
        ensures { result ≡ table_of self }
    {
        Table {
            geometry: self.geometry,
            levels: self.levels,
            bits: self.bits,
            base: self.base,
        }
    }

    // Where the root's entry for an input lies.
    pub fn first_entry(self, input: u64) -> u64
        requires { (self.shift < 64) × (self.bits ≤ 17) × (self.base < 2 ^ 48) }
        ensures { result ≡ self.base + 8 * field input self.shift self.bits }
    {
        self.base + 8 * ((input >> self.shift) % (1 << self.bits))
    }
}
