// Stage 1: where an access starts, the checks after its walk, and stage 1 off.
ghost use Rattle.std.specs.Prelude.{◌≡◌, true, not, ◌&&◌, ◌||◌, suc, ◌/◌, ◌%◌, ◌^◌, eqb};
ghost use Rattle.bits.specs.Bits.{pick};
ghost use Rattle.attributes.specs.Attributes.{class_of, stage1_attributes};
ghost use Rattle.descriptor.specs.Permission.{stage1_permits};
ghost use Rattle.descriptor.specs.Turn.{imposed};
ghost use Rattle.walk.specs.Checks.{misaligned};
ghost use Rattle.walk.specs.Ends as Ends;
ghost use Rattle.walk.specs.Calls.{Starts};
ghost use Rattle.stages.specs.Stage1 as Definitions;
ghost use Rattle.stages.specs.Prepared.{stage1_of, Opens};
ghost use Rattle.stages.specs.Calls as Calls;

use crate::prepared::Prepared1;
use crate::range;
use crate::range::Range;
use access::SizedAccess;
use attributes::MemoryClass;
use descriptor::entry::Turn;
use descriptor::{permission, turn};
use walk::end;
use walk::end::Ending;
use walk::start::Start;
use walk::table::Root;

// One VA range of stage 1, for the definitions: its input size in bits, and its root.
#[derive(Clone, Copy)]
pub struct VaRange {
    pub inputsize: u64,
    pub root: Root,
}

// What registers say of stage 1, for the definitions.
#[derive(Clone, Copy)]
pub struct Stage1 {
    pub on: bool,
    pub pamax: u64,
    // HCR_EL2.DC
    pub dc: bool,
    // TCR_EL1.TBI0 and TBI1, for addresses with bit 55 clear and set.
    pub tbi0: bool,
    pub tbi1: bool,
    // What TTBR0 translates, and what TTBR1 does.
    pub lower: VaRange,
    pub upper: VaRange,
    pub mair: u64,
    // SCTLR_EL1.C, I and WXN
    pub c: bool,
    pub i: bool,
    pub wxn: bool,
}

// The start for an address.
fn start_at(p: Prepared1, address: u64) -> Start
    requires { p.on ≡ true }
    ensures { Starts result (Definitions.root1_at (stage1_of p) address) }
{
    let bounds = p.bounds;
    let lower = p.lower;
    let upper = p.upper;
    match range::range_at(bounds, address) {
        Range::Lower => lower.start,
        Range::Upper => upper.start,
        Range::Neither => Start::nowhere(Ending::Translation, 0),
    }
}

// Stage 1 off: the address as it is, if it is one. All but DC and a fetch is Device memory, and a fetch is never unaligned.
fn off(p: Prepared1, a: SizedAccess) -> Ending
    ensures { result ≡ Calls.off_ending (stage1_of p) a.access }
{
    let bounds = p.bounds;
    let dc = p.dc;
    if !range::in_pamax(bounds, a.access.address) {
        return Ending::AddressSize;
    }
    if dc {
        return Ending::Passed;
    }
    if a.unaligned() {
        Ending::Misaligned
    } else {
        Ending::Passed
    }
}

// Where an access begins: at the entry of a walk of stage 1, or, with stage 1 off, at stage 1's output; or at a fault. It is in plain words,
// as an end is (walk's end.rt).
#[derive(Clone, Copy)]
pub struct Opening {
    pub ending: Ending,
    pub level: u64,
    pub walking: bool,
    pub start: Start,
    // Of the entry, or of the output.
    pub ipa: u64,
}

// Inlined, as it is where a memory alone walks: each memory has walks of its own.
#[inline(always)]
pub(crate) fn opening_of(p: Prepared1, a: SizedAccess) -> Opening
    ensures { Opens p a.access result }
{
    let on = p.on;
    let address = a.access.address;
    if on {
        let start = start_at(p, address);
        let ending = start.ending;
        Opening {
            ending,
            level: start.level,
            walking: true,
            start,
            ipa: start.first_entry(address),
        }
    } else {
        Opening {
            ending: off(p, a),
            level: 0,
            walking: false,
            start: Start::nowhere(Ending::Passed, 0),
            ipa: address % 0x1_0000_0000_0000,
        }
    }
}

// The checks after the walk, by the leaf's descriptor and what its tables impose.
fn check1(p: Prepared1, a: SizedAccess, tables: u64, x: u64) -> Ending
    ensures { result ≡ Calls.ending1 (stage1_of p) a.access tables x }
{
    let class = attributes::stage1_class(p.mair, x);
    match class {
        MemoryClass::Unsettled => Ending::Unsettled,
        MemoryClass::Device => {
            if a.unaligned() {
                Ending::Misaligned
            } else if !permission::stage1_permits(p.wxn, a.access, turn::imposed(tables), x)
                | a.access.is_fetch()
            {
                Ending::Permission
            } else {
                Ending::Passed
            }
        }
        MemoryClass::Normal => {
            if permission::stage1_permits(p.wxn, a.access, turn::imposed(tables), x) {
                Ending::Passed
            } else {
                Ending::Permission
            }
        }
    }
}

// What stage 1 makes of an entry that does not lead down.
#[inline(always)]
pub(crate) fn at_entry(p: Prepared1, a: SizedAccess, tables: u64, turn: Turn, x: u64) -> Ending
    ensures { result ≡ pick (Ends.is_leaf turn) (Calls.ending1 (stage1_of p) a.access tables x) (Ends.over turn) }
{
    if end::is_leaf(turn) {
        check1(p, a, tables, x)
    } else {
        end::over(turn)
    }
}
