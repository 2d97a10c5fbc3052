// Permissions of a leaf's descriptor x, for each stage.
#![tactic(auto, using(bits::proofs::Tests::choices))]

ghost use Rattle.std.specs.Prelude.{◌≡◌, ◌&&◌, ◌||◌, not};
ghost use Rattle.bits.specs.Bits as Bits;
ghost use Rattle.access.specs.Access.{is_read};
ghost use Rattle.descriptor.specs.Permission as Permissions;

use crate::entry::Inherited;
use access::Access;
use bits::bit;

// AP is bits 7:6. Bit 7 clear: EL1 may write.
fn el1_writes(h: Inherited, x: u64) -> bool
    ensures { result ≡ Permissions.el1_writes h x }
{
    !(bit(x, 7) | h.readonly)
}

// Bit 6 set: EL0 may read.
fn el0_reads(h: Inherited, x: u64) -> bool
    ensures { result ≡ Permissions.el0_reads h x }
{
    bit(x, 6) & !h.el1only
}

fn el0_writes(h: Inherited, x: u64) -> bool
    ensures { result ≡ Permissions.el0_writes h x }
{
    el0_reads(h, x) & el1_writes(h, x)
}

// Bit 54 is UXN. An EL0 fetch asks for no AP bit.
fn el0_fetches(wxn: bool, h: Inherited, x: u64) -> bool
    ensures { result ≡ Permissions.el0_fetches wxn h x }
{
    let writable = wxn & el0_writes(h, x);
    !(bit(x, 54) | h.xn | writable)
}

// Bit 53 is PXN. What EL0 may write EL1 never runs.
fn el1_fetches(wxn: bool, h: Inherited, x: u64) -> bool
    ensures { result ≡ Permissions.el1_fetches wxn h x }
{
    let writable = wxn & el1_writes(h, x);
    let shared = el0_writes(h, x);
    !(bit(x, 53) | h.pxn | writable | shared)
}

// Stage 1 lets the access through, with what its tables impose.
#[tactic(auto, using(bits::proofs::Tests::choices), unfolding(crate::specs::Permission::stage1_permits))]
pub fn stage1_permits(wxn: bool, a: Access, h: Inherited, x: u64) -> bool
    ensures { result ≡ Permissions.stage1_permits wxn a h x }
{
    if a.at_el0() {
        if a.is_read() {
            el0_reads(h, x)
        } else if a.is_write() {
            el0_writes(h, x)
        } else {
            el0_fetches(wxn, h, x)
        }
    } else if a.is_read() {
        true
    } else if a.is_write() {
        el1_writes(h, x)
    } else {
        el1_fetches(wxn, h, x)
    }
}

// A read of stage 1's tables is checked as a read, whatever the access is.
fn as_read(onwalk: bool, a: Access) -> bool
    ensures { result ≡ onwalk || is_read a }
{
    onwalk || a.is_read()
}

// Stage 2 lets the access through: S2AP is bits 7:6, XN is bit 54. A fetch is a read of what XN does not shut.
#[tactic(auto, using(bits::proofs::Tests::choices), unfolding(crate::specs::Permission::stage2_permits))]
pub fn stage2_permits(onwalk: bool, a: Access, x: u64) -> bool
    ensures { result ≡ Permissions.stage2_permits onwalk a x }
{
    if as_read(onwalk, a) {
        bit(x, 6)
    } else if a.is_write() {
        bit(x, 7)
    } else {
        bit(x, 6) & !bit(x, 54)
    }
}
