// The stages of a walk, as registers give them (01, Walk).
#![tactic(auto)]

ghost use Rattle.std.specs.Prelude.{◌≡◌, ◌+◌, ◌^◌, ◌≤◌, ◌<◌, ◌&&◌, ◌||◌, leb, pos};
ghost use Rattle.std.specs.Int.Signed.{lt_z};
ghost use Rattle.walk.specs.Calls.{Small, Starts};
ghost use Rattle.walk.specs.Prepared.{stage2_of};
ghost use Rattle.stages.specs.Calls.{memory_of};
ghost use Rattle.stages.specs.Prepared.{range_of, stage1_of};
ghost use Rattle.stages.specs.Ready.{Ready};
ghost use Rattle.settings.specs.Settings.{settings};
ghost use Rattle.bits.specs.Bits.{bit};
ghost use Rattle.level.specs.Granule.{stride_of, Granular};
ghost use Rattle.regime.specs.Roots as Roots;
ghost use Rattle.regime.specs.Calls as Calls;

use descriptor::entry::Geometry;
use descriptor::turn;
use level::granule;
use level::granule::Granule;
use registers::{El1, El2};
use stages::both::AttributeControls;
use stages::prepared::{Prepared1, StartedRange};
use stages::range;
use walk::end::Ending;
use walk::prepared::Prepared2;
use walk::start::Start;
use walk::table::Table;

// The root table at a base register, with n levels below it.
fn table_of(geometry: Geometry, n: u64, register: u64) -> Table
    requires { (geometry.inputsize ≤ 64) × (n ≤ 8) × Small (Roots.table_of geometry n register) }
    ensures { result ≡ Roots.table_of geometry n register }
{
    let width = geometry
        .inputsize
        .saturating_sub(geometry.grainsize + geometry.stride * n);
    Table {
        geometry,
        levels: n + 1,
        bits: width,
        base: register & (0x1_0000_0000_0000 - (1 << (3 + width))),
    }
}

// The start at a base register, no bit of which may lie beyond the output size.
fn start_from(geometry: Geometry, n: u64, register: u64) -> Start
    requires { (geometry.inputsize ≤ 64) × (n ≤ 8) × Small (Roots.table_of geometry n register) }
    ensures { Starts result (Roots.root_of geometry n register) }
{
    if register & turn::above(geometry.outputsize) != 0 {
        return Start::nowhere(Ending::AddressSize, 0);
    }
    Start::at(table_of(geometry, n, register))
}

// What registers say of one VA range of stage 1: its granule, size field, EPD and TTBR.
#[derive(Clone, Copy)]
struct Half {
    granule: Granule,
    tnsz: u64,
    epd: bool,
    ttbr: u64,
}

// With stage 1 off each range is left out as if it were disabled: no walk starts there.
#[tactic(auto, using(bits::proofs::Tests::choices))]
fn left_out(on: bool, epd: bool) -> bool
    ensures { result ≡ Calls.left_out on epd }
{
    !on || epd
}

impl Half {
    // What TTBR0 translates.
    fn lower(g: El1, on: bool) -> Self
        ensures { result ≡ Calls.lower_half on g }
    {
        Half {
            granule: granule::by_tg0(g.tcr.tg0()),
            tnsz: g.tcr.t0sz(),
            epd: left_out(on, g.tcr.epd0()),
            ttbr: g.ttbr0,
        }
    }

    // What TTBR1 translates. It reads other fields than the lower half throughout, so the two share no more than `left_out`.
    fn upper(g: El1, on: bool) -> Self
        ensures { result ≡ Calls.upper_half on g }
    {
        Half {
            granule: granule::by_tg1(g.tcr.tg1()),
            tnsz: g.tcr.t1sz(),
            epd: left_out(on, g.tcr.epd1()),
            ttbr: g.ttbr1,
        }
    }

    // What translates an address: bit 55 tells.
    #[tactic(auto, using(bits::proofs::Tests::choices))]
    fn of(g: El1, on: bool, address: u64) -> Self
        ensures { result ≡ Calls.half_of (bit address 55) on g }
    {
        if bits::bit(address, 55) {
            Half::upper(g, on)
        } else {
            Half::lower(g, on)
        }
    }

    // The start of the range, by its output size.
    fn start(self, output: u64) -> Start
        requires { Calls.SoundHalf self }
        ensures { Starts result (Calls.range_by output self).root }
    {
        if self.epd {
            return Start::nowhere(Ending::Translation, 0);
        }
        let n = level::below_start1(self.granule, self.tnsz);
        start_from(
            granule::geometry(self.granule, 64 - self.tnsz, output),
            n,
            self.ttbr,
        )
    }

    // The range for walks.
    fn started(self, output: u64) -> StartedRange
        requires { Calls.SoundHalf self }
        ensures { (range_of result ≡ Calls.range_by output self) × Ready result }
    {
        StartedRange {
            inputsize: 64 - self.tnsz,
            start: self.start(output),
        }
    }
}

// Stage 1's output size.
fn output1(r: El2, g: El1) -> u64
    ensures { result ≡ Calls.output1 r g }
{
    level::output_size(r.pamax, g.tcr.ips())
}

// Stage 1 for walks, by its VA ranges.
fn with_ranges(r: El2, g: El1, lower: StartedRange, upper: StartedRange) -> Prepared1
    requires { (r.pamax < 64) × Ready lower × Ready upper }
    ensures { stage1_of result ≡ Calls.ranged1 (range_of lower) (range_of upper) r g }
{
    let hcr = r.hcr;
    let tcr = g.tcr;
    let sctlr = g.sctlr;
    Prepared1 {
        on: settings::stage1_on(r, g),
        pamax: r.pamax,
        dc: hcr.dc(),
        bounds: range::bounds_of(
            tcr.tbi0(),
            tcr.tbi1(),
            lower.inputsize,
            upper.inputsize,
            r.pamax,
        ),
        lower,
        upper,
        mair: g.mair,
        c: sctlr.c(),
        i: sctlr.i(),
        wxn: sctlr.wxn(),
    }
}

// Stage 1 for walks of any address. With stage 1 off there is no walk.
pub fn prepared1(r: El2, g: El1) -> Prepared1
    requires { settings r g ≡ 0 }
    ensures { stage1_of result ≡ Calls.narrowed1 r g }
{
    let on = settings::stage1_on(r, g);
    let output = output1(r, g);
    let lower = Half::lower(g, on).started(output);
    let upper = Half::upper(g, on).started(output);
    with_ranges(r, g, lower, upper)
}

// The same for one address alone: its VA range stands in the place of both, and the other is not worked out.
pub fn prepared1_at(r: El2, g: El1, address: u64) -> Prepared1
    requires { settings r g ≡ 0 }
    ensures { (stage1_of result ≡ Calls.sided1 (bit address 55) r g) × (address < 2 ^ 64) }
{
    let half = Half::of(g, settings::stage1_on(r, g), address);
    let range = half.started(output1(r, g));
    with_ranges(r, g, range, range)
}

// Stage 2's granule.
fn granule2(r: El2) -> Granule
    ensures { (result ≡ Roots.granule2 r) × Granular result }
{
    granule::by_tg0(r.vtcr.tg0())
}

// The bytes of a table below stage 2's root.
pub fn table_size(r: El2) -> u64
    ensures { (result ≡ Roots.table_size r) × (0 < result) }
{
    let k = granule2(r);
    if settings::stage2_on(r) {
        1 << k.log
    } else {
        4096
    }
}

// Stage 2 starts at no level before its granule's first, there only where PAMax is over a limit, and with 1 to the stride and 4 index bits.
fn startless(k: Granule, start: i64, bits: i64, pamax: u64) -> bool
    requires { Granular k }
    ensures { result ≡ (lt_z start (pos k.first) || (lt_z start (pos (k.first + 1)) && leb pamax k.over) || lt_z bits (pos 1) || lt_z (pos (stride_of k + 4)) bits) }
{
    let first = k.first as i64;
    let second = (k.first + 1) as i64;
    let most = (k.log - 3 + 4) as i64;
    (start < first) | (start < second) & (pamax <= k.over) | (bits < 1) | (most < bits)
}

// Stage 2's output size.
fn output2(r: El2) -> u64
    ensures { result ≡ (Roots.geometry2 r).outputsize }
{
    level::output_size(r.pamax, r.vtcr.ps())
}

// Stage 2's start, by its output size. Without working that out it is small enough that the compiler copies it into each caller, and no
// question copies a start.
fn start_by(r: El2, output: u64) -> Start
    requires { output ≡ (Roots.geometry2 r).outputsize }
    ensures { Starts result (Roots.root2 r) }
{
    let vtcr = r.vtcr;
    let k = granule2(r);
    let start = level::start2(k, vtcr);
    if startless(k, start, level::size_check(k, vtcr), r.pamax) {
        return Start::nowhere(Ending::Translation, 0);
    }
    let n = level::levels_below(start);
    start_from(granule::geometry(k, 64 - vtcr.t0sz(), output), n, r.vttbr)
}

// Stage 2's start.
pub fn start2(r: El2) -> Start
    ensures { Starts result (Roots.root2 r) }
{
    start_by(r, output2(r))
}

// Stage 2's start. Where it is off no walk starts.
#[tactic(auto, using(bits::proofs::Tests::choices), unfolding(bits::specs::Bits::pick, walk::specs::Ends::faulted))]
fn start2_if_on(r: El2) -> Start
    ensures { Starts result (Calls.narrowed2 r).root }
{
    if settings::stage2_on(r) {
        start_by(r, output2(r))
    } else {
        Start::nowhere(Ending::Translation, 0)
    }
}

// Stage 2 for walks. Where it is off there is no IPA.
pub fn prepared2(r: El2) -> Prepared2
    ensures { stage2_of result ≡ Calls.narrowed2 r }
{
    let hcr = r.hcr;
    let vtcr = r.vtcr;
    let inputsize = 64 - vtcr.t0sz();
    Prepared2 {
        on: settings::stage2_on(r),
        inputsize,
        above: turn::above(inputsize),
        start: start2_if_on(r),
        cd: hcr.cd(),
        id: hcr.id(),
        ptw: hcr.ptw(),
    }
}

// What attributes go by.
#[tactic(auto, unfolding(crate::specs::Roots::stage1, crate::specs::Roots::stage2))]
pub fn memory(r: El2, g: El1) -> AttributeControls
    ensures { result ≡ memory_of (Roots.stage1 r g) (Roots.stage2 r) }
{
    let hcr = r.hcr;
    let sctlr = g.sctlr;
    AttributeControls {
        on1: settings::stage1_on(r, g),
        dc: hcr.dc(),
        mair: g.mair,
        c: sctlr.c(),
        i: sctlr.i(),
        on2: settings::stage2_on(r),
        cd: hcr.cd(),
        id: hcr.id(),
    }
}
