// Stage 2: its walk and the checks after it.
ghost use Rattle.std.specs.Prelude.{◌≡◌, true, not, ◌&&◌, ◌||◌, ◌+◌, ◌≤◌, ◌^◌, length};
ghost use Rattle.reads.specs.Program.{done, bind};
ghost use Rattle.reads.specs.Ran.{Ran};
ghost use Rattle.access.specs.Access.{is_fetch};
ghost use Rattle.attributes.specs.Attributes.{class_of, stage2_attributes};
ghost use Rattle.walk.specs.Walk.{walk_from};
ghost use Rattle.walk.specs.Checks.{misaligned, give};
ghost use Rattle.walk.specs.Stage2 as Definitions;
ghost use Rattle.walk.specs.declared.stop.Stage.TheVariants as Stages;
ghost use Rattle.walk.specs.Ends as Ends;
ghost use Rattle.walk.specs.Calls.{Fit, table_of};
ghost use Rattle.walk.specs.Prepared.{stage2_of};

use crate::end;
use crate::end::{End, Ending};
use crate::prepared::Prepared2;
use crate::table::Root;
use access::{Access, SizedAccess};
use attributes::MemoryClass;
use descriptor::turn::Decoder;
use descriptor::{entry, permission};
use reads::Memory;

// What registers say of stage 2, for the definitions.
#[derive(Clone, Copy)]
pub struct Stage2 {
    pub on: bool,
    // In bits.
    pub inputsize: u64,
    pub root: Root,
    // HCR_EL2.CD, ID and PTW
    pub cd: bool,
    pub id: bool,
    pub ptw: bool,
}

// A fetch from Device memory is refused, and on-walk any access to it with PTW set.
fn refused2(ptw: bool, a: Access, onwalk: bool) -> bool
    ensures { result ≡ (is_fetch a || (onwalk && ptw)) }
{
    a.is_fetch() | onwalk & ptw
}

// The checks after the walk, by the leaf's descriptor. Alignment is never tested on-walk.
fn check2(p: Prepared2, a: SizedAccess, onwalk: bool, x: u64) -> Ending
    ensures { result ≡ Ends.verdict (λ d. not onwalk && misaligned a.access d) (λ d. Definitions.denied2 (stage2_of p) a.access onwalk d x) (class_of (stage2_attributes (Definitions.uncached2 (stage2_of p) a.access onwalk) x)) }
{
    let ptw = p.ptw;
    let class = attributes::stage2_class(x);
    match class {
        MemoryClass::Unsettled => Ending::Unsettled,
        MemoryClass::Device => {
            if !onwalk & a.unaligned() {
                Ending::Misaligned
            } else if !permission::stage2_permits(onwalk, a.access, x)
                | refused2(ptw, a.access, onwalk)
            {
                Ending::Permission
            } else {
                Ending::Passed
            }
        }
        MemoryClass::Normal => {
            if permission::stage2_permits(onwalk, a.access, x) {
                Ending::Passed
            } else {
                Ending::Permission
            }
        }
    }
}

// From the root down; each read's address goes into the log from count on. A loop until an entry ends it: a `for` over levels would have
// an end past the last level, which no walk reaches.
fn walk2<M: Memory>(
    memory: &M,
    p: Prepared2,
    a: SizedAccess,
    onwalk: bool,
    ipa: u64,
    log: &mut [u64],
    count: usize,
) -> End
    requires { Fit p.start × (count + p.start.levels ≤ length log.old) }
    ensures { Ran (M.finds memory.now) (bind (walk_from done (Stages.Two ipa onwalk) ipa (Ok (table_of p.start))) (λ l. give (Definitions.check2 (stage2_of p) a.access onwalk ipa l))) log.old count (Ends.ended (Stages.Two ipa onwalk) (stage2_attributes (Definitions.uncached2 (stage2_of p) a.access onwalk)) result) result.count log.new × (result.count ≤ count + p.start.levels) }
{
    let start = p.start;
    let decoder = Decoder {
        geometry: start.geometry,
        masks: start.masks,
    };
    let stride = decoder.geometry.stride;
    let mut left = start.levels - 1;
    let mut shift = start.shift;
    let mut at = start.first_entry(ipa);
    let mut k = count;
    loop {
        match memory.read_logged(at, log, k) {
            None => {
                return End {
                    ending: Ending::Absent,
                    address: at,
                    word: 0,
                    level: 3 - left,
                    count: k,
                };
            }
            Some(x) => {
                k += 1;
                let turn = decoder.turn(left, x);
                if end::leads_down(turn) {
                    left -= 1;
                    shift -= stride;
                    at = decoder.next_entry(x, ipa, shift);
                } else if end::is_leaf(turn) {
                    let address = entry::output_address(x, shift, ipa);
                    return End {
                        ending: check2(p, a, onwalk, x),
                        address,
                        word: x,
                        level: 3 - left,
                        count: k,
                    };
                } else {
                    return end::stopped(end::over(turn), 3 - left, k);
                }
            }
        }
    }
}

// Where stage 2 puts an IPA.
pub fn translate2<M: Memory>(
    memory: &M,
    p: Prepared2,
    a: SizedAccess,
    onwalk: bool,
    ipa: u64,
    log: &mut [u64],
    count: usize,
) -> End
    requires { (count + 4 ≤ length log.old) × (p.on ≡ true) }
    ensures { Ran (M.finds memory.now) (Definitions.translate2 (stage2_of p) a.access onwalk ipa) log.old count (Ends.ended (Stages.Two ipa onwalk) (stage2_attributes (Definitions.uncached2 (stage2_of p) a.access onwalk)) result) result.count log.new × (result.count ≤ count + 4) }
{
    let above = p.above;
    let start = p.start;
    let ending = start.ending;
    if ipa & above != 0 {
        return end::stopped(Ending::Translation, 0, count);
    }
    if end::passed(ending) {
        walk2(memory, p, a, onwalk, ipa, log, count)
    } else {
        end::stopped(ending, start.level, count)
    }
}
