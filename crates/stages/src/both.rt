// The access: stage 1 with each of its descriptors placed by stage 2, and stage 2 of its output.
ghost use Rattle.std.specs.Prelude.{◌≡◌, true, false, ◌+◌, ◌≤◌, ◌^◌, length};
ghost use Rattle.bits.specs.Bits.{pick};
ghost use Rattle.reads.specs.Ran.{Ran};
ghost use Rattle.walk.specs.Prepared.{stage2_of};
ghost use Rattle.walk.specs.Ends as Ends;
ghost use Rattle.stages.specs.declared.both.By.TheVariants as Bys;
ghost use Rattle.walk.specs.Stage2 as Seconds;
ghost use Rattle.stages.specs.Stage1 as Definitions;
ghost use Rattle.stages.specs.Stages as Stages;
ghost use Rattle.stages.specs.Prepared.{stage1_of, Opens};
ghost use Rattle.stages.specs.Calls as Calls;

use crate::prepared::Prepared1;
use crate::stage1;
use crate::stage1::Opening;
use access::{Access, SizedAccess};
use attributes::Attributes;
use descriptor::entry;
use descriptor::entry::FaultKind;
use descriptor::turn::Decoder;
use reads::Memory;
use walk::end::{End, Ending};
use walk::prepared::Prepared2;
use walk::stop::{Missing, Open, Stage, Stop};
use walk::{end, stage2, stop};

// A translated access. A stage that is off has level 0.
#[derive(Clone, Copy)]
pub struct Translation {
    pub address: u64,
    pub attributes: Attributes,
    pub level1: u64,
    pub level2: u64,
}

// Whose end it is: stage 1's, stage 2's of a stage 1 descriptor, or stage 2's of stage 1's output.
#[derive(Clone, Copy)]
pub enum By {
    First,
    OnWalk,
    Second,
}

// How an access ends, in plain words.
#[derive(Clone, Copy)]
pub struct Arrival {
    pub by: By,
    pub end: End,
    // What stage 2 was asked for.
    pub ipa: u64,
    // Stage 1's leaf: the levels below it, which the walk counts by, and its descriptor.
    pub left1: u64,
    pub word1: u64,
}

fn by_stage2(onwalk: bool) -> By
    ensures { result ≡ pick onwalk Bys.OnWalk Bys.Second }
{
    if onwalk { By::OnWalk } else { By::Second }
}

// An end at stage 1.
fn first(end: End) -> Arrival
    ensures { result ≡ Calls.at_first end }
{
    Arrival {
        by: By::First,
        end,
        ipa: 0,
        left1: 0,
        word1: 0,
    }
}

// What stage 2 makes of an IPA: of a stage 1 descriptor's address, on a walk, and of stage 1's output. Where it is off the IPA is the address.
fn second<M: Memory>(
    memory: &M,
    q: Prepared2,
    a: SizedAccess,
    walking: bool,
    ipa: u64,
    log: &mut [u64],
    count: usize,
) -> End
    requires { (count + 4 ≤ length log.old) }
    ensures { Calls.Seconded (M.finds memory.now) (stage2_of q) a.access walking ipa log.old count result log.new × (result.count ≤ count + 4) }
{
    let on = q.on;
    if on {
        stage2::translate2(memory, q, a, walking, ipa, log, count)
    } else {
        End {
            ending: Ending::Passed,
            address: ipa,
            word: 0,
            level: 0,
            count,
        }
    }
}

// From where it begins. Each turn takes one address through stage 2: that of a stage 1 descriptor, and at last that of stage 1's output. A
// loop until one ends it: a `for` over levels would have an end past the last level, which no walk reaches.
fn walk1<M: Memory>(
    memory: &M,
    p: Prepared1,
    q: Prepared2,
    a: SizedAccess,
    o: Opening,
    log: &mut [u64],
) -> Arrival
    requires { (24 ≤ length log.old) × Opens p a.access o × (Ends.passed o.ending ≡ true) }
    ensures { Ran (M.finds memory.now) (Stages.access (stage1_of p) (stage2_of q) a.access) log.old 0 (Calls.arrived (stage1_of p) (stage2_of q) a.access result) result.end.count log.new × (result.end.count ≤ 24) }
{
    let input = a.access.address;
    let start = o.start;
    let stride = start.geometry.stride;
    let mut walking = o.walking;
    let mut left = start.levels - 1;
    let mut shift = start.shift;
    let mut ipa = o.ipa;
    let mut tables = 0;
    let mut word1 = 0;
    let mut k = 0;
    loop {
        let r = second(memory, q, a, walking, ipa, log, k);
        let ending = r.ending;
        if !walking | !end::passed(ending) {
            return Arrival {
                by: by_stage2(walking),
                end: r,
                ipa,
                left1: left,
                word1,
            };
        }
        let at = r.address;
        k = r.count;
        match memory.read_logged(at, log, k) {
            None => {
                return first(End {
                    ending: Ending::Absent,
                    address: at,
                    word: 0,
                    level: 3 - left,
                    count: k,
                });
            }
            Some(x) => {
                k += 1;
                let decoder = Decoder {
                    geometry: start.geometry,
                    masks: start.masks,
                };
                let turn = decoder.turn(left, x);
                if end::leads_down(turn) {
                    left -= 1;
                    shift -= stride;
                    tables = tables | x;
                    ipa = decoder.next_entry(x, input, shift);
                } else {
                    let ended = stage1::at_entry(p, a, tables, turn, x);
                    if !end::passed(ended) {
                        return first(end::stopped(ended, 3 - left, k));
                    }
                    walking = false;
                    ipa = entry::output_address(x, shift, input);
                    word1 = x;
                }
            }
        }
    }
}

// An access, from prepared stages.
pub fn access<M: Memory>(
    memory: &M,
    p: Prepared1,
    q: Prepared2,
    a: SizedAccess,
    log: &mut [u64],
) -> Arrival
    requires { (24 ≤ length log.old) }
    ensures { Ran (M.finds memory.now) (Stages.access (stage1_of p) (stage2_of q) a.access) log.old 0 (Calls.arrived (stage1_of p) (stage2_of q) a.access result) result.end.count log.new × (result.end.count ≤ 24) }
{
    let o = stage1::opening_of(p, a);
    let ending = o.ending;
    let level = o.level;
    if end::passed(ending) {
        walk1(memory, p, q, a, o, log)
    } else {
        first(end::stopped(ending, level, 0))
    }
}

// What attributes go by, beside the descriptors of leaves.
#[derive(Clone, Copy)]
pub struct AttributeControls {
    // Stage 1's, with HCR_EL2.DC, SCTLR_EL1.C and I.
    pub on1: bool,
    pub dc: bool,
    pub mair: u64,
    pub c: bool,
    pub i: bool,
    // Stage 2's, with HCR_EL2.CD and ID.
    pub on2: bool,
    pub cd: bool,
    pub id: bool,
}

// C counts for data, I for a fetch.
fn uncached1(m: AttributeControls, a: Access) -> bool
    ensures { result ≡ Definitions.uncached1 (Calls.memory1 m) a }
{
    let c = m.c;
    let i = m.i;
    if a.is_fetch() { !i } else { !c }
}

// CD counts for data, ID for a fetch.
fn uncached2(m: AttributeControls, a: Access) -> bool
    ensures { result ≡ Seconds.uncached2 (Calls.memory2 m) a false }
{
    let cd = m.cd;
    let id = m.id;
    if a.is_fetch() { id } else { cd }
}

// Stage 1's attributes, by its leaf's descriptor.
fn attributes1(m: AttributeControls, a: Access, word: u64) -> Attributes
    ensures { result ≡ Calls.attributes1 (Calls.memory1 m) a word }
{
    let on = m.on1;
    let dc = m.dc;
    let i = m.i;
    if on {
        attributes::settled_part(attributes::stage1_attributes(m.mair, uncached1(m, a), word))
    } else {
        attributes::stage1_off_attributes(dc, a.is_fetch(), i)
    }
}

// With stage 2's, by its leaf's descriptor.
fn combined(m: AttributeControls, a: Access, one: Attributes, word: u64) -> Attributes
    ensures { result ≡ Calls.combined (Calls.memory2 m) a one word }
{
    let on = m.on2;
    if on {
        let two = attributes::settled_part(attributes::stage2_attributes(uncached2(m, a), word));
        attributes::combine(one, two)
    } else {
        one
    }
}

fn stage_of(r: Arrival) -> Stage
    ensures { result ≡ Calls.stage_by r.by r.ipa }
{
    let by = r.by;
    let ipa = r.ipa;
    match by {
        By::First => Stage::One,
        By::OnWalk => Stage::Two { ipa, onwalk: true },
        By::Second => Stage::Two { ipa, onwalk: false },
    }
}

// A stage's stop; an end that passed has none.
fn stop_by(s: Stage, address: u64, level: u64, ending: Ending) -> Stop
    ensures { result ≡ Ends.stop_by s address level ending }
{
    match ending {
        Ending::Passed => Stop::Unsettled(Open { stage: s, level }),
        Ending::Translation => stop::fault_at(FaultKind::Translation, s, level),
        Ending::AddressSize => stop::fault_at(FaultKind::AddressSize, s, level),
        Ending::AccessFlag => stop::fault_at(FaultKind::AccessFlag, s, level),
        Ending::Permission => stop::fault_at(FaultKind::Permission, s, level),
        Ending::Misaligned => Stop::Misaligned(s),
        Ending::Absent => Stop::Absent(Missing {
            address,
            stage: s,
            level,
        }),
        Ending::Unsettled => Stop::Unsettled(Open { stage: s, level }),
    }
}

// The level of stage 1's leaf. A stage that is off has level 0.
fn level1(m: AttributeControls, left: u64) -> u64
    ensures { result ≡ Calls.leaf_level (Calls.memory1 m) left }
{
    let on = m.on1;
    if on {
        if left < 3 { 3 - left } else { 0 }
    } else {
        0
    }
}

// How an access ends, from its plain words. Attributes are decoded here, once.
pub fn reached_by(m: AttributeControls, a: Access, r: Arrival) -> Result<Translation, Stop>
    ensures { Calls.outcome_of result ≡ Calls.arrived (Calls.memory1 m) (Calls.memory2 m) a r }
{
    let end = r.end;
    let ending = end.ending;
    let address = end.address;
    let level = end.level;
    if end::passed(ending) {
        Ok(Translation {
            address,
            attributes: combined(m, a, attributes1(m, a, r.word1), end.word),
            level1: level1(m, r.left1),
            level2: level,
        })
    } else {
        Err(stop_by(stage_of(r), address, level, ending))
    }
}
