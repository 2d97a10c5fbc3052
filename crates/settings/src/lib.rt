// Which registers are accepted (01, Settings). The first item that fails decides, and a stage that is off is not tested.
#![tactic(auto)]

ghost use Rattle.std.specs.Prelude.{◌≡◌, not, ◌&&◌, [], ◌∷◌, ◌-◌, leb};
ghost use Rattle.settings.specs.Settings as Settings;
ghost use Rattle.registers.specs.Sctlr as SctlrFields;
ghost use Rattle.registers.specs.Vtcr as VtcrFields;

use registers::sctlr::Sctlr;
use registers::vtcr::Vtcr;
use registers::{El1, El2};

// What is asked of registers, in the order in which it is tested.
#[derive(Clone, Copy, Debug, PartialEq, Eq)]
pub enum Item {
    Pamax = 1,
    Tge = 2,
    Rw = 3,
    // No stage that is on has big-endian tables.
    BigEndian = 4,
    Ips = 5,
    // The size and the granule of the VA range at the bottom, where it is walked, and of that at the top.
    LowerRange = 6,
    UpperRange = 7,
    Ps = 8,
    Stage2Size = 9,
}

// An item's number, for who reports it.
impl From<Item> for u64 {
    ghost from_gives = { λ item n. n ≡ Settings.number item };

    fn from(item: Item) -> u64 {
        item as u64
    }
}

// Stage 1 is on by SCTLR_EL1.M, unless HCR_EL2.DC is set.
pub fn stage1_on(r: El2, g: El1) -> bool
    ensures { result ≡ Settings.stage1_on r g }
{
    g.sctlr.m() & !r.hcr.dc()
}

// Stage 2 is on by HCR_EL2.VM, and by DC too.
pub fn stage2_on(r: El2) -> bool
    ensures { result ≡ Settings.stage2_on r }
{
    r.hcr.vm() | r.hcr.dc()
}

fn listed_pamax(n: u64) -> bool
    ensures { result ≡ Settings.listed_pamax n }
{
    matches!(n, 32 | 36 | 40 | 42 | 44 | 48)
}

fn listed_size_field(n: u64) -> bool
    ensures { result ≡ Settings.listed_size_field n }
{
    matches!(n, 16..=39)
}

// The tables of a stage that is on are little-endian.
fn little_endian(on: bool, sctlr: Sctlr) -> bool
    ensures { result ≡ Settings.implies on (not (SctlrFields.ee sctlr)) }
{
    !on | !sctlr.ee()
}

// A code that names a granule; 3 is reserved in TG0, 0 in TG1, and one test for both would have to be told which it is.
fn listed_tg0(code: u64) -> bool
    ensures { result ≡ Settings.listed_tg0 code }
{
    code <= 2
}

fn listed_tg1(code: u64) -> bool
    ensures { result ≡ Settings.listed_tg1 code }
{
    1 <= code
}

// A VA range that is walked has an accepted size, and a granule.
fn range_accepted(epd: bool, size: u64, granule: bool) -> bool
    ensures { result ≡ Settings.implies (not epd) (Settings.listed_size_field size && granule) }
{
    epd | (listed_size_field(size) & granule)
}

// Stage 2's size is accepted and no greater than PAMax, and it has a granule.
fn stage2_accepted(vtcr: Vtcr, pamax: u64) -> bool
    ensures { result ≡
        (Settings.listed_size_field (VtcrFields.t0sz vtcr) && Settings.listed_tg0 (VtcrFields.tg0 vtcr) && leb (64 - VtcrFields.t0sz vtcr) pamax) }
{
    let size = vtcr.t0sz();
    listed_size_field(size) & listed_tg0(vtcr.tg0()) & (64 - size <= pamax)
}

// Items 1 to 3.
#[tactic(auto, using(crate::proofs::Items::returned), unfolding(crate::specs::Settings::first_failing))]
fn first_items(r: El2) -> Result<(), Item>
    ensures { Settings.item_word result ≡ Settings.first_failing (Settings.first_items r []) }
{
    if !listed_pamax(r.pamax) {
        return Err(Item::Pamax);
    }
    if r.hcr.tge() {
        return Err(Item::Tge);
    }
    if !r.hcr.rw() {
        return Err(Item::Rw);
    }
    Ok(())
}

// Items 8 and 9, which hold where stage 2 is off. PS has a code.
#[tactic(auto, using(crate::proofs::Items::returned), unfolding(crate::specs::Settings::first_failing))]
fn last_items(r: El2) -> Result<(), Item>
    ensures { Settings.item_word result ≡ Settings.first_failing (Settings.last_items r) }
{
    if !stage2_on(r) {
        return Ok(());
    }
    if 5 < r.vtcr.ps() {
        return Err(Item::Ps);
    }
    if !stage2_accepted(r.vtcr, r.pamax) {
        return Err(Item::Stage2Size);
    }
    Ok(())
}

// Items 5 to 9. Items 5 to 7 hold where stage 1 is off. IPS has a code.
#[tactic(auto, using(crate::proofs::Items::returned), unfolding(crate::specs::Settings::first_failing))]
fn stage_items(r: El2, g: El1) -> Result<(), Item>
    ensures { Settings.item_word result ≡
        Settings.first_failing ((5, Settings.item5 r g) ∷ (6, Settings.item6 r g) ∷ (7, Settings.item7 r g) ∷ Settings.last_items r) }
{
    let tcr = g.tcr;
    if !stage1_on(r, g) {
        return last_items(r);
    }
    if 5 < tcr.ips() {
        return Err(Item::Ips);
    }
    if !range_accepted(tcr.epd0(), tcr.t0sz(), listed_tg0(tcr.tg0())) {
        return Err(Item::LowerRange);
    }
    if !range_accepted(tcr.epd1(), tcr.t1sz(), listed_tg1(tcr.tg1())) {
        return Err(Item::UpperRange);
    }
    last_items(r)
}

// A question's settings, with the first item that does not hold.
pub fn of_question(r: El2, g: El1) -> Result<(), Item>
    ensures { Settings.item_word result ≡ Settings.settings r g }
{
    first_items(r)?;
    let little = little_endian(stage1_on(r, g), g.sctlr) & little_endian(stage2_on(r), r.sctlr);
    if !little {
        return Err(Item::BigEndian);
    }
    stage_items(r, g)
}

// The same for the audit, which goes by no register of the guest.
pub fn of_audit(r: El2) -> Result<(), Item>
    ensures { Settings.item_word result ≡ Settings.audit_settings r }
{
    first_items(r)?;
    if little_endian(stage2_on(r), r.sctlr) {
        last_items(r)
    } else {
        Err(Item::BigEndian)
    }
}
