// Memory attributes: decoding, combining, reporting.
#![tactic(auto, using(bits::proofs::Tests::choices))]

ghost use Rattle.std.specs.Prelude.{◌≡◌, Bool, ◌&&◌, eqb};
ghost use Rattle.bits.specs.Bits.{pick};
ghost use Rattle.attributes.specs.Attributes as Memories;

use bits::field;

// Of the kinds of Device memory, of cacheability and of shareability, the strictest comes first: where two stages meet, the lesser stands.
#[derive(Clone, Copy, PartialEq, Eq, PartialOrd, Ord)]
pub enum DeviceType {
    NGnRnE,
    NGnRE,
    NGRE,
    GRE,
}

#[derive(Clone, Copy, PartialEq, Eq, PartialOrd, Ord)]
pub enum Cacheability {
    NonCacheable,
    WriteThrough,
    WriteBack,
}

#[derive(Clone, Copy, PartialEq, Eq)]
pub enum MemoryType {
    Device(DeviceType),
    Normal {
        outer: Cacheability,
        inner: Cacheability,
    },
}

#[derive(Clone, Copy, PartialEq, Eq, PartialOrd, Ord)]
pub enum Shareability {
    OuterShareable,
    InnerShareable,
    NonShareable,
}

#[derive(Clone, Copy, PartialEq, Eq)]
pub struct Attributes {
    pub memory: MemoryType,
    pub shareability: Shareability,
}

// What of a leaf's memory decides whether an access passes: whether Arm settles it, and whether it is Device memory.
#[derive(Clone, Copy, PartialEq, Eq)]
pub enum MemoryClass {
    Unsettled,
    Device,
    Normal,
}

// Device memory by two bits, in the order of the list.
#[tactic(auto, using(bits::proofs::Tests::choices), unfolding(crate::specs::Attributes::device_of))]
fn device_of(v: u64) -> DeviceType
    ensures { result ≡ Memories.device_of v }
{
    match v {
        0 => DeviceType::NGnRnE,
        1 => DeviceType::NGnRE,
        2 => DeviceType::NGRE,
        _ => DeviceType::GRE,
    }
}

// A nibble of a MAIR byte, from 1 up.
#[tactic(auto, using(bits::proofs::Tests::choices), unfolding(crate::specs::Attributes::mair_nibble))]
fn mair_nibble(v: u64) -> Cacheability
    ensures { result ≡ Memories.mair_nibble v }
{
    match v {
        0..=3 => Cacheability::WriteThrough,
        4 => Cacheability::NonCacheable,
        5..=7 => Cacheability::WriteBack,
        8..=11 => Cacheability::WriteThrough,
        _ => Cacheability::WriteBack,
    }
}

// Stage 2's two bits, from 1 up.
#[tactic(auto, using(bits::proofs::Tests::choices), unfolding(crate::specs::Attributes::stage2_bits))]
fn stage2_bits(v: u64) -> Cacheability
    ensures { result ≡ Memories.stage2_bits v }
{
    match v {
        1 => Cacheability::NonCacheable,
        2 => Cacheability::WriteThrough,
        _ => Cacheability::WriteBack,
    }
}

// SH. Code 1 is reserved; who calls has ruled it out.
#[tactic(auto, using(bits::proofs::Tests::choices), unfolding(crate::specs::Attributes::shareability_of))]
fn shareability_of(v: u64) -> Shareability
    ensures { result ≡ Memories.shareability_of v }
{
    match v {
        2 => Shareability::OuterShareable,
        3 => Shareability::InnerShareable,
        _ => Shareability::NonShareable,
    }
}

#[tactic(auto, using(bits::proofs::Tests::choices), unfolding(crate::specs::Attributes::is_non_cacheable))]
fn is_non_cacheable(c: Cacheability) -> bool
    ensures { result ≡ Memories.is_non_cacheable c }
{
    c == Cacheability::NonCacheable
}

fn neither_cacheable(outer: Cacheability, inner: Cacheability) -> bool
    ensures { result ≡ Memories.is_non_cacheable outer && Memories.is_non_cacheable inner }
{
    is_non_cacheable(outer) & is_non_cacheable(inner)
}

// Normal memory that is Non-cacheable both ways is outer shareable.
fn normal_shareability(outer: Cacheability, inner: Cacheability, s: Shareability) -> Shareability
    ensures { result ≡ pick (Memories.is_non_cacheable outer && Memories.is_non_cacheable inner) Shareability.OuterShareable s }
{
    if neither_cacheable(outer, inner) {
        Shareability::OuterShareable
    } else {
        s
    }
}

// Attributes as they are reported. Device memory is outer shareable.
#[tactic(auto, using(bits::proofs::Tests::choices), unfolding(crate::specs::Attributes::reported))]
fn reported(m: MemoryType, s: Shareability) -> Attributes
    ensures { result ≡ Memories.reported m s }
{
    match m {
        MemoryType::Device(d) => Attributes {
            memory: MemoryType::Device(d),
            shareability: Shareability::OuterShareable,
        },
        MemoryType::Normal { outer, inner } => Attributes {
            memory: MemoryType::Normal { outer, inner },
            shareability: normal_shareability(outer, inner, s),
        },
    }
}

// Normal memory, the same both ways.
fn alike(c: Cacheability) -> MemoryType
    ensures { result ≡ MemoryType.Normal c c }
{
    MemoryType::Normal { outer: c, inner: c }
}

// Normal memory with caching off is Non-cacheable.
fn cached(uncached: bool, outer: Cacheability, inner: Cacheability) -> MemoryType
    ensures { result ≡ pick uncached (MemoryType.Normal Cacheability.NonCacheable Cacheability.NonCacheable) (MemoryType.Normal outer inner) }
{
    if uncached {
        alike(Cacheability::NonCacheable)
    } else {
        MemoryType::Normal { outer, inner }
    }
}

// Normal memory; its SH must be a code.
#[tactic(auto, using(bits::proofs::Tests::choices), unfolding(crate::specs::Attributes::normal))]
fn normal(uncached: bool, sh: u64, outer: Cacheability, inner: Cacheability) -> Option<Attributes>
    ensures { result ≡ Memories.normal uncached sh outer inner }
{
    if sh == 1 {
        None
    } else {
        Some(reported(cached(uncached, outer, inner), shareability_of(sh)))
    }
}

fn device(d: DeviceType) -> Option<Attributes>
    ensures { result ≡ Memories.device d }
{
    Some(reported(MemoryType::Device(d), Shareability::OuterShareable))
}

// Stage 1: a byte of MAIR, and SH.
#[tactic(auto, using(bits::proofs::Tests::choices), unfolding(crate::specs::Attributes::mair_byte))]
fn mair_byte(uncached: bool, sh: u64, byte: u64) -> Option<Attributes>
    ensures { result ≡ Memories.mair_byte uncached sh byte }
{
    let outer = byte / 16;
    let inner = byte % 16;
    if outer == 0 {
        if byte % 4 == 0 {
            device(device_of(byte / 4))
        } else {
            None
        }
    } else if inner == 0 {
        None
    } else {
        normal(uncached, sh, mair_nibble(outer), mair_nibble(inner))
    }
}

// Stage 1's descriptor x: AttrIndx, bits 4:2, picks the byte of MAIR_EL1; SH is bits 9:8.
pub fn stage1_attributes(mair: u64, uncached: bool, x: u64) -> Option<Attributes>
    ensures { result ≡ Memories.stage1_attributes mair uncached x }
{
    let index = field(x, 2, 3);
    mair_byte(uncached, field(x, 8, 2), field(mair, 8 * index, 8))
}

// Stage 2: the outer code and the inner code of MemAttr, and SH.
#[tactic(auto, using(bits::proofs::Tests::choices), unfolding(crate::specs::Attributes::stage2_codes))]
fn stage2_codes(uncached: bool, sh: u64, outer: u64, inner: u64) -> Option<Attributes>
    ensures { result ≡ Memories.stage2_codes uncached sh outer inner }
{
    if outer == 0 {
        device(device_of(inner))
    } else if inner == 0 {
        None
    } else {
        normal(uncached, sh, stage2_bits(outer), stage2_bits(inner))
    }
}

// Stage 2's descriptor x: MemAttr is bits 5:2, SH bits 9:8.
pub fn stage2_attributes(uncached: bool, x: u64) -> Option<Attributes>
    ensures { result ≡ Memories.stage2_attributes uncached x }
{
    stage2_codes(uncached, field(x, 8, 2), field(x, 4, 2), field(x, 2, 2))
}

// The class of Normal memory: its SH must be a code.
fn normal_class(sh: u64) -> MemoryClass
    ensures { result ≡ pick (eqb sh 1) MemoryClass.Unsettled MemoryClass.Normal }
{
    if sh == 1 {
        MemoryClass::Unsettled
    } else {
        MemoryClass::Normal
    }
}

// The class by a byte of MAIR, and SH.
fn mair_class(sh: u64, byte: u64) -> MemoryClass
    ensures { (u : Bool) → result ≡ Memories.class_of (Memories.mair_byte u sh byte) }
{
    if byte / 16 == 0 {
        if byte % 4 == 0 {
            MemoryClass::Device
        } else {
            MemoryClass::Unsettled
        }
    } else if byte % 16 == 0 {
        MemoryClass::Unsettled
    } else {
        normal_class(sh)
    }
}

// The class of stage 1's descriptor x. Caching off does not change it, and no attributes are decoded for it.
pub fn stage1_class(mair: u64, x: u64) -> MemoryClass
    ensures { (u : Bool) → result ≡ Memories.class_of (Memories.stage1_attributes mair u x) }
{
    let place = 8 * field(x, 2, 3);
    mair_class(field(x, 8, 2), field(mair, place, 8))
}

// The class of stage 2's descriptor x, likewise.
pub fn stage2_class(x: u64) -> MemoryClass
    ensures { (u : Bool) → result ≡ Memories.class_of (Memories.stage2_attributes u x) }
{
    if field(x, 4, 2) == 0 {
        MemoryClass::Device
    } else if field(x, 2, 2) == 0 {
        MemoryClass::Unsettled
    } else {
        normal_class(field(x, 8, 2))
    }
}

// The attributes, for who has found them settled.
#[tactic(auto, using(bits::proofs::Tests::choices), unfolding(crate::specs::Attributes::settled_part, crate::specs::Attributes::reported))]
pub fn settled_part(d: Option<Attributes>) -> Attributes
    ensures { result ≡ Memories.settled_part d }
{
    d.unwrap_or(Attributes {
        memory: MemoryType::Device(DeviceType::NGnRnE),
        shareability: Shareability::OuterShareable,
    })
}

// With stage 1 off: by HCR_EL2.DC, by whether the access is a fetch, and by SCTLR_EL1.I.
#[tactic(auto, using(bits::proofs::Tests::choices), unfolding(crate::specs::Attributes::stage1_off_attributes))]
pub fn stage1_off_attributes(dc: bool, fetch: bool, i: bool) -> Attributes
    ensures { result ≡ Memories.stage1_off_attributes dc fetch i }
{
    if dc {
        reported(alike(Cacheability::WriteBack), Shareability::NonShareable)
    } else if fetch {
        if i {
            reported(
                alike(Cacheability::WriteThrough),
                Shareability::OuterShareable,
            )
        } else {
            reported(
                alike(Cacheability::NonCacheable),
                Shareability::OuterShareable,
            )
        }
    } else {
        reported(
            MemoryType::Device(DeviceType::NGnRnE),
            Shareability::OuterShareable,
        )
    }
}

// Of two kinds the stricter; Device memory stands over Normal memory.
#[tactic(auto, using(crate::proofs::Ranks::lesser_device, crate::proofs::Ranks::lesser_cache), unfolding(crate::specs::Attributes::combine_memory))]
fn combine_memory(a: MemoryType, b: MemoryType) -> MemoryType
    ensures { result ≡ Memories.combine_memory a b }
{
    match (a, b) {
        (MemoryType::Device(d), MemoryType::Device(e)) => MemoryType::Device(d.min(e)),
        (MemoryType::Device(d), MemoryType::Normal { .. }) => MemoryType::Device(d),
        (MemoryType::Normal { .. }, MemoryType::Device(e)) => MemoryType::Device(e),
        (
            MemoryType::Normal { outer, inner },
            MemoryType::Normal {
                outer: other_outer,
                inner: other_inner,
            },
        ) => MemoryType::Normal {
            outer: outer.min(other_outer),
            inner: inner.min(other_inner),
        },
    }
}

// What both stages say together: in each part the stricter.
#[tactic(auto, using(crate::proofs::Ranks::lesser_share))]
pub fn combine(a: Attributes, b: Attributes) -> Attributes
    ensures { result ≡ Memories.combine a b }
{
    reported(
        combine_memory(a.memory, b.memory),
        a.shareability.min(b.shareability),
    )
}
