// Runs case M of document 01 on the proved audit, both ways, and an example of each finding and each refusal.
use crate::print::Shown;
use crate::{BASE, Capture, VTCR, el2, image};
use registers::El2;
use registers::hcr::Hcr;
use std::{fmt, io};

// What an audit is given beside the memory and the registers: grants by address and byte count, tables by address and level.
#[derive(Clone, Copy)]
pub(crate) struct Lists<'a> {
    pub(crate) grants: &'a [u64],
    pub(crate) counts: &'a [u64],
    pub(crate) tables: &'a [u64],
    pub(crate) levels: &'a [u64],
}

pub(crate) const M: Lists<'static> = Lists {
    grants: &[0x9_0000, 0x4000_3000],
    counts: &[0x1000, 0x3000],
    tables: &[0x4000_1000, 0x4000_2000],
    levels: &[2, 3],
};

impl<'a> Lists<'a> {
    // One audit and its answer in a line.
    pub(crate) fn audit(
        self,
        rt: &impl Print,
        name: impl fmt::Display + Drop,
        capture: Capture,
        host: El2,
    ) -> io::Result<()> {
        let told = audit::audit(
            capture.bytes,
            capture.base,
            host,
            self.grants,
            self.counts,
            self.tables,
            self.levels,
        );
        println!(rt; "{name}: {}", Shown(told))
    }
}

// An audit of case A's capture, cut to a length, at a base.
#[derive(Clone, Copy)]
struct Case {
    name: &'static str,
    length: usize,
    base: u64,
    host: El2,
    lists: Lists<'static>,
}

impl Case {
    fn m() -> Self {
        Case {
            name: "M",
            length: 0x8000,
            base: BASE,
            host: el2(VTCR),
            lists: M,
        }
    }

    fn audit(self, rt: &impl Print) -> io::Result<()> {
        let bytes = image::case_a();
        let length = self.length.min(bytes.len());
        let capture = Capture::at(self.base, &bytes[..length]);
        self.lists.audit(rt, self.name, capture, self.host)
    }
}

fn both_ways() -> [Case; 2] {
    let m = Case::m();
    [
        m,
        Case {
            name: "M without the first grant",
            lists: Lists {
                grants: &[0x4000_3000],
                counts: &[0x3000],
                ..M
            },
            ..m
        },
    ]
}

fn findings() -> [Case; 3] {
    let m = Case::m();
    [
        // The last entry of the level 3 table is cut off.
        Case {
            name: "M, capture cut to 0x2ff8 bytes",
            length: 0x2ff8,
            ..m
        },
        Case {
            name: "M, the level 3 table granted",
            lists: Lists {
                grants: &[0x9_0000, 0x4000_2000],
                counts: &[0x1000, 0x4000],
                ..M
            },
            ..m
        },
        Case {
            name: "M, the level 3 table not listed",
            lists: Lists {
                tables: &[0x4000_1000],
                levels: &[2],
                ..M
            },
            ..m
        },
    ]
}

fn refusals() -> [Case; 5] {
    let m = Case::m();
    [
        Case {
            name: "M, capture ending a byte past 2^48",
            base: 0xffff_ffff_8001,
            ..m
        },
        Case {
            name: "M, T0SZ 40 in VTCR_EL2",
            host: el2(0x2_0068),
            ..m
        },
        Case {
            name: "M, grants descending",
            lists: Lists {
                grants: &[0x4000_3000, 0x9_0000],
                counts: &[0x3000, 0x1000],
                ..M
            },
            ..m
        },
        Case {
            name: "M, SL0 3",
            host: el2(0x2_00d9),
            ..m
        },
        Case {
            name: "M, stage 2 off",
            host: El2 {
                hcr: Hcr::new(0x8000_0000),
                ..m.host
            },
            ..m
        },
    ]
}

pub(crate) fn all(rt: &impl Print) -> io::Result<()> {
    for case in both_ways() {
        case.audit(rt)?;
    }
    for case in findings() {
        case.audit(rt)?;
    }
    for case in refusals() {
        case.audit(rt)?;
    }
    Ok(())
}
