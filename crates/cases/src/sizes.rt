// Runs both sides of 2^40 on the proved question and audit: PAMax is 40, and IPS or PS says 48.
ghost use Rattle.std.specs.Prelude.{◌<◌, ◌^◌};

use crate::audits::Lists;
use crate::{Capture, Case, Question, access, el1, el2, image};
use registers::hcr::Hcr;
use registers::{El1, El2};
use std::io;

const EDGE: u64 = 0x100_0000_0000;

const IPS_5: u64 = 0x5_0080_0019;

const PS_5: u64 = 0x5_0059;

// Three tables at an address, one after the other, and the page that frame 0x1000 is put at.
#[derive(Clone, Copy)]
struct Tables {
    name: &'static str,
    at: u64,
    page: u64,
    ghost below: { at < 2 ^ 48 },
}

impl Tables {
    fn new(name: &'static str, at: u64, page: u64) -> Self
        requires { at < 2 ^ 48 }
    {
        Tables { name, at, page }
    }

    // The bits are those of the leaf beside the page's address.
    fn bytes(self, bits: u64) -> [u8; 0x3000] {
        image::of(&[
            (0, self.at + 0x1003),
            (0x1000, self.at + 0x2003),
            (0x2008, self.page | bits),
        ])
    }

    // Stage 2's root is the first.
    fn host(self) -> El2 {
        El2 {
            vttbr: self.at,
            ..el2(PS_5)
        }
    }

    fn stage1(self, rt: &impl Print) -> io::Result<()> {
        let name = self.name;
        let bytes = self.bytes(0x743);
        let question = Question {
            host: El2 {
                hcr: Hcr::new(0x8000_0000),
                ..el2(PS_5)
            },
            guest: El1 {
                ttbr0: self.at,
                ..el1(5, IPS_5)
            },
            access: access(0x1008, 0, 0),
        };
        question.ask(
            rt,
            format_args!("IPS 5, stage 1 alone, {name}"),
            Capture::at(self.at, &bytes),
        )
    }

    fn stage2(self, rt: &impl Print) -> io::Result<()> {
        let name = self.name;
        let bytes = self.bytes(0x7ff);
        let question = Question {
            host: self.host(),
            guest: el1(0, 0),
            access: access(0x1008, 0, 0),
        };
        question.ask(
            rt,
            format_args!("PS 5, stage 2 alone, {name}"),
            Capture::at(self.at, &bytes),
        )
    }

    // The root's two tables are listed, the page is granted.
    fn audit(self, rt: &impl Print) -> io::Result<()> {
        let name = self.name;
        let bytes = self.bytes(0x7ff);
        let lists = Lists {
            grants: &[self.page],
            counts: &[0x1000],
            tables: &[self.at + 0x1000, self.at + 0x2000],
            levels: &[2, 3],
        };
        lists.audit(
            rt,
            format_args!("PS 5, audit, {name}"),
            Capture::at(self.at, &bytes),
            self.host(),
        )
    }
}

fn asked() -> [Tables; 5] {
    [
        Tables::new("all below 2^40", EDGE - 0x3000, EDGE - 0x1000),
        Tables::new("page at 2^40", EDGE - 0x3000, EDGE),
        Tables::new("level 3 table at 2^40", EDGE - 0x2000, 0x9_0000),
        Tables::new("level 2 table at 2^40", EDGE - 0x1000, 0x9_0000),
        Tables::new("root at 2^40", EDGE, 0x9_0000),
    ]
}

// Case A with one page past 2^40: that of stage 1, then the one that holds stage 1's root.
fn both_stages() -> [Case; 2] {
    let a = Case::a();
    [
        Case {
            name: "A, IPS 5, page of stage 1 past 2^40",
            word: Some((0x5008, 0x100_0005_0743)),
            guest: el1(5, IPS_5),
            ..a
        },
        Case {
            name: "A, PS 5, root of stage 1 past 2^40",
            word: Some((0x2008, 0x100_4000_37ff)),
            host: el2(PS_5),
            ..a
        },
    ]
}

fn audited() -> [Tables; 4] {
    [
        Tables::new("all below 2^40", EDGE - 0x3000, 0x9_0000),
        Tables::new("tables at 2^40", EDGE - 0x1000, 0x9_0000),
        Tables::new("page at 2^40", EDGE - 0x3000, EDGE),
        Tables::new("root at 2^40", EDGE, 0x9_0000),
    ]
}

pub(crate) fn all(rt: &impl Print) -> io::Result<()> {
    for tables in asked() {
        tables.stage1(rt)?;
        tables.stage2(rt)?;
    }
    for case in both_stages() {
        case.ask(rt)?;
    }
    for tables in audited() {
        tables.audit(rt)?;
    }
    Ok(())
}
