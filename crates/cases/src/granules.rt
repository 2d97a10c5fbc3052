// Runs the granules of 16KB and 64KB, beside that of 4KB, on the proved question and audit.
use crate::audits::Lists;
use crate::{BASE, Capture, Case, Question, TCR, VTCR, access, el1, el2, image};
use registers::hcr::Hcr;
use registers::{El1, El2};
use std::io;

// PAMax 48.
fn host(vtcr: u64) -> El2 {
    El2 {
        pamax: 48,
        ..el2(vtcr)
    }
}

fn no_host() -> El2 {
    El2 {
        hcr: Hcr::new(0x8000_0000),
        ..host(0)
    }
}

// Every attribute index is Normal Write-Back.
fn guest(tcr: u64, ttbr0: u64) -> El1 {
    El1 {
        ttbr0,
        mair: 0xffff_ffff_ffff_ffff,
        ..el1(5, tcr)
    }
}

// A walk from level 1 through three tables that lie one after the other: TCR_EL1 and VTCR_EL2, an address in whose indices the highest and
// the lowest bit alone are set, the entries that these pick, and what the first two of them hold.
#[derive(Clone, Copy)]
struct Walk {
    granule: &'static str,
    tcr: u64,
    vtcr: u64,
    address: u64,
    root: usize,
    table: usize,
    leaf: usize,
    level2: u64,
    level3: u64,
}

const WALKS: [Walk; 3] = [
    Walk {
        granule: "4KB",
        tcr: 0x5_0080_0019,
        vtcr: 0x5_0059,
        address: 0x40_6030_1ff8,
        root: 0x808,
        table: 0x1808,
        leaf: 0x2808,
        level2: 0x4000_1003,
        level3: 0x4000_2003,
    },
    Walk {
        granule: "16KB",
        tcr: 0x5_0080_8011,
        vtcr: 0x5_8091,
        address: 0x4018_0300_7ff8,
        root: 0x2008,
        table: 0x6008,
        leaf: 0xa008,
        level2: 0x4000_4003,
        level3: 0x4000_8003,
    },
    Walk {
        granule: "64KB",
        tcr: 0x5_0080_4010,
        vtcr: 0x5_4090,
        address: 0x8600_3001_fff8,
        root: 0x108,
        table: 0x1_8008,
        leaf: 0x2_8008,
        level2: 0x4001_0003,
        level3: 0x4002_0003,
    },
];

impl Walk {
    // A page at 0x90000.
    fn bytes(self) -> [u8; 0x3_0000] {
        image::of(&[
            (self.root, self.level2),
            (self.table, self.level3),
            (self.leaf, 0x9_07ff),
        ])
    }

    // Of stage 1 alone and of stage 2 alone.
    fn ask(self, rt: &impl Print) -> io::Result<()> {
        let granule = self.granule;
        let bytes = self.bytes();
        let capture = Capture::at(BASE, &bytes);
        let access = access(self.address, 0, 0);
        let stage1 = Question {
            host: no_host(),
            guest: guest(self.tcr, BASE),
            access,
        };
        let stage2 = Question {
            host: host(self.vtcr),
            guest: el1(0, 0),
            access,
        };
        stage1.ask(rt, format_args!("{granule} page, stage 1 alone"), capture)?;
        stage2.ask(rt, format_args!("{granule} page, stage 2 alone"), capture)
    }
}

// Case A with a 64KB stage 1 of 25 bits, whose root is a table of level 3.
fn a_64k(rt: &impl Print) -> io::Result<()> {
    let case = Case {
        name: "A, 64KB over 4KB, 0x8",
        word: Some((0x3000, 0x5_0743)),
        guest: el1(5, 0x2_0080_4027),
        access: access(8, 0, 0),
        ..Case::a()
    };
    case.ask(rt)
}

// Case A over a 16KB stage 2 from level 2, whose first page holds stage 1's tables.
fn a_over_16k(rt: &impl Print) -> io::Result<()> {
    let bytes = image::of::<0xc000>(&[
        (0x0, 0x4000_4003),
        (0x4000, 0x4000_87ff),
        (0x40a0, 0x9_07ff),
        (0x9000, 0x2003),
        (0xa000, 0x3003),
        (0xb008, 0x5_0743),
    ]);
    let question = Question {
        host: el2(0x2_8059),
        ..Question::case_a()
    };
    question.ask(rt, "A, 4KB over 16KB", Capture::at(BASE, &bytes))
}

// A 16KB root of two entries in front of its three tables, one of them used.
fn root_of_two(rt: &impl Print, name: &str, entry: usize, address: u64) -> io::Result<()> {
    let base = 0x3fff_fff0;
    let bytes = image::of::<0xc010>(&[
        (entry, 0x4000_0003),
        (0x2018, 0x4000_4003),
        (0x6018, 0x4000_8003),
        (0xa018, 0x9_07ff),
    ]);
    let question = Question {
        host: no_host(),
        guest: guest(0x5_0080_8010, base),
        access: access(address, 0, 0),
    };
    question.ask(
        rt,
        format_args!("16KB root of two entries, {name}"),
        Capture::at(base, &bytes),
    )
}

// Stage 2 alone, with one entry of its root captured: the last, which the last word of the input range picks.
#[derive(Clone, Copy)]
struct Last {
    name: &'static str,
    host: El2,
    root: u64,
    entry: u64,
    word: u64,
    address: u64,
}

impl Last {
    fn ask(self, rt: &impl Print) -> io::Result<()> {
        let bytes = self.word.to_le_bytes();
        let question = Question {
            host: El2 {
                vttbr: self.root,
                ..self.host
            },
            guest: el1(0, 0),
            access: access(self.address, 0, 0),
        };
        question.ask(rt, self.name, Capture::at(self.entry, &bytes))
    }
}

fn concatenated() -> [Last; 3] {
    [
        Last {
            name: "16KB root of 16 tables, last entry",
            host: host(0x5_8058),
            root: 0x4004_0000,
            entry: 0x4007_fff8,
            word: 0xc000_07fd,
            address: 0xff_ffff_fff8,
        },
        Last {
            name: "64KB root of 16 tables, last entry",
            host: host(0x5_4052),
            root: 0x4010_0000,
            entry: 0x401f_fff8,
            word: 0xc000_07fd,
            address: 0x3fff_ffff_fff8,
        },
        Last {
            name: "64KB root of 32 tables",
            host: host(0x5_4051),
            root: 0x4020_0000,
            entry: 0x403f_fff8,
            word: 0xc000_07fd,
            address: 0x7fff_ffff_fff8,
        },
    ]
}

// Input size 40.
fn level_1_16k() -> [Last; 2] {
    let host = el2(0x5_8098);
    let last = Last {
        name: "16KB from level 1, PAMax 40",
        host,
        root: 0x4000_0080,
        entry: 0x4000_00f8,
        word: 0,
        address: 0xff_ffff_fff8,
    };
    [
        last,
        Last {
            name: "16KB from level 1, PAMax 42",
            host: El2 { pamax: 42, ..host },
            ..last
        },
    ]
}

fn contiguous() -> [Last; 2] {
    [
        Last {
            name: "64KB block with the contiguous bit, 33 bits",
            host: host(0x5_405f),
            root: 0x4000_0080,
            entry: 0x4000_00f8,
            word: 0x10_0000_c000_07fd,
            address: 0x1_ffff_fff8,
        },
        Last {
            name: "64KB block with the contiguous bit, 34 bits",
            host: host(0x5_405e),
            root: 0x4000_0100,
            entry: 0x4000_01f8,
            word: 0x10_0000_c000_07fd,
            address: 0x3_ffff_fff8,
        },
    ]
}

fn reserved() -> [Case; 3] {
    let a = Case::a();
    [
        Case {
            name: "A, TG0 3 in TCR_EL1",
            guest: el1(5, 0x2_0080_c019),
            ..a
        },
        Case {
            name: "A, TG1 0 in TCR_EL1",
            guest: el1(5, 0x2_0019_0080),
            ..a
        },
        Case {
            name: "A, TG0 3 in VTCR_EL2",
            host: el2(0x2_c059),
            ..a
        },
    ]
}

// A root of level 2 and 30 bits, whose first entries are a table of level 3 and a block. The table's last entry is a page at 0x90000. The page's
// grant starts at some frame.
#[derive(Clone, Copy)]
struct Audit {
    name: &'static str,
    vtcr: u64,
    table: u64,
    leaf: usize,
    size: u64,
    block: u64,
    grant: u64,
}

impl Audit {
    fn bytes(self) -> [u8; 0x2_0000] {
        image::of(&[
            (0x0, self.table | 3),
            (0x8, 0x6000_07fd),
            (self.leaf, 0x9_07ff),
        ])
    }

    fn run(self, rt: &impl Print) -> io::Result<()> {
        let bytes = self.bytes();
        let lists = Lists {
            grants: &[self.grant, 0x6000_0000],
            counts: &[self.size, self.block],
            tables: &[self.table],
            levels: &[3],
        };
        let capture = Capture::at(BASE, &bytes);
        lists.audit(rt, self.name, capture, host(self.vtcr))
    }
}

const AUDIT_16K: Audit = Audit {
    name: "16KB audit, page granted",
    vtcr: 0x5_8062,
    table: 0x4000_4000,
    leaf: 0x7ff8,
    size: 0x4000,
    block: 0x200_0000,
    grant: 0x9_0000,
};

const AUDIT_64K: Audit = Audit {
    name: "64KB audit, page granted",
    vtcr: 0x5_4062,
    table: 0x4001_0000,
    leaf: 0x1_fff8,
    size: 0x1_0000,
    block: 0x2000_0000,
    grant: 0x9_0000,
};

fn audits() -> [Audit; 5] {
    [
        AUDIT_16K,
        Audit {
            name: "16KB audit, grant a frame before the page",
            grant: 0x8_f000,
            ..AUDIT_16K
        },
        AUDIT_64K,
        Audit {
            name: "64KB audit, grant a frame before the page",
            grant: 0x8_f000,
            ..AUDIT_64K
        },
        Audit {
            name: "64KB audit, table aligned to 32KB",
            table: 0x4000_8000,
            ..AUDIT_64K
        },
    ]
}

fn walks(rt: &impl Print) -> io::Result<()> {
    for walk in WALKS {
        walk.ask(rt)?;
    }
    a_64k(rt)?;
    a_over_16k(rt)
}

fn roots(rt: &impl Print) -> io::Result<()> {
    root_of_two(rt, "bit 47 clear", 0, 0x4018_0300_7ff8)?;
    root_of_two(rt, "bit 47 set", 8, 0xc018_0300_7ff8)?;
    for last in concatenated() {
        last.ask(rt)?;
    }
    for last in level_1_16k() {
        last.ask(rt)?;
    }
    for last in contiguous() {
        last.ask(rt)?;
    }
    Ok(())
}

pub(crate) fn all(rt: &impl Print) -> io::Result<()> {
    walks(rt)?;
    roots(rt)?;
    for case in reserved() {
        case.ask(rt)?;
    }
    for audit in audits() {
        audit.run(rt)?;
    }
    Ok(())
}
