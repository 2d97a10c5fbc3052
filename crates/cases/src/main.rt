// Runs the cases of document 01, and core files, the output size and the granules of document 02, on the proved question, batch and audit and prints a line for each.
#![tactic(auto)]

use access::Access;
use answers::{Answer, Refusal};
use print::{Reads, Shown};
use registers::hcr::Hcr;
use registers::sctlr::Sctlr;
use registers::tcr::Tcr;
use registers::vtcr::Vtcr;
use registers::{El1, El2};
use std::{fmt, io};

mod audits;
mod cores;
mod granules;
mod image;
mod print;
mod sizes;

const BASE: u64 = 0x4000_0000;

const VTCR: u64 = 0x2_0059;

const TCR: u64 = 0x2_0080_0019;

fn el2(vtcr: u64) -> El2 {
    El2 {
        pamax: 40,
        hcr: Hcr::new(0x8000_0001),
        vtcr: Vtcr::new(vtcr),
        vttbr: BASE,
        sctlr: Sctlr::new(0),
    }
}

fn el1(sctlr: u64, tcr: u64) -> El1 {
    El1 {
        sctlr: Sctlr::new(sctlr),
        tcr: Tcr::new(tcr),
        ttbr0: 0x1000,
        ttbr1: 0,
        mair: 0xff,
    }
}

// Eight bytes.
fn access(address: u64, kind: u64, el: u64) -> Access {
    Access {
        address,
        kind,
        el,
        size: 8,
    }
}

// Memory from a base on.
#[derive(Clone, Copy)]
struct Capture<'a> {
    base: u64,
    bytes: &'a [u8],
}

impl<'a> Capture<'a> {
    fn at(base: u64, bytes: &'a [u8]) -> Self {
        Capture { base, bytes }
    }
}

// A guest's access, and the registers that it goes by.
#[derive(Clone, Copy)]
struct Question {
    host: El2,
    guest: El1,
    access: Access,
}

impl Question {
    fn case_a() -> Self {
        Question {
            host: el2(VTCR),
            guest: el1(5, TCR),
            access: access(0x1008, 0, 0),
        }
    }

    fn answer(self, capture: Capture, log: &mut [u64]) -> Result<Answer, Refusal> {
        let Capture { base, bytes } = capture;
        question::translate(bytes, base, self.host, self.guest, self.access, log)
    }

    // Its answer and its log in a line.
    fn ask(
        self,
        rt: &impl Print,
        name: impl fmt::Display + Drop,
        capture: Capture,
    ) -> io::Result<()> {
        let mut log = [0; 24];
        let told = self.answer(capture, &mut log);
        println!(rt; "{name}: {}{}", Shown(told), Reads(&log))
    }
}

// A question of case A's capture, cut to a length, with one word written over.
#[derive(Clone, Copy)]
struct Case {
    name: &'static str,
    length: usize,
    word: Option<(usize, u64)>,
    host: El2,
    guest: El1,
    access: Access,
}

impl Case {
    fn a() -> Self {
        let Question {
            host,
            guest,
            access,
        } = Question::case_a();
        Case {
            name: "A",
            length: 0x8000,
            word: None,
            host,
            guest,
            access,
        }
    }

    fn ask(self, rt: &impl Print) -> io::Result<()> {
        let mut bytes = image::case_a();
        if let Some((at, word)) = self.word {
            image::put(&mut bytes, at, word);
        }
        let length = self.length.min(bytes.len());
        let question = Question {
            host: self.host,
            guest: self.guest,
            access: self.access,
        };
        question.ask(rt, self.name, Capture::at(BASE, &bytes[..length]))
    }
}

fn a_to_l() -> [Case; 12] {
    let a = Case::a();
    [
        a,
        Case {
            name: "B",
            word: Some((0x2280, 0x9_077f)),
            access: access(0x1008, 1, 0),
            ..a
        },
        Case {
            name: "C",
            word: Some((0x2010, 0)),
            ..a
        },
        Case {
            name: "D",
            word: Some((0x5008, 0x5_0343)),
            ..a
        },
        Case {
            name: "E",
            length: 0x4000,
            ..a
        },
        Case {
            name: "F",
            access: access(0x80_0000_0000, 0, 0),
            ..a
        },
        Case {
            name: "G",
            access: access(0x7f_ffff_ffff, 0, 0),
            ..a
        },
        Case {
            name: "H",
            access: access(0x1008, 2, 1),
            ..a
        },
        Case {
            name: "I",
            host: el2(0x2_00d9),
            ..a
        },
        Case {
            name: "J",
            guest: el1(0, TCR),
            access: access(0x5_0008, 0, 0),
            ..a
        },
        Case {
            name: "K",
            guest: el1(0, TCR),
            access: access(0x5_0009, 0, 0),
            ..a
        },
        Case {
            name: "L",
            guest: el1(5, 0x2_0080_0028),
            ..a
        },
    ]
}

fn beside_them() -> [Case; 4] {
    let a = Case::a();
    [
        Case {
            name: "L, T0SZ 39",
            guest: el1(5, 0x2_0080_0027),
            ..a
        },
        Case {
            name: "A, the next word",
            access: access(0x1010, 0, 0),
            ..a
        },
        Case {
            name: "A in an empty capture",
            length: 0,
            ..a
        },
        Case {
            name: "A, kind 3",
            access: access(0x1008, 3, 0),
            ..a
        },
    ]
}

// A write through stage 1 tables that stage 2 makes read-only.
fn ask_read_only(rt: &impl Print) -> io::Result<()> {
    let mut bytes = image::case_a();
    image::put_all(
        &mut bytes,
        &[
            (0x2008, 0x4000_377f),
            (0x2010, 0x4000_477f),
            (0x2018, 0x4000_577f),
        ],
    );
    let question = Question {
        access: access(0x1008, 1, 0),
        ..Question::case_a()
    };
    question.ask(
        rt,
        "A as a write, stage 1 tables read-only at stage 2",
        Capture::at(BASE, &bytes),
    )
}

// A root of 1,024 entries, of which entry 513 is a block; a 9-bit index would find entry 1, which is zero.
fn ask_concatenated(rt: &impl Print) -> io::Result<()> {
    let bytes = image::of::<0x8000>(&[(0x1008, 0x8000_07fd)]);
    let question = Question {
        host: el2(0x2_0058),
        guest: el1(0, 0),
        access: access(0x80_4000_0008, 0, 0),
    };
    question.ask(
        rt,
        "concatenated root, entry 513",
        Capture::at(BASE, &bytes),
    )
}

// Case A with eight bytes captured at a base, and a log of some length.
fn ask_small(rt: &impl Print, name: &str, base: u64, log: &mut [u64]) -> io::Result<()> {
    let bytes = [0; 8];
    let told = Question::case_a().answer(Capture::at(base, &bytes), log);
    println!(rt; "{name}: {}", Shown(told))
}

fn ask_refused(rt: &impl Print) -> io::Result<()> {
    ask_small(rt, "log of 23 words", BASE, &mut [7; 23])?;
    ask_small(
        rt,
        "capture ending a byte past 2^48",
        0xffff_ffff_fff9,
        &mut [7; 24],
    )
}

// A batch of two addresses and its ledger in a line.
fn batch(rt: &impl Print, name: &str, bytes: &[u8], outputs: &mut [u64]) -> io::Result<()> {
    let Question { host, guest, .. } = Question::case_a();
    let told = batch::run(
        bytes,
        BASE,
        host,
        guest,
        0,
        0,
        8,
        &[0x1008, 0x2000],
        outputs,
        &mut [0; 2],
    );
    println!(rt; "{name}: {}", Shown(told))
}

// The last is refused before the capture is looked at: two addresses, one output.
fn batches(rt: &impl Print) -> io::Result<()> {
    let bytes = image::case_a();
    let cut = &bytes[..0x4000];
    batch(rt, "batch of 0x1008 and 0x2000", &bytes, &mut [0; 2])?;
    batch(
        rt,
        "the same, capture cut to 0x4000 bytes",
        cut,
        &mut [0; 2],
    )?;
    batch(
        rt,
        "batch of 0x1008 and 0x2000, a list of one output",
        &[0; 8],
        &mut [0; 1],
    )
}

fn questions(rt: &impl Print) -> io::Result<()> {
    for case in a_to_l() {
        case.ask(rt)?;
    }
    for case in beside_them() {
        case.ask(rt)?;
    }
    ask_read_only(rt)?;
    ask_concatenated(rt)?;
    ask_refused(rt)
}

fn main(rt: HostRuntime) -> io::Result<()> {
    questions(&rt)?;
    batches(&rt)?;
    audits::all(&rt)?;
    cores::all(&rt)?;
    sizes::all(&rt)?;
    granules::all(&rt)
}
