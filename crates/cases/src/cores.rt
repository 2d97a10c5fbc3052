// Runs the cases over core files, on the proved calls that read one.
use crate::print::{Reads, Shown};
use crate::{Question, audits, image};
use std::io;

// A range of memory, and where in the file its bytes lie.
#[derive(Clone, Copy)]
struct Bank {
    address: u64,
    offset: u64,
    size: u64,
}

impl Bank {
    fn new(address: u64, offset: u64, size: u64) -> Self {
        Bank {
            address,
            offset,
            size,
        }
    }

    // Writes its program header.
    fn put(self, header: &mut [u8]) {
        image::put_all(
            header,
            &[
                (0, 1),
                (8, self.offset),
                (24, self.address),
                (32, self.size),
            ],
        );
    }
}

// Writes the ELF header and, behind it, a program header for each bank.
fn put_headers(file: &mut [u8], machine: u16, banks: &[Bank]) {
    image::put_all(
        file,
        &[
            (0, 0x1_0102_464c_457f),
            (16, 4 + u64::from(machine) * 0x1_0000),
            (32, 64),
            (48, 0x38_0040_0000_0000),
            (56, banks.len() as u64),
        ],
    );
    if let Some(headers) = file.get_mut(64..) {
        for (header, bank) in headers.chunks_exact_mut(56).zip(banks) {
            bank.put(header);
        }
    }
}

// Case A's descriptors in eight banks, those of stage 2's level 3 table in three; the first two of these touch.
fn banks_a() -> [Bank; 8] {
    [
        Bank::new(0x4000_0000, 512, 8),
        Bank::new(0x4000_1000, 520, 8),
        Bank::new(0x4000_2008, 528, 16),
        Bank::new(0x4000_2018, 544, 16),
        Bank::new(0x4000_2280, 560, 8),
        Bank::new(0x4000_3000, 568, 8),
        Bank::new(0x4000_4000, 576, 8),
        Bank::new(0x4000_5008, 584, 8),
    ]
}

// The file's first bytes, of 592.
fn file_a<const N: usize>(machine: u16) -> [u8; N] {
    let mut file = image::of(&[
        (512, 0x4000_1003),
        (520, 0x4000_2003),
        (528, 0x4000_37ff),
        (536, 0x4000_47ff),
        (544, 0x4000_57ff),
        (560, 0x9_07ff),
        (568, 0x2003),
        (576, 0x3003),
        (584, 0x5_0743),
    ]);
    put_headers(&mut file, machine, &banks_a());
    file
}

// Case A over a core file, its answer and its log in a line.
fn ask(rt: &impl Print, name: &str, file: &[u8]) -> io::Result<()> {
    let Question {
        host,
        guest,
        access,
    } = Question::case_a();
    let mut log = [0; 24];
    let told = question::translate_core(file, host, guest, access, &mut log);
    println!(rt; "{name}: {}{}", Shown(told), Reads(&log))
}

fn a(rt: &impl Print) -> io::Result<()> {
    let mut file = file_a::<592>(183);
    ask(rt, "A in a core file of eight banks", &file)?;
    let mut banks = banks_a();
    banks[7].offset = 583;
    put_headers(&mut file, 183, &banks);
    ask(rt, "the same, two banks with a byte in common", &file)
}

// The last bank's last byte is past the end.
fn a_cut(rt: &impl Print) -> io::Result<()> {
    ask(rt, "the same, cut by a byte", &file_a::<591>(183))
}

// Of the two addresses the second needs a descriptor that lies in no bank.
fn batch(rt: &impl Print) -> io::Result<()> {
    let Question { host, guest, .. } = Question::case_a();
    let told = batch::run_core(
        &file_a::<592>(183),
        host,
        guest,
        0,
        0,
        8,
        &[0x1008, 0x2000],
        &mut [0; 2],
        &mut [0; 2],
    );
    println!(rt;
        "batch of 0x1008 and 0x2000 in the core file: {}",
        Shown(told)
    )
}

// Case M over a core file, with the lists of case M.
fn audit(rt: &impl Print, name: &str, file: &[u8]) -> io::Result<()> {
    let m = audits::M;
    let host = Question::case_a().host;
    let told = audit::audit_core(file, host, m.grants, m.counts, m.tables, m.levels);
    println!(rt; "{name}: {}", Shown(told))
}

// The three tables of stage 2, a bank each; behind each other in the file.
fn banks_m() -> [Bank; 3] {
    [
        Bank::new(0x4000_0000, 232, 0x1000),
        Bank::new(0x4000_1000, 4328, 0x1000),
        Bank::new(0x4000_2000, 8424, 0x1000),
    ]
}

fn m(rt: &impl Print) -> io::Result<()> {
    let mut file = image::of::<12520>(&[
        (232, 0x4000_1003),
        (4328, 0x4000_2003),
        (8432, 0x4000_37ff),
        (8440, 0x4000_47ff),
        (8448, 0x4000_57ff),
        (9064, 0x9_07ff),
    ]);
    put_headers(&mut file, 183, &banks_m());
    audit(rt, "M in a core file of three banks", &file)?;
    let mut banks = banks_m();
    banks[2] = Bank::new(0x4000_2008, 8432, 0xff8);
    put_headers(&mut file, 183, &banks);
    audit(
        rt,
        "the same, the level 3 table without its first entry",
        &file,
    )
}

pub(crate) fn all(rt: &impl Print) -> io::Result<()> {
    a(rt)?;
    a_cut(rt)?;
    ask(rt, "the same, machine 62", &file_a::<592>(62))?;
    batch(rt)?;
    m(rt)
}
