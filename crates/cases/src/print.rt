// Answers as text.
use answers::{Answer, Refusal};
use attributes::{Attributes, Cacheability, DeviceType, MemoryType, Shareability};
use audit::{Finding, FindingKind};
use descriptor::entry::FaultKind;
use ledger::{Ledger, line};
use stages::both::Translation;
use std::fmt;
use walk::stop::{Fault, Missing, Open, Stage};

// A value of another crate's type, for which `Display` cannot be written here without a wrapper.
#[derive(Clone, Copy)]
pub(crate) struct Shown<T>(pub(crate) T);

impl fmt::Display for Shown<Cacheability> {
    fn fmt<W: fmt::Write>(&self, f: &mut fmt::Formatter<W>) -> fmt::Result {
        f.write_str(match self.0 {
            Cacheability::NonCacheable => "NC",
            Cacheability::WriteThrough => "WT",
            Cacheability::WriteBack => "WB",
        })
    }
}

impl fmt::Display for Shown<DeviceType> {
    fn fmt<W: fmt::Write>(&self, f: &mut fmt::Formatter<W>) -> fmt::Result {
        f.write_str(match self.0 {
            DeviceType::NGnRnE => "nGnRnE",
            DeviceType::NGnRE => "nGnRE",
            DeviceType::NGRE => "nGRE",
            DeviceType::GRE => "GRE",
        })
    }
}

impl fmt::Display for Shown<MemoryType> {
    fn fmt<W: fmt::Write>(&self, f: &mut fmt::Formatter<W>) -> fmt::Result {
        match self.0 {
            MemoryType::Device(device) => write!(f, "Device {}", Shown(device)),
            MemoryType::Normal { outer, inner } => {
                write!(f, "Normal outer {} inner {}", Shown(outer), Shown(inner))
            }
        }
    }
}

impl fmt::Display for Shown<Shareability> {
    fn fmt<W: fmt::Write>(&self, f: &mut fmt::Formatter<W>) -> fmt::Result {
        f.write_str(match self.0 {
            Shareability::NonShareable => "not shareable",
            Shareability::OuterShareable => "outer shareable",
            Shareability::InnerShareable => "inner shareable",
        })
    }
}

impl fmt::Display for Shown<Attributes> {
    fn fmt<W: fmt::Write>(&self, f: &mut fmt::Formatter<W>) -> fmt::Result {
        let Attributes {
            memory,
            shareability,
        } = self.0;
        write!(f, "{}, {}", Shown(memory), Shown(shareability))
    }
}

impl fmt::Display for Shown<Stage> {
    fn fmt<W: fmt::Write>(&self, f: &mut fmt::Formatter<W>) -> fmt::Result {
        match self.0 {
            Stage::One => f.write_str("stage 1"),
            Stage::Two { ipa, onwalk: true } => write!(f, "stage 2 on-walk, IPA {ipa:#x}"),
            Stage::Two { ipa, onwalk: false } => write!(f, "stage 2, IPA {ipa:#x}"),
        }
    }
}

impl fmt::Display for Shown<FaultKind> {
    fn fmt<W: fmt::Write>(&self, f: &mut fmt::Formatter<W>) -> fmt::Result {
        f.write_str(match self.0 {
            FaultKind::Translation => "translation fault",
            FaultKind::AddressSize => "address size fault",
            FaultKind::AccessFlag => "access flag fault",
            FaultKind::Permission => "permission fault",
        })
    }
}

impl fmt::Display for Shown<Translation> {
    fn fmt<W: fmt::Write>(&self, f: &mut fmt::Formatter<W>) -> fmt::Result {
        let Translation {
            address,
            attributes,
            level1,
            level2,
        } = self.0;
        write!(
            f,
            "translated to {address:#x}, {}, levels {level1} and {level2}",
            Shown(attributes)
        )
    }
}

impl fmt::Display for Shown<Fault> {
    fn fmt<W: fmt::Write>(&self, f: &mut fmt::Formatter<W>) -> fmt::Result {
        let Fault { kind, stage, level } = self.0;
        write!(f, "{}, {}, level {level}", Shown(kind), Shown(stage))
    }
}

impl fmt::Display for Shown<Missing> {
    fn fmt<W: fmt::Write>(&self, f: &mut fmt::Formatter<W>) -> fmt::Result {
        let Missing {
            address,
            stage,
            level,
        } = self.0;
        write!(
            f,
            "not in the capture: {address:#x}, {}, level {level}",
            Shown(stage)
        )
    }
}

impl fmt::Display for Shown<Open> {
    fn fmt<W: fmt::Write>(&self, f: &mut fmt::Formatter<W>) -> fmt::Result {
        let Open { stage, level } = self.0;
        write!(f, "unsettled by Arm, {}, level {level}", Shown(stage))
    }
}

impl fmt::Display for Shown<Refusal> {
    fn fmt<W: fmt::Write>(&self, f: &mut fmt::Formatter<W>) -> fmt::Result {
        match self.0 {
            Refusal::ShortLog => f.write_str("refused 10, log under 24 words"),
            Refusal::HighCapture => f.write_str("refused 11, capture past 2^48"),
            Refusal::Settings { item } => write!(f, "refused 12, settings item {item}"),
            Refusal::Unlisted => f.write_str("refused 13, kind, EL or size"),
            Refusal::BatchLists => f.write_str("refused 14, batch lists"),
            Refusal::AuditLists => f.write_str("refused 15, audit lists"),
            Refusal::NoRoot => f.write_str("refused 16, no usable stage 2 root"),
            Refusal::CoreFile => f.write_str("refused 17, core file"),
        }
    }
}

impl fmt::Display for Shown<Answer> {
    fn fmt<W: fmt::Write>(&self, f: &mut fmt::Formatter<W>) -> fmt::Result {
        match self.0 {
            Answer::Translated { to, reads } => write!(f, "{}, reads {reads}", Shown(to)),
            Answer::Fault { fault, reads } => write!(f, "{}, reads {reads}", Shown(fault)),
            Answer::Misaligned { stage, reads } => {
                write!(f, "alignment fault, {}, reads {reads}", Shown(stage))
            }
            Answer::Absent { missing, reads } => write!(f, "{}, reads {reads}", Shown(missing)),
            Answer::Unsettled { open, reads } => write!(f, "{}, reads {reads}", Shown(open)),
        }
    }
}

impl fmt::Display for Shown<Ledger> {
    fn fmt<W: fmt::Write>(&self, f: &mut fmt::Formatter<W>) -> fmt::Result {
        let mut buffer = [0u8; 160];
        let line = line::write_line(self.0, &mut buffer).and_then(|n| buffer.get(..n));
        match line.and_then(|line| str::from_utf8(line).ok()) {
            Some(line) => f.write_str(line),
            None => f.write_str("no room for the line"),
        }
    }
}

impl fmt::Display for Shown<FindingKind> {
    fn fmt<W: fmt::Write>(&self, f: &mut fmt::Formatter<W>) -> fmt::Result {
        f.write_str(match self.0 {
            FindingKind::NotCaptured => "finding 1, table not whole in the capture",
            FindingKind::TouchesGrant => "finding 2, table touches a grant",
            FindingKind::UnlistedTable => "finding 3, next table not listed one level lower down",
            FindingKind::OutsideGrants => "finding 4, leaf's range not inside one grant",
        })
    }
}

impl fmt::Display for Shown<Finding> {
    fn fmt<W: fmt::Write>(&self, f: &mut fmt::Formatter<W>) -> fmt::Result {
        let Finding { kind, address } = self.0;
        write!(f, "{}: {address:#x}", Shown(kind))
    }
}

impl fmt::Display for Shown<Option<Finding>> {
    fn fmt<W: fmt::Write>(&self, f: &mut fmt::Formatter<W>) -> fmt::Result {
        match self.0 {
            None => f.write_str("clean"),
            Some(finding) => write!(f, "{}", Shown(finding)),
        }
    }
}

// What a call is told.
impl<T: Copy> fmt::Display for Shown<Result<T, Refusal>>
where
    Shown<T>: fmt::Display,
{
    fn fmt<W: fmt::Write>(&self, f: &mut fmt::Formatter<W>) -> fmt::Result {
        match self.0 {
            Ok(answer) => write!(f, "{}", Shown(answer)),
            Err(why) => write!(f, "{}", Shown(why)),
        }
    }
}

// The addresses read, up to the first word that a question left as it was, zero.
#[derive(Clone, Copy)]
pub(crate) struct Reads<'a>(pub(crate) &'a [u64]);

impl<'a> fmt::Display for Reads<'a> {
    fn fmt<W: fmt::Write>(&self, f: &mut fmt::Formatter<W>) -> fmt::Result {
        f.write_str(" |")?;
        for address in self.0.iter().take_while(|&&address| address != 0) {
            write!(f, " {address:#x}")?;
        }
        Ok(())
    }
}
