// Tables of the audit: whether each is whole in the capture and off the grants, and what its entries say.
ghost use Rattle.std.specs.Prelude.{◌≡◌, ℕ, ◌+◌, ◌-◌, ◌*◌, ◌^◌, ◌≤◌, ◌<◌, ◌&&◌, leb};
ghost use Rattle.capture.specs.Capture.{kept};
ghost use Rattle.descriptor.specs.Entry.{shift, descriptor_type};
ghost use Rattle.walk.specs.Calls.{Small};
ghost use Rattle.audit.specs.Audit as Audits;
ghost use Rattle.audit.specs.Calls as Calls;

use crate::{Finding, FindingKind};
use capture::Part;
use capture::view::Parts;
use descriptor::entry;
use descriptor::entry::{DescriptorType, Geometry};
use lists::Lists;
use reads::Memory;
use walk::table::Table;

// A shift with a name: its contract tells callers' proofs which power of 2 it is.
fn two_to(j: u64) -> u64
    requires { j < 64 }
    ensures { result ≡ 2 ^ j }
{
    1 << j
}

// A part has all of some bytes from an address on. No sum wraps.
fn has(p: Part, from: u64, bytes: u64) -> bool
    ensures { result ≡ (leb p.address from && leb (from + bytes) (p.address + kept p)) }
{
    let kept = p.kept();
    if p.address <= from && from - p.address <= kept {
        bytes <= kept - (from - p.address)
    } else {
        false
    }
}

// The first finding among some entries from an address on, ascending. The address goes beside the count: worked out from it, it would take
// one register more, which the searches of the lists then lack.
fn each_entry<F: Fn(u64) -> Result<(), Finding>>(
    entries: u64,
    table: u64,
    says: F,
) -> Result<(), Finding>
    ghost finds: { ℕ → Audits.AuditAnswer }
    requires fits { table + 8 * entries < 2 ^ 64 }
    requires callable { F.IsAlwaysCallable says }
    requires means { (at : ℕ) (r : _) → at < 2 ^ 64 → F.post says at r → Calls.answered r ≡ finds at }
    ensures { Calls.answered result ≡ Audits.each_entry finds entries table }
{
    let mut at = table;
    for i in 0..entries {
        says(at)?;
        at += 8;
    }
    Ok(())
}

// What tables are judged by: the memory that they are read from, and the lists.
#[derive(Clone, Copy)]
struct Auditor<'a> {
    memory: Parts<'a>,
    lists: Lists<'a>,
}

impl Auditor<'_> {
    // What the entry x at an address says, with n levels below it: its next table is listed one level on, or its range is inside a grant.
    fn examine(&self, g: Geometry, n: u64, at: u64, x: u64) -> Result<(), Finding>
        requires { (n ≤ 3) × (shift g n < 48) }
        ensures { Calls.answered result ≡ Audits.examine_as g (Calls.grants_in self.now.lists) (Calls.tables_in self.now.lists) n at x (descriptor_type g n x) }
    {
        match entry::descriptor_type(g, n, x) {
            DescriptorType::Invalid => Ok(()),
            DescriptorType::Table => {
                let next = bits::upper(x, g.grainsize);
                if self.lists.tables.is_listed(next, 4 - n) {
                    Ok(())
                } else {
                    Err(FindingKind::UnlistedTable.at(at))
                }
            }
            DescriptorType::Leaf => {
                let t = g.grainsize + g.stride * n;
                if self.lists.grants.granted(bits::upper(x, t), two_to(t)) {
                    Ok(())
                } else {
                    Err(FindingKind::OutsideGrants.at(at))
                }
            }
        }
    }

    // What lies at an entry's address says; an absent descriptor nothing.
    fn entry_says(&self, g: Geometry, n: u64, at: u64) -> Result<(), Finding>
        requires { (n ≤ 3) × (shift g n < 48) }
        ensures { Calls.answered result ≡ Calls.entry_says (Calls.found_in self.now.memory) g (Calls.grants_in self.now.lists) (Calls.tables_in self.now.lists) n at }
    {
        match self.memory.read(at) {
            None => Ok(()),
            Some(x) => self.examine(g, n, at, x),
        }
    }

    // Whether an entry of a table is in the capture.
    fn entry_lies(&self, table: u64, at: u64) -> Result<(), Finding>
        ensures { Calls.answered result ≡ Calls.entry_lies (Calls.found_in self.now.memory) table at }
    {
        match self.memory.read(at) {
            None => Err(FindingKind::NotCaptured.at(table)),
            Some(_) => Ok(()),
        }
    }

    // Whether all entries of a table are in the capture. Of a table that the part in front has, as it mostly does, one test tells it.
    fn whole(&self, entries: u64, table: u64) -> Result<(), Finding>
        requires { table + 8 * entries < 2 ^ 64 }
        ensures { Calls.answered result ≡ Audits.each_entry (Calls.entry_lies (Calls.found_in self.now.memory) table) entries table }
    {
        if has(self.memory.front.part, table, 8 * entries) {
            return Ok(());
        }
        each_entry(entries, table, |at| self.entry_lies(table, at))
    }

    // One table: finding 1, then 2, then the entries'.
    fn one_table(&self, table: Table) -> Result<(), Finding>
        requires { Small table }
        ensures { Calls.answered result ≡ Audits.audit_table (Calls.found_in self.now.memory) table.geometry (Calls.grants_in self.now.lists) (Calls.tables_in self.now.lists) (table.levels - 1) table.bits table.base }
    {
        let Table {
            geometry,
            levels,
            bits,
            base,
        } = table;
        let entries = two_to(bits);
        self.whole(entries, base)?;
        if self.lists.grants.touches(base, 8 * entries) {
            return Err(FindingKind::TouchesGrant.at(base));
        }
        let n = levels - 1;
        // A copy, so that what entries are judged by is not read through self at each.
        let auditor = *self;
        each_entry(entries, base, |at| auditor.entry_says(geometry, n, at))
    }

    // Each listed table, with all of the granule's entries.
    fn listed_tables(&self, geometry: Geometry) -> Result<(), Finding>
        requires { (geometry.grainsize ≤ 16) × (geometry.stride ≤ 13) × (1 ≤ geometry.block) }
        ensures { Calls.answered result ≡ Audits.audit_listed (Calls.found_in self.now.memory) geometry (Calls.grants_in self.now.lists) (Calls.tables_in self.now.lists) (Calls.tables_in self.now.lists) }
    {
        let tables = self.lists.tables;
        for (table, level) in tables.addresses.iter().zip(tables.levels) {
            self.one_table(Table {
                geometry,
                levels: 4 - *level,
                bits: geometry.stride,
                base: *table,
            })?;
        }
        Ok(())
    }
}

// The root with all its entries, and then each listed table.
pub(crate) fn from_root(memory: Parts, lists: Lists, root: Table) -> Result<(), Finding>
    requires { Small root }
    ensures { Calls.answered result ≡ Audits.audit_from (Calls.found_in memory.entry) (Calls.grants_in lists.entry) (Calls.tables_in lists.entry) (Ok root) }
{
    let auditor = Auditor { memory, lists };
    auditor.one_table(root)?;
    auditor.listed_tables(root.geometry)
}
