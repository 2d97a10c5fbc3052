// The audit's lists: grants (address, byte count) and tables (address, level), each as two lists of words (01, The audit).
#![tactic(auto)]

ghost use Rattle.std.specs.Prelude.{◌≡◌, true, false, ◌+◌, ◌^◌, ◌<◌, leb, MatchOption};
ghost use Rattle.lists.specs.Lists as Formed;

mod order;
pub mod search;

use order::Rule;
use search::{Grants, Tables};

// The grants and the tables that an audit may have.
pub const MOST_GRANTS: usize = 256;

pub const MOST_TABLES: usize = 1024;

fn is_multiple(n: u64, size: u64) -> bool
    requires { 0 < size }
    ensures { result ≡ Formed.is_multiple n size }
{
    n % size == 0
}

fn whole_frames(n: u64) -> bool
    ensures { result ≡ Formed.whole_frames n }
{
    is_multiple(n, 4096)
}

// n bytes from an address end by 2^48. No sum wraps.
fn ends_low(address: u64, n: u64) -> bool
    ensures { result ≡ leb (address + n) (2 ^ 48) }
{
    let top = 0x1_0000_0000_0000;
    if address <= top {
        n <= top - address
    } else {
        false
    }
}

// Grants are whole frames below 2^48, with a gap between one and the next.
#[derive(Drop)]
pub(crate) struct GrantRule;

impl Rule for GrantRule {
    const MOST: usize = MOST_GRANTS;

    ghost MOST = { Formed.most_grants };

    ghost fitting = { λ rule. Formed.grant_fits };

    ghost leading = { Formed.grant_before };

    fn fits(&self, (address, count): (u64, u64)) -> bool {
        whole_frames(address) & whole_frames(count) & (4096 <= count) & ends_low(address, count)
    }

    fn leads(&self, (address, count): (u64, u64), next: (u64, u64)) -> bool {
        address + count < next.0
    }
}

// Tables of some bytes each lie at multiples of them, at level 1 to 3, and ascend by address, then level.
#[derive(Drop)]
pub(crate) struct TableRule {
    pub(crate) size: u64,
    ghost some: { 0 < size },
}

impl Rule for TableRule {
    const MOST: usize = MOST_TABLES;

    ghost MOST = { Formed.most_tables };

    ghost fitting = { λ rule. Formed.table_fits rule.size };

    ghost leading = { Formed.table_before };

    fn fits(&self, (address, level): (u64, u64)) -> bool {
        let size = self.size;
        is_multiple(address, size) & ends_low(address, size) & (1 <= level) & (level <= 3)
    }

    fn leads(&self, (address, level): (u64, u64), next: (u64, u64)) -> bool {
        (address < next.0) | (address == next.0) & (level < next.1)
    }
}

// The four lists of an audit, all well formed.
#[derive(Clone, Copy)]
pub struct Lists<'a> {
    pub grants: Grants<'a>,
    pub tables: Tables<'a>,
}

impl<'a> Lists<'a> {
    // Lists with tables of some bytes each; nothing where they are not well formed: the audit is then refused by 15.
    pub fn new(
        size: u64,
        grants: &'a [u64],
        counts: &'a [u64],
        tables: &'a [u64],
        levels: &'a [u64],
    ) -> Option<Self>
        requires { 0 < size }
        ensures { MatchOption result (Formed.well_formed size grants.now counts.now tables.now levels.now ≡ false) (λ l. (Formed.well_formed size grants.now counts.now tables.now levels.now ≡ true) × (l.grants.addresses.now ≡ grants.now) × (l.grants.counts.now ≡ counts.now) × (l.tables.addresses.now ≡ tables.now) × (l.tables.levels.now ≡ levels.now)) }
    {
        Some(Lists {
            grants: Grants::new(grants, counts)?,
            tables: Tables::new(size, tables, levels)?,
        })
    }
}
