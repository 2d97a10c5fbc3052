// Searches of the audit's lists. Each says only whether there is what is looked for. That the lists ascend is asked for, though not
// used: a search that halves a list needs it, and so can take the place of one of these and touch no caller.
ghost use Rattle.std.specs.Prelude.{◌≡◌, true, false, ◌&&◌, ◌+◌, ◌^◌, ◌≤◌, ◌<◌, ltb, leb, eqb, ℕ, Bool, length, slice_index, MatchOption};
ghost use Rattle.std.specs.List.{list_any};
ghost use Rattle.lists.specs.Lists.{zip, grants_formed, tables_formed};
ghost use Rattle.lists.specs.Lists as Formed;
ghost use Rattle.lists.specs.Search as Search;

use crate::{GrantRule, TableRule, order};

// Grants that are well formed, by address and byte count.
#[derive(Clone, Copy)]
pub struct Grants<'a> {
    pub addresses: &'a [u64],
    pub counts: &'a [u64],
    pub ghost formed: { grants_formed addresses.now counts.now ≡ true },
}

// Tables that are well formed, of whatever size, by address and level.
#[derive(Clone, Copy)]
pub struct Tables<'a> {
    pub addresses: &'a [u64],
    pub levels: &'a [u64],
    pub ghost formed: { ∥ Formed.Tables addresses.now levels.now ∥₁ },
}

// A grant has all bytes from an address up to an end.
fn surrounds(grant: u64, count: u64, address: u64, end: u64) -> bool
    requires { grant + count ≤ 2 ^ 48 }
    ensures { result ≡ (leb grant address && leb end (grant + count)) }
{
    (grant <= address) & (end <= grant + count)
}

// A grant has one of them.
fn meets(grant: u64, count: u64, address: u64, end: u64) -> bool
    requires { grant + count ≤ 2 ^ 48 }
    ensures { result ≡ (ltb address (grant + count) && ltb grant end) }
{
    (address < grant + count) & (grant < end)
}

fn is_at(listed: u64, at: u64, table: u64, level: u64) -> bool
    ensures { result ≡ (eqb listed table && eqb at level) }
{
    (listed == table) & (at == level)
}

// Whether some pair of two lists of one length passes a test. By an index: a chain over both lists asks for two ends a turn, and an audit
// whose entries lead to the last table took three times as long.
fn any<F: Fn(u64, u64) -> bool>(firsts: &[u64], seconds: &[u64], passes: F) -> bool
    ghost test: { ℕ × ℕ → Bool }
    requires same { length seconds.now ≡ length firsts.now }
    requires callable { (i : ℕ) → i < length firsts.now → F.pre passes (slice_index firsts.now i) (slice_index seconds.now i) }
    requires means { (i : ℕ) (r : _) → i < length firsts.now → F.post passes (slice_index firsts.now i) (slice_index seconds.now i) r → r ≡ test (slice_index firsts.now i, slice_index seconds.now i) }
    ensures { result ≡ list_any test (zip firsts.now seconds.now) }
{
    for (i, first) in firsts.iter().enumerate() {
        if passes(*first, seconds[i]) {
            return true;
        }
    }
    false
}

impl<'a> Grants<'a> {
    // Nothing where they are not well formed.
    pub fn new(addresses: &'a [u64], counts: &'a [u64]) -> Option<Self>
        ensures { MatchOption result (grants_formed addresses.now counts.now ≡ false) (λ g. (grants_formed addresses.now counts.now ≡ true) × (g.addresses.now ≡ addresses.now) × (g.counts.now ≡ counts.now)) }
    {
        if order::keeps(&GrantRule, addresses, counts) {
            Some(Grants { addresses, counts })
        } else {
            None
        }
    }

    // n bytes from an address lie inside one grant.
    pub fn granted(&self, address: u64, n: u64) -> bool
        requires { address + n < 2 ^ 64 }
        ensures { result ≡ Search.granted (zip self.now.addresses.now self.now.counts.now) address n }
    {
        let end = address + n;
        any(self.addresses, self.counts, |grant, count| {
            surrounds(grant, count, address, end)
        })
    }

    // n bytes from an address share a byte with some grant.
    pub fn touches(&self, address: u64, n: u64) -> bool
        requires { address + n < 2 ^ 64 }
        ensures { result ≡ Search.touches (zip self.now.addresses.now self.now.counts.now) address n }
    {
        let end = address + n;
        any(self.addresses, self.counts, |grant, count| {
            meets(grant, count, address, end)
        })
    }
}

impl<'a> Tables<'a> {
    // Tables of some bytes each; nothing where they are not well formed.
    pub fn new(size: u64, addresses: &'a [u64], levels: &'a [u64]) -> Option<Self>
        requires { 0 < size }
        ensures { MatchOption result (tables_formed size addresses.now levels.now ≡ false) (λ t. (tables_formed size addresses.now levels.now ≡ true) × (t.addresses.now ≡ addresses.now) × (t.levels.now ≡ levels.now)) }
    {
        if order::keeps(&TableRule { size }, addresses, levels) {
            Some(Tables { addresses, levels })
        } else {
            None
        }
    }

    // A table is listed at a level.
    pub fn is_listed(&self, table: u64, level: u64) -> bool
        ensures { result ≡ Search.is_listed (zip self.now.addresses.now self.now.levels.now) table level }
    {
        any(self.addresses, self.levels, |listed, at| {
            is_at(listed, at, table, level)
        })
    }
}
