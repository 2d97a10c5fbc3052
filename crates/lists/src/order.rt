// The rule of a list whose entries are pairs of words, and the test that a list keeps it: for grants and for tables alike.
ghost use Rattle.std.specs.Prelude.{◌≡◌, true, Bool, ℕ, ◌&&◌, length, leb, eqb};
ghost use Rattle.lists.specs.Lists.{zip, all, ascends};

// Which entries fit, and which may stand before which.
pub(crate) trait Rule {
    // The entries that a list may have.
    const MOST: usize;

    ghost MOST: { ℕ };

    ghost fitting: { Self → ℕ × ℕ → Bool };

    ghost leading: { ℕ × ℕ → ℕ × ℕ → Bool };

    fn fits(&self, entry: (u64, u64)) -> bool
        ensures { result ≡ fitting self.now entry };

    // An entry that fits may stand before the next.
    fn leads(&self, entry: (u64, u64), next: (u64, u64)) -> bool
        requires { fitting self.now entry ≡ true }
        ensures { result ≡ leading entry next };
}

// Each pair fits, and leads the one after it.
fn in_order<R: Rule>(rule: &R, firsts: &[u64], seconds: &[u64]) -> bool
    ensures { result ≡ (all (R.fitting rule.now) (zip firsts.now seconds.now) && ascends R.leading (zip firsts.now seconds.now)) }
{
    let mut last: Option<(u64, u64)> = None;
    for (first, second) in firsts.iter().zip(seconds) {
        let entry = (*first, *second);
        if !rule.fits(entry) {
            return false;
        }
        if let Some(before) = last {
            if !rule.leads(before, entry) {
                return false;
            }
        }
        last = Some(entry);
    }
    true
}

// Two lists of one length, with no more entries than they may have, in the order of a rule.
pub(crate) fn keeps<R: Rule>(rule: &R, firsts: &[u64], seconds: &[u64]) -> bool
    ensures { result ≡ (eqb (length firsts.now) (length seconds.now) && leb (length firsts.now) R.MOST && all (R.fitting rule.now) (zip firsts.now seconds.now) && ascends R.leading (zip firsts.now seconds.now)) }
{
    if firsts.len() != seconds.len() {
        return false;
    }
    if R::MOST < firsts.len() {
        return false;
    }
    in_order(rule, firsts, seconds)
}
