// Searches by a test of indices, one for every place that looks for the lowest index or asks about each.
#![tactic(auto)]

ghost use Rattle.std.specs.Prelude.{◌≡◌, ◌<◌, ℕ, Bool};
ghost use Rattle.whole.specs.Lowest.{lowest_if, every};

/// The lowest index below n that passes the test.
pub fn lowest_where<F: Fn(usize) -> bool>(n: usize, test: F) -> Option<usize>
    requires { (k : ℕ) → k < n → F.pre test k }
    ensures { (t : ℕ → Bool) → ((k : ℕ) → k < n → (b : Bool) → F.post test k b → b ≡ t k) → result ≡ lowest_if t n }
{
    for k in 0..n {
        if test(k) {
            return Some(k);
        }
    }
    None
}

/// Whether each index below n passes the test.
pub fn every<F: Fn(usize) -> bool>(n: usize, test: F) -> bool
    requires { (k : ℕ) → k < n → F.pre test k }
    ensures { (t : ℕ → Bool) → ((k : ℕ) → k < n → (b : Bool) → F.post test k b → b ≡ t k) → result ≡ every t n }
{
    for k in 0..n {
        if !test(k) {
            return false;
        }
    }
    true
}
