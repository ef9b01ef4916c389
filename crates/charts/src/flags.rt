// The flags of all objects in eight words, one a flag: the set of the objects whose flag it is that is up.
ghost use Rattle.std.specs.Prelude.{cond, ◌≡◌, ℕ, ◌≤◌, ◌<◌, eqb};
ghost use Rattle.bits.specs.Members.{members, put, width};
ghost use Rattle.chart.specs.Flags.{all_down, in_words};
ghost use Rattle.chart.specs.Numbers.{most_flag};
ghost use Rattle.chart.specs.declared.read.Edition.TheVariants.{Guarded};

use numbers::FLAGS;

// Whether flag f of object p is up.
pub fn is_up(up: &[u64; FLAGS], p: usize, f: usize) -> bool
    requires { (p < width) × (1 ≤ f) × (f ≤ most_flag Guarded) }
    ensures { result ≡ in_words up.now p f }
{
    bits::has(up[f - 1], p)
}

// The set with p or without it.
fn changed(w: u64, p: usize, value: bool) -> u64
    requires { p < width }
    ensures { members result ≡ put p value (members w) }
{
    if value {
        bits::with(w, p)
    } else {
        bits::without(w, p)
    }
}

// Flag f of object p is set or cleared.
pub fn set(up: &mut [u64; FLAGS], p: usize, f: usize, value: bool)
    requires { (p < width) × (1 ≤ f) × (f ≤ most_flag Guarded) }
    ensures { in_words up.new ≡ (λ (x : ℕ). cond (eqb x p) (put f value (in_words up.old p)) (in_words up.old x)) }
{
    up[f - 1] = changed(up[f - 1], p, value);
}

// All flags of object p are cleared.
pub fn lower_all(up: &mut [u64; FLAGS], p: usize)
    requires { p < width }
    ensures { in_words up.new ≡ (λ (x : ℕ). cond (eqb x p) all_down (in_words up.old x)) }
{
    for word in up.iter_mut() {
        *word = bits::without(*word, p);
    }
}
