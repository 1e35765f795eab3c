// A lane of words to which another is added, or from which it is taken off, cell by cell and modulo 2^32.
#![tactic(auto)]

ghost use Rattle.std.specs.Prelude.{◌≡◌, ℕ, ◌<◌, length, slice_index};
ghost use Rattle.sums.specs.Sums.{plus, minus, combined_words};

// Each word becomes what the step makes of it and of the other lane's word in its cell.
fn combine<F: Fn(u32, u32) -> u32>(to: &mut [u32], from: &[u32], step: F)
    requires { (own : ℕ) (x : ℕ) → F.pre step own x }
    ensures other { ¬ (length to.old ≡ length from.now) → to.new ≡ to.old }
    ensures each { length to.old ≡ length from.now → (i : ℕ) → i < length to.old → F.post step (slice_index to.old i) (slice_index from.now i) (slice_index to.new i) }
{
    if to.len() != from.len() {
        return;
    }
    for (i, own) in to.iter_mut().enumerate() {
        *own = step(*own, from[i]);
    }
}

// The other lane is added.
pub fn add(to: &mut [u32], from: &[u32])
    ensures { to.new ≡ combined_words plus to.old from.now }
{
    combine(to, from, |own, x| own.wrapping_add(x));
}

// It is taken off.
pub fn subtract(to: &mut [u32], from: &[u32])
    ensures { to.new ≡ combined_words minus to.old from.now }
{
    combine(to, from, |own, x| own.wrapping_sub(x));
}

// The other lane's words in place of its own, where both are as long.
pub fn take(to: &mut [u32], from: &[u32])
    ensures { to.new ≡ combined_words (λ own x. x) to.old from.now }
{
    combine(to, from, |_, x| x);
}

// One lane is added and another taken off, in one pass where both are as long; else what add and subtract would leave.
pub fn balance(to: &mut [u32], more: &[u32], less: &[u32])
    ensures { to.new ≡ combined_words minus (combined_words plus to.old more.now) less.now }
{
    let n = to.len();
    if n != more.len() {
        subtract(to, less);
        return;
    }
    if n != less.len() {
        add(to, more);
        return;
    }
    for (i, own) in to.iter_mut().enumerate() {
        *own = own.wrapping_add(more[i]).wrapping_sub(less[i]);
    }
}
