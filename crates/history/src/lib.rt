// Copies, moves and zeros inside one lent history.
//
// Each function reads every entry as it was before that call, so a move may overlap itself, and its
// contract gives the whole slice at exit: what is not named stays. Each asks that its entries lie
// within the slice; the callers prove it, and nothing is tested at run time. Places and counts stand beside
// the slice, since what is promised is the whole of it (docs/CLAIMS.md, "copies read values as they were").
#![tactic(auto)]

ghost use Rattle.std.specs.Prelude.{◌≡◌, ◌+◌, ◌≤◌, length, drop};
ghost use Rattle.std.proofs.Math.Seq.{paste};
ghost use Rattle.history.specs.Zeroed.{zeroed};

// The entries from `to` on take the samples, as many as are lent.
pub fn copy_in(mem: &mut [f32], to: usize, samples: &[f32])
    requires { to + length samples.now ≤ length mem.old }
    ensures { mem.new ≡ paste mem.old to samples.now (length samples.now) }
{
    // Tried: `copy_from_slice`; after a C library's memmove interpolated outputs are a seventh slower.
    for i in 0..samples.len() {
        mem[to + i] = samples[i];
    }
}

// The count entries from `to` on take what those from `from` on were, whichever lies above the other.
pub fn move_within(mem: &mut [f32], from: usize, to: usize, count: usize)
    requires { (from + count ≤ length mem.old) × (to + count ≤ length mem.old) }
    ensures { mem.new ≡ paste mem.old to (drop from mem.old) count }
{
    mem.copy_within(from..from + count, to);
}

// The count entries from `at` on become 0.0.
pub fn fill_zero(mem: &mut [f32], at: usize, count: usize)
    requires { at + count ≤ length mem.old }
    ensures { mem.new ≡ zeroed mem.old at count }
{
    mem[at..at + count].fill(0.0);
}
