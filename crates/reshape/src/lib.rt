// What a change of the filter's length makes of the history and of the magic samples.
//
// It knows lengths and samples only: whether a rate may be set, and to what, is decided above. It
// asks that the numbers fit the lent slice, which a state that belongs together always does.
#![tactic(auto)]

ghost use Rattle.std.specs.Prelude.{◌≡◌, ◌+◌, ◌*◌, ◌≤◌, ◌<◌, length};
ghost use Rattle.reshape.specs.Reshaped.{raised, longer, longer_magic, shorter, shorter_magic, reshaped_history, reshaped_magic, ChangeFits};

// A change of rate, as the history sees it: 0 where no round ever ran, the history's length before and
// after, the filter's length before and after, and the magic samples before.
// `started` is a number, any but 0 where a round ran: so the state has it, and so C does.
#[derive(Clone, Copy)]
pub struct Change {
    pub started: usize,
    pub old_alloc_size: usize,
    pub mem_alloc_size: usize,
    pub old_length: usize,
    pub filt_len: usize,
    pub magic_samples: usize,
}

// The first count entries go up by `by` places, and those below become 0.0. By numbers, as in `history`.
fn raise(mem: &mut [f32], by: usize, count: usize)
    requires { by + count ≤ length mem.old }
    ensures { mem.new ≡ raised mem.old by count }
{
    history::move_within(mem, 0, by, count);
    history::fill_zero(mem, 0, by);
}

// A longer filter. Answers the new number of magic samples.
fn lengthen(mem: &mut [f32], change: Change) -> usize
    requires { (0 < change.old_length) × (change.old_length ≤ change.filt_len) × (change.old_length + 2 * change.magic_samples ≤ length mem.old) × (change.filt_len ≤ length mem.old) }
    ensures { (result ≡ longer_magic change.old_length change.filt_len change.magic_samples) × (mem.new ≡ longer mem.old change.old_length change.filt_len change.magic_samples) }
{
    let n = change.filt_len;
    let m = change.magic_samples;
    raise(mem, m, change.old_length - 1);
    let e = change.old_length + 2 * m;
    if e < n {
        raise(mem, n - e, e - 1);
        return 0;
    }
    let p = (e - n) / 2;
    history::move_within(mem, p, 0, n - 1 + p);
    p
}

// A shorter filter. Answers the new number of magic samples.
fn shorten(mem: &mut [f32], change: Change) -> usize
    requires { (0 < change.filt_len) × (change.filt_len ≤ change.old_length) × (change.old_length + 2 * change.magic_samples ≤ length mem.old) }
    ensures { (result ≡ shorter_magic change.old_length change.filt_len change.magic_samples) × (mem.new ≡ shorter mem.old change.old_length change.filt_len change.magic_samples) }
{
    let n = change.filt_len;
    let m = change.magic_samples;
    let s = (change.old_length - n) / 2;
    history::move_within(mem, s, 0, n - 1 + s + m);
    m + s
}

// The history over a change of rate. Answers the new number of magic samples. Where the length
// grows, the entries gained become 0.0 first, whatever the lent slice held.
pub fn reshape_history(mem: &mut [f32], change: Change) -> usize
    requires { ChangeFits (length mem.old) change }
    ensures { (result ≡ reshaped_magic change) × (mem.new ≡ reshaped_history mem.old change) }
{
    let alloc = change.mem_alloc_size;
    history::fill_zero(mem, change.old_alloc_size, alloc - change.old_alloc_size);
    if change.started == 0 {
        history::fill_zero(mem, 0, alloc);
        return change.magic_samples;
    }
    if change.old_length < change.filt_len {
        return lengthen(mem, change);
    }
    if change.filt_len < change.old_length {
        return shorten(mem, change);
    }
    change.magic_samples
}
