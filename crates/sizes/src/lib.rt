// Document 01's sizes: which rates are taken, and how long a history a filter needs.
// It works out nothing about a rate, and refuses nothing: callers ask, and decide.
#![tactic(auto)]

ghost use Rattle.std.specs.Prelude.{◌≡◌, ◌≤◌};
ghost use Rattle.sizes.specs.Sizes.{in_limits, history_needed, max_history};

// buffer_size: how many entries a history has beyond the n - 1 that a filter of length n keeps.
// The house row's base length is 160 too, and has nothing to do with it.
pub const BUFFER_SIZE: u32 = 160;

// The longest history that any two rates in limits need.
pub const MAX_HISTORY: u32 = 7839;

// Whether a rate is from 4,000 to 192,000 Hz, both ends included.
pub fn in_limits(rate: u32) -> bool
    ensures { result ≡ in_limits rate }
{
    4000 <= rate && rate <= 192000
}

// How long a history a filter of this length needs: at most 7,839, which is asked for.
pub fn history_needed(filt_len: u32) -> u32
    requires { (1 ≤ filt_len) × (history_needed filt_len ≤ max_history) }
    ensures { result ≡ history_needed filt_len }
{
    filt_len - 1 + BUFFER_SIZE
}
