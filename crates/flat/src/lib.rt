// The flat twins: what crosses to C and back. An enum does not cross, nor a struct that holds one, so a
// kernel is its number there, and a refusal too. `proofs/Twins.antt` proves that nothing is lost on the way.
//
// A flat state may hold any numbers. A kernel above 2 is the one thing in it that no state can hold.
#![tactic(auto)]

ghost use Rattle.std.specs.Prelude.{◌≡◌, ◌≤◌, true, false, IsTrue, OkIff};
ghost use Rattle.judge.specs.Refusals.{max_call};
ghost use Rattle.resampler.specs.Answers.{told};
ghost use Rattle.recording.specs.Totals.{total_told};
ghost use Rattle.flat.specs.Flat.{kernel_at, flat_of, state_of, is_state, flat_told, no_state, flat_total, no_sizes};

use judge::Refusal;
use rates::Kernel;
use recording::TotalError;
use resampler::{Answer, Written};
use state::ResamplerState;

// The highest number that a kernel has.
const LAST_KERNEL: u32 = 2;

// What more samples than `closed_total` takes get. Document 01 has no number for it, so this one is far from
// those that it has.
const TOO_MANY: u32 = 100;

// The four structs as far as `FlatSizes` are C's, as `include/marshdeck.h` has them: `refusal` stays a number.

// A state, field by field; the kernel is 0 for none, 1 direct, 2 interpolated.
#[repr(C)]
#[derive(Clone, Copy)]
pub struct FlatState {
    pub target: u32,
    pub source: u32,
    pub num: u32,
    pub den: u32,
    pub filt_len: u32,
    pub mem_alloc_size: u32,
    pub buffer_size: u32,
    pub int_advance: u32,
    pub frac_advance: u32,
    pub cutoff: f32,
    pub oversample: u32,
    pub started: u32,
    pub kernel: u32,
    pub last_sample: u32,
    pub samp_frac_num: u32,
    pub magic_samples: u32,
}

// What a call answers: a refusal's number, 0 where it is accepted, the counts, and the state.
#[repr(C)]
#[derive(Clone, Copy)]
pub struct FlatAnswer {
    pub refusal: u32,
    pub consumed: u32,
    pub written: u32,
    pub state: FlatState,
}

// A closed total: a refusal's number, 0 where there is a total.
#[repr(C)]
#[derive(Clone, Copy)]
pub struct FlatTotal {
    pub refusal: u32,
    pub total: u64,
}

// How long the history has to be, and how many coefficients there are; a refusal's number, else 0.
#[repr(C)]
#[derive(Clone, Copy)]
pub struct FlatSizes {
    pub refusal: u32,
    pub history: u32,
    pub coefficients: u32,
}

// That no state has these numbers: no kernel has the number that stands for one among them.
#[derive(Clone, Copy, PartialEq, Eq)]
pub struct NoState;

// The kernel with this number; one above 2 is not asked for.
// No `TryFrom`: `state_of` answers for every number.
fn kernel_at(number: u32) -> Kernel
    ensures { result ≡ kernel_at number }
{
    match number {
        0 => Kernel::Unset,
        1 => Kernel::Direct,
        _ => Kernel::Interpolated,
    }
}

// The state with these numbers, for a kernel above 2 too. `try_from` asks first whether there is one. Here
// and in `from` field by field: C's struct is another type.
pub fn state_of(flat: FlatState) -> ResamplerState
    ensures { result ≡ state_of flat }
{
    ResamplerState {
        target: flat.target,
        source: flat.source,
        num: flat.num,
        den: flat.den,
        filt_len: flat.filt_len,
        mem_alloc_size: flat.mem_alloc_size,
        buffer_size: flat.buffer_size,
        int_advance: flat.int_advance,
        frac_advance: flat.frac_advance,
        cutoff: flat.cutoff,
        oversample: flat.oversample,
        started: flat.started,
        kernel: kernel_at(flat.kernel),
        last_sample: flat.last_sample,
        samp_frac_num: flat.samp_frac_num,
        magic_samples: flat.magic_samples,
    }
}

impl TryFrom<FlatState> for ResamplerState {
    type Error = NoState;

    ghost try_from_gives = { λ flat result. OkIff result (IsTrue (is_state flat)) (state_of flat) };

    fn try_from(flat: FlatState) -> Result<ResamplerState, NoState> {
        if flat.kernel > LAST_KERNEL {
            return Err(NoState);
        }
        Ok(state_of(flat))
    }
}

// The numbers of a state.
impl From<ResamplerState> for FlatState {
    ghost from_gives = { λ state flat. flat ≡ flat_of state };

    fn from(state: ResamplerState) -> FlatState {
        FlatState {
            target: state.target,
            source: state.source,
            num: state.num,
            den: state.den,
            filt_len: state.filt_len,
            mem_alloc_size: state.mem_alloc_size,
            buffer_size: state.buffer_size,
            int_advance: state.int_advance,
            frac_advance: state.frac_advance,
            cutoff: state.cutoff,
            oversample: state.oversample,
            started: state.started,
            kernel: state::kernel_number(state.kernel),
            last_sample: state.last_sample,
            samp_frac_num: state.samp_frac_num,
            magic_samples: state.magic_samples,
        }
    }
}

// The answer where no state has these numbers: refusal 7, and the numbers as they were given.
pub fn no_state(flat: FlatState) -> FlatAnswer
    ensures { result ≡ no_state flat }
{
    FlatAnswer {
        refusal: Refusal::State.number(),
        consumed: 0,
        written: 0,
        state: flat,
    }
}

// What an answer tells. A call reads and writes at most 16,777,216 samples, so no count is cut.
// No `From`: that both counts fit is asked for, and a `From` asks for nothing.
pub fn flat_answer(answer: Answer) -> FlatAnswer
    requires { ((told answer).consumed ≤ max_call) × ((told answer).written ≤ max_call) }
    ensures { result ≡ flat_told (told answer) }
{
    match answer {
        Ok(accepted) => FlatAnswer {
            refusal: 0,
            consumed: accepted.consumed.0 as u32,
            written: accepted.written.0 as u32,
            state: accepted.state.into(),
        },
        Err(refused) => FlatAnswer {
            refusal: refused.refusal.number(),
            consumed: 0,
            written: 0,
            state: refused.state.into(),
        },
    }
}

// The answer of a call on the state with these numbers; where no state has them, the call is not made.
// It is lent, so that a caller knows of its slices that a call that is not made leaves them.
// It stands here since it asks that the counts fit: no function of `capi` asks for anything.
pub fn called<F: FnMut(ResamplerState) -> Answer>(flat: FlatState, call: &mut F) -> FlatAnswer
    requires callable { (s : _) → F.pre call.old s }
    requires fits { (s after : _) → (a : _) → F.step call.old s a after
        → ((told a).consumed ≤ max_call) × ((told a).written ≤ max_call) }
    ensures none { is_state flat ≡ false → (result ≡ no_state flat) × (call.new ≡ call.old) }
    ensures made { is_state flat ≡ true → (a : _) × F.step call.old (state_of flat) a call.new
        × (result ≡ flat_told (told a)) }
{
    let Ok(state) = ResamplerState::try_from(flat) else {
        return no_state(flat);
    };
    flat_answer(call(state))
}

// What a total tells.
impl From<Result<Written, TotalError>> for FlatTotal {
    ghost from_gives = { λ total flat. flat ≡ flat_total (total_told total) };

    fn from(total: Result<Written, TotalError>) -> FlatTotal {
        match total {
            Ok(written) => FlatTotal {
                refusal: 0,
                total: written.0,
            },
            Err(TotalError::Refused(refusal)) => FlatTotal {
                refusal: refusal.number(),
                total: 0,
            },
            Err(TotalError::TooMany) => FlatTotal {
                refusal: TOO_MANY,
                total: 0,
            },
        }
    }
}

// The sizes where a rate is out of limits: refusal 1, and none.
pub fn no_sizes() -> FlatSizes
    ensures { result ≡ no_sizes }
{
    FlatSizes {
        refusal: Refusal::Rate.number(),
        history: 0,
        coefficients: 0,
    }
}
