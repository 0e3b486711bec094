// Document 01's limits, put to the judges, and its closed totals, put to `closed_total`. What the lines
// answer was worked out from document 01 by hand.
//
// Calls as long as the longest are judged here and not made: no judge looks at a sample.
use crate::rated::process_verdict;
use crate::text;
use judge::Refusal;
use quality::QualityMapping;
use recording::TotalError;
use resampler::{Consumed, Written};
use state::ResamplerState;

// What a line answers: the first letter of a word, and a number.
#[derive(Clone, Copy)]
struct Answered {
    letter: u8,
    number: u64,
}

impl Answered {
    // Whether the line refuses, with this refusal's number.
    fn is_refusal(self, refusal: Refusal) -> bool {
        (self.letter == b'r') & (self.number == u64::from(refusal.number()))
    }

    fn is_verdict(self, verdict: Result<(), Refusal>) -> bool {
        match verdict {
            Ok(()) => (self.letter == b'a') & (self.number == 0),
            Err(refusal) => self.is_refusal(refusal),
        }
    }

    fn is_total(self, total: Result<Written, TotalError>) -> bool {
        match total {
            Ok(written) => (self.letter == b't') & (self.number == written.0),
            Err(TotalError::Refused(refusal)) => self.is_refusal(refusal),
            Err(TotalError::TooMany) => (self.letter == b'm') & (self.number == 0),
        }
    }
}

// Whether a rate is set on a new state, with a history and coefficients of these lengths.
fn rate_verdict(source: u32, target: u32, mem_len: usize, coefs_len: usize) -> Result<(), Refusal> {
    let state = ResamplerState::fresh(target);
    judge::judge_rate(QualityMapping::house(), state, source, mem_len, coefs_len)
}

// Whether a question has this answer. A question that there is not has none. By its letter, as the line has
// it: closures would be picked by the same letters.
fn is_answer(
    question: u8,
    source: u32,
    target: u32,
    first: u64,
    second: u64,
    answered: Answered,
) -> bool {
    if question == b'c' {
        let total = recording::closed_total(Consumed(first), source, target);
        return answered.is_total(total);
    }
    let verdict = match question {
        b'n' => judge::judge_new(target),
        b'r' => rate_verdict(source, target, first as usize, second as usize),
        b'p' => process_verdict(source, target, first as usize, second as usize),
        _ => return false,
    };
    answered.is_verdict(verdict)
}

// A question, source and target rate, two lengths, and the answer as a word and a number. Told by its
// first letter, a question is one of these:
//
//     new     ...... TTTTTT ............. ........ a new state
//     rate    SSSSSS TTTTTT HHHHHHHHHHHHH CCCCCCCC setting a rate, with a history and coefficients so long
//     process SSSSSS TTTTTT IIIIIIIIIIIII OOOOOOOO a call, with an input and an output so long
//     closed  SSSSSS TTTTTT IIIIIIIIIIIII ........ a closed recording of so many samples
pub fn is_right(line: &[u8]) -> bool {
    is_answer(
        text::byte_at(line, 0),
        text::small_number(line, 8, 14, 10),
        text::small_number(line, 15, 21, 10),
        text::number(line, 22, 35, 10),
        text::number(line, 36, 44, 10),
        Answered {
            letter: text::byte_at(line, 45),
            number: text::number(line, 54, 66, 10),
        },
    )
}
