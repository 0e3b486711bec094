// Four outputs side by side. Document 01 fixes the order in which an output is summed, so a single
// output cannot be had faster; four of them share the reading of samples and coefficients, and none
// waits for another's sum. What comes out is `kernel::step`'s, bit for bit: each contract says so.
#![tactic(auto)]

ghost use Rattle.std.specs.Prelude.{◌≡◌, ◌+◌, ◌-◌, ◌*◌, ◌≤◌, ◌<◌, length, drop, slice_index};
ghost use Rattle.kernel.specs.Interpolated.{tap};
ghost use Rattle.abreast.specs.Within.{WindowsWithin, FourTapsWithin};
ghost use Rattle.abreast.specs.Four.{four_steps, FourReach};

use kernel::Phase::{Direct, Interpolated};
use kernel::{Phase, fold_sums, spread, step, sums_on};

// Four windows of n samples, parts of one history, by where in it each starts: none before the first
// or after the last.
#[derive(Clone, Copy)]
struct Windows<'a> {
    history: &'a [f32],
    starts: [usize; 4],
    n: usize,
    ghost within: { WindowsWithin starts n (length history.now) },
}

impl Windows<'_> {
    ghost use Rattle.abreast.specs.Rows.{four_rows, four_taps};

    // One coefficient times a sample of each window, added to the four sums.
    fn four_taps(&self, sums: [f32; 4], row: &[f32], j: usize) -> [f32; 4]
        requires { (j < self.now.n) × (j < length row.now) }
        ensures { result ≡ four_taps self.now sums row.now j }
    {
        let coef = row[j];
        [
            sums[0] + coef * self.history[self.starts[0] + j],
            sums[1] + coef * self.history[self.starts[1] + j],
            sums[2] + coef * self.history[self.starts[2] + j],
            sums[3] + coef * self.history[self.starts[3] + j],
        ]
    }

    // One row over the windows, four taps a turn: the compiler then reads each window four samples at
    // a time.
    fn rows_by_fours(&self, row: &[f32], quarters: usize) -> [f32; 4]
        requires { (quarters * 4 ≤ self.now.n) × (quarters * 4 ≤ length row.now) }
        ensures { result ≡ four_rows self.now (quarters * 4) row.now }
    {
        let mut sums: [f32; 4] = [0.0; 4];
        for turn in 0..quarters {
            let j = turn * 4;
            let one = self.four_taps(sums, row, j);
            let two = self.four_taps(one, row, j + 1);
            let three = self.four_taps(two, row, j + 2);
            let four = self.four_taps(three, row, j + 3);
            sums = four;
        }
        sums
    }

    // One row over the windows: by fours, and then the taps that are left.
    fn four_rows(&self, row: &[f32]) -> [f32; 4]
        requires { self.now.n ≤ length row.now }
        ensures { result ≡ four_rows self.now self.now.n row.now }
    {
        let quarters = self.n / 4;
        let mut sums = self.rows_by_fours(row, quarters);
        for j in quarters * 4..self.n {
            let next = self.four_taps(sums, row, j);
            sums = next;
        }
        sums
    }

    // Four outputs one after another.
    fn four_apart(&self, phases: [Phase; 4], coefs: &[f32], oversample: usize) -> [f32; 4]
        requires { FourReach phases self.now.n oversample (length coefs.now) }
        ensures { result ≡ four_steps phases self.now.n oversample coefs.now self.now.starts self.now.history.now }
    {
        let [a, b, c, d] = self.starts;
        [
            step(phases[0], &self.history[a..], coefs, self.n, oversample),
            step(phases[1], &self.history[b..], coefs, self.n, oversample),
            step(phases[2], &self.history[c..], coefs, self.n, oversample),
            step(phases[3], &self.history[d..], coefs, self.n, oversample),
        ]
    }
}

// Four interpolated outputs, each at its offset of the table of coefficients. The last window starts
// before the first ends, so some sample lies in all four.
#[derive(Clone, Copy)]
struct Overlap<'a, 'b> {
    windows: Windows<'a>,
    coefs: &'b [f32],
    oversample: usize,
    offsets: [usize; 4],
    ghost shared: { slice_index windows.starts 3 < slice_index windows.starts 0 + windows.n },
    ghost taps: { FourTapsWithin windows.n oversample offsets (length coefs.now) },
}

impl Overlap<'_, '_> {
    ghost use Rattle.abreast.specs.Interpolated.{output_sums, sums_at, all_sums, four_interpolated};

    // The four sums of output k, from those of the first `from` samples of its window on to those of
    // the first `to`.
    fn output_on(&self, k: usize, sums: [f32; 4], from: usize, to: usize) -> [f32; 4]
        requires places { (k < 4) × (from ≤ to) × (to ≤ self.now.windows.n) }
        requires sums_value { sums ≡ output_sums self.now k from }
        ensures { result ≡ output_sums self.now k to }
    {
        let start = self.windows.starts[k];
        sums_on(
            sums,
            &self.windows.history[start..],
            self.coefs,
            self.oversample,
            self.offsets[k],
            from,
            to,
        )
    }

    // The sums of the samples before the last window starts.
    fn sums_before(&self) -> [[f32; 4]; 4]
        ensures { result ≡ sums_at self.now (slice_index self.now.windows.starts 3) }
    {
        let none: [f32; 4] = [0.0; 4];
        let [a, b, c, d] = self.windows.starts;
        [
            self.output_on(0, none, 0, d - a),
            self.output_on(1, none, 0, d - b),
            self.output_on(2, none, 0, d - c),
            none,
        ]
    }

    // The coefficients from those on that the last window's first sample meets for output k.
    fn taps_on(&self, k: usize) -> &[f32]
        requires { k < 4 }
        ensures { result.now ≡ drop (tap self.now.oversample (slice_index self.now.offsets k) (slice_index self.now.windows.starts 3 - slice_index self.now.windows.starts k)) self.now.coefs.now }
    {
        let before = self.windows.starts[3] - self.windows.starts[k];
        let first = 2 + (before + 1) * self.oversample - self.offsets[k];
        &self.coefs[first..]
    }

    // The same with the samples that lie in all four windows: each is read once, and goes to all four
    // outputs.
    fn sums_within(&self, sums: [[f32; 4]; 4]) -> [[f32; 4]; 4]
        requires { sums ≡ sums_at self.now (slice_index self.now.windows.starts 3) }
        ensures { result ≡ sums_at self.now (slice_index self.now.windows.starts 0 + self.now.windows.n) }
    {
        let start = self.windows.starts[3];
        let end = self.windows.starts[0] + self.windows.n;
        let a = self.taps_on(0);
        let b = self.taps_on(1);
        let c = self.taps_on(2);
        let d = self.taps_on(3);
        let mut all = sums;
        // Tried: `let idx = j * self.oversample;` in the loop, a seventh slower.
        let mut idx = 0;
        for j in 0..end - start {
            let curr_in = self.windows.history[start + j];
            let next = [
                spread(all[0], curr_in, a, idx),
                spread(all[1], curr_in, b, idx),
                spread(all[2], curr_in, c, idx),
                spread(all[3], curr_in, d, idx),
            ];
            all = next;
            idx += self.oversample;
        }
        all
    }

    // The same with the samples after the first window's end.
    fn sums_after(&self, sums: [[f32; 4]; 4]) -> [[f32; 4]; 4]
        requires { sums ≡ sums_at self.now (slice_index self.now.windows.starts 0 + self.now.windows.n) }
        ensures { result ≡ all_sums self.now }
    {
        let n = self.windows.n;
        let [a, b, c, d] = self.windows.starts;
        [
            sums[0],
            self.output_on(1, sums[1], a + n - b, n),
            self.output_on(2, sums[2], a + n - c, n),
            self.output_on(3, sums[3], a + n - d, n),
        ]
    }

    // The four outputs.
    fn interpolate_four(&self, fracs: [f32; 4]) -> [f32; 4]
        ensures { result ≡ four_interpolated self.now fracs }
    {
        let before = self.sums_before();
        let within = self.sums_within(before);
        let all = self.sums_after(within);
        [
            fold_sums(fracs[0], all[0]),
            fold_sums(fracs[1], all[1]),
            fold_sums(fracs[2], all[2]),
            fold_sums(fracs[3], all[3]),
        ]
    }
}

// Four outputs, of windows that start at these places of the history. Side by side where all are of one
// direct row, as every output is with den 1, and where all are interpolated and some sample lies in all
// windows; else one after another. Its parameters stay apart: docs/DECISIONS.md and docs/CLAIMS.md name it,
// with what it asks.
pub fn step_four(
    phases: [Phase; 4],
    history: &[f32],
    starts: [usize; 4],
    coefs: &[f32],
    n: usize,
    oversample: usize,
) -> [f32; 4]
    requires { WindowsWithin starts n (length history.now) × FourReach phases n oversample (length coefs.now) }
    ensures { result ≡ four_steps phases n oversample coefs.now starts history.now }
{
    let windows = Windows { history, starts, n };
    match phases {
        [Direct(p), Direct(q), Direct(r), Direct(s)] if p == q && p == r && p == s => {
            let from = p * n;
            windows.four_rows(&coefs[from..])
        }
        [
            Interpolated(a, x),
            Interpolated(b, y),
            Interpolated(c, z),
            Interpolated(d, u),
        ] if starts[3] < starts[0] + n => {
            let offsets = [a, b, c, d];
            let overlap = Overlap {
                windows,
                coefs,
                oversample,
                offsets,
            };
            overlap.interpolate_four([x, y, z, u])
        }
        _ => windows.four_apart(phases, coefs, oversample),
    }
}
