// Outputs of one phase of the direct kernel, worked out side by side.
//
// Outputs den apart have the same phase, so the same coefficients, and their windows start num
// samples apart. A copy of the history is laid out by position modulo num: the samples that one
// coefficient meets in 32 such outputs are neighbours there. Each output is summed by itself, in the
// order of the direct kernel, so no bit differs from its sum. `window` is the history from the first
// window on. Each function asks that what it reads lies within the slices; tested are only whether a
// layout has room (`stride_for`) and whether an output lies below count (`put_four`).
#![tactic(auto)]

ghost use Rattle.std.specs.Prelude.{◌≡◌, ℕ, ◌+◌, ◌*◌, ◌-◌, ◌^◌, ◌≤◌, ◌<◌, length, drop, IfSome, Float};
ghost use Rattle.math.specs.Numerals.{nought};
ghost use Rattle.kernel.specs.Sums.{at};
ghost use Rattle.kernel.specs.Step.{step_of, Reaches};
ghost use Rattle.lanes.specs.Layout.{Woven, LayoutFits, Strided};
ghost use Rattle.lanes.specs.Class.{ClassFits, Classed};
ghost use Rattle.lanes.specs.Inner.{RowFits, RowLaid, Spotted, sums_of, add_tap, TapsFit, Strewn, along, StrandFits, LanesFit, lane_of, Begun, reaches_prop};

use kernel::Phase;

// How many entries a layout has at most, with the 32 after its rows.
pub const ROOM: usize = 2048;

// The numbers of one round: the ratio, how many coefficients an output has, the layout's stride and
// how many samples it holds, and how many outputs there are.
#[derive(Clone, Copy)]
pub struct Weave {
    pub num: usize,
    pub den: usize,
    pub n: usize,
    pub stride: usize,
    pub reach: usize,
    pub count: usize,
}

// The stride of a layout of `reach` samples, or None where they have no room.
pub fn stride_for(num: usize, reach: usize) -> Option<usize>
    ensures { IfSome result (Strided num reach) }
{
    // A reach within the room keeps the stride small.
    if num == 0 || ROOM < reach {
        return None;
    }
    let stride = reach / num + 1;
    if (ROOM - 32) / num < stride {
        return None;
    }
    Some(stride)
}

// A row: every num-th sample from `from` on, below reach, to the entries from `start` on.
fn lay_row(x: &mut [f32], start: usize, window: &[f32], from: usize, num: usize, reach: usize)
    requires { RowFits start from num reach (length x.old) (length window.now) }
    ensures { RowLaid x.old x.new window.now start from num reach }
{
    // Tried: with `enumerate` in place of `i`, laying out takes a third longer, and a round up to a tenth.
    let mut i = start;
    for t in (from..reach).step_by(num) {
        x[i] = window[t];
        i += 1;
    }
}

// Lays the first `reach` samples of the window out by position modulo num.
// Its parameters and clauses stay: it is public, and docs/DECISIONS.md and docs/CLAIMS.md name it.
pub fn lay_out(x: &mut [f32], window: &[f32], num: usize, stride: usize, reach: usize)
    requires { LayoutFits num stride reach (length x.old) (length window.now) }
    ensures { Woven x.new window.now num stride reach }
{
    for row in 0..num {
        lay_row(x, row * stride, window, row, num, reach);
    }
}

// Where a tap's samples stand: the row, and the entry of the first.
#[derive(Clone, Copy)]
struct Spot {
    row: usize,
    i: usize,
}

impl Spot {
    // Where the next tap's samples stand: a row on, or after the last row a column on in the first.
    fn next(self, num: usize, stride: usize, back: usize) -> Self
        requires { (self.row < num) × (self.row * stride ≤ self.i) × (back ≡ (num - 1) * stride) × (self.i + stride < 2 ^ 63) }
        ensures { (column t : ℕ) → Spotted num stride column t self → Spotted num stride column (t + 1) result }
    {
        let row = self.row + 1;
        if row == num {
            Spot {
                row: 0,
                i: self.i - back + 1,
            }
        } else {
            Spot {
                row,
                i: self.i + stride,
            }
        }
    }
}

// Four sums to entries from, from + by, .., as far as they lie below count, which stands beside `out` here
// and in `put`: what lies past it stays.
fn put_four(out: &mut [f32], from: usize, by: usize, s: [f32; 4], count: usize)
    requires { (count ≤ length out.old) × (0 < by) × (by ≤ 2 ^ 32) }
    ensures { Strewn out.old out.new from by count 4 (at s) }
{
    // Tried: `(from..count).step_by(by).zip(s)` proves, but from 48 to 96 kHz a round takes a quarter longer.
    let mut k = from;
    for v in s {
        if k >= count {
            return;
        }
        out[k] = v;
        k += by;
    }
}

// The sums of 4 * Q outputs, four by four.
// `Q ≤ 8` (they stay in registers, and the numbers fit) stands in each contract: a const parameter has no invariant.
#[derive(Clone, Copy)]
struct Lanes<const Q: usize> {
    fours: [[f32; 4]; Q],
}

impl<const Q: usize> Lanes<Q> {
    // Sums of nothing.
    fn silent() -> Self
        ensures { result.fours ≡ sums_of Q (λ (l : ℕ). nought) }
    {
        Lanes {
            fours: [[0.0; 4]; Q],
        }
    }

    // One coefficient times 4 * Q neighbours, each product added to its sum.
    fn add_tap(&mut self, k: f32, x: &[f32], i: usize)
        requires { i + 4 * Q ≤ length x.now }
        ensures { self.new.fours ≡ add_tap self.old.fours k x.now i }
    {
        for (q, four) in self.fours.iter_mut().enumerate() {
            *four = kernel::spread(*four, k, x, i + 4 * q);
        }
    }

    // The sums to entries from, from + by, .., as far as they lie below count.
    fn put(&self, out: &mut [f32], from: usize, by: usize, count: usize)
        requires { (Q ≤ 8) × (count ≤ length out.old) × (0 < by) × (by ≤ 2 ^ 32) × (from < 2 ^ 63) }
        ensures { (f : ℕ → Float) → self.now.fours ≡ sums_of Q f → Strewn out.old out.new from by count (4 * Q) f }
    {
        for (q, four) in self.fours.iter().enumerate() {
            put_four(out, from + 4 * q * by, by, *four, count);
        }
    }
}

// The outputs of one phase that are still to be made: the row and the column of the layout where the
// window of the next one starts, and its number.
#[derive(Clone, Copy)]
struct Strand {
    row: usize,
    column: usize,
    from: usize,
}

impl Strand {
    // The strand m outputs on.
    fn along(self, m: usize, den: usize) -> Self
        requires { (self.column + m < 2 ^ 63) × (self.from + m * den < 2 ^ 63) }
        ensures { result ≡ along den m self }
    {
        Strand {
            column: self.column + m,
            from: self.from + m * den,
            ..self
        }
    }
}

// What the outputs of one phase are made of side by side: the layout, the phase's coefficients and
// the numbers of the round.
// `LanesFit` stands in each contract: the strand moves and `out` is lent anew, so neither is the loom's.
#[derive(Clone, Copy)]
struct Loom<'a> {
    x: &'a [f32],
    coefs: &'a [f32],
    weave: Weave,
    ghost rows: { weave.num * weave.stride + 32 ≤ length x.now },
    ghost taps: { length coefs.now ≡ weave.n },
}

impl<'a> Loom<'a> {
    // The sums of the next 4 * Q outputs: each coefficient is read once for all of them.
    fn sum<const Q: usize>(&self, strand: Strand) -> Lanes<Q>
        requires { (Q ≤ 8) × TapsFit self.now.weave strand }
        ensures { result.fours ≡ sums_of Q (lane_of self.now.weave self.now.coefs.now self.now.x.now strand) }
    {
        let Weave { num, stride, .. } = self.weave;
        let back = (num - 1) * stride;
        let mut s: Lanes<Q> = Lanes::silent();
        let mut at = Spot {
            row: strand.row,
            i: strand.row * stride + strand.column,
        };
        for k in self.coefs {
            s.add_tap(*k, self.x, at.i);
            at = at.next(num, stride, back);
        }
        s
    }

    // The next 4 * Q outputs, as far as they lie below count.
    fn make<const Q: usize>(&self, strand: Strand, out: &mut [f32]) -> Strand
        requires { (0 < Q) × (Q ≤ 8) × LanesFit self.now.weave strand (length out.old) × (strand.from < self.now.weave.count) }
        ensures { (strand.from < result.from) × Begun out.old out.new self.now.weave strand result (lane_of self.now.weave self.now.coefs.now self.now.x.now strand) }
    {
        let den = self.weave.den;
        let s: Lanes<Q> = self.sum(strand);
        s.put(out, strand.from, den, self.weave.count);
        strand.along(4 * Q, den)
    }

    // By 4 * Q while more than `left` are left.
    fn fill_by<const Q: usize>(&self, left: usize, strand: Strand, out: &mut [f32]) -> Strand
        requires { (0 < Q) × (Q ≤ 8) × (left ≤ 16) × LanesFit self.now.weave strand (length out.old) }
        ensures { Begun out.old out.new self.now.weave strand result (lane_of self.now.weave self.now.coefs.now self.now.x.now strand) }
    {
        // A `for` over the numbers would have to work out the strand after it once more.
        let mut strand = strand;
        while strand.from + left * self.weave.den < self.weave.count {
            strand = self.make::<Q>(strand, out);
        }
        strand
    }

    // By thirty-twos while more than sixteen are left, then by sixteens while more than two are. One
    // or two are left to the plain step, which makes one in less time than these make sixteen.
    fn fill(&self, strand: Strand, out: &mut [f32]) -> Strand
        requires { LanesFit self.now.weave strand (length out.old) }
        ensures { Begun out.old out.new self.now.weave strand result (lane_of self.now.weave self.now.coefs.now self.now.x.now strand) }
    {
        let rest = self.fill_by::<8>(16, strand, out);
        self.fill_by::<4>(2, rest, out)
    }
}

// What the outputs of one phase are made of one by one: the phase, the history, the table of
// coefficients and the numbers of the round.
#[derive(Clone, Copy)]
struct Steps<'a> {
    phase: Phase,
    window: &'a [f32],
    coefs: &'a [f32],
    oversample: usize,
    weave: Weave,
    ghost reaches: { Reaches phase weave.n oversample (length coefs.now) } by { reaches_prop phase weave.n oversample (length coefs.now) },
}

impl<'a> Steps<'a> {
    // The next output.
    fn at(&self, strand: Strand) -> f32
        requires { strand.column * self.now.weave.num + strand.row + self.now.weave.n ≤ length self.now.window.now }
        ensures { result ≡ step_of self.now.phase self.now.weave.n self.now.oversample self.now.coefs.now (drop (strand.column * self.now.weave.num + strand.row) self.now.window.now) }
    {
        let at = strand.column * self.weave.num + strand.row;
        kernel::step(
            self.phase,
            &self.window[at..],
            self.coefs,
            self.weave.n,
            self.oversample,
        )
    }

    // All outputs of the strand.
    fn fill(&self, strand: Strand, out: &mut [f32])
        requires { StrandFits self.now.weave strand (length self.now.window.now) (length out.old) }
        ensures { Classed out.old out.new strand.from self.now.weave.den self.now.weave.count (λ (m : ℕ). step_of self.now.phase self.now.weave.n self.now.oversample self.now.coefs.now (drop ((strand.column + m) * self.now.weave.num + strand.row) self.now.window.now)) }
    {
        let Weave { den, count, .. } = self.weave;
        for (m, k) in (strand.from..count).step_by(den).enumerate() {
            out[k] = self.at(strand.along(m, den));
        }
    }
}

// Makes outputs from, from + den, from + 2 * den, .. below count, which have one phase: `shift` is
// where the window of the first starts.
// Its parameters and clauses stay: it is public, and docs/DECISIONS.md and docs/CLAIMS.md name it.
pub fn fill_class(
    phase: Phase,
    x: &[f32],
    window: &[f32],
    coefs: &[f32],
    oversample: usize,
    weave: Weave,
    shift: usize,
    from: usize,
    out: &mut [f32],
)
    requires woven { Woven x.now window.now weave.num weave.stride weave.reach }
    requires class_fits { ClassFits weave shift from (length x.now) (length window.now) (length out.old) }
    requires reaches { Reaches phase weave.n oversample (length coefs.now) }
    ensures { Classed out.old out.new from weave.den weave.count (λ (m : ℕ). step_of phase weave.n oversample coefs.now (drop (shift + m * weave.num) window.now)) }
{
    let strand = Strand {
        row: shift % weave.num,
        column: shift / weave.num,
        from,
    };
    let steps = Steps {
        phase,
        window,
        coefs,
        oversample,
        weave,
    };
    match phase {
        Phase::Direct(row) => {
            let start = row * weave.n;
            let coefs = &coefs[start..start + weave.n];
            let rest = Loom { x, coefs, weave }.fill(strand, out);
            steps.fill(rest, out);
        }
        // Such outputs have no row; a caller has them only where it does not choose.
        Phase::Interpolated(_, _) => steps.fill(strand, out),
    }
}
