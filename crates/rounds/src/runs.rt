// A run of outputs: how many a round makes, and the ways in which they are made. Each way gives the
// outputs that `output_at` gives one by one.
ghost use Rattle.std.specs.Prelude.{◌≡◌, List, ℕ, ◌+◌, ◌-◌, ◌^◌, ◌<◌, ◌≤◌, length, drop, IfSome, Float};
ghost use Rattle.timeline.specs.Numbers as numbers;
ghost use Rattle.timeline.specs.Numbers.{made, ahead};
ghost use Rattle.rates.specs.Rated.{rate_with};
ghost use Rattle.lanes.specs.Layout.{Woven};
ghost use Rattle.rounds.specs.Output.{weigh_of};
ghost use Rattle.rounds.specs.Rounds.{place_of, RoundFits, Filled};
ghost use Rattle.rounds.specs.Runs.{Numbered, RunFits, Stands, four_outputs, Ran, WeaveFits};

use crate::{Place, Player};
use lanes::Weave;
use rates::Kernel;

// How far a run of outputs has come: the place of the next one, and how many there are.
#[derive(Clone, Copy)]
pub struct Made {
    pub place: Place,
    pub written: usize,
}

impl<'a> Player<'a> {
    // How many outputs a round makes: no more than the room, and no more than stand before the
    // samples' end. Output k stands k * num den-ths after the first.
    fn outputs_ahead(&self, place: Place, in_len: usize, room: usize) -> usize
        requires { (place.phase < self.now.setting.den) × (in_len ≤ 2 ^ 32) }
        ensures { result ≡ made (rate_with self.now.setting 0) in_len room (place_of place) }
    {
        if place.position >= in_len {
            return 0;
        }
        let den = self.setting.den as usize;
        let before_end = den * (in_len - place.position) - place.phase;
        let most = (before_end - 1) / self.setting.num as usize + 1;
        room.min(most)
    }

    // The place of the output that is `count` on.
    fn place_after(&self, place: Place, count: usize) -> Place
        requires { Numbered self.now.setting (place_of place) count }
        ensures { place_of result ≡ ahead (rate_with self.now.setting 0) count (place_of place) }
    {
        let den = self.setting.den as usize;
        let parts = place.phase + count * self.setting.num as usize;
        Place {
            position: place.position + parts / den,
            phase: parts % den,
        }
    }

    // Four outputs at four places, none before the first or after the last. Their windows are counted in the
    // part of the history from the first position on.
    fn output_four(&self, a: Place, b: Place, c: Place, d: Place) -> [f32; 4]
        requires in_order { (a.position ≤ b.position) × (a.position ≤ c.position) × (b.position ≤ d.position) × (c.position ≤ d.position) }
        requires stands { Stands self.now.setting (place_of a) (length self.now.mem.now) × Stands self.now.setting (place_of b) (length self.now.mem.now) × Stands self.now.setting (place_of c) (length self.now.mem.now) × Stands self.now.setting (place_of d) (length self.now.mem.now) }
        ensures { result ≡ four_outputs self.now.setting self.now.coefs.now self.now.mem.now (place_of a) (place_of b) (place_of c) (place_of d) }
    {
        let phases = [
            self.phase_at(a.phase),
            self.phase_at(b.phase),
            self.phase_at(c.phase),
            self.phase_at(d.phase),
        ];
        let at = a.position;
        let starts = [0, b.position - at, c.position - at, d.position - at];
        let n = self.setting.filt_len as usize;
        let oversample = self.setting.oversample as usize;
        abreast::step_four(phases, &self.mem[at..], starts, self.coefs, n, oversample)
    }

    // The outputs by fours, as long as there are four. `count` stands beside `out`, here and in the next
    // three functions: the contracts let `out` be longer, and say that what lies past `count` stays.
    fn make_fours(&self, start: Place, count: usize, out: &mut [f32]) -> Made
        requires { RunFits self.now.setting (place_of start) count (length self.now.mem.now) × (count ≤ length out.old) }
        ensures { Ran self.now.setting self.now.coefs.now self.now.mem.now (place_of start) count result.written (place_of result.place) out.old out.new }
    {
        let mut place = start;
        // Not by `chunks_exact_mut`: a proof learns no entry that is written through its parts.
        for quad in 0..count / 4 {
            let b = self.advance(place);
            let c = self.advance(b);
            let d = self.advance(c);
            let y = self.output_four(place, b, c, d);
            let i = 4 * quad;
            out[i..i + 4].copy_from_slice(&y);
            place = self.advance(d);
        }
        Made {
            place,
            written: count / 4 * 4,
        }
    }

    // Three outputs as four: the fourth is the third once more, and is dropped. The longest filter
    // makes three outputs a round, or four.
    fn make_three(&self, before: Made, count: usize, out: &mut [f32]) -> Place
        requires { RunFits self.now.setting (place_of before.place) 3 (length self.now.mem.now) × (before.written + 3 ≤ count) × (count ≤ length out.old) }
        ensures { (p : numbers.Place) (was : List Float) → Ran self.now.setting self.now.coefs.now self.now.mem.now p count before.written (place_of before.place) was out.old → Ran self.now.setting self.now.coefs.now self.now.mem.now p count (before.written + 3) (place_of result) was out.new }
    {
        let a = before.place;
        let b = self.advance(a);
        let c = self.advance(b);
        let y = self.output_four(a, b, c, c);
        let i = before.written;
        out[i..i + 3].copy_from_slice(&y[..3]);
        self.advance(c)
    }

    // The outputs that are left, one by one.
    fn make_rest(&self, before: Made, count: usize, out: &mut [f32]) -> Place
        requires { RunFits self.now.setting (place_of before.place) (count - before.written) (length self.now.mem.now) × (before.written ≤ count) × (count ≤ length out.old) }
        ensures { (p : numbers.Place) (was : List Float) → Ran self.now.setting self.now.coefs.now self.now.mem.now p count before.written (place_of before.place) was out.old → Ran self.now.setting self.now.coefs.now self.now.mem.now p count count (place_of result) was out.new }
    {
        let mut place = before.place;
        for i in before.written..count {
            out[i] = self.output_at(place);
            place = self.advance(place);
        }
        place
    }

    // The outputs four at a time, side by side where `step_four` can. Three that are left go as
    // four only with one row for all: a fourth output costs next to nothing there, and a whole one
    // elsewhere.
    fn make_abreast(&self, place: Place, count: usize, out: &mut [f32]) -> Place
        requires { RunFits self.now.setting (place_of place) count (length self.now.mem.now) × (count ≤ length out.old) }
        ensures { Ran self.now.setting self.now.coefs.now self.now.mem.now (place_of place) count count (place_of result) out.old out.new }
    {
        let fours = self.make_fours(place, count, out);
        if self.setting.den == 1 && fours.written + 3 == count {
            return self.make_three(fours, count, out);
        }
        self.make_rest(fours, count, out)
    }

    // The outputs of a direct kernel class by class: those den apart have one phase. x is the
    // history from the first window on, laid out for the lanes.
    fn fill_classes(&self, start: Place, x: &[f32], weave: Weave, out: &mut [f32])
        requires run_fits { RunFits self.now.setting (place_of start) weave.count (length self.now.mem.now) × (weave.count ≤ length out.old) × WeaveFits self.now.setting (place_of start) weave × (2048 ≤ length x.now) }
        requires woven { Woven x.now (drop start.position self.now.mem.now) weave.num weave.stride weave.reach }
        ensures { Ran self.now.setting self.now.coefs.now self.now.mem.now (place_of start) weave.count weave.count (ahead (rate_with self.now.setting 0) weave.count (place_of start)) out.old out.new }
    {
        let at = start.position;
        let mut place = start;
        for from in 0..weave.den.min(weave.count) {
            lanes::fill_class(
                self.phase_at(place.phase),
                x,
                &self.mem[at..],
                self.coefs,
                self.setting.oversample as usize,
                weave,
                place.position - at,
                from,
                out,
            );
            place = self.advance(place);
        }
    }

    // The same, with the layout made first.
    fn make_classes(&self, place: Place, weave: Weave, out: &mut [f32])
        requires { RunFits self.now.setting (place_of place) weave.count (length self.now.mem.now) × (weave.count ≤ length out.old) × WeaveFits self.now.setting (place_of place) weave }
        ensures { Ran self.now.setting self.now.coefs.now self.now.mem.now (place_of place) weave.count weave.count (ahead (rate_with self.now.setting 0) weave.count (place_of place)) out.old out.new }
    {
        let at = place.position;
        let mut x = [0.0; lanes::ROOM];
        lanes::lay_out(
            &mut x,
            &self.mem[at..],
            weave.num,
            weave.stride,
            weave.reach,
        );
        self.fill_classes(place, &x, weave, out);
    }

    // The numbers of the lanes for the next count outputs, or None where lanes do not serve: for an
    // interpolated kernel, for a round whose samples have no room in a layout, and for fewer than
    // four outputs to a class, where laying out costs more than it saves.
    fn weave_for(&self, place: Place, count: usize) -> Option<Weave>
        requires { Numbered self.now.setting (place_of place) count }
        ensures { IfSome result (λ weave. (weave.count ≡ count) × WeaveFits self.now.setting (place_of place) weave) }
    {
        let num = self.setting.num as usize;
        let den = self.setting.den as usize;
        let n = self.setting.filt_len as usize;
        if count < 4 * den {
            return None;
        }
        match self.setting.kernel {
            Kernel::Unset | Kernel::Interpolated => None,
            Kernel::Direct => {
                let reach = (place.phase + (count - 1) * num) / den + n;
                let stride = lanes::stride_for(num, reach)?;
                Some(Weave {
                    num,
                    den,
                    n,
                    stride,
                    reach,
                    count,
                })
            }
        }
    }

    // Makes outputs while the room lasts and the position is before the samples' end; at or past it
    // none is made. The rest of the room stays as it was.
    pub fn make_outputs(&self, place: Place, in_len: usize, out: &mut [f32]) -> Made
        requires { RoundFits self.now.setting (place_of place) in_len (length self.now.mem.now) (length self.now.coefs.now) }
        ensures { (alloc : ℕ) → Filled (weigh_of self.now.setting self.now.coefs.now) (rate_with self.now.setting alloc) in_len (place_of place) self.now.mem.now result.written (place_of result.place) out.old out.new }
    {
        let count = self.outputs_ahead(place, in_len, out.len());
        let place = match self.weave_for(place, count) {
            Some(weave) => {
                self.make_classes(place, weave, out);
                self.place_after(place, count)
            }
            None => self.make_abreast(place, count, out),
        };
        Made {
            place,
            written: count,
        }
    }
}
