// The Kaiser window, read from its table with cubic weights.
// What it answers above 1 is not said: no caller goes there, so no index is tested at run time.
#![tactic(auto)]

ghost use Rattle.std.specs.Prelude.{◌≡◌, ◌≤◌};
ghost use Rattle.window.specs.Window.{NotAboveOne, kaiser, weights_at, weighted_sum, window_at};

// The window's right half in steps of 1/32, with one entry before the middle and two after the end
// for the cubic weights.
const WINDOW_FN_KAISER_TABLE: [f64; 36] = [
    0.99537781, 1.0, 0.99537781, 0.98162644, 0.95908712, 0.92831446, 0.89005583, 0.84522401,
    0.79486424, 0.74011713, 0.68217934, 0.62226347, 0.56155915, 0.5011968, 0.44221549, 0.38553619,
    0.33194107, 0.28205962, 0.23636152, 0.19515633, 0.15859932, 0.1267028, 0.09935205, 0.07632451,
    0.05731132, 0.0419398, 0.02979584, 0.0204451, 0.01345224, 0.00839739, 0.00488951, 0.00257636,
    0.00115101, 0.00035515, 0.0, 0.0,
];

// How many steps of the table there are from 0 to 1.
const WINDOW_FN_OVERSAMPLE: f32 = 32.0;

// What each of four neighbouring entries counts for.
#[derive(Clone, Copy)]
pub struct Weights {
    pub w0: f64,
    pub w1: f64,
    pub w2: f64,
    pub w3: f64,
}

// The weights at f past the second of the four entries.
fn weights_at(f: f64) -> Weights
    ensures { result ≡ weights_at f }
{
    let f2 = math::powi2(f);
    let f3 = math::powi3(f);
    let w3 = -0.1666666667 * f + 0.1666666667 * f3;
    let w2 = f + 0.5 * f2 - 0.5 * f3;
    let w0 = -0.3333333333 * f + 0.5 * f2 - 0.1666666667 * f3;
    let w1 = 1.0 - w3 - w2 - w0;
    Weights { w0, w1, w2, w3 }
}

// The four entries of the table from ind on, each times its weight, summed.
fn weighted_sum(table: &[f64; 36], w: Weights, ind: usize) -> f64
    requires { (table.now ≡ kaiser) × (ind ≤ 32) }
    ensures { result ≡ weighted_sum w ind }
{
    w.w0 * table[ind] + w.w1 * table[ind + 1] + w.w2 * table[ind + 2] + w.w3 * table[ind + 3]
}

// The window at x. At 1.0 the last four entries are read; a NaN has the floor 0 and gives a NaN.
pub fn compute_func(x: f32) -> f64
    requires { NotAboveOne x }
    ensures { result ≡ window_at x }
{
    let y = x * WINDOW_FN_OVERSAMPLE;
    let ind = casts::floor(y);
    let f = std::num::f32_to_f64_with_nan(y - ind as f32);
    // Copied once: an index into the constant itself would copy the whole table for each entry.
    let table = WINDOW_FN_KAISER_TABLE;
    weighted_sum(&table, weights_at(f), ind)
}
