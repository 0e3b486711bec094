// The entries of the two tables, direct and interpolated: where each lies, which one lies opposite to
// it, and its coefficient. Nothing is said of numbers that an f32 does not hold: no setting has them.
ghost use Rattle.std.specs.Prelude.{◌≡◌, ◌^◌, ◌≤◌, ◌<◌, IfSome};
ghost use Rattle.filter.specs.Tables.{direct_x, interpolated_x};
ghost use Rattle.filter.specs.Settings.{SettingFits, NextFits, coordinate_of, entry_of};

use rates::{Kernel, Setting};
use sinc::{sinc, sinc_by_mirror};

// The coordinate of row i, column j of the direct table.
fn direct_x(n: u32, den: u32, i: u32, j: u32) -> f32
    requires { (n ≤ 2 ^ 24) × (den ≤ 2 ^ 24) × (i ≤ 2 ^ 24) × (j ≤ 2 ^ 24) }
    ensures { result ≡ direct_x n den i j }
{
    (casts::small(j) - casts::small(n) / 2.0 + 1.0) - casts::small(i) / casts::small(den)
}

// The coordinate of entry i of the interpolated table. i - 4 is exact in f32, so it is the Rust's
// whole number i - 4, negative for the first four, as an f32.
fn interpolated_x(n: u32, oversample: u32, i: u32) -> f32
    requires { (n ≤ 2 ^ 24) × (oversample ≤ 2 ^ 24) × (i ≤ 2 ^ 24) }
    ensures { result ≡ interpolated_x n oversample i }
{
    (casts::small(i) - 4.0) / casts::small(oversample) - casts::small(n) / 2.0
}

// A setting with a kernel or without one, whose table's coordinates an f32 holds.
#[derive(Clone, Copy)]
pub struct Table {
    pub setting: Setting,
    ghost fits: { SettingFits setting setting.coefs },
}

impl Table {
    // The coordinate of entry k. The direct table goes row after row, each of n entries. Without a
    // kernel there is no entry, and a NaN stands for its coordinate.
    fn coordinate(self, k: u32) -> f32
        requires { k < self.setting.coefs }
        ensures { result ≡ coordinate_of self.setting k }
    {
        let n = self.setting.filt_len;
        match self.setting.kernel {
            Kernel::Unset => f32::NAN,
            Kernel::Direct => direct_x(n, self.setting.den, k / n, k % n),
            Kernel::Interpolated => interpolated_x(n, self.setting.oversample, k),
        }
    }

    // The entry that has the negated coordinate of entry k, as far as f32 has both exactly. In a
    // direct table row 0 is its own mirror image but for its last entry, and the rows after it
    // together are theirs; in an interpolated one every entry but the first has one. Only that the
    // entry lies in the table is promised: the caller tests what it finds there.
    fn mirror_of(self, k: u32) -> Option<u32>
        requires { k < self.setting.coefs }
        ensures { IfSome result (λ m. m < self.setting.coefs) }
    {
        let n = self.setting.filt_len;
        let coefs = self.setting.coefs;
        match self.setting.kernel {
            Kernel::Direct if k < n => n.checked_sub(k + 2),
            Kernel::Direct => Some(coefs + n - 1 - k),
            Kernel::Interpolated if 0 < k => Some(coefs - k),
            Kernel::Unset | Kernel::Interpolated => None,
        }
    }

    // Entry k, where those below it are written. Where the one at the negated coordinate is among
    // them, it is the same.
    pub fn entry(self, coefs: &[f32], k: u32) -> f32
        requires { NextFits self.setting k coefs.now }
        ensures { result ≡ entry_of self.setting k }
    {
        let n = self.setting.filt_len;
        let cutoff = self.setting.cutoff;
        let x = self.coordinate(k);
        match self.mirror_of(k) {
            Some(m) if m < k => {
                let y = self.coordinate(m);
                sinc_by_mirror(cutoff, x, n, y, coefs[m as usize])
            }
            _ => sinc(cutoff, x, n),
        }
    }
}
