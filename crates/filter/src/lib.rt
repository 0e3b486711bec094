// The table of the filter's coefficients that a kernel reads.
// How near they come to the sinc of mathematics is not said here: each is its definition's f32.
#![tactic(auto)]

mod tables;

ghost use Rattle.std.specs.Prelude.{◌≡◌, length};
ghost use Rattle.std.proofs.Math.Seq.{paste};
ghost use Rattle.filter.specs.Settings.{SettingFits, table_of};

use rates::Setting;
use tables::Table;

// Writes the table of a setting to the first entries of coefs: the Rust's `use_direct` and
// `not_use_direct`. What lies past it stays as it was: of an older table that was longer the rest is
// left, where the Rust fills it too. Without a kernel nothing is written.
pub fn fill_table(coefs: &mut [f32], setting: Setting)
    requires { SettingFits setting (length coefs.old) }
    ensures { coefs.new ≡ paste coefs.old 0 (table_of setting) setting.coefs }
{
    // By index, since an entry may be taken from those that are written already.
    for k in 0..setting.coefs {
        coefs[k as usize] = Table { setting }.entry(coefs, k);
    }
}
