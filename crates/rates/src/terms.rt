// What a quality row comes to at a ratio: the cutoff, the filter's length and its oversample. All
// three ask first whether the rate falls.
ghost use Rattle.std.specs.Prelude.{◌≡◌};
ghost use Rattle.sizes.specs.Sizes.{RatioInLimits};
ghost use Rattle.quality.specs.Quality.{Sane};

use quality::QualityMapping;
use ratio::_muldiv;

// A sane row, and a ratio within the limits.
#[derive(Clone, Copy)]
pub struct Terms {
    pub row: QualityMapping,
    pub num: u32,
    pub den: u32,
    ghost sane: { Sane row },
    ghost limits: { RatioInLimits num den },
}

impl Terms {
    ghost use Rattle.rates.specs.Setting.{cutoff_of, length_of, halved, oversample_of};

    // Two roundings, the product first, as in the Rust; equal rates take the bandwidth of rising ones.
    pub fn cutoff(self) -> f32
        ensures { result ≡ cutoff_of self.row self.num self.den }
    {
        if self.num > self.den {
            return self.row.downsample_bandwidth * casts::small(self.den) / casts::small(self.num);
        }
        self.row.upsample_bandwidth
    }

    // Rounded down, then up to a multiple of 8, which one that is a multiple already stays.
    pub fn filter_length(self) -> u32
        ensures { result ≡ length_of self.row self.num self.den }
    {
        let base = self.row.base_length;
        if self.num > self.den {
            let scaled = _muldiv(base as u64, self.num as u64, self.den as u64) as u32;
            return (scaled + 7) / 8 * 8;
        }
        base as u32
    }

    // At a small row the halvings can leave 0, which becomes 1.
    pub fn oversampling(self) -> u32
        ensures { result ≡ oversample_of self.row self.num self.den }
    {
        if self.num > self.den {
            return self.halved().max(1);
        }
        self.row.oversample as u32
    }

    // The row's oversample, halved once for each x of 1, 2, 3 and 4 with 2^x * den < num, so not at
    // all at a ratio of exactly 2.
    fn halved(self) -> u32
        ensures { result ≡ halved self.num self.den 4 self.row.oversample }
    {
        let mut left = self.row.oversample as u32;
        for x in 1..5u32 {
            if (1 << x) * self.den < self.num {
                left /= 2;
            }
        }
        left
    }
}
