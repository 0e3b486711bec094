// The quality row: how long a filter is, how finely it is sampled and how wide its band is before a
// ratio changes them. It holds numbers and decides nothing: a row may be made that is not sane.
#![tactic(auto)]

ghost use Rattle.std.specs.Prelude.{◌≡◌};
ghost use Rattle.quality.specs.Quality.{row_of};
ghost use Rattle.quality.specs.House.{house};

// A quality row: the filter's length and oversample where the rate does not fall, and the
// bandwidths where it falls and where it does not. That a row is sane is no invariant of it: `new`
// answers for any numbers.
#[derive(Clone, Copy)]
pub struct QualityMapping {
    pub base_length: usize,
    pub oversample: usize,
    pub downsample_bandwidth: f32,
    pub upsample_bandwidth: f32,
}

impl QualityMapping {
    // The house row. It is written out, since a constant's value cannot call `new`.
    pub const HOUSE: QualityMapping = QualityMapping {
        base_length: 160,
        oversample: 16,
        downsample_bandwidth: 0.96,
        upsample_bandwidth: 0.96,
    };

    // The row of these numbers, sane or not.
    pub fn new(
        base_length: usize,
        oversample: usize,
        downsample_bandwidth: f32,
        upsample_bandwidth: f32,
    ) -> Self
        ensures { result ≡ row_of base_length oversample downsample_bandwidth upsample_bandwidth }
    {
        Self {
            base_length,
            oversample,
            downsample_bandwidth,
            upsample_bandwidth,
        }
    }

    // HOUSE, with the contract that a constant cannot have.
    pub fn house() -> Self
        ensures { result ≡ house }
    {
        QualityMapping::HOUSE
    }
}
