//! How many lanes of a state are used.

ghost use Rattle.std.specs.Prelude.{◌≡◌, ◌*◌};
ghost use Rattle.aegis_core.specs.Lanes.{IsLaneCount};
ghost use Rattle.aegis_core.specs.Held.{lane_count};

/// How many lanes are used.
#[derive(Clone, Copy)]
pub(crate) enum LaneCount {
    One,
    Two,
    Four,
}

impl LaneCount {
    /// The count of this number.
    pub(crate) fn of(lanes: usize) -> LaneCount
        requires { IsLaneCount lanes }
        ensures { lane_count result ≡ lanes }
    {
        if lanes == 1 {
            LaneCount::One
        } else if lanes == 2 {
            LaneCount::Two
        } else {
            LaneCount::Four
        }
    }

    /// How many bytes a block of each lane makes.
    #[inline(always)]
    pub(crate) fn row_len(self) -> usize
        ensures { result ≡ 16 * lane_count self }
    {
        match self {
            LaneCount::One => 16,
            LaneCount::Two => 32,
            LaneCount::Four => 64,
        }
    }
}
