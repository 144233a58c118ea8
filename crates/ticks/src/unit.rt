ghost use Rattle.std.specs.Prelude.{◌≡◌};
ghost use Rattle.ticks.specs.Units.{milliseconds_in, name_of};

/// A unit of durations, as PromQL spells them.
#[derive(Clone, Copy, Debug, PartialEq, Eq)]
pub enum Unit {
    Year,
    Week,
    Day,
    Hour,
    Minute,
    Second,
    Millisecond,
}

/// The units from the longest to the shortest.
pub const LONGEST_FIRST: [Unit; 7] = [
    Unit::Year,
    Unit::Week,
    Unit::Day,
    Unit::Hour,
    Unit::Minute,
    Unit::Second,
    Unit::Millisecond,
];

impl Unit {
    /// How many milliseconds the unit has. A year has 365 days.
    pub fn milliseconds(self) -> u64
        ensures { result ≡ milliseconds_in self }
    {
        match self {
            Unit::Year => 31_536_000_000,
            Unit::Week => 604_800_000,
            Unit::Day => 86_400_000,
            Unit::Hour => 3_600_000,
            Unit::Minute => 60_000,
            Unit::Second => 1_000,
            Unit::Millisecond => 1,
        }
    }

    /// The letters of the unit.
    pub fn name(self) -> &'static str
        ensures { result.now ≡ name_of self }
    {
        match self {
            Unit::Year => "y",
            Unit::Week => "w",
            Unit::Day => "d",
            Unit::Hour => "h",
            Unit::Minute => "m",
            Unit::Second => "s",
            Unit::Millisecond => "ms",
        }
    }
}
