// Ranges: a low and a high end, both included.
ghost use Rattle.std.specs.Prelude.{◌≡◌};
ghost use Rattle.fields.specs.Ranges.{range_good, range_holds, ranges_meet};

// Whether low is at most high, and high at most the largest end.
pub fn range_good(low: u32, high: u32, largest: u32) -> bool
    ensures { result ≡ range_good low high largest }
{
    low <= high && high <= largest
}

// Whether the word lies in the range. A range with low over high holds nothing.
pub fn range_holds(low: u32, high: u32, word: u32) -> bool
    ensures { result ≡ range_holds low high word }
{
    (low..=high).contains(&word)
}

// Whether two ranges meet: each begins no later than the other ends.
pub fn ranges_meet(low: u32, high: u32, from: u32, to: u32) -> bool
    ensures { result ≡ ranges_meet low high from to }
{
    low <= to && from <= high
}
