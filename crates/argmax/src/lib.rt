// The way of a choice through the actions by the sums behind them, in f64 or in whole units: it starts at action 0 with a number that no sum is below, and
// moves only to a greater sum.
#![tactic(auto)]

ghost use Rattle.std.specs.Prelude.{◌≡◌, true, cond};
ghost use Rattle.std.specs.Float.{inf};
ghost use Rattle.std.specs.Ordering.{partial_lt};

// Numbers of which sums are made.
pub trait Sum: PartialOrd + Copy {
    ghost least: { Self };

    // The number that no sum is below.
    fn least() -> Self
        ensures { result ≡ least };
}

impl Sum for u64 {
    ghost least = { 0 };

    fn least() -> u64 {
        0
    }
}

impl Sum for f64 {
    ghost least = { inf true };

    fn least() -> f64 {
        f64::NEG_INFINITY
    }
}

// Where a choice is: the action, and its sum.
#[derive(Clone, Copy)]
pub struct Lead<S> {
    pub action: usize,
    pub sum: S,
}

impl<S: Sum> Lead<S> {
    // Before the first action.
    pub fn start() -> Lead<S>
        ensures { result ≡ record { action = 0; sum = S.least } }
    {
        Lead {
            action: 0,
            sum: S::least(),
        }
    }

    // Past one more action, with its sum.
    pub fn past(self, action: usize, sum: S) -> Lead<S>
        ensures { result ≡ cond (partial_lt S.partial_cmp self.sum sum) (record { action = action; sum = sum }) self }
    {
        if self.sum < sum {
            return Lead { action, sum };
        }
        self
    }
}
