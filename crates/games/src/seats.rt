// The seats of Kuhn.
ghost use Rattle.std.specs.Prelude.{◌≤◌};

// How many seats play: 2 to 10.
#[derive(Clone, Copy)]
pub struct Seats {
    pub count: usize,
    pub ghost in_range: { (2 ≤ count) × (count ≤ 10) },
}
