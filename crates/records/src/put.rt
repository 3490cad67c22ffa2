// Records put into a packet that is to be written.
ghost use Rattle.std.specs.Prelude.{◌≤◌, ◌≡◌};

// How many records were put, four at most, and the place behind them.
#[derive(Clone, Copy)]
pub struct Placed {
    pub count: usize,
    pub next: usize,
    pub ghost few: { count ≤ 4 },
}

impl Placed {
    // None yet, from this place on.
    pub fn none(next: usize) -> Self
        ensures { (result.count ≡ 0) × (result.next ≡ next) }
    {
        Self { count: 0, next }
    }
}
