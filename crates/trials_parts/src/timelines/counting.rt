use pl_points::Ledger;

/// Counts at run time.
#[derive(Drop)]
pub(crate) struct Counting {
    pub(crate) ticks: u64,
}

impl Ledger for Counting {
    ghost use Rattle.std.specs.Prelude.{◌-◌, ◌^◌, nat_eq, min};

    ghost told = { λ c count. nat_eq c.ticks (min count (2 ^ 64 - 1)) };

    fn tick(&mut self) {
        self.ticks = self.ticks.saturating_add(1);
    }
}
