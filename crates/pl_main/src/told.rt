use pl_lists::Items;
use pl_prefs::Prefer;
use pl_rate::Rate;

/// What is to be told of a legal journal, by what was asked and what stood before the journal.
#[derive(Drop)]
pub enum Told {
    Verdict,
    Report,
    Flex { id: u64 },
    Forecast(Items<Rate>),
    Improve { steps: u32, prefers: Items<Prefer> },
}
