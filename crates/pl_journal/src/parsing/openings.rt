ghost use Rattle.std.specs.Prelude.{◌≡◌};
ghost use Rattle.pl_journal.specs.Parsing.Entries.{options_in, is_from_1_to, are_options, opening_in};

use crate::parsing::counts::labelled;
use crate::parsing::fault::EntryFault;
use pl_entry::{Entry, Event, Reply};
use pl_facts::Options;

#[tactic(auto, unfolding(crate::specs::Parsing::Entries::options_in))]
fn options(text: &[u8]) -> Result<Options, EntryFault>
    ensures { result ≡ options_in text.now }
{
    let (turns, text) = labelled(b"turns", text)?;
    let (live, text) = labelled(b"live", text)?;
    let (goals, text) = labelled(b"goals", text)?;
    let (entries, _) = labelled(b"entries", text)?;
    Ok(Options {
        turns,
        live,
        goals,
        entries,
    })
}

fn is_from_1_to(most: u32, number: u32) -> bool
    ensures { result ≡ is_from_1_to most number }
{
    1 <= number && number <= most
}

/// Whether each is from 1 to its limit.
fn are_options(options: &Options) -> bool
    ensures { result ≡ are_options options.now }
{
    is_from_1_to(1_000, options.turns)
        && is_from_1_to(10_000, options.live)
        && is_from_1_to(20_000, options.goals)
        && is_from_1_to(250_000, options.entries)
}

/// The opening of a log.
#[tactic(auto, unfolding(crate::specs::Parsing::Entries::opening_in))]
pub fn opening(text: &[u8]) -> Result<Entry, EntryFault>
    ensures { result ≡ opening_in text.now }
{
    let options = options(text)?;
    if are_options(&options) {
        Ok(Entry {
            event: Event::Opened(options),
            reply: Reply::Done,
        })
    } else {
        Err(EntryFault::NotALine)
    }
}
