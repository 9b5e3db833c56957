ghost use Rattle.std.specs.Prelude.{◌≡◌};
ghost use Rattle.pl_syntax.specs.Parsing.{made};
ghost use Rattle.pl_syntax.specs.Reading.{name_at, list_of, many_at, is_name_token, names_at, step_at, steps_list_at, steps_at, capacity_at, level_at, states_at, timeline_at};
ghost use Rattle.pl_syntax.specs.Gives.{Gives};

use super::Reader;
use crate::fault::Stopped;
use crate::timelines::AstTimeline;
use crate::{Symbol, Token};
use pl_lists::Items;
use pl_model::Name;
use pl_text::Word;

impl<'a> Reader<'a> {
    /// The names behind the first.
    #[tactic(auto, using(crate::proofs::Turns::many_goes, crate::proofs::Turns::many_fails, crate::proofs::Turns::many_stops, crate::proofs::Turns::many_ends))]
    fn other_names(&mut self, first: Name) -> Result<Items<Name>, Stopped>
        ensures { Gives result self.new.rest.now (made (list_of first) (many_at is_name_token name_at) self.old.rest.now) }
    {
        let mut names = Items::new(self.alloc);
        names.push(first)?;
        'names: for _ in 0..self.rest.len() {
            if !self.sees_name() {
                return Ok(names);
            }
            let name = self.name()?;
            names.push(name)?;
        }
        Ok(names)
    }

    #[tactic(auto, unfolding(crate::specs::Reading::names_at))]
    fn names(&mut self) -> Result<Items<Name>, Stopped>
        ensures { Gives result self.new.rest.now (names_at self.old.rest.now) }
    {
        let first = self.name()?;
        let names = self.other_names(first)?;
        Ok(names)
    }

    #[tactic(auto, unfolding(crate::specs::Reading::step_at))]
    fn step(&mut self) -> Result<(Name, Name), Stopped>
        ensures { Gives result self.new.rest.now (step_at self.old.rest.now) }
    {
        self.expect_word(Word::Step)?;
        let from = self.name()?;
        let to = self.name()?;
        Ok((from, to))
    }

    #[tactic(auto, using(crate::proofs::Turns::many_goes, crate::proofs::Turns::many_fails, crate::proofs::Turns::many_stops, crate::proofs::Turns::many_ends), unfolding(crate::specs::Reading::steps_list_at))]
    fn steps_list(&mut self) -> Result<Items<(Name, Name)>, Stopped>
        ensures { Gives result self.new.rest.now (steps_list_at self.old.rest.now) }
    {
        let mut steps = Items::new(self.alloc);
        'steps: for _ in 0..self.rest.len() {
            if !self.sees_word(Word::Step) {
                return Ok(steps);
            }
            let step = self.step()?;
            steps.push(step)?;
        }
        Ok(steps)
    }

    /// Whether every step is allowed, and the steps.
    #[tactic(auto, unfolding(crate::specs::Reading::steps_at))]
    fn steps(&mut self) -> Result<(bool, Items<(Name, Name)>), Stopped>
        ensures { Gives result self.new.rest.now (steps_at self.old.rest.now) }
    {
        if self.sees_word(Word::Any) {
            self.expect_word(Word::Any)?;
            return Ok((true, Items::new(self.alloc)));
        }
        let steps = self.steps_list()?;
        Ok((false, steps))
    }

    #[tactic(auto, unfolding(crate::specs::Reading::capacity_at))]
    fn capacity(&mut self) -> Result<AstTimeline, Stopped>
        ensures { Gives result self.new.rest.now (capacity_at self.old.rest.now) }
    {
        self.expect_word(Word::Capacity)?;
        let name = self.name()?;
        let most = self.number()?;
        Ok(AstTimeline::Capacity { name, most })
    }

    #[tactic(auto, unfolding(crate::specs::Reading::level_at))]
    fn level(&mut self) -> Result<AstTimeline, Stopped>
        ensures { Gives result self.new.rest.now (level_at self.old.rest.now) }
    {
        self.expect_word(Word::Level)?;
        let name = self.name()?;
        let least = self.number()?;
        let most = self.number()?;
        let start = self.number()?;
        Ok(AstTimeline::Level {
            name,
            least,
            most,
            start,
        })
    }

    #[tactic(auto, unfolding(crate::specs::Reading::states_at))]
    fn states(&mut self) -> Result<AstTimeline, Stopped>
        ensures { Gives result self.new.rest.now (states_at self.old.rest.now) }
    {
        self.expect_word(Word::State)?;
        let name = self.name()?;
        self.expect_symbol(Symbol::OpenBrace)?;
        let states = self.names()?;
        self.expect_symbol(Symbol::CloseBrace)?;
        self.expect_word(Word::Start)?;
        let start = self.name()?;
        let (any, steps) = self.steps()?;
        Ok(AstTimeline::States {
            name,
            states,
            start,
            any,
            steps,
        })
    }

    /// Takes a timeline of any sort.
    #[tactic(auto, unfolding(crate::specs::Reading::timeline_at))]
    pub fn timeline(&mut self) -> Result<AstTimeline, Stopped>
        ensures { Gives result self.new.rest.now (timeline_at self.old.rest.now) }
    {
        if self.sees_word(Word::Capacity) {
            return self.capacity();
        }
        if self.sees_word(Word::Level) {
            return self.level();
        }
        self.states()
    }
}
