ghost use Rattle.std.specs.Prelude.{◌≡◌};
ghost use Rattle.pl_syntax.specs.Parsing.{next_is};
ghost use Rattle.pl_syntax.specs.Reading.{is_item, item_at, items_at, model_at, read_all};
ghost use Rattle.pl_syntax.specs.Gives.{Gives, GivesAll};

use super::Reader;
use crate::Token;
use crate::fault::Stopped;
use crate::whole::{Ast, Item};
use pl_lists::Items;
use pl_text::Word;

impl<'a> Reader<'a> {
    #[tactic(auto, unfolding(crate::specs::Reading::item_at))]
    fn item(&mut self) -> Result<Item, Stopped>
        ensures { Gives result self.new.rest.now (item_at 32 32 self.old.rest.now) }
    {
        if self.sees_word(Word::Kind) {
            let kind = self.kind()?;
            return Ok(Item::Kind(kind));
        }
        let timeline = self.timeline()?;
        Ok(Item::Timeline(timeline))
    }

    fn sees_item(&self) -> bool
        ensures { result ≡ next_is is_item self.now.rest.now }
    {
        match self.rest {
            [
                Token::Word(Word::Capacity | Word::Level | Word::State | Word::Kind),
                ..
            ] => true,
            _ => false,
        }
    }

    #[tactic(auto, using(crate::proofs::Turns::many_goes, crate::proofs::Turns::many_fails, crate::proofs::Turns::many_stops, crate::proofs::Turns::many_ends), unfolding(crate::specs::Reading::items_at))]
    fn items(&mut self) -> Result<Items<Item>, Stopped>
        ensures { Gives result self.new.rest.now (items_at 32 32 self.old.rest.now) }
    {
        let mut items = Items::new(self.alloc);
        'items: for _ in 0..self.rest.len() {
            if !self.sees_item() {
                return Ok(items);
            }
            let item = self.item()?;
            items.push(item)?;
        }
        Ok(items)
    }

    #[tactic(auto, unfolding(crate::specs::Reading::model_at))]
    fn model(&mut self) -> Result<Ast, Stopped>
        ensures { Gives result self.new.rest.now (model_at 32 32 self.old.rest.now) }
    {
        self.expect_word(Word::Horizon)?;
        let horizon = self.number()?;
        self.expect_word(Word::Lead)?;
        let lead = self.number()?;
        let items = self.items()?;
        Ok(Ast {
            horizon,
            lead,
            items,
        })
    }

    /// The model that all of the tokens are.
    #[tactic(auto, unfolding(crate::specs::Reading::read_all))]
    pub fn all(&mut self) -> Result<Ast, Stopped>
        ensures { GivesAll result (read_all 32 32 self.old.rest.now) }
    {
        let ast = self.model()?;
        if !self.rest.is_empty() {
            return Err(Stopped::Unexpected(self.rest.len()));
        }
        Ok(ast)
    }
}
