ghost use Rattle.std.specs.Prelude.{◌≡◌};
ghost use Rattle.pl_syntax.specs.declared.symbol.Symbol.TheVariants as symbol;
ghost use Rattle.pl_text.specs.declared.word.Word.TheVariants as word;
ghost use Rattle.pl_syntax.specs.Tokens.{is_word, is_symbol};
ghost use Rattle.pl_syntax.specs.Parsing.{made};
ghost use Rattle.pl_syntax.specs.Reading.{list_of, many_at, binding_at, further_at, given_at, bindings_at, slot_at, order_at, slots_at, orders_at, alternative_at, alternatives_at};
ghost use Rattle.pl_syntax.specs.Gives.{Gives};

use super::Reader;
use crate::Symbol;
use crate::alternatives::{AstAlternative, AstOrder, AstSlot};
use crate::expressions::AstExpr;
use crate::fault::Stopped;
use pl_lists::Items;
use pl_model::Name;
use pl_text::Word;

impl<'a> Reader<'a> {
    #[tactic(auto, unfolding(crate::specs::Reading::binding_at))]
    fn binding(&mut self) -> Result<(Name, AstExpr), Stopped>
        ensures { Gives result self.new.rest.now (binding_at 32 32 self.old.rest.now) }
    {
        let name = self.name()?;
        self.expect_symbol(Symbol::Equals)?;
        let (value, _) = self.expr(32, 32)?;
        Ok((name, value))
    }

    /// The bindings behind the first.
    #[tactic(auto, using(crate::proofs::Turns::many_goes, crate::proofs::Turns::many_fails, crate::proofs::Turns::many_stops, crate::proofs::Turns::many_ends))]
    fn other_bindings(&mut self, first: (Name, AstExpr)) -> Result<Items<(Name, AstExpr)>, Stopped>
        ensures { Gives result self.new.rest.now (made (list_of first) (many_at (is_symbol symbol.Comma) (further_at 32 32)) self.old.rest.now) }
    {
        let mut bindings = Items::new(self.alloc);
        bindings.push(first)?;
        'bindings: for _ in 0..self.rest.len() {
            if !self.sees_symbol(Symbol::Comma) {
                return Ok(bindings);
            }
            let binding = self.further()?;
            bindings.push(binding)?;
        }
        Ok(bindings)
    }

    #[tactic(auto, unfolding(crate::specs::Reading::further_at))]
    fn further(&mut self) -> Result<(Name, AstExpr), Stopped>
        ensures { Gives result self.new.rest.now (further_at 32 32 self.old.rest.now) }
    {
        self.expect_symbol(Symbol::Comma)?;
        let binding = self.binding()?;
        Ok(binding)
    }

    #[tactic(auto, unfolding(crate::specs::Reading::given_at))]
    fn given(&mut self) -> Result<Items<(Name, AstExpr)>, Stopped>
        ensures { Gives result self.new.rest.now (given_at 32 32 self.old.rest.now) }
    {
        let first = self.binding()?;
        let bindings = self.other_bindings(first)?;
        Ok(bindings)
    }

    #[tactic(auto, unfolding(crate::specs::Reading::bindings_at))]
    fn bindings(&mut self) -> Result<Items<(Name, AstExpr)>, Stopped>
        ensures { Gives result self.new.rest.now (bindings_at 32 32 self.old.rest.now) }
    {
        if self.sees_symbol(Symbol::Open) {
            self.expect_symbol(Symbol::Open)?;
            let bindings = self.given()?;
            self.expect_symbol(Symbol::Close)?;
            return Ok(bindings);
        }
        Ok(Items::new(self.alloc))
    }

    #[tactic(auto, unfolding(crate::specs::Reading::slot_at))]
    fn slot(&mut self) -> Result<AstSlot, Stopped>
        ensures { Gives result self.new.rest.now (slot_at 32 32 self.old.rest.now) }
    {
        self.expect_word(Word::Slot)?;
        let name = self.name()?;
        let kind = self.name()?;
        let bindings = self.bindings()?;
        Ok(AstSlot {
            name,
            kind,
            bindings,
        })
    }

    /// The slots behind the first.
    #[tactic(auto, using(crate::proofs::Turns::many_goes, crate::proofs::Turns::many_fails, crate::proofs::Turns::many_stops, crate::proofs::Turns::many_ends))]
    fn other_slots(&mut self, first: AstSlot) -> Result<Items<AstSlot>, Stopped>
        ensures { Gives result self.new.rest.now (made (list_of first) (many_at (is_word word.Slot) (slot_at 32 32)) self.old.rest.now) }
    {
        let mut slots = Items::new(self.alloc);
        slots.push(first)?;
        'slots: for _ in 0..self.rest.len() {
            if !self.sees_word(Word::Slot) {
                return Ok(slots);
            }
            let slot = self.slot()?;
            slots.push(slot)?;
        }
        Ok(slots)
    }

    #[tactic(auto, unfolding(crate::specs::Reading::slots_at))]
    fn slots(&mut self) -> Result<Items<AstSlot>, Stopped>
        ensures { Gives result self.new.rest.now (slots_at 32 32 self.old.rest.now) }
    {
        let first = self.slot()?;
        let slots = self.other_slots(first)?;
        Ok(slots)
    }

    #[tactic(auto, unfolding(crate::specs::Reading::order_at))]
    fn order(&mut self) -> Result<AstOrder, Stopped>
        ensures { Gives result self.new.rest.now (order_at self.old.rest.now) }
    {
        self.expect_word(Word::Order)?;
        let first = self.place()?;
        let first_end = self.point()?;
        let second = self.place()?;
        let second_end = self.point()?;
        let low = self.signed()?;
        let high = self.signed()?;
        Ok(AstOrder {
            first,
            first_end,
            second,
            second_end,
            low,
            high,
        })
    }

    #[tactic(auto, using(crate::proofs::Turns::many_goes, crate::proofs::Turns::many_fails, crate::proofs::Turns::many_stops, crate::proofs::Turns::many_ends), unfolding(crate::specs::Reading::orders_at))]
    fn orders(&mut self) -> Result<Items<AstOrder>, Stopped>
        ensures { Gives result self.new.rest.now (orders_at self.old.rest.now) }
    {
        let mut orders = Items::new(self.alloc);
        'orders: for _ in 0..self.rest.len() {
            if !self.sees_word(Word::Order) {
                return Ok(orders);
            }
            let order = self.order()?;
            orders.push(order)?;
        }
        Ok(orders)
    }

    #[tactic(auto, unfolding(crate::specs::Reading::alternative_at))]
    fn alternative(&mut self) -> Result<AstAlternative, Stopped>
        ensures { Gives result self.new.rest.now (alternative_at 32 32 self.old.rest.now) }
    {
        self.expect_word(Word::Alternative)?;
        self.expect_symbol(Symbol::OpenBrace)?;
        let slots = self.slots()?;
        let orders = self.orders()?;
        self.expect_symbol(Symbol::CloseBrace)?;
        Ok(AstAlternative { slots, orders })
    }

    /// Takes alternatives as long as one begins.
    #[tactic(auto, using(crate::proofs::Turns::many_goes, crate::proofs::Turns::many_fails, crate::proofs::Turns::many_stops, crate::proofs::Turns::many_ends), unfolding(crate::specs::Reading::alternatives_at))]
    pub fn alternatives(&mut self) -> Result<Items<AstAlternative>, Stopped>
        ensures { Gives result self.new.rest.now (alternatives_at 32 32 self.old.rest.now) }
    {
        let mut alternatives = Items::new(self.alloc);
        'alternatives: for _ in 0..self.rest.len() {
            if !self.sees_word(Word::Alternative) {
                return Ok(alternatives);
            }
            let alternative = self.alternative()?;
            alternatives.push(alternative)?;
        }
        Ok(alternatives)
    }
}
