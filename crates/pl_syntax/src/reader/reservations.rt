ghost use Rattle.std.specs.Prelude.{◌≡◌};
ghost use Rattle.pl_syntax.specs.Parsing.{next_is};
ghost use Rattle.pl_syntax.specs.Reading.{take_at, when_at, raise_at, lower_at, put_at, must_at, is_reservation, reservation_at, reservations_at, link_at, links_at};
ghost use Rattle.pl_syntax.specs.Gives.{Gives};

use super::Reader;
use crate::Token;
use crate::fault::Stopped;
use crate::links::AstLink;
use crate::reservations::AstReservation;
use pl_lists::Items;
use pl_model::Point;
use pl_text::Word;

impl<'a> Reader<'a> {
    #[tactic(auto, unfolding(crate::specs::Reading::take_at))]
    fn take(&mut self) -> Result<AstReservation, Stopped>
        ensures { Gives result self.new.rest.now (take_at 32 32 self.old.rest.now) }
    {
        self.expect_word(Word::Use)?;
        let name = self.name()?;
        let (amount, _) = self.expr(32, 32)?;
        Ok(AstReservation::Take(name, amount))
    }

    #[tactic(auto, unfolding(crate::specs::Reading::when_at))]
    fn when(&mut self) -> Result<Point, Stopped>
        ensures { Gives result self.new.rest.now (when_at self.old.rest.now) }
    {
        self.expect_word(Word::At)?;
        let point = self.point()?;
        Ok(point)
    }

    #[tactic(auto, unfolding(crate::specs::Reading::raise_at))]
    fn raise(&mut self) -> Result<AstReservation, Stopped>
        ensures { Gives result self.new.rest.now (raise_at 32 32 self.old.rest.now) }
    {
        self.expect_word(Word::Raise)?;
        let name = self.name()?;
        let (amount, _) = self.expr(32, 32)?;
        let point = self.when()?;
        Ok(AstReservation::Raise(name, amount, point))
    }

    #[tactic(auto, unfolding(crate::specs::Reading::lower_at))]
    fn lower(&mut self) -> Result<AstReservation, Stopped>
        ensures { Gives result self.new.rest.now (lower_at 32 32 self.old.rest.now) }
    {
        self.expect_word(Word::Lower)?;
        let name = self.name()?;
        let (amount, _) = self.expr(32, 32)?;
        let point = self.when()?;
        Ok(AstReservation::Lower(name, amount, point))
    }

    #[tactic(auto, unfolding(crate::specs::Reading::put_at))]
    fn put(&mut self) -> Result<AstReservation, Stopped>
        ensures { Gives result self.new.rest.now (put_at self.old.rest.now) }
    {
        self.expect_word(Word::Set)?;
        let name = self.name()?;
        let state = self.name()?;
        let point = self.when()?;
        Ok(AstReservation::Put(name, state, point))
    }

    #[tactic(auto, unfolding(crate::specs::Reading::must_at))]
    fn must(&mut self) -> Result<AstReservation, Stopped>
        ensures { Gives result self.new.rest.now (must_at self.old.rest.now) }
    {
        self.expect_word(Word::Must)?;
        let name = self.name()?;
        let state = self.name()?;
        Ok(AstReservation::Must(name, state))
    }

    #[tactic(auto, unfolding(crate::specs::Reading::reservation_at))]
    fn reservation(&mut self) -> Result<AstReservation, Stopped>
        ensures { Gives result self.new.rest.now (reservation_at 32 32 self.old.rest.now) }
    {
        match self.rest {
            [Token::Word(Word::Use), ..] => self.take(),
            [Token::Word(Word::Raise), ..] => self.raise(),
            [Token::Word(Word::Lower), ..] => self.lower(),
            [Token::Word(Word::Set), ..] => self.put(),
            _ => self.must(),
        }
    }

    fn sees_reservation(&self) -> bool
        ensures { result ≡ next_is is_reservation self.now.rest.now }
    {
        match self.rest {
            [
                Token::Word(Word::Use | Word::Raise | Word::Lower | Word::Set | Word::Must),
                ..
            ] => true,
            _ => false,
        }
    }

    /// Takes reservations as long as one begins.
    #[tactic(auto, using(crate::proofs::Turns::many_goes, crate::proofs::Turns::many_fails, crate::proofs::Turns::many_stops, crate::proofs::Turns::many_ends), unfolding(crate::specs::Reading::reservations_at))]
    pub fn reservations(&mut self) -> Result<Items<AstReservation>, Stopped>
        ensures { Gives result self.new.rest.now (reservations_at 32 32 self.old.rest.now) }
    {
        let mut reservations = Items::new(self.alloc);
        'reservations: for _ in 0..self.rest.len() {
            if !self.sees_reservation() {
                return Ok(reservations);
            }
            let reservation = self.reservation()?;
            reservations.push(reservation)?;
        }
        Ok(reservations)
    }

    #[tactic(auto, unfolding(crate::specs::Reading::link_at))]
    fn link(&mut self) -> Result<AstLink, Stopped>
        ensures { Gives result self.new.rest.now (link_at self.old.rest.now) }
    {
        self.expect_word(Word::Link)?;
        let mine = self.point()?;
        let kind = self.name()?;
        let theirs = self.point()?;
        let low = self.signed()?;
        let high = self.signed()?;
        Ok(AstLink {
            mine,
            kind,
            theirs,
            low,
            high,
        })
    }

    /// Takes links as long as one begins.
    #[tactic(auto, using(crate::proofs::Turns::many_goes, crate::proofs::Turns::many_fails, crate::proofs::Turns::many_stops, crate::proofs::Turns::many_ends), unfolding(crate::specs::Reading::links_at))]
    pub fn links(&mut self) -> Result<Items<AstLink>, Stopped>
        ensures { Gives result self.new.rest.now (links_at self.old.rest.now) }
    {
        let mut links = Items::new(self.alloc);
        'links: for _ in 0..self.rest.len() {
            if !self.sees_word(Word::Link) {
                return Ok(links);
            }
            let link = self.link()?;
            links.push(link)?;
        }
        Ok(links)
    }
}
