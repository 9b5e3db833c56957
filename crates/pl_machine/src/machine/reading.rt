ghost use Rattle.std.specs.Prelude.{◌≡◌, ◌<◌, ◌≤◌, length, false};
ghost use Rattle.pl_model.specs.Checked.{IsChecked};
ghost use Rattle.pl_machine.specs.Legal.{Legal, world_of, IsHistory};
ghost use Rattle.pl_machine.specs.Taking.{Admits};

use crate::machine::Machine;
use crate::stop::Stop;
use pl_board::Board;
use pl_facts::Options;
use pl_log::Log;
use pl_model::Model;

impl Machine {
    /// The log, which is legal. The world of an unspoiled machine is the world after this log. Of a spoiled machine this holds of
    /// all but the plan state.
    pub fn log(&self) -> &Log
        ensures entries { result.now.entries ≡ self.now.log }
        ensures legal { Legal self.now.model self.now.log }
        ensures others { self.now.world ≡ record (world_of self.now.model self.now.log) { state = self.now.world.state } }
        ensures history { self.now.spoiled ≡ false → IsHistory self.now.model self.now.log self.now.world }
    {
        &self.log
    }

    /// How many entries the log has.
    #[tactic(auto, using(crate::proofs::ShortLogs::log_is_short))]
    pub fn entries(&self) -> u32
        ensures { result ≡ length self.now.log }
    {
        self.log.len() as u32
    }

    /// The model that it was opened with: no call changes it.
    pub fn model(&self) -> &Model
        ensures value { result.now ≡ self.now.model }
        ensures checked { IsChecked self.now.model }
    {
        self.model.get()
    }

    /// The plan as it stands, with its timelines and conflicts, for those who choose a repair.
    pub fn board(&self) -> &Board
        ensures { result.now ≡ record { spoiled = self.now.spoiled; state = self.now.world.state } }
    {
        &self.board
    }

    /// The limits of the run: no call changes them.
    pub fn options(&self) -> &Options
        ensures value { result.now ≡ self.now.world.options }
        ensures turns { self.now.world.turn ≤ self.now.world.options.turns }
    {
        &self.options
    }

    /// The ids of the activities whose commands were sent, in the order in which they were.
    pub fn dispatched(&self) -> &[u32]
        ensures { result.now ≡ self.now.world.dispatched }
    {
        &self.schedule.due[..self.sent]
    }

    /// The repairs of this round so far.
    pub fn turn(&self) -> u32
        ensures { result ≡ self.now.world.turn }
    {
        self.round.turn
    }

    /// Whether repair rests in this round.
    pub fn resting(&self) -> bool
        ensures { result ≡ self.now.world.rested }
    {
        self.round.rested
    }

    /// Whether the round is closed. The input ends only between rounds.
    pub fn closed(&self) -> bool
        ensures value { result ≡ self.now.world.closed }
        ensures going { self.now.world.closed ≡ false → self.now.world.done ≡ false }
    {
        self.round.closed
    }

    /// Whether the input has ended.
    pub fn done(&self) -> bool
        ensures { result ≡ self.now.world.done }
    {
        self.done
    }

    /// Whether commits are held back: since the latest `halt` no `tick` was accepted.
    pub fn halted(&self) -> bool
        ensures { result ≡ self.now.world.halted }
    {
        self.round.halted
    }

    /// Whether memory was wanting in an event of this machine.
    pub fn spoiled(&self) -> bool
        ensures { result ≡ self.now.spoiled }
    {
        self.board.spoiled()
    }

    pub(crate) fn admit(&self, enabled: bool) -> Result<(), Stop>
        ensures { Admits self.now enabled result }
    {
        if self.spoiled() {
            Err(Stop::Spoiled)
        } else if !enabled {
            Err(Stop::NotNow)
        } else if self.log.len() >= self.options.entries as usize {
            Err(Stop::LogFull)
        } else {
            Ok(())
        }
    }
}
