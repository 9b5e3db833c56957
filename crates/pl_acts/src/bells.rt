//! The bells of a plan. They carry no fact.
use crate::bell::Bell;
use crate::busy::Busy;
use std::sync::Wait;
use std::sync::atomic::{AtomicBool, Ordering};
use std::thread;

// How often a planner looks whether the executive is done, before it waits no longer.
const LOOKS: u32 = 64;

/// Who waits for something to do.
#[derive(Clone, Copy, PartialEq, Eq)]
pub enum Listener {
    Planner,
    Executive,
    Feeder,
    /// Whoever has something to do: for a feeder that acts for workers too.
    Anyone,
}

/// One bell for each who may wait, and whether the executive has something to do.
#[derive(Drop)]
pub struct Bells {
    planner: Bell,
    executive: Bell,
    feeder: Bell,
    anyone: Bell,
    executive_is_due: AtomicBool,
}

impl Bells {
    pub fn new() -> Bells {
        Bells {
            planner: Bell::new(),
            executive: Bell::new(),
            feeder: Bell::new(),
            anyone: Bell::new(),
            executive_is_due: AtomicBool::new(false),
        }
    }

    fn bell_of(&self, listener: Listener) -> &Bell {
        match listener {
            Listener::Planner => &self.planner,
            Listener::Executive => &self.executive,
            Listener::Feeder => &self.feeder,
            Listener::Anyone => &self.anyone,
        }
    }

    /// How often this bell was rung.
    pub fn rings<R: Wait>(&self, rt: &R, listener: Listener) -> u64 {
        self.bell_of(listener).rings(rt)
    }

    /// Waits until this bell was rung more often, or less often, than this.
    pub fn wait<R: Wait>(&self, rt: &R, listener: Listener, heard: u64) {
        self.bell_of(listener).wait(rt, heard);
    }

    /// Notes who has something to do. It is called inside a turn, so that the notes come in the order of the turns.
    pub fn note(&self, busy: Busy) {
        self.executive_is_due
            .store(busy.executive, Ordering::SeqCst);
    }

    /// Waits a moment if the executive has something to do, which takes little time. A planner that did not wait would have to choose on a
    /// replica.
    pub fn let_executive_go_first(&self) {
        for _ in 0..LOOKS {
            if !self.executive_is_due.load(Ordering::SeqCst) {
                return;
            }
            thread::yield_now();
        }
    }

    fn ring_if<R: Wait>(&self, rt: &R, listener: Listener, woken: bool) {
        if woken {
            self.bell_of(listener).ring(rt);
        }
    }

    /// Rings for each who had nothing to do before a turn and has something to do after it.
    pub fn ring<R: Wait>(&self, rt: &R, before: Busy, behind: Busy) {
        let planner = !before.planner && behind.planner;
        let executive = !before.executive && behind.executive;
        let feeder = !before.feeder && behind.feeder;
        self.ring_if(rt, Listener::Executive, executive);
        self.ring_if(rt, Listener::Planner, planner);
        self.ring_if(rt, Listener::Feeder, feeder);
        self.ring_if(rt, Listener::Anyone, planner || executive || feeder);
    }
}
