use crate::plan::SharedPlan;
use pl_acts::Listener;
use std::sync::Wait;

impl SharedPlan {
    /// How often this listener had come to have something to do.
    pub fn changes<R: Wait>(&self, rt: &R, listener: Listener) -> u64 {
        self.bells.rings(rt, listener)
    }

    /// Waits a moment if this listener is a planner and the executive has something to do.
    pub(crate) fn give_way(&self, listener: Listener) {
        if listener == Listener::Planner {
            self.bells.let_executive_go_first();
        }
    }

    /// Waits until this listener has come to have something to do since so many times.
    pub fn wait<R: Wait>(&self, rt: &R, listener: Listener, heard: u64) {
        self.bells.wait(rt, listener, heard);
    }
}
