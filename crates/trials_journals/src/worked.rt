//! The worked run: its model, and the journal that it makes.
ghost use Rattle.std.specs.Arc.{arc_value};
ghost use Rattle.pl_model.specs.Checked.{IsChecked};

use pl_check::{Accepted, accept};
use pl_model::Model;
use std::alloc::Global;
use std::process::Abort;
use std::sync::Arc;

/// One kind, whose activities last five units.
pub const MODEL: &str = "horizon 100 lead 30 kind obs { duration 5 }";

/// A goal served, one tick, and the end, over that model.
pub const JOURNAL: &str = "0 open turns 8 live 10000 goals 20000 entries 250000
1 in ok : goal 1 obs 10 20 must
2 fix 20 open-goal 1 0 10 20 by add obs 10 goal 1 : ok
3 rest clear
4 commit 30 : ok
5 close
6 in ok : tick 10
7 rest clear
8 dispatch 1 obs 10
9 commit 40 : ok
10 close
11 in end : end
";

/// The first line of a run of eight turns.
pub const OPEN: &str = "0 open turns 8 live 10000 goals 20000 entries 250000\n";

/// The model of a text.
pub fn model(rt: &impl Abort, alloc: Global, text: &str) -> Model
    ensures { IsChecked result }
{
    match accept(alloc, text.as_bytes()).expect(rt, "memory") {
        Accepted::Model(model) => model,
        Accepted::Refused(_) => panic!(rt; "no model: {text}"),
    }
}

/// The worked run's model, shared.
pub fn shared_model(rt: &impl Abort, alloc: Global) -> Arc<Model>
    ensures { IsChecked (arc_value result) }
{
    Arc::new(alloc, model(rt, alloc, MODEL)).expect(rt, "memory")
}
