//! Lines of preferences: each form, and each fault with the nearest line that has it no more.
ghost use Rattle.pl_model.specs.Checked.{IsChecked};

use crate::asserting::holds;
use crate::reading::model;
use pl_model::Model;
use pl_msg::ParseFault;
use pl_prefs::read_prefer;
use std::alloc::{AllocError, Global};
use std::process::Abort;

/// A level has the name `early`, a parameter the name `late`, and a kind the name `value`.
const MODEL: &str = "horizon 100 lead 30
capacity cam 10
level bat 0 100 50
state mode { off on } start off any
level early 0 9 5
kind obs { param p 1 9 param late 0 9 = p duration 5 }
kind value { duration 5 }";

const READ: &str = "prefer obs early 1 => Early(0, 1)
prefer obs late 1000 => Late(0, 1000)
prefer obs value p 7 => Value(0, 0, 7)
prefer obs value late 7 => Value(0, 1, 7)
prefer level bat 3 => Level(1, 3)
prefer level early 5 => Level(3, 5)
prefer value late 5 => Late(1, 5)
\tprefer  obs early 007 # soon => Early(0, 7)";

const FORMS: &str = " => bad line
prefer => bad line
prefer obs => bad line
prefer obs early => bad line
prefer obs early p => bad line
prefer obs early 1 1 => bad line
prefer obs early p 1 => bad line
prefer obs early - 1 => bad line
prefer obs first 1 => bad line
prefer obs value 1 => bad line
prefer obs value p => bad line
prefer obs value 1 1 => bad line
prefer obs value p 1 1 => bad line
prefer obs value start 1 => bad line
prefer kind early 1 => bad line
prefer level bat => bad line
prefer level bat early 1 => bad line
prefer level end 1 => bad line
prefers obs early 1 => bad line
obs early 1 => bad line
prefer obs early 1 $ => bad line
prefer obs early 1000000000000000000 => bad line
prefer pic first 0 => bad line";

const NAMES: &str = "prefer pic early 1 => unknown name
prefer pic late 0 => unknown name
prefer bat early 1 => unknown name
prefer pic value p 1 => unknown name
prefer obs value q 1 => unknown name
prefer obs value q 0 => unknown name
prefer value value p 1 => unknown name
prefer level gas 1 => unknown name
prefer level obs 1 => unknown name
prefer level cam 1 => unknown name
prefer level mode 1001 => unknown name";

const RANGES: &str = "prefer obs early 0 => out of range
prefer obs early 999999999999999999 => out of range
prefer obs late 0 => out of range
prefer obs late 1001 => out of range
prefer obs value p 0 => out of range
prefer obs value p 1001 => out of range
prefer level bat 0 => out of range
prefer level bat 1001 => out of range";

/// What is read of a line, as it is printed, or the fault.
fn read(alloc: Global, line: &str, model: &Model) -> Result<String, AllocError>
    requires { IsChecked model.now }
{
    if line.len() > 4096 {
        return String::from_str(alloc, "long");
    }
    match read_prefer(alloc, model, line.as_bytes()) {
        Ok(prefer) => format!(in alloc; "{prefer:?}"),
        Err(ParseFault::Memory) => Err(AllocError),
        Err(fault) => fault.to_string(alloc),
    }
}

#[test]
fn reads_lines(rt: HostRuntime) {
    let alloc = rt.alloc();
    let model = model(&rt, alloc, MODEL);
    for table in [READ, FORMS, NAMES, RANGES] {
        for row in table.lines() {
            let (line, wanted) = row.split_once(" => ").unwrap_or((row, ""));
            let found = read(alloc, line, &model).expect(&rt, "memory");
            holds(&rt, row, found.as_str() == wanted);
        }
    }
}
