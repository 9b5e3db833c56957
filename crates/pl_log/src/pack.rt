ghost use Rattle.std.specs.Prelude.{◌≡◌, ◌++◌, drop, IfOk, OnOk};

use crate::form::Form;
use crate::numbers::Numbers;
use crate::parts::Parts;
use crate::unpacking::Rest;
use pl_entry::Entry;
use pl_lists::Items;
use std::alloc::{AllocError, Global};
use std::marker::Model;

/// Entries in few bytes.
#[derive(Drop)]
pub(crate) struct Pack {
    forms: Vec<Form>,
    numbers: Numbers,
    bytes: Vec<u8>,
    values: Vec<Option<i64>>,
    whole: Vec<Entry>,
}

impl Model for Pack {
    ghost use Rattle.std.specs.Prelude.{List};
    ghost use Rattle.pl_entry.specs.declared.entry.Entry.{Entry};
    ghost use Rattle.pl_log.specs.Unpacking.{entries_in};

    ghost Value = { List Entry };

    ghost view = { λ p. entries_in p.forms.items p.numbers p.bytes.items p.values.items p.whole.items };
}

impl Pack {
    /// The entries, packed.
    pub(crate) fn new(alloc: Global, entries: &[Entry]) -> Result<Pack, AllocError>
        ensures { IfOk result (λ pack. pack ≡ entries.now) }
    {
        let mut parts = Parts::new(alloc);
        for entry in entries {
            parts.put(alloc, entry)?;
        }
        Ok(Pack {
            forms: Vec::from_slice(alloc, &parts.forms)?,
            numbers: Numbers::pack(alloc, &parts.numbers)?,
            bytes: Vec::from_slice(alloc, &parts.bytes)?,
            values: Vec::from_slice(alloc, &parts.values)?,
            whole: parts.whole,
        })
    }

    /// Appends all entries but the first `from` to a list.
    pub(crate) fn unpack(
        &self,
        alloc: Global,
        from: usize,
        into: &mut Items<Entry>,
    ) -> Result<(), AllocError>
        ensures { OnOk result (into.new ≡ into.old ++ drop from self.now) }
    {
        let numbers = self.numbers.unpack(alloc)?;
        let mut rest = Rest {
            numbers: &numbers,
            bytes: &self.bytes,
            values: &self.values,
            whole: &self.whole,
        };
        for (place, form) in self.forms.iter().enumerate() {
            let here = rest;
            rest = here.behind(*form);
            if from <= place {
                into.push(here.entry(alloc, *form)?)?;
            }
        }
        Ok(())
    }
}
