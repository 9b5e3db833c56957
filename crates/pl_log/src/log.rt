ghost use Rattle.std.specs.Prelude.{◌≡◌, ◌+◌, ◌*◌, ◌<◌, ◌≤◌, ◌^◌, true, [], ◌∷◌, ◌++◌, drop, length, IfOk, OnOk, IfSome};
ghost use Rattle.pl_log.specs.Logged.{joined, AreFull};

use crate::pack::Pack;
use crate::reading::after;
use pl_entry::Entry;
use pl_lists::{Copied, Items};
use std::alloc::{AllocError, Global};
use std::marker::Model;

/// How many entries are packed together.
const PACK: usize = 256;

/// The greatest number of packs. With more of them the entries could not be counted.
const MOST_PACKS: usize = 0x1_0000_0000;

/// A log in few bytes: the newest entries as they are, the older ones packed.
#[derive(Drop)]
pub struct Log {
    alloc: Global,
    packs: Vec<Pack>,
    newest: Vec<Entry>,
}

impl Model for Log {
    ghost use Rattle.std.specs.Prelude.{◌++◌, nat_lt, ◌&&◌, vec_len, vec_capacity};
    ghost use Rattle.pl_log.specs.Logged.{Logged, joined, IsSmall};

    ghost Value = { Logged };

    ghost view = { λ l. record { entries = joined l.packs.items ++ l.newest.items; has_place = nat_lt (vec_len l.newest) 256 && nat_lt (vec_len l.newest) (vec_capacity l.newest) } };

    ghost invariant = { λ l. IsSmall l.packs.items l.newest.items };
}

impl Log {
    /// A log without entries.
    pub fn new(alloc: Global) -> Log
        ensures { result.entries ≡ [] }
    {
        Log {
            alloc,
            packs: Vec::new(alloc),
            newest: Vec::new(alloc),
        }
    }

    /// How many entries there are.
    #[tactic(auto, using(crate::proofs::Packs::length_joined))]
    pub fn len(&self) -> usize
        ensures { result ≡ length self.now.entries }
    {
        self.packs.len() * PACK + self.newest.len()
    }

    /// Makes a place for one more entry.
    #[tactic(auto, using(crate::proofs::Packs::joined_push, crate::proofs::Packs::full_push))]
    pub fn reserve(&mut self) -> Result<(), AllocError>
        ensures entries { self.new.entries ≡ self.old.entries }
        ensures place { OnOk result (self.new.has_place ≡ true) }
    {
        if self.newest.len() < PACK {
            self.newest.reserve(1)?;
            return Ok(());
        }
        if self.packs.len() >= MOST_PACKS {
            return Err(AllocError);
        }
        let pack = Pack::new(self.alloc, &self.newest)?;
        self.packs.push(pack)?;
        self.newest.clear();
        self.newest.reserve(1)?;
        Ok(())
    }

    /// Appends an entry, in the place that was made for it.
    pub fn push(&mut self, entry: Entry)
        requires { self.old.has_place ≡ true }
        ensures { self.new.entries ≡ self.old.entries ++ entry ∷ [] }
    {
        self.newest.push(entry).unwrap();
    }

    /// All entries but the first `from`, as they stand in the log. `None` if some of these are packed.
    #[tactic(auto, using(crate::proofs::Packs::behind_newest))]
    pub fn newest_from(&self, from: usize) -> Option<&[Entry]>
        ensures { IfSome result (λ entries. entries.now ≡ drop from self.now.entries) }
    {
        if from / PACK < self.packs.len() {
            return None;
        }
        let packed = self.packs.len() * PACK;
        Some(after(&self.newest, from - packed))
    }

    /// Copies of all entries but the first `from`.
    #[tactic(auto, using(crate::proofs::Packs::behind_packed, crate::proofs::Packs::behind_newest, crate::proofs::Packs::full_back))]
    pub fn entries_from(&self, alloc: Global, from: usize) -> Result<Items<Entry>, AllocError>
        ensures { IfOk result (λ entries. entries ≡ drop from self.now.entries) }
    {
        let mut entries = Items::new(alloc);
        if from / PACK < self.packs.len() {
            let packs = after(&self.packs, from / PACK);
            unpack_all(alloc, packs, from % PACK, &mut entries)?;
            push_copies(alloc, &self.newest, &mut entries)?;
            return Ok(entries);
        }
        let packed = self.packs.len() * PACK;
        push_copies(alloc, after(&self.newest, from - packed), &mut entries)?;
        Ok(entries)
    }

    /// A log with the same entries, with memory of its own.
    pub fn copy(&self, alloc: Global) -> Result<Log, AllocError>
        ensures { IfOk result (λ log. log.entries ≡ self.now.entries) }
    {
        let entries = self.entries_from(alloc, 0)?;
        let mut log = Log::new(alloc);
        log.append(entries.as_slice())?;
        Ok(log)
    }

    // Appends copies of entries.
    fn append(&mut self, entries: &[Entry]) -> Result<(), AllocError>
        ensures { OnOk result (self.new.entries ≡ self.old.entries ++ entries.now) }
    {
        for entry in entries {
            let copied = entry.copy(self.alloc)?;
            self.reserve()?;
            self.push(copied);
        }
        Ok(())
    }
}

/// Appends copies of entries to a list.
fn push_copies(alloc: Global, entries: &[Entry], into: &mut Items<Entry>) -> Result<(), AllocError>
    ensures { OnOk result (into.new ≡ into.old ++ entries.now) }
{
    for entry in entries {
        into.push(entry.copy(alloc)?)?;
    }
    Ok(())
}

/// Appends the entries of packs to a list, but for the first `from` of the first pack.
fn unpack_all(
    alloc: Global,
    packs: &[Pack],
    from: usize,
    into: &mut Items<Entry>,
) -> Result<(), AllocError>
    requires full { AreFull packs.now }
    requires inside { from < 256 }
    ensures { OnOk result (into.new ≡ into.old ++ drop from (joined packs.now)) }
{
    let mut left_out = from;
    for pack in packs {
        pack.unpack(alloc, left_out, into)?;
        left_out = 0;
    }
    Ok(())
}
