//! A keeper over a journal.
ghost use Rattle.std.specs.Prelude.{◌≡◌, ◌≢◌, ◌≤◌, ◌+◌, ◌++◌, true, false, [], IfOk, OnOk, List, codes, decimal};
ghost use Rattle.std.specs.FinMap.Entries.{put};
ghost use Rattle.cat_io.specs.Causes.{Rose};
ghost use Rattle.cat_keeper.specs.Store.{Changes, Rows, row_cmp};
ghost use Rattle.cat_journal.specs.Scanning.{GivesScan, AreDurable, content_read};
ghost use Rattle.cat_journal.specs.Stands.{Stands, IsSafeLoaded, IsSafeCommit};
ghost use Rattle.cat_keeper.specs.Answers.{Loads, Commits};
ghost use Rattle.cat_journal.specs.Keeps.{told, damage_rows, IsDamage};
ghost use Rattle.cat_keeper.specs.declared.keeper.Place.{Place};

use crate::commit::put;
use crate::gate::Put;
use crate::load::{Known, Loading, load_rows};
use crate::records::record;
use cat_collections::map::Map;
use cat_disk::Disk;
use cat_keeper::keeper::{Committed, Keeper, Loaded, Place};
use cat_keeper::rows::{Batch, StoredRows};
use cat_keeper::table::Table;
use cat_tree::text::Text;
use std::alloc::{AllocError, Global};
use std::marker::Model;

/// A keeper of rows in a journal on a disk. It makes no use of the place.
///
/// Before the first load, and after a load that wasn't good, each commit fails and counts a fault of the keeper's own. A load is
/// good where it gave rows and found no damage. Damage is handed up as two rows of the counters, `arrival` with the text `1` and
/// `journal P` with no text, where P is the position of the damage, so that an opening names it. The file never shrinks.
#[derive(Drop)]
pub struct JournalKeeper<D: Disk> {
    disk: D,
    known: Known,
    ready: bool,
    refusals: u64,
}

impl<D: Disk> Model for JournalKeeper<D> {
    ghost use Rattle.std.specs.Prelude.{◌+◌};
    ghost use Rattle.cat_journal.specs.Keeps.{JournalState, IsKept};

    ghost Value = { JournalState };

    ghost view = { λ k. record { moments = D.moments k.disk; content = D.content k.disk; known = k.known; ready = k.ready; faults = D.faults k.disk + k.refusals } };

    ghost invariant = { λ k. IsKept k.known k.ready (record { moments = D.moments k.disk; content = D.content k.disk }) };
}

// The key under which damage at a position is handed up.
fn damage_key(alloc: Global, place: u64) -> Result<Text, AllocError>
    ensures { IfOk result (λ t. t ≡ codes "journal " ++ decimal place) }
{
    Ok(Text::from_string(format!(in alloc; "journal {place}")?))
}

// A text under a key among the counters.
fn put_counter(
    alloc: Global,
    rows: &mut StoredRows,
    key: Text,
    text: &str,
) -> Result<(), AllocError>
    ensures { OnOk result (rows.new ≡ put row_cmp (Table.Counters, key) text.now rows.old) }
{
    let text = Text::of(alloc, text)?;
    rows.put(alloc, (Table::Counters, key), text)
}

// The rows by which damage at a position is handed up.
fn damage(alloc: Global, place: u64) -> Result<StoredRows, AllocError>
    ensures { IfOk result (λ rows. rows ≡ damage_rows place) }
{
    let mut rows = Map::new();
    let key = Text::of(alloc, "arrival")?;
    put_counter(alloc, &mut rows, key, "1")?;
    let key = damage_key(alloc, place)?;
    put_counter(alloc, &mut rows, key, "")?;
    Ok(rows)
}

// Hands up damage at a position.
fn damaged(alloc: Global, place: u64) -> Loaded
    ensures { IsDamage place result }
{
    match damage(alloc, place) {
        Ok(rows) => Loaded::Rows(rows),
        Err(_) => Loaded::NoMemory,
    }
}

impl<D: Disk> JournalKeeper<D> {
    /// A keeper over a disk, which it doesn't call. It takes no memory.
    pub fn over(disk: D) -> JournalKeeper<D>
        ensures { result ≡ record { moments = D.moments disk; content = D.content disk; known = Known.Nothing; ready = false; faults = D.faults disk + 0 } }
    {
        JournalKeeper {
            disk,
            known: Known::Nothing,
            ready: false,
            refusals: 0,
        }
    }

    /// The disk on which the journal is.
    pub fn disk(&self) -> &D
        ensures moments { D.moments result.now ≡ self.now.moments }
        ensures content { D.content result.now ≡ self.now.content }
    {
        &self.disk
    }
}

impl<D: Disk> Keeper for JournalKeeper<D> {
    ghost tables = { λ place k. told k.known k.moments k.content };

    ghost faults = { λ k. k.faults };

    fn load(&mut self, alloc: Global, _place: &Place) -> Loaded
        ensures tables { Loads (told self.old.known self.old.moments self.old.content) (told self.new.known self.new.moments self.new.content) result }
        ensures later { self.old.faults ≤ self.new.faults }
        ensures cause { result ≡ Loaded.Failed → Rose self.old.faults self.new.faults }
        // The rows of a journal stand, whatever crash comes, and are what is given.
        ensures crash { (base : Rows) (more : List Changes) → Stands base more self.old.known (record { moments = self.old.moments; content = self.old.content }) → IsSafeLoaded base more (record { moments = self.old.moments; content = self.old.content }) (record { moments = self.new.moments; content = self.new.content }) self.new.known result }
        // Where the disk tells its content, what is given is what a scan of it gives: its rows, or the two that name the place where it is
        // damaged.
        ensures scanned { self.old.moments ≢ [] → GivesScan (content_read self.old.known self.old.content) self.new.content result self.new.ready }
        // After a good load a crash leaves only content of which a scan gives the same rows.
        ensures durable { self.old.moments ≢ [] → self.new.ready ≡ true → AreDurable self.new.moments self.new.content result }
    {
        let (known, loading) = load_rows(alloc, &mut self.disk, self.known);
        self.known = known;
        self.ready = false;
        match loading {
            Loading::Found(rows) => {
                self.ready = true;
                Loaded::Rows(rows)
            }
            Loading::Damaged(place) => damaged(alloc, place),
            Loading::Failed => Loaded::Failed,
            Loading::NoMemory => Loaded::NoMemory,
        }
    }

    fn commit(&mut self, alloc: Global, batch: &Batch) -> Committed
        ensures tables { (place : Place) → Commits (told self.old.known self.old.moments self.old.content) (told self.new.known self.new.moments self.new.content) result batch.now }
        ensures later { self.old.faults ≤ self.new.faults }
        ensures cause { result ≡ Committed.Failed → Rose self.old.faults self.new.faults }
        // The rows of a journal stand, whatever crash comes, with the batch once it is kept.
        ensures crash { (base : Rows) (more : List Changes) → Stands base more self.old.known (record { moments = self.old.moments; content = self.old.content }) → IsSafeCommit base more batch.now (record { moments = self.old.moments; content = self.old.content }) (record { moments = self.new.moments; content = self.new.content }) self.new.known result }
        // Where the last load wasn't good, nothing is done.
        ensures unready { self.old.ready ≡ false → result ≡ Committed.Failed }
    {
        if !self.ready {
            self.refusals = self.refusals.saturating_add(1);
            return Committed::Failed;
        }
        let Ok(text) = record(alloc, batch) else {
            return Committed::NoMemory;
        };
        let (known, put) = put(&mut self.disk, self.known, &text);
        self.known = known;
        match put {
            Put::Kept => Committed::Kept,
            Put::Behind => Committed::Failed,
            Put::AtGate => Committed::Failed,
        }
    }
}
