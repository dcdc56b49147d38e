//! What a transaction has read and written.
ghost use Rattle.std.specs.Prelude.{◌≡◌, ◌≤◌, ◌<◌, ◌++◌, [], ◌∷◌, IfOk, OnOk, OnErr, IfSome, length, take, true, false, Err, Option};
ghost use Rattle.std.specs.Option.{option_copied, option_map};
ghost use Rattle.sdb_types.specs.Contents.{are_rows_of};
ghost use Rattle.sdb_types.specs.declared.key.Key.{Key as KeyValue};
ghost use Rattle.sdb_types.specs.declared.record.Record.{Record as RecordValue};
ghost use Rattle.sdb_record.specs.declared.access.Access.TheVariants as access;
ghost use Rattle.sdb_record.specs.Rolls.{IsBaseOf, AreCommitted};
ghost use Rattle.sdb_snapshot.specs.Reads.{IsFirstDifference, IsUnmoved, is_key_read, record_read_at, with_images};
ghost use Rattle.sdb_snapshot.specs.Written.{AreChanges, AreWrites, HaveBases, HaveKeysOnce, most_writes};
ghost use Rattle.sdb_snapshot.specs.Sets.{IsSetInvariant};
ghost use Rattle.sdb_snapshot.specs.Seen.{forgotten, is_scanned, mark_of, nothing, overlay, with_get, with_scan, with_written};
ghost use Rattle.sdb_snapshot.specs.declared.write_set.WriteRefused.TheVariants as refused;
ghost use Rattle.sdb_snapshot.specs.declared.snapshot.NoteRefused.TheVariants as refused_note;

use crate::difference::{first_changed, versions_of};
use crate::overlay::{image_of_key, images_of_keys};
use crate::prefix::cut;
use crate::read_set::ReadSet;
use crate::scan_list::ScanList;
use crate::write_set::{WriteRefused, WriteSet};
use sdb_record::{Changes, Images, Read, Reads, Scan, Scans, Writes, version_of};
use sdb_types::{Duplicate, Key, NoMemory, Record, Records, Span};
use std::alloc::Global;
use std::marker::Model;
use thiserror::Error;

/// Why a scan was not recorded.
#[derive(Debug, Drop, Error, PartialEq, Eq)]
pub enum NoteRefused {
    /// A key that was read has another version now: the record of the scan there, or none.
    #[error("a read differs")]
    Differs(Key, Option<Record>),
    #[error("out of memory")]
    NoMemory,
}

impl From<NoMemory> for NoteRefused {
    ghost from_gives = { λ _ e. e ≡ refused_note.NoMemory };

    fn from(_e: NoMemory) -> NoteRefused {
        NoteRefused::NoMemory
    }
}

/// What a transaction has read and written.
///
/// Records of the read set are found in a tree of keys, own writes too, and scans in a tree of spans. So `lookup` takes time as
/// the logarithm of the number of keys, `write` as much for each change, and `scanned` as the logarithm of the number of scans.
/// The keys read are in a tree of their own too, so that `overlay_span` looks at the keys of its span alone.
pub struct Snapshot {
    alloc: Global,
    read_set: ReadSet,
    write_set: WriteSet,
    reads: Reads,
    scans: ScanList,
}

// By hand: each drop is then one call, where a derived one is written out at each exit, with a call for each field.
impl Drop for Snapshot {
    fn drop(self) {
        let Snapshot {
            alloc: _,
            read_set: _,
            write_set: _,
            reads: _,
            scans: _,
        } = self;
    }
}

impl Model for Snapshot {
    ghost use Rattle.sdb_snapshot.specs.Sets.{IsSetInvariant};
    ghost use Rattle.sdb_snapshot.specs.Seen.{Seen};

    ghost Value = { Seen };

    ghost view = { λ s. record { read_set = s.read_set; reads = s.reads; scans = s.scans; writes = s.write_set } };

    ghost invariant = { λ s. IsSetInvariant s.read_set s.write_set };
}

/// How large a transaction's read set was at a moment.
#[derive(Clone, Copy, Debug, PartialEq, Eq)]
pub struct Mark {
    pub read_set: usize,
    pub reads: usize,
    pub scans: usize,
}

impl Snapshot {
    /// Nothing read and nothing written.
    pub fn new(alloc: Global) -> Snapshot
        ensures { result ≡ nothing }
    {
        Snapshot {
            alloc,
            read_set: ReadSet::new(alloc),
            write_set: WriteSet::new(alloc),
            reads: Reads::new(alloc),
            scans: ScanList::new(alloc),
        }
    }

    /// What was found at a key, where it was read: by a get, or as a row of a scan. Takes no memory.
    pub fn lookup(&self, key: &Key) -> Option<Option<&Record>>
        ensures { option_map option_copied result ≡ record_read_at self.now.read_set key.now }
    {
        match self.read_set.get(key) {
            Some(found) => Some(found.as_ref()),
            None => None,
        }
    }

    // Records a get that made a call.
    fn note_read(&mut self, key: Key, image: Option<Record>, read: Read) -> Result<(), NoMemory>
        requires unread { is_key_read self.old.read_set key ≡ false }
        requires image { IfSome image (IsBaseOf key) }
        ensures ok { OnOk result (self.new ≡ record self.old { read_set = self.old.read_set ++ (key, image) ∷ []; reads = self.old.reads ++ read ∷ [] }) }
        ensures err { OnErr result (self.new ≡ self.old) }
    {
        let len = self.reads.len();
        self.reads.push(read)?;
        match self.read_set.record_found(key, image) {
            Ok(()) => Ok(()),
            Err(NoMemory) => {
                self.reads.remove(len);
                Err(NoMemory)
            }
        }
    }

    /// Records a get that made a call: of a key that was not read, with its committed record or none.
    pub fn note_get(&mut self, key: Key, image: Option<Record>) -> Result<(), NoMemory>
        requires unread { is_key_read self.old.read_set key ≡ false }
        requires image { IfSome image (IsBaseOf key) }
        ensures ok { OnOk result (self.new ≡ with_get self.old key image) }
        ensures err { OnErr result (self.new ≡ self.old) }
    {
        let read = Read {
            key: key.copy()?,
            version: version_of(&image),
        };
        self.note_read(key, image, read)
    }

    /// Whether a span was scanned. Takes no memory, and time as the logarithm of the number of scans.
    pub fn scanned(&self, span: &Span) -> bool
        ensures { result ≡ is_scanned self.now.scans span.now }
    {
        self.scans.has(span)
    }

    // Finds the first difference between what was read and a scan.
    fn find_moved(&self, span: &Span, images: &Records) -> Result<(), NoteRefused>
        requires { are_rows_of span.now images.now ≡ true }
        ensures unmoved { OnOk result (IsUnmoved self.now.read_set span.now images.now) }
        ensures differs { (key : KeyValue) (found : Option RecordValue) → result ≡ Err (refused_note.Differs key found) → IsFirstDifference self.now.read_set span.now images.now key found }
    {
        let keys = self.read_set.keys_in(span)?;
        if keys.len() == 0 {
            return Ok(());
        }
        let rows = images.copy()?;
        let mut now = ReadSet::new(self.alloc);
        now.record_all(rows)?;
        match first_changed(&self.read_set, &now, keys.as_slice()) {
            Some(rec) => Err(NoteRefused::Differs(rec.key.copy()?, now.base(&rec.key)?)),
            None => Ok(()),
        }
    }

    // Records a scan that differs nowhere.
    fn note_rows(&mut self, scan: Scan, images: Records) -> Result<(), NoMemory>
        requires rows { are_rows_of scan.span images ≡ true }
        requires committed { AreCommitted images }
        ensures ok { OnOk result (self.new ≡ record self.old { read_set = with_images self.old.read_set images; scans = self.old.scans ++ scan ∷ [] }) }
        ensures err { OnErr result (self.new ≡ self.old) }
    {
        let len = self.scans.len();
        self.scans.push(scan)?;
        match self.read_set.record_all(images) {
            Ok(()) => Ok(()),
            Err(NoMemory) => {
                self.scans.cut(len);
                Err(NoMemory)
            }
        }
    }

    /// Records a scan that made a call, with the committed records found, tombstones included: those of keys that were not
    /// read are added. Where a key that was read has another version among them, it returns the first such key, and records
    /// nothing.
    pub fn note_scan(&mut self, span: Span, images: Records) -> Result<(), NoteRefused>
        requires rows { are_rows_of span images ≡ true }
        requires committed { AreCommitted images }
        ensures ok { OnOk result (self.new ≡ with_scan self.old span images) }
        ensures unmoved { OnOk result (IsUnmoved self.old.read_set span images) }
        ensures differs { (key : KeyValue) (found : Option RecordValue) → result ≡ Err (refused_note.Differs key found) → IsFirstDifference self.old.read_set span images key found }
        ensures err { OnErr result (self.new ≡ self.old) }
    {
        match self.find_moved(&span, &images) {
            Ok(()) => {
                let found = versions_of(self.alloc, images.as_slice())?;
                self.note_rows(Scan { span, found }, images)?;
                Ok(())
            }
            Err(refused) => Err(refused),
        }
    }

    /// The row that is seen at a key: what was written there, or else what was found.
    pub fn overlay_key(&self, key: &Key) -> Result<Images, NoMemory>
        ensures { IfOk result (λ images. images ≡ overlay (access.Get key.now) self.now) }
    {
        image_of_key(self.alloc, &self.read_set, &self.write_set, key)
    }

    /// The rows that are seen in a span, in the order of their keys: all that were recorded there, also those that another
    /// read, with what was written laid over them; tombstones and deleted rows are left out. With m keys read in the
    /// span among n in all it takes time in the order of m + log n, since their tree is read from the span's least key on.
    pub fn overlay_span(&self, span: &Span) -> Result<Images, NoMemory>
        ensures { IfOk result (λ images. images ≡ overlay (access.Scan span.now) self.now) }
    {
        let keys = self.read_set.keys_in(span)?;
        images_of_keys(self.alloc, &self.read_set, &self.write_set, keys)
    }

    /// Writes changes of keys that were read, in order: all or, where they are refused, none. A key that was written keeps
    /// its place and its base, and takes the change.
    pub fn write(&mut self, changes: Changes) -> Result<(), WriteRefused>
        requires { AreChanges self.old.read_set changes }
        ensures ok { OnOk result (self.new ≡ with_written self.old changes) }
        ensures fits { OnOk result (length (with_written self.old changes).writes ≤ most_writes) }
        ensures many { result ≡ Err refused.TooManyWrites → most_writes < length (with_written self.old changes).writes }
        ensures err { OnErr result (self.new ≡ self.old) }
    {
        self.write_set.write(&self.read_set, changes)
    }

    /// How much is recorded now. Takes no memory.
    pub fn mark(&self) -> Mark
        ensures mark { result ≡ mark_of self.now }
        ensures kept { IsSetInvariant self.now.read_set self.now.writes }
    {
        Mark {
            read_set: self.read_set.len(),
            reads: self.reads.len(),
            scans: self.scans.len(),
        }
    }

    /// Forgets what was recorded after a mark, of which nothing was written. Takes no memory.
    pub fn forget(&mut self, mark: Mark)
        requires { IsSetInvariant (take mark.read_set self.old.read_set) self.old.writes }
        ensures { self.new ≡ forgotten mark self.old }
    {
        self.read_set.cut(mark.read_set);
        cut(self.alloc, &mut self.reads, mark.reads);
        self.scans.cut(mark.scans);
    }

    /// The writes, reads and scans, as a COMMIT takes them. Takes no memory.
    pub fn into_parts(self) -> (Writes, Reads, Scans)
        ensures writes { result.0 ≡ self.writes }
        ensures valid { AreWrites self.writes }
        ensures once { HaveKeysOnce self.writes }
        ensures reads { result.1 ≡ self.reads }
        ensures scans { result.2 ≡ self.scans }
    {
        let Snapshot {
            alloc: _,
            read_set: _,
            write_set,
            reads,
            scans,
        } = self;
        (write_set.into_writes(), reads, scans.into_scans())
    }

    /// The writes: one for each key, with its base, in the order of first writing. Each may be prepared. Takes no memory.
    pub fn writes(&self) -> &Writes
        ensures all { result.now ≡ self.now.writes }
        ensures valid { AreWrites self.now.writes }
        ensures based { HaveBases self.now.read_set self.now.writes }
        ensures once { HaveKeysOnce self.now.writes }
    {
        self.write_set.all()
    }

    /// The gets that made a call, in their order. Takes no memory.
    pub fn reads(&self) -> &Reads
        ensures { result.now ≡ self.now.reads }
    {
        &self.reads
    }

    /// The scans that made a call, in their order, with the versions found, tombstones included. Takes no memory.
    pub fn scans(&self) -> &Scans
        ensures { result.now ≡ self.now.scans }
    {
        self.scans.all()
    }
}
