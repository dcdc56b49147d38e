//! The scans that a transaction made, found by their spans.
ghost use Rattle.std.specs.Prelude.{◌≡◌, ◌++◌, [], ◌∷◌, OnOk, OnErr, length, take, false};
ghost use Rattle.sdb_snapshot.specs.Sets.{is_scan_at as is_scan_at_lem};
ghost use Rattle.sdb_snapshot.specs.Seen.{is_scanned};

use crate::prefix::cut;
use crate::spans::SpanPlaces;
use sdb_record::{Scan, Scans};
use sdb_types::{NoMemory, Span};
use std::alloc::Global;
use std::marker::Model;

/// The scans in their order, and for each span the place of its first scan, found by the span. There may be places more, of
/// scans that were cut off, or that memory ran out for: a place counts where the scan there is of its span.
pub struct ScanList {
    alloc: Global,
    scans: Scans,
    places: SpanPlaces,
}

// By hand: each drop is then one call, where a derived one is written out at each exit, with a call for each field.
impl Drop for ScanList {
    fn drop(self) {
        let ScanList {
            alloc: _,
            scans: _,
            places: _,
        } = self;
    }
}

impl Model for ScanList {
    ghost use Rattle.std.specs.Prelude.{List};
    ghost use Rattle.sdb_record.specs.declared.access.Scan.{Scan as ScanValue};
    ghost use Rattle.sdb_snapshot.specs.Sets.{HaveFirstIndexes};
    ghost use Rattle.sdb_snapshot.specs.Spans.{place_in_tables};

    ghost Value = { List ScanValue };

    ghost view = { λ l. l.scans };

    ghost invariant = { λ l. HaveFirstIndexes l.scans (place_in_tables l.places.tables) };
}

// Whether the scan at a place is of a span.
fn is_scan_at(scans: &Scans, i: usize, span: &Span) -> bool
    ensures { result ≡ is_scan_at_lem scans.now i span.now }
{
    match scans.at(i) {
        Some(scan) => scan.span == *span,
        None => false,
    }
}

impl ScanList {
    /// No scans.
    pub fn new(alloc: Global) -> ScanList
        ensures { result ≡ [] }
    {
        ScanList {
            alloc,
            scans: Scans::new(alloc),
            places: SpanPlaces::new(alloc),
        }
    }

    /// How many scans there are.
    pub fn len(&self) -> usize
        ensures { result ≡ length self.now }
    {
        self.scans.len()
    }

    /// All scans, in their order.
    pub fn all(&self) -> &Scans
        ensures { result.now ≡ self.now }
    {
        &self.scans
    }

    /// Whether a span was scanned. Takes no memory, and time as the logarithm of the number of scans.
    pub fn has(&self, span: &Span) -> bool
        ensures { result ≡ is_scanned self.now span.now }
    {
        match self.places.get(span) {
            Some(i) => is_scan_at(&self.scans, i, span),
            None => false,
        }
    }

    // Puts a scan last whose span was not scanned, and its place.
    fn push_new(&mut self, scan: Scan) -> Result<(), NoMemory>
        requires { is_scanned self.old scan.span ≡ false }
        ensures ok { OnOk result (self.new ≡ self.old ++ scan ∷ []) }
        ensures err { OnErr result (self.new ≡ self.old) }
    {
        self.places.put(&scan.span, self.scans.len())?;
        self.scans.push(scan)
    }

    /// Puts a scan last.
    pub fn push(&mut self, scan: Scan) -> Result<(), NoMemory>
        ensures ok { OnOk result (self.new ≡ self.old ++ scan ∷ []) }
        ensures err { OnErr result (self.new ≡ self.old) }
    {
        if !self.has(&scan.span) {
            return self.push_new(scan);
        }
        self.scans.push(scan)
    }

    /// Keeps the scans that were put first, so many. Takes no memory.
    pub fn cut(&mut self, len: usize)
        ensures { self.new ≡ take len self.old }
    {
        cut(self.alloc, &mut self.scans, len);
    }

    /// The scans without their places. Takes no memory.
    pub fn into_scans(self) -> Scans
        ensures { result ≡ self }
    {
        let ScanList {
            alloc: _,
            scans,
            places: _,
        } = self;
        scans
    }
}
