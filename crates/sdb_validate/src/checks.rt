//! The extra reads, made from what a transaction read and wrote.
ghost use Rattle.std.specs.Prelude.{◌≡◌, IfOk, OnOk, ◌++◌, false, filter, not, map, slice_get};
ghost use Rattle.std.specs.Option.{option_copied, option_map_or};
ghost use Rattle.std.specs.BTreeMap.{get};
ghost use Rattle.std.specs.FinMap as fin;
ghost use Rattle.sdb_types.specs.declared.key.Key.{Key as KeyValue};
ghost use Rattle.sdb_types.specs.Contents.{in_span};
ghost use Rattle.sdb_types.specs.Order.{key_cmp, same_key};
ghost use Rattle.sdb_phases.specs.Checks.{with_reads, wished_version, base_of, check_of_read, check_of_scan, checks_of, wanted as wanted_lem};
ghost use Rattle.sdb_validate.specs.Rescan.{expected_of_written, reads_rise, wanted_of_read};
ghost use Rattle.sdb_record.specs.Among.{is_written};

use crate::key_map::ExpectedMap;
use sdb_ordered::least_key;
use sdb_phases::{Check, Checks, Expectations, Expected, Target, Wanted};
use sdb_record::{Read, Reads, Scan, Scans, Write, Writes, is_same_version, version_of};
use sdb_types::{Duplicate, Key, NoMemory, Request, Seq, Span, TxId, find_rising};
use std::alloc::Global;
use std::collections::BTreeMap;

/// The written keys in key order, each with the version of the base of its first write.
type Bases = BTreeMap<Key, Option<TxId>>;

// Whether a base has the version that is wished at its key.
fn is_based(wish: Option<&Expected>, base: Option<TxId>) -> bool
    ensures { result ≡ wished_version (option_copied wish.entry) base }
{
    match wish {
        None => base.is_none(),
        Some(Expected::Unchanged(version)) => is_same_version(base, *version),
        Some(Expected::Based(same)) => *same,
    }
}

// Each key that was found is to have its version.
fn put_reads(wishes: &mut ExpectedMap, reads: &[Read]) -> Result<(), NoMemory>
    ensures { OnOk result (wishes.new ≡ with_reads reads.now wishes.old) }
{
    for read in reads {
        wishes.insert(&read.key, Expected::Unchanged(read.version))?;
    }
    Ok(())
}

// Each written key of the span is left out, on condition that its base was found. These keys come together, from the span's
// least key on.
fn put_writes(
    alloc: Global,
    wishes: &mut ExpectedMap,
    span: &Span,
    bases: &Bases,
) -> Result<(), NoMemory>
    ensures { OnOk result ((key : KeyValue) → fin.get wishes.new key ≡ expected_of_written (in_span span.now key) (get key_cmp bases.now key) (fin.get wishes.old key)) }
{
    let start = least_key(alloc, span)?;
    for (key, base) in bases.range(start..) {
        if !span.contains(key) {
            break;
        }
        let same = is_based(wishes.find(key), *base);
        wishes.insert(key, Expected::Based(same))?;
    }
    Ok(())
}

// Whether the keys of reads rise.
fn rise(reads: &[Read]) -> bool
    ensures { result ≡ reads_rise reads.now }
{
    let mut i = 1;
    while i < reads.len() {
        if !reads[i - 1].key.compare(&reads[i].key).is_lt() {
            return false;
        }
        i += 1;
    }
    true
}

// Each key that was found, with its version.
fn unchanged(alloc: Global, reads: &[Read]) -> Result<Expectations, NoMemory>
    ensures { IfOk result (λ wants. wants ≡ map wanted_of_read reads.now) }
{
    let mut wants = Seq::new(alloc);
    for read in reads {
        wants.push(Wanted {
            key: read.key.copy()?,
            wish: Expected::Unchanged(read.version),
        })?;
    }
    Ok(wants)
}

// What a scan is to find: where nothing was written, what it found.
fn wanted(
    alloc: Global,
    bases: &Bases,
    own: &[Write],
    scan: &Scan,
) -> Result<Expectations, NoMemory>
    requires { (key : KeyValue) → get key_cmp bases.now key ≡ base_of own.now key }
    ensures { IfOk result (λ wants. wants ≡ wanted_lem own.now scan.now) }
{
    let found = scan.found.as_slice();
    if bases.is_empty() && rise(found) {
        return unchanged(alloc, found);
    }
    let mut wishes = ExpectedMap::new(alloc);
    put_reads(&mut wishes, found)?;
    put_writes(alloc, &mut wishes, &scan.span, bases)?;
    wishes.list()
}

// A scan again, with what it is to find.
fn rescan(alloc: Global, bases: &Bases, own: &[Write], scan: &Scan) -> Result<Check, NoMemory>
    requires { (key : KeyValue) → get key_cmp bases.now key ≡ base_of own.now key }
    ensures { IfOk result (λ check. check ≡ check_of_scan own.now scan.now) }
{
    Ok(Check {
        request: Request::Scan(scan.span.copy()?),
        target: Target::Rows(wanted(alloc, bases, own, scan)?),
    })
}

// A get again, with the version that it is to find.
fn reread(read: &Read) -> Result<Check, NoMemory>
    ensures { IfOk result (λ check. check ≡ check_of_read read.now) }
{
    Ok(Check {
        request: Request::Get(read.key.copy()?),
        target: Target::Version(read.version),
    })
}

// The written keys, each put in at its first write.
fn bases_of(alloc: Global, own: &[Write]) -> Result<Bases, NoMemory>
    ensures { IfOk result (λ bases. (key : KeyValue) → get key_cmp bases key ≡ base_of own.now key) }
{
    let mut bases = BTreeMap::new(alloc);
    for write in own {
        if find_rising(&bases, &write.key).is_none() {
            bases.insert(write.key.copy()?, version_of(&write.base))?;
        }
    }
    Ok(bases)
}

// Whether the i-th write is of a key.
fn is_write_of(own: &[Write], i: usize, key: &Key) -> bool
    ensures { result ≡ option_map_or (λ w. same_key key.now w.key) (slice_get own.now i) false }
{
    match own.get(i) {
        Some(write) => key.compare(&write.key).is_eq(),
        None => false,
    }
}

// The reads without the first ones, as long as the i-th is of the key of the i-th write: where a transaction writes each key
// that it reads, in this order, none is left.
fn unpaired<'a>(own: &[Write], reads: &'a [Read]) -> &'a [Read]
    ensures { filter (λ r. not (is_written own.now r.key)) result.now ≡ filter (λ r. not (is_written own.now r.key)) reads.now }
{
    for (i, read) in reads.iter().enumerate() {
        if !is_write_of(own, i, &read.key) {
            return &reads[i..];
        }
    }
    &[]
}

fn put_rereads(
    checks: &mut Checks,
    bases: &Bases,
    own: &[Write],
    reads: &[Read],
) -> Result<(), NoMemory>
    requires { (key : KeyValue) → get key_cmp bases.now key ≡ base_of own.now key }
    ensures { OnOk result (checks.new ≡ checks.old ++ map check_of_read (filter (λ r. not (is_written own.now r.key)) reads.now)) }
{
    for read in reads {
        if bases.get(&read.key).is_none() {
            checks.push(reread(read)?)?;
        }
    }
    Ok(())
}

fn put_rescans(
    alloc: Global,
    checks: &mut Checks,
    bases: &Bases,
    own: &[Write],
    scans: &[Scan],
) -> Result<(), NoMemory>
    requires { (key : KeyValue) → get key_cmp bases.now key ≡ base_of own.now key }
    ensures { OnOk result (checks.new ≡ checks.old ++ map (check_of_scan own.now) scans.now) }
{
    for scan in scans {
        checks.push(rescan(alloc, bases, own, scan)?)?;
    }
    Ok(())
}

/// The extra reads of a transaction, in order: a get of each key that was read by a get and isn't written, and then each
/// scan again.
pub fn checks(alloc: Global, reads: &Reads, scans: &Scans, own: &Writes) -> Result<Checks, NoMemory>
    ensures { IfOk result (λ checks. checks ≡ checks_of own.now reads.now scans.now) }
{
    let rest = unpaired(own.as_slice(), reads.as_slice());
    let mut checks = Seq::new(alloc);
    if rest.is_empty() && scans.is_empty() {
        return Ok(checks);
    }
    let bases = bases_of(alloc, own.as_slice())?;
    put_rereads(&mut checks, &bases, own.as_slice(), rest)?;
    put_rescans(alloc, &mut checks, &bases, own.as_slice(), scans.as_slice())?;
    Ok(checks)
}
