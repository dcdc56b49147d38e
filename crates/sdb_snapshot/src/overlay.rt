//! The rows that a transaction sees.
ghost use Rattle.std.specs.Prelude.{◌≡◌, ◌++◌, IfOk, OnOk};
ghost use Rattle.sdb_snapshot.specs.Reads.{base_at};
ghost use Rattle.sdb_snapshot.specs.Rows.{row_found};
ghost use Rattle.sdb_snapshot.specs.Seen.{images_at, images_with, row_seen};

use crate::read_set::ReadSet;
use crate::row::{row_of_change, row_of_found};
use crate::write_set::WriteSet;
use sdb_record::{Image, Images};
use sdb_types::{Columns, Duplicate, Key, NoMemory, Records};
use std::alloc::Global;

// The row of what was found at a key, which is looked for first at the place `next`.
fn row_noted(
    alloc: Global,
    read_set: &ReadSet,
    next: &mut usize,
    key: &Key,
) -> Result<Option<Columns>, NoMemory>
    ensures { IfOk result (λ row. row ≡ row_found (base_at read_set.now key.now)) }
{
    match read_set.get_next(next, key) {
        Some(found) => row_of_found(alloc, found),
        None => Ok(None),
    }
}

// The row that is seen at a key: what was written there, or else the row of what was found.
fn row_at(
    alloc: Global,
    read_set: &ReadSet,
    write_set: &WriteSet,
    next: &mut usize,
    key: &Key,
) -> Result<Option<Columns>, NoMemory>
    ensures { IfOk result (λ row. row ≡ row_seen read_set.now write_set.now key.now) }
{
    match write_set.get(key) {
        Some(write) => row_of_change(&write.change),
        None => row_noted(alloc, read_set, next, key),
    }
}

// Puts the image of a row last, where there is one.
fn put_image(images: &mut Images, key: Key, row: Option<Columns>) -> Result<(), NoMemory>
    ensures { OnOk result (images.new ≡ images.old ++ images_with key row) }
{
    if let Some(columns) = row {
        images.push(Image { key, columns })?;
    }
    Ok(())
}

/// The row that is seen at a key, as an image.
pub fn image_of_key(
    alloc: Global,
    read_set: &ReadSet,
    write_set: &WriteSet,
    key: &Key,
) -> Result<Images, NoMemory>
    ensures { IfOk result (λ images. images ≡ images_with key.now (row_seen read_set.now write_set.now key.now)) }
{
    let mut images = Images::new(alloc);
    let mut next = 0;
    if let Some(columns) = row_at(alloc, read_set, write_set, &mut next, key)? {
        images.push(Image {
            key: key.copy()?,
            columns,
        })?;
    }
    Ok(images)
}

// Puts the image of each key's row last. Keys of one scan come in the order in which they were read.
fn put_images(
    alloc: Global,
    images: &mut Images,
    read_set: &ReadSet,
    write_set: &WriteSet,
    keys: Records,
) -> Result<(), NoMemory>
    ensures { OnOk result (images.new ≡ images.old ++ images_at (row_seen read_set.now write_set.now) keys) }
{
    let mut next = 0;
    for rec in keys.into_vec() {
        let row = row_at(alloc, read_set, write_set, &mut next, &rec.key)?;
        put_image(images, rec.into_key(), row)?;
    }
    Ok(())
}

/// The rows that are seen at keys, as images.
pub fn images_of_keys(
    alloc: Global,
    read_set: &ReadSet,
    write_set: &WriteSet,
    keys: Records,
) -> Result<Images, NoMemory>
    ensures { IfOk result (λ images. images ≡ images_at (row_seen read_set.now write_set.now) keys) }
{
    let mut images = Images::with_room(alloc, keys.len())?;
    put_images(alloc, &mut images, read_set, write_set, keys)?;
    Ok(images)
}
