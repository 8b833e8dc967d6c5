//! The key of a store, and the ids by which it names its folders.
ghost use Rattle.std.specs.Prelude.{◌≡◌, ◌++◌, IfOk, OnOk};
ghost use Rattle.mail_tree.specs.Start.{entry_id, record_key, utf8_bytes, utf8_of};

use mapi_values::{Character, Units, split_character};
use pst_checksum::crc;
use std::alloc::{AllocError, Global};

/// Puts the bytes of a character at the end. An `Err` leaves a vector that is to be given up.
fn push_utf8(bytes: &mut Vec<u8>, character: Character) -> Result<(), AllocError>
    ensures { OnOk result (bytes.new.items ≡ bytes.old.items ++ utf8_bytes character) }
{
    match character {
        Character::Scalar(c) => {
            let mut buffer = [0u8; 4];
            bytes.extend_from_slice(c.encode_utf8(&mut buffer).as_bytes())
        }
        Character::Unpaired(unit) => bytes.extend_from_slice(&[
            0xE0 + (unit / 4096) as u8,
            0x80 + (unit / 64 % 64) as u8,
            0x80 + (unit % 64) as u8,
        ]),
    }
}

/// A text as UTF-8, where an unpaired surrogate has the three bytes of its number.
fn utf8_of(alloc: Global, units: &Units) -> Result<Vec<u8>, AllocError>
    ensures { IfOk result (λ bytes. bytes.items ≡ utf8_of units.now) }
{
    let mut bytes = Vec::with_capacity(alloc, units.len())?;
    let mut rest = units.as_slice();
    while let Some((character, after)) = split_character(rest) {
        push_utf8(&mut bytes, character)?;
        rest = after;
    }
    Ok(bytes)
}

/// The record key of a store of this name: the checksum of the name as UTF-8 and its length in bytes, each in 4 bytes, and who made it.
#[tactic(auto, unfolding(mail_tree::specs::Start::record_key))]
pub fn record_key(alloc: Global, name: &Units) -> Result<Vec<u8>, AllocError>
    ensures { IfOk result (λ key. key.items ≡ record_key name.now) }
{
    let bytes = utf8_of(alloc, name)?;
    let len = bytes.len() as u64;
    let mut key = Vec::with_capacity(alloc, 16)?;
    key.extend_from_slice(&crc(bytes.as_slice()).to_le_bytes())?;
    key.extend_from_slice(&len.to_le_bytes()[..4])?;
    key.extend_from_slice(b"PSTORE01")?;
    Ok(key)
}

/// The entry id by which a store of this key names a folder.
pub fn entry_id(alloc: Global, key: &[u8], folder: u32) -> Result<Vec<u8>, AllocError>
    ensures { IfOk result (λ entry. entry.items ≡ entry_id key.now folder) }
{
    let mut entry = Vec::with_capacity(alloc, 24)?;
    entry.extend_from_slice(&[0; 4])?;
    entry.extend_from_slice(key)?;
    entry.extend_from_slice(&folder.to_le_bytes())?;
    Ok(entry)
}
