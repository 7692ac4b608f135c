//! The writes of a log.

ghost use Rattle.std.specs.Prelude.{◌≡◌, ◌++◌, OnOk};
ghost use Rattle.ftc_message.specs.Logged.{key_follows};
ghost use Rattle.ftc_message.specs.Spelling.{value_bytes, write_bytes, writes_bytes};
ghost use Rattle.ftc_message.specs.Reading.{put_at, value_at, key_at, write_at, writes_at};
ghost use Rattle.ftc_message.specs.Front.{IsField, IsFieldBy};

use crate::fault::{FieldFault, FrameCause};
use crate::field::{fault_at, taken_at, within_at};
use ftc_base::limits::{MOST_KEY_BYTES, MOST_VALUE_BYTES, MOST_WRITES};
use ftc_base::{Bytes, Key, NoMemory, Value, Write, Writes};

/// The value of a put.
#[tactic(auto, unfolding(crate::specs::Reading::put_at))]
fn put_at(bytes: &[u8]) -> Result<(Option<Value>, &[u8]), FieldFault>
    ensures { IsField result (put_at bytes.now) }
{
    let (size, rest) = within_at(0, MOST_VALUE_BYTES as u8, bytes)?;
    let (value, rest) = taken_at(usize::from(size), rest)?;
    Ok((Some(Value::new(value).unwrap()), rest))
}

/// The value of a put, or None for a delete.
#[tactic(auto, unfolding(crate::specs::Reading::value_at))]
fn value_at(bytes: &[u8]) -> Result<(Option<Value>, &[u8]), FieldFault>
    ensures { IsField result (value_at bytes.now) }
{
    let (tag, rest) = within_at(0, 1, bytes)?;
    if tag == 0 {
        return Ok((None, rest));
    }
    put_at(rest)
}

/// Whether a key is greater than the one before it.
fn key_follows(last: &Option<Key>, key: &Key) -> bool
    ensures { result ≡ key_follows last.now key.now }
{
    match last {
        None => true,
        Some(last) => last.cmp(key).is_lt(),
    }
}

/// A key, which is greater than the last one.
#[tactic(auto, unfolding(crate::specs::Reading::key_at))]
fn key_at<'a>(last: &Option<Key>, bytes: &'a [u8]) -> Result<(Key, &'a [u8]), FieldFault>
    ensures { IsField result (key_at last.now bytes.now) }
{
    let (size, after) = within_at(1, MOST_KEY_BYTES as u8, bytes)?;
    let (key, rest) = taken_at(usize::from(size), after)?;
    let key = Key::new(key).unwrap();
    if !key_follows(last, &key) {
        return Err(fault_at(after, FrameCause::Order));
    }
    Ok((key, rest))
}

/// A write, whose key is greater than the last one.
#[tactic(auto, unfolding(crate::specs::Reading::write_at))]
fn write_at<'a>(last: &Option<Key>, bytes: &'a [u8]) -> Result<(Write, &'a [u8]), FieldFault>
    ensures { IsField result (write_at last.now bytes.now) }
{
    let (key, rest) = match key_at(last, bytes) {
        Ok(found) => found,
        Err(fault) => return Err(fault),
    };
    match value_at(rest) {
        Ok((value, rest)) => Ok((Write { key, value }, rest)),
        Err(fault) => Err(fault),
    }
}

/// The writes of a log.
#[tactic(auto, unfolding(crate::specs::Reading::writes_at))]
pub fn writes_at(bytes: &[u8]) -> Result<(Writes, &[u8]), FieldFault>
    ensures { IsFieldBy (λ writes. writes.items) result (writes_at bytes.now) }
{
    let (count, after) = within_at(0, MOST_WRITES as u8, bytes)?;
    let mut rest = after;
    let mut last = None;
    let mut writes = Writes::new();
    for _ in 0..count {
        match write_at(&last, rest) {
            Ok((write, behind)) => {
                last = Some(write.key);
                writes.push(write);
                rest = behind;
            }
            Err(fault) => return Err(fault),
        }
    }
    Ok((writes, rest))
}

/// Adds the bytes of what is put at a key, or of a delete.
fn append_value(value: &Option<Value>, out: &mut Bytes) -> Result<(), NoMemory>
    ensures { OnOk result (out.new ≡ out.old ++ value_bytes value.now) }
{
    match value {
        None => out.append(&[0]),
        Some(value) => {
            let bytes = value.as_slice();
            out.append(&[1, bytes.len() as u8])?;
            out.append(bytes)
        }
    }
}

/// Adds a write's bytes.
fn append_write(write: &Write, out: &mut Bytes) -> Result<(), NoMemory>
    ensures { OnOk result (out.new ≡ out.old ++ write_bytes write.now) }
{
    let key = write.key.as_slice();
    out.append(&[key.len() as u8])?;
    out.append(key)?;
    append_value(&write.value, out)
}

/// Adds the bytes of the writes of a log.
pub fn append_writes(writes: &Writes, out: &mut Bytes) -> Result<(), NoMemory>
    ensures { OnOk result (out.new ≡ out.old ++ writes_bytes writes.now.items) }
{
    out.append(&[writes.len() as u8])?;
    for write in writes.as_slice() {
        append_write(write, out)?;
    }
    Ok(())
}
