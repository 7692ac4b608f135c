//! The lines of each store.

ghost use Rattle.std.specs.Prelude.{◌≡◌, ◌++◌, OnOk, IfOk, length, string_bytes};
ghost use Rattle.std.specs.Prelude.{map as map_list};
ghost use Rattle.std.specs.List.{flat_map, enumerate_from};
ghost use Rattle.hex.specs.Hex.{encode_lower};
ghost use Rattle.ftc_store.specs.Pairs.{key_value};
ghost use Rattle.ftc_serial.specs.Held.{rules_of, serial_state};
ghost use Rattle.ftc_report.specs.Text.{value_text, key_line, key_count, store_lines};
ghost use Rattle.ftc_report.specs.Contents.{contents};

use ftc_base::{Bytes, NoMemory, ServerId, Value};
use ftc_serial::Serial;
use ftc_store::{Pair, Store};
use std::alloc::{AllocError, Global};

/// Bytes in hex.
fn hex_text(alloc: Global, bytes: &[u8]) -> Result<String, AllocError>
    ensures { IfOk result (λ text. string_bytes text ≡ encode_lower bytes.now) }
{
    hex::encode(alloc, bytes)
}

/// A value in hex, and an empty one as a dash.
pub(crate) fn value_text(alloc: Global, value: &Value) -> Result<String, AllocError>
    ensures { IfOk result (λ text. string_bytes text ≡ value_text value.now) }
{
    let bytes = value.as_slice();
    if bytes.is_empty() {
        return format!(in alloc; "-");
    }
    hex_text(alloc, bytes)
}

/// The line of a key.
#[tactic(auto, unfolding(crate::specs::Text::key_line))]
fn key_line(alloc: Global, pair: &Pair) -> Result<String, AllocError>
    ensures { IfOk result (λ line. string_bytes line ≡ key_line (key_value pair.now)) }
{
    let key = hex_text(alloc, pair.key.as_slice())?;
    let value = value_text(alloc, &pair.value)?;
    format!(in alloc; "key {key} {value}\n")
}

/// Adds the line of each key.
fn append_keys(alloc: Global, pairs: &[Pair], out: &mut Bytes) -> Result<(), NoMemory>
    ensures { OnOk result (out.new ≡ out.old ++ flat_map key_line (map_list key_value pairs.now)) }
{
    for pair in pairs {
        let line = key_line(alloc, pair)?;
        out.append(line.as_bytes())?;
    }
    Ok(())
}

/// Adds the line of a middlebox's store, with the count of its keys.
#[tactic(auto, unfolding(crate::specs::Text::store_line))]
pub(crate) fn append_key_count(
    alloc: Global,
    server: ServerId,
    store: &Store,
    out: &mut Bytes,
) -> Result<(), NoMemory>
    ensures { OnOk result (out.new ≡ out.old ++ key_count (server, store.now.content)) }
{
    let server = server.number();
    let count = store.len();
    let line = format!(in alloc; "store {server} {count}\n")?;
    out.append(line.as_bytes())
}

/// Adds the lines of a middlebox's store.
fn append_store(
    alloc: Global,
    server: ServerId,
    store: &Store,
    out: &mut Bytes,
) -> Result<(), NoMemory>
    ensures { OnOk result (out.new ≡ out.old ++ store_lines (server, store.now.content)) }
{
    append_key_count(alloc, server, store, out)?;
    let pairs = store.list(alloc)?;
    append_keys(alloc, pairs.as_slice(), out)
}

/// Adds the lines of each middlebox's store.
pub fn append_stores(alloc: Global, serial: &Serial, out: &mut Bytes) -> Result<(), NoMemory>
    ensures { OnOk result (out.new ≡ out.old
        ++ flat_map store_lines (enumerate_from 0
        (contents (length (rules_of serial.now)) (serial_state serial.now)))) }
{
    for place in 0..serial.servers() {
        let server = ServerId::new(place as u8).unwrap();
        append_store(alloc, server, serial.store(server), out)?;
    }
    Ok(())
}
