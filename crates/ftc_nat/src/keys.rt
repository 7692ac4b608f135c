//! The keys and values of a translator's store.

ghost use Rattle.std.specs.Prelude.{◌≡◌, ◌≤◌, length};
ghost use Rattle.ftc_base.specs.Endpoint.{endpoint};
ghost use Rattle.ftc_base.specs.declared.limits.TheConstants.{MOST_KEY_BYTES};
ghost use Rattle.ftc_nat.specs.Nat.{outside_port_key, next_port_key, inside_key};

use ftc_base::{Key, Value};

/// The key of these bytes, which are some, but no more than a key may have.
fn key_of(bytes: &[u8]) -> Key
    requires some { 1 ≤ length bytes.now }
    requires few { length bytes.now ≤ MOST_KEY_BYTES }
    ensures { result ≡ bytes.now }
{
    Key::new(bytes).unwrap()
}

/// The key at which the outside port of an inside endpoint stands.
pub fn outside_port_key(protocol: u8, address: u32, port: u16) -> Key
    ensures { result ≡ outside_port_key protocol address port }
{
    let [a, b, c, d] = address.to_be_bytes();
    let [high, low] = port.to_be_bytes();
    key_of(&[b'f', protocol, a, b, c, d, high, low])
}

/// The key at which the next outside port stands.
pub fn next_port_key() -> Key
    ensures { result ≡ next_port_key }
{
    key_of(b"n")
}

/// The key at which the inside endpoint of an outside port stands.
pub fn inside_key(protocol: u8, port: u16) -> Key
    ensures { result ≡ inside_key protocol port }
{
    let [high, low] = port.to_be_bytes();
    key_of(&[b'r', protocol, high, low])
}

/// An address and a port as a value of 48 bits.
pub fn endpoint(address: u32, port: u16) -> Value
    ensures { result ≡ endpoint address port }
{
    let [a, b, c, d] = address.to_be_bytes();
    let [high, low] = port.to_be_bytes();
    Value::new(&[a, b, c, d, high, low]).unwrap()
}
