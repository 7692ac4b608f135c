//! A tap that counts where the released packets come from.

ghost use Rattle.std.specs.Prelude.{◌≡◌, ◌∷◌, [], IfOk, OnOk, OnErr};
ghost use Rattle.std.specs.BTreeSet.{keys};
ghost use Rattle.ftc_audit.specs.Sources.{audit_face, source_of, with_one_source};

use crate::endpoint::{Endpoint, source_of};
use ftc_base::{Bytes, NoMemory, PacketNo, Released};
use ftc_outside::Tap;
use std::alloc::Global;
use std::collections::BTreeSet;
use std::marker::Model;

/// Keeps all records that it is told. It leaves once their flow packets come from more than so many different
/// endpoints. A contract sees how many these may be, and the records.
#[derive(Drop)]
pub struct AuditTap {
    most: u32,
    told: Vec<Released>,
    sources: BTreeSet<Endpoint>,
}

impl Model for AuditTap {
    ghost use Rattle.std.specs.Prelude.{◌≡◌};
    ghost use Rattle.std.specs.BTreeSet.{keys};
    ghost use Rattle.ftc_audit.specs.Sources.{Audit, sources_of};

    ghost Value = { Audit };

    ghost view = { λ tap. record { most = tap.most; told = tap.told.items } };

    ghost invariant = { λ tap. keys tap.sources ≡ sources_of tap.told.items };
}

impl AuditTap {
    /// A tap that was told nothing yet, and that leaves once there are more than so many endpoints.
    pub fn new(alloc: Global, most: u32) -> AuditTap
        ensures { result ≡ record { most = most; told = [] } }
    {
        AuditTap {
            most,
            told: Vec::new(alloc),
            sources: BTreeSet::new(alloc),
        }
    }
}

/// Adds where a packet comes from, if it is one of a flow.
fn add_source(sources: &mut BTreeSet<Endpoint>, packet: &[u8]) -> Result<(), NoMemory>
    ensures ok { OnOk result (keys sources.new ≡ with_one_source (keys sources.old) (source_of packet.now)) }
    ensures err { OnErr result (keys sources.new ≡ keys sources.old) }
{
    if let Some(source) = source_of(packet) {
        sources.insert(source)?;
    }
    Ok(())
}

impl Tap for AuditTap {
    ghost face = { audit_face };

    fn see(&mut self, alloc: Global, number: PacketNo, bytes: &[u8]) -> Result<bool, NoMemory> {
        let mut copy = Bytes::new(alloc);
        copy.append(bytes)?;
        self.told.reserve(1)?;
        add_source(&mut self.sources, bytes)?;
        self.told.push_reserved(Released {
            packet: number,
            bytes: copy,
        });
        Ok(self.sources.len() <= self.most as usize)
    }

    fn line(&self, alloc: Global) -> Result<Bytes, NoMemory> {
        let endpoints = self.sources.len();
        let text = format!(in alloc; "audit endpoints {endpoints}")?;
        Ok(Bytes::from_vec(text.into_bytes()))
    }
}
