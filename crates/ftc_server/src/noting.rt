//! How many of the first logs of a held message are had: what comes next is looked for behind them alone.

ghost use Rattle.std.specs.Prelude.{◌≡◌, true, drop};
ghost use Rattle.ftc_server.specs.Replicas.{has_first};
ghost use Rattle.ftc_server.specs.Waiting.{AreHadBefore};

use crate::held::{HeldMessage, HeldMessages};
use crate::replicas::is_had;
use ftc_base::PacketNo;
use ftc_message::Log;
use ftc_replica::Replica;

/// The logs of a held message behind so many first ones.
pub fn logs_behind(held: &HeldMessage, had: usize) -> &[Log]
    ensures { result.now ≡ drop had held.now.message.logs }
{
    let logs = held.message.logs.as_slice();
    &logs[had.min(logs.len())..]
}

/// How many of the first logs are had, looked for from so many on, which are.
fn count_had(replicas: &[Option<Replica>], logs: &[Log], from: usize) -> usize
    requires { has_first replicas.now from logs.now ≡ true }
    ensures { has_first replicas.now result logs.now ≡ true }
{
    let mut count = from;
    while count < logs.len() && is_had(replicas, &logs[count]) {
        count += 1;
    }
    count
}

/// It is noted how many of the first logs of the message of that origin are had by now.
pub fn note_had(held: &mut HeldMessages, replicas: &[Option<Replica>], origin: PacketNo)
    requires { AreHadBefore replicas.now held.old.items held.old.had }
    ensures had { AreHadBefore replicas.now held.new.items held.new.had }
    ensures items { held.new.items ≡ held.old.items }
    ensures resting { held.new.resting ≡ held.old.resting }
    ensures spare { held.new.spare ≡ held.old.spare }
{
    let Some(found) = held.get(origin) else {
        return;
    };
    let count = count_had(replicas, found.message.logs.as_slice(), held.had(origin));
    held.note(origin, count);
}
