//! Where released packets go from under the latch.

ghost use Rattle.std.specs.Prelude.{◌≡◌, ◌≤◌, length};
ghost use Rattle.ftc_workers.specs.Given.{given_of};

use ftc_chain::Chain;
use ftc_stream::Sender;

/// Takes out what was released, and sends it. The answer is how many packets were.
pub fn pass_on(chain: &mut Chain<'_>, sender: &mut Sender) -> u32
    requires sent { sender.old.items ≡ chain.old.drained }
    requires room { length chain.old.packets ≤ sender.old.room }
    ensures sent { sender.new.items ≡ chain.new.drained }
    ensures room { length chain.new.packets ≤ sender.new.room }
    ensures given { given_of chain.new ≡ given_of chain.old }
    ensures journal { chain.new.journal ≡ chain.old.journal }
{
    let mut count: u32 = 0;
    while let Some(item) = chain.drain() {
        sender.send(item);
        count = count.saturating_add(1);
    }
    count
}
