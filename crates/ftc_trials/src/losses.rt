//! Messages that a link loses, and the pulls that make good for them.

use crate::trial::{A, Change, NO_EVENTS, TWO, Trial};

/// A run in which link 0 loses packet 0.
const LOST_PACKET: &str = "ftc-journal 2
enter 0
visit 0 0 63
lose 0 0
pull 0
enter 1
visit 0 1 63
pass 0 1
take 0 1
apply 1 1 0 1
visit 1 1 63
pass 1 1
take 1 1
apply 0 1 1 1
carry 1
propagate 2
pass 0 2
take 0 2
release 1
pass 1 2
take 1 2
carry 2
";

const LOST_PACKET_REPORT: &str = "ftc-report 1
packets 2
released 1
filtered 0
lost 1
fate 0 lost 2
fate 1 released
store 0 1
key 6d0007 0000000000000002
store 1 1
key 6d0007 0000000000000001
";

pub const LOSSES: [Trial; 5] = [
    Trial {
        name: "a lost packet",
        chain: TWO,
        script: "lose 0 0\n",
        packets: &[&A, &A],
        schedule: NO_EVENTS,
        journal: LOST_PACKET,
        report: LOST_PACKET_REPORT,
        broken: &[
            // The message was not visited at server 0.
            (Change::Moved { event: 2, to: 1 }, "event 1"),
            // The script has that message lost there.
            (
                Change::Instead {
                    event: 2,
                    line: "pass 0 0",
                },
                "event 2",
            ),
            // The link has no gap before it loses something.
            (Change::Moved { event: 3, to: 2 }, "event 2"),
            // Without the pull server 1 lacks packet 0's visit, which stands before the one of this log.
            (Change::LeftOut { event: 3 }, "event 7"),
            // Server 0 hasn't packet 1's visit at server 1 as yet.
            (Change::Moved { event: 13, to: 12 }, "event 12"),
            // Server 1 learns what is at the tail of group 1 by that message.
            (Change::Moved { event: 17, to: 16 }, "event 16"),
        ],
    },
    Trial {
        name: "a lost packet of which the script says so twice",
        chain: TWO,
        script: "lose 0 0\nlose 0 0\n",
        packets: &[&A, &A],
        schedule: NO_EVENTS,
        journal: LOST_PACKET,
        report: LOST_PACKET_REPORT,
        broken: &[
            // The script has this message lost on link 0, and no other.
            (
                Change::Instead {
                    event: 6,
                    line: "lose 0 1",
                },
                "event 6",
            ),
        ],
    },
    Trial {
        name: "a lost ring message",
        chain: TWO,
        script: "lose 1 1\n",
        packets: &[&A, &A],
        schedule: NO_EVENTS,
        journal: "ftc-journal 2
enter 0
visit 0 0 63
pass 0 0
take 0 0
apply 1 0 0 0
visit 1 0 63
pass 1 0
take 1 0
apply 0 0 1 0
carry 0
enter 1
visit 0 1 63
pass 0 1
take 0 1
release 0
apply 1 1 0 1
visit 1 1 63
lose 1 1
pull 1
propagate 2
pass 0 2
take 0 2
release 1
pass 1 2
take 1 2
carry 2
",
        report: "ftc-report 1
packets 2
released 2
filtered 0
lost 0
fate 0 released
fate 1 released
store 0 1
key 6d0007 0000000000000002
store 1 1
key 6d0007 0000000000000002
",
        broken: &[
            // Server 1 learns by message 1 that server 0 has packet 0's visit at server 1.
            (Change::Moved { event: 14, to: 13 }, "event 13"),
            // While packet 0 is due, no apply is legal.
            (Change::LeftOut { event: 14 }, "event 14"),
            // The script has that message lost there.
            (
                Change::Instead {
                    event: 17,
                    line: "pass 1 1",
                },
                "event 17",
            ),
            // Link 1 has no gap before it loses something.
            (Change::Moved { event: 18, to: 17 }, "event 17"),
            // The forwarder has no log, so no link may have a gap.
            (Change::Moved { event: 19, to: 18 }, "event 18"),
        ],
    },
    Trial {
        name: "no group is shared",
        chain: "f 0\npartitions 4\nmonitor 8\nmonitor 8\n",
        script: "lose 0 0\nlose 1 1\n",
        packets: &[&A, &A],
        schedule: NO_EVENTS,
        journal: "ftc-journal 2
enter 0
visit 0 0 63
lose 0 0
pull 0
enter 1
visit 0 1 63
pass 0 1
take 0 1
visit 1 1 63
pass 1 1
release 1
",
        report: "ftc-report 1
packets 2
released 1
filtered 0
lost 1
fate 0 lost 2
fate 1 released
store 0 1
key 6d0007 0000000000000002
store 1 1
key 6d0007 0000000000000001
",
        broken: &[
            // The link has no gap before it loses something.
            (Change::Moved { event: 3, to: 2 }, "event 2"),
            // A gap is left, and its pull is legal, though the ends share nothing.
            (Change::LeftOut { event: 3 }, "unfinished"),
            // Nothing is sent behind the last server, so nothing is lost there.
            (
                Change::Instead {
                    event: 9,
                    line: "lose 1 1",
                },
                "event 9",
            ),
            // The packet comes to the buffer by the pass.
            (Change::Moved { event: 10, to: 9 }, "event 9"),
        ],
    },
    Trial {
        name: "two lost packets, visited out of order",
        chain: TWO,
        script: "lose 0 0\nlose 0 1\n",
        packets: &[&A, &A],
        schedule: "ftc-journal 2
enter 0
enter 1
visit 0 1 0
visit 0 0 0
lose 0 1
lose 0 0
",
        journal: "ftc-journal 2
enter 0
enter 1
visit 0 1 0
visit 0 0 0
lose 0 1
lose 0 0
pull 0
",
        report: "ftc-report 1
packets 2
released 0
filtered 0
lost 2
fate 0 lost 5
fate 1 lost 4
store 0 1
key 6d0007 0000000000000002
store 1 0
",
        broken: &[
            // Packet 1 didn't enter as yet.
            (Change::Moved { event: 2, to: 1 }, "event 1"),
            // Packet 0 wasn't visited as yet.
            (Change::Moved { event: 5, to: 3 }, "event 3"),
            // The link has no gap before its first loss.
            (Change::Moved { event: 6, to: 4 }, "event 4"),
            // The second loss makes a gap again.
            (Change::Moved { event: 6, to: 5 }, "unfinished"),
        ],
    },
];
