//! Runs without a fault: logs that ride on messages round the ring.

use crate::trial::{A, Change, NO_EVENTS, THREE, Trial};

pub const RING: [Trial; 2] = [
    Trial {
        name: "three monitors",
        chain: THREE,
        script: "",
        packets: &[&A, &A],
        schedule: NO_EVENTS,
        journal: "ftc-journal 2
enter 0
visit 0 0 63
pass 0 0
take 0 0
apply 1 0 0 0
visit 1 0 63
pass 1 0
take 1 0
apply 2 0 0 0
apply 2 0 1 0
visit 2 0 63
pass 2 0
take 2 0
apply 0 0 1 0
apply 0 0 2 0
carry 0
enter 1
visit 0 1 63
pass 0 1
take 0 1
apply 1 1 2 0
apply 1 1 0 1
visit 1 1 63
pass 1 1
take 1 1
release 0
apply 2 1 0 1
apply 2 1 1 1
visit 2 1 63
pass 2 1
take 2 1
apply 0 1 1 1
apply 0 1 2 1
carry 1
propagate 2
pass 0 2
take 0 2
apply 1 2 2 1
pass 1 2
take 1 2
release 1
pass 2 2
take 2 2
carry 2
",
        report: "ftc-report 1
packets 2
released 2
filtered 0
lost 0
fate 0 released
fate 1 released
store 0 1
key 6d0007 0000000000000002
store 1 1
key 6d0007 0000000000000002
store 2 1
key 6d0007 0000000000000002
",
        broken: &[
            // Nothing entered as yet.
            (Change::LeftOut { event: 0 }, "event 0"),
            // Server 1 doesn't hold the message before it took it.
            (Change::Moved { event: 4, to: 3 }, "event 3"),
            // Nor is the message ready there before it has the log of server 0.
            (Change::LeftOut { event: 4 }, "event 4"),
            // Of one packet, the log of the smaller group is applied first.
            (Change::Moved { event: 9, to: 8 }, "event 8"),
            // Server 1 lacks the log of packet 1's visit at server 0.
            (Change::Moved { event: 22, to: 21 }, "event 21"),
            // Server 2 doesn't know as yet that server 1 has packet 0's visit at server 2.
            (Change::Moved { event: 25, to: 24 }, "event 24"),
            // While a packet is due, nothing but its release is legal.
            (Change::LeftOut { event: 25 }, "event 25"),
            // The forwarder has no log before it has those of message 1, which server 0 still holds.
            (Change::Moved { event: 34, to: 33 }, "event 33"),
            // The last message without a packet is still to be taken from the ring.
            (Change::LeftOut { event: 43 }, "unfinished"),
        ],
    },
    Trial {
        name: "packet 1 overtakes packet 0 at server 1",
        chain: THREE,
        script: "",
        packets: &[&A, &A],
        schedule: "ftc-journal 2
enter 0
enter 1
visit 0 0 0
visit 0 1 0
pass 0 0
take 0 0
apply 1 0 0 0
pass 0 1
take 0 1
apply 1 1 0 1
visit 1 1 0
pass 1 1
take 1 1
apply 2 1 1 1
apply 2 1 0 1
",
        journal: "ftc-journal 2
enter 0
enter 1
visit 0 0 0
visit 0 1 0
pass 0 0
take 0 0
apply 1 0 0 0
pass 0 1
take 0 1
apply 1 1 0 1
visit 1 1 0
pass 1 1
take 1 1
visit 1 0 63
pass 1 0
take 1 0
apply 2 0 0 0
apply 2 1 0 1
apply 2 1 1 1
visit 2 1 63
pass 2 1
apply 2 0 1 0
visit 2 0 63
pass 2 0
take 2 1
apply 0 1 1 1
apply 0 1 2 1
carry 1
take 2 0
apply 0 0 1 0
apply 0 0 2 0
carry 0
propagate 2
pass 0 2
take 0 2
apply 1 2 2 1
apply 1 2 2 0
pass 1 2
take 1 2
release 1
release 0
pass 2 2
take 2 2
carry 2
",
        report: "ftc-report 1
packets 2
released 2
filtered 0
lost 0
fate 0 released
fate 1 released
store 0 1
key 6d0007 0000000000000002
store 1 1
key 6d0007 0000000000000002
store 2 1
key 6d0007 0000000000000002
",
        broken: &[
            // Its own log is ready, since packet 1 was the first at server 1, but server 2 lacks the log of
            // group 0 in that message.
            (Change::Moved { event: 18, to: 13 }, "event 13"),
            (Change::Moved { event: 18, to: 17 }, "event 17"),
            // Packet 0's visit at server 0 stands before it, and server 2 lacks that.
            (Change::Moved { event: 17, to: 13 }, "event 13"),
            (Change::Moved { event: 17, to: 16 }, "event 16"),
            // Packet 1's visit at server 1 stands before packet 0's, and server 2 lacks it.
            (Change::Moved { event: 21, to: 17 }, "event 17"),
            // Both packets are due, and packet 1 came to the buffer first.
            (Change::Moved { event: 40, to: 39 }, "event 39"),
        ],
    },
];
