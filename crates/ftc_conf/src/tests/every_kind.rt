//! A chain with every kind of rule.

use crate::read_chain;
use ftc_base::Net;
use ftc_firewall::FireLine;
use ftc_mbox::Rule;
use ftc_nat::NatRule;
use std::test::Fail;

const EVERY_KIND: &[u8] = b"# every kind\nf 0\npartitions 16\n\
    nat inside 10.1.2.3/8 outside 203.0.113.5 ports 20000-59999\n\
    firewall\nallow udp any 198.51.100.10/32 80\n# between\ndeny any 10.1.0.0/16 any 7-9\n\
    balance 198.51.100.10:80 to 192.0.2.1,192.0.2.2\nmonitor 16\npass\nspare\n";

const ALL: Net = Net { base: 0, length: 0 };

/// The translator of `EVERY_KIND`: 10.0.0.0/8, and 203.0.113.5.
fn is_that_nat(rule: &Rule) -> bool {
    let wanted = NatRule {
        inside: Net {
            base: 0x0a00_0000,
            length: 8,
        },
        outside: 0xcb00_7105,
        first: 20_000,
        last: 59_999,
    };
    match rule {
        Rule::Nat(nat) => *nat == wanted,
        _ => false,
    }
}

/// The firewall of `EVERY_KIND`: UDP to 198.51.100.10, and all from 10.1.0.0/16.
fn is_that_firewall(rule: &Rule) -> bool {
    let to_one_host = FireLine {
        allow: true,
        protocol: Some(17),
        source: ALL,
        destination: Net {
            base: 0xc633_640a,
            length: 32,
        },
        low: 80,
        high: 80,
    };
    let from_one_net = FireLine {
        allow: false,
        protocol: None,
        source: Net {
            base: 0x0a01_0000,
            length: 16,
        },
        destination: ALL,
        low: 7,
        high: 9,
    };
    match rule {
        Rule::Firewall(firewall) => {
            firewall.lines.as_slice() == [to_one_host, from_one_net].as_slice()
        }
        _ => false,
    }
}

/// The balancer of `EVERY_KIND`: 198.51.100.10 with 192.0.2.1 and 192.0.2.2.
fn is_that_balancer(rule: &Rule) -> bool {
    match rule {
        Rule::Balance(balance) => {
            balance.address == 0xc633_640a
                && balance.port == 80
                && balance.backends.as_slice() == [0xc000_0201, 0xc000_0202].as_slice()
        }
        _ => false,
    }
}

/// The monitor of `EVERY_KIND`, which counts in 16 groups.
fn is_that_monitor(rule: &Rule) -> bool {
    matches!(rule, Rule::Monitor { groups: 16 })
}

fn passes(rule: &Rule) -> bool {
    matches!(rule, Rule::Pass)
}

/// Which rules are those of `EVERY_KIND`; none where there are more or fewer.
fn those_rules(rules: &[Rule]) -> [bool; 6] {
    match rules {
        [nat, firewall, balancer, monitor, pass, spare] => [
            is_that_nat(nat),
            is_that_firewall(firewall),
            is_that_balancer(balancer),
            is_that_monitor(monitor),
            passes(pass),
            passes(spare),
        ],
        _ => [false; 6],
    }
}

#[test]
fn every_kind(rt: HostRuntime) -> Result<(), Fail> {
    let chain = read_chain(rt.alloc(), EVERY_KIND).ok().ok_or("refused")?;
    assert_eq!(rt; (chain.failures(), chain.partitions()), (0, 16));
    assert_eq!(rt; those_rules(chain.rules().as_slice()), [true; 6]);
    Ok(())
}
