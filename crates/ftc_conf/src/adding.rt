//! What one more line adds to a draft.

ghost use Rattle.std.specs.Prelude.{◌≡◌, ◌≤◌, ◌<◌, ◌++◌, length, IfOk};
ghost use Rattle.ftc_base.specs.declared.limits.TheConstants.{MOST_SERVERS};
ghost use Rattle.ftc_firewall.specs.Bounds.{IsFireLine};
ghost use Rattle.ftc_mbox.specs.Bounds.{IsRule};
ghost use Rattle.ftc_conf.specs.declared.statement.Statement.TheVariants as said;
ghost use Rattle.ftc_conf.specs.Draft.{no_lines, servers, last_firewall, with_server, with_firewall, with_fire_line};
ghost use Rattle.ftc_conf.specs.Draft.{with_statement, IsDraft, IsStatement, HasRoom};

use crate::draft::{Draft, Failures};
use crate::statement::Statement;
use ftc_base::NoMemory;
use ftc_firewall::{FireLine, FireLines, FirewallRule};
use ftc_mbox::{Rule, Rules};
use std::alloc::Global;

/// No line is read.
pub fn no_lines(alloc: Global) -> Draft
    ensures empty { result ≡ no_lines }
    ensures bounds { IsDraft result }
{
    Draft {
        failures: None,
        partitions: None,
        rules: Rules::new(alloc),
        firewall: None,
        spares: 0,
    }
}

/// How many servers there are.
pub fn count_of_servers(draft: &Draft) -> usize
    requires { length (servers draft.now) ≤ MOST_SERVERS }
    ensures { result ≡ length (servers draft.now) }
{
    match &draft.firewall {
        None => draft.rules.len(),
        Some(_) => draft.rules.len() + 1,
    }
}

/// The rules of all servers: no line of a firewall follows any more.
pub fn close_firewall(rules: Rules, firewall: Option<FirewallRule>) -> Result<Rules, NoMemory>
    ensures { IfOk result (λ all. all ≡ rules ++ last_firewall firewall) }
{
    let mut all = rules;
    if let Some(last) = firewall {
        all.push(Rule::Firewall(last))?;
    }
    Ok(all)
}

/// One more server.
fn add_server(draft: Draft, server: Rule) -> Result<Draft, NoMemory>
    requires bounds { IsDraft draft }
    requires server { IsRule server }
    requires room { length (servers draft) < MOST_SERVERS }
    ensures value { IfOk result (λ next. next ≡ with_server draft server) }
    ensures bounds { IfOk result IsDraft }
{
    let mut rules = close_firewall(draft.rules, draft.firewall)?;
    rules.push(server)?;
    Ok(Draft {
        rules,
        firewall: None,
        failures: draft.failures,
        partitions: draft.partitions,
        spares: draft.spares,
    })
}

/// A firewall, whose lines may follow.
fn add_firewall(alloc: Global, draft: Draft) -> Result<Draft, NoMemory>
    requires bounds { IsDraft draft }
    requires room { length (servers draft) < MOST_SERVERS }
    ensures value { IfOk result (λ next. next ≡ with_firewall draft) }
    ensures bounds { IfOk result IsDraft }
{
    let rules = close_firewall(draft.rules, draft.firewall)?;
    let lines = FireLines::new(alloc);
    Ok(Draft {
        rules,
        firewall: Some(FirewallRule { lines }),
        failures: draft.failures,
        partitions: draft.partitions,
        spares: draft.spares,
    })
}

/// One more line of the firewall.
fn add_fire_line(draft: Draft, line: FireLine) -> Result<Draft, NoMemory>
    requires bounds { IsDraft draft }
    requires line { IsFireLine line }
    requires room { HasRoom draft (said.FireLine line) }
    ensures value { IfOk result (λ next. next ≡ with_fire_line draft line) }
    ensures bounds { IfOk result IsDraft }
{
    let mut next = draft;
    if let Some(firewall) = &mut next.firewall {
        firewall.lines.push(line)?;
    }
    Ok(next)
}

/// The draft with what the line at that place says.
pub fn add(alloc: Global, draft: Draft, place: u64, statement: Statement) -> Result<Draft, NoMemory>
    requires bounds { IsDraft draft }
    requires statement { IsStatement statement }
    requires room { HasRoom draft statement }
    ensures value { IfOk result (λ next. next ≡ with_statement draft place statement) }
    ensures bounds { IfOk result IsDraft }
{
    match statement {
        Statement::Nothing => Ok(draft),
        Statement::Failures(number) => Ok(Draft {
            failures: Some(Failures {
                number,
                line: place,
            }),
            ..draft
        }),
        Statement::Partitions(number) => Ok(Draft {
            partitions: Some(number),
            ..draft
        }),
        Statement::Middlebox(server) => add_server(draft, server),
        Statement::Firewall => add_firewall(alloc, draft),
        Statement::FireLine(line) => add_fire_line(draft, line),
        Statement::Spare => {
            let next = add_server(draft, Rule::Pass)?;
            Ok(Draft {
                spares: next.spares + 1,
                ..next
            })
        }
    }
}
