//! Which form a line of the middleboxes has, and whether it may stand behind the lines so far.

ghost use Rattle.std.specs.Prelude.{◌≡◌, ◌≤◌, length};
ghost use Rattle.ftc_base.specs.declared.limits.TheConstants.{MOST_SERVERS};
ghost use Rattle.ftc_conf.specs.Draft.{servers};
ghost use Rattle.ftc_conf.specs.Grammar.{fire_line_form, form_of, server_room, fire_line_room, middlebox_room};
ghost use Rattle.ftc_conf.specs.Grammar.{room_for};

use crate::adding::count_of_servers;
use crate::draft::Draft;
use crate::fault::ChainCause;
use crate::statement::Form;
use crate::words::is_same;
use ftc_base::limits::{MOST_FIREWALL_LINES, MOST_SERVERS};
use ftc_firewall::FirewallRule;

fn fire_line_form(firewall: &Option<FirewallRule>, allow: bool) -> Result<Form, ChainCause>
    ensures { result ≡ fire_line_form firewall.now allow }
{
    match firewall {
        Some(_) => Ok(Form::FireLine { allow }),
        None => Err(ChainCause::UnknownWord),
    }
}

/// The form that the first word of a line tells.
pub fn form_of(draft: &Draft, first: &[u8]) -> Result<Form, ChainCause>
    ensures { result ≡ form_of draft.now first.now }
{
    if is_same(first, b"pass") {
        Ok(Form::Pass)
    } else if is_same(first, b"monitor") {
        Ok(Form::Monitor)
    } else if is_same(first, b"nat") {
        Ok(Form::Nat)
    } else if is_same(first, b"firewall") {
        Ok(Form::Firewall)
    } else if is_same(first, b"allow") {
        fire_line_form(&draft.firewall, true)
    } else if is_same(first, b"deny") {
        fire_line_form(&draft.firewall, false)
    } else if is_same(first, b"balance") {
        Ok(Form::Balance)
    } else if is_same(first, b"spare") {
        Ok(Form::Spare)
    } else {
        Err(ChainCause::UnknownWord)
    }
}

fn server_room(draft: &Draft) -> Result<(), ChainCause>
    requires { length (servers draft.now) ≤ MOST_SERVERS }
    ensures { result ≡ server_room draft.now }
{
    if count_of_servers(draft) < usize::from(MOST_SERVERS) {
        Ok(())
    } else {
        Err(ChainCause::TooManyServers)
    }
}

fn fire_line_room(firewall: &Option<FirewallRule>) -> Result<(), ChainCause>
    ensures { result ≡ fire_line_room firewall.now }
{
    match firewall {
        Some(rule) if rule.lines.len() >= MOST_FIREWALL_LINES => Err(ChainCause::TooManyItems),
        _ => Ok(()),
    }
}

fn middlebox_room(draft: &Draft) -> Result<(), ChainCause>
    requires { length (servers draft.now) ≤ MOST_SERVERS }
    ensures { result ≡ middlebox_room draft.now }
{
    if draft.spares == 0 {
        server_room(draft)
    } else {
        Err(ChainCause::SpareOrder)
    }
}

/// A line of this form may follow.
pub fn room_for(draft: &Draft, form: Form) -> Result<(), ChainCause>
    requires { length (servers draft.now) ≤ MOST_SERVERS }
    ensures { result ≡ room_for draft.now form }
{
    match form {
        Form::Spare => server_room(draft),
        Form::FireLine { .. } => fire_line_room(&draft.firewall),
        Form::Pass | Form::Monitor | Form::Nat | Form::Firewall | Form::Balance => {
            middlebox_room(draft)
        }
    }
}
