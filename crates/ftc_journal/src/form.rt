//! The headers of a journal's text, and the forms of its lines.

ghost use Rattle.std.specs.Prelude.{◌≡◌, ◌≤◌};
ghost use Rattle.std.specs.Str.{bytes_eq};
ghost use Rattle.ftc_base.specs.declared.limits.TheConstants.{MOST_SERVERS};
ghost use Rattle.ftc_journal.specs.Reading.{version_of, form_of};
ghost use Rattle.ftc_journal.specs.Spelling.{servers_of};

use crate::limits::FIRST_SERVERS;
use ftc_base::limits::MOST_SERVERS;

/// Which header a text has.
#[derive(Clone, Copy)]
pub enum Version {
    First,
    Second,
}

/// An event with one number.
#[derive(Clone, Copy)]
pub enum Single {
    Enter,
    Carry,
    Crash,
    Pull,
    Propagate,
    Release,
}

/// An event with a server or a link, and an origin.
#[derive(Clone, Copy)]
pub enum Double {
    Take,
    Pass,
    Lose,
}

/// What the first word of a line tells.
#[derive(Clone, Copy)]
pub enum Form {
    Single(Single),
    Double(Double),
    Visit,
    Apply,
    Recover,
}

/// Servers, groups and links are below this number.
pub fn servers_of(version: Version) -> u8
    ensures same { result ≡ servers_of version }
    ensures few { result ≤ MOST_SERVERS }
{
    match version {
        Version::First => FIRST_SERVERS,
        Version::Second => MOST_SERVERS,
    }
}

fn is_same(word: &[u8], text: &[u8]) -> bool
    ensures { result ≡ bytes_eq word.now text.now }
{
    word == text
}

/// The version of a header, without its line feed.
pub fn version_of(header: &[u8]) -> Option<Version>
    ensures { result ≡ version_of header.now }
{
    if is_same(header, b"ftc-journal 1") {
        Some(Version::First)
    } else if is_same(header, b"ftc-journal 2") {
        Some(Version::Second)
    } else {
        None
    }
}

/// The form of a line that begins with the word.
pub fn form_of(first: &[u8]) -> Option<Form>
    ensures { result ≡ form_of first.now }
{
    if is_same(first, b"enter") {
        Some(Form::Single(Single::Enter))
    } else if is_same(first, b"take") {
        Some(Form::Double(Double::Take))
    } else if is_same(first, b"apply") {
        Some(Form::Apply)
    } else if is_same(first, b"visit") {
        Some(Form::Visit)
    } else if is_same(first, b"pass") {
        Some(Form::Double(Double::Pass))
    } else if is_same(first, b"lose") {
        Some(Form::Double(Double::Lose))
    } else if is_same(first, b"carry") {
        Some(Form::Single(Single::Carry))
    } else if is_same(first, b"crash") {
        Some(Form::Single(Single::Crash))
    } else if is_same(first, b"recover") {
        Some(Form::Recover)
    } else if is_same(first, b"pull") {
        Some(Form::Single(Single::Pull))
    } else if is_same(first, b"propagate") {
        Some(Form::Single(Single::Propagate))
    } else if is_same(first, b"release") {
        Some(Form::Single(Single::Release))
    } else {
        None
    }
}
