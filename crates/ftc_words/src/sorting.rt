//! Options, their values, and the other words.

ghost use Rattle.std.specs.Prelude.{◌≡◌, true, IfSome, option_map};
ghost use Rattle.std.specs.List.{list_all};
ghost use Rattle.ftc_words.specs.Given.{is_name as spec_is_name, given_in, texts_of};
ghost use Rattle.ftc_words.specs.Shown.{sorted_of};

use arrayvec::ArrayVec;

/// How many words a command has at most, besides its own and its options with their values.
const MOST_PLAIN: usize = 6;

/// What the next word is.
#[derive(Clone, Copy)]
pub enum Awaited<'a> {
    /// An option, or a word of the command.
    Any,
    /// A value of `--workers`.
    Workers,
    /// A value of `--alone`.
    Schedule,
    /// The first value of `--move`.
    Server,
    /// The second, behind this first one.
    File { server: &'a str },
}

/// Words that were read so far.
#[derive(Drop)]
pub struct Sorted<'a> {
    pub awaited: Awaited<'a>,
    pub workers: Option<&'a str>,
    pub schedule: Option<&'a str>,
    pub moved: Option<(&'a str, &'a str)>,
    pub plain: ArrayVec<&'a str, MOST_PLAIN>,
}

/// Whether the word isn't empty and doesn't begin with a hyphen.
pub fn is_name(word: &str) -> bool
    ensures { result ≡ spec_is_name word.now }
{
    match word.as_bytes() {
        [first, ..] => *first != b'-',
        [] => false,
    }
}

impl<'a> Sorted<'a> {
    ghost use Rattle.ftc_words.specs.Shown.{sorted_of, awaited_of};
    ghost use Rattle.ftc_words.specs.Given.{nothing_given, option_taken, word_taken, value_taken, taken, if_taken};

    fn new() -> Sorted<'a>
        ensures { sorted_of result ≡ nothing_given }
    {
        Sorted {
            awaited: Awaited::Any,
            workers: None,
            schedule: None,
            moved: None,
            plain: ArrayVec::new(),
        }
    }

    /// Takes an option, unless it came before.
    fn take_option(&mut self, came: bool, awaited: Awaited<'a>) -> bool
        ensures taken { option_taken came (awaited_of awaited.entry) (sorted_of self.old)
            ≡ if_taken result (sorted_of self.new) }
        ensures plain { (sorted_of self.new).plain ≡ (sorted_of self.old).plain }
    {
        if !came {
            self.awaited = awaited;
        }
        !came
    }

    /// Takes an option, or a word of the command.
    fn take_word(&mut self, word: &'a str) -> bool
        ensures taken { word_taken (sorted_of self.old) word.now ≡ if_taken result (sorted_of self.new) }
        ensures named { list_all spec_is_name (sorted_of self.old).plain ≡ true →
            list_all spec_is_name (sorted_of self.new).plain ≡ true }
    {
        if word == "--workers" {
            let came = self.workers.is_some();
            return self.take_option(came, Awaited::Workers);
        }
        if word == "--alone" {
            let came = self.schedule.is_some();
            return self.take_option(came, Awaited::Schedule);
        }
        if word == "--move" {
            let came = self.moved.is_some();
            return self.take_option(came, Awaited::Server);
        }
        if !is_name(word) || self.plain.is_full() {
            return false;
        }
        self.plain.push(word);
        true
    }

    /// Takes a value of an option.
    fn take_value(&mut self, word: &'a str)
        ensures taken { sorted_of self.new ≡ value_taken (sorted_of self.old).awaited (sorted_of self.old) word.now }
        ensures plain { (sorted_of self.new).plain ≡ (sorted_of self.old).plain }
    {
        let mut next = Awaited::Any;
        match self.awaited {
            Awaited::Any => {}
            Awaited::Workers => self.workers = Some(word),
            Awaited::Schedule => self.schedule = Some(word),
            Awaited::Server => next = Awaited::File { server: word },
            Awaited::File { server } => self.moved = Some((server, word)),
        }
        self.awaited = next;
    }

    /// Takes the next word, and tells whether it could.
    fn take(&mut self, word: &'a str) -> bool
        ensures taken { taken (sorted_of self.old) word.now ≡ if_taken result (sorted_of self.new) }
        ensures named { list_all spec_is_name (sorted_of self.old).plain ≡ true →
            list_all spec_is_name (sorted_of self.new).plain ≡ true }
    {
        if let Awaited::Any = self.awaited {
            return self.take_word(word);
        }
        if !is_name(word) {
            return false;
        }
        self.take_value(word);
        true
    }
}

/// The words behind a command's own, sorted, where each option comes once at most and has its values.
pub fn sort<'a>(words: &[&'a str]) -> Option<Sorted<'a>>
    ensures given { option_map sorted_of result ≡ given_in (texts_of words.now) }
    ensures named { IfSome result (λ sorted. list_all spec_is_name (sorted_of sorted).plain ≡ true) }
{
    let mut sorted = Sorted::new();
    let mut rest = words;
    while let [word, after @ ..] = rest {
        if !sorted.take(*word) {
            return None;
        }
        rest = after;
    }
    match sorted.awaited {
        Awaited::Any => Some(sorted),
        _ => None,
    }
}
