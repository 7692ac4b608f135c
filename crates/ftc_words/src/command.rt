//! The commands, and what each is given.

ghost use Rattle.std.specs.Prelude.{◌≡◌};
ghost use Rattle.ftc_words.specs.Shown.{shown};
ghost use Rattle.ftc_words.specs.Command.{is_built as spec_is_built};

/// The names of the files of a run.
#[derive(Clone, Copy)]
pub struct Names<'a> {
    pub chain: &'a str,
    pub script: &'a str,
    pub capture: &'a str,
    pub out: &'a str,
    pub journal: &'a str,
    pub report: &'a str,
}

/// A move of a server that is planned, and the file that it goes through.
#[derive(Clone, Copy)]
pub struct Move<'a> {
    pub server: u8,
    pub file: &'a str,
}

/// How a chain is run.
#[derive(Clone, Copy)]
pub enum Mode<'a> {
    /// As it is where no option says it.
    Plain,
    /// By so many workers.
    Workers {
        count: u8,
    },
    /// On one thread, by the events of a schedule.
    Alone {
        schedule: &'a str,
        moved: Option<Move<'a>>,
    },
}

/// A command.
#[derive(Clone, Copy)]
pub enum Command<'a> {
    Run {
        names: Names<'a>,
        mode: Mode<'a>,
    },
    Make {
        packets: u32,
        seed: u32,
        capture: &'a str,
    },
    Check {
        names: Names<'a>,
    },
    Ports {
        chain: &'a str,
        capture: &'a str,
        journal: &'a str,
        server: u8,
    },
    Watch {
        limit: u8,
        chain: &'a str,
        capture: &'a str,
        beats: &'a str,
        script: &'a str,
    },
}

impl Command<'_> {
    /// Whether the program has it.
    pub fn is_built(&self) -> bool
        ensures { result ≡ spec_is_built (shown self.now) }
    {
        match self {
            Command::Run { mode, .. } => !matches!(mode, Mode::Alone { moved: Some(_), .. }),
            Command::Make { .. }
            | Command::Check { .. }
            | Command::Ports { .. }
            | Command::Watch { .. } => true,
        }
    }
}
