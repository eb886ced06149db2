//! The options of a run.

ghost use Rattle.std.specs.Prelude.{◌≡◌, ◌≢◌, ◌<◌, [], None, map, option_map, length, IfOk, IfSome};
ghost use Rattle.run_options.specs.RunFault.{run_fault, run_stamp};
ghost use Rattle.run_options.specs.WordsFault.{words_fault};
ghost use Rattle.run_options.specs.ListFault.{list_fault};

use crate::arguments::{Argument, CommandWords};
use crate::help::RUN_HELP;
use crate::status::{bad_words, no_memory};
use clap::ArgMatches;
use cwr_field::{Memory, cut, date, digits, time};
use cwr_record::Stamp;
use run_options::{RunFault, WordsFault, files_fault, run_fault, words_fault};
use std::alloc::Global;
use std::process::ExitCode;

/// `run --society NNN --name TEXT --date YYYYMMDD --time HHMMSS [--from REGISTER] [--to REGISTER]
/// [--in-order | --in-turn] [--no-clobber] [--verbose] FILE..`. In place of FILE there may be `--files-from LIST
/// [--null]`, with any number of files, which are then in order too if no option says how.
pub(crate) const RUN: CommandWords = CommandWords {
    name: "run",
    about: "Acknowledges CWR 2.2 files into one history, the acknowledgement of FILE in FILE.ack",
    arguments: &[
        SOCIETY,
        NAME,
        DATE,
        TIME,
        Argument::Value(
            "from",
            "REGISTER",
            "the register to go on from; else the history begins empty",
        ),
        Argument::Value(
            "to",
            "REGISTER",
            "the register to write, in place of a file that is there",
        ),
        Argument::Flag(
            "in-order",
            "files are read on threads and decided in the order of the arguments",
        ),
        Argument::FlagAgainst(
            "in-turn",
            &["in-order"],
            "the same on one thread, one file after another",
        ),
        Argument::Flag(
            "no-clobber",
            "write over no acknowledgement, and over no register but that of --from",
        ),
        Argument::FilesFrom("FILE"),
        Argument::Null("FILE"),
        Argument::Verbose,
        Argument::Words("FILE", "a CWR 2.2 file, 1 to 63 of them"),
    ],
    more: RUN_HELP,
};

// The options that name the stamp of acknowledgements.

pub(crate) const SOCIETY: Argument = Argument::NeededValue(
    "society",
    "NNN",
    "number of the society that acknowledges, three digits",
);

pub(crate) const NAME: Argument = Argument::NeededValue("name", "TEXT", "its name, 1 to 45 bytes");

pub(crate) const DATE: Argument = Argument::NeededValue("date", "YYYYMMDD", "date of the run");

pub(crate) const TIME: Argument = Argument::NeededValue("time", "HHMMSS", "time of the run");

/// The values of the options that name the stamp, as they were given.
#[derive(Clone, Copy)]
pub(crate) struct StampWords<'a> {
    society: &'a str,
    name: &'a str,
    date: &'a str,
    time: &'a str,
}

impl<'a> StampWords<'a> {
    /// Those of a command line that has to have them.
    pub(crate) fn given(matches: &ArgMatches<'a>) -> Option<StampWords<'a>> {
        Some(StampWords {
            society: matches.get_str("society")?,
            name: matches.get_str("name")?,
            date: matches.get_str("date")?,
            time: matches.get_str("time")?,
        })
    }

    /// What is wrong with them, if anything is.
    pub(crate) fn fault(&self) -> Option<RunFault>
        ensures { result ≡ run_fault self.now.society.now self.now.name.now self.now.date.now self.now.time.now [] }
    {
        run_fault(self.society, self.name, self.date, self.time, &[])
    }

    /// The stamp that they name. There is one if nothing is wrong with them.
    pub(crate) fn stamp(&self) -> Option<Stamp>
        ensures { result ≡ run_stamp self.now.society.now self.now.name.now self.now.date.now self.now.time.now }
    {
        let society = digits(cut(self.society.as_bytes(), 1, 3))?;
        let day = date(cut(self.date.as_bytes(), 1, 8))?;
        let clock = time(cut(self.time.as_bytes(), 1, 6))?;
        Stamp::new(society as u16, self.name.as_bytes(), day, clock)
    }
}

/// How the files of a run are worked.
#[derive(Clone, Copy)]
pub(crate) enum Way {
    /// All at once, each on a thread of its own. The order of the decisions is open.
    AtOnce,
    /// Read and answered on threads, and decided one after another, in their order.
    InOrder,
    /// One after another, in their order, on one thread.
    InTurn,
}

impl Way {
    /// The way of a run with a list of files: in order, if not in turn.
    fn of_list(matches: &ArgMatches) -> Way
        ensures { result ≢ Way.AtOnce }
    {
        if matches.get_flag("in-turn") {
            Way::InTurn
        } else {
            Way::InOrder
        }
    }

    /// The way that a command line of [`RUN`] asks for, which has at most one of the two options.
    fn given(matches: &ArgMatches) -> Way {
        if matches.get_flag("in-order") {
            Way::InOrder
        } else if matches.get_flag("in-turn") {
            Way::InTurn
        } else {
            Way::AtOnce
        }
    }
}

/// The options of a run, as they were given.
#[derive(Drop)]
pub(crate) struct RunWords<'m, 'f, 'a> {
    /// The stamp of the acknowledgements.
    who: StampWords<'a>,
    /// The register of the book that the run begins with, if that is not an empty one.
    pub(crate) from: Option<&'a str>,
    /// The file that gets the register of the book after the run, if any does.
    pub(crate) to: Option<&'a str>,
    /// How the files are worked.
    pub(crate) way: Way,
    /// Whether existing acknowledgements stay.
    pub(crate) no_clobber: bool,
    /// Whether steps, and the system's reasons, are printed.
    pub(crate) verbose: bool,
    /// The files to acknowledge.
    pub(crate) files: &'m [&'f str],
}

impl<'m, 'f, 'a> RunWords<'m, 'f, 'a> {
    /// The options that a command line of [`RUN`] was given, with these files, which are worked in this way.
    fn given(
        matches: &ArgMatches<'a>,
        files: &'m [&'f str],
        way: Way,
    ) -> Option<RunWords<'m, 'f, 'a>>
        ensures files { IfSome result (λ words. words.files ≡ files.entry) }
        ensures way { IfSome result (λ words. words.way ≡ way) }
    {
        Some(RunWords {
            who: StampWords::given(matches)?,
            from: matches.get_str("from"),
            to: matches.get_str("to"),
            way,
            no_clobber: matches.get_flag("no-clobber"),
            verbose: matches.get_flag("verbose"),
            files,
        })
    }

    /// What is wrong with them and a list of files, if anything is.
    fn list_fault(&self, alloc: Global) -> Result<Option<WordsFault>, Memory>
        ensures { IfOk result (λ fault. fault ≡ list_fault self.now.who.society.now self.now.who.name.now self.now.who.date.now self.now.who.time.now
            (map (λ file. file.now) self.now.files.now)
            (option_map (λ word. word.now) self.now.from) (option_map (λ word. word.now) self.now.to)) }
    {
        match self.who.fault() {
            Some(fault) => Ok(Some(WordsFault::Run(fault))),
            None => files_fault(alloc, self.files, self.from, self.to),
        }
    }

    /// What is wrong with them, if anything is.
    fn fault(&self) -> Option<WordsFault>
        ensures { result ≡ words_fault self.now.who.society.now self.now.who.name.now self.now.who.date.now self.now.who.time.now
            (map (λ file. file.now) self.now.files.now)
            (option_map (λ word. word.now) self.now.from) (option_map (λ word. word.now) self.now.to) }
    {
        let StampWords {
            society,
            name,
            date,
            time,
        } = self.who;
        words_fault(society, name, date, time, self.files, self.from, self.to)
    }

    /// The stamp of the acknowledgements. There is one if nothing is wrong with the options.
    pub(crate) fn stamp(&self) -> Option<Stamp>
        ensures { result ≡ run_stamp self.now.who.society.now self.now.who.name.now self.now.who.date.now self.now.who.time.now }
    {
        self.who.stamp()
    }
}

/// The options of a run on the files of the command line, if nothing is wrong with them. Else the fault is printed on
/// standard error, and its status returned.
pub(crate) fn right_words<'m, 'a, R: Eprint>(
    rt: &R,
    matches: &'m ArgMatches<'a>,
) -> Result<RunWords<'m, 'a, 'a>, ExitCode>
    ensures few { IfOk result (λ words. words.way ≡ Way.AtOnce → length words.files.now < 64) }
{
    let Some(files) = matches.get_strs("FILE") else {
        return Err(bad_words(rt, "the command line is not taken"));
    };
    let Some(words) = RunWords::given(matches, files, Way::given(matches)) else {
        return Err(bad_words(rt, "the command line is not taken"));
    };
    match words.fault() {
        None => Ok(words),
        Some(fault) => Err(bad_words(rt, fault.text())),
    }
}

/// The options of a run on the files of a list, if nothing is wrong with them. Else the fault is printed on standard
/// error, and its status returned.
pub(crate) fn right_listed_words<'m, 'f, 'a, R: AllocGlobal + Eprint>(
    rt: &R,
    matches: &ArgMatches<'a>,
    files: &'m [&'f str],
) -> Result<RunWords<'m, 'f, 'a>, ExitCode>
    ensures few { IfOk result (λ words. words.way ≡ Way.AtOnce → length words.files.now < 64) }
{
    let Some(words) = RunWords::given(matches, files, Way::of_list(matches)) else {
        return Err(bad_words(rt, "the command line is not taken"));
    };
    match words.list_fault(rt.alloc()) {
        Ok(None) => Ok(words),
        Ok(Some(fault)) => Err(bad_words(rt, fault.text())),
        Err(Memory) => Err(no_memory(rt)),
    }
}
