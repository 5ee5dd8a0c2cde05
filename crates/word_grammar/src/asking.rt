//! What the words of the command line ask for.

ghost use Rattle.std.specs.Prelude.{◌≡◌, ℕ, Bool};
ghost use Rattle.import_log.specs.declared.processes.Choice.{Choice};
ghost use Rattle.word_parts.specs.declared.asked.Shows.{Shows};
ghost use Rattle.litmus.specs.declared.telling.LitmusAsk.{LitmusAsk};
ghost use Rattle.word_parts.specs.declared.asked.WitnessPicture.{WitnessPicture};
ghost use Rattle.machine_model.specs.declared.setup.CallLimit.{CallLimit};

use crate::grammar;
use audit_text::Terms;
use clap::{ArgMatches, Error};
use import_log::processes::Choice;
use litmus::{Listing, LitmusAsk};
use machine_model::CallLimit;
use std::alloc::{AllocError, Allocator, Global};
use trace_text::number::read_number;
use trace_words::show::Show;
use word_help::Topic;
use word_parts::asked::{
    Condition, Drawing, Echoed, LinePair, LineRange, Overlaps, PageAsked, Question, Shows,
    StepRange, WitnessPicture,
};

/// What has to be done with a text.
#[derive(Clone, Copy)]
pub enum Work {
    /// A replay, which shows this.
    Replay(Shows),
    /// A replay that shows each line beside its outcome, within this limit, in colours or without, and with what it adds to the log, or
    /// not.
    Echo {
        limit: CallLimit,
        coloured: bool,
        logs: bool,
    },
    /// The certificate of notes.
    Certify,
    /// A run of a script on threads, whose notes are written, and their numbers told, or not.
    Live {
        sums: bool,
    },
    /// The certificate of such a run.
    CertifyLive {
        sums: bool,
    },
    /// A run of a script on threads, the history of whose calls is written.
    LiveHistory {
        sums: bool,
    },
    /// A run of a script on threads over one machine, whose replies and log are written.
    ShareLive,
    /// The trace of a log of strace, of the process that is chosen.
    Import(Choice),
    /// The calls of a log of strace with their replies, of the process that is chosen; whether the log is of several files.
    ImportReplies {
        choice: Choice,
        several: bool,
    },
    /// The traces of a log of strace, one for each process.
    ImportEach,
    /// The trace of a log of lackey.
    ImportAccesses,
    /// The judgement of replies by these terms.
    Audit(Terms),
    /// The same, which goes on after a wrong one.
    AuditAll(Terms),
    /// The judgement of calls that overlap, by one moment for each, in an order that is searched, or given; and, unless
    /// that is to stand alone, by the rule that kernels keep where there is no such order.
    Overlapping {
        overlaps: Overlaps,
        is_alone: bool,
    },
    /// The same, by the rule that kernels keep alone; whether a mapping may have any place, and threads may move
    /// between cores.
    ByKernel {
        any_place: bool,
        moving: bool,
    },
    /// A picture of a trace, of its steps or of lives, the state at its end or behind a line, or each line with what it changes in it.
    Picture(Drawing),
    /// What is told of a litmus test, of whose orders so many points are looked at, at most.
    Litmus {
        wanted: LitmusAsk,
        limit: u64,
    },
    /// The picture of a witness of one of them.
    PictureWitness(WitnessPicture),
}

/// How many points of orders are looked at, where no other limit is asked for.
const POINTS: u64 = 1_000_000;

/// What is asked for.
#[derive(Clone, Copy)]
pub struct Command<'a> {
    pub work: Work,
    /// The text's file, where it isn't standard input.
    pub file: Option<&'a str>,
    /// The file of the list of mappings that an import begins with, of the order that an audit is given, or of counts of outcomes.
    pub maps: Option<&'a str>,
    /// The file that an audit writes an order to.
    pub order: Option<&'a str>,
    /// The folder that an import writes traces to.
    pub folder: Option<&'a str>,
    /// The file that the output goes to, where it isn't standard output.
    pub output: Option<&'a str>,
    /// Whether nothing more is said about an error than its place and what it is.
    pub is_brief: bool,
    /// Whether colours are shown, where the words say that.
    pub colours: Option<bool>,
}

/// What is printed in its place.
#[derive(Drop)]
pub enum Usage {
    /// Why the words are wrong, or what they ask for of the parser's own texts.
    Words(Error),
    /// A page of the help.
    Page(Topic),
    /// The front of one.
    Front(Topic),
    /// No step, or no line, is from the first of these to the last.
    NoSteps(StepRange),
    /// Lines are counted from 1.
    NoLine,
    /// An address is asked for, and no number is given.
    NoAddress,
    /// Several files stand where one is read.
    ManyFiles,
}

// How many calls these words let a trace ask for.
fn limit_of<'a>(words: &ArgMatches<'a>) -> CallLimit {
    if words.get_flag("long") {
        CallLimit::Long
    } else {
        CallLimit::Usual
    }
}

// Whether colours are shown, where the words say that.
fn colours_of<'a>(words: &ArgMatches<'a>) -> Option<bool> {
    match words.get_str("color") {
        Some("always") => Some(true),
        Some("never") => Some(false),
        _ => None,
    }
}

// The file that the output goes to, where the words name one: `-` is standard output.
fn output_of<'a>(words: &ArgMatches<'a>) -> Option<&'a str> {
    match words.get_str("output") {
        Some("-") => None,
        named => named,
    }
}

// This work with the text that the words name.
fn working<'a>(work: Work, words: &ArgMatches<'a>) -> Command<'a>
    ensures { result.work ≡ work }
{
    Command {
        work,
        file: words.get_str("FILE"),
        maps: None,
        order: None,
        folder: None,
        output: output_of(words),
        is_brief: words.get_flag("brief"),
        colours: colours_of(words),
    }
}

// What a state is to be like.
fn condition_of(name: &str) -> Condition {
    match name {
        "waits" => Condition::Waits,
        "unused" => Condition::Unused,
        _ => Condition::Stale,
    }
}

// The two lines that the words name.
fn pair_of<'a>(words: &ArgMatches<'a>) -> Option<LinePair> {
    let mut numbers = words.get_many::<u64>("diff")?;
    let Some(Ok(before)) = numbers.next() else {
        return None;
    };
    let Some(Ok(after)) = numbers.next() else {
        return None;
    };
    Some(LinePair { before, after })
}

// What these words of the word `state` ask for.
fn state_asked<'a>(words: &ArgMatches<'a>) -> Result<Drawing, Usage> {
    let at = words.get_one("at");
    if let Some(pair) = pair_of(words) {
        return Ok(Drawing::Answer(Question::Between(pair)));
    }
    if let Some(name) = words.get_str("until") {
        return Ok(Drawing::Answer(Question::First(condition_of(name))));
    }
    if let Some(text) = words.get_str("who") {
        let Some(addr) = read_number(text.as_bytes()) else {
            return Err(Usage::NoAddress);
        };
        return Ok(Drawing::Answer(Question::Page(PageAsked { addr, at })));
    }
    if words.get_flag("json") {
        return Ok(Drawing::Objects(at));
    }
    Ok(Drawing::State(at))
}

// What these words of a word that reads a trace ask for.
fn replaying<'a>(show: Show, sums: bool, words: &ArgMatches<'a>) -> Command<'a>
    ensures { (shows : Shows) × (result.work ≡ Work.Replay shows) × (shows.show ≡ show) × (shows.sums ≡ sums) }
{
    let limit = limit_of(words);
    working(Work::Replay(Shows { show, limit, sums }), words)
}

// What these words of the word `picture` ask for: lives, or lines or steps, from 1 on, and to the end, where none are named.
fn drawing_of<'a>(words: &ArgMatches<'a>) -> Drawing {
    if words.get_flag("lives") {
        return Drawing::Lives;
    }
    if words.get_flag("history") {
        return Drawing::History;
    }
    let first = words.get_one("from").unwrap_or(1).max(1);
    let last = words.get_one("to").unwrap_or(u64::MAX);
    if words.get_flag("steps") {
        return Drawing::Steps(StepRange { first, last });
    }
    Drawing::Lines(LineRange { first, last })
}

// What the words behind `litmus` ask for.
fn wanted_of<'a>(words: &ArgMatches<'a>) -> LitmusAsk {
    if words.get_flag("to-c") {
        return LitmusAsk::Program;
    }
    if words.get_str("observed").is_some() {
        return LitmusAsk::Observed;
    }
    if let Some(runs) = words.get_one("live") {
        return LitmusAsk::Live(runs);
    }
    LitmusAsk::Outcomes(match words.get_one("witness") {
        Some(number) => Listing::Witness(number),
        None if words.get_flag("list") => Listing::List,
        None => Listing::Report,
    })
}

// How many points of orders the words let be looked at.
fn points_of<'a>(words: &ArgMatches<'a>) -> u64 {
    words.get_one("limit").unwrap_or(POINTS)
}

// The picture of the witness with this number, all of it.
fn witness_asked<'a>(words: &ArgMatches<'a>, number: u64) -> Command<'a>
    ensures { (asked : WitnessPicture) × (result.work ≡ Work.PictureWitness asked) }
{
    let asked = WitnessPicture {
        number,
        limit: points_of(words),
        drawing: Drawing::Lines(LineRange {
            first: 1,
            last: u64::MAX,
        }),
    };
    working(Work::PictureWitness(asked), words)
}

// What the words behind `litmus` ask for: a picture, or else what is told of the test.
fn litmus_asked<'a>(words: &ArgMatches<'a>) -> Command<'a> {
    match words.get_one("picture") {
        Some(number) => witness_asked(words, number),
        None => testing(words),
    }
}

// A litmus test, with the counts that the words name.
fn testing<'a>(words: &ArgMatches<'a>) -> Command<'a>
    ensures { (wanted : LitmusAsk) × (limit : ℕ) × (result.work ≡ Work.Litmus wanted limit) }
{
    let work = Work::Litmus {
        wanted: wanted_of(words),
        limit: points_of(words),
    };
    Command {
        maps: words.get_str("observed"),
        ..working(work, words)
    }
}

// What is imported of a log, as the words say.
fn choice_of<'a>(words: &ArgMatches<'a>) -> Choice {
    Choice {
        thread: words.get_one("pid"),
        joined: words.get_flag("one-process"),
        from_empty: words.get_flag("from-empty"),
    }
}

// Whether the words name several files.
fn has_several<'a>(words: &ArgMatches<'a>) -> bool {
    match words.get_strs("FILE") {
        Some(names) => names.len() > 1,
        None => false,
    }
}

// An import, with the list of mappings that the words name.
fn importing<'a>(words: &ArgMatches<'a>) -> Command<'a>
    ensures { (choice : Choice) × (result.work ≡ Work.Import choice) }
{
    Command {
        maps: words.get_str("maps"),
        ..working(Work::Import(choice_of(words)), words)
    }
}

// The calls of a log with their replies, with the list of mappings that the words name.
fn replying<'a>(words: &ArgMatches<'a>) -> Command<'a>
    ensures { (choice : Choice) × (several : Bool) × (result.work ≡ Work.ImportReplies choice several) }
{
    let work = Work::ImportReplies {
        choice: choice_of(words),
        several: has_several(words),
    };
    Command {
        maps: words.get_str("maps"),
        ..working(work, words)
    }
}

// An import of each process, into the folder that the words name.
fn importing_each<'a>(words: &ArgMatches<'a>) -> Command<'a>
    ensures { result.work ≡ Work.ImportEach }
{
    Command {
        folder: words.get_str("all"),
        ..working(Work::ImportEach, words)
    }
}

// What the words after `run` ask for, in colours or without where they don't say that. A file gets none.
fn running_asked<'a>(words: &ArgMatches<'a>, coloured: bool) -> Command<'a> {
    let coloured = colours_of(words).unwrap_or(coloured && output_of(words).is_none());
    let logs = words.get_flag("log");
    if words.get_flag("state") {
        let shows = Echoed { coloured, logs };
        return working(Work::Picture(Drawing::Changes(shows)), words);
    }
    if words.get_flag("echo") {
        let limit = limit_of(words);
        return working(
            Work::Echo {
                limit,
                coloured,
                logs,
            },
            words,
        );
    }
    if logs {
        return replaying(Show::OutcomesAndLog, false, words);
    }
    replaying(Show::Outcomes, words.get_flag("summary"), words)
}

// What the words after `live` ask for.
fn living_asked<'a>(words: &ArgMatches<'a>) -> Work {
    let sums = words.get_flag("summary");
    if words.get_flag("certify") {
        return Work::CertifyLive { sums };
    }
    if words.get_flag("history") {
        return Work::LiveHistory { sums };
    }
    if words.get_flag("one-machine") || words.get_flag("shared") {
        return Work::ShareLive;
    }
    Work::Live { sums }
}

// The topic of this name. A word's name and that of what it reads are one topic's.
fn topic_named(name: &str) -> Topic {
    match name {
        "run" => Topic::Run,
        "trace" => Topic::Trace,
        "outcomes" => Topic::Outcomes,
        "log" => Topic::Log,
        "maps" => Topic::Maps,
        "errors" | "faults" | "status" => Topic::Faults,
        "cores" => Topic::Cores,
        "formats" => Topic::Formats,
        "certify" | "notes" => Topic::Notes,
        "live" | "threads" => Topic::Threads,
        "import" => Topic::Import,
        "audit" => Topic::Audit,
        "picture" => Topic::Picture,
        "state" => Topic::State,
        "html" | "page" => Topic::Page,
        "litmus" => Topic::Litmus,
        _ => Topic::Overview,
    }
}

// The topic of the help that the words name.
fn topic_of<'a>(words: &ArgMatches<'a>) -> Topic {
    match words.get_str("TOPIC") {
        Some(name) => topic_named(name),
        None => Topic::Overview,
    }
}

// What the words behind `audit` ask for of calls that overlap.
fn overlapping<'a>(words: &ArgMatches<'a>) -> Command<'a> {
    let given = words.get_str("given");
    let overlaps = Overlaps {
        any_place: words.get_flag("any-place"),
        is_given: given.is_some(),
        is_wanted: words.get_str("order").is_some(),
    };
    let work = if words.get_flag("kernel") {
        Work::ByKernel {
            any_place: overlaps.any_place,
            moving: words.get_flag("moving"),
        }
    } else {
        Work::Overlapping {
            overlaps,
            is_alone: words.get_flag("strict"),
        }
    };
    Command {
        maps: given,
        order: words.get_str("order"),
        ..working(work, words)
    }
}

// By what terms the words have replies judged.
fn terms_asked<'a>(words: &ArgMatches<'a>) -> Terms {
    Terms {
        any_place: words.get_flag("any-place"),
        is_strict: words.get_flag("strict"),
    }
}

// What the words after one of the program's own ask for, or the page of the help.
fn asked<'a>(name: &str, words: &ArgMatches<'a>, coloured: bool) -> Result<Command<'a>, Usage> {
    match name {
        "run" => Ok(running_asked(words, coloured)),
        "maps" if words.get_flag("names") => {
            Ok(working(Work::Picture(Drawing::Listing(limit_of(words))), words))
        }
        "maps" => Ok(replaying(Show::Maps, false, words)),
        "state" => match state_asked(words) {
            Ok(drawing) => Ok(working(Work::Picture(drawing), words)),
            Err(usage) => Err(usage),
        },
        "html" | "page" => Ok(working(Work::Picture(Drawing::Page), words)),
        "certify" => Ok(working(Work::Certify, words)),
        "live" => Ok(working(living_asked(words), words)),
        "import" if words.get_flag("lackey") => Ok(working(Work::ImportAccesses, words)),
        "import" if words.get_str("all").is_some() => Ok(importing_each(words)),
        "import" if words.get_flag("replies") => Ok(replying(words)),
        "import" => Ok(importing(words)),
        "audit" if words.get_flag("overlapping") => Ok(overlapping(words)),
        "audit" if words.get_flag("all") => {
            Ok(working(Work::AuditAll(terms_asked(words)), words))
        }
        "audit" => Ok(working(Work::Audit(terms_asked(words)), words)),
        "picture" => Ok(working(Work::Picture(drawing_of(words)), words)),
        "litmus" => Ok(litmus_asked(words)),
        _ => Err(Usage::Page(topic_of(words))),
    }
}

// Adds the names of the files that these words name, where they may be several.
fn add_names<'a>(
    name: &str,
    words: &ArgMatches<'a>,
    names: &mut Vec<&'a str>,
) -> Result<(), AllocError> {
    if name == "import"
        && let Some(all) = words.get_strs("FILE")
    {
        names.extend_from_slice(all)?;
    }
    Ok(())
}

// Parses the words: what they ask for, or the page of the help.
fn matched<'a, A: Allocator>(
    alloc: Global,
    words: &'a [String<A>],
    coloured: bool,
    names: &mut Vec<&'a str>,
) -> Result<Result<Command<'a>, Usage>, Error> {
    let program = grammar(alloc)?;
    let matches = program.try_get_matches_from(words)?;
    match matches.subcommand() {
        Some((name, words)) => {
            add_names(name, words, names)?;
            Ok(asked(name, words, coloured))
        }
        None => Ok(Err(Usage::Page(Topic::Overview))),
    }
}

// Whether a state behind line 0 is asked for.
fn is_behind_none(drawing: Drawing) -> bool {
    match drawing {
        Drawing::State(at) | Drawing::Objects(at) => at == Some(0),
        Drawing::Answer(Question::Page(page)) => page.at == Some(0),
        Drawing::Answer(Question::Between(pair)) => pair.before == 0 || pair.after == 0,
        _ => false,
    }
}

// The task, if it may read so many files, a picture of steps has one that it may show, and a state is behind a line.
fn checked<'a>(task: Command<'a>, files: usize) -> Result<Command<'a>, Usage> {
    match task.work {
        Work::ImportAccesses if files > 1 => Err(Usage::ManyFiles),
        Work::Picture(Drawing::Steps(steps)) if steps.last < steps.first => {
            Err(Usage::NoSteps(steps))
        }
        Work::Picture(Drawing::Lines(lines)) if lines.last < lines.first => Err(Usage::NoSteps(
            StepRange {
                first: lines.first,
                last: lines.last,
            },
        )),
        Work::Picture(drawing) if is_behind_none(drawing) => Err(Usage::NoLine),
        _ => Ok(task),
    }
}

// Whether `-h` is among the words that may be flags.
fn asks_briefly<A: Allocator>(words: &[String<A>]) -> bool {
    for word in words {
        match word.as_str() {
            "-h" => return true,
            "--" => return false,
            _ => {}
        }
    }
    false
}

// The topic of the command that the words name first.
fn topic_first<A: Allocator>(words: &[String<A>]) -> Topic {
    match words.get(1) {
        Some(name) => topic_named(name.as_str()),
        None => Topic::Overview,
    }
}

/// Parses the words: what they ask for, or what is printed in its place, and the names of the files of an import. What goes to
/// standard output may have colours, where the words don't say that.
pub fn parse<'a, A: Allocator>(
    alloc: Global,
    words: &'a [String<A>],
    coloured: bool,
    names: &mut Vec<&'a str>,
) -> Result<Command<'a>, Usage> {
    if asks_briefly(words) {
        return Err(Usage::Front(topic_first(words)));
    }
    match matched(alloc, words, coloured, names) {
        Ok(Ok(task)) => checked(task, names.len()),
        Ok(Err(usage)) => Err(usage),
        Err(error) => Err(Usage::Words(error)),
    }
}
