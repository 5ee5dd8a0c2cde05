//! The texts of the help, a page for each command and topic.
//!
//! - The root has topics and their pages (`page`); `traces`: of `run` and `maps`; `texts`: of all other commands.
//!
//! It knows no other crate, so that a changed text proves little anew.
#![tactic(auto)]

mod texts;
mod traces;

ghost use Rattle.std.specs.Prelude.{◌≡◌};
ghost use Rattle.word_help.specs.Help.{IsFront, page_of};

use crate::texts::{AUDIT, IMPORT, LITMUS, NOTES, PICTURE, THREADS};
use crate::traces::{CORES, FAULTS, FORMATS, LOG, MAPS, OUTCOMES, PAGE, RUN, STATE, TRACE};

/// The program's version.
pub const VERSION: &str = "0.1.0";

/// What `--version` says after the program's name: also the version of the header for C, and the kit whose logic proves the program.
pub const VERSION_TEXT: &str = "0.1.0\nheader 5, rattle-kit-13f logic dac8208d650f15bf";

/// How commands and options go together.
pub const USAGE: &str = "\
radixvm run [--summary | [--echo] [--state] [--log]] [--long]
                   [--brief] [FILE]
       radixvm maps [--names] [--long] [--brief] [FILE]
       radixvm state [--diff A B | --until COND |
                      [--at N] [--json | --who ADDR]] [--brief] [FILE]
       radixvm html [--brief] [FILE]
       radixvm certify [--brief] [FILE]
       radixvm live [[--certify | --history] [--summary] | --one-machine]
                    [--brief] [FILE]
       radixvm import [--lackey | --all DIR |
                      [--replies] [--pid N] [--one-process]
                      [--maps FILE] [--from-empty]] [--brief] [FILE..]
       radixvm audit [--overlapping [--kernel [--moving] |
                                     [--strict] [--given IN] [--order OUT]] |
                     [--strict] [--all]] [--any-place] [--brief] [FILE]
       radixvm picture [--history | --lives |
                        [--steps] [--from N] [--to N]]
                       [--brief] [FILE]
       radixvm litmus [--to-c | [--limit N] [--list | --witness N |
                      --picture N | --observed COUNTS | --live N]]
                      [--brief] [FILE]
       radixvm help [TOPIC]";

/// What the program is for, its commands, and where to read on.
pub const OVERVIEW: &str = "\
One virtual address space with mmap, munmap and mprotect, shared by 1 to 64
modelled cores. radixvm replays it step by step, shows it, and judges replies
of other systems.

To do this                                       use
  see what calls reply                           run
  see what each core holds; step through it      state, html, picture
  check a kernel or simulator, call by call      audit
  check threads whose calls overlap              audit --overlapping
  list every outcome of a race                   litmus
  look at a real program's mappings              import, maps
  run cores on threads; check what they noted    live, certify

Usage: radixvm COMMAND [OPTIONS] [FILE]
       Without FILE, or for -, the text comes from standard input.
       radixvm help COMMAND explains a command and all its options.

Commands:
  run            replays a trace: a line for each event, with its outcome
  run --log      adds the log: when each call had its reply
  run --echo     writes each line with its outcome
  run --state    adds below each line what it changes in the state
  run --summary  writes the run's numbers to standard error
  maps           writes the mappings at the end of a trace
  state          writes the state at the end of a trace, or after line N
  html           writes a page of HTML that steps through a trace
  picture        draws a trace as SVG: its lines, steps or mappings
  audit          judges the replies of another address space
  litmus         lists what calls of several cores can reply
  import         makes a trace of a log of strace, or of valgrind's lackey
  live           runs a script, each core on a thread, and writes their notes
  live --certify certifies these notes, or refuses them
  live --history writes when each call began and was answered
  live --summary writes numbers of the run to standard error
  certify        says whether notes are a run of the machine
  help           writes this text
  --long         lets the trace ask for up to 2^40 calls
  --brief        says only where an error is, and what it is

Topics:
  help TOPIC     explains one of these, or a command, as COMMAND --help does:
    trace        the lines of a trace
    outcomes     the outcomes of events; what to do at a wait
    log          the lines that --log adds
    errors       errors, limits and exit status; so does status
    cores        tables, TLBs, locks, shootdown, and how frames come back
    notes        the lines that certify reads and writes
    threads      scripts, and what live writes
    formats      the grammar of each text

Options of all commands:
  --color WHEN   colours: auto (on a terminal, unless NO_COLOR is set), always
                 or never
  -o, --output FILE
                 writes to FILE; it is replaced as a whole, and stays as it was
                 where the status is 2 or 3. - is standard output
  -h             writes only usage and options
  --help         explains the command
  -V, --version  writes the version
  --             what comes after it is a FILE

Example, with one core and four frames:
  printf '%s\\n' 'vm 1 4' 'c0! mmap 0x10000 4096 rw- pfa' \\
    'c0! store 0x10004 41' 'c0! load 0x10004' | radixvm run
writes 0x10000, done and 41, each on a line of its own.
";

/// What help may explain.
#[derive(Clone, Copy)]
pub enum Topic {
    /// The program, its words and these topics.
    Overview,
    /// What `run` does.
    Run,
    /// The lines of a trace.
    Trace,
    /// The lines of output, and what to do at a wait.
    Outcomes,
    /// The lines that `run --log` adds.
    Log,
    /// The lines of `maps`.
    Maps,
    /// What ends a replay early.
    Faults,
    /// Tables, TLBs, locks, shootdown, and how frames come back.
    Cores,
    /// The grammar of each text.
    Formats,
    /// What `certify` reads and writes.
    Notes,
    /// What `live` reads and writes.
    Threads,
    /// What `import` reads and writes.
    Import,
    /// What `audit` reads and writes.
    Audit,
    /// What `picture` shows.
    Picture,
    /// What `state` writes.
    State,
    /// What `html` writes.
    Page,
    /// What `litmus` reads and writes.
    Litmus,
}

/// The names of the topics, as the program's words have them: first those of words.
pub const TOPICS: &[&str] = &[
    "run", "maps", "state", "html", "page", "certify", "live", "import", "audit", "picture",
    "litmus", "trace", "outcomes", "log", "errors", "faults", "cores", "notes", "threads",
    "formats", "status", "help",
];

/// The topic's text.
pub fn page(topic: Topic) -> &'static str
    ensures { result.now ≡ page_of topic }
{
    match topic {
        Topic::Overview => OVERVIEW,
        Topic::Run => RUN,
        Topic::Trace => TRACE,
        Topic::Outcomes => OUTCOMES,
        Topic::Log => LOG,
        Topic::Maps => MAPS,
        Topic::Faults => FAULTS,
        Topic::Cores => CORES,
        Topic::Formats => FORMATS,
        Topic::Notes => NOTES,
        Topic::Threads => THREADS,
        Topic::Import => IMPORT,
        Topic::Audit => AUDIT,
        Topic::Picture => PICTURE,
        Topic::State => STATE,
        Topic::Page => PAGE,
        Topic::Litmus => LITMUS,
    }
}

/// The front of the topic's page: what it is for, its usage and its options, where it has some.
pub fn brief(topic: Topic) -> &'static str
    ensures { IsFront (page_of topic) result.now }
{
    let text = page(topic);
    match text.get(..front_end(text)) {
        Some(front) => front,
        None => text,
    }
}

// What comes before the options of a page, and before the list of commands.
const OPTIONS_HEAD: &str = "\n\nOptions:";

const COMMANDS_HEAD: &str = "\n\nCommands:";

// Where the front of a page ends: before the list of commands, or after the options.
fn front_end(text: &str) -> usize {
    let (front, rest) = text.split_once(OPTIONS_HEAD).unwrap_or((text, ""));
    if let Some(end) = text.find(COMMANDS_HEAD) {
        return end.saturating_add(1);
    }
    let options = match rest.find("\n\n") {
        Some(end) => end.saturating_add(1),
        None => rest.len(),
    };
    front
        .len()
        .saturating_add(OPTIONS_HEAD.len())
        .saturating_add(options)
}
