//! The words of the command line: what they are, and what may stand after each.

ghost use Rattle.std.specs.Prelude.{◌≡◌, IfOk, codes};
ghost use Rattle.clap.specs.Words.{app_of, subcommand_names};
ghost use Rattle.word_grammar.specs.Names.{name_of_word, program_words};

use clap::{Arg, ArgAction, Command, value_parser};
use std::alloc::{AllocError, Global};
use word_help::{OVERVIEW, TOPICS, Topic, USAGE, VERSION_TEXT, page};

// What stands behind a choice.
#[derive(Clone, Copy)]
enum Value {
    Nothing,
    Number,
    Pair,
    Condition,
    Name,
    Colour,
}

// When colours are shown: at terminals, always or never.
const COLOURS: &[&str] = &["auto", "always", "never"];

// What a state may be like.
const CONDITIONS: &[&str] = &["stale", "waits", "unused"];

// What may stand after a word: where none of `rivals` does and, if one is given, only where `needed` does.
#[derive(Clone, Copy)]
struct Choice {
    name: &'static str,
    letter: Option<char>,
    value: Value,
    rivals: &'static [&'static str],
    needed: Option<&'static str>,
}

impl Choice {
    // The choice of this name, whatever else stands.
    fn new(name: &'static str, value: Value) -> Choice {
        Choice {
            name,
            letter: None,
            value,
            rivals: &[],
            needed: None,
        }
    }

    // The same, which one letter names, too.
    fn lettered(self, letter: char) -> Choice {
        let letter = Some(letter);
        Choice { letter, ..self }
    }

    // The same where none of these stands.
    fn without(self, rivals: &'static [&'static str]) -> Choice {
        Choice { rivals, ..self }
    }

    // The same where this stands.
    fn beside(self, needed: &'static str) -> Choice {
        let needed = Some(needed);
        Choice { needed, ..self }
    }

    // The choice as the parser takes it.
    fn arg<'a>(self, alloc: Global) -> Result<Arg<'a>, AllocError> {
        let arg = Arg::new(alloc, self.name).long(self.name);
        let arg = match self.value {
            Value::Nothing => arg.action(ArgAction::SetTrue),
            Value::Number => arg.value_parser(value_parser!(u64)),
            Value::Pair => arg.value_parser(value_parser!(u64)).num_args(2),
            Value::Condition => arg.value_parser(CONDITIONS),
            Value::Name => arg,
            Value::Colour => arg.value_parser(COLOURS),
        };
        let arg = match self.letter {
            Some(letter) => arg.short(letter),
            None => arg,
        };
        let mut arg = match self.needed {
            Some(needed) => arg.requires_arg(needed)?,
            None => arg,
        };
        for rival in self.rivals {
            arg = arg.conflicts_with(*rival)?;
        }
        Ok(arg)
    }
}

// A choice behind which nothing stands.
fn flag(name: &'static str) -> Choice {
    Choice::new(name, Value::Nothing)
}

// A choice behind which a number stands.
fn number(name: &'static str) -> Choice {
    Choice::new(name, Value::Number)
}

// A choice behind which a name stands.
fn name(name: &'static str) -> Choice {
    Choice::new(name, Value::Name)
}

// A word of the program that reads a text, with what may stand after it.
fn reading<'a>(
    alloc: Global,
    name: &'static str,
    topic: Topic,
    usage: &'static str,
    choices: &[Choice],
) -> Result<Command<'a>, AllocError>
    ensures { IfOk result (λ c. (app_of c).top.name ≡ name.now) }
{
    reading_from(alloc, name, topic, usage, Arg::new(alloc, "FILE"), choices)
}

// A word of the program that reads what `file` names, with what may stand after it.
fn reading_from<'a>(
    alloc: Global,
    name: &'static str,
    topic: Topic,
    usage: &'static str,
    file: Arg<'a>,
    choices: &[Choice],
) -> Result<Command<'a>, AllocError>
    ensures { IfOk result (λ c. (app_of c).top.name ≡ name.now) }
{
    let command = Command::new(alloc, name)
        .override_help(page(topic))
        .override_usage(usage);
    let of_all = [
        flag("brief"),
        flag("explain"),
        Choice::new("color", Value::Colour),
        Choice::new("output", Value::Name).lettered('o'),
    ];
    let command = with_choices(alloc, command, &of_all)?;
    with_choices(alloc, command.arg(file)?, choices)
}

// The same word with these choices more.
fn with_choices<'a>(
    alloc: Global,
    word: Command<'a>,
    choices: &[Choice],
) -> Result<Command<'a>, AllocError>
    ensures { IfOk result (λ c. (app_of c).top.name ≡ (app_of word.entry).top.name) }
{
    let mut command = word;
    'choices: for choice in choices {
        command = command.arg(choice.arg(alloc)?)?;
    }
    Ok(command)
}

const RUN_USAGE: &str =
    "radixvm run [--summary | [--echo] [--state] [--log]] [--long] [--brief] [FILE]";

const MAPS_USAGE: &str = "radixvm maps [--names] [--long] [--brief] [FILE]";

const CERTIFY_USAGE: &str = "radixvm certify [--brief] [FILE]";

const LIVE_USAGE: &str =
    "radixvm live [[--certify | --history] [--summary] | --one-machine] [--brief] [FILE]";

const IMPORT_USAGE: &str =
    "radixvm import [--lackey | --all DIR | [--replies] [--pid N] [--one-process] [--maps FILE] [--from-empty]] [--brief] [FILE..]";

const AUDIT_USAGE: &str =
    "radixvm audit [--overlapping [--kernel [--moving] | [--strict] [--given IN] [--order OUT]] | [--strict] [--all]] [--any-place] [--brief] [FILE]";

const LITMUS_USAGE: &str =
    "radixvm litmus [--to-c | [--limit N] [--list | --witness N | --picture N | --observed COUNTS | --live N]] [--brief] [FILE]";

const STATE_USAGE: &str =
    "radixvm state [--diff A B | --until COND | [--at N] [--json | --who ADDR]] [--brief] [FILE]";

const HTML_USAGE: &str = "radixvm html [--brief] [FILE]";

const PICTURE_USAGE: &str =
    "radixvm picture [--history | --lives | [--steps] [--from N] [--to N]] [--brief] [FILE]";

// The word `run` with what may stand after it.
fn run_word<'a>(alloc: Global) -> Result<Command<'a>, AllocError>
    ensures { IfOk result (λ c. (app_of c).top.name ≡ codes "run") }
{
    let choices = [
        flag("log"),
        flag("echo"),
        flag("state").without(&["long"]),
        flag("summary").without(&["log", "echo", "state"]),
        flag("long").without(&["log"]),
    ];
    reading(alloc, "run", Topic::Run, RUN_USAGE, &choices)
}

// The word `maps` with what may stand after it.
fn maps_word<'a>(alloc: Global) -> Result<Command<'a>, AllocError>
    ensures { IfOk result (λ c. (app_of c).top.name ≡ codes "maps") }
{
    let choices = [flag("names"), flag("long")];
    reading(alloc, "maps", Topic::Maps, MAPS_USAGE, &choices)
}

// The word `state` with what may stand after it.
fn state_word<'a>(alloc: Global) -> Result<Command<'a>, AllocError>
    ensures { IfOk result (λ c. (app_of c).top.name ≡ codes "state") }
{
    let choices = [
        number("at"),
        flag("json"),
        Choice::new("diff", Value::Pair).without(&["at", "json"]),
        name("who").without(&["json", "diff"]),
        Choice::new("until", Value::Condition).without(&["at", "json", "diff", "who"]),
    ];
    reading(alloc, "state", Topic::State, STATE_USAGE, &choices)
}

// The word `live` with what may stand after it.
fn live_word<'a>(alloc: Global) -> Result<Command<'a>, AllocError>
    ensures { IfOk result (λ c. (app_of c).top.name ≡ codes "live") }
{
    let choices = [
        flag("certify"),
        flag("history").without(&["certify"]),
        flag("one-machine").without(&["certify", "history"]),
        // Its older name.
        flag("shared").without(&["certify", "history"]),
        flag("summary").without(&["one-machine", "shared"]),
    ];
    reading(alloc, "live", Topic::Threads, LIVE_USAGE, &choices)
}

// The word `import` with what may stand after it.
fn import_word<'a>(alloc: Global) -> Result<Command<'a>, AllocError>
    ensures { IfOk result (λ c. (app_of c).top.name ≡ codes "import") }
{
    let files = Arg::new(alloc, "FILE").num_args(0..);
    let choices = [
        number("pid"),
        flag("one-process"),
        name("maps"),
        flag("from-empty"),
        flag("replies"),
        name("all").without(&["pid", "one-process", "maps", "from-empty", "replies"]),
        flag("lackey").without(&["pid", "one-process", "maps", "from-empty", "replies", "all"]),
    ];
    reading_from(
        alloc,
        "import",
        Topic::Import,
        IMPORT_USAGE,
        files,
        &choices,
    )
}

// The word `audit` with what may stand after it. The parser doesn't ask for `overlapping` beside a choice that rules it
// out, so what only orders have names those itself.
fn audit_word<'a>(alloc: Global) -> Result<Command<'a>, AllocError>
    ensures { IfOk result (λ c. (app_of c).top.name ≡ codes "audit") }
{
    let choices = [
        flag("any-place"),
        flag("strict"),
        flag("all"),
        flag("overlapping").without(&["all"]),
        of_orders(name("given"), &["all"]),
        of_orders(name("order"), &["all"]),
        of_orders(flag("kernel"), &["strict", "all", "given", "order"]),
        flag("moving")
            .beside("kernel")
            .without(&["strict", "all", "given", "order"]),
    ];
    reading(alloc, "audit", Topic::Audit, AUDIT_USAGE, &choices)
}

// A choice that only orders of calls have, where none of these stands.
fn of_orders(choice: Choice, rivals: &'static [&'static str]) -> Choice {
    choice.beside("overlapping").without(rivals)
}

// The word `picture` with what may stand after it.
fn picture_word<'a>(alloc: Global) -> Result<Command<'a>, AllocError>
    ensures { IfOk result (λ c. (app_of c).top.name ≡ codes "picture") }
{
    let choices = [
        number("from"),
        number("to"),
        flag("steps").without(&["lives"]),
        flag("lives").without(&["from", "to"]),
        flag("history").without(&["from", "to", "steps", "lives"]),
    ];
    reading(alloc, "picture", Topic::Picture, PICTURE_USAGE, &choices)
}

// The word `litmus` with what may stand after it.
fn litmus_word<'a>(alloc: Global) -> Result<Command<'a>, AllocError>
    ensures { IfOk result (λ c. (app_of c).top.name ≡ codes "litmus") }
{
    let choices = [
        number("limit"),
        number("witness"),
        number("picture").without(&["list", "witness"]),
        flag("list").without(&["witness"]),
        name("observed").without(&["list", "witness", "picture"]),
        number("live").without(&["list", "witness", "picture", "observed"]),
        flag("to-c").without(&["live", "limit", "list", "witness", "picture", "observed"]),
    ];
    reading(alloc, "litmus", Topic::Litmus, LITMUS_USAGE, &choices)
}

// The word `help` with what may stand after it.
fn help_word<'a>(alloc: Global) -> Result<Command<'a>, AllocError>
    ensures { IfOk result (λ c. (app_of c).top.name ≡ codes "help") }
{
    Command::new(alloc, "help")
        .override_help(OVERVIEW)
        .override_usage("radixvm help [TOPIC]")
        .arg(Arg::new(alloc, "TOPIC").value_parser(TOPICS))
}

// The words of the program.
#[derive(Clone, Copy)]
enum Word {
    Run,
    Maps,
    State,
    Html,
    Page,
    Certify,
    Live,
    Import,
    Audit,
    Picture,
    Litmus,
    Help,
}

const WORDS: [Word; 12] = [
    Word::Run,
    Word::Maps,
    Word::State,
    Word::Html,
    Word::Page,
    Word::Certify,
    Word::Live,
    Word::Import,
    Word::Audit,
    Word::Picture,
    Word::Litmus,
    Word::Help,
];

// A word with what may stand after it.
fn command<'a>(alloc: Global, word: Word) -> Result<Command<'a>, AllocError>
    ensures { IfOk result (λ c. (app_of c).top.name ≡ name_of_word word) }
{
    match word {
        Word::Run => run_word(alloc),
        Word::Maps => maps_word(alloc),
        Word::State => state_word(alloc),
        Word::Html => reading(alloc, "html", Topic::Page, HTML_USAGE, &[]),
        // Its older name.
        Word::Page => reading(alloc, "page", Topic::Page, HTML_USAGE, &[]),
        Word::Certify => reading(alloc, "certify", Topic::Notes, CERTIFY_USAGE, &[]),
        Word::Live => live_word(alloc),
        Word::Import => import_word(alloc),
        Word::Audit => audit_word(alloc),
        Word::Picture => picture_word(alloc),
        Word::Litmus => litmus_word(alloc),
        Word::Help => help_word(alloc),
    }
}

/// The program's words in their order, with what may stand after each. `Err` says that memory was wanting.
pub fn grammar<'a>(alloc: Global) -> Result<Command<'a>, AllocError>
    ensures { IfOk result (λ program. subcommand_names program ≡ program_words) }
{
    let mut program = Command::new(alloc, "radixvm")
        .override_help(OVERVIEW)
        .override_usage(USAGE)
        .version(VERSION_TEXT)
        .disable_help_subcommand(true)
        .subcommand_required(true);
    'words: for at in 0..WORDS.len() {
        program = program.subcommand(command(alloc, WORDS[at])?)?;
    }
    Ok(program)
}
