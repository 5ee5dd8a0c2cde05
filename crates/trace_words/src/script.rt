//! Scripts: what each core of a space is to do, as text.
ghost use Rattle.std.specs.Prelude.{◌≡◌, Err, None, Some, IfErr, IfOk, IsSomeAnd, false, map};
ghost use Rattle.trace_io.specs.Source.{HasStopped, Reads};
ghost use Rattle.trace_text.specs.Words.{words_of};
ghost use Rattle.trace_words.specs.Declarations.{asked_fault};
ghost use Rattle.trace_words.specs.declared.fault.TraceFault.TheVariants.{ReadFailed};
ghost use Rattle.trace_words.specs.Scripts.{NamesTask, ReadsScript, all_tasks, given_to, script_line_of, task_done, task_said, tasks_of};

use crate::collecting::collect;
use crate::collector::{Collector, LineOf};
use crate::declaration::Declaration;
use crate::fault::TraceFault;
use std::alloc::Allocator;
use std::marker::Model;
use trace_io::source::Source;
use trace_text::{Action, Line, read_words};
use vm_base::{CoreId, NoMemory, Request};

/// What a core is to do.
#[derive(Clone, Copy, Debug)]
pub enum Task {
    /// `cC! REQ`: it makes this call.
    Call(Request),
    /// `cC flush`: it flushes one of its counts.
    Flush,
    /// `cC review`: it reviews the object at the front of its queue.
    Review,
}

/// A line of a script: this core is to do this.
#[derive(Clone, Copy)]
pub struct ScriptLine {
    pub core: CoreId,
    pub task: Task,
}

// The task of an action.
fn task_done(action: Action) -> Option<Task>
    ensures { result ≡ task_done action }
{
    match action {
        Action::Flush => Some(Task::Flush),
        Action::Review => Some(Task::Review),
        Action::Call(_)
        | Action::Go
        | Action::Take
        | Action::GiveUp
        | Action::Frame(_)
        | Action::Guess(_)
        | Action::Whole
        | Action::Walk(_)
        | Action::Evict(_) => None,
    }
}

// The task of a core of the space.
fn given_to(cores: u64, core: CoreId, task: Option<Task>) -> Option<ScriptLine>
    ensures { result ≡ given_to cores core task }
{
    let task = task?;
    if u64::from(core.index()) < cores {
        return Some(ScriptLine { core, task });
    }
    None
}

// The task that the line gives to a core of the space.
fn task_said(cores: u64, line: Line) -> Option<ScriptLine>
    ensures { result ≡ task_said cores line }
{
    match line {
        Line::Now(core, request) => given_to(cores, core, Some(Task::Call(request))),
        Line::Act(core, action) => given_to(cores, core, task_done(action)),
        Line::Blank | Line::Space { .. } | Line::File { .. } | Line::Fold(_) | Line::Finish(_) =>
            None,
    }
}

#[tactic(auto, unfolding(crate::specs::Scripts::script_line_of))]
fn read_task(cores: u64, words: &[u8]) -> Option<ScriptLine>
    ensures { result ≡ script_line_of cores (words_of words.now) }
{
    let line = read_words(words)?;
    task_said(cores, line)
}

impl LineOf<ScriptLine> for ScriptLine {
    ghost needs_calls = { false };

    ghost names = { λ cores line words. NamesTask cores line words };

    fn needs_calls() -> bool {
        false
    }

    #[tactic(auto, using(crate::proofs::ScriptLemmas::names_some, crate::proofs::ScriptLemmas::names_none))]
    fn read(cores: u64, line: &[u8]) -> Option<ScriptLine> {
        let said = read_task(cores, line);
        said
    }
}

// What one core is to do.
fn tasks_of<A: Allocator>(
    alloc: A,
    core: u64,
    lines: &[ScriptLine],
) -> Result<Vec<Task, A>, NoMemory>
    ensures { IfOk result (λ tasks. tasks.items ≡ tasks_of core lines.now) }
{
    let mut tasks = Vec::new(alloc);
    'lines: for at in 0..lines.len() {
        let line = lines[at];
        if u64::from(line.core.index()) == core {
            let Ok(()) = tasks.push(line.task) else {
                return Err(NoMemory);
            };
        }
    }
    Ok(tasks)
}

// What each core is to do.
fn all_tasks<A: Allocator + Clone>(
    alloc: A,
    cores: u64,
    lines: &[ScriptLine],
) -> Result<Vec<Vec<Task, A>, A>, NoMemory>
    ensures { IfOk result (λ all. map (λ tasks. tasks.items) all.items ≡ all_tasks cores lines.now) }
{
    let Ok(for_all) = alloc.clone() else {
        return Err(NoMemory);
    };
    let mut all = Vec::new(for_all);
    'cores: for core in 0..cores {
        let Ok(for_core) = alloc.clone() else {
            return Err(NoMemory);
        };
        let tasks = tasks_of(for_core, core, lines)?;
        let Ok(()) = all.push(tasks) else {
            return Err(NoMemory);
        };
    }
    Ok(all)
}

/// What a script says: a declaration that a space can be made of, and what each core is to do.
#[derive(Drop)]
pub struct Script<A: Allocator> {
    alloc: A,
    declaration: Declaration,
    tasks: Vec<Vec<Task, A>, A>,
}

impl<A: Allocator> Model for Script<A> {
    ghost use Rattle.std.specs.Prelude.{map};
    ghost use Rattle.trace_words.specs.Scripts.{Scripted};

    ghost Value = { Scripted };

    ghost view = { λ s. record { asked = s.declaration; tasks = map (λ tasks. tasks.items) s.tasks.items } };
}

impl<A: Allocator> Script<A> {
    ghost use Rattle.std.specs.Prelude.{◌≡◌, [], get_or};

    /// What is declared.
    pub fn declaration(&self) -> &Declaration
        ensures { result.now ≡ self.now.asked }
    {
        &self.declaration
    }

    /// What the core with this number is to do, in order of its lines; nothing where no such core is asked for.
    pub fn tasks(&self, core: usize) -> &[Task]
        ensures { result.now ≡ get_or self.now.tasks core [] }
    {
        match self.tasks.get(core) {
            Some(tasks) => tasks.as_slice(),
            None => &[],
        }
    }

    /// The allocator from which the script took its memory.
    pub fn allocator(&self) -> &A {
        &self.alloc
    }
}

// The script of what was collected.
fn script_of<A: Allocator + Clone + Drop>(
    alloc: A,
    collected: Collector<ScriptLine, Vec<ScriptLine, A>>,
) -> Result<Script<A>, TraceFault>
    requires { IsSomeAnd collected.asked (λ asked. asked_fault asked ≡ None) }
    ensures ok { IfOk result (λ script. (collected.asked ≡ Some script.asked)
        × (script.tasks ≡ all_tasks script.asked.cores collected.items)) }
    ensures sound { IfOk result (λ script. asked_fault script.asked ≡ None) }
    ensures err { IfErr result (λ f. f ≡ TraceFault.NoMemory) }
{
    let (declared, lines) = collected.into_parts();
    // (there is a declaration)
    let Some(declaration) = declared else {
        return Err(TraceFault::NoMemory);
    };
    let Ok(for_tasks) = alloc.clone() else {
        return Err(TraceFault::NoMemory);
    };
    let Ok(tasks) = all_tasks(for_tasks, declaration.cores(), lines.as_slice()) else {
        return Err(TraceFault::NoMemory);
    };
    Ok(Script {
        alloc,
        declaration,
        tasks,
    })
}

/// Reads a script: the `vm` line, where CALLS may be left out, the `file` lines, and the lines `cC! REQ`, `cC flush` and
/// `cC review` of the space's cores. It is read whole before anything is done. The first fault is told: a line is none of these,
/// no space can be made of the declaration, a read failed, or memory was refused, also for the lists once all lines were read.
pub fn read_script<A: Allocator + Clone + Drop, S: Source>(
    alloc: A,
    reader: &mut S,
) -> Result<Script<A>, TraceFault>
    ensures reads { Reads (S.stream reader.old) (S.stream reader.new) (λ input unread. ReadsScript input unread result) }
    ensures sound { IfOk result (λ script. asked_fault script.asked ≡ None) }
    ensures read { result ≡ Err ReadFailed → HasStopped (S.failed reader.new) (S.reads reader.new) }
{
    let Ok(for_lines) = alloc.clone() else {
        return Err(TraceFault::NoMemory);
    };
    let Ok(for_text) = alloc.clone() else {
        return Err(TraceFault::NoMemory);
    };
    let lines: Vec<ScriptLine, A> = Vec::new(for_lines);
    let collected = match collect::<ScriptLine, ScriptLine, Vec<ScriptLine, A>, A, S>(
        for_text, lines, reader,
    ) {
        Ok(collected) => collected,
        Err(fault) => return Err(fault),
    };
    let script = script_of(alloc, collected);
    script
}
