//! How scripts are run: on threads, or one core after another.
ghost use Rattle.std.specs.Prelude.{IfErr, IfOk};
ghost use Rattle.std.specs.Thread.{IsSync};
ghost use Rattle.live_script.specs.Runs.{Fails, RunsAll};

use crate::fault::ScriptFault;
use crate::ran::RunSpace;
use crate::running::{run_in_turn, run_script};
use std::alloc::{Allocator, Global};
use std::sync::Wait;
use std::thread::Threads;
use trace_words::Script;

/// How scripts are run.
pub trait Runner<A: Allocator + Clone> {
    /// Makes the space that the script declares, and does each core's tasks in their order, with what the runtime has. A core
    /// stops at its first task that can't begin; of several such faults the least core's is reported.
    fn run<R: Threads + Wait + Sync>(
        &self,
        rt: &R,
        alloc: A,
        script: &Script<A>,
    ) -> Result<RunSpace<A>, ScriptFault>
        requires { IsSync R.row }
        ensures ran { IfOk result (λ ran. RunsAll script.now ran.live ran.seats) }
        ensures fault { IfErr result (λ fault. Fails script.now fault) };
}

/// Each core's tasks on a thread of its own, or one core after another where no thread can be made.
#[derive(Clone, Copy)]
pub struct OnThreads;

impl Runner<Global> for OnThreads {
    fn run<R: Threads + Wait + Sync>(
        &self,
        rt: &R,
        alloc: Global,
        script: &Script<Global>,
    ) -> Result<RunSpace<Global>, ScriptFault> {
        run_script(rt, alloc, script)
    }
}

/// One core after another, over any allocator.
#[derive(Clone, Copy)]
pub struct InTurn;

impl<A: Allocator + Clone> Runner<A> for InTurn {
    fn run<R: Threads + Wait + Sync>(
        &self,
        rt: &R,
        alloc: A,
        script: &Script<A>,
    ) -> Result<RunSpace<A>, ScriptFault> {
        run_in_turn(rt, alloc, script)
    }
}
