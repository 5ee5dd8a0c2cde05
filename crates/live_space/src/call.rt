//! A call of a core's thread, from its beginning to its answer.
ghost use Rattle.std.specs.Prelude.{◌≡◌, ◌≢◌, ◌+◌, ◌≤◌, ◌⊎◌, [], IfOk, IfErr, OnOk};
ghost use Rattle.vm_base.specs.declared.replies.Reply.TheVariants.{NoMemory};
ghost use Rattle.vm_base.specs.Plain.{mode_of};
ghost use Rattle.slot_lock.specs.Plan.{IsSoundPlan};
ghost use Rattle.frames.specs.Files.{files_of};
ghost use Rattle.vm_calls.specs.Checks.{checked};
ghost use Rattle.seats.specs.Growing.{OneCall};
ghost use Rattle.live_pages.specs.Ending.{Ends};
ghost use Rattle.live_space.specs.Answering.{AnswersFor};
ghost use Rattle.live_space.specs.Calls.{IsIdle, LacksCall, MayBegin};
ghost use Rattle.live_space.specs.Doing.{Did, Done, DoneIf};
ghost use Rattle.live_space.specs.Endings.{HoldsNone, RunsTo};
ghost use Rattle.live_space.specs.Planned.{AnswersDecided, AnswersPlan, RanIn};
ghost use Rattle.live_space.specs.Space.{IsOf};

use crate::ending::{Ending, Ran};
use crate::fault::{LiveFault, reserve_notes};
use crate::gate::{Gate, Point};
use crate::in_call::InCall;
use crate::space::Live;
use live_levels::level::Stepper;
use live_pages::answering::answer;
use live_tree::held::Held;
use seats::Seat;
use slot_lock::Plan;
use std::alloc::Allocator;
use std::sync::Wait;
use vm_base::{Reply, Request};
use vm_calls::check;

impl<A: Allocator + Clone> Live<A> {
    /// One call of the seat's core: it begins, is run to its answer, and each of its steps is noted
    /// while the locks are held of all that the step touches. It may wait for other calls, and where
    /// the gate holds it. Its notes are first its beginning and last its answer, with steps of its own
    /// and takes alone between them; but where the reply is `NoMemory`, and only there, one note says
    /// that it is given up.
    ///
    /// A fault says why it didn't begin, and then nothing was noted. A call that has begun is always
    /// answered: where memory, or room for its notes, runs out before it has told another core
    /// anything, it is given up, and the reply is `NoMemory`; then nothing is changed or held. Else
    /// the reply is the one that its arguments decide, or one of the request's: an mmap answers the
    /// address, or `ENOMEM`; munmap is done; mprotect is done, or refused; a load or a fetch has a
    /// byte, a store is done, and each access may get `SIGSEGV` or `SIGBUS`, or find no frame.
    pub fn call<R: Wait, G: Gate>(
        &self,
        rt: &R,
        seat: &mut Seat<A>,
        request: Request,
        gate: &G,
    ) -> Result<Reply, LiveFault>
        requires { IsOf self.now seat.old }
        ensures own { IsOf self.now seat.new }
        ensures noted { IfOk result (λ reply. OneCall seat.old request reply seat.new) }
        ensures answers { IfOk result (AnswersFor (λ file. mode_of (files_of self.now.files file)) seat.old.core request) }
        ensures did { IfOk result (DoneIf (files_of self.now.files)
            (checked (λ file. mode_of (files_of self.now.files file)) seat.old.core request) seat.new) }
        ensures begun { OnOk result (seat.new.begun ≡ seat.old.begun + 1) }
        ensures may { OnOk result (MayBegin self.now.share seat.old) }
        ensures fault { IfErr result (λ fault. LacksCall self.now.share seat.old fault) }
        ensures idle { IfErr result (λ fault. IsIdle seat.old seat.new) }
    {
        if seat.begun() >= self.share {
            return Err(LiveFault::Calls);
        }
        reserve_notes(seat, 3)?;
        // it touches nothing that another thread changes, and may come before the call begins
        let checked = check(&self.objects, seat.core(), request);
        let _begun = seat.begin(request);
        let reply = self.run(rt, seat, checked, gate);
        gate.at(rt, seat.core(), Point::Answer);
        Ok(reply)
    }

    // All of the call but its beginning, by what came of the check of its arguments.
    fn run<R: Wait, G: Gate>(
        &self,
        rt: &R,
        seat: &mut Seat<A>,
        checked: Result<Plan, Reply>,
        gate: &G,
    ) -> Reply
        requires room { 2 ≤ seat.old.room }
        requires sound { IfOk checked (λ plan. IsSoundPlan plan) }
        requires never { IfErr checked (λ reply. reply ≢ NoMemory) }
        ensures ended { Ends seat.old result seat.new }
        ensures answers { (result ≡ NoMemory) ⊎ AnswersDecided checked result }
        ensures did { DoneIf (files_of self.now.files) checked seat.new result }
    {
        match checked {
            Ok(plan) => self.go_on(rt, seat, plan, gate),
            Err(reply) => {
                let _checked = seat.step();
                gate.at(rt, seat.core(), Point::Begun);
                answer(seat, reply);
                reply
            }
        }
    }

    // The steps of a plan, whose arguments the check let through.
    fn go_on<R: Wait, G: Gate>(&self, rt: &R, seat: &mut Seat<A>, plan: Plan, gate: &G) -> Reply
        requires sound { IsSoundPlan plan }
        requires room { 2 ≤ seat.old.room }
        ensures ended { Ends seat.old result seat.new }
        ensures answers { (result ≡ NoMemory) ⊎ AnswersPlan plan result }
        ensures did { (result ≡ NoMemory) ⊎ Done (files_of self.now.files) plan seat.new result }
    {
        let mut call = InCall {
            seat,
            held: Held::new(self.tree.alloc(), 0),
            space: self,
            rt,
            gate,
        };
        let ran = call.run(plan);
        let InCall {
            seat,
            held,
            space: _,
            rt: _,
            gate: _,
        } = call;
        match ran {
            Ran::Answered(reply) => {
                held.finish();
                reply
            }
            Ran::Open(ending) => self.end(rt, seat, held, ending),
        }
    }
}

impl<'c, R: Wait, G: Gate, A: Allocator + Clone> InCall<'c, '_, '_, '_, R, G, A> {
    // The step of the check, and what follows.
    fn run(&mut self, plan: Plan) -> Ran
        requires sound { IsSoundPlan plan }
        requires none { self.old.held.slots ≡ [] }
        ensures runs { RunsTo self.old.seat result self.new.seat }
        ensures none { HoldsNone result self.new.held }
        ensures answers { RanIn (AnswersPlan plan) result }
        ensures did { Did (files_of self.old.space.now.files) plan result self.new.seat.now self.new.held }
    {
        if !self.step() {
            return Ran::Open(Ending::GiveUp);
        }
        self.at(Point::Begun);
        match plan {
            Plan::Change(change) => Ran::Open(self.change(change)),
            Plan::Place(place) => Ran::Open(self.place(place)),
            Plan::Touch(touch) => self.touch(touch),
        }
    }
}
