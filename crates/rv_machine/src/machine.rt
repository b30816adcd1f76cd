//! The machine with its environment, and runs of it.
ghost use Rattle.std.specs.Prelude.{◌≡◌, ◌<◌, ◌≤◌, ℕ, Bool, List, Option, None, slice_index, IfOk, IfSome, IfNone};
ghost use Rattle.bb_outside.specs.Causes.{HasCause};
ghost use Rattle.rv_image.specs.Rules.{IsImage};
ghost use Rattle.rv_machine.specs.Environment.{kind_of};
ghost use Rattle.rv_machine.specs.Runs.{stop_at};

use crate::core_step::Core;
use crate::events::{Events, Told};
use crate::frames::{Entry, Frames};
use crate::stop::{Effect, Fault, Halt, Stop};
use bb_outside::{Sink, SinkFailed, Source, SourceFailed};
use bb_watch::event::Event;
use bb_words::kinds::{ReportKind, TrapKind};
use bb_words::word::Word;
use buddy_heap::heap::Heap;
use core::mem::replace_with;
use rv_image::image::Image;
use size_table::calls::{ENTER, EXIT, FREE, GETCHAR, LEAVE, MALLOC, PUTCHAR, REPORT};
use size_table::memory_map::MOST_BYTES;
use size_table::padding::exponent;
use std::alloc::{AllocError, Global};
use std::marker::Model;

/// A machine: its registers, its memory, the calls entered, the blocks of the heap, and how it has ended, if it has.
#[derive(Drop)]
pub struct Machine {
    core: Core,
    frames: Frames,
    heap: Heap,
    ended: Option<Halt>,
}

impl Model for Machine {
    ghost use Rattle.rv_machine.specs.State.{State};

    ghost Value = { State };

    ghost view = { λ m. record { core = m.core; frames = m.frames; heap = m.heap; ending = m.ended } };
}

impl Machine {
    ghost use Rattle.size_table.specs.declared.memory_map.TheConstants.{TABLE_START, MEMORY_END};
    ghost use Rattle.rv_machine.specs.declared.stop.Halt.TheVariants.{Trapped};
    ghost use Rattle.rv_machine.specs.State.{register_of, halted};
    ghost use Rattle.rv_machine.specs.Instruction.{Asks, core_step};
    ghost use Rattle.rv_machine.specs.Environment.{calls, exits, gets, puts, reported, reports, enters, leaves, mallocs, frees, malloc_events, free_events};
    ghost use Rattle.bb_watch.specs.Told.{events_of};
    ghost use Rattle.rv_machine.specs.Tells.{tells_of, call_tells};
    ghost use Rattle.rv_machine.specs.Machine.{step};
    ghost use Rattle.rv_machine.specs.Start.{start};
    ghost use Rattle.rv_machine.specs.Runs.{Answered, Stepped, Advanced, Stops, FaultCause, fault_of, stop_of};

    /// The machine at the start of an image. It takes all memory that the machine ever needs.
    #[tactic(auto, unfolding(crate::specs::Start::start))]
    pub fn new(alloc: Global, image: &Image) -> Result<Machine, AllocError>
        requires { IsImage image.now }
        ensures { IfOk result (λ machine. machine ≡ start image.now) }
    {
        let core = Core::new(alloc, image)?;
        let frames = Frames::new(alloc, &image.frames)?;
        let heap = Heap::new(alloc)?;
        Ok(Machine {
            core,
            frames,
            heap,
            ended: None,
        })
    }

    /// Executes at most n further instructions. A machine that has ended stays as it is. After a fault a further run
    /// does the environment call again that failed.
    pub fn run<I: Source, O: Sink>(&mut self, n: u64, input: &mut I, output: &mut O) -> Stop
        ensures stops { Stops result n
            self.old (record { left = I.left input.old; is_over = I.is_over input.old; written = O.written output.old })
            self.new (record { left = I.left input.new; is_over = I.is_over input.new; written = O.written output.new }) }
        ensures cause { FaultCause (fault_of result) (I.faults input.old) (I.faults input.new) (O.faults output.old) (O.faults output.new) }
    {
        let mut done = 0;
        while done < n {
            if self.ended.is_some() {
                return self.stop();
            }
            let (went, fault) = self.advance(n - done, input, output);
            done += went;
            match fault {
                None => {}
                Some(fault) => return stop_at(fault),
            }
        }
        self.stop()
    }

    /// The program counter.
    pub fn pc(&self) -> u32
        ensures { result ≡ self.now.core.pc }
    {
        self.core.pc()
    }

    /// The content of a register.
    pub fn register(&self, at: u8) -> Word
        requires { at < 32 }
        ensures { result.0 ≡ register_of self.now.core at }
    {
        Word(self.core.register(at))
    }

    /// A byte of the memory.
    pub fn byte(&self, at: u32) -> u8
        requires { at < MEMORY_END }
        ensures { result ≡ slice_index self.now.core.memory at }
    {
        self.core.byte(at)
    }

    /// Executes the next instruction. A machine that has ended stays as it is. At a fault the machine stands as it did, and
    /// a further step does the environment call again that failed.
    ///
    /// `run` is faster. A step is for a runner that also reads what each instruction tells (`events`).
    pub fn step<I: Source, O: Sink>(&mut self, input: &mut I, output: &mut O) -> Option<Fault>
        ensures stepped { Stepped result step
            self.old (record { left = I.left input.old; is_over = I.is_over input.old; written = O.written output.old })
            self.new (record { left = I.left input.new; is_over = I.is_over input.new; written = O.written output.new }) }
        ensures cause { FaultCause result (I.faults input.old) (I.faults input.new) (O.faults output.old) (O.faults output.new) }
    {
        if self.ended.is_some() {
            return None;
        }
        let answer = self.advance(1, input, output);
        answer.1
    }

    /// The events that the next instruction tells, in order, with no memory taken: at most one, or those of the blocks that
    /// an environment call makes or ends. An instruction that may fault tells none.
    pub fn events(&self) -> Events<'_>
        ensures { result ≡ events_of (tells_of self.now) }
    {
        if self.ended.is_some() {
            return Events::none();
        }
        bb_watch::laws::events_happen();
        match self.core.told() {
            Told::Nothing => return Events::none(),
            Told::Happens(event) => return Events::one(event),
            Told::Asks => {}
        }
        self.call_events()
    }

    // The events of the environment call whose number is in x17.
    fn call_events(&self) -> Events<'_>
        ensures { result ≡ events_of (call_tells self.now) }
    {
        bb_watch::laws::events_happen();
        let number = self.core.register(17);
        if number == MALLOC {
            return self.malloc_events();
        }
        if number == FREE {
            return self.free_events();
        }
        if number == ENTER {
            return self.frames.entering(self.core.register(10));
        }
        if number == LEAVE {
            return self.frames.leaving(self.core.register(10));
        }
        Events::none()
    }

    // The event of the block that is made for the size in x10.
    #[tactic(auto, unfolding(crate::specs::Environment::new_block))]
    fn malloc_events(&self) -> Events<'_>
        ensures { result ≡ malloc_events self.now }
    {
        let size = self.core.register(10);
        if size > MOST_BYTES {
            return Events::none();
        }
        let exponent = exponent(size);
        match self.heap.place(exponent) {
            Some(at) => Events::one(Event::Made { at, exponent }),
            None => Events::none(),
        }
    }

    // The event of the block that ends, which begins at x10.
    fn free_events(&self) -> Events<'_>
        ensures { result ≡ free_events self.now }
    {
        let at = self.core.register(10);
        if at == 0 {
            return Events::none();
        }
        match self.heap.exponent_at(at) {
            Some(exponent) => Events::one(Event::Ended { at, exponent }),
            None => Events::none(),
        }
    }

    /// Why a run of no further instruction comes back: `OutOfSteps` where the machine has not ended.
    pub fn stop(&self) -> Stop
        ensures { result ≡ stop_of self.now.ending }
    {
        match self.ended {
            None => Stop::OutOfSteps,
            Some(Halt::Exited(status)) => Stop::Exited(status),
            Some(Halt::Reported { kind, line }) => Stop::Reported { kind, line },
            Some(Halt::Trapped { kind }) => Stop::Trapped { kind },
        }
    }

    // At most n instructions, up to an environment call or a trap: how many, and the fault of the call, if it failed.
    fn advance<I: Source, O: Sink>(
        &mut self,
        n: u64,
        input: &mut I,
        output: &mut O,
    ) -> (u64, Option<Fault>)
        requires running { self.old.ending ≡ None }
        requires some { 0 < n }
        ensures advanced { Advanced result.1 result.0
            self.old (record { left = I.left input.old; is_over = I.is_over input.old; written = O.written output.old })
            self.new (record { left = I.left input.new; is_over = I.is_over input.new; written = O.written output.new }) }
        ensures within { IfNone result.1 (0 < result.0) × (result.0 ≤ n) × IfSome result.1 (λ _. result.0 < n) }
        ensures cause { FaultCause result.1 (I.faults input.old) (I.faults input.new) (O.faults output.old) (O.faults output.new) }
    {
        let pause = replace_with(&mut self.core, n, Core::go);
        match pause.effect {
            Effect::Went => (pause.went, None),
            Effect::Trapped { kind } => {
                self.trap(kind);
                (pause.went + 1, None)
            }
            Effect::Asked => match self.call(input, output) {
                None => (pause.went + 1, None),
                Some(fault) => (pause.went, Some(fault)),
            },
        }
    }

    // The environment call whose number is in x17.
    fn call<I: Source, O: Sink>(&mut self, input: &mut I, output: &mut O) -> Option<Fault>
        requires running { self.old.ending ≡ None }
        requires asks { core_step self.old.core ≡ Asks }
        requires in_text { self.old.core.pc < TABLE_START }
        ensures stepped { Stepped result calls
            self.old (record { left = I.left input.old; is_over = I.is_over input.old; written = O.written output.old })
            self.new (record { left = I.left input.new; is_over = I.is_over input.new; written = O.written output.new }) }
        ensures cause { FaultCause result (I.faults input.old) (I.faults input.new) (O.faults output.old) (O.faults output.new) }
    {
        match self.core.register(17) {
            EXIT => {
                self.exit();
                None
            }
            GETCHAR => match self.getchar(input) {
                Ok(()) => None,
                Err(_) => Some(Fault::Read),
            },
            PUTCHAR => match self.putchar(output) {
                Ok(()) => None,
                Err(_) => Some(Fault::Write),
            },
            MALLOC => {
                self.malloc();
                None
            }
            FREE => {
                self.free();
                None
            }
            REPORT => {
                self.report();
                None
            }
            ENTER => {
                self.enter();
                None
            }
            LEAVE => {
                self.leave();
                None
            }
            _ => {
                self.trap(TrapKind::Call);
                None
            }
        }
    }

    // The instruction could not be executed.
    fn trap(&mut self, kind: TrapKind)
        ensures { self.new ≡ halted (Trapped kind) self.old }
    {
        self.ended = Some(Halt::Trapped { kind });
    }

    // The run ends by a report, with the line in x11.
    fn end_by(&mut self, kind: ReportKind)
        requires { self.old.core.pc < TABLE_START }
        ensures { self.new ≡ reported kind self.old }
    {
        let line = self.core.register(11);
        self.core.pass();
        self.ended = Some(Halt::Reported { kind, line });
    }

    // The program reports a kind by its number in x10.
    fn report(&mut self)
        requires { self.old.core.pc < TABLE_START }
        ensures { self.new ≡ reports self.old }
    {
        match kind_of(self.core.register(10)) {
            Some(kind) => self.end_by(kind),
            None => self.trap(TrapKind::Call),
        }
    }

    // Enters the frame whose number is in x10, and x10 becomes the new stack number.
    fn enter(&mut self)
        requires { self.old.core.pc < TABLE_START }
        ensures { self.new ≡ enters self.old }
    {
        let frame = self.core.register(10);
        match self.frames.enter(&mut self.core, frame) {
            Entry::NoFrame => self.trap(TrapKind::Call),
            Entry::TooDeep => self.end_by(ReportKind::Depth),
            Entry::NoRoom => self.end_by(ReportKind::Stack),
            Entry::Enters(stack) => self.core.give(10, stack),
        }
    }

    // Leaves the frame whose number is in x10, and x10 becomes the stack number that it goes back to.
    fn leave(&mut self)
        requires { self.old.core.pc < TABLE_START }
        ensures { self.new ≡ leaves self.old }
    {
        let frame = self.core.register(10);
        match self.frames.leave(&mut self.core, frame) {
            Some(back) => self.core.give(10, back),
            None => self.trap(TrapKind::Call),
        }
    }

    // Makes a block for a size, which is in x10, and x10 becomes its base, or 0.
    #[tactic(auto, unfolding(crate::specs::Environment::new_block))]
    fn malloc(&mut self)
        requires { self.old.core.pc < TABLE_START }
        ensures { self.new ≡ mallocs self.old }
    {
        let size = self.core.register(10);
        if size > MOST_BYTES {
            self.core.give(10, 0);
            return;
        }
        let e = exponent(size);
        match self.heap.take(e) {
            Some(base) => {
                self.core.make(base, e);
                self.core.give(10, base);
            }
            None => self.core.give(10, 0),
        }
    }

    // Ends the block that begins at x10.
    fn free(&mut self)
        requires { self.old.core.pc < TABLE_START }
        ensures { self.new ≡ frees self.old }
    {
        let at = self.core.register(10);
        if at == 0 {
            self.core.pass();
            return;
        }
        match self.heap.give(at) {
            Ok(e) => {
                self.core.end(at, e);
                self.core.pass();
            }
            Err(_) => self.end_by(ReportKind::BadFree),
        }
    }

    fn exit(&mut self)
        requires { self.old.core.pc < TABLE_START }
        ensures { self.new ≡ exits self.old }
    {
        let status = (self.core.register(10) % 256) as u8;
        self.core.pass();
        self.ended = Some(Halt::Exited(status));
    }

    // x10 becomes the next byte of the input, or all ones at its end.
    fn getchar<I: Source>(&mut self, input: &mut I) -> Result<(), SourceFailed>
        requires { self.old.core.pc < TABLE_START }
        ensures answered { (written : Option (List ℕ)) → Answered result gets
            self.old (record { left = I.left input.old; is_over = I.is_over input.old; written = written })
            self.new (record { left = I.left input.new; is_over = I.is_over input.new; written = written }) }
        ensures cause { HasCause (I.faults input.old) (I.faults input.new) result }
    {
        match input.take() {
            Ok(Some(byte)) => {
                self.core.give(10, u32::from(byte));
                Ok(())
            }
            Ok(None) => {
                self.core.give(10, u32::MAX);
                Ok(())
            }
            Err(failed) => Err(failed),
        }
    }

    // The low byte of x10 is written, and x10 becomes that byte.
    fn putchar<O: Sink>(&mut self, output: &mut O) -> Result<(), SinkFailed>
        requires { self.old.core.pc < TABLE_START }
        ensures answered { (left : Option (List ℕ)) (is_over : Bool) → Answered result puts
            self.old (record { left = left; is_over = is_over; written = O.written output.old })
            self.new (record { left = left; is_over = is_over; written = O.written output.new }) }
        ensures cause { HasCause (O.faults output.old) (O.faults output.new) result }
    {
        let byte = (self.core.register(10) % 256) as u8;
        match output.put(&[byte]) {
            Ok(_) => {
                self.core.give(10, u32::from(byte));
                Ok(())
            }
            Err(failed) => Err(failed),
        }
    }
}

// Why a run comes back at a fault.
fn stop_at(fault: Fault) -> Stop
    ensures { result ≡ stop_at fault }
{
    match fault {
        Fault::Read => Stop::ReadFault,
        Fault::Write => Stop::WriteFault,
    }
}

// The kind of a report by its number.
fn kind_of(number: u32) -> Option<ReportKind>
    ensures { result ≡ kind_of number }
{
    match number {
        1 => Some(ReportKind::Bounds),
        2 => Some(ReportKind::Pointer),
        3 => Some(ReportKind::DivZero),
        4 => Some(ReportKind::BadFree),
        5 => Some(ReportKind::Depth),
        6 => Some(ReportKind::Stack),
        _ => None,
    }
}
