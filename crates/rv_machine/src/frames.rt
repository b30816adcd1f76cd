//! The frames of an image, and the calls that were entered.
ghost use Rattle.std.specs.Prelude.{◌≡◌, ◌+◌, ◌<◌, ◌≤◌, ◌++◌, ◌∷◌, []};
ghost use Rattle.std.specs.Prelude.{length, vec_len, vec_capacity, slice_get, IfOk, IfNone, Some};
ghost use Rattle.rv_image.specs.Rules.{IsImage, total_size, Decline, AreFrames};
ghost use Rattle.size_table.specs.Made.{AreExponents};
ghost use Rattle.rv_machine.specs.Frames.{stack_under};

use crate::blocks::{end_all, make_all, total_size};
use crate::core_step::Core;
use crate::events::Events;
use bb_words::list::List;
use size_table::memory_map::{HEAP_START, MOST_CALLS, STACK_START};
use std::alloc::{AllocError, Global};
use std::marker::Model;

/// A call that was entered: the number of its frame, and the stack number that it goes back to.
#[derive(Clone, Copy)]
pub struct Entered {
    pub frame: u32,
    pub back: u32,
}

/// What comes of entering a frame.
#[derive(Clone, Copy)]
pub enum Entry {
    /// There is no such frame.
    NoFrame,
    /// As many calls are live as may be.
    TooDeep,
    /// The frame does not fit on the data stack.
    NoRoom,
    /// It was entered, under this stack number.
    Enters(u32),
}

/// The frames of an image, the calls entered, the last one last, and the stack number.
#[derive(Drop)]
pub struct Frames {
    layouts: List<List<u8>>,
    entered: Vec<Entered>,
    stack: u32,
}

impl Model for Frames {
    ghost use Rattle.std.specs.Prelude.{◌≤◌, vec_capacity};
    ghost use Rattle.rv_image.specs.Rules.{AreFrames};
    ghost use Rattle.rv_machine.specs.Frames.{AreCalls};
    ghost use Rattle.rv_machine.specs.State.{Frames as FramesState};

    ghost Value = { FramesState };

    ghost view = { λ f. record { layouts = f.layouts; entered = f.entered.items; stack = f.stack } };

    ghost invariant = { λ f. AreFrames f.layouts × (4096 ≤ vec_capacity f.entered) × AreCalls f.layouts 16777216 f.entered.items f.stack };
}

// Room is there for a call more.
fn push(entered: &mut Vec<Entered>, call: Entered)
    requires { (vec_len entered.old < 4096) × (4096 ≤ vec_capacity entered.old) }
    ensures items { entered.new.items ≡ entered.old.items ++ call ∷ [] }
    ensures capacity { 4096 ≤ vec_capacity entered.new }
{
    match entered.push(call) {
        Ok(()) => {}
        Err(_) => unreachable!(),
    }
}

// The stack number under which a frame is entered, or less than any where it does not fit.
fn stack_under(stack: u32, exponents: &[u8]) -> u32
    requires exponents { AreExponents exponents.now }
    requires fits { total_size exponents.now ≤ 4194304 }
    ensures value { result ≡ stack_under stack exponents.now }
    ensures room { 0 < result → result + total_size exponents.now ≤ stack }
{
    let most = stack.saturating_sub(total_size(exponents));
    let alignment = 1u32
        << (if let [first, ..] = exponents {
            *first
        } else {
            4
        });
    most / alignment * alignment
}

// The exponents of a frame.
fn layout(layouts: &List<List<u8>>, at: usize) -> &[u8]
    requires within { at < length layouts.now }
    requires fit { AreFrames layouts.now }
    ensures value { slice_get layouts.now at ≡ Some result.now }
    ensures exponents { AreExponents result.now }
    ensures declines { Decline 20 result.now }
    ensures fits { total_size result.now ≤ 4194304 }
{
    layout_at(layouts, at)
}

fn layout_at(layouts: &List<List<u8>>, at: usize) -> &[u8]
    requires within { at < length layouts.now }
    ensures value { slice_get layouts.now at ≡ Some result.now }
{
    layouts.as_slice()[at].as_slice()
}

// A copy of the frames of an image.
fn copied(alloc: Global, layouts: &List<List<u8>>) -> Result<List<List<u8>>, AllocError>
    ensures { IfOk result (λ copy. copy ≡ layouts.now) }
{
    let mut copy = List::new(alloc);
    for layout in layouts.as_slice() {
        let exponents = Vec::from_slice(alloc, layout.as_slice())?;
        copy.push(List::from_vec(exponents))?;
    }
    Ok(copy)
}

impl Frames {
    ghost use Rattle.rv_machine.specs.State.{with_memory};
    ghost use Rattle.std.specs.Prelude.{ℕ, List, map};
    ghost use Rattle.rv_machine.specs.Environment.{made_event, ended_event};
    ghost use Rattle.rv_machine.specs.Frames.{enter, leave, last_entered, KeepsUnlessEntered};
    ghost use Rattle.rv_machine.specs.Start.{start_frames};

    /// No call is entered. It takes the memory for all calls that ever may be.
    pub fn new(alloc: Global, layouts: &List<List<u8>>) -> Result<Frames, AllocError>
        requires { AreFrames layouts.now }
        ensures { IfOk result (λ frames. frames ≡ start_frames layouts.now) }
    {
        let layouts = copied(alloc, layouts)?;
        let entered = Vec::with_capacity(alloc, MOST_CALLS)?;
        Ok(Frames {
            layouts,
            entered,
            stack: HEAP_START,
        })
    }

    /// What entering frame k tells: the blocks that it makes, in order.
    #[tactic(auto, unfolding(crate::specs::Frames::enter))]
    pub fn entering(&self, k: u32) -> Events<'_>
        ensures { (memory : List ℕ) → result ≡ map made_event (enter (slice_get self.now.layouts k) k self.now memory).blocks }
    {
        let at = k as usize;
        if at >= self.layouts.len() {
            return Events::none();
        }
        if self.entered.len() >= MOST_CALLS {
            return Events::none();
        }
        let exponents = layout(&self.layouts, at);
        let stack = stack_under(self.stack, exponents);
        if stack < STACK_START {
            return Events::none();
        }
        Events::blocks(false, stack, exponents)
    }

    /// What leaving frame k tells: the blocks that end, the last one first.
    #[tactic(auto, unfolding(crate::specs::Frames::leave))]
    pub fn leaving(&self, k: u32) -> Events<'_>
        ensures { (memory : List ℕ) → result ≡ map ended_event (leave (last_entered self.now) (slice_get self.now.layouts k) k self.now memory).blocks }
    {
        let count = self.entered.len();
        if count == 0 {
            return Events::none();
        }
        let call = self.entered[count - 1];
        let at = k as usize;
        if call.frame != k || at >= self.layouts.len() {
            return Events::none();
        }
        let exponents = layout(&self.layouts, at);
        Events::blocks(true, self.stack + total_size(exponents), exponents)
    }

    /// Enters frame k: makes its blocks.
    #[tactic(auto, unfolding(crate::specs::Frames::enter))]
    pub fn enter(&mut self, core: &mut Core, k: u32) -> Entry
        ensures answer { result ≡ (enter (slice_get self.old.layouts k) k self.old core.old.memory).answer }
        ensures frames { self.new ≡ (enter (slice_get self.old.layouts k) k self.old core.old.memory).frames }
        ensures core { core.new ≡ with_memory (enter (slice_get self.old.layouts k) k self.old core.old.memory).memory core.old }
        ensures kept { KeepsUnlessEntered result self.old self.new core.old core.new }
    {
        let at = k as usize;
        if at >= self.layouts.len() {
            return Entry::NoFrame;
        }
        if self.entered.len() >= MOST_CALLS {
            return Entry::TooDeep;
        }
        let exponents = layout(&self.layouts, at);
        let stack = stack_under(self.stack, exponents);
        if stack < STACK_START {
            return Entry::NoRoom;
        }
        make_all(core, stack, exponents);
        let call = Entered {
            frame: k,
            back: self.stack,
        };
        push(&mut self.entered, call);
        self.stack = stack;
        Entry::Enters(stack)
    }

    /// Leaves frame k, if the last call is of it: ends its blocks. The answer is the stack number that it goes back to.
    #[tactic(auto, unfolding(crate::specs::Frames::leave))]
    pub fn leave(&mut self, core: &mut Core, k: u32) -> Option<u32>
        ensures answer { result ≡ (leave (last_entered self.old) (slice_get self.old.layouts k) k self.old core.old.memory).answer }
        ensures frames { self.new ≡ (leave (last_entered self.old) (slice_get self.old.layouts k) k self.old core.old.memory).frames }
        ensures core { core.new ≡ with_memory (leave (last_entered self.old) (slice_get self.old.layouts k) k self.old core.old.memory).memory core.old }
        ensures kept { IfNone result ((self.new ≡ self.old) × (core.new ≡ core.old)) }
    {
        let count = self.entered.len();
        if count == 0 {
            return None;
        }
        let call = self.entered[count - 1];
        let at = k as usize;
        if call.frame != k || at >= self.layouts.len() {
            return None;
        }
        end_all(core, self.stack, layout(&self.layouts, at));
        self.entered.truncate(count - 1);
        self.stack = call.back;
        Some(call.back)
    }
}
