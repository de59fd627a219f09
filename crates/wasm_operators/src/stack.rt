ghost use Rattle.std.specs.Prelude.{◌≡◌, ◌↔◌, ◌+◌, ◌≤◌, ◌<◌, [], ◌∷◌, ◌++◌, length, IsTrue, IsSome, IsOk, OnOk, OnErr, IfOk, IfErr, max};
ghost use Rattle.wasm_grammar.specs.Frames.{frames_changed, innermost, opened, OpensFrame, without_innermost};
ghost use Rattle.wasm_imm.specs.OutOfMemory.{IsOutOfMemoryAt};
ghost use Rattle.wasm_operators.specs.Stack.{HasRoom, GrowsByDoubling, GrowsIfFull, IsSameMemory, frame_memory};

use crate::reserve::reserve_exact;
use std::alloc::Global;
use std::marker::Model;
use std::mem::replace;
use wasm_below::{Error, Message, Result};
use wasm_grammar::{FrameChange, FrameKind};

const LEAST: usize = 8;

/// The kinds of the open frames. The innermost is apart from the vector, so the first frame needs
/// no capacity.
#[derive(Debug, Drop)]
pub struct ControlStack {
    around: Vec<FrameKind>,
    current: Option<FrameKind>,
}

impl Model for ControlStack {
    ghost use Rattle.std.specs.Prelude.{◌≡◌, ◌-◌, [], ◌++◌, length, MatchOption, ⊤};
    ghost use Rattle.std.specs.Option.{option_to_list};
    ghost use Rattle.std.specs.Vec.{vec_capacity};
    ghost use Rattle.wasm_operators.specs.Stack.{OpenFrames};

    ghost Value = { OpenFrames };

    ghost view = { λ s. record { frames = s.around.items ++ option_to_list s.current; room = vec_capacity s.around - length s.around.items } };

    ghost invariant = { λ s. MatchOption s.current (s.around.items ≡ []) (λ _. ⊤) };
}

impl ControlStack {
    pub fn new(alloc: Global) -> ControlStack
        ensures frames { result.frames ≡ [] }
        ensures room { result.room ≡ 0 }
    {
        ControlStack {
            around: Vec::new(alloc),
            current: None,
        }
    }

    /// Creates a stack with one frame, which needs no capacity.
    pub fn with_frame(alloc: Global, frame: FrameKind) -> ControlStack
        ensures frames { result.frames ≡ frame ∷ [] }
        ensures room { result.room ≡ 0 }
    {
        ControlStack {
            around: Vec::new(alloc),
            current: Some(frame),
        }
    }

    /// Creates a stack with one frame and the capacity of the allocations.
    pub fn with_allocations(
        allocations: OperatorsReaderAllocations,
        frame: FrameKind,
    ) -> ControlStack
        ensures frames { result.frames ≡ frame ∷ [] }
        ensures room { result.room ≡ allocations }
    {
        let OperatorsReaderAllocations { frames } = allocations;
        ControlStack {
            around: frames,
            current: Some(frame),
        }
    }

    /// Returns the memory of the frames and of the capacity that is left.
    pub fn into_allocations(self) -> OperatorsReaderAllocations
        ensures { result ≡ frame_memory self.frames self.room }
    {
        let ControlStack { mut around, .. } = self;
        around.clear();
        OperatorsReaderAllocations { frames: around }
    }

    /// Closes all frames and keeps the capacity.
    pub fn clear(&mut self)
        ensures frames { self.new.frames ≡ [] }
        ensures room { self.old.room ≤ self.new.room }
        ensures memory { IsSameMemory self.old self.new }
    {
        self.around.clear();
        self.current = None;
    }

    #[inline(always)]
    pub fn is_empty(&self) -> bool
        ensures { IsTrue result ↔ (self.now.frames ≡ []) }
    {
        self.current.is_none()
    }

    #[inline(always)]
    pub fn last(&self) -> Option<FrameKind>
        ensures { result ≡ innermost self.now.frames }
    {
        self.current
    }

    /// Reserves capacity for at least `frames` more frames. If it allocates, then for at least as
    /// many more as the stack holds; `GrowsByDoubling` is the upper bound. Fails with `OutOfMemory`
    /// at offset 0.
    #[inline(always)]
    pub fn reserve(&mut self, frames: usize) -> Result<()>
        ensures frames { self.new.frames ≡ self.old.frames }
        ensures room { OnOk result (frames ≤ self.new.room) }
        ensures kept { self.old.room ≤ self.new.room }
        ensures enough { frames ≤ self.old.room → IsOk result }
        ensures memory { GrowsByDoubling frames self.old self.new }
        ensures grows { GrowsIfFull frames self.old self.new }
        ensures refused { IfErr result (λ e. IsOutOfMemoryAt 0 e × (self.new ≡ self.old)) }
    {
        if frames <= self.around.capacity() - self.around.len() {
            return Ok(());
        }
        self.grow(frames)
    }

    /// Allocates for the greatest of `frames`, the vector's length and `LEAST` more frames. Only a
    /// variable into which the vector is moved is borrowed, so that a stack stays in registers.
    #[inline(always)]
    fn grow(&mut self, frames: usize) -> Result<()>
        requires { self.old.room < frames }
        ensures frames { self.new.frames ≡ self.old.frames }
        ensures room { OnOk result (frames ≤ self.new.room) }
        ensures kept { self.old.room ≤ self.new.room }
        ensures memory { GrowsByDoubling frames self.old self.new }
        ensures grows { GrowsIfFull frames self.old self.new }
        ensures refused { IfErr result (λ e. IsOutOfMemoryAt 0 e × (self.new ≡ self.old)) }
    {
        let more = frames.max(self.around.len()).max(LEAST);
        let alloc = *self.around.allocator();
        let mut around = replace(&mut self.around, Vec::new(alloc));
        let grown = reserve_exact(&mut around, more);
        self.around = around;
        if grown.is_err() {
            return Err(Error::new(Message::OutOfMemory, 0));
        }
        Ok(())
    }

    /// Opens a frame inside others. Can fail with `OutOfMemory` at offset 0, unless the stack is
    /// empty or has capacity.
    pub fn push(&mut self, frame: FrameKind) -> Result<()>
        ensures frames { OnOk result (self.new.frames ≡ self.old.frames ++ frame ∷ []) }
        ensures room { self.old.room ≤ self.new.room + 1 }
        ensures kept { frame_memory self.old.frames self.old.room ≤ frame_memory self.new.frames self.new.room }
        ensures enough { HasRoom self.old → IsOk result }
        ensures memory { GrowsByDoubling 1 self.old self.new }
        ensures grows { GrowsIfFull 1 self.old self.new }
        ensures refused { IfErr result (λ e. IsOutOfMemoryAt 0 e × (self.new ≡ self.old)) }
    {
        if self.current.is_some() && self.reserve(1).is_err() {
            return Err(Error::new(Message::OutOfMemory, 0));
        }
        self.open(frame);
        Ok(())
    }

    /// Opens a frame as `push` does, with reserved capacity.
    #[inline(always)]
    pub fn open(&mut self, frame: FrameKind)
        requires { HasRoom self.old }
        ensures frames { self.new.frames ≡ self.old.frames ++ frame ∷ [] }
        ensures room { self.old.room ≤ self.new.room + 1 }
        ensures memory { IsSameMemory self.old self.new }
    {
        if let Some(outer) = self.current {
            self.around.push_reserved(outer);
        }
        self.current = Some(frame);
    }

    #[inline(always)]
    pub fn turn(&mut self, frame: FrameKind)
        requires { IsSome (innermost self.old.frames) }
        ensures frames { self.new.frames ≡ without_innermost self.old.frames ++ frame ∷ [] }
        ensures room { self.new.room ≡ self.old.room }
        ensures memory { IsSameMemory self.old self.new }
    {
        self.current = Some(frame);
    }

    #[inline(always)]
    pub fn pop(&mut self) -> Option<FrameKind>
        ensures frame { result ≡ innermost self.old.frames }
        ensures frames { self.new.frames ≡ without_innermost self.old.frames }
        ensures room { self.old.room ≤ self.new.room }
        ensures memory { IsSameMemory self.old self.new }
    {
        let frame = self.current;
        self.current = self.around.pop();
        frame
    }

    /// Changes the frames, of which one must be open. Opening a frame needs reserved capacity.
    #[inline(always)]
    pub fn apply_change(&mut self, change: FrameChange)
        requires open { IsSome (innermost self.old.frames) }
        requires room { OpensFrame change → HasRoom self.old }
        ensures frames { self.new.frames ≡ frames_changed self.old.frames change }
        ensures room { self.old.room ≤ self.new.room + opened change }
        ensures memory { IsSameMemory self.old self.new }
    {
        match change {
            FrameChange::Stays => {}
            // a frequent kind is a constant here: in a register it costs a jump
            FrameChange::Opens(FrameKind::Block) => self.open(FrameKind::Block),
            FrameChange::Opens(FrameKind::Loop) => self.open(FrameKind::Loop),
            FrameChange::Opens(FrameKind::If) => self.open(FrameKind::If),
            FrameChange::Opens(frame) => self.open(frame),
            FrameChange::Turns(FrameKind::Else) => self.turn(FrameKind::Else),
            FrameChange::Turns(frame) => self.turn(frame),
            FrameChange::Closes => self.current = self.around.pop(),
        }
    }

    /// Clones the frames, with no capacity for more. Fails with `OutOfMemory` at offset 0, and only
    /// if more than one frame is open.
    pub fn clone(&self) -> Result<ControlStack>
        ensures frames { IfOk result (λ copy. copy.frames ≡ self.now.frames) }
        ensures room { IfOk result (λ copy. copy.room ≡ 0) }
        ensures refused { IfErr result (λ e. IsOutOfMemoryAt 0 e × (1 < length self.now.frames)) }
    {
        let alloc = *self.around.allocator();
        let mut around = match Vec::with_capacity(alloc, self.around.len()) {
            Ok(around) => around,
            Err(_) => return Err(Error::new(Message::OutOfMemory, 0)),
        };
        for frame in self.around.as_slice() {
            around.push_reserved(*frame);
        }
        Ok(ControlStack {
            around,
            current: self.current,
        })
    }
}

/// The memory of a reader's frames, for reuse. Contracts see its capacity in frames.
#[derive(Debug, Drop)]
pub struct OperatorsReaderAllocations {
    frames: Vec<FrameKind>,
}

impl Model for OperatorsReaderAllocations {
    ghost use Rattle.std.specs.Prelude.{◌≡◌, ℕ, []};
    ghost use Rattle.std.specs.Vec.{vec_capacity};

    ghost Value = { ℕ };

    ghost view = { λ a. vec_capacity a.frames };

    ghost invariant = { λ a. a.frames.items ≡ [] };
}

impl OperatorsReaderAllocations {
    pub fn new(alloc: Global) -> OperatorsReaderAllocations
        ensures { result ≡ 0 }
    {
        OperatorsReaderAllocations {
            frames: Vec::new(alloc),
        }
    }

    /// Raises the capacity to `frames`, unless it is greater already. Fails with `OutOfMemory` at
    /// offset 0.
    pub fn reserve(&mut self, frames: usize) -> Result<()>
        ensures room { OnOk result (frames ≤ self.new) }
        ensures kept { self.old ≤ self.new }
        ensures enough { frames ≤ self.old → IsOk result }
        ensures most { self.new ≤ max self.old frames }
        ensures refused { IfErr result (λ e. IsOutOfMemoryAt 0 e × (self.new ≡ self.old)) }
    {
        if self.frames.reserve_exact(frames).is_err() {
            return Err(Error::new(Message::OutOfMemory, 0));
        }
        Ok(())
    }
}
