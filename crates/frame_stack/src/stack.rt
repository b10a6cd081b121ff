// The stack.
ghost use Rattle.std.specs.Prelude.{◌≡◌, ◌-◌, ◌<◌, ◌++◌, ◌∷◌, [], length, slice_get, IfNone, MatchOption, OnOk};
ghost use Rattle.reaction_queue.specs.ElementQueues.{is_empty};
ghost use Rattle.ce_frames.specs.Places.{Stands};
ghost use Rattle.frame_stack.specs.Frames.{is_waiting, waiting_of};
ghost use Rattle.frame_stack.specs.Stacked.{HasBody, at_home, behaviours_of, frames_of};

use crate::chain::Chain;
use crate::frame::Frame;
use crate::waiting::Waiting;
use behaviours::Homes;
use ce_base::NoMemory;
use std::alloc::Global;
use std::marker::Model;

/// The frames of the machine, and the behaviours of the classes. The behaviour of each class is in one place: in
/// the topmost frame of its bodies, or at home where it has none. Where the frames of a class lie is one chain,
/// so the topmost is found at once, however many others lie above it.
#[derive(Drop)]
pub struct Stack {
    pub(crate) homes: Homes,
    pub(crate) chains: Vec<Chain>,
    pub(crate) frames: Vec<Frame>,
}

impl Model for Stack {
    ghost use Rattle.std.specs.Coded.{codes};
    ghost use Rattle.rule_lines.specs.ActCode.{act_code};
    ghost use Rattle.frame_stack.specs.Order.{AreInOrder};
    ghost use Rattle.frame_stack.specs.Stacked.{Stacked};

    ghost Value = { Stacked };

    ghost coded = { Prim.hlevel (codes, act_code) };

    ghost view = { λ s. record { homes = s.homes; frames = s.frames.items } };

    ghost invariant = { λ s. AreInOrder s.homes s.chains.items s.frames.items };
}

impl Stack {
    /// No classes and no frames.
    pub fn make(alloc: Global) -> Stack
        ensures stack { result ≡ at_home [] }
        ensures behaviours { behaviours_of result ≡ [] }
    {
        Stack {
            homes: Homes::make(alloc),
            chains: Vec::new(alloc),
            frames: Vec::new(alloc),
        }
    }

    /// Whether no frame lies there. Each class's behaviour is in one place.
    pub fn is_empty(&self) -> bool
        ensures empty { result ≡ is_empty (frames_of self.now) }
        ensures one_place { Stands self.now.homes self.now.frames (behaviours_of self.now) }
    {
        self.frames.is_empty()
    }

    /// Puts a frame on top that is of no body. NoMemory: memory was refused, and the stack is only dropped.
    pub fn push(&mut self, w: Waiting) -> Result<(), NoMemory>
        ensures frames { OnOk result (frames_of self.new ≡ frames_of self.old ++ waiting_of w ∷ []) }
        ensures behaviours { OnOk result (behaviours_of self.new ≡ behaviours_of self.old) }
    {
        self.frames.push(Frame::wait(w))?;
        Ok(())
    }

    /// Takes the topmost frame, where it is of no body. None exactly where it is of a body, or where no frame
    /// lies there.
    pub fn pop(&mut self) -> Option<Waiting>
        ensures frames { MatchOption result (self.new ≡ self.old) (λ w. frames_of self.old ≡ frames_of self.new ++ waiting_of w ∷ []) }
        ensures behaviours { behaviours_of self.new ≡ behaviours_of self.old }
        ensures body { IfNone result (0 < length (frames_of self.old) → HasBody (frames_of self.old)) }
    {
        if !is_waiting_on_top(&self.frames) {
            return None;
        }
        match self.frames.pop() {
            None => None,
            Some(f) => Some(f.into_waiting()),
        }
    }
}

// Whether a frame is on top that is of no body.
fn is_waiting_on_top(frames: &Vec<Frame>) -> bool
    ensures { result ≡ is_waiting (slice_get frames.now.items (length frames.now.items - 1)) }
{
    match frames.last() {
        None => false,
        Some(f) => !f.is_body(),
    }
}
