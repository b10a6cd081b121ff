// The frames of bodies.
ghost use Rattle.std.specs.Prelude.{◌≡◌, ◌≤◌, ◌<◌, ◌++◌, ◌∷◌, [], false, IfOk, OnOk};
ghost use Rattle.ce_frames.specs.Frames.{InBody};
ghost use Rattle.behaviours.specs.Next.{stop_of};
ghost use Rattle.frame_stack.specs.Changes.{SetsThis};
ghost use Rattle.frame_stack.specs.Resumes.{IsForSession, Proceeds, Resumes};
ghost use Rattle.frame_stack.specs.Stacked.{HasBody, actions_at, behaviours_of, below_top, frames_of, guarded_of, owner_of, this_of, top_of};

use crate::Stack;
use crate::chain::{link, topmost, unlink};
use crate::frame::Frame;
use crate::moves::{move_down, move_up};
use behaviours::{Args, Next};
use ce_base::{ClassNo, Fuel, NoMemory, NodeNo};
use rule_tokens::CallName;
use std::alloc::Global;

impl Stack {
    /// A body of a class begins, in a frame on top, which gets the behaviour of the class. The body of a class
    /// that is not there has no actions. NoMemory: memory was refused, and the stack is only dropped.
    pub fn begin(
        &mut self,
        class: ClassNo,
        call: CallName,
        args: Args,
        this: Option<NodeNo>,
    ) -> Result<(), NoMemory>
        ensures frames { OnOk result
            (frames_of self.new ≡ frames_of self.old ++ InBody class args this false (actions_at call class (behaviours_of self.old)) ∷ []) }
        ensures behaviours { OnOk result (behaviours_of self.new ≡ behaviours_of self.old) }
    {
        let below = topmost(&self.chains, class);
        let index = self.frames.len();
        self.frames.push(Frame::body(class, call, args, this))?;
        if class.0 as usize >= self.chains.len() {
            return Ok(());
        }
        match link(&mut self.chains, class, index) {
            Err(NoMemory) => {
                self.frames.truncate(index);
                Err(NoMemory)
            }
            Ok(()) => {
                move_up(&mut self.frames, &mut self.homes, class, below, index);
                Ok(())
            }
        }
    }

    /// The class whose body is on top. None where the topmost frame is of no body.
    pub fn owner(&self) -> Option<ClassNo>
        ensures { result ≡ owner_of (top_of (frames_of self.now)) }
    {
        match self.frames.last() {
            None => None,
            Some(f) => f.owner(),
        }
    }

    /// What `this` is in the topmost frame. None also where it is of no body.
    pub fn this(&self) -> Option<NodeNo>
        ensures { result ≡ this_of (top_of (frames_of self.now)) }
    {
        match self.frames.last() {
            None => None,
            Some(f) => f.this(),
        }
    }

    /// The base call of the body on top gave a node, which is `this` from now on.
    pub fn set_this(&mut self, n: NodeNo)
        requires { HasBody (frames_of self.old) }
        ensures { SetsThis self.old self.new n }
    {
        let last = self.frames.len() - 1;
        let f = &mut self.frames[last];
        if !f.is_body() {
            unreachable!()
        }
        f.set_this(n);
    }

    /// Whether the action of the body on top stands in a `try`. Not where it is of no body.
    pub fn is_guarded(&self) -> bool
        ensures { result ≡ guarded_of (top_of (frames_of self.now)) }
    {
        match self.frames.last() {
            None => false,
            Some(f) => f.is_guarded(),
        }
    }

    /// Runs the body on top up to its next stop, as `Behaviour::resume` does.
    pub fn resume(&mut self, alloc: Global, fuel: &mut Fuel) -> Result<Next, NoMemory>
        requires { HasBody (frames_of self.old) }
        ensures resumed { IfOk result (λ next. Resumes self.old self.new fuel.old fuel.new next) }
        ensures action { IfOk result (λ next. IsForSession (stop_of next)) }
        ensures spent { IfOk result (λ next. Proceeds (stop_of next) → fuel.new < fuel.old) }
        ensures less { fuel.new ≤ fuel.old }
    {
        let last = self.frames.len() - 1;
        let f = &mut self.frames[last];
        if !f.is_body() {
            unreachable!()
        }
        f.resume(alloc, fuel)
    }

    /// The body on top has ended: its frame goes, and the behaviour goes back to the frame of its class below, or
    /// home.
    pub fn end(&mut self)
        requires { HasBody (frames_of self.old) }
        ensures frames { frames_of self.new ≡ below_top (frames_of self.old) }
        ensures behaviours { behaviours_of self.new ≡ behaviours_of self.old }
    {
        match self.frames.pop() {
            None => unreachable!(),
            Some(f) => {
                if !f.is_body() {
                    unreachable!()
                }
                let (class, held) = f.into_held();
                match held {
                    None => {}
                    Some(b) => {
                        unlink(&mut self.chains, class);
                        let below = topmost(&self.chains, class);
                        move_down(&mut self.frames, &mut self.homes, class, below, b);
                    }
                }
            }
        }
    }
}
