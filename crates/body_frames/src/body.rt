// The frame of a body.
ghost use Rattle.std.specs.Prelude.{◌≡◌, ◌≤◌, None, Some, IfOk};
ghost use Rattle.class_bodies.specs.Next.{stop_of};
ghost use Rattle.body_frames.specs.Kept.{first_place, frame_of};
ghost use Rattle.body_frames.specs.Resumes.{FrameResumes, IsSameBody, is_guarded};

use behaviours::{Args, At, Behaviour, Next};
use ce_base::{ClassNo, Fuel, NoMemory, NodeNo};
use rule_tokens::CallName;
use std::alloc::Global;
use std::marker::Model;

/// A body of a class: how far it is, its arguments, what `this` is, whether the action that it has reached stands
/// in a `try`, and the behaviour of its class, unless a frame above has it. A contract sees it as it is kept.
#[derive(Drop)]
pub struct Body {
    class: ClassNo,
    at: At,
    args: Args,
    this: Option<NodeNo>,
    guarded: bool,
    held: Option<Behaviour>,
}

impl Model for Body {
    ghost use Rattle.std.specs.Coded.{codes};
    ghost use Rattle.rule_lines.specs.ActCode.{act_code};
    ghost use Rattle.body_frames.specs.Kept.{Kept};

    ghost Value = { Kept };

    ghost coded = { Prim.hlevel (codes, act_code) };

    ghost view = { λ b. record {
      class = b.class;
      place = record { call = b.at.call; index = b.at.index; args = b.args; this = b.this; guarded = b.guarded };
      held = b.held;
    } };
}

impl Body {
    /// A body that begins.
    pub fn begin(class: ClassNo, call: CallName, args: Args, this: Option<NodeNo>) -> Body
        ensures { result ≡ record { class = class; place = first_place call args this; held = None } }
    {
        Body {
            class,
            at: At { call, index: 0 },
            args,
            this,
            guarded: false,
            held: None,
        }
    }

    /// Its class, and the behaviour.
    pub fn into_held(self) -> (ClassNo, Option<Behaviour>)
        ensures class { result.0 ≡ self.class }
        ensures held { result.1 ≡ self.held }
    {
        (self.class, self.held)
    }

    /// Its class.
    pub fn class(&self) -> ClassNo
        ensures { result ≡ self.now.class }
    {
        self.class
    }

    /// What `this` is.
    pub fn this(&self) -> Option<NodeNo>
        ensures { result ≡ self.now.place.this }
    {
        self.this
    }

    /// Whether the action that it has reached stands in a `try`.
    pub fn is_guarded(&self) -> bool
        ensures { result ≡ self.now.place.guarded }
    {
        self.guarded
    }

    /// From now on `this` is this node.
    pub fn set_this(&mut self, n: NodeNo)
        ensures { self.new ≡ record self.old { place = record (self.old.place) { this = Some n } } }
    {
        self.this = Some(n);
    }

    /// Takes the behaviour.
    pub fn take(&mut self) -> Option<Behaviour>
        ensures held { result ≡ self.old.held }
        ensures rest { self.new ≡ record self.old { held = None } }
    {
        self.held.take()
    }

    /// Puts the behaviour in its place.
    pub fn put(&mut self, held: Option<Behaviour>)
        ensures { self.new ≡ record self.old { held = held } }
    {
        self.held = held;
    }

    /// Runs the body up to its next stop. One without a behaviour has no actions. NoMemory: memory was refused,
    /// and the body is only dropped.
    pub fn resume(&mut self, alloc: Global, fuel: &mut Fuel) -> Result<Next, NoMemory>
        ensures resumed { IfOk result (λ next. FrameResumes (frame_of self.old) (frame_of self.new) fuel.old fuel.new next) }
        ensures same { IsSameBody (frame_of self.old) (frame_of self.new) }
        ensures less { fuel.new ≤ fuel.old }
    {
        match &mut self.held {
            None => {
                self.guarded = false;
                Ok(Next::Return {
                    value: None,
                    guarded: false,
                })
            }
            Some(b) => {
                let next = b.resume(alloc, &mut self.at, &self.args, fuel)?;
                self.guarded = is_guarded(&next);
                Ok(next)
            }
        }
    }
}

// Whether a body stops in a `try`.
fn is_guarded(next: &Next) -> bool
    ensures { result ≡ is_guarded (stop_of next.now) }
{
    match next {
        Next::Do { guarded, .. } => *guarded,
        Next::Return { guarded, .. } => *guarded,
        Next::Throw { guarded, .. } => *guarded,
        Next::FuelSpent => false,
    }
}
