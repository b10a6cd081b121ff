// A frame.
ghost use Rattle.std.specs.Prelude.{◌≡◌, ◌≤◌, false, true, None, IfOk};
ghost use Rattle.ce_frames.specs.Places.{Body as BodyHeld, Wait as WaitHeld, held_in, holding};
ghost use Rattle.body_frames.specs.Kept.{first_place};
ghost use Rattle.body_frames.specs.Resumes.{FrameResumes, IsSameBody};
ghost use Rattle.frame_stack.specs.Frames.{IsPlain, class_in, guarded_in, is_body, owner_in, this_in, waiting_of, with_this};

use crate::waiting::Waiting;
use behaviours::{Args, Behaviour, Next};
use body_frames::Body;
use ce_base::{ClassNo, Fuel, NoMemory, NodeNo};
use rule_tokens::CallName;
use std::alloc::Global;
use std::marker::Model;

/// A frame: of a body of a class, or another one. A contract sees it as it is kept, with a place for a behaviour
/// only where it is of a body.
#[derive(Drop)]
pub(crate) struct Frame {
    kind: Kind,
}

#[derive(Drop)]
enum Kind {
    Wait(Waiting),
    Body(Body),
}

impl Model for Frame {
    ghost use Rattle.std.specs.Coded.{codes};
    ghost use Rattle.rule_lines.specs.ActCode.{act_code};
    ghost use Rattle.ce_frames.specs.Places.{Held};
    ghost use Rattle.frame_stack.specs.Kinds.{held_of};

    ghost Value = { Held };

    ghost coded = { Prim.hlevel (codes, act_code) };

    ghost view = { λ f. held_of f.kind };
}

impl Frame {
    /// A frame that is of no body.
    pub(crate) fn wait(w: Waiting) -> Frame
        ensures { result ≡ WaitHeld (waiting_of w) }
    {
        Frame {
            kind: Kind::Wait(w),
        }
    }

    /// A body that begins. Its behaviour is not there yet.
    pub(crate) fn body(class: ClassNo, call: CallName, args: Args, this: Option<NodeNo>) -> Frame
        ensures { result ≡ BodyHeld class (first_place call args this) None }
    {
        Frame {
            kind: Kind::Body(Body::begin(class, call, args, this)),
        }
    }

    /// Whether it is of a body.
    pub(crate) fn is_body(&self) -> bool
        ensures body { result ≡ is_body self.now }
        ensures plain { IsPlain self.now }
    {
        match &self.kind {
            Kind::Wait(_) => false,
            Kind::Body(_) => true,
        }
    }

    /// What it is, where it is of no body.
    pub(crate) fn into_waiting(self) -> Waiting
        requires { is_body self ≡ false }
        ensures { self ≡ WaitHeld (waiting_of result) }
    {
        match self.kind {
            Kind::Wait(w) => w,
            Kind::Body(_) => unreachable!(),
        }
    }

    /// The class of a body, and its behaviour.
    pub(crate) fn into_held(self) -> (ClassNo, Option<Behaviour>)
        requires { is_body self ≡ true }
        ensures class { result.0 ≡ class_in self }
        ensures held { result.1 ≡ held_in self }
    {
        match self.kind {
            Kind::Wait(_) => unreachable!(),
            Kind::Body(b) => b.into_held(),
        }
    }

    /// The class whose body it is of.
    pub(crate) fn owner(&self) -> Option<ClassNo>
        ensures owner { result ≡ owner_in self.now }
        ensures plain { IsPlain self.now }
    {
        match &self.kind {
            Kind::Wait(_) => None,
            Kind::Body(b) => Some(b.class()),
        }
    }

    /// What `this` is there.
    pub(crate) fn this(&self) -> Option<NodeNo>
        ensures this { result ≡ this_in self.now }
        ensures plain { IsPlain self.now }
    {
        match &self.kind {
            Kind::Wait(_) => None,
            Kind::Body(b) => b.this(),
        }
    }

    /// Whether its action stands in a `try`.
    pub(crate) fn is_guarded(&self) -> bool
        ensures guarded { result ≡ guarded_in self.now }
        ensures plain { IsPlain self.now }
    {
        match &self.kind {
            Kind::Wait(_) => false,
            Kind::Body(b) => b.is_guarded(),
        }
    }

    /// From now on `this` is this node there.
    pub(crate) fn set_this(&mut self, n: NodeNo)
        ensures { self.new ≡ with_this n self.old }
    {
        match &mut self.kind {
            Kind::Wait(_) => {}
            Kind::Body(b) => b.set_this(n),
        }
    }

    /// Takes the behaviour.
    pub(crate) fn take(&mut self) -> Option<Behaviour>
        ensures held { result ≡ held_in self.old }
        ensures rest { self.new ≡ holding None self.old }
    {
        match &mut self.kind {
            Kind::Wait(_) => None,
            Kind::Body(b) => b.take(),
        }
    }

    /// Puts a behaviour where it has its place.
    pub(crate) fn put(&mut self, held: Option<Behaviour>)
        ensures { self.new ≡ holding held self.old }
    {
        match &mut self.kind {
            Kind::Wait(_) => {}
            Kind::Body(b) => b.put(held),
        }
    }

    /// Runs the body up to its next stop. One without a behaviour has no actions.
    pub(crate) fn resume(&mut self, alloc: Global, fuel: &mut Fuel) -> Result<Next, NoMemory>
        requires { is_body self.old ≡ true }
        ensures resumed { IfOk result (λ next. FrameResumes self.old self.new fuel.old fuel.new next) }
        ensures same { IsSameBody self.old self.new }
        ensures less { fuel.new ≤ fuel.old }
    {
        match &mut self.kind {
            Kind::Wait(_) => unreachable!(),
            Kind::Body(b) => b.resume(alloc, fuel),
        }
    }
}
