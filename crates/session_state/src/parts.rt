// The parts of classes.
ghost use Rattle.std.specs.Prelude.{◌≡◌, ◌<◌, [], length, IfOk};
ghost use Rattle.rule_lines.specs.Acts.{act_of, part_of};
ghost use Rattle.ce_algorithms.specs.Parts.{add_class, associated, change_facts, change_open, open_class, part};
ghost use Rattle.ce_algorithms.specs.Parts.{with_body, with_has, with_observed, without_internals, without_shadow};
ghost use Rattle.frame_stack.specs.Sessions.{ArePaired, session};
ghost use Rattle.session_state.specs.Steps.{with_call_at};
ghost use Rattle.session_state.specs.Taking.{Counts, Names, Rests, Takes};

use crate::State;
use ce_base::{ClassNo, Fault, NoMemory, Refused, Text, Texts};
use frame_stack::Stack;
use rule_lines::{Action, ClassPart};
use rule_tokens::CallName;
use std::alloc::Global;

impl State {
    /// Takes a part of a class. What it says of the class's behaviour goes to the stack, on which no frame lies. It
    /// spends no fuel.
    ///
    /// TypeError: no class has the name. NotSupportedError: a class has the name that a new one is to have; or the
    /// class is frozen, since a definition has it. After both nothing has changed. NoMemory: memory was refused, and
    /// the state and the stack are only dropped.
    pub fn part(&mut self, alloc: Global, stack: &mut Stack, p: ClassPart) -> Result<(), Refused>
        requires rest { stack.old.frames ≡ [] }
        requires paired { ArePaired stack.old self.old }
        ensures taken { Takes result (session stack.new self.new) (part (part_of p) (session stack.old self.old)) }
        ensures rest { Rests result (stack.new.frames ≡ []) }
        ensures paired { Rests result (ArePaired stack.new self.new) }
        ensures page { self.new.page ≡ self.old.page }
    {
        match p {
            ClassPart::Class(name) => self.add_class(alloc, stack, name),
            ClassPart::On {
                class,
                call,
                action,
            } => self.add_action(alloc, stack, &class, call, action),
            ClassPart::Has { class, call } => self.add_call(&class, call),
            ClassPart::Observe { class, names } => self.observe(alloc, &class, &names),
            ClassPart::Associate(class) => self.associate(&class),
            ClassPart::DisableShadow(class) => self.disable_shadow(&class),
            ClassPart::DisableInternals(class) => self.disable_internals(&class),
        }
    }
}

// What the parts do.
impl State {
    fn add_class(&mut self, alloc: Global, stack: &mut Stack, name: Text) -> Result<(), Refused>
        requires rest { stack.old.frames ≡ [] }
        requires paired { ArePaired stack.old self.old }
        ensures taken { Takes result (session stack.new self.new) (add_class name (session stack.old self.old)) }
        ensures rest { Rests result (stack.new.frames ≡ []) }
        ensures paired { Rests result (ArePaired stack.new self.new) }
        ensures page { self.new.page ≡ self.old.page }
    {
        match self.new_class(alloc, name) {
            Err(refused) => Err(refused),
            Ok(()) => {
                stack.add_class(alloc)?;
                Ok(())
            }
        }
    }

    fn new_class(&mut self, alloc: Global, name: Text) -> Result<(), Refused>
        ensures taken { Takes result self.new (add_class name self.old) }
        ensures count { Counts result (length self.old.classes) (length self.new.classes) }
        ensures page { self.new.page ≡ self.old.page }
    {
        if self.classes.named(name.as_str()).is_some() {
            return Err(Refused::Fault(Fault::NotSupportedError));
        }
        self.classes.add(alloc, name)?;
        Ok(())
    }

    // The class with this name, where no definition has it.
    fn open_class(&self, name: &str) -> Result<ClassNo, Fault>
        ensures names { Names result self.now (open_class name.now self.now) }
        ensures within { IfOk result (λ k. k < length self.now.classes) }
    {
        match self.classes.named(name) {
            None => Err(Fault::TypeError),
            Some(k) => {
                if self.classes.at(k).is_frozen() {
                    return Err(Fault::NotSupportedError);
                }
                Ok(k)
            }
        }
    }

    fn add_action(
        &mut self,
        alloc: Global,
        stack: &mut Stack,
        class: &Text,
        call: CallName,
        action: Action,
    ) -> Result<(), Refused>
        requires rest { stack.old.frames ≡ [] }
        requires paired { ArePaired stack.old self.old }
        ensures taken { Takes result (session stack.new self.new) (change_open class.now (with_body call (act_of action)) (session stack.old self.old)) }
        ensures rest { Rests result (stack.new.frames ≡ []) }
        ensures paired { Rests result (ArePaired stack.new self.new) }
        ensures page { self.new.page ≡ self.old.page }
    {
        match self.open_class(class.as_str()) {
            Err(f) => {
                action.close();
                Err(Refused::Fault(f))
            }
            Ok(k) => {
                self.call_added(k, call);
                match stack.extend(alloc, k, call, action) {
                    Err(NoMemory) => Err(Refused::NoMemory),
                    Ok(()) => Ok(()),
                }
            }
        }
    }

    // The class has the callback.
    fn call_added(&mut self, k: ClassNo, call: CallName)
        requires { k < length self.old.classes }
        ensures class { self.new ≡ with_call_at k call self.old }
        ensures page { self.new.page ≡ self.old.page }
    {
        self.classes.add_call(k, call);
    }

    fn add_call(&mut self, class: &Text, call: CallName) -> Result<(), Refused>
        ensures taken { Takes result self.new (change_open class.now (change_facts (with_has call)) self.old) }
        ensures page { self.new.page ≡ self.old.page }
    {
        let k = self.open_class(class.as_str())?;
        self.classes.add_call(k, call);
        Ok(())
    }

    fn observe(&mut self, alloc: Global, class: &Text, names: &Texts) -> Result<(), Refused>
        ensures taken { Takes result self.new (change_open class.now (change_facts (with_observed names.now)) self.old) }
        ensures page { self.new.page ≡ self.old.page }
    {
        let k = self.open_class(class.as_str())?;
        self.classes.observe(alloc, k, names)?;
        Ok(())
    }

    fn associate(&mut self, class: &Text) -> Result<(), Refused>
        ensures taken { Takes result self.new (change_open class.now (change_facts associated) self.old) }
        ensures page { self.new.page ≡ self.old.page }
    {
        let k = self.open_class(class.as_str())?;
        self.classes.associate(k);
        Ok(())
    }

    fn disable_shadow(&mut self, class: &Text) -> Result<(), Refused>
        ensures taken { Takes result self.new (change_open class.now (change_facts without_shadow) self.old) }
        ensures page { self.new.page ≡ self.old.page }
    {
        let k = self.open_class(class.as_str())?;
        self.classes.disable_shadow(k);
        Ok(())
    }

    fn disable_internals(&mut self, class: &Text) -> Result<(), Refused>
        ensures taken { Takes result self.new (change_open class.now (change_facts without_internals) self.old) }
        ensures page { self.new.page ≡ self.old.page }
    {
        let k = self.open_class(class.as_str())?;
        self.classes.disable_internals(k);
        Ok(())
    }
}
