// Constructing classes, and defining them.
ghost use Rattle.std.specs.Prelude.{◌≡◌, ◌≤◌, ◌<◌, length, IfOk, IfSome, OnOk};
ghost use Rattle.rule_tokens.specs.declared.callback.CallName.TheVariants as calls;
ghost use Rattle.node_trees.specs.Nodes.{IsNode, size};
ghost use Rattle.ce_registry.specs.declared.definition.Definition.{Definition as IsDefinition};
ghost use Rattle.ce_registry.specs.ClassFacts.{has_call};
ghost use Rattle.ce_registry.specs.Registry.{by_class, is_value_of, may_define};
ghost use Rattle.construction.specs.Stacks.{stack_of};
ghost use Rattle.ce_events.specs.declared.event.Event.TheVariants.{Construct};
ghost use Rattle.ce_algorithms.specs.Construction.{base_call, base_entry, make_custom};
ghost use Rattle.ce_algorithms.specs.Define.{define_name};
ghost use Rattle.ce_algorithms.specs.Page.{definition_at};
ghost use Rattle.ce_algorithms.specs.Perform.{define_element};
ghost use Rattle.ce_algorithms.specs.State.{class_of, logged, on_page};
ghost use Rattle.ce_page.specs.Ends.{Ends, Does, work};
ghost use Rattle.ce_page.specs.Numbers.{GrowsWithin};
ghost use Rattle.session_state.specs.Steps.{with_frozen};

use crate::State;
use crate::state::is_out_of_fuel;
use ce_base::{ClassNo, CustomState, DefNo, Fault, Fuel, NoMemory, NodeNo, Text, copy_of};
use ce_events::Event;
use ce_page::{Page, PageStop};
use ce_registry::{ClassFacts, Definition};
use construction::Base;
use rule_tokens::CallName;
use std::alloc::Global;

impl State {
    /// Adds a definition of a class, and freezes the class (HTML Standard, section "The
    /// CustomElementRegistry interface", `define`).
    ///
    /// It is refused for the first of these that holds. SyntaxError: the name is no valid custom element name.
    /// NotSupportedError: a definition has the name; or one has the class; or what it is to extend is a valid custom
    /// element name, or no element of HTML. FuelSpent, NoMemory: see `State`.
    pub fn define_element(
        &mut self,
        alloc: Global,
        name: &Text,
        class: ClassNo,
        base: &Option<Text>,
    ) -> Result<(), PageStop>
        ensures step { Does result self.new (define_element name.now class base.now self.old) }
        ensures grows { size self.old.page.forest ≤ size self.new.page.forest }
    {
        let _number = self.define_name(alloc, name, class, base)?;
        self.freeze(class);
        Ok(())
    }

    fn define_name(
        &mut self,
        alloc: Global,
        name: &Text,
        class: ClassNo,
        base: &Option<Text>,
    ) -> Result<DefNo, PageStop>
        ensures step { Ends (λ d. d) result self.new (on_page (define_name name.now class (class_of self.old class).facts base.now) self.old) }
        ensures grows { size self.old.page.forest ≤ size self.new.page.forest }
    {
        // A refused definition copies nothing of its class.
        if let Some(fault) = self.refusal(name, class, base) {
            self.after_call(false)?;
            return Err(PageStop::Refused(fault));
        }
        let facts = self.class_facts(alloc, class)?;
        let name = name.copy(alloc)?;
        let base = copy_of(alloc, base)?;
        let outcome = self
            .page
            .define_name(alloc, name, class, facts, base, &mut self.fuel);
        self.after_call(is_out_of_fuel(&outcome))?;
        outcome
    }

    // Why a definition of a class would be refused.
    fn refusal(&self, name: &Text, class: ClassNo, base: &Option<Text>) -> Option<Fault>
        ensures { result ≡ may_define self.now.page.definitions name.now class base.now }
    {
        let base = base.as_ref().map(|t| t.as_str());
        self.registry().refusal(name.as_str(), class, base)
    }

    // What a definition takes over from a class.
    fn class_facts(&self, alloc: Global, class: ClassNo) -> Result<ClassFacts, NoMemory>
        ensures { IfOk result (λ facts. facts ≡ (class_of self.now class).facts) }
    {
        match self.classes.get(class) {
            None => Ok(ClassFacts::make(alloc)),
            Some(c) => c.facts().copy(alloc),
        }
    }

    fn freeze(&mut self, class: ClassNo)
        ensures frozen { self.new ≡ with_frozen class self.old }
        ensures page { self.new.page ≡ self.old.page }
    {
        self.classes.freeze(class);
    }

    /// Logs that a class is constructed (Web IDL, section "Invoking callback functions", "construct a callback
    /// function"). NoMemory: see `State`.
    pub fn log_construction(&mut self, alloc: Global, class: ClassNo) -> Result<(), NoMemory>
        ensures logged { OnOk result (self.new ≡ logged (Construct (class_of self.old class).name) self.old) }
        ensures page { self.new.page ≡ self.old.page }
    {
        let name = self.class_name(alloc, class)?;
        self.log(Event::Construct(name))?;
        Ok(())
    }

    // A class's name.
    fn class_name(&self, alloc: Global, class: ClassNo) -> Result<Text, NoMemory>
        ensures { IfOk result (λ name. name ≡ (class_of self.now class).name) }
    {
        match self.classes.get(class) {
            None => Text::of(alloc, ""),
            Some(c) => Text::of(alloc, c.name()),
        }
    }

    /// Whether a class has a constructor of its own. Else its constructor is the base call alone.
    pub fn has_constructor(&self, class: ClassNo) -> bool
        ensures { result ≡ has_call calls.Constructor (class_of self.now class).facts.calls }
    {
        match self.classes.get(class) {
            None => false,
            Some(c) => c.facts().calls.has(CallName::Constructor),
        }
    }

    /// The base call of a class's constructor (HTML Standard, section "HTML element constructors"). Where the
    /// construction stack of its definition is empty, a new element is made, for one unit of fuel. Else the last
    /// entry's element is given, and the already constructed marker takes its place.
    ///
    /// TypeError: the class has no definition, or the last entry is the marker. FuelSpent, NoMemory: see `State`.
    pub fn base_call(&mut self, alloc: Global, class: ClassNo) -> Result<NodeNo, PageStop>
        ensures step { Ends (λ n. n) result self.new (on_page (base_call class) self.old) }
        ensures made { IfOk result (IsNode self.new.page.forest) }
        ensures grows { size self.old.page.forest ≤ size self.new.page.forest }
        ensures less { self.new.fuel ≤ self.old.fuel }
    {
        let outcome = base_call(alloc, &mut self.page, &mut self.fuel, class);
        self.after_call(is_out_of_fuel(&outcome))?;
        outcome
    }
}

// The base call of a constructor (HTML Standard, section "HTML element constructors").
fn base_call(
    alloc: Global,
    page: &mut Page,
    fuel: &mut Fuel,
    class: ClassNo,
) -> Result<NodeNo, PageStop>
    ensures step { Ends (λ n. n) result (work page.new fuel.new) (base_call class (work page.old fuel.old)) }
    ensures within { GrowsWithin page.old page.new fuel.old fuel.new }
    ensures made { IfOk result (IsNode page.new.forest) }
{
    match defined(page, class) {
        None => Err(PageStop::Refused(Fault::TypeError)),
        Some(d) => base_entry(alloc, page, fuel, d),
    }
}

// The definition of a class. None exactly where it has none.
fn defined(page: &Page, class: ClassNo) -> Option<DefNo>
    ensures defined { result ≡ by_class page.now.definitions class }
    ensures within { IfSome result (λ d. d < length page.now.definitions) }
{
    page.registry().by_class(class)
}

// By the last entry of the definition's construction stack: where there is none, a new element is made; one that is
// constructed is given once.
fn base_entry(alloc: Global, page: &mut Page, fuel: &mut Fuel, d: DefNo) -> Result<NodeNo, PageStop>
    requires { d < length page.old.definitions }
    ensures step { Ends (λ n. n) result (work page.new fuel.new)
        (base_entry d (definition_at page.old d) (stack_of d page.old.stacks) (work page.old fuel.old)) }
    ensures within { GrowsWithin page.old page.new fuel.old fuel.new }
    ensures made { IfOk result (IsNode page.new.forest) }
{
    match page.base(d) {
        Base::Fresh => make_of(alloc, page, fuel, d),
        Base::Of(n) => Ok(n),
        Base::Already => Err(PageStop::Refused(Fault::TypeError)),
    }
}

// A new element of a definition, custom at once.
fn make_of(alloc: Global, page: &mut Page, fuel: &mut Fuel, d: DefNo) -> Result<NodeNo, PageStop>
    requires { d < length page.old.definitions }
    ensures step { Ends (λ n. n) result (work page.new fuel.new) (make_custom d (definition_at page.old d) (work page.old fuel.old)) }
    ensures within { GrowsWithin page.old page.new fuel.old fuel.new }
    ensures made { IfOk result (IsNode page.new.forest) }
{
    let x = page.registry().definition(d);
    let local = x.local.copy(alloc)?;
    match is_value_of(alloc, x) {
        Ok(is_value) => make_custom(alloc, page, fuel, d, local, is_value),
        Err(NoMemory) => {
            drop(local);
            Err(PageStop::NoMemory)
        }
    }
}

// The `is` value of a definition's elements.
fn is_value_of(alloc: Global, d: &Definition) -> Result<Option<Text>, NoMemory>
    ensures { IfOk result (λ is. is ≡ is_value_of d.now) }
{
    match d.is_value() {
        None => Ok(None),
        Some(name) => Ok(Some(Text::of(alloc, name)?)),
    }
}

// Spends one unit of fuel, and makes an element that is custom at once.
fn make_custom(
    alloc: Global,
    page: &mut Page,
    fuel: &mut Fuel,
    d: DefNo,
    local: Text,
    is_value: Option<Text>,
) -> Result<NodeNo, PageStop>
    ensures step { (x : IsDefinition) → x.local ≡ local → is_value_of x ≡ is_value
        → Ends (λ n. n) result (work page.new fuel.new) (make_custom d x (work page.old fuel.old)) }
    ensures within { GrowsWithin page.old page.new fuel.old fuel.new }
    ensures made { IfOk result (IsNode page.new.forest) }
{
    if !fuel.spend() {
        drop(local);
        drop(is_value);
        return Err(PageStop::FuelSpent);
    }
    let n = page.make_element(alloc, local, is_value, NodeNo(1))?;
    page.set_definition(alloc, n, Some(d))?;
    page.set_state(n, CustomState::Custom);
    Ok(n)
}
