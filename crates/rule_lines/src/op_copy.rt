// A second operation that does the same. What takes memory more than once is a function of its own, which
// owns no operation.
ghost use Rattle.std.specs.Prelude.{◌≡◌, IfOk};
ghost use Rattle.rule_lines.specs.declared.op.Op.TheVariants.{Adopt, Append, Ask, Before, Check, Choose, Clone, Create};
ghost use Rattle.rule_lines.specs.declared.op.Op.TheVariants.{Custom, Define, DelAttr, Detach, FormList, FormNull, FormValue, Internals};
ghost use Rattle.rule_lines.specs.declared.op.Op.TheVariants.{Let, MakeText, New, Remove, Request, Reset, SetAttr, Shadow};
ghost use Rattle.rule_lines.specs.declared.op.Op.TheVariants.{StateAdd, StateClear, StateDelete, Submit, Upgrade, Validity, Value};

use crate::{AskWord, Op};
use ce_base::{Entries, Flags, NoMemory, Text, copy_of};
use rule_tokens::{Operand, Val};
use std::alloc::Global;

fn maybe_value(alloc: Global, o: &Option<Val>) -> Result<Option<Val>, NoMemory>
    ensures { IfOk result (λ x. x ≡ o.now) }
{
    match o {
        None => Ok(None),
        Some(v) => Ok(Some(v.copy(alloc)?)),
    }
}

/// A second operand, where there is one.
pub(crate) fn maybe_node(alloc: Global, o: &Option<Operand>) -> Result<Option<Operand>, NoMemory>
    ensures { IfOk result (λ x. x ≡ o.now) }
{
    match o {
        None => Ok(None),
        Some(p) => Ok(Some(p.copy(alloc)?)),
    }
}

fn create(
    alloc: Global,
    var: &Text,
    local: &Text,
    is_value: &Option<Text>,
    document: &Option<Operand>,
) -> Result<Op, NoMemory>
    ensures { IfOk result (λ x. x ≡ Create var.now local.now is_value.now document.now) }
{
    Ok(Op::Create {
        var: var.copy(alloc)?,
        local: local.copy(alloc)?,
        is_value: copy_of(alloc, is_value)?,
        document: maybe_node(alloc, document)?,
    })
}

fn construct(alloc: Global, var: &Text, class: &Text) -> Result<Op, NoMemory>
    ensures { IfOk result (λ x. x ≡ New var.now class.now) }
{
    Ok(Op::New {
        var: var.copy(alloc)?,
        class: class.copy(alloc)?,
    })
}

fn make_text(
    alloc: Global,
    var: &Text,
    chars: &Text,
    document: &Option<Operand>,
) -> Result<Op, NoMemory>
    ensures { IfOk result (λ x. x ≡ MakeText var.now chars.now document.now) }
{
    Ok(Op::MakeText {
        var: var.copy(alloc)?,
        chars: chars.copy(alloc)?,
        document: maybe_node(alloc, document)?,
    })
}

fn put_before(
    alloc: Global,
    parent: &Operand,
    node: &Operand,
    before: &Operand,
) -> Result<Op, NoMemory>
    ensures { IfOk result (λ x. x ≡ Before parent.now node.now before.now) }
{
    Ok(Op::Before {
        parent: parent.copy(alloc)?,
        node: node.copy(alloc)?,
        before: before.copy(alloc)?,
    })
}

fn set_attr(alloc: Global, node: &Operand, name: &Text, value: &Val) -> Result<Op, NoMemory>
    ensures { IfOk result (λ x. x ≡ SetAttr node.now name.now value.now) }
{
    Ok(Op::SetAttr {
        node: node.copy(alloc)?,
        name: name.copy(alloc)?,
        value: value.copy(alloc)?,
    })
}

fn define(alloc: Global, name: &Text, class: &Text, base: &Option<Text>) -> Result<Op, NoMemory>
    ensures { IfOk result (λ x. x ≡ Define name.now class.now base.now) }
{
    Ok(Op::Define {
        name: name.copy(alloc)?,
        class: class.copy(alloc)?,
        base: copy_of(alloc, base)?,
    })
}

fn form_value(
    alloc: Global,
    node: &Operand,
    value: &Val,
    saved: &Option<Val>,
) -> Result<Op, NoMemory>
    ensures { IfOk result (λ x. x ≡ FormValue node.now value.now saved.now) }
{
    Ok(Op::FormValue {
        node: node.copy(alloc)?,
        value: value.copy(alloc)?,
        saved: maybe_value(alloc, saved)?,
    })
}

fn form_list(alloc: Global, node: &Operand, entries: &Entries) -> Result<Op, NoMemory>
    ensures { IfOk result (λ x. x ≡ FormList node.now entries.now) }
{
    Ok(Op::FormList {
        node: node.copy(alloc)?,
        entries: entries.copy(alloc)?,
    })
}

fn request(alloc: Global, form: &Operand, submitter: &Option<Operand>) -> Result<Op, NoMemory>
    ensures { IfOk result (λ x. x ≡ Request form.now submitter.now) }
{
    Ok(Op::Request {
        form: form.copy(alloc)?,
        submitter: maybe_node(alloc, submitter)?,
    })
}

fn ask(alloc: Global, word: AskWord, node: &Operand, name: &Option<Text>) -> Result<Op, NoMemory>
    ensures { IfOk result (λ x. x ≡ Ask word node.now name.now) }
{
    Ok(Op::Ask {
        word,
        node: node.copy(alloc)?,
        name: copy_of(alloc, name)?,
    })
}

fn shadow(alloc: Global, var: &Text, host: &Operand) -> Result<Op, NoMemory>
    ensures { IfOk result (λ x. x ≡ Shadow var.now host.now) }
{
    Ok(Op::Shadow {
        var: var.copy(alloc)?,
        host: host.copy(alloc)?,
    })
}

fn append(alloc: Global, parent: &Operand, node: &Operand) -> Result<Op, NoMemory>
    ensures { IfOk result (λ x. x ≡ Append parent.now node.now) }
{
    Ok(Op::Append {
        parent: parent.copy(alloc)?,
        node: node.copy(alloc)?,
    })
}

fn remove(alloc: Global, parent: &Operand, node: &Operand) -> Result<Op, NoMemory>
    ensures { IfOk result (λ x. x ≡ Remove parent.now node.now) }
{
    Ok(Op::Remove {
        parent: parent.copy(alloc)?,
        node: node.copy(alloc)?,
    })
}

fn del_attr(alloc: Global, node: &Operand, name: &Text) -> Result<Op, NoMemory>
    ensures { IfOk result (λ x. x ≡ DelAttr node.now name.now) }
{
    Ok(Op::DelAttr {
        node: node.copy(alloc)?,
        name: name.copy(alloc)?,
    })
}

fn clone_node(alloc: Global, var: &Text, node: &Operand, deep: bool) -> Result<Op, NoMemory>
    ensures { IfOk result (λ x. x ≡ Clone var.now node.now deep) }
{
    Ok(Op::Clone {
        var: var.copy(alloc)?,
        node: node.copy(alloc)?,
        deep,
    })
}

fn adopt(alloc: Global, document: &Operand, node: &Operand) -> Result<Op, NoMemory>
    ensures { IfOk result (λ x. x ≡ Adopt document.now node.now) }
{
    Ok(Op::Adopt {
        document: document.copy(alloc)?,
        node: node.copy(alloc)?,
    })
}

fn validity(alloc: Global, node: &Operand, flags: Flags, message: &Val) -> Result<Op, NoMemory>
    ensures { IfOk result (λ x. x ≡ Validity node.now flags message.now) }
{
    Ok(Op::Validity {
        node: node.copy(alloc)?,
        flags,
        message: message.copy(alloc)?,
    })
}

fn state_add(alloc: Global, node: &Operand, word: &Text) -> Result<Op, NoMemory>
    ensures { IfOk result (λ x. x ≡ StateAdd node.now word.now) }
{
    Ok(Op::StateAdd {
        node: node.copy(alloc)?,
        word: word.copy(alloc)?,
    })
}

fn state_delete(alloc: Global, node: &Operand, word: &Text) -> Result<Op, NoMemory>
    ensures { IfOk result (λ x. x ≡ StateDelete node.now word.now) }
{
    Ok(Op::StateDelete {
        node: node.copy(alloc)?,
        word: word.copy(alloc)?,
    })
}

fn custom(alloc: Global, node: &Operand, message: &Val) -> Result<Op, NoMemory>
    ensures { IfOk result (λ x. x ≡ Custom node.now message.now) }
{
    Ok(Op::Custom {
        node: node.copy(alloc)?,
        message: message.copy(alloc)?,
    })
}

fn set_value(alloc: Global, node: &Operand, value: &Val) -> Result<Op, NoMemory>
    ensures { IfOk result (λ x. x ≡ Value node.now value.now) }
{
    Ok(Op::Value {
        node: node.copy(alloc)?,
        value: value.copy(alloc)?,
    })
}

fn let_variable(alloc: Global, var: &Text, node: &Operand) -> Result<Op, NoMemory>
    ensures { IfOk result (λ x. x ≡ Let var.now node.now) }
{
    Ok(Op::Let {
        var: var.copy(alloc)?,
        node: node.copy(alloc)?,
    })
}

fn detach(alloc: Global, node: &Operand) -> Result<Op, NoMemory>
    ensures { IfOk result (λ x. x ≡ Detach node.now) }
{
    Ok(Op::Detach {
        node: node.copy(alloc)?,
    })
}

fn upgrade(alloc: Global, node: &Operand) -> Result<Op, NoMemory>
    ensures { IfOk result (λ x. x ≡ Upgrade node.now) }
{
    Ok(Op::Upgrade {
        node: node.copy(alloc)?,
    })
}

fn reset(alloc: Global, form: &Operand) -> Result<Op, NoMemory>
    ensures { IfOk result (λ x. x ≡ Reset form.now) }
{
    Ok(Op::Reset {
        form: form.copy(alloc)?,
    })
}

fn internals(alloc: Global, node: &Operand) -> Result<Op, NoMemory>
    ensures { IfOk result (λ x. x ≡ Internals node.now) }
{
    Ok(Op::Internals {
        node: node.copy(alloc)?,
    })
}

fn form_null(alloc: Global, node: &Operand) -> Result<Op, NoMemory>
    ensures { IfOk result (λ x. x ≡ FormNull node.now) }
{
    Ok(Op::FormNull {
        node: node.copy(alloc)?,
    })
}

fn state_clear(alloc: Global, node: &Operand) -> Result<Op, NoMemory>
    ensures { IfOk result (λ x. x ≡ StateClear node.now) }
{
    Ok(Op::StateClear {
        node: node.copy(alloc)?,
    })
}

fn check(alloc: Global, node: &Operand, on: bool) -> Result<Op, NoMemory>
    ensures { IfOk result (λ x. x ≡ Check node.now on) }
{
    Ok(Op::Check {
        node: node.copy(alloc)?,
        on,
    })
}

fn choose(alloc: Global, node: &Operand, on: bool) -> Result<Op, NoMemory>
    ensures { IfOk result (λ x. x ≡ Choose node.now on) }
{
    Ok(Op::Choose {
        node: node.copy(alloc)?,
        on,
    })
}

fn submit(alloc: Global, form: &Operand) -> Result<Op, NoMemory>
    ensures { IfOk result (λ x. x ≡ Submit form.now) }
{
    Ok(Op::Submit {
        form: form.copy(alloc)?,
    })
}

impl Op {
    /// A second operation that does the same. `NoMemory` comes only where memory was refused.
    pub fn copy(&self, alloc: Global) -> Result<Op, NoMemory>
        ensures { IfOk result (λ x. x ≡ self.now) }
    {
        match self {
            Op::Create {
                var,
                local,
                is_value,
                document,
            } => create(alloc, var, local, is_value, document),
            Op::New { var, class } => construct(alloc, var, class),
            Op::MakeText {
                var,
                chars,
                document,
            } => make_text(alloc, var, chars, document),
            Op::Shadow { var, host } => shadow(alloc, var, host),
            Op::Append { parent, node } => append(alloc, parent, node),
            Op::Before {
                parent,
                node,
                before,
            } => put_before(alloc, parent, node, before),
            Op::Remove { parent, node } => remove(alloc, parent, node),
            Op::Detach { node } => detach(alloc, node),
            Op::SetAttr { node, name, value } => set_attr(alloc, node, name, value),
            Op::DelAttr { node, name } => del_attr(alloc, node, name),
            Op::Clone { var, node, deep } => clone_node(alloc, var, node, *deep),
            Op::Adopt { document, node } => adopt(alloc, document, node),
            Op::Define { name, class, base } => define(alloc, name, class, base),
            Op::Upgrade { node } => upgrade(alloc, node),
            Op::Reset { form } => reset(alloc, form),
            Op::Internals { node } => internals(alloc, node),
            Op::FormValue { node, value, saved } => form_value(alloc, node, value, saved),
            Op::FormList { node, entries } => form_list(alloc, node, entries),
            Op::FormNull { node } => form_null(alloc, node),
            Op::Validity {
                node,
                flags,
                message,
            } => validity(alloc, node, *flags, message),
            Op::StateAdd { node, word } => state_add(alloc, node, word),
            Op::StateDelete { node, word } => state_delete(alloc, node, word),
            Op::StateClear { node } => state_clear(alloc, node),
            Op::Custom { node, message } => custom(alloc, node, message),
            Op::Value { node, value } => set_value(alloc, node, value),
            Op::Check { node, on } => check(alloc, node, *on),
            Op::Choose { node, on } => choose(alloc, node, *on),
            Op::Submit { form } => submit(alloc, form),
            Op::Request { form, submitter } => request(alloc, form, submitter),
            Op::Ask { word, node, name } => ask(alloc, *word, node, name),
            Op::Let { var, node } => let_variable(alloc, var, node),
        }
    }
}
