// The line of an event.
ghost use Rattle.std.specs.Prelude.{◌≡◌, ◌++◌, OnOk, IfOk};
ghost use Rattle.ce_events.specs.Text.{event_text};

use crate::answers::put_asked;
use crate::calls::{
    put_adopted, put_attribute, put_call, put_construct, put_form_associated, put_form_disabled,
    put_form_state_restore, put_logged, put_thrown,
};
use crate::replies::{put_answered, put_gave, put_reply, put_threw, put_was_bad};
use crate::submissions::{put_blocked, put_get, put_post};
use crate::trace::put_traced;
use crate::written::Written;
use ce_base::{NoMemory, Text};
use ce_events::Event;
use std::alloc::Global;

/// Puts the line of an event behind, without its line feed.
pub(crate) fn put_event(alloc: Global, out: &mut Written, e: &Event) -> Result<(), NoMemory>
    ensures { OnOk result (out.new ≡ out.old ++ event_text e.now) }
{
    match e {
        Event::Construct(class) => put_construct(out, class),
        Event::Connected(n) => put_call(out, *n, "connected"),
        Event::Disconnected(n) => put_call(out, *n, "disconnected"),
        Event::Adopted(n, old, new) => put_adopted(out, *n, *old, *new),
        Event::Attribute(n, name, old, new) => put_attribute(alloc, out, *n, name, old, new),
        Event::FormAssociated(n, form) => put_form_associated(out, *n, *form),
        Event::FormDisabled(n, disabled) => put_form_disabled(out, *n, *disabled),
        Event::FormReset(n) => put_call(out, *n, "formReset"),
        Event::FormStateRestore(n, text, why) => {
            put_form_state_restore(alloc, out, *n, text, *why)
        }
        Event::Logged(texts) => put_logged(alloc, out, texts),
        Event::Caught(thrown) => put_thrown(alloc, out, "caught ", thrown),
        Event::Reported(thrown) => put_thrown(alloc, out, "report ", thrown),
        Event::Asked(answer) => put_asked(alloc, out, answer),
        Event::SubmitGet(n, url) => put_get(alloc, out, *n, url),
        Event::SubmitPost(n, url, media, body) => put_post(alloc, out, *n, url, media, body),
        Event::SubmitBlocked(n, why) => put_blocked(out, *n, why),
        Event::Fine(line) => put_reply(out, *line, "ok"),
        Event::Gave(line, n) => put_gave(out, *line, *n),
        Event::Answered(line, answer) => put_answered(alloc, out, *line, answer),
        Event::Ignored(line) => put_reply(out, *line, "ignored"),
        Event::Threw(line, thrown) => put_threw(alloc, out, *line, thrown),
        Event::WasBad(line, bad) => put_was_bad(out, *line, *bad),
        Event::FuelLine => out.put("fuel"),
        Event::QueueOpened(_)
        | Event::Enqueued(_, _, _, _)
        | Event::DrainBegun(_)
        | Event::Started(_)
        | Event::Finished(_)
        | Event::Dropped(_)
        | Event::QueueClosed(_)
        | Event::UpgradeBegun(_)
        | Event::UpgradeDone(_)
        | Event::UpgradeThrew(_) => put_traced(out, e),
    }
}

/// The line of an event, without its line feed. NoMemory: memory was refused.
pub fn write_event(alloc: Global, e: &Event) -> Result<Text, NoMemory>
    ensures { IfOk result (λ t. t ≡ event_text e.now) }
{
    let mut out = Written::make(alloc);
    put_event(alloc, &mut out, e)?;
    Text::of(alloc, out.as_str())
}
