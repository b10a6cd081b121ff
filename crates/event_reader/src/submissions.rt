// Submissions of forms.
ghost use Rattle.std.specs.Prelude.{IfOk};
ghost use Rattle.event_reader.specs.IsEvent.{IsCause, IsEvent, IsNumber};
ghost use Rattle.event_reader.specs.Read.{Reads};
ghost use Rattle.event_reader.specs.Submissions.{cause_by, cause_of, get_of, post_of, submit_by, submit_of};

use crate::EventRefused;
use crate::parts::{node_in, nodes_of, text_of};
use ce_base::NodeNo;
use ce_events::{Cause, Event};
use rule_tokens::Token;
use std::alloc::Global;

fn get_of(alloc: Global, n: NodeNo, tokens: &[Token]) -> Result<Event, EventRefused>
    requires { IsNumber n }
    ensures reads { Reads result (get_of n tokens.now) }
    ensures fits { IfOk result IsEvent }
{
    match tokens {
        [url] => Ok(Event::SubmitGet(n, text_of(alloc, url)?)),
        _ => Err(EventRefused::NotAnEvent),
    }
}

fn post_of(alloc: Global, n: NodeNo, tokens: &[Token]) -> Result<Event, EventRefused>
    requires { IsNumber n }
    ensures reads { Reads result (post_of n tokens.now) }
    ensures fits { IfOk result IsEvent }
{
    match tokens {
        [url, media, body] => {
            let url = text_of(alloc, url)?;
            let media = text_of(alloc, media)?;
            let body = text_of(alloc, body)?;
            Ok(Event::SubmitPost(n, url, media, body))
        }
        _ => Err(EventRefused::NotAnEvent),
    }
}

fn cause_by(alloc: Global, word: &str, rest: &[Token]) -> Result<Cause, EventRefused>
    ensures reads { Reads result (cause_by word.now rest.now) }
    ensures fits { IfOk result IsCause }
{
    match word {
        "disconnected" => Ok(Cause::Disconnected),
        "invalid" => Ok(Cause::Invalid(nodes_of(alloc, rest)?)),
        "dialog" => Ok(Cause::Dialog),
        "url" => Ok(Cause::Url),
        "scheme" => Ok(Cause::Scheme),
        "size" => Ok(Cause::Size),
        "boundary" => Ok(Cause::Boundary),
        _ => Err(EventRefused::NotAnEvent),
    }
}

fn cause_of(alloc: Global, tokens: &[Token]) -> Result<Cause, EventRefused>
    ensures reads { Reads result (cause_of tokens.now) }
    ensures fits { IfOk result IsCause }
{
    match tokens {
        [] => Err(EventRefused::NotAnEvent),
        [word, rest @ ..] => cause_by(alloc, word.text.as_str(), rest),
    }
}

fn submit_by(alloc: Global, n: NodeNo, word: &str, rest: &[Token]) -> Result<Event, EventRefused>
    requires { IsNumber n }
    ensures reads { Reads result (submit_by n word.now rest.now) }
    ensures fits { IfOk result IsEvent }
{
    match word {
        "get" => get_of(alloc, n, rest),
        "post" => post_of(alloc, n, rest),
        "blocked" => Ok(Event::SubmitBlocked(n, cause_of(alloc, rest)?)),
        _ => Err(EventRefused::NotAnEvent),
    }
}

pub(crate) fn submit_of(alloc: Global, tokens: &[Token]) -> Result<Event, EventRefused>
    ensures reads { Reads result (submit_of tokens.now) }
    ensures fits { IfOk result IsEvent }
{
    match tokens {
        [n, word, rest @ ..] => {
            let n = node_in(n.text.as_str());
            submit_by(alloc, n, word.text.as_str(), rest)
        }
        _ => Err(EventRefused::NotAnEvent),
    }
}
