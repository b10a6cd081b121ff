// The replies of lines.
ghost use Rattle.std.specs.Prelude.{◌≡◌, IfOk};
ghost use Rattle.event_reader.specs.IsEvent.{IsAnswer, IsEvent};
ghost use Rattle.event_reader.specs.Read.{Reads};
ghost use Rattle.event_reader.specs.Replies.{answered_of, bad_named, is_reply_word, replied, reply_by, reply_of, was_bad_of};

use crate::EventRefused;
use crate::answers::answer_of;
use crate::parts::fault_of;
use ce_events::{Answer, Event};
use rule_tokens::{Bad, Token};
use std::alloc::Global;

fn bad_named(word: &str) -> Option<Bad>
    ensures { result ≡ bad_named word.now }
{
    match word {
        "long" => Some(Bad::Long),
        "utf8" => Some(Bad::Utf8),
        "quote" => Some(Bad::Quote),
        "escape" => Some(Bad::Escape),
        "word" => Some(Bad::Word),
        "arity" => Some(Bad::Arity),
        "place" => Some(Bad::Place),
        _ => None,
    }
}

fn was_bad_of(line: u64, tokens: &[Token]) -> Result<Event, EventRefused>
    ensures reads { Reads result (was_bad_of line tokens.now) }
    ensures fits { IfOk result IsEvent }
{
    match tokens {
        [word] => match bad_named(word.text.as_str()) {
            Some(bad) => Ok(Event::WasBad(line, bad)),
            None => Err(EventRefused::NotAnEvent),
        },
        _ => Err(EventRefused::NotAnEvent),
    }
}

fn replied(line: u64, answer: Answer) -> Event
    requires { IsAnswer answer }
    ensures same { result ≡ replied line answer }
    ensures fits { IsEvent result }
{
    match answer {
        Answer::Node(n) => Event::Gave(line, n),
        answer => Event::Answered(line, answer),
    }
}

fn answered_of(alloc: Global, line: u64, tokens: &[Token]) -> Result<Event, EventRefused>
    ensures reads { Reads result (answered_of line tokens.now) }
    ensures fits { IfOk result IsEvent }
{
    Ok(replied(line, answer_of(alloc, tokens)?))
}

fn is_reply_word(word: &str) -> bool
    ensures { result ≡ is_reply_word word.now }
{
    word == "ok" || word == "ignored" || word == "throw" || word == "bad"
}

fn reply_by(alloc: Global, line: u64, word: &str, rest: &[Token]) -> Result<Event, EventRefused>
    ensures reads { Reads result (reply_by line word.now rest.now) }
    ensures fits { IfOk result IsEvent }
{
    match word {
        "ok" => Ok(Event::Fine(line)),
        "ignored" => Ok(Event::Ignored(line)),
        "throw" => Ok(Event::Threw(line, fault_of(alloc, rest)?)),
        "bad" => was_bad_of(line, rest),
        _ => Err(EventRefused::NotAnEvent),
    }
}

pub(crate) fn reply_of(alloc: Global, line: u64, tokens: &[Token]) -> Result<Event, EventRefused>
    ensures reads { Reads result (reply_of line tokens.now) }
    ensures fits { IfOk result IsEvent }
{
    match tokens {
        [] => Err(EventRefused::NotAnEvent),
        [first, rest @ ..] => {
            let word = first.text.as_str();
            if first.quoted || !is_reply_word(word) {
                return answered_of(alloc, line, tokens);
            }
            reply_by(alloc, line, word, rest)
        }
    }
}
