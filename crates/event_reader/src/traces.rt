// The lines of a trace.
ghost use Rattle.std.specs.Prelude.{◌≡◌, IfOk};
ghost use Rattle.event_reader.specs.IsEvent.{IsEvent, IsNumber};
ghost use Rattle.event_reader.specs.Read.{Reads};
ghost use Rattle.event_reader.specs.Traces.{enqueued_of, trace_by, trace_of, what_named};

use crate::EventRefused;
use crate::parts::{node_in, number_in};
use ce_base::{NodeNo, QueueNo, ReactionNo};
use ce_events::Event;
use rule_tokens::{CallName, CallOrUpgrade, Token};

fn what_named(word: &str) -> Option<CallOrUpgrade>
    ensures { result ≡ what_named word.now }
{
    if word == "upgrade" {
        return Some(CallOrUpgrade::Upgrade);
    }
    match CallName::named(word) {
        None => None,
        Some(name) => Some(CallOrUpgrade::Call(name)),
    }
}

fn enqueued_of(r: ReactionNo, tokens: &[Token]) -> Result<Event, EventRefused>
    requires { IsNumber r }
    ensures reads { Reads result (enqueued_of r tokens.now) }
    ensures fits { IfOk result IsEvent }
{
    match tokens {
        [n, what, q] => match what_named(what.text.as_str()) {
            None => Err(EventRefused::NotAnEvent),
            Some(what) => {
                let n = node_in(n.text.as_str());
                let q = QueueNo(number_in(q.text.as_str().as_bytes()));
                Ok(Event::Enqueued(r, n, what, q))
            }
        },
        _ => Err(EventRefused::NotAnEvent),
    }
}

fn trace_by(word: &str, number: u64, n: NodeNo, rest: &[Token]) -> Result<Event, EventRefused>
    requires number { IsNumber number }
    requires node { IsNumber n }
    ensures reads { Reads result (trace_by word.now number n rest.now) }
    ensures fits { IfOk result IsEvent }
{
    match word {
        "open" => Ok(Event::QueueOpened(QueueNo(number))),
        "enq" => enqueued_of(ReactionNo(number), rest),
        "drain" => Ok(Event::DrainBegun(QueueNo(number))),
        "start" => Ok(Event::Started(ReactionNo(number))),
        "finish" => Ok(Event::Finished(ReactionNo(number))),
        "drop" => Ok(Event::Dropped(ReactionNo(number))),
        "close" => Ok(Event::QueueClosed(QueueNo(number))),
        "up" => Ok(Event::UpgradeBegun(n)),
        "done" => Ok(Event::UpgradeDone(n)),
        "threw" => Ok(Event::UpgradeThrew(n)),
        _ => Err(EventRefused::NotAnEvent),
    }
}

pub(crate) fn trace_of(tokens: &[Token]) -> Result<Event, EventRefused>
    ensures reads { Reads result (trace_of tokens.now) }
    ensures fits { IfOk result IsEvent }
{
    match tokens {
        [word, number, rest @ ..] => {
            let n = node_in(number.text.as_str());
            let number = number_in(number.text.as_str().as_bytes());
            trace_by(word.text.as_str(), number, n, rest)
        }
        _ => Err(EventRefused::NotAnEvent),
    }
}
