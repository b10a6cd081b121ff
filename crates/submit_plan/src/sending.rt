// What is sent to where.
ghost use Rattle.std.specs.Prelude.{◌≡◌, IfOk};
ghost use Rattle.form_submission.specs.Plans.{get, send_by};
ghost use Rattle.submit_plan.specs.Sent.{IsSent, sent};
ghost use Rattle.url.specs.Parser.{Parsed};
ghost use Rattle.url.specs.Parts.{Parts};
ghost use Rattle.submit_plan.specs.Actions.{Finds};
ghost use Rattle.submit_plan.specs.Named.{encoding_meant, method_meant};

use crate::action::set_query;
use crate::attributes::{Encoding, Method};
use crate::body::post;
use crate::size::is_too_large;
use ce_base::{Entries, NoMemory, Text};
use form_submission::{Plan, Why, is_web};
use std::alloc::Global;
use submit_encoders::urlencoded;
use url::Url;

/// A GET of an entry list (HTML Standard, section "Form submission algorithm", "mutate action URL").
fn get(alloc: Global, list: &Entries, url: &mut Url) -> Result<Plan, NoMemory>
    ensures { IfOk result (λ p. p ≡ get list.now url.old) }
{
    let query = urlencoded(alloc, list)?;
    set_query(url, query.as_str())?;
    let text = Text::of(alloc, url.as_str())?;
    Ok(Plan::Get(text))
}

/// An entry list is sent by a method to a URL.
fn send(
    alloc: Global,
    list: &Entries,
    method: Method,
    encoding: Encoding,
    boundary: &str,
    url: &mut Url,
) -> Result<Plan, NoMemory>
    ensures { IfOk result (λ p. p ≡ sent (method_meant method) (encoding_meant encoding) boundary.now list.now url.old) }
{
    match method {
        Method::Get => get(alloc, list, url),
        Method::Post => post(alloc, list, encoding, boundary, url),
        Method::Dialog => Ok(Plan::Blocked(Why::Dialog)),
    }
}

/// The same, where the action parsed, its scheme is one of the web, and the list is not too large.
pub(crate) fn send_to(
    alloc: Global,
    list: &Entries,
    method: Method,
    encoding: Encoding,
    boundary: &str,
    url: Option<Url>,
) -> Result<Plan, NoMemory>
    requires { IsSent method }
    ensures { (parsed : Parsed Parts) → Finds url parsed
        → IfOk result (λ p. p ≡ send_by (method_meant method) (encoding_meant encoding) boundary.now list.now parsed) }
{
    let Some(mut url) = url else {
        return Ok(Plan::Blocked(Why::Url));
    };
    if !is_web(&url) {
        return Ok(Plan::Blocked(Why::Scheme));
    }
    if is_too_large(list) {
        return Ok(Plan::Blocked(Why::Size));
    }
    send(alloc, list, method, encoding, boundary, &mut url)
}
