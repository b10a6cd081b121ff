// Where a submission goes.
ghost use Rattle.std.specs.Prelude.{◌≡◌, Ok, Some, if◌then◌else◌, IfOk, OnOk};
ghost use Rattle.form_controls.specs.Texts.{is_empty};
ghost use Rattle.form_submission.specs.Plans.{action_url};
ghost use Rattle.url.specs.Parser.{Gives, Parsed, parse_url};
ghost use Rattle.url.specs.Parts.{Parts};
ghost use Rattle.url.specs.Setters as spec;
ghost use Rattle.submit_plan.specs.Actions.{Finds};

use ce_base::NoMemory;
use std::alloc::Global;
use url::{ParseError, ParseResult, Url};

/// The URL, or none where the text is none. Want of memory, and of room for a URL of 4 GB, is `NoMemory`.
fn found(parsed: ParseResult<Url>) -> Result<Option<Url>, NoMemory>
    ensures { (expected : Parsed Parts) → Gives parsed expected → IfOk result (λ url. Finds url expected) }
{
    match parsed {
        Ok(url) => Ok(Some(url)),
        Err(ParseError::OutOfMemory) => Err(NoMemory),
        Err(ParseError::Overflow) => Err(NoMemory),
        Err(_) => Ok(None),
    }
}

/// The URL of an action: the page's own for the empty one; another one is parsed against it. None exactly where it does not
/// parse (HTML Standard, section "Form submission algorithm", "parsed action").
pub(crate) fn action_url(alloc: Global, page: &str, action: &str) -> Result<Option<Url>, NoMemory>
    ensures { IfOk result (λ url. Finds url (action_url page.now action.now)) }
{
    match found(Url::parse(alloc, page))? {
        None => Ok(None),
        Some(base) => joined(base, action),
    }
}

/// The URL itself for the empty text; another text is parsed against it.
fn joined(base: Url, action: &str) -> Result<Option<Url>, NoMemory>
    ensures { IfOk result (λ url. Finds url (if is_empty action.now then Ok base else parse_url (Some base) action.now)) }
{
    if action.is_empty() {
        return Ok(Some(base));
    }
    found(base.join(action))
}

/// Sets the query of a URL, to the empty text too (URL Standard, section "URL representation", "query").
pub(crate) fn set_query(url: &mut Url, query: &str) -> Result<(), NoMemory>
    ensures { OnOk result (url.new ≡ spec.set_query url.old (Some query.now)) }
{
    match url.set_query(Some(query)) {
        Ok(()) => Ok(()),
        Err(_) => Err(NoMemory),
    }
}
