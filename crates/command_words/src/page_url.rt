// URLs at which a page may stand.
ghost use Rattle.std.specs.Prelude.{◌≡◌, IfOk};
ghost use Rattle.url.specs.Parser.{Gives, Parsed};
ghost use Rattle.url.specs.Parts.{Parts};
ghost use Rattle.command_words.specs.Words.{is_of_web, is_page_url};

use ce_base::NoMemory;
use form_submission::is_web;
use std::alloc::Global;
use url::{ParseError, ParseResult, Url};

// How many bytes a URL may have.
const MOST_URL: usize = 4096;

// Whether a text is the URL of a page of the web. Want of memory, and of room for a URL of 4 GB, is `NoMemory`.
pub(crate) fn is_page_url(alloc: Global, text: &str) -> Result<bool, NoMemory>
    ensures { IfOk result (λ is. is ≡ is_page_url text.now) }
{
    if text.len() > MOST_URL {
        return Ok(false);
    }
    is_of_web(Url::parse(alloc, text))
}

// Whether a text parsed as a URL of the web.
fn is_of_web(parsed: ParseResult<Url>) -> Result<bool, NoMemory>
    ensures { (expected : Parsed Parts) → Gives parsed expected → IfOk result (λ is. is ≡ is_of_web expected) }
{
    match parsed {
        Ok(url) => Ok(is_web(&url)),
        Err(ParseError::OutOfMemory) => Err(NoMemory),
        Err(ParseError::Overflow) => Err(NoMemory),
        Err(_) => Ok(false),
    }
}
