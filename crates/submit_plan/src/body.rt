// The body of a POST.
ghost use Rattle.std.specs.Prelude.{◌≡◌, ◌++◌, [], codes, IfOk};
ghost use Rattle.form_submission.specs.Attributes as Encodings;
ghost use Rattle.form_submission.specs.declared.plan.Plan.TheVariants as plans;
ghost use Rattle.form_submission.specs.Plans.{post};
ghost use Rattle.url.specs.Parts.{serialize};
ghost use Rattle.submit_plan.specs.Named.{encoding_meant};

use crate::attributes::Encoding;
use ce_base::{Entries, NoMemory, Text};
use form_submission::{Plan, Why};
use std::alloc::Global;
use submit_encoders::{PartRefused, multipart, plain, urlencoded};
use url::Url;

/// A POST of a body of this type.
fn post_of(alloc: Global, url: &Url, media: Text, body: Text) -> Result<Plan, NoMemory>
    ensures { IfOk result (λ p. p ≡ plans.Post (serialize url.now) media body) }
{
    let url = Text::of(alloc, url.as_str())?;
    Ok(Plan::Post { url, media, body })
}

/// The type of a multipart body.
fn multipart_type(alloc: Global, boundary: &str) -> Result<Text, NoMemory>
    ensures { IfOk result (λ t. t ≡ codes "multipart/form-data; boundary=" ++ boundary.now) }
{
    let mut media = String::new(alloc);
    media.push_str("multipart/form-data; boundary=")?;
    media.push_str(boundary)?;
    Ok(Text::from(media))
}

fn post_urlencoded(alloc: Global, list: &Entries, url: &Url) -> Result<Plan, NoMemory>
    ensures { IfOk result (λ p. p ≡ post [] Encodings.Urlencoded list.now url.now) }
{
    let media = Text::of(alloc, "application/x-www-form-urlencoded")?;
    let body = urlencoded(alloc, list)?;
    post_of(alloc, url, media, body)
}

fn post_plain(alloc: Global, list: &Entries, url: &Url) -> Result<Plan, NoMemory>
    ensures { IfOk result (λ p. p ≡ post [] Encodings.PlainText list.now url.now) }
{
    let media = Text::of(alloc, "text/plain")?;
    let body = plain(alloc, list)?;
    post_of(alloc, url, media, body)
}

fn post_multipart(
    alloc: Global,
    list: &Entries,
    boundary: &str,
    url: &Url,
) -> Result<Plan, NoMemory>
    ensures { IfOk result (λ p. p ≡ post boundary.now Encodings.Multipart list.now url.now) }
{
    match multipart(alloc, list, boundary) {
        Ok(body) => {
            let media = multipart_type(alloc, boundary)?;
            post_of(alloc, url, media, body)
        }
        Err(PartRefused::Occurs) => Ok(Plan::Blocked(Why::Boundary)),
        Err(PartRefused::NoMemory) => Err(NoMemory),
    }
}

/// A POST of an entry list (HTML Standard, section "Form submission algorithm", "submit as entity body").
pub(crate) fn post(
    alloc: Global,
    list: &Entries,
    encoding: Encoding,
    boundary: &str,
    url: &Url,
) -> Result<Plan, NoMemory>
    ensures { IfOk result (λ p. p ≡ post boundary.now (encoding_meant encoding) list.now url.now) }
{
    match encoding {
        Encoding::Urlencoded => post_urlencoded(alloc, list, url),
        Encoding::PlainText => post_plain(alloc, list, url),
        Encoding::Multipart => post_multipart(alloc, list, boundary, url),
    }
}
