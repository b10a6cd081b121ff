// Schemes of URLs.
ghost use Rattle.std.specs.Prelude.{◌≡◌};
ghost use Rattle.form_submission.specs.Plans.{is_web};

use url::Url;

/// Whether a URL is one of the web: its scheme is `http` or `https`.
pub fn is_web(url: &Url) -> bool
    ensures { result ≡ is_web url.now }
{
    let scheme = url.scheme();
    scheme == "http" || scheme == "https"
}
