// Cuts bytes in two, at a byte or at a text.
ghost use Rattle.std.specs.Prelude.{◌≡◌, ◌<◌, ◌+◌, length, option_map, IfSome};
ghost use Rattle.body_grammars.specs.Cuts.{behind, cut_at, cut_text, lacks, seen_cut};

/// What stands before the first byte of this value and what stands behind it. None: it stands nowhere.
#[tactic(auto, unfolding(crate::specs::Cuts::cut_at))]
pub(crate) fn cut_at(bytes: &[u8], c: u8) -> Option<(&[u8], &[u8])>
    ensures cut { seen_cut result ≡ cut_at c bytes.now }
    ensures less { IfSome result (λ x. length x.1.now < length bytes.now) }
{
    for i in 0..bytes.len() {
        if bytes[i] == c {
            return Some((&bytes[..i], &bytes[i + 1..]));
        }
    }
    None
}

/// What follows the front. None: the bytes do not begin with it.
#[tactic(auto, unfolding(crate::specs::Cuts::behind))]
pub(crate) fn behind<'a>(bytes: &'a [u8], front: &[u8]) -> Option<&'a [u8]>
    ensures behind { option_map (λ x. x.now) result ≡ behind front.now bytes.now }
    ensures less { IfSome result (λ x. length x.now + length front.now ≡ length bytes.now) }
{
    if bytes.starts_with(front) {
        Some(&bytes[front.len()..])
    } else {
        None
    }
}

/// What stands before the text, where it occurs first, and what stands behind it there. None: it occurs nowhere.
#[tactic(auto, using(crate::proofs::TextCuts::text_here, crate::proofs::TextCuts::text_later))]
pub(crate) fn cut_text<'a>(bytes: &'a [u8], text: &[u8]) -> Option<(&'a [u8], &'a [u8])>
    ensures cut { seen_cut result ≡ cut_text text.now bytes.now }
{
    for i in 0..bytes.len() {
        if let Some(rest) = behind(&bytes[i..], text) {
            return Some((&bytes[..i], rest));
        }
    }
    None
}

/// Whether a byte stands nowhere.
pub(crate) fn lacks(bytes: &[u8], c: u8) -> bool
    ensures { result ≡ lacks c bytes.now }
{
    match cut_at(bytes, c) {
        None => true,
        Some(_) => false,
    }
}
