// Bytes as a text.
ghost use Rattle.body_grammars.specs.Gives.{Gives};
ghost use Rattle.body_grammars.specs.Cuts.{only_utf8};

use crate::BodyRefused;
use ce_base::Text;
use std::alloc::Global;

/// The bytes as a text. NotABody exactly where they are no UTF-8.
#[tactic(auto, using(ce_base::proofs::Utf8::utf8_tests))]
pub(crate) fn text_of(alloc: Global, bytes: &[u8]) -> Result<Text, BodyRefused>
    ensures { Gives result (only_utf8 bytes.now) }
{
    match std::str::from_utf8(bytes) {
        Ok(text) => Ok(Text::of(alloc, text)?),
        Err(_) => Err(BodyRefused::NotABody),
    }
}
