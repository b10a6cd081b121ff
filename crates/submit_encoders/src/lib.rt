//! Entry lists as bodies of requests: urlencoded, plain and multipart (HTML Standard, section "Form submission
//! algorithm"; RFC 7578).
#![tactic(auto)]

mod cuts;
mod laws;
mod pairs;
mod parts;
mod plain_text;
mod refused;
mod written;

pub use laws::{no_value_holds_the_boundary, only_the_frame_begins_with_the_delimiter};
pub use pairs::urlencoded;
pub use parts::multipart;
pub use plain_text::plain;
pub use refused::PartRefused;
