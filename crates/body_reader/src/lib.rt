//! A whole run of the reader of bodies, from the words and the source to the sink and a status: which type of body the words
//! ask for, and its entries as lines.
#![tactic(auto)]

mod body_type;
mod listing;
mod run;
mod status;

pub use body_grammars::{BodyRefused, read_multipart, read_plain, read_urlencoded};
pub use body_type::BodyType;
pub use form_submission::is_boundary;
pub use run::read_run;
pub use status::ReadStatus;
