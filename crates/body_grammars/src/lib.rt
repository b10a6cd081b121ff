//! Bodies of requests read back as entry lists: urlencoded, plain text and multipart, each exactly the bytes that are the body
//! of a list (URL Standard, section "application/x-www-form-urlencoded"; HTML Standard, section "Plain text form data";
//! RFC 7578). `specs/Bodies.antt` says which these are; some of them no encoder writes, as `a=%62`.
#![tactic(auto)]

mod cuts;
mod laws;
mod multipart;
mod parts;
mod plain;
mod refused;
mod spelled;
mod texts;
mod urlencoded;
mod worked;

pub use laws::{multipart_is_read_back, one_list, plain_is_read_back, urlencoded_is_read_back};
pub use multipart::read_multipart;
pub use plain::read_plain;
pub use refused::BodyRefused;
pub use urlencoded::read_urlencoded;
pub use worked::worked_bodies;
