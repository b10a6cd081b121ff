// What a session is run with.
use form_submission::Site;

/// The settings of a session.
#[derive(Drop)]
pub struct Settings {
    /// The units of fuel that it may spend.
    pub fuel: u32,
    /// Where its page stands.
    pub site: Site,
}
