// Where a page stands.
use ce_base::Text;

/// Where the page of a session stands: what its submissions are made of beside the tree.
#[derive(Drop)]
pub struct Site {
    /// The page's URL (HTML Standard, section "Document base URLs"). Actions are parsed against it.
    pub url: Text,
    /// The boundary of multipart bodies (RFC 7578, section 4.1).
    pub boundary: Text,
}
