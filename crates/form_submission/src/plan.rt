// What a submission does.
use ce_base::{Nodes, Text};

/// What a submission sends, or what blocks it (HTML Standard, section "Form submission algorithm").
#[derive(Drop)]
pub enum Plan {
    /// A GET of this URL.
    Get(Text),
    /// A POST.
    Post {
        /// Where it goes.
        url: Text,
        /// The type of the body.
        media: Text,
        /// What is sent.
        body: Text,
    },
    /// Nothing is sent.
    Blocked(Why),
}

/// What blocks a submission: the first of these that holds.
#[derive(Drop)]
pub enum Why {
    /// The form is not in the page's document, nor in a shadow tree of it.
    Disconnected,
    /// These controls are invalid, in tree order.
    Invalid(Nodes),
    /// The method is `dialog`.
    Dialog,
    /// The action does not parse as a URL.
    Url,
    /// The scheme of the action is neither http nor https.
    Scheme,
    /// The entries are larger than 16,777,216, counted in bytes and one more for each entry.
    Size,
    /// The boundary of a multipart body occurs in an entry.
    Boundary,
}
