// A reply that differs from another one.
use circus_header::Reply;

/// What a node replied.
#[derive(Drop)]
pub(crate) struct Replied {
    pub node: u16,
    pub reply: Reply,
}
