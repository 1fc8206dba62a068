use crate::Sources;
use bf_case::Target;
use bf_id::Id;
use bf_links::Links;

/// A leaf to come, without cells.
#[derive(Drop)]
pub struct Proxy {
    pub id: Id,
    /// What becomes of the leaves of which it comes.
    pub origin: Target,
    pub sources: Sources,
    /// The proxies that touch it.
    pub links: Links,
}
