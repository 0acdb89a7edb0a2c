// The routes of requests.
use px_base::Text;

/// Where a request is sent.
#[derive(Drop)]
pub struct Route {
    pub host: Text,
    pub port: u16,
    /// Whether that is a parent, and not the origin.
    pub parent: bool,
}
