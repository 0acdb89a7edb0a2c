//! The pages of the proxy's own, which a browser is shown at `http://config.privoxy.org/` and `http://p.p/`.
#![tactic(auto)]

mod boards;
mod insides;
mod pages;
mod paths;
mod statuses;
mod url_infos;
mod wishes;

pub use boards::BoardPages;
pub use insides::{BarePages, Pages};
pub use pages::inside_page;
pub use url_infos::url_fault_line;
