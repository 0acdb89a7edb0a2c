//! Local replies: pages by templates (Privoxy's manual, "Privoxy's Template Files"), and the heads that they are returned with.
#![tactic(auto)]

ghost use Rattle.std.specs.Prelude.{◌≡◌, ◌∷◌, []};
ghost use Rattle.px_templates.specs.declared.pages.Page.TheVariants as page;

mod assembling;
mod conditions;
mod faults;
mod fronts;
mod lines;
mod pages;
mod replies;
mod runs;
mod symbols;
mod templates;

pub use assembling::included_names;
pub use faults::TemplateFault;
pub use pages::{PAGES, Page, built_in};
pub use replies::{Local, local_reply};
pub use symbols::Symbols;
pub use templates::Template;

/// What the constant of this crate is: the pages, in the order in which their templates are kept.
pub fn constants()
    ensures { PAGES ≡ page.Blocked ∷ page.ConnectFailed ∷ page.NoSuchDomain ∷ page.ForwardingFailed ∷ page.NoServerData ∷ page.InvalidRequest
        ∷ page.HeadTooLong ∷ page.BadReply ∷ page.SendFailed ∷ page.ConnectDenied ∷ page.BadRewrite ∷ [] }
{}
