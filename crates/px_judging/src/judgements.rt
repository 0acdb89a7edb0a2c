// What is done for a request.
use crate::replies::LocalReply;
use px_base::Text;
use px_decide::Route;
use px_notes::{Asked, Message};
use px_patterns::Url;

/// A request that is sent on: what is sent, and what it asked for, by which its answer is returned.
#[derive(Drop)]
pub struct Errand {
    pub message: Message,
    pub asked: Asked,
}

/// What is planned for a request that is sent on: its destination, where to, and the errand.
#[derive(Drop)]
pub struct Plan {
    /// The URL of the destination, which a header filter may have changed.
    pub url: Url,
    pub route: Route,
    pub errand: Errand,
    /// Whether a page in place of the answer has no body, as in a reply to HEAD.
    pub bodiless: bool,
}

/// A tunnel: its destination, where to, and what is written to the link and to the client before anything is carried.
#[derive(Drop)]
pub struct TunnelPlan {
    pub url: Url,
    pub route: Route,
    /// The head that asks a parent for the tunnel, empty on a direct route.
    pub head: Text,
    /// The head that tells the client that the tunnel stands, empty where a parent answers.
    pub greeting: Text,
}

/// What is done for a request.
#[derive(Drop)]
pub enum Judgement {
    /// It is answered here, without a dial.
    Local(LocalReply),
    /// It is sent on.
    Forward(Plan),
    /// It is a tunnel.
    Tunnel(TunnelPlan),
}
