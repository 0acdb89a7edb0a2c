// A kept link is looked at before it is lent again.
ghost use Rattle.std.specs.Prelude.{◌≡◌, [], find, IsTrue, IfSome, false, length};
ghost use Rattle.px_base.specs.Sources.{SourceGoesOn};
ghost use Rattle.px_base.specs.Dials.{DialerGoesOn};
ghost use Rattle.px_link_pool.specs.Balances.{HangsUpOthers};
ghost use Rattle.px_link_pool.specs.Shelves.{items, in_front, is_at, without_first};
ghost use Rattle.px_link_pool.specs.Standing.{kept_state, kept_states, is_ready, are_ready, are_told};

use crate::shelves::{KeptLink, Shelf, take_at};
use px_base::{LocalDialer, LocalSource, Rests};

/// How a pool looks at the source of a kept link. It is a trait of the look and not of the source: the checker would take the
/// local source of a bound on a dialer's source for another one than the dialer's.
pub trait Sees<S: LocalSource>: Send {
    /// Whether the link can't be used again. A source that tells its bytes has never ended so, and stays what it is.
    fn has_ended(source: &mut S) -> bool
        ensures told { IsTrue (S.state source.old).tells → (result ≡ false) × (source.new ≡ source.old) }
        ensures goes_on { SourceGoesOn (S.state source.old) (S.state source.new) };
}

/// The look that a source that may rest offers itself.
pub struct Look;

impl<S: Rests> Sees<S> for Look {
    fn has_ended(source: &mut S) -> bool {
        source.has_ended()
    }
}

/// The look as one thread knows it: `Sees` without `Send`.
pub trait LocalSees<S: LocalSource> {
    fn has_ended(source: &mut S) -> bool
        ensures told { IsTrue (S.state source.old).tells → (result ≡ false) × (source.new ≡ source.old) }
        ensures goes_on { SourceGoesOn (S.state source.old) (S.state source.new) };
}

impl<S: LocalSource, L: Sees<S>> LocalSees<S> for L {
    fn has_ended(source: &mut S) -> bool {
        <L as Sees<S>>::has_ended(source)
    }
}

/// The link, if it can be used again. One that has ended is hung up.
fn look_at<D: LocalDialer>(
    inner: &mut D,
    link: KeptLink<D::In, D::Out>,
) -> Option<KeptLink<D::In, D::Out>>
where
    Look: LocalSees<D::In>,
    requires told { IsTrue (D.state inner.old).tells → IsTrue (D.In.state link.source).tells }
    requires ready { IsTrue (is_ready (kept_state D.In.state D.Out.state link)) }
    ensures same_link { IsTrue (D.state inner.old).tells → result ≡ Some link }
    ensures same { IsTrue (D.state inner.old).tells → D.state inner.new ≡ D.state inner.old }
    ensures ready { IfSome result (λ k. IsTrue (is_ready (kept_state D.In.state D.Out.state k))) }
    ensures host { IfSome result (λ k. k.host ≡ link.host) }
    ensures port { IfSome result (λ k. k.port ≡ link.port) }
    ensures others { HangsUpOthers (D.state inner.old) (D.state inner.new) 1 (length (in_front result [])) }
    ensures tells { (D.state inner.new).tells ≡ (D.state inner.old).tells }
    ensures names { (D.state inner.new).names ≡ (D.state inner.old).names }
    ensures reach { (D.state inner.new).reach ≡ (D.state inner.old).reach }
    ensures goes_on { DialerGoesOn (D.state inner.old) (D.state inner.new) }
{
    let KeptLink {
        mut source,
        sink,
        host,
        port,
    } = link;
    if <Look as LocalSees<D::In>>::has_ended(&mut source) {
        inner.hang_up(source, sink);
        None
    } else {
        Some(KeptLink {
            source,
            sink,
            host,
            port,
        })
    }
}

/// Takes the first link of a place that can be used again. Those before it have ended, and are hung up.
pub fn take_resting<D: LocalDialer>(
    inner: &mut D,
    shelf: Shelf<KeptLink<D::In, D::Out>>,
    host: &[u8],
    port: u16,
) -> (
    Shelf<KeptLink<D::In, D::Out>>,
    Option<KeptLink<D::In, D::Out>>,
)
where
    Look: LocalSees<D::In>,
    requires told { IsTrue (D.state inner.old).tells → IsTrue (are_told (kept_states D.In.state D.Out.state (items shelf))) }
    requires ready { IsTrue (are_ready (kept_states D.In.state D.Out.state (items shelf))) }
    ensures taken { IsTrue (D.state inner.old).tells → result.1 ≡ find (is_at host.now port) (items shelf) }
    ensures others { IsTrue (D.state inner.old).tells → items result.0 ≡ without_first (is_at host.now port) (items shelf) }
    ensures same { IsTrue (D.state inner.old).tells → D.state inner.new ≡ D.state inner.old }
    ensures ready { IfSome result.1 (λ k. IsTrue (is_ready (kept_state D.In.state D.Out.state k))) }
    ensures still_ready { IsTrue (are_ready (kept_states D.In.state D.Out.state (items result.0))) }
    ensures host { IfSome result.1 (λ k. k.host ≡ host.now) }
    ensures port { IfSome result.1 (λ k. k.port ≡ port) }
    ensures hung_up { HangsUpOthers (D.state inner.old) (D.state inner.new) (length (items shelf)) (length (in_front result.1 (items result.0))) }
    ensures tells { (D.state inner.new).tells ≡ (D.state inner.old).tells }
    ensures names { (D.state inner.new).names ≡ (D.state inner.old).names }
    ensures reach { (D.state inner.new).reach ≡ (D.state inner.old).reach }
    ensures goes_on { DialerGoesOn (D.state inner.old) (D.state inner.new) }
{
    let mut left = shelf;
    'looks: loop {
        let (rest, found) = take_at(left, host, port);
        let Some(link) = found else {
            return (rest, None);
        };
        if let Some(link) = look_at(inner, link) {
            return (rest, Some(link));
        }
        left = rest;
    }
}
