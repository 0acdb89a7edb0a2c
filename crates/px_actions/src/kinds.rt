// The kinds of actions (the manual's chapter on actions files).
ghost use Rattle.std.specs.Prelude.{◌≡◌, ◌<◌, Some};
ghost use Rattle.px_actions.specs.Kinds.{entry_of, kind_named};

use px_base::same_without_case;

/// What updates a kind of action takes.
#[derive(Clone, Copy, Debug, PartialEq, Eq)]
pub enum Shape {
    /// On or off.
    Flag,
    /// One text, or none.
    Single,
    /// A list of texts without repeats.
    Multi,
}

/// What the parameter of a kind must be. White space at its ends is dropped before.
#[derive(Clone, Copy, Debug, PartialEq, Eq)]
pub enum Rule {
    /// A flag takes no parameter.
    Nothing,
    /// A text that isn't empty.
    Text,
    /// A text.
    TextOrEmpty,
    /// `block` or `add`.
    BlockOrAdd,
    /// `simple-check` or `check-decoded-url`.
    RedirectCheck,
    /// `block`, `reset-to-request-time` or `randomize`.
    ModifiedDate,
    /// `forward`, white space, and `.` or the host and port of a parent.
    Parent,
    /// A list of ports that isn't empty.
    Ports,
    /// One to nine digits, at most 100,000,000.
    Minutes,
    /// A field line whose name isn't held back from requests.
    AddedField,
}

/// A kind of action, in byte order of the names.
#[derive(Clone, Copy, Debug, PartialEq, Eq)]
pub enum Kind {
    /// `add-header`: adds this field to a request.
    AddHeader,
    /// `block`: answers in place of the origin, with this reason.
    Block,
    /// `change-x-forwarded-for`: removes the X-Forwarded-For field of a request, or adds to it.
    ChangeXForwardedFor,
    /// `client-body-filter`: has no effect.
    ClientBodyFilter,
    /// `client-body-tagger`: has no effect.
    ClientBodyTagger,
    /// `client-header-filter`: runs this filter on the head of a request.
    ClientHeaderFilter,
    /// `client-header-tagger`: runs this tagger on the head of a request.
    ClientHeaderTagger,
    /// `content-type-overwrite`: sets the Content-Type field of an answer that is a text.
    ContentTypeOverwrite,
    /// `crunch-client-header`: removes the fields of a request whose line holds this text.
    CrunchClientHeader,
    /// `crunch-if-none-match`: removes the If-None-Match field of a request.
    CrunchIfNoneMatch,
    /// `crunch-incoming-cookies`: removes the Set-Cookie fields of an answer.
    CrunchIncomingCookies,
    /// `crunch-outgoing-cookies`: removes the Cookie fields of a request.
    CrunchOutgoingCookies,
    /// `crunch-server-header`: removes the fields of an answer whose line holds this text.
    CrunchServerHeader,
    /// `deanimate-gifs`: has no effect.
    DeanimateGifs,
    /// `delay-response`: has no effect.
    DelayResponse,
    /// `downgrade-http-version`: sends a request on as HTTP/1.0.
    DowngradeHttpVersion,
    /// `external-filter`: has no effect.
    ExternalFilter,
    /// `fast-redirects`: redirects to a URL that stands in the path.
    FastRedirects,
    /// `filter`: runs this filter on the body of an answer.
    Filter,
    /// `force-text-mode`: takes every answer as a text.
    ForceTextMode,
    /// `forward-override`: sends a request to this parent, or directly.
    ForwardOverride,
    /// `handle-as-empty-document`: blocks with an empty document.
    HandleAsEmptyDocument,
    /// `handle-as-image`: blocks with an image.
    HandleAsImage,
    /// `hide-accept-language`: sets or removes the Accept-Language field of a request.
    HideAcceptLanguage,
    /// `hide-content-disposition`: sets or removes the Content-Disposition field of an answer.
    HideContentDisposition,
    /// `hide-from-header`: sets or removes the From field of a request.
    HideFromHeader,
    /// `hide-if-modified-since`: removes the If-Modified-Since field of a request, if it is `block`.
    HideIfModifiedSince,
    /// `hide-referrer`: sets or removes the Referer field of a request.
    HideReferrer,
    /// `hide-user-agent`: sets the User-Agent field of a request.
    HideUserAgent,
    /// `https-inspection`: has no effect.
    HttpsInspection,
    /// `ignore-certificate-errors`: has no effect.
    IgnoreCertificateErrors,
    /// `limit-connect`: allows tunnels to these ports alone.
    LimitConnect,
    /// `limit-cookie-lifetime`: caps the lifetime of the cookies of an answer.
    LimitCookieLifetime,
    /// `overwrite-last-modified`: sets or removes the Last-Modified field of an answer.
    OverwriteLastModified,
    /// `prevent-compression`: removes the Accept-Encoding field of a request.
    PreventCompression,
    /// `redirect`: redirects to a target, or to what a job makes of the URL.
    Redirect,
    /// `server-header-filter`: runs this filter on the head of an answer.
    ServerHeaderFilter,
    /// `server-header-tagger`: runs this tagger on the head of an answer.
    ServerHeaderTagger,
    /// `session-cookies-only`: makes the cookies of an answer session cookies.
    SessionCookiesOnly,
    /// `set-image-blocker`: says which image a blocked image becomes.
    SetImageBlocker,
    /// `suppress-tag`: tags that taggers don't make.
    SuppressTag,
}

/// All kinds, in byte order of the names.
pub const KINDS: [Kind; 41] = [
    Kind::AddHeader,
    Kind::Block,
    Kind::ChangeXForwardedFor,
    Kind::ClientBodyFilter,
    Kind::ClientBodyTagger,
    Kind::ClientHeaderFilter,
    Kind::ClientHeaderTagger,
    Kind::ContentTypeOverwrite,
    Kind::CrunchClientHeader,
    Kind::CrunchIfNoneMatch,
    Kind::CrunchIncomingCookies,
    Kind::CrunchOutgoingCookies,
    Kind::CrunchServerHeader,
    Kind::DeanimateGifs,
    Kind::DelayResponse,
    Kind::DowngradeHttpVersion,
    Kind::ExternalFilter,
    Kind::FastRedirects,
    Kind::Filter,
    Kind::ForceTextMode,
    Kind::ForwardOverride,
    Kind::HandleAsEmptyDocument,
    Kind::HandleAsImage,
    Kind::HideAcceptLanguage,
    Kind::HideContentDisposition,
    Kind::HideFromHeader,
    Kind::HideIfModifiedSince,
    Kind::HideReferrer,
    Kind::HideUserAgent,
    Kind::HttpsInspection,
    Kind::IgnoreCertificateErrors,
    Kind::LimitConnect,
    Kind::LimitCookieLifetime,
    Kind::OverwriteLastModified,
    Kind::PreventCompression,
    Kind::Redirect,
    Kind::ServerHeaderFilter,
    Kind::ServerHeaderTagger,
    Kind::SessionCookiesOnly,
    Kind::SetImageBlocker,
    Kind::SuppressTag,
];

/// What updates a kind takes.
#[derive(Clone, Copy)]
struct Form {
    shape: Shape,
    rule: Rule,
}

impl Form {
    fn flag() -> Form
        ensures shape { result.shape ≡ Shape.Flag }
        ensures rule { result.rule ≡ Rule.Nothing }
    {
        Form {
            shape: Shape::Flag,
            rule: Rule::Nothing,
        }
    }

    fn single(rule: Rule) -> Form
        ensures shape { result.shape ≡ Shape.Single }
        ensures rule { result.rule ≡ rule }
    {
        Form {
            shape: Shape::Single,
            rule,
        }
    }

    fn multi(rule: Rule) -> Form
        ensures shape { result.shape ≡ Shape.Multi }
        ensures rule { result.rule ≡ rule }
    {
        Form {
            shape: Shape::Multi,
            rule,
        }
    }
}

impl Kind {
    #[tactic(auto, unfolding(crate::specs::Kinds::entry_of))]
    fn spelling(self) -> &'static str
        ensures { result.now ≡ (entry_of self).name }
    {
        match self {
            Kind::AddHeader => "add-header",
            Kind::Block => "block",
            Kind::ChangeXForwardedFor => "change-x-forwarded-for",
            Kind::ClientBodyFilter => "client-body-filter",
            Kind::ClientBodyTagger => "client-body-tagger",
            Kind::ClientHeaderFilter => "client-header-filter",
            Kind::ClientHeaderTagger => "client-header-tagger",
            Kind::ContentTypeOverwrite => "content-type-overwrite",
            Kind::CrunchClientHeader => "crunch-client-header",
            Kind::CrunchIfNoneMatch => "crunch-if-none-match",
            Kind::CrunchIncomingCookies => "crunch-incoming-cookies",
            Kind::CrunchOutgoingCookies => "crunch-outgoing-cookies",
            Kind::CrunchServerHeader => "crunch-server-header",
            Kind::DeanimateGifs => "deanimate-gifs",
            Kind::DelayResponse => "delay-response",
            Kind::DowngradeHttpVersion => "downgrade-http-version",
            Kind::ExternalFilter => "external-filter",
            Kind::FastRedirects => "fast-redirects",
            Kind::Filter => "filter",
            Kind::ForceTextMode => "force-text-mode",
            Kind::ForwardOverride => "forward-override",
            Kind::HandleAsEmptyDocument => "handle-as-empty-document",
            Kind::HandleAsImage => "handle-as-image",
            Kind::HideAcceptLanguage => "hide-accept-language",
            Kind::HideContentDisposition => "hide-content-disposition",
            Kind::HideFromHeader => "hide-from-header",
            Kind::HideIfModifiedSince => "hide-if-modified-since",
            Kind::HideReferrer => "hide-referrer",
            Kind::HideUserAgent => "hide-user-agent",
            Kind::HttpsInspection => "https-inspection",
            Kind::IgnoreCertificateErrors => "ignore-certificate-errors",
            Kind::LimitConnect => "limit-connect",
            Kind::LimitCookieLifetime => "limit-cookie-lifetime",
            Kind::OverwriteLastModified => "overwrite-last-modified",
            Kind::PreventCompression => "prevent-compression",
            Kind::Redirect => "redirect",
            Kind::ServerHeaderFilter => "server-header-filter",
            Kind::ServerHeaderTagger => "server-header-tagger",
            Kind::SessionCookiesOnly => "session-cookies-only",
            Kind::SetImageBlocker => "set-image-blocker",
            Kind::SuppressTag => "suppress-tag",
        }
    }

    #[tactic(auto, unfolding(crate::specs::Kinds::entry_of))]
    fn form(self) -> Form
        ensures shape { result.shape ≡ (entry_of self).shape }
        ensures rule { result.rule ≡ (entry_of self).rule }
    {
        match self {
            Kind::AddHeader => Form::multi(Rule::AddedField),
            Kind::Block => Form::single(Rule::TextOrEmpty),
            Kind::ChangeXForwardedFor => Form::single(Rule::BlockOrAdd),
            Kind::ClientBodyFilter => Form::multi(Rule::Text),
            Kind::ClientBodyTagger => Form::multi(Rule::Text),
            Kind::ClientHeaderFilter => Form::multi(Rule::Text),
            Kind::ClientHeaderTagger => Form::multi(Rule::Text),
            Kind::ContentTypeOverwrite => Form::single(Rule::Text),
            Kind::CrunchClientHeader => Form::single(Rule::Text),
            Kind::CrunchIfNoneMatch => Form::flag(),
            Kind::CrunchIncomingCookies => Form::flag(),
            Kind::CrunchOutgoingCookies => Form::flag(),
            Kind::CrunchServerHeader => Form::single(Rule::Text),
            Kind::DeanimateGifs => Form::single(Rule::Text),
            Kind::DelayResponse => Form::single(Rule::Text),
            Kind::DowngradeHttpVersion => Form::flag(),
            Kind::ExternalFilter => Form::multi(Rule::Text),
            Kind::FastRedirects => Form::single(Rule::RedirectCheck),
            Kind::Filter => Form::multi(Rule::Text),
            Kind::ForceTextMode => Form::flag(),
            Kind::ForwardOverride => Form::single(Rule::Parent),
            Kind::HandleAsEmptyDocument => Form::flag(),
            Kind::HandleAsImage => Form::flag(),
            Kind::HideAcceptLanguage => Form::single(Rule::Text),
            Kind::HideContentDisposition => Form::single(Rule::Text),
            Kind::HideFromHeader => Form::single(Rule::Text),
            Kind::HideIfModifiedSince => Form::single(Rule::Text),
            Kind::HideReferrer => Form::single(Rule::Text),
            Kind::HideUserAgent => Form::single(Rule::Text),
            Kind::HttpsInspection => Form::flag(),
            Kind::IgnoreCertificateErrors => Form::flag(),
            Kind::LimitConnect => Form::single(Rule::Ports),
            Kind::LimitCookieLifetime => Form::single(Rule::Minutes),
            Kind::OverwriteLastModified => Form::single(Rule::ModifiedDate),
            Kind::PreventCompression => Form::flag(),
            Kind::Redirect => Form::single(Rule::Text),
            Kind::ServerHeaderFilter => Form::multi(Rule::Text),
            Kind::ServerHeaderTagger => Form::multi(Rule::Text),
            Kind::SessionCookiesOnly => Form::flag(),
            Kind::SetImageBlocker => Form::single(Rule::Text),
            Kind::SuppressTag => Form::multi(Rule::Text),
        }
    }

    /// The kind of that name, if there is one. Names are compared without case, and `hide-referer` is read as
    /// `hide-referrer`.
    pub fn by_name(name: &str) -> Option<Kind>
        ensures { result ≡ kind_named name.now }
    {
        Kind::by_bytes(name.as_bytes())
    }

    #[tactic(auto, unfolding(crate::specs::Kinds::kind_named))]
    pub(crate) fn by_bytes(name: &[u8]) -> Option<Kind>
        ensures { result ≡ kind_named name.now }
    {
        let name = if same_without_case(name, b"hide-referer") {
            b"hide-referrer"
        } else {
            name
        };
        KINDS
            .iter()
            .copied()
            .find(|kind| same_without_case(kind.spelling().as_bytes(), name))
    }

    /// The name, by which `by_name` finds the kind.
    pub fn name(self) -> &'static str
        ensures name { result.now ≡ (entry_of self).name }
        ensures found { kind_named result.now ≡ Some self }
    {
        self.spelling()
    }

    /// The kind's number: its place in byte order of the names, from 0.
    #[tactic(auto, unfolding(crate::specs::Kinds::entry_of))]
    pub fn place(self) -> usize
        ensures place { result ≡ (entry_of self).place }
        ensures within { result < 41 }
    {
        self as usize
    }

    /// What the kind's parameter must be.
    pub fn rule(self) -> Rule
        ensures { result ≡ (entry_of self).rule }
    {
        self.form().rule
    }

    pub fn shape(self) -> Shape
        ensures { result ≡ (entry_of self).shape }
    {
        self.form().shape
    }
}
