// Host patterns.
ghost use Rattle.std.specs.Prelude.{◌≡◌, ◌<◌, ◌↔◌, ◌==◌, ◌++◌, ◌∷◌, [], true, false, IfOk, IfSome, IsOk, IsTrue, MatchOption, length, option_copied};
ghost use Rattle.std.specs.List.{slice_split};
ghost use Rattle.px_base.specs.Cuts.{parts_of};
ghost use Rattle.px_patterns.specs.Globs.{some_tail};
ghost use Rattle.px_patterns.specs.Hosts.{HasFirstLabel, HasLast, LacksFirst, LacksLast, ends_with_dot, host_labels, is_in_label, is_label, labels_in, labels_match, last_plain, rest_bytes, without_last_dot};
ghost use Rattle.px_patterns.specs.declared.labels.LabelPattern.TheVariants.{Glob, Plain};
ghost use Rattle.px_patterns.specs.declared.labels.LabelItem.TheVariants.{AnyRun};

use crate::labels::{glob_matches, run_matches};
use crate::{DOT, Expression, KeptExpression, LabelItem, LabelPattern};
use px_base::{List, Mem, Text, same_without_case};
use std::alloc::Global;

/// The labels of a host pattern.
#[derive(Drop)]
pub struct HostLabels {
    /// Whether labels of the host may stand before: a dot stands at the pattern's front.
    pub open_front: bool,
    /// Whether labels of the host may follow: a dot stands at the pattern's end.
    pub open_end: bool,
    pub labels: List<LabelPattern>,
}

/// The host part of a URL pattern, as Privoxy's manual describes it in "Actions Files", "The Host Pattern".
#[derive(Drop)]
pub enum HostPattern {
    /// An empty host part, or a dot alone: every host.
    Always,
    /// An address in `<>`: the host of the same text, without case.
    Address(Text),
    /// Labels between dots.
    Labels(HostLabels),
}

/// The host part of a URL pattern.
#[derive(Drop)]
pub enum HostPart {
    /// Labels, an address, or nothing.
    Pattern(HostPattern),
    /// An expression that must match a host from its front to its end; none for an empty one, which matches every host.
    Expression(Option<Expression>),
}

/// Under what an index keeps a host pattern: hosts that the pattern matches have this label, or are this address.
#[derive(Clone, Copy, Debug, PartialEq, Eq)]
pub enum Bucket<'a> {
    /// Every host may match.
    Always,
    /// The pattern's last label without `*`, `?` and `[`.
    Label(&'a [u8]),
    /// The address of a pattern in `<>`.
    Address(&'a [u8]),
}

impl HostPart {
    ghost use Rattle.px_patterns.specs.Expressions.{IsKeptOf};
    ghost use Rattle.px_patterns.specs.Hosts.{host_expression_in, host_part_matches};
    ghost use Rattle.px_patterns.specs.Patterns.{NeedsNoHostSearch};

    /// The expression that is searched in hosts, if it has one.
    pub fn expression(&self) -> Option<&Expression>
        ensures { option_copied result ≡ host_expression_in self.now }
    {
        match self {
            HostPart::Pattern(_) => None,
            HostPart::Expression(expression) => expression.as_ref(),
        }
    }

    /// Whether it matches a host, which loses one dot at its end. Without an expression it takes no memory.
    pub fn matches(&self, alloc: Global, host: &[u8]) -> Result<bool, Mem>
        ensures value { IfOk result (λ yes. yes ≡ host_part_matches self.now host.now) }
        ensures no_memory { NeedsNoHostSearch self.now → IsOk result }
    {
        match self {
            HostPart::Pattern(pattern) => Ok(pattern.matches(host)),
            HostPart::Expression(None) => Ok(true),
            HostPart::Expression(Some(expression)) => {
                expression.finds(alloc, without_last_dot(host))
            }
        }
    }

    /// The same with what is kept of its expression, if anything is.
    #[tactic(auto, using(crate::proofs::KeptLemmas::kept_host))]
    pub(crate) fn matches_with(
        &self,
        alloc: Global,
        kept: &mut Option<KeptExpression<'_>>,
        host: &[u8],
    ) -> Result<bool, Mem>
        requires { IsKeptOf (host_expression_in self.now) kept.old }
        ensures value { IfOk result (λ yes. yes ≡ host_part_matches self.now host.now) }
        ensures same { kept.new ≡ kept.old }
        ensures no_memory { NeedsNoHostSearch self.now → IsOk result }
    {
        match kept {
            Some(kept) => kept.finds(alloc, without_last_dot(host)),
            None => self.matches(alloc, host),
        }
    }
}

impl HostPattern {
    ghost use Rattle.px_patterns.specs.Hosts.{HasEachPlain, HostFits, IsBucket, KeepsTo, host_matches, is_candidate, labels_within};

    /// Whether the pattern matches a host. The host loses one dot at its end. It takes no memory.
    #[tactic(auto, unfolding(crate::specs::Hosts::host_matches))]
    pub fn matches(&self, host: &[u8]) -> bool
        ensures value { result ≡ host_matches self.now host.now }
        ensures fits { IsTrue result ↔ HostFits self.now host.now }
        ensures candidate { IsTrue result → IsTrue (is_candidate self.now host.now) }
    {
        match self {
            HostPattern::Always => true,
            HostPattern::Address(text) => same_without_case(text.as_bytes(), host),
            HostPattern::Labels(labels) => labels.matches(without_last_dot(host)),
        }
    }

    /// Its labels, none for an address or every host. Each host that it matches has each of them that is a plain text. It takes
    /// no memory.
    #[tactic(auto, using(crate::proofs::HostLemmas::keeps_each))]
    pub fn labels(&self) -> &[LabelPattern]
        ensures labels { result.now ≡ labels_within self.now }
        ensures keeps { HasEachPlain self.now result.now }
    {
        match self {
            HostPattern::Always => &[],
            HostPattern::Address(_) => &[],
            HostPattern::Labels(labels) => labels.labels.as_slice(),
        }
    }

    /// Under what an index keeps the pattern. It takes no memory.
    pub fn bucket(&self) -> Bucket<'_>
        ensures bucket { IsBucket self.now result }
        ensures keeps { KeepsTo self.now result }
    {
        match self {
            HostPattern::Always => Bucket::Always,
            HostPattern::Address(text) => Bucket::Address(text.as_bytes()),
            HostPattern::Labels(labels) => match last_plain(labels.labels.as_slice()) {
                Some(text) => Bucket::Label(text),
                None => Bucket::Always,
            },
        }
    }
}

/// What a host has beside one of its labels.
#[derive(Clone, Copy)]
pub(crate) enum Rest<'a> {
    /// The labels between the dots of these bytes.
    Labels(&'a [u8]),
    /// No other label.
    Nothing,
}

impl HostLabels {
    ghost use Rattle.px_patterns.specs.Hosts.{fitting_labels, labels_in};

    /// Whether the labels match those of a host without a dot at its end.
    fn matches(&self, host: &[u8]) -> bool
        ensures { result ≡ fitting_labels self.now (labels_in host.now) }
    {
        if self.open_front && !self.open_end {
            matches_at_end(self.labels.as_slice(), host)
        } else {
            self.matches_forwards(host)
        }
    }

    /// The same for labels that aren't sought at the host's end alone: from the host's front on, and from behind each of its
    /// dots where the front is open.
    fn matches_forwards(&self, host: &[u8]) -> bool
        requires { self.now.open_front ≡ true → self.now.open_end ≡ true }
        ensures { result ≡ fitting_labels self.now (labels_in host.now) }
    {
        let mut rest = host;
        'labels: loop {
            if matches_from_front(self.labels.as_slice(), self.open_end, rest) {
                return true;
            }
            if !self.open_front {
                return false;
            }
            match first_label(rest).1 {
                Rest::Labels(more) => rest = more,
                Rest::Nothing => return false,
            }
        }
    }
}

/// Whether the patterns match the labels one by one from the front; others may follow where `open_end` says so.
fn matches_from_front(patterns: &[LabelPattern], open_end: bool, host: &[u8]) -> bool
    ensures { result ≡ labels_match open_end patterns.now (labels_in host.now) }
{
    let mut rest = host;
    for (at, pattern) in patterns.iter().enumerate() {
        match without_first(pattern, rest) {
            Some(Rest::Labels(behind)) => rest = behind,
            Some(Rest::Nothing) => return at + 1 == patterns.len(),
            None => return false,
        }
    }
    open_end
}

/// Whether the patterns match the last labels of a host.
fn matches_at_end(patterns: &[LabelPattern], host: &[u8]) -> bool
    ensures { result ≡ some_tail (labels_match false patterns.now) (labels_in host.now) }
{
    let mut left = patterns;
    let mut rest = host;
    'labels: while let Some((last, before)) = left.split_last() {
        match without_last(last, rest) {
            Some(Rest::Labels(front)) => rest = front,
            Some(Rest::Nothing) => return before.is_empty(),
            None => return false,
        }
        left = before;
    }
    true
}

/// What stands behind the first label and its dot, if one follows, where the pattern matches that label.
fn without_first<'a>(pattern: &LabelPattern, bytes: &'a [u8]) -> Option<Rest<'a>>
    ensures { MatchOption result (LacksFirst pattern.now bytes.now) (λ behind. HasFirstLabel pattern.now bytes.now (rest_bytes behind)) }
{
    match pattern {
        LabelPattern::Plain(text) => without_first_text(text.as_bytes(), bytes),
        LabelPattern::Glob(items) => without_first_glob(items.as_slice(), bytes),
    }
}

/// What stands behind the first label and its dot, if one follows, where items match that label.
fn without_first_glob<'a>(items: &[LabelItem], bytes: &'a [u8]) -> Option<Rest<'a>>
    ensures { MatchOption result (LacksFirst (Glob items.now) bytes.now) (λ behind. HasFirstLabel (Glob items.now) bytes.now (rest_bytes behind)) }
{
    for (at, item) in items.iter().enumerate() {
        if item.is_run() {
            return without_first_run(&items[at + 1..], &bytes[at..]);
        }
        if at == bytes.len() {
            return None;
        }
        let byte = bytes[at];
        if byte == DOT {
            return None;
        }
        if !item.takes(byte) {
            return None;
        }
    }
    without_first_empty(&bytes[items.len()..])
}

/// What stands behind the first label and its dot, if one follows, where a `*` and items match that label.
fn without_first_run<'a>(items: &[LabelItem], bytes: &'a [u8]) -> Option<Rest<'a>>
    ensures { MatchOption result (LacksFirst (Glob (AnyRun ∷ items.now)) bytes.now) (λ behind. HasFirstLabel (Glob (AnyRun ∷ items.now)) bytes.now (rest_bytes behind)) }
{
    let (label, behind) = first_label(bytes);
    if items.is_empty() {
        return Some(behind);
    }
    if run_matches(items, label) {
        Some(behind)
    } else {
        None
    }
}

/// What stands behind the dot at the front, if one is there, where the first label is empty.
fn without_first_empty(bytes: &[u8]) -> Option<Rest<'_>>
    ensures { MatchOption result (LacksFirst (Glob []) bytes.now) (λ behind. HasFirstLabel (Glob []) bytes.now (rest_bytes behind)) }
{
    if bytes.is_empty() {
        return Some(Rest::Nothing);
    }
    let first = bytes[0];
    if first != DOT {
        return None;
    }
    Some(Rest::Labels(&bytes[1..]))
}

/// What stands behind the first label and its dot, if one follows, where that label is a text, without case.
fn without_first_text<'a>(text: &[u8], bytes: &'a [u8]) -> Option<Rest<'a>>
    ensures { MatchOption result (LacksFirst (Plain text.now) bytes.now) (λ behind. HasFirstLabel (Plain text.now) bytes.now (rest_bytes behind)) }
{
    let end = text.len();
    if bytes.len() < end {
        return None;
    }
    if !is_label(text, &bytes[..end]) {
        return None;
    }
    if bytes.len() == end {
        return Some(Rest::Nothing);
    }
    let behind = bytes[end];
    if behind != DOT {
        return None;
    }
    Some(Rest::Labels(&bytes[end + 1..]))
}

/// What stands before the last label and its dot, if one does, where the pattern matches that label.
fn without_last<'a>(pattern: &LabelPattern, bytes: &'a [u8]) -> Option<Rest<'a>>
    ensures { MatchOption result (LacksLast pattern.now bytes.now) (λ front. HasLast pattern.now bytes.now (rest_bytes front)) }
{
    match pattern {
        LabelPattern::Plain(text) => without_last_text(text.as_bytes(), bytes),
        LabelPattern::Glob(items) => {
            let (front, label) = cut_last(bytes);
            if glob_matches(items.as_slice(), label) {
                Some(front)
            } else {
                None
            }
        }
    }
}

/// What stands before the last label and its dot, if one does, where that label is a text, without case.
fn without_last_text<'a>(text: &[u8], bytes: &'a [u8]) -> Option<Rest<'a>>
    ensures { MatchOption result (LacksLast (Plain text.now) bytes.now) (λ front. HasLast (Plain text.now) bytes.now (rest_bytes front)) }
{
    if bytes.len() < text.len() {
        return None;
    }
    let start = bytes.len() - text.len();
    if !is_label(text, &bytes[start..]) {
        return None;
    }
    if start == 0 {
        return Some(Rest::Nothing);
    }
    let before = bytes[start - 1];
    if before != DOT {
        return None;
    }
    Some(Rest::Labels(&bytes[..start - 1]))
}

/// Whether bytes are a text, without case, and a label: no dot stands in them. A walk from their end takes less time.
fn is_label(text: &[u8], bytes: &[u8]) -> bool
    requires { length text.now ≡ length bytes.now }
    ensures { result ≡ is_label text.now bytes.now }
{
    let mut end = bytes.len();
    'bytes: while end > 0 {
        let at = end - 1;
        if !is_in_label(text[at], bytes[at]) {
            return false;
        }
        end = at;
    }
    true
}

/// Whether a byte is another, without case, and no dot.
fn is_in_label(own: u8, byte: u8) -> bool
    ensures { result ≡ is_in_label own byte }
{
    byte != DOT && (own == byte || own.eq_ignore_ascii_case(&byte))
}

/// The first label, and what stands behind its dot, if one follows. Labels are short: a loop finds the dot sooner than memchr.
fn first_label(bytes: &[u8]) -> (&[u8], Rest<'_>)
    ensures parts { labels_in bytes.now ≡ result.0.now ∷ parts_of DOT (rest_bytes result.1) }
    ensures shorter { IfSome (rest_bytes result.1) (λ behind. length behind < length bytes.now) }
{
    for (at, byte) in bytes.iter().enumerate() {
        if *byte == DOT {
            return (&bytes[..at], Rest::Labels(&bytes[at + 1..]));
        }
    }
    (bytes, Rest::Nothing)
}

/// The bytes before the last dot, if there is one, and the last label.
fn cut_last(bytes: &[u8]) -> (Rest<'_>, &[u8])
    ensures { labels_in bytes.now ≡ parts_of DOT (rest_bytes result.0) ++ result.1.now ∷ [] }
{
    let mut start = bytes.len();
    'bytes: while start > 0 {
        let before = start - 1;
        if bytes[before] == DOT {
            return (Rest::Labels(&bytes[..before]), &bytes[start..]);
        }
        start = before;
    }
    (Rest::Nothing, bytes)
}

/// The bytes without a dot at their end. What is left of a URL's host has its labels between dots.
pub fn without_last_dot(bytes: &[u8]) -> &[u8]
    ensures text { result.now ≡ without_last_dot bytes.now }
    ensures labels { slice_split (λ b. b == 46) result.now ≡ host_labels bytes.now }
{
    if ends_with_dot(bytes) {
        &bytes[..bytes.len() - 1]
    } else {
        bytes
    }
}

/// Whether a dot stands at the end.
pub(crate) fn ends_with_dot(text: &[u8]) -> bool
    ensures { result ≡ ends_with_dot text.now }
{
    !text.is_empty() && text[text.len() - 1] == DOT
}

/// The last label without `*`, `?` and `[`.
fn last_plain(patterns: &[LabelPattern]) -> Option<&[u8]>
    ensures { option_copied result ≡ last_plain patterns.now }
{
    let mut left = patterns;
    'labels: while let Some((last, before)) = left.split_last() {
        if let LabelPattern::Plain(text) = last {
            return Some(text.as_bytes());
        }
        left = before;
    }
    None
}
