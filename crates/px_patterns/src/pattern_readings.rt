// Reads URL patterns.
ghost use Rattle.std.specs.Prelude.{◌≡◌, ◌∷◌, Ok, IfErr, IfOk, option_copied};
ghost use Rattle.px_patterns.specs.Expressions.{expression_of};
ghost use Rattle.px_patterns.specs.Faults.{IsPatternRefusal};
ghost use Rattle.px_patterns.specs.Hosts.{host_pattern};
ghost use Rattle.px_patterns.specs.declared.hosts.HostPattern.TheVariants.{Address};
ghost use Rattle.px_patterns.specs.Patterns.{addressed_pattern, behind_slash, has_protocol, host_expression, path_expression, pattern_of_parts, ports_of, whole_host, with_expression, with_parts, with_path};

use crate::host_readings::read_host;
use crate::places::{begins_with, behind_first, is_address, split_at};
use crate::{CARET, Expression, HostPart, HostPattern, PatternFault, SLASH, UrlPattern};
use px_base::{Ports, PortsFault, Text};
use std::alloc::Global;

/// Whether a text begins with `http://` or `https://`, without case.
pub fn has_protocol(text: &[u8]) -> bool
    ensures { result ≡ has_protocol text.now }
{
    begins_with(text, b"http://") || begins_with(text, b"https://")
}

/// Reads a host part, and what stands behind the slash that ends it.
pub fn read_parts(alloc: Global, part: &str, path: Option<&str>) -> Result<UrlPattern, PatternFault>
    ensures pattern { IfOk result (λ pattern. pattern_of_parts part.now (behind_slash (option_copied path.entry)) ≡ Ok pattern) }
    ensures refused { IfErr result (IsPatternRefusal (pattern_of_parts part.now (behind_slash (option_copied path.entry)))) }
{
    match behind_first(part, '<') {
        Some(rest) => read_addressed(alloc, rest, path),
        None => match split_at(part, ':') {
            Some((name, ports)) => read_named(alloc, name, Some(ports), path),
            None => read_named(alloc, part, None, path),
        },
    }
}

/// Reads what stands behind the `<` of an address.
fn read_addressed(alloc: Global, text: &str, path: Option<&str>) -> Result<UrlPattern, PatternFault>
    ensures pattern { IfOk result (λ pattern. addressed_pattern text.now (behind_slash (option_copied path.entry)) ≡ Ok pattern) }
    ensures refused { IfErr result (IsPatternRefusal (addressed_pattern text.now (behind_slash (option_copied path.entry)))) }
{
    match split_at(text, '>') {
        Some((address, behind)) => {
            if !is_address(address.as_bytes()) {
                return Err(PatternFault::BadAddress);
            }
            match behind_first(behind, ':') {
                Some(ports) => read_address(alloc, address, Some(ports), path),
                None => if behind.is_empty() {
                    read_address(alloc, address, None, path)
                } else {
                    Err(PatternFault::BadAddress)
                },
            }
        }
        None => Err(PatternFault::BadAddress),
    }
}

/// Reads ports, then labels, then a path, for a host by its labels.
fn read_named(
    alloc: Global,
    name: &str,
    ports: Option<&str>,
    path: Option<&str>,
) -> Result<UrlPattern, PatternFault>
    ensures pattern { IfOk result (λ pattern. with_parts (host_pattern name.now) (ports_of (option_copied ports.entry))
        (behind_slash (option_copied path.entry)) ≡ Ok pattern) }
    ensures refused { IfErr result (IsPatternRefusal (with_parts (host_pattern name.now) (ports_of (option_copied ports.entry))
        (behind_slash (option_copied path.entry)))) }
{
    let ports = read_ports(alloc, ports)?;
    let host = read_host(alloc, name.as_bytes())?;
    with_path(alloc, HostPart::Pattern(host), ports, path)
}

/// Reads ports, then a path, for a host by its address.
fn read_address(
    alloc: Global,
    address: &str,
    ports: Option<&str>,
    path: Option<&str>,
) -> Result<UrlPattern, PatternFault>
    ensures pattern { IfOk result (λ pattern. with_parts (Ok (Address address.now)) (ports_of (option_copied ports.entry))
        (behind_slash (option_copied path.entry)) ≡ Ok pattern) }
    ensures refused { IfErr result (IsPatternRefusal (with_parts (Ok (Address address.now)) (ports_of (option_copied ports.entry))
        (behind_slash (option_copied path.entry)))) }
{
    let ports = read_ports(alloc, ports)?;
    let host = HostPattern::Address(Text::from_bytes(alloc, address.as_bytes())?);
    with_path(alloc, HostPart::Pattern(host), ports, path)
}

/// Reads the ports behind a colon, if there is one.
#[tactic(auto, unfolding(crate::specs::Patterns::ports_of))]
fn read_ports(alloc: Global, text: Option<&str>) -> Result<Option<Ports>, PatternFault>
    ensures ports { IfOk result (λ ports. ports_of (option_copied text.entry) ≡ Ok ports) }
    ensures refused { IfErr result (IsPatternRefusal (ports_of (option_copied text.entry))) }
{
    match text {
        Some(text) => {
            if text.is_empty() {
                return Err(PatternFault::BadPort);
            }
            match Ports::read(alloc, text) {
                Ok(ports) => Ok(Some(ports)),
                Err(PortsFault::Bad) => Err(PatternFault::BadPort),
                Err(PortsFault::Mem) => Err(PatternFault::Mem),
            }
        }
        None => Ok(None),
    }
}

/// Reads a host expression, and what stands behind the slash that ends it.
pub fn read_expression_parts(
    alloc: Global,
    part: &str,
    path: Option<&str>,
) -> Result<UrlPattern, PatternFault>
    ensures pattern { IfOk result (λ pattern. with_expression (host_expression part.now) (behind_slash (option_copied path.entry)) ≡ Ok pattern) }
    ensures refused { IfErr result (IsPatternRefusal (with_expression (host_expression part.now) (behind_slash (option_copied path.entry)))) }
{
    let expression = read_host_expression(alloc, part)?;
    with_path(alloc, HostPart::Expression(expression), None, path)
}

/// Reads the expression of a host part: alone, and again as one of a whole host.
#[tactic(auto, unfolding(crate::specs::Patterns::host_expression))]
fn read_host_expression(alloc: Global, text: &str) -> Result<Option<Expression>, PatternFault>
    ensures expression { IfOk result (λ expression. host_expression text.now ≡ Ok expression) }
    ensures refused { IfErr result (IsPatternRefusal (host_expression text.now)) }
{
    if text.is_empty() {
        return Ok(None);
    }
    let _alone = Expression::read(alloc, text)?;
    let expression = read_whole_host(alloc, text)?;
    Ok(Some(expression))
}

/// Reads an expression as one that must match a host from its front to its end.
fn read_whole_host(alloc: Global, text: &str) -> Result<Expression, PatternFault>
    ensures expression { IfOk result (λ expression. expression_of (whole_host text.now) ≡ Ok expression) }
    ensures refused { IfErr result (IsPatternRefusal (expression_of (whole_host text.now))) }
{
    let mut whole = String::from_str(alloc, "^(?:")?;
    whole.push_str(text)?;
    whole.push_str(")$")?;
    Expression::read(alloc, whole.as_str())
}

/// A pattern of a host and ports, with the path that stands behind a slash, if there is one.
#[tactic(auto, unfolding(crate::specs::Patterns::path_expression))]
fn with_path(
    alloc: Global,
    host: HostPart,
    ports: Option<Ports>,
    path: Option<&str>,
) -> Result<UrlPattern, PatternFault>
    ensures pattern { IfOk result (λ pattern. with_path host ports (path_expression (behind_slash (option_copied path.entry))) ≡ Ok pattern) }
    ensures refused { IfErr result (IsPatternRefusal (with_path host ports (path_expression (behind_slash (option_copied path.entry))))) }
{
    match path {
        Some(path) => {
            let expression = read_path(alloc, path)?;
            Ok(UrlPattern {
                host,
                ports,
                path: Some(expression),
            })
        }
        None => Ok(UrlPattern {
            host,
            ports,
            path: None,
        }),
    }
}

/// Reads the expression of the path pattern, which begins at the front of a path.
fn read_path(alloc: Global, behind: &str) -> Result<Expression, PatternFault>
    ensures path { IfOk result (λ path. expression_of (CARET ∷ SLASH ∷ behind.now) ≡ Ok path) }
    ensures refused { IfErr result (IsPatternRefusal (expression_of (CARET ∷ SLASH ∷ behind.now))) }
{
    let mut text = String::from_str(alloc, "^/")?;
    text.push_str(behind)?;
    Expression::read(alloc, text.as_str())
}
