//! URLs, and patterns that match URLs and tags.
#![tactic(auto)]

ghost use Rattle.std.specs.Prelude.{◌≡◌};

mod expressions;
mod faults;
mod host_readings;
mod hosts;
mod kept;
mod label_readings;
mod labels;
mod pattern_readings;
mod patterns;
mod places;
mod unions;
mod url_readings;
mod urls;

pub use expressions::Expression;
pub use faults::{PatternFault, UrlFault};
pub use hosts::{Bucket, HostLabels, HostPart, HostPattern, without_last_dot};
pub use kept::{KeptExpression, KeptPattern};
pub use labels::{ClassRange, LabelItem, LabelPattern};
pub use patterns::{TagPattern, UrlPattern};
pub use unions::{KeptUnion, Union, UnionBuilder};
pub use urls::Url;

/// The port of a URL without one.
pub const DEFAULT_PORT: u16 = 80;

const ADDRESS_BEGIN: u8 = b'<';

const ADDRESS_END: u8 = b'>';

const AT: u8 = b'@';

const BRACKET_BEGIN: u8 = b'[';

const BRACKET_END: u8 = b']';

const CARET: u8 = b'^';

const CLASS_BEGIN: u8 = b'[';

const CLASS_END: u8 = b']';

const COLON: u8 = b':';

const DASH: u8 = b'-';

const DOT: u8 = b'.';

const HASH: u8 = b'#';

const QUESTION_MARK: u8 = b'?';

const SLASH: u8 = b'/';

const STAR: u8 = b'*';

/// The bytes and the port of the rules.
pub fn constants()
    ensures default_port { DEFAULT_PORT ≡ 80 }
    ensures address_begin { ADDRESS_BEGIN ≡ 60 }
    ensures address_end { ADDRESS_END ≡ 62 }
    ensures at { AT ≡ 64 }
    ensures bracket_begin { BRACKET_BEGIN ≡ 91 }
    ensures bracket_end { BRACKET_END ≡ 93 }
    ensures caret { CARET ≡ 94 }
    ensures class_begin { CLASS_BEGIN ≡ 91 }
    ensures class_end { CLASS_END ≡ 93 }
    ensures colon { COLON ≡ 58 }
    ensures dash { DASH ≡ 45 }
    ensures dot { DOT ≡ 46 }
    ensures hash { HASH ≡ 35 }
    ensures question_mark { QUESTION_MARK ≡ 63 }
    ensures slash { SLASH ≡ 47 }
    ensures star { STAR ≡ 42 }
{}
