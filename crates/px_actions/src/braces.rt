// Braces that balance, and the words of a line (the manual's chapter on actions files).
ghost use Rattle.std.specs.Prelude.{◌≡◌, ◌+◌, ◌<◌, ◌≤◌, ◌^◌, ◌∷◌, [], false, IfNone, IfSome, IsTrue, length};
ghost use Rattle.px_actions.specs.Braces.{counted_text, counted_byte, is_behind, open_after, balances, is_closed, words, depths, piece_length};
ghost use Rattle.px_base.specs.Blanks.{trim_front};

use px_base::is_blank;

/// How braces stand at a place in a text.
#[derive(Clone, Copy)]
struct Braces {
    /// How many are open.
    open: usize,
    /// Whether the next byte stands behind a backslash.
    behind: bool,
}

impl Braces {
    /// How they stand after a byte.
    fn after(self, byte: u8) -> Braces
        requires { self.open < 2 ^ 63 }
        ensures open { result.open ≡ open_after self.open (counted_byte self.behind byte) }
        ensures behind { result.behind ≡ is_behind self.behind byte }
    {
        let Braces { open, behind } = self;
        if behind {
            return Braces {
                open,
                behind: false,
            };
        }
        match byte {
            b'{' => Braces {
                open: open + 1,
                behind: false,
            },
            b'}' => Braces {
                open: open.saturating_sub(1),
                behind: false,
            },
            _ => Braces {
                open,
                behind: byte == b'\\',
            },
        }
    }
}

/// Whether the braces of a text balance. A backslash and the byte behind it aren't counted.
#[tactic(auto, unfolding(crate::specs::Braces::balances))]
pub fn balances(text: &[u8]) -> bool
    ensures { result ≡ balances text.now }
{
    let mut braces = Braces {
        open: 0,
        behind: false,
    };
    let mut rest = text;
    'bytes: while let Some((byte, others)) = rest.split_first() {
        if *byte == b'}' && !braces.behind && braces.open == 0 {
            return false;
        }
        braces = braces.after(*byte);
        rest = others;
    }
    braces.open == 0
}

/// Whether what stands behind an open brace ends with the brace that balances it.
#[tactic(auto, using(crate::proofs::BraceLemmas::counted_length), unfolding(crate::specs::Braces::is_closed))]
pub fn is_closed(text: &[u8]) -> bool
    ensures closed { result ≡ is_closed text.now }
    ensures some { IsTrue result → 0 < length text.now }
{
    let mut braces = Braces {
        open: 1,
        behind: false,
    };
    let mut rest = text;
    'bytes: while let Some((byte, others)) = rest.split_first() {
        braces = braces.after(*byte);
        rest = others;
        if braces.open == 0 {
            return rest.is_empty();
        }
    }
    false
}

/// The first word of a text, and what stands behind it, or `None` where there is no word. Words are set apart by white
/// space outside braces.
pub fn split_word(text: &[u8]) -> Option<(&[u8], &[u8])>
    ensures none { IfNone result (words text.now ≡ []) }
    ensures word { IfSome result (λ w. words text.now ≡ w.0.now ∷ words w.1.now) }
    ensures shorter { IfSome result (λ w. length w.1.now < length text.now) }
{
    let text = without_front(text);
    if text.is_empty() {
        return None;
    }
    Some(text.split_at(first_piece(text)))
}

/// Without the white space at the front.
pub(crate) fn without_front(text: &[u8]) -> &[u8]
    ensures value { result.now ≡ trim_front text.now }
    ensures shorter { length result.now ≤ length text.now }
{
    let mut rest = text;
    'blanks: while let Some((byte, others)) = rest.split_first() {
        if !is_blank(*byte) {
            return rest;
        }
        rest = others;
    }
    rest
}

/// How many bytes stand before the first white space outside braces.
fn first_piece(text: &[u8]) -> usize
    ensures value { result ≡ piece_length text.now (depths 0 (counted_text false text.now)) }
    ensures within { result ≤ length text.now }
{
    let mut braces = Braces {
        open: 0,
        behind: false,
    };
    let mut rest = text;
    let mut len = 0;
    'bytes: while let Some((byte, others)) = rest.split_first() {
        if braces.open == 0 && is_blank(*byte) {
            return len;
        }
        braces = braces.after(*byte);
        rest = others;
        len += 1;
    }
    len
}
