// Where a head block ends.
ghost use Rattle.std.specs.Prelude.{◌≡◌, ◌≢◌, ◌<◌, ◌≤◌, ◌++◌, ℕ, List, length, take};
ghost use Rattle.httparse.specs.Grammar as grammar;
ghost use Rattle.px_head.specs.Blocks.{head_end, EndsWithin, IsHeadBlock};

use crate::searches::HeadSearch;

/// Where a head block ends among the bytes so far.
#[derive(Clone, Copy, Debug, PartialEq, Eq)]
pub enum HeadEnd {
    /// The block is the first so many bytes.
    At(usize),
    /// It isn't whole, and may still become whole within the limit.
    NotYet,
    /// It isn't whole within the limit.
    Over,
}

/// Looks for a head block of at most `limit` bytes at the front: the empty lines, then the lines up to and with the next
/// empty line (RFC 9112, sections 2.1 and 2.2). It takes no memory.
pub fn find_head(bytes: &[u8], limit: usize) -> HeadEnd
    ensures value { result ≡ head_end limit bytes.now }
    ensures within { EndsWithin (length bytes.now) limit result }

    // At n says that the first n bytes are a block, and it is said of each block within the limit.
    ensures block { (n : ℕ) → result ≡ HeadEnd.At n → IsHeadBlock (take n bytes.now) }
    ensures found { (front rest : List ℕ) → bytes.now ≡ front ++ rest → length front ≤ limit → IsHeadBlock front
        → result ≡ HeadEnd.At (length front) }

    // More bytes change only NotYet.
    ensures stable { (more : List ℕ) → result ≢ HeadEnd.NotYet → head_end limit (bytes.now ++ more) ≡ result }

    // A head that the grammar reads at the front is the block.
    ensures request { (h : grammar.RequestHead) (rest : List ℕ) → grammar.ReadsRequest bytes.now h rest
        → length (grammar.print_request h) ≤ limit → result ≡ HeadEnd.At (length (grammar.print_request h)) }
    ensures response { (h : grammar.ResponseHead) (rest : List ℕ) → grammar.ReadsResponse bytes.now h rest
        → length (grammar.print_response h) ≤ limit → result ≡ HeadEnd.At (length (grammar.print_response h)) }
{
    let mut search = HeadSearch::new();
    search.go_on(bytes, limit)
}
