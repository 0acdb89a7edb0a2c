// A search for the end of a head block that goes on as bytes come.
ghost use Rattle.std.specs.Prelude.{◌≡◌, ◌≢◌, ◌≤◌, ◌++◌, ◌↔◌, ℕ, List, [], length, take, IfSome, IfNone};
ghost use Rattle.px_head.specs.Blocks.{head_end, block_len, head_block_end as end_of_spec, EndsWithin, IsHeadBlock, IsFirstLine, is_empty_line as is_empty_line_spec};
ghost use Rattle.px_head.specs.Searches.{HasPassed, Searched, BeginsSearched, SearchedOrAnew};

use crate::blocks::HeadEnd;
use memchr::memchr;

/// How far a search for the end of a head block has come. It takes no memory.
#[derive(Clone, Copy, Debug)]
pub struct HeadSearch {
    /// Where the first line that isn't whole begins.
    at: usize,
    /// Whether a line that isn't empty stands before it.
    begun: bool,
    /// Up to where the bytes were looked at.
    looked: usize,
}

impl HeadSearch {
    /// A search that has looked at no bytes.
    pub fn new() -> HeadSearch
        ensures { (limit : ℕ) → Searched limit [] result }
    {
        HeadSearch {
            at: 0,
            begun: false,
            looked: 0,
        }
    }

    /// Looks on in bytes that begin with those of the call before, and only at those that are new, up to `limit`. The
    /// answer is that of `find_head`. Behind a block the search begins anew.
    pub fn go_on(&mut self, bytes: &[u8], limit: usize) -> HeadEnd
        requires { BeginsSearched limit bytes.now self.old }
        ensures value { result ≡ head_end limit bytes.now }
        ensures within { EndsWithin (length bytes.now) limit result }

        // At n says that the first n bytes are a block, and it is said of each block within the limit.
        ensures block { (n : ℕ) → result ≡ HeadEnd.At n → IsHeadBlock (take n bytes.now) }
        ensures found { (front rest : List ℕ) → bytes.now ≡ front ++ rest → length front ≤ limit → IsHeadBlock front
            → result ≡ HeadEnd.At (length front) }

        // More bytes change only NotYet.
        ensures stable { (more : List ℕ) → result ≢ HeadEnd.NotYet → head_end limit (bytes.now ++ more) ≡ result }
        ensures searched { SearchedOrAnew limit bytes.now result self.new }
    {
        end_of(self.pass_lines(front(bytes, limit)), bytes.len() < limit)
    }

    /// Passes whole lines, and answers where the block ends if one of them ends it.
    fn pass_lines(&mut self, window: &[u8]) -> Option<usize>
        requires { HasPassed window.now self.old }
        ensures value { result ≡ block_len window.now }
        ensures passed { IfNone result (HasPassed window.now self.new) }
        ensures looked { IfNone result (self.new.looked ≡ length window.now) }
        ensures anew { IfSome result (λ _. (limit : ℕ) → Searched limit [] self.new) }
    {
        'lines: loop {
            match first_line_len(&window[self.looked..]) {
                None => {
                    self.looked = window.len();
                    return None;
                }
                Some(len) => {
                    let end = self.looked + len;
                    let is_empty = is_empty_line(&window[self.at..end]);
                    self.at = end;
                    self.looked = end;
                    if !is_empty {
                        self.begun = true;
                    } else if self.begun {
                        *self = HeadSearch::new();
                        return Some(end);
                    }
                }
            }
        }
    }
}

/// Where the block ends, if there is one, and whether there are fewer bytes than the limit.
fn end_of(len: Option<usize>, below: bool) -> HeadEnd
    ensures { result ≡ end_of_spec len below }
{
    match len {
        Some(at) => HeadEnd::At(at),
        None => {
            if below {
                HeadEnd::NotYet
            } else {
                HeadEnd::Over
            }
        }
    }
}

/// The first bytes, at most so many.
fn front(bytes: &[u8], limit: usize) -> &[u8]
    ensures { result.now ≡ take limit bytes.now }
{
    if limit < bytes.len() {
        &bytes[..limit]
    } else {
        bytes
    }
}

/// The length of the first whole line, with its end.
fn first_line_len(bytes: &[u8]) -> Option<usize>
    ensures { IsFirstLine bytes.now result }
{
    match memchr(b'\n', bytes) {
        Some(at) => Some(at + 1),
        None => None,
    }
}

/// Whether the line is LF or CR LF.
fn is_empty_line(line: &[u8]) -> bool
    ensures { result ≡ is_empty_line_spec line.now }
{
    matches!(line, [b'\n'] | [b'\r', b'\n'])
}
