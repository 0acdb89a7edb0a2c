// The fields that a parser found in a head.
ghost use Rattle.std.specs.Prelude.{◌≡◌, ◌≤◌, ◌==◌, length, map, count_by, vec_len, All, IfOk};
ghost use Rattle.httparse.specs.Spans.{IsHeaderWithin};
ghost use Rattle.px_head.specs.Fields.{field_at};

use httparse::spans::{EMPTY_HEADER_SPAN, HeaderSpan};
use px_base::{List, Mem, Text};
use px_fields::Field;
use std::alloc::{AllocError, Global};

/// The fields that spans cover.
pub fn copy_fields(alloc: Global, block: &[u8], spans: &[HeaderSpan]) -> Result<List<Field>, Mem>
    requires { All (IsHeaderWithin (length block.now)) spans.now }
    ensures { IfOk result (λ fields. fields ≡ map (field_at block.now) spans.now) }
{
    let mut fields = List::with_capacity(alloc, spans.len())?;
    for span in spans {
        fields.add(Field {
            name: Text::from_bytes(alloc, span.name.of(block))?,
            value: Text::from_bytes(alloc, span.value.of(block))?,
        })?;
    }
    Ok(fields)
}

/// Room for a span a line of the block, so that each head that the block is has room.
pub fn room_for(alloc: Global, block: &[u8]) -> Result<Vec<HeaderSpan>, AllocError>
    ensures { IfOk result (λ room. vec_len room ≡ count_by (λ b. b == 10) block.now) }
{
    vec![in alloc; EMPTY_HEADER_SPAN; line_feeds(block)]
}

/// So many bytes are counted at once: a multiple of what LLVM compares in one step, and no more than a `u8` counts.
const PIECE: usize = 224;

fn line_feeds(block: &[u8]) -> usize
    ensures { result ≡ count_by (λ b. b == 10) block.now }
{
    let mut count = 0;
    let mut rest = block;
    'pieces: while !rest.is_empty() {
        let (piece, more) = rest.split_at(PIECE.min(rest.len()));
        count += few_line_feeds(piece) as usize;
        rest = more;
    }
    count
}

/// The line feeds of a piece. They are counted in a `u8`, so that LLVM compares many bytes in one step.
fn few_line_feeds(piece: &[u8]) -> u8
    requires { length piece.now ≤ 255 }
    ensures { result ≡ count_by (λ b. b == 10) piece.now }
{
    let mut count = 0;
    for byte in piece {
        count += (*byte == b'\n') as u8;
    }
    count
}
