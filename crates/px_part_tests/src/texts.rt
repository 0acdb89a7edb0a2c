//! Texts at the lengths where they leave their own room.
use crate::common::{holds, same};
use px_base::Text;
use std::alloc::Global;
use std::process::Abort;

/// A hundred bytes, each ten of which differ from the others.
const BYTES: &[u8] =
    b"0a1a2a3a4a0b1b2b3b4b0c1c2c3c4c0d1d2d3d4d0e1e2e3e4e0f1f2f3f4f0g1g2g3g4g0h1h2h3h4h0i1i2i3i4i0j1j2j3j4j";

/// What is added behind them.
const MORE: &[u8] = b"and more";

/// Asserts that a text is those bytes, by each call that tells of it.
fn is(rt: &impl Abort, text: &Text, bytes: &[u8]) {
    assert_eq!(rt; text.as_bytes(), bytes);
    same(rt, text.len(), bytes.len());
    same(rt, text.is_empty(), bytes.is_empty());
}

/// A text to which the bytes are added one by one.
fn pushed(rt: &impl Abort, alloc: Global, bytes: &[u8]) -> Text {
    let mut text = Text::new(alloc);
    for byte in bytes {
        text.push(*byte).expect(rt, "memory");
    }
    text
}

/// Asserts that the text has those bytes before and after it grows.
fn grows(rt: &impl Abort, mut text: Text, bytes: &[u8]) {
    is(rt, &text, bytes);
    text.reserve(40).expect(rt, "memory");
    is(rt, &text, bytes);
    text.push_all(MORE).expect(rt, "memory");
    same(rt, text.len(), bytes.len().saturating_add(MORE.len()));
    holds(rt, text.as_bytes().starts_with(bytes), "the front");
    holds(rt, text.as_bytes().ends_with(MORE), "what was added");
    text.truncate(bytes.len());
    is(rt, &text, bytes);
}

/// Asserts that the text goes through a vector, and is used again.
fn goes_through_a_vector(rt: &impl Abort, text: Text, bytes: &[u8]) {
    let Ok(vector) = text.into_vec() else {
        return holds(rt, false, "a vector");
    };
    let mut text = Text::from_vec(vector);
    is(rt, &text, bytes);
    text.clear();
    is(rt, &text, b"");
    text.push_all(MORE).expect(rt, "memory");
    is(rt, &text, MORE);
}

#[test]
fn texts_of_each_length_hold_their_bytes(rt: HostRuntime) {
    let alloc = rt.alloc();
    for len in [0usize, 1, 29, 30, 31, 100] {
        let bytes = &BYTES[..len.min(BYTES.len())];
        grows(&rt, pushed(&rt, alloc, bytes), bytes);
        let copied = Text::from_bytes(alloc, bytes).expect(&rt, "memory");
        grows(&rt, copied, bytes);
        goes_through_a_vector(&rt, pushed(&rt, alloc, bytes), bytes);
        let roomy = Text::with_capacity(alloc, len).expect(&rt, "memory");
        is(&rt, &roomy, b"");
    }
}
