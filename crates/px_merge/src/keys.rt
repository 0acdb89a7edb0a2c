// Numbers of texts, the same for texts that are the same without case.
ghost use Rattle.std.specs.Prelude.{◌≡◌, ◌<◌};
ghost use Rattle.px_merge.specs.Keys.{key_number, slot_number};

/// The number of a text, which is the same without case.
#[tactic(auto, unfolding(crate::specs::Keys::number_behind, crate::specs::Keys::key_number))]
fn key_number(text: &[u8]) -> u64
    ensures value { result ≡ key_number text.now }
    ensures within { result < 4294967291 }
{
    let mut number = 0u64;
    let mut rest = text;
    'bytes: while let Some((byte, others)) = rest.split_first() {
        number = (number * 257 + byte.to_ascii_lowercase() as u64) % 4_294_967_291;
        rest = others;
    }
    number
}

/// Which of some slots a text has; 0 where there are none.
#[tactic(auto, unfolding(crate::specs::Keys::slot_number))]
pub fn slot_number(count: usize, text: &[u8]) -> usize
    ensures { result ≡ slot_number count text.now }
{
    if count == 0 {
        return 0;
    }
    key_number(text) as usize % count
}
