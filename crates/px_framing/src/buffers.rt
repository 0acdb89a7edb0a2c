// The bytes of texts, taken out to be worked on.
ghost use Rattle.std.specs.Prelude.{◌≡◌, IfOk, OnErr};

use px_base::{Mem, Text};
use std::alloc::Global;
use std::mem::replace;

/// The raw bytes and the data of a body so far.
#[derive(Drop)]
pub struct TakenBody {
    pub raw: Vec<u8>,
    pub plain: Vec<u8>,
}

/// Takes the bytes of a text out. After `Mem` the text is as it was.
pub fn take_bytes(alloc: Global, text: &mut Text) -> Result<Vec<u8>, Mem>
    ensures ok { IfOk result (λ bytes. bytes.items ≡ text.old) }
    ensures err { OnErr result (text.new ≡ text.old) }
{
    match replace(text, Text::new(alloc)).into_vec() {
        Ok(bytes) => Ok(bytes),
        Err(back) => {
            *text = back;
            Err(Mem)
        }
    }
}

/// Takes the bytes of both texts out. After `Mem` both are as they were.
pub fn take_both(alloc: Global, raw: &mut Text, plain: &mut Text) -> Result<TakenBody, Mem>
    ensures raw { IfOk result (λ taken. taken.raw.items ≡ raw.old) }
    ensures plain { IfOk result (λ taken. taken.plain.items ≡ plain.old) }
    ensures err { OnErr result ((raw.new ≡ raw.old) × (plain.new ≡ plain.old)) }
{
    let raw_bytes = take_bytes(alloc, raw)?;
    match take_bytes(alloc, plain) {
        Ok(plain_bytes) => Ok(TakenBody {
            raw: raw_bytes,
            plain: plain_bytes,
        }),
        Err(Mem) => {
            *raw = Text::from_vec(raw_bytes);
            Err(Mem)
        }
    }
}
