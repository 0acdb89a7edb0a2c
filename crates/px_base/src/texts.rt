// A list of bytes.
ghost use Rattle.std.specs.Prelude.{◌≡◌, ◌++◌, ◌∷◌, [], ◌==◌, ◌≤◌, IfOk, IfErr, OnOk, OnErr, length, take};

use crate::Mem;
use crate::short_texts::{ROOM, ShortText};
use std::alloc::Global;
use std::marker::Model;

/// Where the bytes of a text are: in the text itself, or in memory of their own.
#[derive(Drop)]
enum Form {
    Short(ShortText),
    Long(Vec<u8>),
}

// A text moves as four words.
const _: () = prove!(size_of::<Text>() == 32);

/// A list of bytes, seen as that list. It needn't be UTF-8. A short one takes no memory.
pub struct Text {
    form: Form,
    alloc: Global,
}

// Written out: a derived drop would show both forms wherever a value that holds texts is taken apart.
impl Drop for Text {
    fn drop(self) {
        let Text { form, alloc: _ } = self;
        drop(form);
    }
}

impl Model for Text {
    ghost use Rattle.std.specs.Prelude.{List, ℕ};
    ghost use Rattle.px_base.specs.Texts.{form_bytes};

    ghost Value = { List ℕ };

    ghost view = { λ t. form_bytes t.form };
}

/// A vector of those bytes, with room for so many more.
fn grown(alloc: Global, bytes: &[u8], more: usize) -> Result<Vec<u8>, Mem>
    ensures { IfOk result (λ longer. longer.items ≡ bytes.now) }
{
    let room = bytes.len().saturating_add(more).max(2 * ROOM);
    let mut longer = Vec::with_capacity(alloc, room)?;
    longer.extend_from_slice(bytes)?;
    Ok(longer)
}

/// A vector of the bytes of both.
fn joined(alloc: Global, front: &[u8], back: &[u8]) -> Result<Vec<u8>, Mem>
    ensures { IfOk result (λ bytes. bytes.items ≡ front.now ++ back.now) }
{
    let mut bytes = grown(alloc, front, back.len())?;
    bytes.extend_from_slice(back)?;
    Ok(bytes)
}

impl Text {
    /// The empty text, which takes no memory.
    pub fn new(alloc: Global) -> Text
        ensures { result ≡ [] }
    {
        Text {
            form: Form::Short(ShortText::new()),
            alloc,
        }
    }

    /// The empty text, with room for so many bytes.
    pub fn with_capacity(alloc: Global, room: usize) -> Result<Text, Mem>
        ensures { IfOk result (λ text. text ≡ []) }
    {
        if room <= ROOM {
            return Ok(Text::new(alloc));
        }
        Ok(Text {
            form: Form::Long(Vec::with_capacity(alloc, room)?),
            alloc,
        })
    }

    /// The bytes of a vector, which takes no memory.
    pub fn from_vec(bytes: Vec<u8>) -> Text
        ensures { result ≡ bytes.items }
    {
        let alloc = *bytes.allocator();
        Text {
            form: Form::Long(bytes),
            alloc,
        }
    }

    /// The bytes as a vector, which takes memory where the text is short. A refusal is want of memory: it hands the text back,
    /// and comes only for a text of at most 30 bytes.
    pub fn into_vec(self) -> Result<Vec<u8>, Text>
        ensures ok { IfOk result (λ bytes. bytes.items ≡ self) }
        ensures refused { IfErr result (λ back. back ≡ self) }
        ensures short { IfErr result (λ back. length back ≤ 30) }
    {
        let Text { form, alloc } = self;
        match form {
            Form::Long(bytes) => Ok(bytes),
            Form::Short(short) => match short.as_bytes().to_vec(alloc) {
                Ok(bytes) => Ok(bytes),
                Err(_) => Err(Text {
                    form: Form::Short(short),
                    alloc,
                }),
            },
        }
    }

    /// A copy of the bytes.
    pub fn from_bytes(alloc: Global, bytes: &[u8]) -> Result<Text, Mem>
        ensures { IfOk result (λ text. text ≡ bytes.now) }
    {
        if bytes.len() <= ROOM {
            let mut short = ShortText::new();
            short.push_all(bytes);
            return Ok(Text {
                form: Form::Short(short),
                alloc,
            });
        }
        Ok(Text {
            form: Form::Long(bytes.to_vec(alloc)?),
            alloc,
        })
    }

    /// Makes room for so many bytes more. The text is as it was.
    pub fn reserve(&mut self, more: usize) -> Result<(), Mem>
        ensures { self.new ≡ self.old }
    {
        let longer = match &mut self.form {
            Form::Short(short) => {
                if more <= ROOM - short.len() {
                    return Ok(());
                }
                grown(self.alloc, short.as_bytes(), more)?
            }
            Form::Long(long) => {
                long.reserve(more)?;
                return Ok(());
            }
        };
        self.form = Form::Long(longer);
        Ok(())
    }

    /// Adds one byte at the end. After `Mem` the text is as it was.
    pub fn push(&mut self, byte: u8) -> Result<(), Mem>
        ensures ok { OnOk result (self.new ≡ self.old ++ byte ∷ []) }
        ensures err { OnErr result (self.new ≡ self.old) }
    {
        let longer = match &mut self.form {
            Form::Short(short) => {
                if short.len() < ROOM {
                    short.push(byte);
                    return Ok(());
                }
                joined(self.alloc, short.as_bytes(), &[byte])?
            }
            Form::Long(long) => {
                long.push(byte)?;
                return Ok(());
            }
        };
        self.form = Form::Long(longer);
        Ok(())
    }

    /// Adds bytes at the end. After `Mem` the text is as it was.
    pub fn push_all(&mut self, bytes: &[u8]) -> Result<(), Mem>
        ensures ok { OnOk result (self.new ≡ self.old ++ bytes.now) }
        ensures err { OnErr result (self.new ≡ self.old) }
    {
        let longer = match &mut self.form {
            Form::Short(short) => {
                if bytes.len() <= ROOM - short.len() {
                    short.push_all(bytes);
                    return Ok(());
                }
                joined(self.alloc, short.as_bytes(), bytes)?
            }
            Form::Long(long) => {
                long.extend_from_slice(bytes)?;
                return Ok(());
            }
        };
        self.form = Form::Long(longer);
        Ok(())
    }

    /// Keeps the first `len` bytes, or all where there are fewer. The memory is kept for later bytes.
    pub fn truncate(&mut self, len: usize)
        ensures { self.new ≡ take len self.old }
    {
        match &mut self.form {
            Form::Short(short) => short.truncate(len),
            Form::Long(long) => long.truncate(len),
        }
    }

    /// Takes all bytes out. The memory is kept for later bytes.
    pub fn clear(&mut self)
        ensures { self.new ≡ [] }
    {
        match &mut self.form {
            Form::Short(short) => short.truncate(0),
            Form::Long(long) => long.clear(),
        }
    }

    pub fn as_bytes(&self) -> &[u8]
        ensures { result.now ≡ self.now }
    {
        match &self.form {
            Form::Short(short) => short.as_bytes(),
            Form::Long(long) => long.as_slice(),
        }
    }

    pub fn len(&self) -> usize
        ensures { result ≡ length self.now }
    {
        match &self.form {
            Form::Short(short) => short.len(),
            Form::Long(long) => long.len(),
        }
    }

    pub fn is_empty(&self) -> bool
        ensures { result ≡ (length self.now == 0) }
    {
        self.len() == 0
    }
}
