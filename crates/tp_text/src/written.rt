ghost use Rattle.hex.specs.Hex.{encode_lower};
ghost use Rattle.std.specs.Fmt.{decimal};
ghost use Rattle.std.specs.Prelude.{◌≡◌, ◌++◌, ◌∷◌, [], false, OnOk};
ghost use Rattle.tp_text.specs.Framing.{end_words, header_words};
ghost use Rattle.tp_text.specs.Names.{actor_word, id_word, site_word};
ghost use Rattle.tp_text.specs.Writing.{ended, with_word, with_words};

use crate::names::{put_actor, put_id, put_site};
use itoa::Buffer;
use std::alloc::Global;
use std::marker::Model;
use tp_base::{ActorName, Bytes, CommandId, NoMemory, Put, Site};

/// A writer of lines of words. It puts the spaces between words.
#[derive(Debug, Drop)]
pub struct Text {
    out: Put,
    begun: bool,
    alloc: Global,
}

impl Model for Text {
    ghost use Rattle.tp_text.specs.Writing.{Written};

    ghost Value = { Written };

    ghost view = { λ text. record { bytes = text.out; begun = text.begun } };
}

impl Text {
    /// The empty text. It takes no memory.
    pub fn new(alloc: Global) -> Self
        ensures { result ≡ record { bytes = []; begun = false } }
    {
        Text {
            out: Put::new(alloc),
            begun: false,
            alloc,
        }
    }

    pub fn word(&mut self, w: &[u8]) -> Result<(), NoMemory>
        ensures { OnOk result (self.new ≡ with_word self.old w.now) }
    {
        if self.begun {
            self.out.byte(b' ')?;
        }
        self.begun = true;
        self.out.bytes(w)
    }

    /// Writes a decimal number as a word.
    pub fn number(&mut self, n: u64) -> Result<(), NoMemory>
        ensures { OnOk result (self.new ≡ with_word self.old (decimal n)) }
    {
        let mut buffer = Buffer::new();
        self.word(buffer.format(n).as_bytes())
    }

    pub fn site(&mut self, site: Site) -> Result<(), NoMemory>
        ensures { OnOk result (self.new ≡ with_word self.old (site_word site)) }
    {
        let mut word = Put::new(self.alloc);
        put_site(&mut word, site)?;
        self.word(word.finish().as_slice())
    }

    pub fn id(&mut self, id: CommandId) -> Result<(), NoMemory>
        ensures { OnOk result (self.new ≡ with_word self.old (id_word id)) }
    {
        let mut word = Put::new(self.alloc);
        put_id(&mut word, id)?;
        self.word(word.finish().as_slice())
    }

    pub fn actor(&mut self, actor: ActorName) -> Result<(), NoMemory>
        ensures { OnOk result (self.new ≡ with_word self.old (actor_word actor)) }
    {
        let mut word = Put::new(self.alloc);
        put_actor(&mut word, actor)?;
        self.word(word.finish().as_slice())
    }

    /// Writes the first line of a text of this name.
    pub fn header(&mut self, name: &[u8]) -> Result<(), NoMemory>
        ensures { OnOk result (self.new ≡ ended (with_words self.old (header_words name.now))) }
    {
        self.word(name)?;
        self.word(b"1")?;
        self.end_line()
    }

    /// Writes the last line of a text.
    pub fn end(&mut self) -> Result<(), NoMemory>
        ensures { OnOk result (self.new ≡ ended (with_words self.old end_words)) }
    {
        self.word(b"end")?;
        self.end_line()
    }

    /// Writes bytes as a hexadecimal word.
    pub fn hex(&mut self, b: &[u8]) -> Result<(), NoMemory>
        ensures { OnOk result (self.new ≡ with_word self.old (encode_lower b.now)) }
    {
        let digits = hex::encode(self.alloc, b)?;
        self.word(digits.as_bytes())
    }

    pub fn end_line(&mut self) -> Result<(), NoMemory>
        ensures { OnOk result (self.new ≡ ended self.old) }
    {
        self.begun = false;
        self.out.byte(b'\n')
    }

    /// What was written. It takes no memory.
    pub fn finish(self) -> Bytes
        ensures { result ≡ self.bytes }
    {
        let Text {
            out,
            begun: _,
            alloc: _,
        } = self;
        out.finish()
    }
}
