//! Texts and bytes.
ghost use Rattle.std.specs.Prelude.{◌≡◌, ◌↔◌, ◌++◌, IfOk, OnOk, OnErr, IsTrue, [], length, string_bytes};
ghost use Rattle.std.specs.Str.{IsUtf8};
ghost use Rattle.fs_path.specs.TextOrder.{text_cmp, text_eq};

use std::alloc::{AllocError, Global};
use std::cmp::Ordering;
use std::marker::Model;

/// A text. Contracts see its bytes, which are UTF-8, and texts are ordered by bytes, as Firestore orders strings.
#[derive(Drop, Debug)]
pub struct Text {
    string: String,
}

impl Model for Text {
    ghost use Rattle.std.specs.Prelude.{List, ℕ, string_bytes};

    ghost Value = { List ℕ };

    ghost view = { λ t. string_bytes t.string };
}

impl Text {
    /// The text of a `String`, without a copy.
    pub fn of(string: String) -> Text
        ensures { result ≡ string_bytes string }
    {
        Text { string }
    }

    /// A copy of a text.
    pub fn from_str(alloc: Global, text: &str) -> Result<Text, AllocError>
        ensures { IfOk result (λ t. t ≡ text.now) }
    {
        Ok(Text {
            string: String::from_str(alloc, text)?,
        })
    }

    /// The text as a `String`, without a copy.
    pub fn into_string(self) -> String
        ensures { string_bytes result ≡ self }
    {
        self.string
    }

    pub fn as_str(&self) -> &str
        ensures value { result.now ≡ self.now }
        ensures utf8 { IsUtf8 self.now }
    {
        self.string.as_str()
    }

    /// Its number of bytes.
    pub fn len(&self) -> usize
        ensures { result ≡ length self.now }
    {
        self.string.len()
    }

    pub fn is_empty(&self) -> bool
        ensures { IsTrue result ↔ (self.now ≡ []) }
    {
        self.string.is_empty()
    }

    pub fn copy(&self, alloc: Global) -> Result<Text, AllocError>
        ensures { IfOk result (λ t. t ≡ self.now) }
    {
        Text::from_str(alloc, self.string.as_str())
    }
}

impl PartialEq for Text {
    ghost use Rattle.fs_path.specs.TextOrder.{text_eq_partial};

    ghost eq = { text_eq };

    ghost laws = { text_eq_partial };

    fn eq(&self, other: &Text) -> bool {
        self.string.as_str() == other.string.as_str()
    }
}

impl Eq for Text {
    ghost use Rattle.fs_path.specs.TextOrder.{text_eq_equiv};

    ghost laws = { text_eq_equiv };
}

impl PartialOrd for Text {
    ghost use Rattle.std.specs.Ordering.{as_partial_cmp};
    ghost use Rattle.fs_path.specs.TextOrder.{text_cmp, text_po};

    ghost partial_cmp = { as_partial_cmp text_cmp };

    ghost laws = { text_po };

    fn partial_cmp(&self, other: &Text) -> Option<Ordering> {
        Some(self.cmp(other))
    }
}

impl Ord for Text {
    ghost use Rattle.std.specs.Prelude.{refl};
    ghost use Rattle.fs_path.specs.TextOrder.{text_cmp_total, text_ties};

    ghost cmp = { text_cmp };

    ghost total = { text_cmp_total };

    ghost matches_partial_cmp = { λ _ _. refl };

    ghost matches_eq = { text_ties };

    fn cmp(&self, other: &Text) -> Ordering {
        self.string.as_str().cmp(other.string.as_str())
    }
}

/// Bytes that need not be text.
#[derive(Drop)]
pub struct Bytes {
    items: Vec<u8>,
}

impl Model for Bytes {
    ghost use Rattle.std.specs.Prelude.{List, ℕ};

    ghost Value = { List ℕ };

    ghost view = { λ b. b.items.items };
}

impl Bytes {
    /// No bytes. The allocator serves those that are appended.
    pub fn new(alloc: Global) -> Bytes
        ensures { result ≡ [] }
    {
        Bytes {
            items: Vec::new(alloc),
        }
    }

    /// The bytes of a `Vec`, without a copy.
    pub fn of(items: Vec<u8>) -> Bytes
        ensures { result ≡ items.items }
    {
        Bytes { items }
    }

    /// A copy of the bytes of a slice.
    pub fn from_slice(alloc: Global, bytes: &[u8]) -> Result<Bytes, AllocError>
        ensures { IfOk result (λ b. b ≡ bytes.now) }
    {
        Ok(Bytes {
            items: Vec::from_slice(alloc, bytes)?,
        })
    }

    /// Adds bytes at the end.
    pub fn append(&mut self, bytes: &[u8]) -> Result<(), AllocError>
        ensures ok { OnOk result (self.new ≡ self.old ++ bytes.now) }
        ensures err { OnErr result (self.new ≡ self.old) }
    {
        self.items.extend_from_slice(bytes)
    }

    /// The bytes as a `Vec`, without a copy.
    pub fn into_vec(self) -> Vec<u8>
        ensures { result.items ≡ self }
    {
        self.items
    }

    pub fn as_slice(&self) -> &[u8]
        ensures { result.now ≡ self.now }
    {
        self.items.as_slice()
    }

    pub fn len(&self) -> usize
        ensures { result ≡ length self.now }
    {
        self.items.len()
    }

    pub fn is_empty(&self) -> bool
        ensures { IsTrue result ↔ (self.now ≡ []) }
    {
        self.items.is_empty()
    }

    pub fn copy(&self, alloc: Global) -> Result<Bytes, AllocError>
        ensures { IfOk result (λ b. b ≡ self.now) }
    {
        Bytes::from_slice(alloc, self.items.as_slice())
    }
}

impl PartialEq for Bytes {
    ghost use Rattle.fs_path.specs.TextOrder.{text_eq_partial};

    ghost eq = { text_eq };

    ghost laws = { text_eq_partial };

    fn eq(&self, other: &Bytes) -> bool {
        self.items.as_slice() == other.items.as_slice()
    }
}

impl Eq for Bytes {
    ghost use Rattle.fs_path.specs.TextOrder.{text_eq_equiv};

    ghost laws = { text_eq_equiv };
}

impl PartialOrd for Bytes {
    ghost use Rattle.std.specs.Ordering.{as_partial_cmp};
    ghost use Rattle.fs_path.specs.TextOrder.{text_cmp, text_po};

    ghost partial_cmp = { as_partial_cmp text_cmp };

    ghost laws = { text_po };

    fn partial_cmp(&self, other: &Bytes) -> Option<Ordering> {
        Some(self.cmp(other))
    }
}

impl Ord for Bytes {
    ghost use Rattle.std.specs.Prelude.{refl};
    ghost use Rattle.fs_path.specs.TextOrder.{text_cmp_total, text_ties};

    ghost cmp = { text_cmp };

    ghost total = { text_cmp_total };

    ghost matches_partial_cmp = { λ _ _. refl };

    ghost matches_eq = { text_ties };

    fn cmp(&self, other: &Bytes) -> Ordering {
        self.items.as_slice().cmp(other.items.as_slice())
    }
}
