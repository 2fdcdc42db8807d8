//! Appending the spellings of paths and contents, and how long they are.

ghost use Rattle.std.specs.Prelude.{◌≡◌, ◌≤◌, ◌++◌, length, OnOk, OnErr};
ghost use Rattle.byte_fields.specs.Field.{IsFront};
ghost use Rattle.file_paths.specs.Limits.{max_file};
ghost use Rattle.file_paths.specs.Spelling.{path, content};

use crate::content::Content;
use crate::path::Path;
use byte_fields::{put_u16, put_u32};
use std::alloc::AllocError;

impl Path {
    /// Appends the spelling: two bytes for the length of the text, and the text.
    ///
    /// # Errors
    ///
    /// `AllocError` where memory runs out. A front of the spelling is then appended.
    #[tactic(auto, using(byte_fields::proofs::Fronts::front_none, byte_fields::proofs::Fronts::front_second))]
    pub fn spell(value: &Path, out: &mut Vec<u8>) -> Result<(), AllocError>
        ensures ok { OnOk result (out.new.items ≡ out.old.items ++ path value.now) }
        ensures err { OnErr result (IsFront out.old.items out.new.items (path value.now)) }
    {
        put_u16(out, value.text_len() as u16)?;
        value.put_text(out)
    }

    /// The number of bytes of the spelling.
    #[tactic(auto, using(crate::proofs::Sizes::path_length))]
    pub fn size(&self) -> u64
        ensures value { result ≡ length (path self.now) }
        ensures bound { result ≤ 1026 }
    {
        2 + self.text_len()
    }
}

impl Content {
    /// Appends the spelling: four bytes for the length, and the bytes.
    ///
    /// # Errors
    ///
    /// `AllocError` where memory runs out. A front of the spelling is then appended.
    #[tactic(auto, using(byte_fields::proofs::Fronts::front_none, byte_fields::proofs::Fronts::front_before))]
    pub fn spell(value: &Content, out: &mut Vec<u8>) -> Result<(), AllocError>
        requires { length value.now ≤ max_file }
        ensures ok { OnOk result (out.new.items ≡ out.old.items ++ content value.now) }
        ensures err { OnErr result (IsFront out.old.items out.new.items (content value.now)) }
    {
        let bytes = value.bytes();
        put_u32(out, bytes.len() as u32)?;
        out.extend_from_slice(bytes)?;
        Ok(())
    }
}
