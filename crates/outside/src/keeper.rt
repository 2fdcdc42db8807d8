// What keeps images under names.
ghost use Rattle.std.specs.Prelude.{ℕ, Option};
ghost use Rattle.outside.specs.Outside.{Told, CountsFault};
ghost use Rattle.outside.specs.Keeper.{Images, Loads, Saves, Appends};

use crate::KeepError;

/// Images under names, which last from one run to the next.
pub trait Keeper {
    /// What is kept under each name, where the keeper tells it.
    ghost images: { Self → Option Images };

    /// How often the keeper has failed.
    ghost faults: { Self → ℕ };

    /// The image that is kept under the name; `None` where none is.
    ///
    /// # Errors
    ///
    /// `Failed` is counted. No load changes what is kept.
    fn load(&mut self, name: &[u8]) -> Result<Option<Vec<u8>>, KeepError>
        ensures images { Told (images self.old) (images self.new) (λ old new. Loads name.now result old new) }
        ensures cause { CountsFault KeepError.Failed (faults self.old) (faults self.new) result };

    /// Keeps the image under the name, in place of what is kept there.
    ///
    /// # Errors
    ///
    /// `Failed` is counted. After either refusal the old image is kept, or the new one. What is kept under other names
    /// stays.
    fn save(&mut self, name: &[u8], image: &[u8]) -> Result<(), KeepError>
        ensures images { Told (images self.old) (images self.new) (λ old new. Saves name.now image.now result old new) }
        ensures cause { CountsFault KeepError.Failed (faults self.old) (faults self.new) result };

    /// Puts the piece behind what is kept under the name; where nothing is, the piece is then kept alone.
    ///
    /// # Errors
    ///
    /// `Failed` is counted. After either refusal all is as before, or a front of the piece stands behind what was kept: none
    /// of it, a part or the whole. What is kept under other names stays.
    fn append(&mut self, name: &[u8], piece: &[u8]) -> Result<(), KeepError>
        ensures images { Told (images self.old) (images self.new) (λ old new. Appends name.now piece.now result old new) }
        ensures cause { CountsFault KeepError.Failed (faults self.old) (faults self.new) result };
}
