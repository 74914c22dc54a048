//! Why bytes gave no image: the place of the first fault, or want of memory.

ghost use Rattle.std.specs.Prelude.{◌≡◌};
ghost use Rattle.liq_checkpoint.specs.declared.image_bytes.ImageBytes.TheVariants.{NoMemory};

use thiserror::Error;

/// The bytes are no checkpoint, or there was no memory for what they hold.
#[derive(Clone, Copy, Debug, Error)]
pub enum ImageBytes {
    /// Where the first field begins that cannot stand there, the end where bytes are missing, or
    /// where bytes follow.
    #[error("byte {place} begins what fits no checkpoint")]
    Bad { place: u64 },
    #[error("no memory for the image of a checkpoint")]
    NoMemory,
}

impl From<liq_types::NoMemory> for ImageBytes {
    ghost from_gives = { λ _ e. e ≡ NoMemory };

    fn from(_: liq_types::NoMemory) -> ImageBytes {
        ImageBytes::NoMemory
    }
}
