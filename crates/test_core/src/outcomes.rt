//! What comes of checkpoints and of protocols.

ghost use Rattle.liq_types.specs.Image.{IsLimit};
ghost use Rattle.liq_types.specs.Soundness.{HasTables};

use liq_checkpoint::{ImageBytes, decode, encode};
use liq_core::laws::protocols_are_sound;
use liq_core::{ImageFault, Protocol};
use liq_types::{Image, NoMemory};
use std::alloc::Global;

/// What comes of a checkpoint.
#[derive(Clone, Copy, PartialEq, Eq)]
pub enum Outcome {
    /// It is that of the image.
    Same,
    /// The image has another one.
    Other,
    /// It is none: the place of the fault.
    Bad(u64),
    /// No protocol begins with its image: the first rule that it breaks.
    Unsound(u8),
    NoMemory,
}

/// Whether the protocol's image has this checkpoint.
pub fn of_protocol(alloc: Global, protocol: &Protocol, bytes: &[u8]) -> Outcome {
    // odd: law called
    protocols_are_sound(protocol);
    match protocol.image() {
        Ok(image) => of_image(alloc, &image, bytes),
        Err(NoMemory) => Outcome::NoMemory,
    }
}

/// Whether the image has this checkpoint.
pub fn of_image(alloc: Global, image: &Image, bytes: &[u8]) -> Outcome
    requires tables { HasTables image.now }
    requires limit { IsLimit image.now.limit }
{
    match encode(alloc, image) {
        Ok(written) if written.as_slice() == bytes => Outcome::Same,
        Ok(_) => Outcome::Other,
        Err(NoMemory) => Outcome::NoMemory,
    }
}

/// Whether the protocol that begins with the checkpoint's image has an image with the same one.
pub fn of_checkpoint(alloc: Global, bytes: &[u8]) -> Outcome {
    match decode(alloc, bytes) {
        Ok(image) => of_beginning(alloc, image, bytes),
        Err(ImageBytes::Bad { place }) => Outcome::Bad(place),
        Err(ImageBytes::NoMemory) => Outcome::NoMemory,
    }
}

fn of_beginning(alloc: Global, image: Image, bytes: &[u8]) -> Outcome
    requires { HasTables image }
{
    match Protocol::from_image(alloc, image) {
        Ok(protocol) => of_protocol(alloc, &protocol, bytes),
        Err(ImageFault::Unsound { rule }) => Outcome::Unsound(rule),
        Err(ImageFault::NoMemory) => Outcome::NoMemory,
    }
}
