//! From the name of an image to the image, to its program in the machine and to its listing.

ghost use Rattle.std.specs.Prelude.{◌≡◌, ◌∷◌, [], IfOk, IfErr, OnOk};
ghost use Rattle.image_file.specs.Grammar.{parts_of};
ghost use Rattle.orbit_cli.specs.Changes.{change, AsksFor, Gives, HasServed, IsUnchanged};
ghost use Rattle.orbit_cli.specs.Command.{AreSizes};
ghost use Rattle.orbit_cli.specs.Outcome.{most_image};
ghost use Rattle.orbit_cli.specs.Parts.{ImageCause, IsFetched, IsFetchedProgram, IsFetchedListing};

use crate::refusal::Refusal;
use image_file::{Image, ImageFault, read_image};
use m68020_step::Sizes;
use orbit_monitor::{Boot, boot};
use orbit_tools::listing;
use std::alloc::Global;
use t_ports::ports::{FetchFault, Folder};

/// Most bytes of an image.
const MAX_IMAGE: usize = 0x2000_0000;

fn fetch_bytes<F: Folder>(alloc: Global, img: &str, folder: &mut F) -> Result<Vec<u8>, Refusal>
    ensures asks { AsksFor F.Folder (change folder.old folder.new) (img.now ∷ []) }
    ensures served { OnOk result (HasServed F.Folder (change folder.old folder.new)) }
    ensures same { IsUnchanged F.Folder (change folder.old folder.new) }
    ensures given { IfOk result (λ bytes. Gives F.Folder (change folder.old folder.new) most_image img.now bytes.items) }
    ensures refused { IfErr result (ImageCause F.Folder (change folder.old folder.new) img.now) }
{
    match folder.fetch(alloc, img, MAX_IMAGE) {
        Ok(bytes) => Ok(bytes),
        Err(FetchFault::Failed) => Err(Refusal::Unread),
        Err(FetchFault::Long { .. }) => Err(Refusal::Long),
        Err(FetchFault::Memory) => Err(Refusal::Memory),
    }
}

/// Fetches an image.
fn fetch_image<F: Folder>(alloc: Global, img: &str, folder: &mut F) -> Result<Image, Refusal>
    ensures asks { AsksFor F.Folder (change folder.old folder.new) (img.now ∷ []) }
    ensures served { OnOk result (HasServed F.Folder (change folder.old folder.new)) }
    ensures same { IsUnchanged F.Folder (change folder.old folder.new) }
    ensures found { IfOk result (λ image. IsFetched F.Folder (change folder.old folder.new) img.now (parts_of image)) }
    ensures refused { IfErr result (ImageCause F.Folder (change folder.old folder.new) img.now) }
{
    let bytes = fetch_bytes(alloc, img, folder)?;
    match read_image(alloc, &bytes) {
        Ok(image) => Ok(image),
        Err(ImageFault::Fault { kind, at }) => Err(Refusal::Bad { kind, at }),
        Err(ImageFault::Memory) => Err(Refusal::Memory),
    }
}

/// Fetches an image and loads its program.
pub fn load_image<F: Folder>(
    alloc: Global,
    img: &str,
    sizes: Sizes,
    folder: &mut F,
) -> Result<Boot, Refusal>
    requires { AreSizes sizes }
    ensures asks { AsksFor F.Folder (change folder.old folder.new) (img.now ∷ []) }
    ensures served { OnOk result (HasServed F.Folder (change folder.old folder.new)) }
    ensures same { IsUnchanged F.Folder (change folder.old folder.new) }
    ensures loaded { IfOk result (λ loaded. IsFetchedProgram F.Folder (change folder.old folder.new) img.now sizes loaded) }
    ensures refused { IfErr result (ImageCause F.Folder (change folder.old folder.new) img.now) }
{
    let image = fetch_image(alloc, img, folder)?;
    let loaded = boot(alloc, &image, sizes)?;
    Ok(loaded)
}

/// Fetches an image and makes its listing.
pub fn fetch_listing<F: Folder>(
    alloc: Global,
    img: &str,
    folder: &mut F,
) -> Result<Vec<u8>, Refusal>
    ensures asks { AsksFor F.Folder (change folder.old folder.new) (img.now ∷ []) }
    ensures served { OnOk result (HasServed F.Folder (change folder.old folder.new)) }
    ensures same { IsUnchanged F.Folder (change folder.old folder.new) }
    ensures listed { IfOk result (λ text. IsFetchedListing F.Folder (change folder.old folder.new) img.now text.items) }
    ensures refused { IfErr result (ImageCause F.Folder (change folder.old folder.new) img.now) }
{
    let image = fetch_image(alloc, img, folder)?;
    let text = listing(alloc, &image)?;
    Ok(text)
}
