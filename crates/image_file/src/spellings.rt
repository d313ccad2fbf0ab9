//! Laws of images and their bytes, as contracts of functions that do nothing.

ghost use Rattle.std.specs.Prelude.{◌≡◌, ◌<◌, ◌≤◌, ◌^◌, ℕ, List, length, get_or, Ok};
ghost use Rattle.image_file.specs.Grammar.{Parts, IsImage, IsImageOf, spelling};
ghost use Rattle.image_file.specs.Reading.{image_at};

/// In the bytes of an image no field fails, and they are read as that image.
pub fn spelled_is_read()
    ensures { (bytes : List ℕ) (image : Parts) → IsImageOf bytes image → image_at bytes ≡ Ok image }
{}

/// Bytes that are read as an image are those of that image, each of them.
pub fn read_is_spelled()
    ensures { (bytes : List ℕ) (image : Parts) → ((i : ℕ) → get_or bytes i 0 < 256) → image_at bytes ≡ Ok image → IsImageOf bytes image }
{}

/// Each image has one spelling.
pub fn one_spelling()
    ensures { (bytes others : List ℕ) (image : Parts) → IsImageOf bytes image → IsImageOf others image → bytes ≡ others }
{}

/// Bytes are those of one image at most.
pub fn one_image()
    ensures { (bytes : List ℕ) (image other : Parts) → IsImageOf bytes image → IsImageOf bytes other → image ≡ other }
{}

/// An image has at most as many bytes as `read_image` takes.
pub fn spelling_is_short()
    ensures { (image : Parts) → IsImage image → length (spelling image) ≤ 2 ^ 29 }
{}
