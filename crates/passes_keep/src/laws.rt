//! Laws of the passes together, as contracts of a function that does nothing else.

ghost use Rattle.passes_keep.specs.Laws.{ItemsKeepMeaning, ImageKeepsMeaning, FactorIsWithin};

use cps_conversion::conversion_keeps;
use image_runs::laws::images_keep_too;
use layout_relation::laid_out_keeps;

/// Where each form is what its pass promises of the form before it, the items, and the image that is made of them, keep the meaning of the
/// unit with every LAMBDA counted as escaping, in the room of any sizes: by so many instructions for each evaluation.
pub fn passes_keep_meaning()
    ensures items { ItemsKeepMeaning }
    ensures image { ImageKeepsMeaning }
    ensures factor { FactorIsWithin }
{
    conversion_keeps();
    laid_out_keeps();
    images_keep_too();
}
