//! Laws of the runs of such images, as contracts of a function that does nothing else.

ghost use Rattle.image_runs.specs.Laws.{ImagesRunAsItems, ImagesRunAsSafeItems, ImagesKeepWithin, ImagesKeepAlike};

use item_runs::laws::{bytes_keep_too, bytes_run_as_items};

/// What is seen of the image is what is seen of the items, up to where none stands, and at every bound where their run is safe. So what
/// the items keep the image keeps, with sizes and without.
pub fn images_keep_too()
    ensures seen { ImagesRunAsItems }
    ensures safe { ImagesRunAsSafeItems }
    ensures within { ImagesKeepWithin }
    ensures alike { ImagesKeepAlike }
{
    bytes_run_as_items();
    bytes_keep_too();
}
