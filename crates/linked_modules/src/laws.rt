//! Laws of images that are linked together. The functions do nothing: what they ensure is the law.

ghost use Rattle.linked_modules.specs.Dataless.{DatalessObjectsShareNoData};
ghost use Rattle.linked_modules.specs.Together.{LinkedImagesAreModules};

/// Images that are linked together are images of a job: each variable that one of them imports is shared by a startup
/// image, and a late image without the static TLS flag needs no fixed offset from the thread pointer.
pub fn linked_images_are_modules()
    ensures { LinkedImagesAreModules }
{}

/// If no object has a writable section with bytes, no image that is linked from them has data that threads share:
/// programs write only to their blocks and stacks.
pub fn dataless_objects_share_no_data()
    ensures { DatalessObjectsShareNoData }
{}
