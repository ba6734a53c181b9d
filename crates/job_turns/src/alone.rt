//! Whether threads can take their turns alone: no image of their job has data that threads write.

ghost use Rattle.std.specs.Prelude.{◌≡◌};
ghost use Rattle.loaded_modules.specs.Images.{image_at};
ghost use Rattle.job_turns.specs.Alone.{has_data, has_data_in};

use loaded_modules::Modules;
use module_data::data_part;

/// Whether the image with a number has data that programs write.
fn has_data_at(modules: &Modules, number: u32) -> bool
    ensures { result ≡ has_data_in (image_at modules.now number) }
{
    match modules.image(number) {
        Some(image) => data_part(image).is_some(),
        None => false,
    }
}

/// Whether any image of a job has data that programs write.
pub fn has_data(modules: &Modules) -> bool
    ensures { result ≡ has_data modules.now }
{
    for index in 0..modules.image_count() {
        if has_data_at(modules, index + 1) {
            return true;
        }
    }
    false
}
