//! What is numbered from 1 in the order of a list, as images and threads are.

ghost use Rattle.std.specs.Prelude.{◌≡◌, ◌≤◌, ◌-◌, option_map};
ghost use Rattle.job_text.specs.Numbering.{at_number};

/// The index, counted from 0, of what has this number.
pub fn index_of(number: u32) -> usize
    requires { 1 ≤ number }
    ensures { result ≡ number - 1 }
{
    number as usize - 1
}

/// What has this number. `None` exactly at 0 and past the last.
pub fn at_number<T>(items: &[T], number: u32) -> Option<&T>
    ensures { option_map (λ item. item.now) result ≡ at_number items.now number }
{
    if number == 0 {
        return None;
    }
    items.get(index_of(number))
}
