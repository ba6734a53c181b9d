//! The instances of images.

ghost use Rattle.std.specs.Prelude.{◌≡◌, ◌<◌, ◌^◌};
ghost use Rattle.address_map.specs.Map.{moved_bias, owner_at};

/// The load bias of an instance of an image that is moved, by its number: the distance from where the image was laid
/// out.
pub fn moved_bias(number: u32) -> u64
    ensures value { result ≡ moved_bias number }
    ensures low { result < 2 ^ 59 }
{
    (1 << 32) + u64::from(number) * (1 << 26)
}

/// The number of the instance whose code lies at an address.
#[tactic(auto, unfolding(crate::specs::Map::owner_at))]
pub fn owner(place: u64) -> u64
    ensures { result ≡ owner_at place }
{
    if place < 1 << 32 {
        return 1;
    }
    (place - (1 << 32)) / (1 << 26)
}
