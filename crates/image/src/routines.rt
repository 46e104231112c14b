// What a run looks up of a routine: its row in the image, and where its commands stand.
ghost use Rattle.std.specs.Prelude.{◌≡◌, ◌+◌, ◌<◌, get_or};
ghost use Rattle.image.specs.Layout.{slots_of, arguments_of};

use command::byte_at;

// The slots in routine r's row of the image.
pub fn slots_of(image: &[u8], r: u8) -> u8
    ensures { result ≡ slots_of image.now r }
{
    byte_at(image, 4 * usize::from(r) + 1)
}

// The arguments in routine r's row of the image.
pub fn arguments_of(image: &[u8], r: u8) -> u8
    ensures { result ≡ arguments_of image.now r }
{
    byte_at(image, 4 * usize::from(r) + 2)
}

// Where a position of routine r stands in the image, by the codes' starts.
pub fn place_in_image(starts: &[u16], r: u8, position: u16) -> usize
    ensures { (result ≡ get_or starts.now r 0 + position) × (result < 131072) }
{
    let start = starts.get(usize::from(r)).copied().unwrap_or(0);
    usize::from(start) + usize::from(position)
}
