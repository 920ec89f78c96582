// A fit image: the lent bytes of an image that opens, and the layout of its values in them. Whoever makes one has proved that the values
// lie in the bytes as the questions establish, so whoever is handed one may read them.

ghost use Rattle.std.specs.Prelude.{length};
ghost use Rattle.rules.specs.Limits.{Open};

use rules::Layout;

#[derive(Clone, Copy)]
pub struct FitImage<'a> {
    pub bytes: &'a [u8],
    pub layout: Layout,
    pub ghost fits: { Open (length bytes.now) layout },
}
