// The values of a map.
ghost use Rattle.std.specs.Prelude.{◌<◌};
ghost use Rattle.maps.specs.Windows.{pixels_of};
ghost use Rattle.morphology.specs.Pictures.{At};

use maps::Map;

// The value of a pixel.
pub(crate) fn value_at<V: Copy>(map: &Map<V>, pixel: usize) -> V
    requires { pixel < pixels_of map.now }
    ensures { At map.now.values.now pixel result }
{
    map.values()[pixel]
}
