// The areas of a layout, and where they end.
ghost use Rattle.std.specs.Prelude.{◌≡◌, ◌<◌, ◌^◌, [], get_or};
ghost use Rattle.ap_layout.specs.Areas.{end_from};

use ap_layout::{Area, Layout};

/// The areas of an input's loads, where the inputs are counted from 0.
pub fn areas_of<'a>(lay: &'a Layout, i: usize) -> &'a [Area]
    requires { i < 2 }
    ensures { result.now ≡ get_or lay.now.areas i [] }
{
    &lay.areas[i]
}

/// Where some areas end that a cursor placed from `from` on.
pub fn end_behind(areas: &[Area], from: u64) -> u64
    requires { end_from from areas.now < 2 ^ 63 }
    ensures { result ≡ end_from from areas.now }
{
    let mut end = from;
    for area in areas {
        end = end.max(area.file + area.len);
    }
    end
}
