// The shapes of images, and areas in them.
ghost use Rattle.std.specs.Prelude.{◌≡◌, ◌<◌, ◌≤◌};

use vk_types::Rect;

/// The shape of an image: its format, and how many columns and rows it has.
#[derive(Clone, Copy, Debug)]
pub(crate) struct Shape {
    pub(crate) format: u8,
    pub(crate) width: u32,
    pub(crate) height: u32,
    ghost format_is_known: { format < 12 },
    ghost some_columns: { 1 ≤ width },
    ghost few_columns: { width ≤ 2048 },
    ghost some_rows: { 1 ≤ height },
    ghost few_rows: { height ≤ 2048 },
}

/// A rectangle inside an image.
#[derive(Clone, Copy, Debug)]
pub(crate) struct Area {
    pub(crate) left: usize,
    pub(crate) top: usize,
    pub(crate) width: usize,
    pub(crate) height: usize,
}

impl Shape {
    ghost use Rattle.vk_model.specs.Cells.{place, texel_size};
    ghost use Rattle.vk_objects.specs.Images.{kind_of_shape};

    /// How many bytes a texel has.
    pub(crate) fn texel(self) -> usize
        ensures size { result ≡ texel_size (kind_of_shape self) }
        ensures some { 0 < result }
        ensures few { result ≤ 16 }
    {
        crate::objects::texel_size(self.format)
    }

    /// Where a texel begins.
    pub(crate) fn place(self, column: usize, row: usize) -> usize
        requires column { column ≤ self.width }
        requires row { row ≤ self.height }
        ensures { result ≡ place (kind_of_shape self) column row 0 }
    {
        (row * self.width as usize + column) * self.texel()
    }
}

impl Area {
    ghost use Rattle.vk_types.specs.declared.regions.Rect.{Rect};
    ghost use Rattle.vk_model.specs.Fitting.{LiesInside};
    ghost use Rattle.vk_objects.specs.Images.{rect_of, whole_rect, IsInside};

    /// A rectangle that lies inside an image.
    pub(crate) fn of(rect: Rect, shape: Shape) -> Area
        requires { LiesInside rect shape.width shape.height }
        ensures rect { rect_of result ≡ rect }
        ensures inside { IsInside result shape }
    {
        Area {
            left: rect.x as usize,
            top: rect.y as usize,
            width: rect.w as usize,
            height: rect.h as usize,
        }
    }

    /// The whole image.
    pub(crate) fn all(shape: Shape) -> Area
        ensures rect { rect_of result ≡ whole_rect shape }
        ensures inside { IsInside result shape }
    {
        Area {
            left: 0,
            top: 0,
            width: shape.width as usize,
            height: shape.height as usize,
        }
    }
}
