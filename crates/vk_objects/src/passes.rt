// Parts of passes, and barriers.
ghost use Rattle.std.specs.Prelude.{All, length};
ghost use Rattle.vk_model.specs.Fitting.{OpFits, IsImage, HasRect};
ghost use Rattle.vk_types.specs.declared.ops.Op.TheVariants.{PassPart};
ghost use Rattle.vk_objects.specs.Images.{kind_of_shape, HasAll, FitTheImage, AreClearedBy, IsLoadedBy, IsPassed};
ghost use Rattle.vk_objects.specs.Objects.{kind_of, bytes_of, kinds_of, HasSize, Rewrites, Executes};

use crate::Objects;
use crate::images::clear;
use crate::shapes::{Area, Shape};
use vk_types::{Clear, Clears, HandleId, Load};

/// Writes the texel of a load that clears to the whole image. Other loads change nothing.
fn load_image(bytes: &mut [u8], shape: Shape, load: Load)
    requires { HasAll shape (length bytes.old) }
    ensures { IsLoadedBy bytes.old bytes.new (kind_of_shape shape) load }
{
    match load {
        Load::Clear(texel) => clear(bytes, shape, Area::all(shape), &texel),
        Load::Load | Load::DontCare => {}
    }
}

/// Does the clears of a pass in order.
fn clear_all(bytes: &mut [u8], shape: Shape, clears: &[Clear])
    requires whole { HasAll shape (length bytes.old) }
    requires inside { FitTheImage shape clears.now }
    ensures { AreClearedBy bytes.old bytes.new (kind_of_shape shape) clears.now }
{
    for one in clears {
        let area = Area::of(one.rect, shape);
        clear(bytes, shape, area, &one.texel);
    }
}

/// Does the load and then the clears.
fn pass_over(bytes: &mut [u8], shape: Shape, load: Load, clears: &[Clear])
    requires whole { HasAll shape (length bytes.old) }
    requires inside { FitTheImage shape clears.now }
    ensures { IsPassed bytes.old bytes.new (kind_of_shape shape) load clears.now }
{
    load_image(bytes, shape, load);
    clear_all(bytes, shape, clears);
}

fn put_pass(objects: &mut Objects, image: HandleId, load: Load, clears: &[Clear])
    requires image { IsImage (kind_of objects.old image.0) }
    requires sized { HasSize (kind_of objects.old image.0) (bytes_of objects.old image.0) }
    requires inside { All (λ clear. HasRect (kind_of objects.old image.0) clear.rect) clears.now }
    ensures rewrites { Rewrites objects.old objects.new image.0 }
    ensures passed { IsPassed (bytes_of objects.old image.0) (bytes_of objects.new image.0) (kinds_of objects.old image.0) load clears.now }
{
    let shape = objects.shape(image);
    let mut bytes = objects.take(image);
    pass_over(bytes.as_mut_slice(), shape, load, clears);
    objects.put_back(image, bytes);
}

/// One attachment of a pass. What is not kept is left as it was.
pub(crate) fn pass_part(
    objects: &mut Objects,
    pass: u32,
    point: u8,
    image: HandleId,
    load: Load,
    keep: bool,
    clears: &Clears,
)
    requires fits { OpFits (kind_of objects.old) (PassPart pass point image load keep clears.now) }
    requires sized { HasSize (kind_of objects.old image.0) (bytes_of objects.old image.0) }
    ensures { Executes objects.old objects.new (record { op = PassPart pass point image load keep clears.now }) }
{
    if keep {
        put_pass(objects, image, load, clears.as_slice());
    }
}
