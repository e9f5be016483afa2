// Images that a device may have.
ghost use Rattle.gl_model.specs.declared.objects.ImageInfo.{ImageInfo};
ghost use Rattle.vk_model.specs.Fitting.{IsKind};
ghost use Rattle.transfer.specs.Shown.{store_kind, IsStorable};

/// An image whose store is of a kind that a device may have has sides that the laws on nodes ask for.
pub fn kinds_are_storable()
    ensures { (info : ImageInfo) → IsKind (store_kind info) → IsStorable info }
{}
