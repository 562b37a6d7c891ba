//! What is told of images.

ghost use Rattle.std.specs.Prelude.{◌≡◌, List, ℕ, Some, true};
ghost use Rattle.pcr_banks.specs.declared.alg.Alg.{Alg};
ghost use Rattle.pcr_banks.specs.Names.{digest_in, hash_of};
ghost use Rattle.binding_laws.specs.BankBinding.{Collision};
ghost use Rattle.boot_log.specs.Names.{LogEvent};
ghost use Rattle.boot_answers.specs.Images.{IsNoImage};
ghost use Rattle.answer_laws.specs.HashedImages.{IsImageBytes};

/// No image is left out: an event whose digest is the hash of an image's bytes is passed over as none only where these bytes collide with the
/// event's data. Whatever data root shows for it, also the image's own bytes.
pub fn image_is_told()
    ensures { (alg : Alg) (event : LogEvent) (image : List ℕ) → digest_in event.digests alg ≡ Some (hash_of alg image) → IsImageBytes image
        → IsNoImage alg event → Collision alg (λ bytes. bytes ≡ image) (λ bytes. bytes ≡ event.payload) }
{}
