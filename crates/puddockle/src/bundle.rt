// Bundles.
ghost use Rattle.bundles.specs.Bundles.{bundle_verdict};
ghost use Rattle.puddockle.specs.Returns.{Returned};

use crate::answer;

pub fn puddockle_check_bundle(bundle: &[u8], place: &mut u64) -> u32
    ensures { Returned result place.new (bundle_verdict bundle.now) }
{
    *place = 0;
    match bundles::check_bundle(bundle) {
        Err(f) => answer::refused(f, place),
        Ok(()) => 0,
    }
}
