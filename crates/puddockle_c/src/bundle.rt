// Bundles.
ghost use Rattle.bundles.specs.Bundles.{bundle_verdict};
ghost use Rattle.puddockle.specs.Returns.{Returned};

#[unsafe(no_mangle)]
pub extern "C" fn puddockle_check_bundle(bundle: &[u8], place: &mut u64) -> u32
    ensures { Returned result place.new (bundle_verdict bundle.now) }
{
    puddockle::bundle::puddockle_check_bundle(bundle, place)
}
