ghost use Rattle.std.specs.Prelude.{◌≡◌};
ghost use Rattle.uss_rest.specs.Versions.{version_in};

/// The version in the path of a subscription. The subscriptions of this profile have version 1; 0 stands for any other text, which
/// is the version of none, so that the discovery service refuses it as stale.
pub fn version_of(text: &[u8]) -> u32
    ensures { result ≡ version_in text.now }
{
    if text == b"1".as_slice() { 1 } else { 0 }
}
